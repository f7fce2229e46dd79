//! The commands of `dconfdb`: what each does, its arguments and its help.
use crate::word::{self, Word};

/// A command, as clap is told of it.
#[derive(Clone, Copy)]
pub(crate) struct Line<'a> {
    pub(crate) name: &'a str,
    /// What it does, in a line.
    pub(crate) about: &'a str,
    /// What comes after its long help: its files, examples and the exit status.
    pub(crate) more: &'a str,
    pub(crate) words: &'a [Word<'a>],
}

/// The files, the examples and the exit status of a command.
macro_rules! help {
    (files: $($file:literal),+; examples: $examples:literal) => {
        concat!(
            "Files:\n",
            $($file),+,
            "\n\nExample:\n",
            $examples,
            "\n\nExit status:\n  0 success, 1 error (a line on stderr says why), 2 usage error"
        )
    };
}

/// Those of a command that opens a store. `user` is what becomes of the user's database.
macro_rules! store_help {
    (input: $input:literal; user: $user:literal; examples: $examples:literal) => {
        help!(
            files: $input,
            "  profile     lists the databases, one per line: user-db:NAME, system-db:NAME\n",
            "              or file-db:PATH\n",
            "  NAME.user   the user's database, for user-db:NAME",
            $user,
            "\n  NAME.db     a site's database, for system-db:NAME";
            examples: $examples
        )
    };
}

/// Those of a command that reads a store.
macro_rules! read_help {
    (examples: $examples:literal) => {
        store_help!(input: ""; user: ""; examples: $examples)
    };
}

/// Those of a command that changes the user's values.
macro_rules! change_help {
    (input: $input:literal; examples: $examples:literal) => {
        store_help!(
            input: $input;
            user: "; replaced atomically:\n              after a crash it is the old file or the new one";
            examples: $examples
        )
    };
}

/// What comes after the long help of the program.
pub(crate) const PROGRAM: &str =
    "It works in the current directory, or on the store that --user or --store FOLDER names: then
$DCONFDB_PROFILE, or else the profile in its folder, or else /etc/dconfdb/profile counts.

Installed beside it:
  watch       Print what changes in a store, until it is interrupted
  lint        Compare keyfiles, locks and databases with the installed schemas

Files:
  profile     lists the databases, one per line: user-db:NAME, system-db:NAME
              or file-db:PATH; the first with a value for a key wins, unless a
              later one locks the key
  NAME.user   the user's database, for user-db:NAME
  NAME.db     a site's database, for system-db:NAME

Example:
  dconfdb read /org/desk/name

Exit status:
  0  success
  1  error; a line on stderr says why, or nothing if stdout could not be written
  2  usage error";

/// The commands, in the order of the program's help: a store's, then a site's, then those of single files.
pub(crate) const COMMANDS: [Line<'static>; 15] = [
    // `read [-d] [--json] KEY`.
    Line {
        name: "read",
        about: "Print the value of KEY, or nothing if it has none",
        more: read_help!(
            examples: "  dconfdb read /org/desk/name\n  dconfdb read -d /org/desk/name"
        ),
        words: &[
            word::KEY,
            word::DEFAULT,
            word::JSON,
            Word::Profile,
            word::USER,
            Word::Store,
        ],
    },
    // `write KEY VALUE`.
    Line {
        name: "write",
        about: "Set KEY to VALUE in the user's database",
        more: change_help!(
            input: "";
            examples: "  dconfdb write /org/desk/name \"'mine'\""
        ),
        words: &[
            word::KEY,
            word::VALUE,
            Word::Profile,
            word::USER,
            Word::Store,
        ],
    },
    // `reset [-f] PATH`.
    Line {
        name: "reset",
        about: "Remove the user's value of a key or, with -f, of every key below a directory",
        more: change_help!(
            input: "";
            examples: "  dconfdb reset /org/desk/name\n  dconfdb reset -f /org/desk/"
        ),
        words: &[
            word::PATH,
            word::WHOLE,
            Word::Profile,
            word::USER,
            Word::Store,
        ],
    },
    // `list [--json] DIR`.
    Line {
        name: "list",
        about: "List the keys and directories directly below DIR",
        more: read_help!(
            examples: "  dconfdb list /org/desk/"
        ),
        words: &[
            word::DIR,
            word::JSON,
            Word::Profile,
            word::USER,
            Word::Store,
        ],
    },
    // `dump [--skip-doubles] [--own] [--json] DIR`.
    Line {
        name: "dump",
        about: "Print all values below DIR as a keyfile",
        more: read_help!(
            examples: "  dconfdb dump /org/desk/ > desk.keys\n  dconfdb dump --json /org/desk/ > desk.json"
        ),
        words: &[
            word::DIR,
            word::NAMING_DOUBLES,
            word::OWN,
            word::JSON,
            Word::Profile,
            word::USER,
            Word::Store,
        ],
    },
    // `load [-f] [--skip-doubles] DIR`.
    Line {
        name: "load",
        about: "Set keys below DIR from a keyfile on stdin",
        more: change_help!(
            input: "  stdin       a keyfile: groups relative to DIR, such as [example], and in each\n              lines such as name='desk'; the group [/] is DIR itself\n";
            examples: "  dconfdb load /org/desk/ < desk.keys"
        ),
        words: &[
            word::DIR,
            word::LEAVING,
            word::PRINTING_DOUBLES,
            Word::Profile,
            word::USER,
            Word::Store,
        ],
    },
    // `origin KEY`.
    Line {
        name: "origin",
        about: "Print which database the value of KEY comes from",
        more: read_help!(
            examples: "  dconfdb origin /org/desk/name"
        ),
        words: &[word::KEY, Word::Profile, word::USER, Word::Store],
    },
    // `explain [--json] PATH`.
    Line {
        name: "explain",
        about: "Print what each database has for a key, what is seen, and whether it can be set",
        more: read_help!(
            examples: "  dconfdb explain /org/desk/name\n  dconfdb explain /org/desk/"
        ),
        words: &[
            word::EXPLAINED,
            word::JSON,
            Word::Profile,
            word::USER,
            Word::Store,
        ],
    },
    // `list-locks DIR`.
    Line {
        name: "list-locks",
        about: "List the locks on DIR and on paths below it",
        more: read_help!(
            examples: "  dconfdb list-locks /"
        ),
        words: &[word::DIR, Word::Profile, word::USER, Word::Store],
    },
    // `diff [--json] OLD NEW`.
    Line {
        name: "diff",
        about: "Print which keys and locks differ between two stores or databases",
        more: help!(
            files: "  OLD, NEW    a folder with a store, or a database of dconfdb or dconf; what is printed\n",
            "              is a keyfile that makes OLD like NEW, with what it changes in comments";
            examples: "  dconfdb diff site.db new.db\n  dconfdb diff . ~/.config/dconfdb"
        ),
        words: &[word::OLD, word::NEW, word::JSON],
    },
    // `compile OUT [--locks FILE].. [KEYFILE..]`.
    Line {
        name: "compile",
        about: "Compile keyfiles into the database OUT",
        more: help!(
            files: "  KEYFILE     groups such as [org/example], and in each lines such as name='desk';\n",
            "              of several files, the one whose name sorts last wins\n",
            "  OUT         replaced atomically: after a crash it is the old file or the new one";
            examples: "  dconfdb compile site.db --locks site.locks 00-site 10-desk"
        ),
        words: &[word::OUT, Word::Locks, word::KEYFILE],
    },
    // `update [--force] [--dry-run] [FOLDER]`.
    Line {
        name: "update",
        about: "Compile the databases in FOLDER that are not what their sources say",
        more: help!(
            files: "  NAME.d        the sources of the database NAME.db: its keyfiles\n",
            "  NAME.d/locks  its files of locks, if it has any\n",
            "  NAME.db       replaced atomically: after a crash it is the old file or the new one;\n",
            "                hidden files are no sources, and if one is wrong, NAME.db stays as it is";
            examples: "  dconfdb update .\n  dconfdb update --dry-run ."
        ),
        words: &[word::FOLDER, word::FORCE, word::DRY_RUN],
    },
    // `check FILE`.
    Line {
        name: "check",
        about: "Check that FILE is a sound database",
        more: help!(
            files: "  FILE        a database of dconfdb or dconf";
            examples: "  dconfdb check site.db"
        ),
        words: &[word::FILE],
    },
    // `repair FILE OUT`.
    Line {
        name: "repair",
        about: "Rebuild a sound database OUT from what can be read of FILE",
        more: help!(
            files: "  FILE        a database that check calls unsound; OUT may be FILE itself\n",
            "  OUT         replaced atomically: after a crash it is the old file or the new one";
            examples: "  dconfdb repair site.db fixed.db"
        ),
        words: &[word::FILE, word::OUT],
    },
    // `show TYPE FILE`.
    Line {
        name: "show",
        about: "Print the bytes of FILE as a GVariant value of type TYPE",
        more: help!(
            files: "  FILE        any bytes: they have a value at every type";
            examples: "  dconfdb show au numbers.au"
        ),
        words: &[word::TYPE, word::FILE],
    },
];
