//! What is said of wrong words, and for help.
ghost use Rattle.std.specs.Prelude.{◌≡◌, ◌++◌, IfOk, string_bytes};
ghost use Rattle.dconf_by_name.specs.Usages.{noun_of, refusal, said_of, usage, usage_if_any, usage_of};

use crate::verb::Verb;
use crate::why::{Noun, Why};
use std::alloc::{AllocError, Global};

const COMMANDS: &str =
    "COMMAND [ARGS...]\n\nCommands:\n  help              Print what a command does\n  read              Print the value of a key\n  list              Print the names below a directory\n  list-locks        Print the locks below a directory\n  write             Set a key\n  reset             Remove the user's value of a key, or those below a directory\n  compile           Make a database of keyfiles\n  update            Make the databases of the system\n  watch             Print what changes\n  dump              Print all values below a directory as a keyfile\n  load              Set keys below a directory from a keyfile\n\n'dconf help COMMAND' says more of one.\n";

/// The help for a command, or for none.
///
/// The only error is a failed allocation.
pub fn usage(alloc: Global, verb: Option<Verb>) -> Result<String, AllocError>
    ensures { IfOk result (λ text. string_bytes text ≡ usage verb) }
{
    let words = usage_if_any(verb);
    format!(in alloc; "Usage:\n  dconf {words}\n")
}

/// What is said of wrong words of a command, which has this name.
///
/// The only error is a failed allocation.
pub fn refusal(
    alloc: Global,
    verb: Option<Verb>,
    why: Why,
    name: &str,
) -> Result<String, AllocError>
    ensures { IfOk result (λ text. string_bytes text ≡ refusal verb why name.now) }
{
    let said = said(alloc, why, name)?;
    let usage = usage(alloc, verb)?;
    format!(in alloc; "error: {said}\n\n{usage}")
}

fn said(alloc: Global, why: Why, name: &str) -> Result<String, AllocError>
    ensures { IfOk result (λ text. string_bytes text ≡ said_of why name.now) }
{
    match why {
        Why::NoCommand => String::from_str(alloc, "no command specified"),
        Why::Unknown => format!(in alloc; "unknown command {name}"),
        Why::Missing(noun) => said_of_path(alloc, "", noun, " not specified"),
        Why::NotAbsolute(noun) => said_of_path(alloc, "dconf ", noun, " must begin with a slash"),
        Why::DoubleSlash(noun) => {
            said_of_path(
                alloc,
                "dconf ",
                noun,
                " must not contain two consecutive slashes",
            )
        }
        Why::EndsInSlash => String::from_str(alloc, "dconf key must not end with a slash"),
        Why::NoEndSlash => String::from_str(alloc, "dconf dir must end with a slash"),
        Why::NoValue => String::from_str(alloc, "value not specified"),
        Why::NeedsForce => String::from_str(
            alloc,
            "-f must be given to (recursively) reset entire directories",
        ),
        Why::NoOutput => String::from_str(alloc, "output file not specified"),
        Why::NoFolder => String::from_str(alloc, "keyfile .d directory not specified"),
        Why::NoSuffix => String::from_str(alloc, "suffix not specified"),
        Why::TooMany => String::from_str(alloc, "too many arguments"),
    }
}

fn said_of_path(alloc: Global, before: &str, noun: Noun, behind: &str) -> Result<String, AllocError>
    ensures { IfOk result (λ text. string_bytes text ≡ before.now ++ (noun_of noun ++ behind.now)) }
{
    let name = noun_name(noun);
    format!(in alloc; "{before}{name}{behind}")
}

fn noun_name(noun: Noun) -> &'static str
    ensures { result.now ≡ noun_of noun }
{
    match noun {
        Noun::Key => "key",
        Noun::Dir => "dir",
        Noun::Path => "path",
    }
}

fn usage_if_any(verb: Option<Verb>) -> &'static str
    ensures { result.now ≡ usage_if_any verb }
{
    match verb {
        Some(verb) => usage_of(verb),
        None => COMMANDS,
    }
}

/// Its words and what it does.
fn usage_of(verb: Verb) -> &'static str
    ensures { result.now ≡ usage_of verb }
{
    match verb {
        Verb::Help =>
            "help COMMAND\n\nPrint what COMMAND does; without one, the list of commands.\n",
        Verb::Read =>
            "read [-d] KEY\n\nPrint the value of KEY, or nothing if it has none.\n-d prints the value that it has without the user's.\n",
        Verb::List => "list DIR\n\nPrint the keys and the directories directly below DIR.\n",
        Verb::ListLocks => "list-locks DIR\n\nPrint the locks on DIR and on paths below it.\n",
        Verb::Write =>
            "write KEY VALUE\n\nSet KEY to VALUE, a GVariant text without a double in it.\n",
        Verb::Reset =>
            "reset [-f] PATH\n\nRemove the user's value of a key. That of a locked key stays.\n-f removes those of all keys below a directory.\n",
        Verb::Compile =>
            "compile OUTPUT KEYFILEDIR\n\nMake the database OUTPUT of the keyfiles in KEYFILEDIR, and of the locks in KEYFILEDIR/locks.\n",
        Verb::Update =>
            "update [DBDIR]\n\nMake the databases of the folders NAME.d in DBDIR, or of the site's.\n",
        Verb::Watch =>
            "watch PATH\n\nPrint what changes at a key or below a directory, until it is interrupted.\n",
        Verb::Dump =>
            "dump DIR\n\nPrint all values below DIR as a keyfile.\nA value with a double in it is left out, and its key named in a comment.\n",
        Verb::Load =>
            "load [-f] DIR\n\nSet keys below DIR from a keyfile on stdin.\nA value with a double in it is left out, and its key named on stderr.\n-f leaves out locked keys, too.\n",
        Verb::Blame =>
            "blame\n\nPrint what the service has noted: who changed settings, where DCONF_BLAME is set.\n",
        Verb::Complete =>
            "_complete SUFFIX PATH\n\nPrint the paths that begin with PATH and end in SUFFIX, which is empty or a slash.\n",
    }
}
