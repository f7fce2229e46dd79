//! What a line of dconf(1) asks for.
use crate::verb::Verb;
use crate::why::Why;
use command_words::Command;

/// What a line of dconf(1) asks for.
#[derive(Drop)]
pub enum Asked<'a> {
    /// A command on the store that is found.
    Run(Command),
    /// `dump`, whose groups are put in dconf's order.
    Dump(Command),
    /// `reset` of a key, which is named if it is locked, and stays as it is.
    Reset {
        command: Command,
        key: &'a str,
    },
    /// `load`, which names what it leaves out below this directory: keys with a double in their text, and with `-f` locked ones.
    Load {
        command: Command,
        directory: &'a str,
    },
    /// To make the databases of a folder; if none is named, of the one for all users.
    Update(Option<&'a str>),
    /// To make a database of a folder.
    Compile {
        out: &'a str,
        folder: &'a str,
    },
    /// The paths that begin with `path` and end in `suffix`.
    Complete {
        suffix: &'a str,
        path: &'a str,
    },
    /// What changes at a path.
    Watch(&'a str),
    /// Who changed what.
    Blame,
    /// What a command does, or what there is.
    Help(Option<Verb>),
    /// Words of a command, or of none, that are refused.
    Wrong(Option<Verb>, Why),
}
