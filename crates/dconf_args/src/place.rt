//! Where the store of a command is, and what a whole command line asks for.

use command_words::Command;

/// Where the store of a command is, as the words say. None of them: it is the current folder, and its profile.
#[derive(Debug, Drop)]
pub struct Place {
    /// It is the user's own, `--user`.
    pub is_users: bool,
    /// The folder that it is in, `--store`.
    pub folder: Option<String>,
    /// The file of its profile, `-p`.
    pub profile: Option<String>,
    /// Only the user's database of it counts, `--own`.
    pub is_own: bool,
}

/// What a command line asks for.
#[derive(Debug, Drop)]
pub enum Asked {
    /// A command, and where its store is, if it is one on a store.
    Run {
        command: Command,
        place: Place,
        /// What it prints is JSON, `--json`.
        is_json: bool,
    },
    /// To make the databases of a folder that are not what their sources say; if none is named, of the one for all users.
    Update {
        folder: Option<String>,
        /// Each is made, whatever is there, `--force`.
        forces: bool,
        /// None is made, and it is said what would be, `--dry-run`.
        is_dry: bool,
    },
    /// To compare two stores or databases.
    Diff {
        old: String,
        new: String,
        /// What it prints is JSON, `--json`.
        is_json: bool,
    },
}
