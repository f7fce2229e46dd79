//! A command, with its words.
ghost use Rattle.std.specs.Prelude.{◌≡◌, string_bytes};
ghost use Rattle.command_words.specs.Commands.{command_of, with_profile};

/// A command with its words, as they were given.
#[derive(Debug, Drop)]
pub enum Command {
    /// Prints the bytes of `file`, read as a value of the type that `type_text` spells.
    Show {
        type_text: String,
        file: String,
    },
    /// Prints the value that is seen at `key` by the profile in the file `profile`; where `default` is set, the user's values are left aside.
    Read {
        default: bool,
        key: String,
        profile: String,
    },
    /// Names the database whose value is seen at `key` by the profile in the file `profile`.
    Origin {
        key: String,
        profile: String,
    },
    /// Says what each database has for `key` by the profile in the file `profile`, what is seen, and whether it can be set.
    Explain {
        key: String,
        profile: String,
    },
    /// Names what `directory` has by the profile in the file `profile`, a directory with its `/`.
    List {
        directory: String,
        profile: String,
    },
    /// Names the locks below `directory` by the profile in the file `profile`.
    ListLocks {
        directory: String,
        profile: String,
    },
    /// Prints the values that are seen below `directory` by the profile in the file `profile`, as a keyfile; where `skip_doubles` is set,
    /// those that have no text for a double in them are left out, and named in comments.
    Dump {
        skip_doubles: bool,
        directory: String,
        profile: String,
    },
    /// Says whether `file` is a sound database.
    Check {
        file: String,
    },
    /// Makes the database `out` of keyfiles and lock files.
    Compile {
        out: String,
        locks: Vec<String>,
        keyfiles: Vec<String>,
    },
    /// Makes a sound database `out` of what can be saved of `file`.
    Repair {
        file: String,
        out: String,
    },
    /// Sets the user's value of `key`, by the profile in the file `profile`, to the one that `value` spells.
    Write {
        key: String,
        value: String,
        profile: String,
    },
    /// Takes away the user's value of the key `path`, by the profile in the file `profile`; where `force` is set, those of all keys below the
    /// directory `path`.
    Reset {
        force: bool,
        path: String,
        profile: String,
    },
    /// Sets the user's values, by the profile in the file `profile`, of the keys below `directory` that the keyfile on input gives; where
    /// `force` is set, the rows of locked keys are left out, and where `skip_doubles` is, those whose text is refused for a double in it.
    Load {
        force: bool,
        skip_doubles: bool,
        directory: String,
        profile: String,
    },
}

impl Command {
    /// The same command by the profile in another file. One that opens no store stays as it is.
    pub fn with_profile(self, file: String) -> Command
        ensures { command_of result ≡ with_profile (string_bytes file) (command_of self) }
    {
        match self {
            Command::Read { default, key, .. } => Command::Read {
                default,
                key,
                profile: file,
            },
            Command::Origin { key, .. } => Command::Origin { key, profile: file },
            Command::Explain { key, .. } => Command::Explain { key, profile: file },
            Command::List { directory, .. } => Command::List {
                directory,
                profile: file,
            },
            Command::ListLocks { directory, .. } => Command::ListLocks {
                directory,
                profile: file,
            },
            Command::Dump {
                skip_doubles,
                directory,
                ..
            } => Command::Dump {
                skip_doubles,
                directory,
                profile: file,
            },
            Command::Write { key, value, .. } => Command::Write {
                key,
                value,
                profile: file,
            },
            Command::Reset { force, path, .. } => Command::Reset {
                force,
                path,
                profile: file,
            },
            Command::Load {
                force,
                skip_doubles,
                directory,
                ..
            } => Command::Load {
                force,
                skip_doubles,
                directory,
                profile: file,
            },
            Command::Show {
                type_text,
                file: bytes,
            } => Command::Show {
                type_text,
                file: bytes,
            },
            Command::Check { file: database } => Command::Check { file: database },
            Command::Compile {
                out,
                locks,
                keyfiles,
            } => Command::Compile {
                out,
                locks,
                keyfiles,
            },
            Command::Repair {
                file: database,
                out,
            } => Command::Repair {
                file: database,
                out,
            },
        }
    }
}
