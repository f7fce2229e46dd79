//! What is wrong with a line.
ghost use Rattle.std.specs.Prelude.{◌≡◌};
ghost use Rattle.keyfile_lines.specs.Words.{cause_of, words_of};

/// Why a line is refused, in the words of `compile`.
#[derive(Clone, Copy, Debug, PartialEq, Eq)]
pub enum LineFault {
    /// A byte is no part of a whole character.
    NotUtf8,
    /// It is neither empty, nor a comment, nor in brackets, and has no `=`, or has a zero byte.
    BadLine,
    /// The key comes before the first group.
    NoGroup,
    /// It starts with `[`, and doesn't end with `]`, or what is between is no group.
    BadGroup,
    /// The key is empty, or has a slash, a bracket or a control character.
    BadKeyName,
    /// The path of the key has more than 65,535 bytes.
    TooLong,
    /// It starts with `/`, and is no path.
    LockNotKey,
}

impl LineFault {
    /// Its name, and what that means.
    pub fn words(self) -> &'static str
        ensures { result.now ≡ words_of (cause_of self) }
    {
        match self {
            LineFault::NotUtf8 => "NotUtf8: the line is not UTF-8",
            LineFault::BadLine => "BadLine: the line is no 'key=value'",
            LineFault::NoGroup => "NoGroup: the key comes before the first group",
            LineFault::BadGroup => {
                "BadGroup: the line names no group; its keys are left out here"
            }
            LineFault::BadKeyName => {
                "BadKeyName: the key is empty, or has a slash, a bracket or a control character"
            }
            LineFault::TooLong => "TooLong: the path of the key has more than 65,535 bytes",
            LineFault::LockNotKey => "LockNotKey: the line starts with '/' and is not a path",
        }
    }
}
