//! Why words are refused.

/// What dconf calls a path.
#[derive(Clone, Copy)]
pub enum Noun {
    Key,
    Dir,
    /// A key's or a directory's.
    Path,
}

/// Why dconf refuses words.
#[derive(Clone, Copy)]
pub enum Why {
    NoCommand,
    /// The command is none of dconf's.
    Unknown,
    /// There is no such path.
    Missing(Noun),
    NotAbsolute(Noun),
    DoubleSlash(Noun),
    /// A key's path ends in a slash.
    EndsInSlash,
    /// A directory's path doesn't end in a slash.
    NoEndSlash,
    NoValue,
    /// A directory is reset without `-f`.
    NeedsForce,
    NoOutput,
    NoFolder,
    NoSuffix,
    TooMany,
}
