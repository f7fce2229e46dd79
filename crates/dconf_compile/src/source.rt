//! A file that is compiled.

/// The name and the bytes of a keyfile or of a lock file.
#[derive(Clone, Copy, Debug)]
pub struct Source<'a> {
    /// Keyfiles are taken in the byte order of their names. That of a lock file is not looked at.
    pub name: &'a str,
    pub bytes: &'a [u8],
}
