//! What a command answers.

/// What a command that isn't refused answers.
#[derive(Drop)]
pub enum Answer {
    /// It is done, and this is its text for out.
    Done(String),
    /// The file is to hold these bytes, and then this text is for out.
    Changed {
        file: String,
        bytes: Vec<u8>,
        text: String,
    },
}
