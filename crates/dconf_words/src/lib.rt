//! The words that dconfdb refuses with: what each means, with an example and the way out.
//!
//! What can never happen: two languages, or the program and its manual, say two things of one word.
//!
//! What a call costs: the texts are in the program, and only what is put together of them takes memory.
#![tactic(auto)]

mod explanation;
mod heard;
mod said;
mod word;

pub use explanation::{Facts, Hint};
pub use heard::Heard;
pub use said::Said;
pub use word::{About, WORDS, Word};
