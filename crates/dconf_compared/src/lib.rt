//! What differs between two stores or databases: the keys that are seen otherwise, each before and after, and the locks that one of them has
//! alone; in lines, and as a keyfile that makes the first like the second.
//!
//! What can never happen: a key that is seen otherwise is left out, or one that is not is named.
//!
//! What a call costs: it names each value of both, and decodes those whose bytes are not the same. It takes memory for the paths that differ,
//! and for their text.
#![tactic(auto)]

mod as_keyfile;
mod as_lines;
mod key_lines;
mod lock_lines;
mod rows;
mod single;

pub use as_keyfile::{Undumped, difference};
pub use as_lines::changes;
pub use key_lines::changed;
pub use lock_lines::{is_none_of, locks_of};
pub use single::alone;
