//! Whether a GVDB file is a sound database of settings.
//!
//! [`check`] asks eleven rules of a table that opens, and names the first that is broken. No call takes memory, and each ends,
//! whatever the items say of their parents, keys and contents.
#![tactic(auto)]

mod backwards;
mod bloom;
mod buckets;
mod chain;
mod content;
mod flags;
mod hash;
mod hash_by_parent;
mod keys;
mod length;
mod lists;
mod lists_counted;
mod lists_flagged;
mod locks;
mod once;
mod once_by_hash;
mod one_pass;
mod parents;
mod place;
mod plain_key;
mod rules;
mod span;
mod unsound;

pub use bloom::is_in_bloom;
pub use buckets::has_buckets;
pub use length::MAX_NAME_LEN;
pub use rules::check;
pub use span::is_in_span;
pub use unsound::{Rule, Unsound};
