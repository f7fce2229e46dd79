//! Databases in GVDB's format (file version 0), read in place.
//!
//! A [`Table`] is a part of a file that was handed in: opening it looks at its head alone, and whatever is found is
//! lent from the file. No call takes memory. Any bytes may be handed in: those that are no database are refused by
//! [`Table::open`], and in a table that opens every call ends and gives what the format's search gives, whatever
//! its items say of their parents, keys and contents.
//!
//! Where `file` is a database of a number at one path:
//!
//! ```
//! let table = Table::open(file)?;
//! let size = table.find("/desk/size").and_then(View::as_i32);
//! Ok(table.check().is_ok() && size == Some(24))
//! ```
#![tactic(auto)]

mod covers;
mod find;
mod hashed_name;
mod item_list;
mod names;
mod search;
mod table;

pub use gvdb_check::{MAX_NAME_LEN, Rule, Unsound};
pub use gvdb_format::{Item, OpenFault, hash, hash_with};
pub use hashed_name::HashedName;
pub use item_list::ItemList;
pub use names::Names;
pub use table::Table;
