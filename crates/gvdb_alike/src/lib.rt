//! Two tables of databases, compared item by item.
//!
//! A file that replaces another one mostly has the same items in the same order, and other bytes in a value or two. So
//! [`is_shaped_as`] may tell that a table is sound by one that is, at a fraction of what [`gvdb_read::Table::check`]
//! costs, and [`differing_items`] and [`has_elsewhere`] tell where values differ. Where both files have one length,
//! [`differing_span`] tells first where they do. No call takes memory.
//!
//! Where `before` is a sound database, and `file` is one of the same keys:
//!
//! ```
//! let (table, sound) = (Table::open(file)?, Table::open(before)?);
//! Ok(is_shaped_as(table, sound) || table.check().is_ok())
//! ```
#![tactic(auto)]

mod elsewhere;
mod items;
mod patch;
mod shaped;
mod span;
mod valued;

pub use elsewhere::has_elsewhere;
pub use items::{ItemSpan, differing_items};
pub use shaped::is_shaped_as;
pub use span::{DifferingSpan, differing_span};
