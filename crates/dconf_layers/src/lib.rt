//! The sound databases of a profile as layers of settings, lent from their files: which value of a path is seen, which
//! paths are locked, and what a directory has.
//!
//! A [`Layer`] is a sound database. Opening one asks of each item whether the file is sound; bytes that are no sound
//! database are refused. A look-up is a search and takes no memory. [`LentLayers`] are several, of which the last that
//! locks a path hides those before it.
#![tactic(auto)]

mod children;
mod entries;
mod fault;
mod layer;
mod layer_lists;
mod lent;
mod named;
mod nearest_lock;
mod seen;
mod texts;

pub use entries::{Entries, Entry};
pub use fault::DatabaseFault;
pub use layer::Layer;
pub use layer_lists::is_under;
pub use lent::LentLayers;
pub use seen::SeenKey;
pub use texts::Texts;
