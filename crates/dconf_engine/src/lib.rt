//! The databases of a profile as layers of settings: which value of a path is seen, which paths are locked, and what a
//! directory has.
//!
//! An [`Engine`] stands for the layers of its databases, each sound, and lends each value from the bytes that were handed
//! in. Bytes that are no sound database are refused when it opens. Where the first database is the user's, its values may
//! be changed: what was changed is kept beside the bytes.
//!
//! Opening a layer asks of each item whether the file is sound. A look-up is a search in each layer and takes no memory;
//! [`Engine::save`] writes the user's database whole.
//!
//! Where `site` is a database that has 24 at the path:
//!
//! ```
//! let layers = [Layer::open(None)?, Layer::open(Some(site))?];
//! let mut engine = Engine::of_layers(alloc, true, &layers)?;
//! let size = KeyPath::parse("/desk/size")?;
//! engine.write(size, &Tree::basic(alloc, Basic::Int32(32))?)?;
//! Ok(engine.read(size).and_then(View::as_i32) == Some(32) && engine.origin(size) == Some(0))
//! ```
#![tactic(auto)]

mod change_fault;
mod changes;
mod engine;
mod explained;
mod fault;
mod list;
mod reset;
mod user_database;
mod write;

pub use change_fault::{ChangeFault, ChangeFlaw};
pub use dconf_layers::DatabaseFault;
pub use engine::{Engine, is_of_user, open_layers};
pub use fault::{BadDatabase, EngineFault};
