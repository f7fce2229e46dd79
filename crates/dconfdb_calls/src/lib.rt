//! The calls of the C library, as functions of Rust: opening a store's layers, reading values, names
//! and locks through them, and the user's database with changes.
//!
//! The caller owns all memory: it lends the bytes of files, keeps each layer that was opened as a
//! value, and lends the layers to the other calls. No call keeps anything, or checks a layer again.
//! The crate dconfdb_c exports each of them to C.
//!
//! Where `user` and `site` are databases:
//!
//! ```
//! let layers = [open_layer(user, true).ok()?, open_layer(site, true).ok()?];
//! let found = read(&layers, b"/desk/size")?;
//! let is_own = found.origin == 0 && found.type_text == b"i".as_slice();
//! Some(is_own && is_key_writable(&layers, true, b"/desk/size"))
//! ```
#![tactic(auto)]

mod below;
mod changes;
mod compare;
mod differences;
mod fates;
mod fault;
mod given;
mod keyless;
mod laws;
mod lines;
mod names;
mod opened;
mod printed;
mod profiles;
mod salvaged;
mod since;
mod values;

pub use below::paths_below;
pub use changes::{DconfdbChange, Refused, user_file};
pub use compare::is_stored;
pub use differences::{differing_keys, keys_differing_first};
pub use fates::Fate;
pub use fault::Fault;
pub use given::hand_out;
pub use keyless::keyless_file;
pub use laws::{mixed_turns_give_all, turns_give_values, unlocked_turns_count};
pub use lines::{GoodLines, good_lines};
pub use names::{directory_locks, directory_names};
pub use opened::{BadFile, DconfdbUnsound, open_layer, open_layer_after};
pub use printed::{Unprinted, value_text};
pub use profiles::{BadProfile, DconfdbName, profile_databases};
pub use salvaged::{Salvaged, salvaged_file};
pub use since::first_changed_since;
pub use values::{DconfdbFound, is_key_locked, is_key_writable, read, read_default, read_own};
