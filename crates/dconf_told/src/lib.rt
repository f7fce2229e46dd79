//! Which keys are seen otherwise than before, through layers and beside edits that wait: so who listens is told of them, by [`told`].
//! And which paths may be written otherwise than before, by [`relocked`]; whether anything is otherwise, by [`is_changed`]; what is
//! remembered of what others changed, by [`remembered`]; and which keys edits are of, by [`own_keys`].
#![tactic(auto)]

ghost use Rattle.dconf_told.specs.Changed.{OfItselfNothingDiffers, WhatIsToldIsAChange};

mod alike;
mod changed;
mod files;
mod news;
mod own;
mod relocking;
mod seen;
mod sides;
mod texts;

pub use alike::are_seen_alike;
pub use changed::{is_changed, remembered, remembered_texts};
pub use files::DconfdbFileSeen;
pub use news::{DconfdbKeyAsked, told, told_texts};
pub use own::{own_keys, own_texts};
pub use relocking::{relocked, relocked_texts};
pub use seen::{DconfdbView, DconfdbWaits};
pub use sides::may_write;

/// Whatever is told to who listens, a value or whether a path may be written, makes [`is_changed`] say so.
pub fn what_is_told_is_a_change()
    ensures { WhatIsToldIsAChange }
{}

/// Of layers and themselves nothing differs, and nothing is remembered: who knows that they are the same needn't ask.
pub fn of_itself_nothing_differs()
    ensures { OfItselfNothingDiffers }
{}
