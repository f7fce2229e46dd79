//! The calls of a stream, as clauses speak of them. Nothing of it is there when the program runs.
ghost use Rattle.std.specs.Prelude.{◌≡◌, ◌++◌, ◌∷◌, List, []};
ghost use Rattle.std.specs.Borrow.{ftrue};
ghost use Rattle.dconf_streams.specs.Transfers.{Transfer, transfer_of};

use std::marker::{Model, PhantomData};

/// The calls that were made, in their order.
#[derive(Drop)]
pub(crate) struct Trace {
    marker: PhantomData<u8>,
    pub ghost transfers: { List Transfer },
}

impl Model for Trace {
    ghost also_owns = { λ _. ftrue };
}

impl Trace {
    /// Of no call.
    pub(crate) fn new() -> Trace
        ensures { result.transfers ≡ [] }
    {
        Trace {
            marker: PhantomData,
        }
    }

    /// Notes a call of this buffer, which moved so many of its bytes; with no number it failed.
    pub(crate) fn note(&mut self, _moved: &[usize], _buf: &[u8])
        ensures { self.new.transfers ≡ self.old.transfers ++ transfer_of _moved.now _buf.now ∷ [] }
    {}
}
