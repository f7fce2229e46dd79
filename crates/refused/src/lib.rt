//! A fault, or an allocation that failed.
//!
//! A call that takes memory and has faults of its own returns `Refused` of them. `?` makes `Memory`
//! of an allocation that failed.
#![tactic(auto)]

ghost use Rattle.std.specs.Prelude.{◌≡◌};

use std::alloc::{AllocError, AllocFailed};
use std::error::Error;
use std::fmt;

/// Why a call that takes memory gives nothing.
#[derive(Clone, Copy, Debug, PartialEq, Eq)]
pub enum Refused<F> {
    /// What is at fault.
    Fault(F),
    /// An allocation failed.
    Memory,
}

impl<F> Refused<F> {
    ghost use Rattle.refused.specs.Faults.{IsCarried};

    /// The fault as a caller's.
    pub fn into_fault<G: From<F>>(self) -> Refused<G>
        ensures { IsCarried G.from_gives self result }
    {
        match self {
            Refused::Fault(fault) => Refused::Fault(G::from(fault)),
            Refused::Memory => Refused::Memory,
        }
    }
}

impl<F> From<AllocError> for Refused<F> {
    ghost use Rattle.refused.specs.declared.Refused.TheVariants.{Memory};

    ghost from_gives = { λ _ e. e ≡ Memory };

    fn from(_error: AllocError) -> Refused<F> {
        Refused::Memory
    }
}

impl<F, T: Drop> From<AllocFailed<T>> for Refused<F> {
    ghost use Rattle.refused.specs.declared.Refused.TheVariants.{Memory};

    ghost from_gives = { λ _ e. e ≡ Memory };

    fn from(_error: AllocFailed<T>) -> Refused<F> {
        Refused::Memory
    }
}

impl<F: fmt::Display> fmt::Display for Refused<F> {
    ghost use Rattle.refused.specs.Faults.{refused_text};

    ghost output = { refused_text F.output };

    fn fmt<W: fmt::Write>(&self, f: &mut fmt::Formatter<W>) -> fmt::Result {
        match self {
            Refused::Fault(fault) => fault.fmt(f),
            Refused::Memory => f.write_str("Memory"),
        }
    }
}

impl<F: Error> Error for Refused<F> {}
