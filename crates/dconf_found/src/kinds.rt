//! Which kind of store was found, and who says so, as `explain` tells it.
ghost use Rattle.std.specs.Prelude.{◌≡◌, IfOk, string_bytes};
ghost use Rattle.dconf_places.specs.Told.{giver_of};
ghost use Rattle.dconf_homes.specs.Told.{store_kind_of, surroundings_of};
ghost use Rattle.dconf_found.specs.Kinds.{kind_word, store_line, who_says};

use dconf_homes::{Around, FoundKind};
use dconf_places::Given;
use std::alloc::{AllocError, Global};

/// The file that says which kind of store the machine has.
pub const MACHINE_FILE: &str = "/etc/dconfdb/store";

/// The line of `explain` that says it: the kind, and who says so, if anybody does.
pub fn store_line<'a>(
    alloc: Global,
    around: &Around<'a>,
    given: Given<'a>,
) -> Result<String, AllocError>
    ensures { IfOk result (λ line. string_bytes line ≡ store_line (surroundings_of around.now) (giver_of given.entry)) }
{
    let kind = kind_word(around.kind(given));
    let who = who_says(around, given);
    format!(in alloc; "store\t{kind}\t{who}\n")
}

fn kind_word(kind: FoundKind) -> &'static str
    ensures { result.now ≡ kind_word (store_kind_of kind) }
{
    match kind {
        FoundKind::Own => "dconfdb",
        FoundKind::Dconfs => "dconf",
        FoundKind::Unknown => "unknown",
    }
}

fn who_says(around: &Around<'_>, given: Given<'_>) -> &'static str
    ensures { result.now ≡ who_says (surroundings_of around.now) (giver_of given.entry) }
{
    match given {
        Given::Program(_) => "--store",
        Given::User(_) => "--store",
        Given::Nobody if !around.environment.store.is_empty() => "$DCONFDB_STORE",
        Given::Nobody if around.machine.is_empty() => "",
        Given::Nobody => MACHINE_FILE,
    }
}
