//! Whether what is seen is what was expected.
ghost use Rattle.std.specs.Prelude.{◌≡◌, ◌≢◌, IsTrue, None, Some, false, true};
ghost use Rattle.dconfdb_calls.specs.Seen.{layers_of};
ghost use Rattle.dconfdb_calls.specs.Since.{IsFirstSince};

use dconf_layers::Layer;
use dconfdb_calls::{DconfdbChange, first_changed_since};
use std::alloc::Global;

/// Whether something else is seen through the layers than through the expected ones at the path of a
/// change, and the index of the first such change; without one `at` stays as it was. Else the number
/// of a fault, and nothing changes.
#[unsafe(no_mangle)]
pub extern "C" fn dconfdb_changed_since(
    alloc: Global,
    expected: &[Layer<'_>],
    layers: &[Layer<'_>],
    changes: &[DconfdbChange<'_>],
    changed: &mut bool,
    at: &mut usize,
) -> u32
    ensures first { result ≡ 0 → IsTrue changed.new → IsFirstSince (layers_of expected.now true) (layers_of layers.now true) changes.now (Some at.new) }
    ensures none { result ≡ 0 → changed.new ≡ false → IsFirstSince (layers_of expected.now true) (layers_of layers.now true) changes.now None }
    ensures silent { result ≡ 0 → changed.new ≡ false → at.new ≡ at.old }
    ensures refused { result ≢ 0 → result ≡ 1 }
    ensures kept { result ≢ 0 → (changed.new ≡ changed.old) × (at.new ≡ at.old) }
{
    match first_changed_since(alloc, expected, layers, changes) {
        Ok(Some(index)) => {
            *changed = true;
            *at = index;
            0
        }
        Ok(None) => {
            *changed = false;
            0
        }
        Err(fault) => fault.number(),
    }
}
