//! The value that a text spells, as the rows of keyfiles and the words of commands have it.
ghost use Rattle.std.specs.Prelude.{◌≡◌, ◌≤◌, Err, IfErr, IfOk, IfSome, Ok, length};
ghost use Rattle.dconf_model.specs.Values.{value_of_text};
ghost use Rattle.dconf_compile.specs.CompileFaults.{cause_of};

use crate::fault::CompileCause;
use gv_infer::{ReadFault, read_value};
use gv_tree::Tree;
use std::alloc::Global;

/// The value of a text of at most 16,777,216 bytes, by its own type.
///
/// The refusal is `Value`, with the text's first fault as [`read_value`] gives it, or `Memory` where a growth is refused. It takes
/// the time and the memory that [`read_value`] takes.
pub fn value_of_text(alloc: Global, text: &str) -> Result<Tree, CompileCause>
    requires { length text.now ≤ 16777216 }
    ensures value { IfOk result (λ v. value_of_text text.now ≡ Ok v) }
    ensures fault { IfErr result (λ cause. IfSome (cause_of cause) (λ c. value_of_text text.now ≡ Err c)) }
{
    match read_value(alloc, text) {
        Ok(value) => Ok(value),
        Err(ReadFault::Fault(flaw)) => Err(CompileCause::Value(flaw)),
        Err(ReadFault::Memory) => Err(CompileCause::Memory),
    }
}
