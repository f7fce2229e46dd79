//! `show TYPE FILE`: the file's bytes, read at the type, as text.
ghost use Rattle.std.specs.Prelude.{◌≡◌};
ghost use Rattle.gv_model.specs.Decode.{decode};
ghost use Rattle.gv_types.specs.TypeStr.{ty};
ghost use Rattle.dconf_model.specs.Commands.Command.{show as show_of};
ghost use Rattle.dconf_model.specs.Outcomes.{IsOutcome, shown_outcome as shown_of};
ghost use Rattle.dconf_model.specs.Reads.{Input};
ghost use Rattle.dconf_streams.specs.Answers.{GivesOutcome};
ghost use Rattle.dconf_streams.specs.Readings.{Decides};

use crate::printed_value::printed;
use dconf_folders::Folder;
use dconf_streams::{Answer, Refusal, file, refused};
use gv_types::TypeStr;
use gv_view::View;
use std::alloc::Global;

/// What `show` answers. The type is looked at before the file.
pub(crate) fn show<F: Folder>(
    alloc: Global,
    type_text: &str,
    name: &str,
    folder: &mut F,
) -> Result<Answer, Refusal>
    ensures { (input : Input) → Decides F.Folder folder.old folder.new 0
        (λ reads. IsOutcome (show_of type_text.now name.now) reads input) result }
{
    let type_str = match TypeStr::parse(type_text) {
        Ok(type_str) => type_str,
        Err(fault) => return Err(refused(alloc, fault)),
    };
    let bytes = file(alloc, folder, name)?;
    shown(alloc, type_str, &bytes)
}

/// What `show` answers for the bytes of the file.
fn shown(alloc: Global, type_str: TypeStr<'_>, bytes: &[u8]) -> Result<Answer, Refusal>
    ensures { GivesOutcome result (λ o. o ≡ shown_of (decode (ty type_str.entry) bytes.now)) }
{
    printed(alloc, View::new(type_str, bytes))
}
