//! Values as the text of an answer.
ghost use Rattle.std.specs.Prelude.{◌≡◌, IfOk, option_map, string_bytes};
ghost use Rattle.gv_view.specs.Views.{value};
ghost use Rattle.dconf_model.specs.Explains.{told_value};
ghost use Rattle.dconf_model.specs.Outcomes.{shown_outcome};
ghost use Rattle.dconf_streams.specs.Answers.{GivesOutcome};

use dconf_streams::{Answer, Refusal, refused};
use gv_text::{PrintFault, PrintFlaw, print};
use gv_view::View;
use std::alloc::{AllocError, Global};

/// The value printed, and a line feed; or why it isn't printed.
pub(crate) fn printed(alloc: Global, view: View<'_>) -> Result<Answer, Refusal>
    ensures { GivesOutcome result (λ o. o ≡ shown_outcome (value view.entry)) }
{
    match print(alloc, view) {
        Ok(mut text) => {
            text.push('\n')?;
            Ok(Answer::Done(text))
        }
        Err(PrintFault::Memory) => Err(Refusal::Memory),
        Err(PrintFault::Fault(flaw)) => Err(refused(alloc, flaw)),
    }
}

/// A value's text if there is a value, or why it isn't printed.
pub(crate) fn told_value(alloc: Global, found: Option<View<'_>>) -> Result<String, AllocError>
    ensures { IfOk result (λ text. string_bytes text ≡ told_value (option_map value found.entry)) }
{
    let Some(view) = found else {
        return Ok(String::new(alloc));
    };
    match print(alloc, view) {
        Ok(text) => Ok(text),
        Err(PrintFault::Fault(flaw)) => match flaw {
            PrintFlaw::TooLarge => String::from_str(alloc, "too large, not printed"),
            PrintFlaw::DoubleText => String::from_str(alloc, "a double, not printed"),
        },
        Err(PrintFault::Memory) => Err(AllocError),
    }
}
