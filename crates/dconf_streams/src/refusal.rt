//! Why a command is refused, and the lines for err that say so.
ghost use Rattle.std.specs.Prelude.{◌≡◌, ◌++◌, ◌∷◌, [], Err, IfOk, IfSome, codes, decimal, string_bytes};
ghost use Rattle.dconf_model.specs.FaultTexts.{device_text};
ghost use Rattle.dconf_streams.specs.Answers.{RefusesFor, line_of};

use refused::Refused;
use std::alloc::{AllocError, Global};
use std::fmt::Display;

/// Why a command is refused: for what this line for err says, or for want of memory.
pub type Refusal = Refused<String>;

/// The line for err, with its line feed.
pub fn refusal_line(refusal: &Refusal) -> &str
    ensures { result.now ≡ line_of refusal.now }
{
    match refusal {
        Refusal::Fault(line) => line.as_str(),
        Refusal::Memory => "error: Memory\n",
    }
}

/// The refusal that says why: `error: `, the reason and a line feed.
pub fn refused<D: Display + Drop>(alloc: Global, why: D) -> Refusal
    ensures { IfSome (D.output why) (λ text. RefusesFor (Err result) text) }
{
    match format!(in alloc; "error: {why}\n") {
        Ok(line) => Refusal::Fault(line),
        Err(_) => Refusal::Memory,
    }
}

/// The refusal of a line of a file.
pub fn refused_at<D: Display + Drop>(alloc: Global, file: &str, line: usize, cause: D) -> Refusal
    ensures { IfSome (D.output cause) (λ text. RefusesFor (Err result) (file.now ++ (58 ∷ (decimal line ++ (codes ": " ++ text))))) }
{
    refused(alloc, format_args!("{file}:{line}: {cause}"))
}

/// The refusal for a file whose device failed.
pub(crate) fn device(alloc: Global, name: &str) -> Refusal
    ensures { RefusesFor (Err result) (device_text name.now) }
{
    refused(alloc, format_args!("Device {name}"))
}

/// The line for a file whose device failed.
pub fn device_line(alloc: Global, name: &str) -> Result<String, AllocError>
    ensures { IfOk result (λ line. string_bytes line ≡ codes "error: Device " ++ (name.now ++ 10 ∷ [])) }
{
    format!(in alloc; "error: Device {name}\n")
}
