//! Reading the input of a command: up to its end or its first failure, and no further than shows that it is too long for a
//! text of settings.
ghost use Rattle.std.specs.Prelude.{◌≡◌, ◌+◌, ◌≤◌, ℕ, Some, IfOk, IfErr, IsErrOf, OnOk, codes, length, vec_items};
ghost use Rattle.refused.specs.declared.Refused.TheVariants.{Memory};
ghost use Rattle.refused.specs.Faults.{OfFault};
ghost use Rattle.dconf_model.specs.FaultTexts.{device_text};
ghost use Rattle.dconf_model.specs.Lines.{longest_text};
ghost use Rattle.dconf_model.specs.Reads.{Input};
ghost use Rattle.dconf_streams.specs.Counted.{CameToEnd, Delivered, failures_of};
ghost use Rattle.dconf_streams.specs.Inputs.{IsReadOf, ReadsText, TakesPiece, Took};
ghost use Rattle.dconf_streams.specs.Streams.{one_more};

use crate::counted::Counted;
use refused::Refused;
use std::alloc::Global;
use std::error::Error;
use std::fmt;
use std::io::Read;

/// Why the input was not read: a read failed, or memory ran out.
pub type InputFault = Refused<FailedRead>;

/// A read of the input that failed. The stream has counted it. It is printed as the reason that err is given.
#[derive(Clone, Copy, Debug, PartialEq, Eq)]
pub struct FailedRead;

impl fmt::Display for FailedRead {
    ghost output = { λ _. Some (device_text (codes "input")) };

    fn fmt<W: fmt::Write>(&self, f: &mut fmt::Formatter<W>) -> fmt::Result {
        f.write_str("Device input")
    }
}

impl Error for FailedRead {}

/// The most bytes that are read: one more than a text of settings may have.
const MOST: usize = 16_777_217;

/// The most bytes that one read is asked for.
const PIECE: usize = 4096;

/// All bytes of the input; or its first 16,777,217, which are one too many for a text of settings, whatever comes after them.
///
/// A read that fails is `FailedRead`, whatever its error, and nothing is read after it. A read that a signal interrupted is such a
/// failure too. A growth that is refused is `Memory`. What was read before an error is gone.
///
/// It holds the bytes once, and takes at most a read for each byte and one for the end: 16,777,217 of them.
pub fn read_input<I: Read>(alloc: Global, input: &mut Counted<I>) -> Result<Vec<u8>, InputFault>
    ensures took { (i : Input) × Took I.remaining input.old input.new i × IsReadOf i vec_items result }
    ensures bytes { IfOk result (λ bytes. Delivered I.remaining input.old input.new (vec_items bytes)) }
    ensures limit { ReadsText I.remaining input.old input.new }
    ensures end { IfOk result (λ bytes. length (vec_items bytes) ≤ longest_text → CameToEnd input.old input.new) }
    ensures ok { OnOk result (failures_of input.new ≡ failures_of input.old) }
    ensures device { IfErr result (OfFault (λ _. failures_of input.new ≡ one_more (failures_of input.old))) }
    ensures memory { IsErrOf result Memory → failures_of input.new ≡ failures_of input.old }
{
    let mut bytes = Vec::new(alloc);
    let mut piece = [0; PIECE];
    while bytes.len() < MOST {
        let room = PIECE.min(MOST - bytes.len());
        if append_piece(input, &mut piece[..room], &mut bytes)? == 0 {
            break;
        }
    }
    Ok(bytes)
}

/// Reads once, by the buffer, and appends what came. Nothing is the end, where there is room.
fn append_piece<I: Read>(
    input: &mut Counted<I>,
    piece: &mut [u8],
    bytes: &mut Vec<u8>,
) -> Result<usize, InputFault>
    ensures took { TakesPiece I.remaining input.old input.new (length piece.old) (vec_items bytes.old) (vec_items bytes.new) result }
    ensures ok { OnOk result (failures_of input.new ≡ failures_of input.old) }
    ensures device { IfErr result (OfFault (λ _. failures_of input.new ≡ one_more (failures_of input.old))) }
    ensures memory { IsErrOf result Memory → failures_of input.new ≡ failures_of input.old }
{
    let Ok(n) = input.read_once(piece) else {
        return Err(InputFault::Fault(FailedRead));
    };
    bytes.extend_from_slice(&piece[..n])?;
    Ok(n)
}
