//! Flags by which numbers are seen for the second time, without memory: of the numbers of one part at a time, each has a flag,
//! and some may share it.
ghost use Rattle.std.specs.Prelude.{◌%◌, ◌≡◌, ◌<◌, ℕ, IsFalse, length};
ghost use Rattle.gvdb_check.specs.Flags.{IsFlagged};

/// How many flags there are at a time.
pub(crate) const FLAGS: usize = 32_768;

/// Whether the number is one of this part, and has a flag that is set. It is set from now on.
pub(crate) fn is_set(number: u32, part: u32, parts: u32, flags: &mut [bool]) -> bool
    requires some { 0 < length flags.old }
    requires parts { 0 < parts }
    ensures first { IsFalse result → number % parts ≡ part → ¬ IsFlagged flags.old part parts number }
    ensures itself { IsFlagged flags.new part parts number }
    ensures kept { (n : ℕ) → IsFlagged flags.old part parts n → IsFlagged flags.new part parts n }
    ensures len { length flags.new ≡ length flags.old }
{
    if number % parts != part {
        return false;
    }
    let place = (number / parts) as usize % flags.len();
    let was = flags[place];
    flags[place] = true;
    was
}
