//! What is done about the flag of dconf's readers, once the database is replaced. Each of them has the first byte of a file mapped, and opens the
//! database again when that is set.
ghost use Rattle.std.specs.Prelude.{◌≡◌};
ghost use Rattle.dconf_watches.specs.Flags.{flag_after, flag_number};

/// What is done next, in this order.
#[derive(Clone, Copy)]
pub enum Flagging {
    /// Looks whether there may be a file. Where there is none nobody reads.
    Look,
    /// Takes the lock of the database's folder, if nobody has it.
    Lock,
    /// Opens the file.
    Open,
    /// Makes it longer: a reader may have made it a moment ago, and mapped nothing yet.
    Lengthen,
    /// Sets its first byte.
    Set,
    /// Takes its name away: who has it mapped sees the byte, and who comes later makes another file.
    Remove,
    /// It is over.
    Over,
}

/// What comes next, once the first `done` tasks were done, or were not due, of which the last could be or not. Who hasn't the turn to change the
/// database, by that lock or another, sets the flag too, but leaves the name: another file may have it by now, which is not set.
pub fn flag_after(done: u32, could_be: bool, is_in_turn: bool) -> Flagging
    ensures { result ≡ flag_after done could_be is_in_turn }
{
    if done == 0 {
        return Flagging::Look;
    }
    if done == 2 {
        return Flagging::Open;
    }
    if !could_be {
        return Flagging::Over;
    }
    if done == 1 {
        return if is_in_turn {
            Flagging::Open
        } else {
            Flagging::Lock
        };
    }
    if done == 3 {
        return Flagging::Lengthen;
    }
    if done == 4 {
        return Flagging::Set;
    }
    if done == 5 && is_in_turn {
        return Flagging::Remove;
    }
    Flagging::Over
}

/// The same as a number: 1 look, 2 lock, 3 open, 4 lengthen, 5 set, 6 remove, 7 over.
pub fn flag_number(done: u32, could_be: bool, is_in_turn: bool) -> u32
    ensures { result ≡ flag_number (flag_after done could_be is_in_turn) }
{
    match flag_after(done, could_be, is_in_turn) {
        Flagging::Look => 1,
        Flagging::Lock => 2,
        Flagging::Open => 3,
        Flagging::Lengthen => 4,
        Flagging::Set => 5,
        Flagging::Remove => 6,
        Flagging::Over => 7,
    }
}
