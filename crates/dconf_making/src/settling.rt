//! Whether what the user's file is, is on the disk: what is asked of it, and what is known then.
ghost use Rattle.std.specs.Prelude.{◌≡◌};
ghost use Rattle.dconf_making.specs.Settling.{once_settled, settling_after, settling_number, settling_of};

/// What comes next, in this order.
#[derive(Clone, Copy)]
pub enum Settling {
    /// Asks the notes. They answer whether who left the file noted that it is there.
    Notes,
    /// Brings it to the disk, and the names of its folder. It answers whether that is done.
    Settle,
    /// Brings the names of its folder there, since what has its name can't be read. It answers whether that is done.
    Names,
    /// Looks at the file. It answers whether it is the same one still.
    Look,
    /// It is over: it is there, and that is known from now on.
    Known,
    /// It is over: all was done that is to be done, but the next one asks again.
    Done,
    /// It is over: nobody knows that it is there.
    Failed,
}

/// What is known.
#[repr(C)]
#[derive(Clone, Copy)]
pub struct SettlingKnown {
    /// The errno by which what has its name can't be read; 0: it can.
    pub errnum: u32,
    /// A database is the user's.
    pub has_file: bool,
    /// That what its file is, is on the disk.
    pub is_known: bool,
    /// Nothing is brought to the disk by this store.
    pub is_unsynced: bool,
    /// Nobody else changes the file meanwhile.
    pub is_in_turn: bool,
    /// Nothing is to be brought there now.
    pub asks_only: bool,
}

/// What comes next, once the first `done` tasks were done; `is_so` is the answer to the last one.
pub fn settling_after(done: u32, is_so: bool, known: &SettlingKnown) -> Settling
    ensures { result ≡ settling_after done is_so known.now }
{
    match done {
        0 if !known.has_file || known.is_known => Settling::Known,
        0 => Settling::Notes,
        1 if is_so => Settling::Known,
        1 if known.asks_only => Settling::Failed,
        1 => settling_of(known),
        2 | 3 if is_so => once_settled(known),
        2 | 3 => Settling::Failed,
        _ if is_so => Settling::Known,
        _ => Settling::Done,
    }
}

/// How what nobody noted is brought to the disk.
fn settling_of(known: &SettlingKnown) -> Settling
    ensures { result ≡ settling_of known.now }
{
    if known.is_unsynced {
        Settling::Done
    } else if known.errnum == 0 {
        Settling::Settle
    } else {
        Settling::Names
    }
}

fn once_settled(known: &SettlingKnown) -> Settling
    ensures { result ≡ once_settled known.now }
{
    if known.is_unsynced {
        return Settling::Done;
    }
    if known.is_in_turn {
        Settling::Known
    } else {
        Settling::Look
    }
}

/// The same as a number: 1 notes, 2 settle, 3 names, 4 look, 5 known, 6 done, 7 failed.
pub fn number_of_settling(done: u32, is_so: bool, known: &SettlingKnown) -> u32
    ensures { result ≡ settling_number (settling_after done is_so known.now) }
{
    match settling_after(done, is_so, known) {
        Settling::Notes => 1,
        Settling::Settle => 2,
        Settling::Names => 3,
        Settling::Look => 4,
        Settling::Known => 5,
        Settling::Done => 6,
        Settling::Failed => 7,
    }
}
