//! The bytes of a change: what is asked before there are any, and in which order; and what is asked of its notes, once it was made.
ghost use Rattle.std.specs.Prelude.{◌≡◌};
ghost use Rattle.dconf_making.specs.Making.{after, after_bytes, after_expected, ask_number, ask_of, begun, found_of, known, noted, written};

/// A question about a change, or what came of all.
#[derive(Clone, Copy, Debug, PartialEq, Eq)]
pub enum Ask {
    /// Is the same seen at its paths as was expected?
    Expect,
    /// Are edits left, once those are left out that others overtook?
    LeaveOut,
    /// Are there bytes of the file with the edits that are left?
    Bytes,
    /// Is all that they say there already?
    Compare,
    /// Do the bytes open?
    Open,
    /// It came to bytes that are to be written.
    Ready,
    /// It came to nothing that is to be written.
    Nothing,
    /// A fault of it is told.
    Failed,
    /// Nothing is asked yet.
    Begins,
    /// The change was made, or not: is what was asked for in its file?
    Ended,
    /// Is there a note of all that was asked for?
    Note,
    /// Are the notes written, for others to know them?
    Write,
    /// They are written, and its program knows that.
    Noted,
    /// They are not, and what others changed is known still.
    Unnoted,
}

/// The answer.
#[derive(Clone, Copy, Debug, PartialEq, Eq)]
pub enum Found {
    Yes,
    No,
    /// It could not be answered.
    Fault,
}

/// What is known of a change before it is asked.
#[repr(C)]
#[derive(Clone, Copy)]
pub struct Making {
    /// A file is to be made; else it is only said what is wrong with the change.
    pub makes_file: bool,
    /// A change that failed may have left the file as it is, and not on the disk: it is written once more.
    pub is_unsettled: bool,
    /// Something is expected to be seen at its paths, and other settings are the newest by now than those that were expected.
    pub is_expected: bool,
}

impl Making {
    /// What is asked after that answer, or what came of all. It begins with [`Ask::Begins`], and its notes with [`Ask::Ended`].
    pub fn after(self, ask: Ask, found: Found) -> Ask
        ensures { result ≡ after self ask found }
    {
        match (ask, found) {
            (Ask::Begins, _) => self.begun(),
            (Ask::Expect, Found::Yes) => self.after_expected(),
            (Ask::LeaveOut, Found::Yes) => Ask::Bytes,
            (Ask::LeaveOut, Found::No) => Ask::Nothing,
            (Ask::Bytes, Found::Yes) => self.after_bytes(),
            (Ask::Compare, Found::Yes) => Ask::Nothing,
            (Ask::Compare, _) => Ask::Open,
            (Ask::Open, Found::Yes) => Ask::Ready,
            (Ask::Ready, _) => Ask::Ready,
            (Ask::Nothing, _) => Ask::Nothing,
            (Ask::Ended, _) => noted(found),
            (Ask::Note, _) => written(found),
            (Ask::Write, _) => known(found),
            (Ask::Noted, _) => Ask::Noted,
            (Ask::Unnoted, _) => Ask::Unnoted,
            _ => Ask::Failed,
        }
    }

    fn begun(self) -> Ask
        ensures { result ≡ begun self }
    {
        if self.is_expected {
            Ask::Expect
        } else {
            self.after_expected()
        }
    }

    fn after_expected(self) -> Ask
        ensures { result ≡ after_expected self }
    {
        if self.makes_file {
            Ask::LeaveOut
        } else {
            Ask::Bytes
        }
    }

    fn after_bytes(self) -> Ask
        ensures { result ≡ after_bytes self }
    {
        if !self.makes_file {
            return Ask::Nothing;
        }
        if self.is_unsettled {
            Ask::Open
        } else {
            Ask::Compare
        }
    }

    /// The same in numbers: 0 expect, 1 leave out, 2 bytes, 3 compare, 4 open, 5 ready, 6 nothing, 7 failed, 8 begins; 9 ended, 10 note, 11 write,
    /// 12 noted, 13 unnoted; 0 yes, 1 no, 2 a fault.
    pub fn after_number(self, ask: u32, found: u32) -> u32
        ensures { result ≡ ask_number (after self (ask_of ask) (found_of found)) }
    {
        number_of(self.after(ask_of(ask), found_of(found)))
    }
}

/// What is in the file is noted, and else what others set.
fn noted(found: Found) -> Ask
    ensures { result ≡ noted found }
{
    match found {
        Found::Yes => Ask::Note,
        _ => Ask::Write,
    }
}

fn written(found: Found) -> Ask
    ensures { result ≡ written found }
{
    match found {
        Found::Yes => Ask::Write,
        _ => Ask::Unnoted,
    }
}

fn known(found: Found) -> Ask
    ensures { result ≡ known found }
{
    match found {
        Found::Yes => Ask::Noted,
        _ => Ask::Unnoted,
    }
}

fn number_of(ask: Ask) -> u32
    ensures { result ≡ ask_number ask }
{
    match ask {
        Ask::Expect => 0,
        Ask::LeaveOut => 1,
        Ask::Bytes => 2,
        Ask::Compare => 3,
        Ask::Open => 4,
        Ask::Ready => 5,
        Ask::Nothing => 6,
        Ask::Failed => 7,
        Ask::Begins => 8,
        Ask::Ended => 9,
        Ask::Note => 10,
        Ask::Write => 11,
        Ask::Noted => 12,
        Ask::Unnoted => 13,
    }
}

fn ask_of(number: u32) -> Ask
    ensures { result ≡ ask_of number }
{
    match number {
        0 => Ask::Expect,
        1 => Ask::LeaveOut,
        2 => Ask::Bytes,
        3 => Ask::Compare,
        4 => Ask::Open,
        5 => Ask::Ready,
        6 => Ask::Nothing,
        8 => Ask::Begins,
        9 => Ask::Ended,
        10 => Ask::Note,
        11 => Ask::Write,
        12 => Ask::Noted,
        13 => Ask::Unnoted,
        _ => Ask::Failed,
    }
}

fn found_of(number: u32) -> Found
    ensures { result ≡ found_of number }
{
    match number {
        0 => Found::Yes,
        1 => Found::No,
        _ => Found::Fault,
    }
}
