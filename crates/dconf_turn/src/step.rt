//! What a turn has its caller do, what the caller answers, and what is said at the end.

/// What the caller does next, in the folder of a file NAME.
#[derive(Clone, Copy, Debug, PartialEq, Eq)]
pub enum Step {
    /// Waits for the turn to change files of the folder.
    Lock,
    /// Reads the file. The answer is the permission bits of the new one: those of the old one, or others if there is none. It is 512 more if
    /// the old one is to be set aside, and 1024 or more if the host is to choose the bits.
    Read,
    /// Makes the new bytes. The answer is how many there are. The fault [`NOTHING`](crate::NOTHING) says that the file is to stay as it is.
    Make,
    /// Makes an empty file NAME.new with these permission bits, in the place of any other.
    Create(u32),
    /// Writes the bytes from this one on to NAME.new, or some of them. The answer is how many.
    Append(usize),
    /// Gives NAME.new these permission bits, if any, and has it on the disk, whole.
    Sync(Option<u32>),
    /// Gives what NAME is another name, NAME~1 or the like, that is free, unless it has one already. The answer is 0, or another number if it can't have one.
    SetAside,
    /// Gives NAME.new such a free name, and has it change places with NAME.
    Exchange,
    /// Gives NAME.new the name NAME, in the place of any other file.
    Rename,
    /// Has the folder's names on the disk.
    SyncFolder,
    /// Removes NAME.new.
    Remove,
    /// Has what NAME is on the disk, if there is such a file, and the folder's names.
    Settle,
    /// Writes to the lock's own file what others are to know of the change, or that there is none.
    Note,
    /// Gives the turn back.
    Unlock,
    /// Nothing: it is over.
    Done(Outcome),
}

/// What became of a step.
#[derive(Clone, Copy, Debug, PartialEq, Eq)]
pub enum Answer {
    /// It was done. The number is the one that the step asks for.
    Yes(usize),
    /// It failed, with a fault of the caller's numbering. It may have been done all the same.
    No(u32),
}

/// What became of the file NAME, with the first fault. The fault 0 is a write that wrote nothing, or more than there was.
#[derive(Clone, Copy, Debug, PartialEq, Eq)]
pub enum Outcome {
    /// It holds the new bytes, also after a crash.
    Made,
    /// It is as it was.
    Kept(u32),
    /// It is as it was, or holds the new bytes.
    Either(u32),
    /// It holds the new bytes, but a crash may leave it as it was.
    Unsettled(u32),
    /// It is as it was, as it was to stay, also after a crash.
    Same,
    /// It is as it was, as it was to stay, but a crash may leave what was there before.
    Unsynced(u32),
}
