//! What is said of a fault while it lasts, and when what failed by it is tried again. All moments are of one clock, in microseconds.
ghost use Rattle.std.specs.Prelude.{◌≡◌, ◌↔◌, IsTrue};
ghost use Rattle.dconf_waiting.specs.Faults.{due_after, failed_after, failing_after, is_awaited, is_said_after, is_still_there, lasts, longest, no_fault, since_of, wakes, word_number, word_of};

use crate::due::pause_after;

/// From when on a fault is one that lasts, if it is mostly so for a moment, and of any other.
const LONGEST_MOMENT: u64 = 10_000_000;

const LONGEST_FAULT: u64 = 1_500_000;

/// A fault that was met, and is there still; all zeros, but for `tries`: there is none.
#[repr(C)]
#[derive(Clone, Copy)]
pub struct Failing {
    /// Since when it is there.
    pub since: u64,
    /// The pause before the next try, and when that is.
    pub pause: u64,
    pub again: u64,
    /// When it will be said, if it is there then; of what was said, 0.
    pub due: u64,
    /// How many tries there were, by whoever tries.
    pub tries: u64,
    /// Which of them was the last that failed by it once it lasted; 0: none did.
    pub failed: u64,
    pub is_there: bool,
    /// It was said.
    pub is_said: bool,
}

/// What is seen of a fault of files, once they were looked at, or were read as they were written.
#[repr(C)]
#[derive(Clone, Copy)]
pub struct FaultSeen {
    /// It was met now.
    pub is_met: bool,
    /// A look failed by it. Else it is of a file that was read.
    pub is_of_look: bool,
    /// It was a look.
    pub has_looked: bool,
    pub is_momentary: bool,
    /// The look is made again of itself.
    pub is_repeated: bool,
}

/// What is said now.
#[derive(Clone, Copy)]
pub enum Word {
    /// There is no fault; or it isn't minded yet.
    Nothing,
    /// The fault.
    Say,
    /// It lasts, and was said.
    Said,
    /// It is over.
    Over,
}

impl Failing {
    /// It was tried, and is there or not. `tries_again`: somebody will, of themselves. Gives what is said as a number: 0 nothing, 1 say it, 2
    /// it is said, 3 it is over.
    pub fn met(&mut self, is_there: bool, is_momentary: bool, tries_again: bool, now: u64) -> u32
        ensures said { result ≡ word_number (word_of self.old is_there is_momentary tries_again now) }
        ensures after { self.new ≡ failing_after self.old is_there is_momentary tries_again now }
    {
        let word = self.word(is_there, is_momentary, tries_again, now);
        *self = self.after(is_there, is_momentary, tries_again, now);
        match word {
            Word::Nothing => 0,
            Word::Say => 1,
            Word::Said => 2,
            Word::Over => 3,
        }
    }

    /// The same of a look at the files, or of a write. As long as they can't be read, what is shown may not be what they hold: so that is said at once,
    /// unless it is mostly so for a moment, and the look is repeated. That a look failed is over by the next look alone.
    pub fn met_looking(&mut self, seen: &FaultSeen, now: u64) -> u32
        ensures said { result ≡ word_number (word_of self.old (is_still_there seen.now) seen.now.is_momentary (is_awaited seen.now.is_momentary seen.now.is_repeated) now) }
        ensures after { self.new ≡ failing_after self.old (is_still_there seen.now) seen.now.is_momentary (is_awaited seen.now.is_momentary seen.now.is_repeated) now }
    {
        self.met(
            is_still_there(seen),
            seen.is_momentary,
            is_awaited(seen.is_momentary, seen.is_repeated),
            now,
        )
    }

    /// What is said of it. It is said once, as soon as it lasts, and then not until it is over.
    pub fn word(&self, is_there: bool, is_momentary: bool, tries_again: bool, now: u64) -> Word
        ensures { result ≡ word_of self.now is_there is_momentary tries_again now }
    {
        if !is_there {
            return if self.is_there {
                Word::Over
            } else {
                Word::Nothing
            };
        }
        if !self.lasts(is_momentary, tries_again, now) {
            return Word::Nothing;
        }
        if self.is_said {
            return Word::Said;
        }
        Word::Say
    }

    /// When who tries again is to wake: for the next try; or, if it is woken for that, when the fault is to be said, if it is there then. 0: at no time.
    pub fn wakes(&self, is_woken: bool) -> u64
        ensures { result ≡ wakes self.now is_woken }
    {
        if is_woken { self.due } else { self.again }
    }

    fn after(&self, is_there: bool, is_momentary: bool, tries_again: bool, now: u64) -> Failing
        ensures { result ≡ failing_after self.now is_there is_momentary tries_again now }
    {
        if !is_there {
            return no_fault(self.tries);
        }
        let pause = pause_after(self.pause);
        Failing {
            since: self.since(now),
            pause,
            again: now.saturating_add(pause),
            due: self.due_after(is_momentary, tries_again, now),
            tries: self.tries,
            failed: self.failed_after(is_momentary, tries_again, now),
            is_there: true,
            is_said: self.is_said_after(is_momentary, tries_again, now),
        }
    }

    fn is_said_after(&self, is_momentary: bool, tries_again: bool, now: u64) -> bool
        ensures { result ≡ is_said_after self.now is_momentary tries_again now }
    {
        self.is_said || self.lasts(is_momentary, tries_again, now)
    }

    fn due_after(&self, is_momentary: bool, tries_again: bool, now: u64) -> u64
        ensures { result ≡ due_after self.now is_momentary tries_again now }
    {
        if self.is_said_after(is_momentary, tries_again, now) {
            return 0;
        }
        self.since(now).saturating_add(longest(is_momentary))
    }

    fn failed_after(&self, is_momentary: bool, tries_again: bool, now: u64) -> u64
        ensures { result ≡ failed_after self.now is_momentary tries_again now }
    {
        if self.lasts(is_momentary, tries_again, now) {
            self.tries
        } else {
            self.failed
        }
    }

    /// Whether it lasts: nobody tries again by themselves, or it is there for longer than such a fault mostly is.
    fn lasts(&self, is_momentary: bool, tries_again: bool, now: u64) -> bool
        ensures { result ≡ lasts self.now is_momentary tries_again now }
    {
        !tries_again || self.since(now).saturating_add(longest(is_momentary)) <= now
    }

    fn since(&self, now: u64) -> u64
        ensures { result ≡ since_of self.now now }
    {
        if self.is_there { self.since } else { now }
    }
}

/// Whether a fault is the one that was said by that text: whatever it is of, the same text says the same, and is said once.
pub fn is_same_fault(said: &[u8], text: &[u8]) -> bool
    ensures { IsTrue result ↔ (said.now ≡ text.now) }
{
    said == text
}

/// After so many tries.
fn no_fault(tries: u64) -> Failing
    ensures { result ≡ no_fault tries }
{
    Failing {
        since: 0,
        pause: 0,
        again: 0,
        due: 0,
        tries,
        failed: 0,
        is_there: false,
        is_said: false,
    }
}

fn is_still_there(seen: &FaultSeen) -> bool
    ensures { result ≡ is_still_there seen.now }
{
    seen.is_met || (seen.is_of_look && !seen.has_looked)
}

/// Whether it is awaited that a look succeeds.
fn is_awaited(is_momentary: bool, is_repeated: bool) -> bool
    ensures { result ≡ is_awaited is_momentary is_repeated }
{
    is_momentary && is_repeated
}

fn longest(is_momentary: bool) -> u64
    ensures { result ≡ longest is_momentary }
{
    if is_momentary {
        LONGEST_MOMENT
    } else {
        LONGEST_FAULT
    }
}
