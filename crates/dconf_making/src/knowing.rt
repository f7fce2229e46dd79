//! What a store knows beside what it shows: of others' changes, and of its own last one.
ghost use Rattle.std.specs.Prelude.{◌≡◌};
ghost use Rattle.dconf_making.specs.Knowing.{after, follows, happening_of, newest_of, tried_after};

use crate::ending::Newest;

/// What it knows.
#[repr(C)]
#[derive(Clone, Copy)]
pub struct StoreKnown {
    /// The time of what it noted last; 0: it noted nothing.
    pub noted: u64,
    /// Others changed something, and nobody was told yet.
    pub has_news: bool,
    /// It remembers what others changed.
    pub has_seen: bool,
    /// It keeps what its file is by a change of its own that is perhaps made.
    pub has_tried: bool,
    /// Its last change is perhaps not on the disk.
    pub is_unsettled: bool,
    /// What a look just found is what it kept: that change was made.
    pub is_made: bool,
}

/// What happened to it.
#[derive(Clone, Copy)]
pub enum Happening {
    /// A look found other files. They show something else than before, or not.
    Found(bool),
    /// Whoever asked for news was told.
    Told,
    /// Others changed something. That is remembered from now on, or, where no memory is left for it, it is not: then no edit is left out for it.
    Seen(bool),
    /// It noted who set what last: what others set, and, with the time of the last, what it set itself.
    Noted(u64),
    /// A change ended: these settings are the newest, and it may not be on the disk.
    Ended(Newest, bool),
    /// It was opened in the place of another one, of the same user's file.
    Follows(StoreKnown),
    /// .. of another one.
    Begins,
    /// A look found another file. It is that of the change that is perhaps made, or not.
    Compared(bool),
}

impl StoreKnown {
    /// What it knows after that.
    pub fn after(self, what: Happening) -> StoreKnown
        ensures { result ≡ after self what }
    {
        match what {
            Happening::Found(is_news) => StoreKnown {
                has_news: self.has_news || is_news,
                has_tried: false,
                is_made: false,
                ..self
            },
            Happening::Told => StoreKnown {
                has_news: false,
                ..self
            },
            Happening::Seen(is_had) => StoreKnown {
                has_seen: self.has_seen || is_had,
                ..self
            },
            Happening::Noted(time) => StoreKnown {
                noted: if time == 0 { self.noted } else { time },
                has_seen: false,
                ..self
            },
            Happening::Ended(newest, is_unsettled) => StoreKnown {
                has_tried: tried_after(newest, self.has_tried),
                is_unsettled,
                ..self
            },
            Happening::Follows(old) => self.follows(old),
            Happening::Begins => self,
            Happening::Compared(is_same) => StoreKnown {
                is_made: self.has_tried && is_same,
                ..self
            },
        }
    }

    /// What either knew.
    fn follows(self, old: StoreKnown) -> StoreKnown
        ensures { result ≡ follows self old }
    {
        StoreKnown {
            noted: self.noted.max(old.noted),
            has_news: self.has_news || old.has_news,
            has_seen: self.has_seen || old.has_seen,
            has_tried: self.has_tried || old.has_tried,
            is_unsettled: self.is_unsettled || old.is_unsettled,
            is_made: false,
        }
    }

    /// The same in numbers: what happened is 0 found, 1 told, 2 seen, 3 noted, 4 ended, 6 compared, else opened in the place of the old one. `yes`
    /// is whether there is news, what was seen is remembered, what was asked for is in the file, it may not be on the disk, the file is that of the
    /// change that is perhaps made, or both have the same file; `number` the time of a note, 0 if nothing was set, or, of an end, which settings are
    /// the newest.
    pub fn after_number(self, what: u32, yes: bool, number: u64, old: &StoreKnown) -> StoreKnown
        ensures { result ≡ after self (happening_of what yes number old.now) }
    {
        self.after(happening_of(what, yes, number, old))
    }
}

/// What was tried is compared with what a look finds, until one finds another file, or a later change is made.
fn tried_after(newest: Newest, has_tried: bool) -> bool
    ensures { result ≡ tried_after newest has_tried }
{
    match newest {
        Newest::Old => has_tried,
        Newest::Newer => false,
        Newest::Tried => true,
    }
}

fn newest_of(number: u64) -> Newest
    ensures { result ≡ newest_of number }
{
    match number {
        0 => Newest::Old,
        1 => Newest::Newer,
        _ => Newest::Tried,
    }
}

fn happening_of(what: u32, yes: bool, number: u64, old: &StoreKnown) -> Happening
    ensures { result ≡ happening_of what yes number old.now }
{
    match what {
        0 => Happening::Found(yes),
        1 => Happening::Told,
        2 => Happening::Seen(yes),
        3 if yes => Happening::Noted(number),
        3 => Happening::Noted(0),
        4 => Happening::Ended(newest_of(number), yes),
        6 => Happening::Compared(yes),
        _ if yes => Happening::Follows(*old),
        _ => Happening::Begins,
    }
}
