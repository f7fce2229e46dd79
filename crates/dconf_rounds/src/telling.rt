//! Who is told that something is seen otherwise than before, list by list, and path by path.
ghost use Rattle.std.specs.Prelude.{◌≡◌};
ghost use Rattle.dconf_seen.specs.Reading.{known_word};
ghost use Rattle.dconf_rounds.specs.Telling.{asks_context, handed, handed_number, is_news, is_silent, list_after, passes_over, tell_next, telling_number};

use dconf_seen::{Known, found_by, found_number};

/// What has a notice ends the program where there are more keys of a schema in one.
const MOST_KEYS: usize = 255;

/// What comes next.
#[derive(Clone, Copy)]
pub enum Telling {
    /// Nothing is told: nobody is to be, or nobody listens to the path.
    Nothing,
    /// The path is taken for the next notice.
    Take,
    /// What was taken is told, and then the path is taken for another notice.
    TellAndTake,
    /// What was taken is told: that was all.
    Tell,
    /// All is told, since nobody knows what is seen otherwise.
    All,
    /// Whoever else tells of the files, and watches them by itself, looks at them.
    CatchUp,
    /// The list comes next of what may be written or no longer.
    Rights,
    /// The list comes next of what is seen otherwise.
    Values,
    /// The faults come next, each as a warning.
    Warn,
    /// The same, but whatever takes warnings may be gone: they are printed.
    Print,
    /// It is over.
    Over,
}

/// What is known.
#[repr(C)]
#[derive(Clone, Copy)]
pub struct TellKnown {
    /// How many paths were taken for the next notice.
    pub taken: usize,
    /// Which list was the last that was told, as a number; 0: none was.
    pub list: u32,
    /// Nobody has seen anything before.
    pub is_first: bool,
    /// The program ends.
    pub ends: bool,
    /// What is the newest is another than before.
    pub is_other: bool,
    /// Edits waited then, or wait now.
    pub has_edits: bool,
    /// The paths that are seen otherwise were found; else no memory is left.
    pub is_found: bool,
    /// Here is another one; else those were all.
    pub has_path: bool,
    /// Somebody listens to it; or, of all, to what they begin with.
    pub is_listened: bool,
    /// No list is being told.
    pub is_between: bool,
    /// It may be otherwise what may be written.
    pub has_rights: bool,
    /// What is told stands in files, of which somebody else tells, too.
    pub is_of_files: bool,
    /// There are faults to be told.
    pub has_faults: bool,
    /// There is nothing that is the newest: no store is open, or nobody is told what is in it.
    pub is_unseen: bool,
}

/// What comes next.
pub fn tell_next(known: &TellKnown) -> Telling
    ensures { result ≡ tell_next known.now }
{
    if known.is_between {
        return list_after(known);
    }
    if is_silent(known) {
        return Telling::Nothing;
    }
    if !known.is_found {
        return Telling::All;
    }
    if !known.is_listened {
        return Telling::Nothing;
    }
    if !known.has_path {
        return if known.taken == 0 {
            Telling::Nothing
        } else {
            Telling::Tell
        };
    }
    if known.taken < MOST_KEYS {
        return Telling::Take;
    }
    Telling::TellAndTake
}

/// Which list comes next. Who hears that a value is another one reads it by whatever else tells of the files, and may want to write, and asks
/// first whether it may.
fn list_after(known: &TellKnown) -> Telling
    ensures { result ≡ list_after known.now }
{
    if known.list < 5 && (known.is_of_files && !is_silent(known)) {
        return Telling::CatchUp;
    }
    if known.list < 6 && (known.has_rights && !is_silent(known)) {
        return Telling::Rights;
    }
    if known.list < 7 && !is_silent(known) {
        return Telling::Values;
    }
    if known.list < 8 && known.has_faults {
        return if known.ends {
            Telling::Print
        } else {
            Telling::Warn
        };
    }
    Telling::Over
}

/// The same as a number: 0 nothing, 1 take, 2 tell and take, 3 tell, 4 all, 5 catch up, 6 rights, 7 values, 8 warn, 9 print, 10 over.
pub fn telling_number(known: &TellKnown) -> u32
    ensures { result ≡ telling_number (tell_next known.now) }
{
    match tell_next(known) {
        Telling::Nothing => 0,
        Telling::Take => 1,
        Telling::TellAndTake => 2,
        Telling::Tell => 3,
        Telling::All => 4,
        Telling::CatchUp => 5,
        Telling::Rights => 6,
        Telling::Values => 7,
        Telling::Warn => 8,
        Telling::Print => 9,
        Telling::Over => 10,
    }
}

/// Whether there is something that is the newest, and is another than before.
fn is_news(known: &TellKnown) -> bool
    ensures { result ≡ is_news known.now }
{
    known.is_other && !known.is_unseen
}

fn is_silent(known: &TellKnown) -> bool
    ensures { result ≡ is_silent known.now }
{
    known.is_first || (known.ends || !(is_news(known) || known.has_edits))
}

/// Whether a value of another type was passed over when a setting was read: who asks for any type finds it elsewhere. What is seen of the key
/// then changes with its default, of which nobody else is told: so it is asked for by its type. Who reads the user's own value, or what there is
/// without that, passes over nothing.
pub fn passes_over(of_user: bool, of_default: bool, known: &Known) -> bool
    ensures { result ≡ passes_over of_user of_default (known_word known.now) known.now.writable known.now.may_write known.now.edit_fits known.now.stored_fits }
{
    let of_any = Known {
        edit_fits: true,
        stored_fits: true,
        ..*known
    };
    !(of_user || of_default)
        && found_number(found_by(false, false, *known))
            != found_number(found_by(false, false, of_any))
}

/// What becomes of the paths that are seen otherwise than what was told last.
#[derive(Clone, Copy)]
pub enum PathsHanded {
    /// They couldn't be handed out: what was told last still is, and the files are looked at again.
    Not,
    /// They were: what is the newest was told. But nobody looked at the files, which are looked at again.
    Partly,
    /// The same, and the files were looked at.
    Whole,
}

/// What becomes of them.
pub fn handed(has_paths: bool, has_looked: bool) -> PathsHanded
    ensures { result ≡ handed has_paths has_looked }
{
    if !has_paths {
        return PathsHanded::Not;
    }
    if has_looked {
        PathsHanded::Whole
    } else {
        PathsHanded::Partly
    }
}

/// The same as a number: 0 not, 1 partly, 2 whole.
pub fn handed_number(has_paths: bool, has_looked: bool) -> u32
    ensures { result ≡ handed_number (handed has_paths has_looked) }
{
    match handed(has_paths, has_looked) {
        PathsHanded::Not => 0,
        PathsHanded::Partly => 1,
        PathsHanded::Whole => 2,
    }
}

/// Whether the main context of somebody who listens is asked to say that it turns: none is known to turn yet, and this one isn't asked already.
pub fn asks_context(has_turned: bool, is_asked: bool) -> bool
    ensures { result ≡ asks_context has_turned is_asked }
{
    !(has_turned || is_asked)
}
