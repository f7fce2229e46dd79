//! What becomes of a call that changes settings, and of the service that takes it.
ghost use Rattle.std.specs.Prelude.{◌≡◌};
ghost use Rattle.dconf_served.specs.Served.{answered, came, ended, entered, formed, has_room, is_odd, is_path, is_settled, joined, lasts, left, made, named, noted, ordered, passed, placed, profiled, read, read_where_it_came, served_after, served_number, shown, told, told_in_turn, tried, used};

/// A change has so many bytes at most.
const LARGEST: u64 = 67_108_864;

/// So many changes wait at most; and one more only while those that wait have fewer bytes.
const MOST_WAITING: u64 = 10_000;

const MOST_BYTES: u64 = 268_435_456;

/// Each database takes a few files of the process.
const MOST_NAMES: u64 = 64;

/// To bring bytes into normal form takes GLib a time with the square of their number. Who sends more than that uses no GVariant library.
const MOST_ODD: u64 = 32_768;

/// A notice names paths of so many bytes at most.
const MOST_TOLD: u64 = 16_777_216;

/// A change of so many bytes at most is read in the thread in which it came: what comes behind it waits meanwhile.
const FEW_BYTES: u64 = 4096;

/// So many edits at most are told in the turn to write: others wait for theirs meanwhile.
const FEW_EDITS: u64 = 16;

/// What becomes of a change.
#[derive(Clone, Copy)]
pub enum Served {
    /// It goes on: it is read, or waits to be written.
    GoesOn,
    /// It is acknowledged.
    Acknowledged,
    /// It is answered by the fault for which it isn't written.
    Failed,
    /// It is answered by why nobody with these rights may write there.
    Closed,
    /// It is refused: its bytes aren't in normal form, and too many to be brought into it.
    Odd,
    /// It has too many bytes: it is refused; or, of what is told, the directory is named in which all is.
    TooLarge,
    /// It is refused: too much waits.
    TooMuch,
    /// It is refused: too many databases are in use.
    TooManyNames,
    /// The service ends: nothing of it is written any more, and that is its answer; or the thread that may still be at it is left.
    Late,
    /// It is for a later write: it is of another database; or another thread is to take it, or to read it; or it is told after the turn.
    Later,
    /// Its database is the profile's, with its locks.
    Profiles,
    /// Its database is one by itself; or an edit is made, or not, by itself.
    Alone,
    /// The service ends, and takes what it was sent before; or its thread is left, by which all are answered.
    Ends,
    /// Another service has the name: this one never serves.
    Taken,
    /// It says nothing.
    PassedOver,
    /// It isn't made, which is told.
    LeftOut,
    /// It counts in the place of the one before it; or what is made anew of it counts.
    Replaces,
    /// It is refused: no such database is served.
    Unsupported,
}

/// What is known of a change, and of those that wait.
#[repr(C)]
#[derive(Clone, Copy)]
pub struct ServedKnown {
    /// How many bytes it was sent in; of what is told, how many the paths have.
    pub size: u64,
    /// How many changes wait, and how many bytes they have together.
    pub waiting: u64,
    pub waiting_size: u64,
    /// How many databases are in use.
    pub names: u64,
    /// How many of the changes that wait are answered already, by a try that isn't over.
    pub answered: u64,
    /// How many edits those that are written together have, and how many of these reset a directory: what is told of that has no bound.
    pub edits: u64,
    pub resets: u64,
    /// What is said of the fault by which it can't be written: 1 it is said, 2 it was; else it doesn't last yet.
    pub said: u32,
    /// What a text is as the path of what is asked for there: 0 a key's, 1 a directory's; else it is none.
    pub kind: u32,
    /// Its database is in use.
    pub is_used: bool,
    pub is_normal: bool,
    /// Something of it is to be made.
    pub has_edits: bool,
    /// What can be made of it, and of those that are written with it, is on the disk.
    pub is_written: bool,
    /// Nobody with the rights of this process may write there.
    pub is_closed: bool,
    /// The service ends: nothing is tried again.
    pub ends: bool,
    /// A try to write it is under way.
    pub is_amid: bool,
    /// It is of the database whose changes are taken to be written together.
    pub is_same: bool,
    /// The store of its database alone is open, and that of the profile; and the user's file of both is the same.
    pub is_open: bool,
    pub is_profile_open: bool,
    pub has_same_file: bool,
    /// The service had its name, and the bus is gone.
    pub had_name: bool,
    pub is_bus_closed: bool,
    /// The path is no longer than one may be.
    pub is_short: bool,
    /// It is the path of the one before it, too; and a directory's reset takes away what is there.
    pub is_again: bool,
    pub is_covered: bool,
    /// A value is set there; else it is reset.
    pub sets: bool,
    /// The first database is the user's own.
    pub is_users: bool,
    /// An edit isn't made, be what was tried on the disk: its key may not be written, or others have set it since.
    pub is_unmade: bool,
    /// Its database is one that a profile of dconf's names by `service-db`.
    pub is_service_db: bool,
    /// One that came before it is on its way to the main thread.
    pub is_behind: bool,
    /// The file that is to be the profile of its database alone says that already.
    pub has_profile: bool,
    /// It is the first database.
    pub is_first: bool,
    /// Its bytes are in the other order than the library's.
    pub is_turned: bool,
    /// Who calls wants no answer.
    pub wants_none: bool,
    /// The environment asks that calls are noted.
    pub is_noted: bool,
}

/// What becomes of a change: 0 it came, 14 it came in another thread than the main one, 1 it is read, 17 its bytes are to be as the library takes them, 3 what is seen otherwise by it is told, 4 the service ends before it is answered, 5 it
/// waits behind those that are taken, 6 the stores were opened that may have its database, and else it was tried to write it. Of what it says: 9 a
/// path is read, 10 it comes behind those before it in the order of their bytes, 12 an edit was tried, and is told of, 13 it stands beside others
/// of its change; and 19 it is answered. Of its database 15: the file was read that is to be the profile of that alone, 18 it was to
/// be opened, unless it is in use. And of the service: 7 each caller is answered who can be at its end, 8 it hasn't its name, 11 it tells of a
/// database, 20 it was called. In which thread, and when: 16 one that waits is to be read, 21 those that are written are to be told.
pub fn served_after(done: u32, known: &ServedKnown) -> Served
    ensures { result ≡ served_after done known.now }
{
    match done {
        0 => came(known),
        1 => read(known),
        3 => told(known),
        4 => ended(known),
        5 => joined(known),
        6 => placed(known),
        7 => left(known),
        8 => named(known),
        9 => entered(known),
        10 => ordered(known),
        11 => shown(known),
        12 => made(known),
        13 => Served::Alone, // a locked key keeps no other one from being set
        14 => passed(known),
        15 => profiled(known),
        16 => read_where_it_came(known),
        17 => formed(known),
        18 => used(known),
        19 => answered(known),
        20 => noted(known),
        21 => told_in_turn(known),
        _ => tried(known),
    }
}

/// The same as a number: 0 it goes on, 1 it is acknowledged, 2 failed, 3 closed, 4 odd, 5 too large, 6 too much waits, 7 too many databases, 8
/// the service ends, 9 it is for later, or for another thread, 10 the profile's store has it, 11 a store of its own has it, 12 the service ends in peace, 13
/// another one has the name, 14 it is passed over, 15 left out, 16 it takes the place of the one before it, 17 no such database is served.
pub fn served_number(done: u32, known: &ServedKnown) -> u32
    ensures { result ≡ served_number (served_after done known.now) }
{
    match served_after(done, known) {
        Served::GoesOn => 0,
        Served::Acknowledged => 1,
        Served::Failed => 2,
        Served::Closed => 3,
        Served::Odd => 4,
        Served::TooLarge => 5,
        Served::TooMuch => 6,
        Served::TooManyNames => 7,
        Served::Late => 8,
        Served::Later => 9,
        Served::Profiles => 10,
        Served::Alone => 11,
        Served::Ends => 12,
        Served::Taken => 13,
        Served::PassedOver => 14,
        Served::LeftOut => 15,
        Served::Replaces => 16,
        Served::Unsupported => 17,
    }
}

fn came(known: &ServedKnown) -> Served
    ensures { result ≡ came known.now }
{
    if known.is_service_db {
        return Served::Unsupported;
    }
    if known.size > LARGEST {
        return Served::TooLarge;
    }
    if !known.is_used && known.names >= MOST_NAMES {
        return Served::TooManyNames;
    }
    if has_room(known) {
        return Served::GoesOn;
    }
    Served::TooMuch
}

fn has_room(known: &ServedKnown) -> bool
    ensures { result ≡ has_room known.now }
{
    known.waiting < MOST_WAITING && known.waiting_size < MOST_BYTES
}

fn read(known: &ServedKnown) -> Served
    ensures { result ≡ read known.now }
{
    if is_odd(known) {
        return Served::Odd;
    }
    Served::GoesOn
}

/// A small one is read before the thread that writes has its turn; any other one by that.
fn read_where_it_came(known: &ServedKnown) -> Served
    ensures { result ≡ read_where_it_came known.now }
{
    if known.size > FEW_BYTES {
        return Served::Later;
    }
    Served::GoesOn
}

fn is_odd(known: &ServedKnown) -> bool
    ensures { result ≡ is_odd known.now }
{
    !known.is_normal && known.size > MOST_ODD
}

/// In the library's order, and in normal form, it is taken as it was sent; any other one is made anew.
fn formed(known: &ServedKnown) -> Served
    ensures { result ≡ formed known.now }
{
    if known.is_normal && !known.is_turned {
        return Served::GoesOn;
    }
    Served::Replaces
}

/// What is no path, and a value at a directory, is passed over.
fn entered(known: &ServedKnown) -> Served
    ensures { result ≡ entered known.now }
{
    if !is_path(known) {
        return Served::PassedOver;
    }
    if known.is_short {
        return Served::GoesOn;
    }
    Served::LeftOut
}

/// A key's; or a directory's, whose keys are reset.
fn is_path(known: &ServedKnown) -> bool
    ensures { result ≡ is_path known.now }
{
    known.kind == 0 || known.kind == 1 && !known.sets
}

/// There may be very many resets in a directory that is reset; what is set there is set after that.
fn ordered(known: &ServedKnown) -> Served
    ensures { result ≡ ordered known.now }
{
    if known.is_again {
        return Served::Replaces;
    }
    if known.is_covered && !known.sets {
        return Served::PassedOver;
    }
    Served::GoesOn
}

/// Who listens may have taken for made what isn't; of a change that failed its caller is told.
fn made(known: &ServedKnown) -> Served
    ensures { result ≡ made known.now }
{
    if !known.is_written {
        return Served::PassedOver;
    }
    if known.is_unmade {
        return Served::LeftOut;
    }
    Served::GoesOn
}

/// Programs in a sandbox see no site's database.
fn shown(known: &ServedKnown) -> Served
    ensures { result ≡ shown known.now }
{
    if known.is_users && known.is_first {
        return Served::GoesOn;
    }
    Served::PassedOver
}

/// The main thread alone opens a database, takes what comes at the end, and notes calls; and what came before it stays before it.
fn passed(known: &ServedKnown) -> Served
    ensures { result ≡ passed known.now }
{
    if !known.is_used || (known.is_behind || (known.ends || known.is_noted)) {
        return Served::Later;
    }
    came(known)
}

/// All that are written together wait together, so that they are answered in the order in which they came.
fn tried(known: &ServedKnown) -> Served
    ensures { result ≡ tried known.now }
{
    if !is_settled(known) {
        return Served::GoesOn;
    }
    if is_odd(known) {
        return Served::Odd;
    }
    if !known.has_edits {
        return Served::Acknowledged;
    }
    if !known.is_written {
        return Served::Failed;
    }
    if known.is_closed {
        return Served::Closed;
    }
    Served::Acknowledged
}

/// It is written, or isn't tried again.
fn is_settled(known: &ServedKnown) -> bool
    ensures { result ≡ is_settled known.now }
{
    known.is_written || (lasts(known) || known.ends)
}

fn told(known: &ServedKnown) -> Served
    ensures { result ≡ told known.now }
{
    if known.size > MOST_TOLD {
        return Served::TooLarge;
    }
    Served::GoesOn
}

/// What is told in a moment is told before the turn is over; all else after it.
fn told_in_turn(known: &ServedKnown) -> Served
    ensures { result ≡ told_in_turn known.now }
{
    if known.resets > 0 || known.edits > FEW_EDITS {
        return Served::Later;
    }
    Served::GoesOn
}

fn lasts(known: &ServedKnown) -> bool
    ensures { result ≡ lasts known.now }
{
    known.said == 1 || known.said == 2
}

/// Who is amid a try alone knows what becomes of it: that try is its last.
fn ended(known: &ServedKnown) -> Served
    ensures { result ≡ ended known.now }
{
    if known.is_amid {
        return Served::GoesOn;
    }
    Served::Late
}

/// Those of one database are written together, up to the first of another one: all are answered in the order in which they came.
fn joined(known: &ServedKnown) -> Served
    ensures { result ≡ joined known.now }
{
    if known.is_same {
        return Served::GoesOn;
    }
    Served::Later
}

/// Who calls is answered once, if an answer is wanted.
fn answered(known: &ServedKnown) -> Served
    ensures { result ≡ answered known.now }
{
    if known.wants_none {
        return Served::PassedOver;
    }
    Served::GoesOn
}

/// Each call is noted, where the environment asks for it.
fn noted(known: &ServedKnown) -> Served
    ensures { result ≡ noted known.now }
{
    if known.is_noted {
        return Served::GoesOn;
    }
    Served::PassedOver
}

/// Each name has a store, if it can be opened. A profile that can't be might lock what is asked for: then nothing is written.
fn placed(known: &ServedKnown) -> Served
    ensures { result ≡ placed known.now }
{
    if !known.is_open || !known.is_profile_open {
        return Served::Failed;
    }
    if known.has_same_file {
        return Served::Profiles;
    }
    Served::Alone
}

/// Who watches it hears of each write: one that is good stays as it is, and any other is written.
fn profiled(known: &ServedKnown) -> Served
    ensures { result ≡ profiled known.now }
{
    if known.has_profile {
        return Served::PassedOver;
    }
    Served::GoesOn
}

/// What can't be opened can't be changed.
fn used(known: &ServedKnown) -> Served
    ensures { result ≡ used known.now }
{
    if known.is_open {
        return Served::GoesOn;
    }
    Served::Failed
}

/// The thread rests if nothing waited when the end came, and is waited for then; else it may be in line for its turn, or amid a try, by which all may be
/// answered by now.
fn left(known: &ServedKnown) -> Served
    ensures { result ≡ left known.now }
{
    if known.waiting == 0 {
        return Served::GoesOn;
    }
    if known.answered < known.waiting {
        return Served::Late;
    }
    Served::Ends
}

/// Whoever takes the name from a service that had it is sent what comes from then on.
fn named(known: &ServedKnown) -> Served
    ensures { result ≡ named known.now }
{
    if known.had_name || known.is_bus_closed {
        return Served::Ends;
    }
    Served::Taken
}
