//! What a program is told of a fault: which sentence, with which code and errno, and which file that names.
ghost use Rattle.std.specs.Prelude.{◌≡◌};
ghost use Rattle.dconf_making.specs.Sentences.{called, code_for, ended, ended_code, ended_errno, errno_of, fault_of, folders_name, is_placed, locked, locks_name, named_for, outcome_of, parsed, parsed_code, said_for, said_of_file, says_number, says_of, sentence_of, sought, sought_code, system_errno, unexpected, users_name};

use crate::ending::{Told as EndingTold, told_by};
use dconf_verdicts::{Told, told_code, told_of};

/// EIO: what is told of a write that wrote nothing, or more than there was.
const EIO: u32 = 5;

/// EINVAL: what the call says that opens a lock of what is no regular file.
const EINVAL: u32 = 22;

/// How many milliseconds a change waits for the lock, if its program asks for nothing else.
const USUAL_WAIT: u32 = 10000;

/// What was asked: the home that the system has for the user.
const HOME: u32 = 2;

/// A fault, and what is known of it.
#[repr(C)]
#[derive(Clone, Copy)]
pub struct FaultMet {
    /// Of what it is: 0 a file, 1 the lock by which programs take turns, 2 a proved call, 4 the one that makes a file of edits, 5 the look for a
    /// store's folder, 6 for its kind, 7 the reading of a value's text, 8 the one that compares with what was expected, else a change that ended.
    pub of: u32,
    /// The errno; of a call and of a text, the number of its fault; 0 of a look that failed by no errno, and of what is seen otherwise.
    pub number: u32,
    /// Of a change, what is told, as [`DconfdbEnding`](crate::DconfdbEnding) has it, and what has become of its file.
    pub told: u32,
    pub outcome: u32,
    /// Of a lock, how many milliseconds it was waited for, and the errno by which its file can't be looked at, or 0.
    pub wait: u32,
    pub looked: u32,
    /// Of a folder, what was asked to know it: 2 the home that the system has for the user, else something else.
    pub asked: u32,
    /// Of a lock, whether that file is there.
    pub is_there: bool,
    /// .. and whether a database is the user's.
    pub has_user: bool,
    /// Of a call: its number has a text, a line is at fault, it breaks a rule of sound databases, and an item does.
    pub has_text: bool,
    pub has_line: bool,
    pub has_rule: bool,
    pub has_item: bool,
    /// Of edits: one of them is at fault.
    pub has_edit: bool,
    /// Of a folder: somebody gives it.
    pub is_given: bool,
}

/// Of what it is.
#[derive(Clone, Copy)]
pub enum FaultOf {
    File,
    Lock,
    Call,
    Change,
    Edits,
    Folder,
    Kind,
    Parsing,
    Expected,
}

/// The sentence.
#[derive(Clone, Copy, Debug, PartialEq, Eq)]
pub enum Says {
    /// None: there is no fault.
    Nothing,
    /// None: it was told when it was met.
    Already,
    NoMemory,
    TooBig,
    /// What the system says of the errno.
    System,
    /// That no regular file has the lock's name.
    NoFile,
    /// That others have been changing it for ten seconds; or for that many milliseconds.
    TenSeconds,
    Busy,
    /// That it is perhaps changed; changed, but perhaps not on the disk; as it was to be, but perhaps not on the disk.
    Either,
    Unsettled,
    Unsynced,
    /// That a double is not printed.
    Double,
    /// The number alone.
    Number,
    /// The text of the number; the same of that line.
    Text,
    TextAt,
    /// Which rule is broken; and by which item.
    Rule,
    RuleAt,
    /// That nothing names a store's folder; that the machine's file names no kind of store.
    NoFolder,
    NoKind,
    /// Of a text that is read as a value: it isn't UTF-8; its value is nested too deep, or too long; it holds a double; it is none, for a cause that
    /// is in one place of it or not.
    NotUtf8,
    TooDeep,
    HoldsDouble,
    NoValue,
    NoValueAt,
    /// That something else is seen at an edit's path than was expected.
    Changed,
}

/// What a program is told. The numbers of the sentences are those of [`says_number`]; the code is the library's header's, and so is the outcome.
#[repr(C)]
#[derive(Clone, Copy)]
pub struct Sentence {
    pub says: u32,
    pub code: u32,
    /// 0, if no call of the system failed.
    pub errno: u32,
    pub outcome: u32,
    /// The name that stands in front: 0 that which is handed in, or the user's file, 1 that of the lock's file, 2 that of the store's folder, 3 an
    /// edit's path, 4 that of the user's home, 5 that of the folder which the environment names.
    pub names: u32,
    /// It is told which edit, database or line is at fault.
    pub is_placed: bool,
}

/// What is told of a fault.
pub fn sentence_of(met: &FaultMet) -> Sentence
    ensures { result ≡ sentence_of met.now }
{
    let says = says_of(met);
    let of = fault_of(met.of);
    Sentence {
        says: says_number(says),
        code: code_for(of, met),
        errno: errno_of(says, met),
        outcome: outcome_of(says, met),
        names: named_for(of, says, met),
        is_placed: is_placed(says, of),
    }
}

/// Which sentence it is.
pub fn says_of(met: &FaultMet) -> Says
    ensures { result ≡ says_of met.now }
{
    said_for(fault_of(met.of), met)
}

fn fault_of(number: u32) -> FaultOf
    ensures { result ≡ fault_of number }
{
    match number {
        0 => FaultOf::File,
        1 => FaultOf::Lock,
        2 => FaultOf::Call,
        4 => FaultOf::Edits,
        5 => FaultOf::Folder,
        6 => FaultOf::Kind,
        7 => FaultOf::Parsing,
        8 => FaultOf::Expected,
        _ => FaultOf::Change,
    }
}

fn said_for(of: FaultOf, met: &FaultMet) -> Says
    ensures { result ≡ said_for of met.now }
{
    match of {
        FaultOf::File => said_of_file(met.number),
        FaultOf::Lock => locked(met),
        FaultOf::Call => called(met),
        FaultOf::Edits => called(met),
        FaultOf::Change => ended(told_by(met.told), met),
        FaultOf::Folder => sought(Says::NoFolder, met.number),
        FaultOf::Kind => sought(Says::NoKind, met.number),
        FaultOf::Parsing => parsed(met.number),
        FaultOf::Expected => unexpected(met.number),
    }
}

/// Something else is seen; or the comparison failed, which takes memory.
fn unexpected(number: u32) -> Says
    ensures { result ≡ unexpected number }
{
    if number == 0 {
        return Says::Changed;
    }
    Says::NoMemory
}

fn said_of_file(errno: u32) -> Says
    ensures { result ≡ said_of_file errno }
{
    match told_of(false, errno) {
        Told::Memory => Says::NoMemory,
        Told::TooLarge => Says::TooBig,
        _ => Says::System,
    }
}

fn locked(met: &FaultMet) -> Says
    ensures { result ≡ locked met.now }
{
    if matches!(told_of(true, met.number), Told::Busy) {
        return if met.wait == USUAL_WAIT {
            Says::TenSeconds
        } else {
            Says::Busy
        };
    }
    if met.number == EINVAL {
        Says::NoFile
    } else {
        said_of_file(met.number)
    }
}

fn called(met: &FaultMet) -> Says
    ensures { result ≡ called met.now }
{
    match met.number {
        19 => Says::Double,
        7 if met.has_rule && met.has_item => Says::RuleAt,
        7 if met.has_rule => Says::Rule,
        _ if met.has_text && met.has_line => Says::TextAt,
        _ if met.has_text => Says::Text,
        _ => Says::Number,
    }
}

fn ended(told: EndingTold, met: &FaultMet) -> Says
    ensures { result ≡ ended told met.now }
{
    match told {
        EndingTold::Nothing => Says::Nothing,
        EndingTold::First => said_of_file(met.number),
        EndingTold::BadWrite => Says::System,
        EndingTold::Either => Says::Either,
        EndingTold::Unsettled => Says::Unsettled,
        EndingTold::Unsynced => Says::Unsynced,
        EndingTold::Already => Says::Already,
    }
}

/// No call failed, and there is none of what was looked for; or one did.
fn sought(says: Says, errno: u32) -> Says
    ensures { result ≡ sought says errno }
{
    if errno == 0 {
        return says;
    }
    said_of_file(errno)
}

fn parsed(number: u32) -> Says
    ensures { result ≡ parsed number }
{
    match number {
        1 => Says::NoMemory,
        8 => Says::NotUtf8,
        17 => Says::TooDeep,
        19 => Says::HoldsDouble,
        32..=35 => Says::NoValueAt,
        _ => Says::NoValue,
    }
}

fn code_for(of: FaultOf, met: &FaultMet) -> u32
    ensures { result ≡ code_for of met.now }
{
    match of {
        FaultOf::File => told_code(false, met.number),
        FaultOf::Lock => told_code(true, met.number),
        FaultOf::Call => met.number,
        FaultOf::Edits => met.number,
        FaultOf::Change => ended_code(told_by(met.told), met.number),
        FaultOf::Folder => sought_code(66, met.number),
        FaultOf::Kind => sought_code(9, met.number),
        FaultOf::Parsing => parsed_code(parsed(met.number), met.number),
        FaultOf::Expected if met.number == 0 => 67,
        FaultOf::Expected => 1,
    }
}

fn ended_code(told: EndingTold, errno: u32) -> u32
    ensures { result ≡ ended_code told errno }
{
    match told {
        EndingTold::First => told_code(false, errno),
        _ => 64,
    }
}

fn sought_code(code: u32, errno: u32) -> u32
    ensures { result ≡ sought_code code errno }
{
    if errno == 0 {
        return code;
    }
    told_code(false, errno)
}

/// A text that is no value has one code, whatever it is that is wrong with it.
fn parsed_code(says: Says, number: u32) -> u32
    ensures { result ≡ parsed_code says number }
{
    match says {
        Says::NoValue | Says::NoValueAt => 21,
        _ => number,
    }
}

fn errno_of(says: Says, met: &FaultMet) -> u32
    ensures { result ≡ errno_of says met.now }
{
    match says {
        Says::System => system_errno(fault_of(met.of), met),
        Says::NoFile | Says::Either | Says::Unsettled | Says::Unsynced => met.number,
        _ => 0,
    }
}

fn system_errno(of: FaultOf, met: &FaultMet) -> u32
    ensures { result ≡ system_errno of met.now }
{
    match of {
        FaultOf::Change => ended_errno(told_by(met.told), met.number),
        _ => met.number,
    }
}

fn ended_errno(told: EndingTold, errno: u32) -> u32
    ensures { result ≡ ended_errno told errno }
{
    match told {
        EndingTold::BadWrite => EIO,
        _ => errno,
    }
}

fn outcome_of(says: Says, met: &FaultMet) -> u32
    ensures { result ≡ outcome_of says met.now }
{
    match says {
        Says::Either | Says::Unsettled | Says::Unsynced => met.outcome,
        _ => 1,
    }
}

fn named_for(of: FaultOf, says: Says, met: &FaultMet) -> u32
    ensures { result ≡ named_for of says met.now }
{
    match of {
        FaultOf::Lock => locks_name(says, met),
        FaultOf::Change => users_name(met),
        FaultOf::Edits if met.has_edit => 3,
        FaultOf::Edits => users_name(met),
        FaultOf::Expected => 3,
        FaultOf::Folder => folders_name(met),
        _ => 0,
    }
}

/// A folder that is given is named itself; else what names it.
fn folders_name(met: &FaultMet) -> u32
    ensures { result ≡ folders_name met.now }
{
    if met.is_given {
        return 0;
    }
    if met.asked == HOME { 4 } else { 5 }
}

/// A lock that could be looked at is named itself; else what it is of.
fn locks_name(says: Says, met: &FaultMet) -> u32
    ensures { result ≡ locks_name says met.now }
{
    let is_there = met.looked == 0 && met.is_there;
    match says {
        Says::NoFile => 1,
        Says::TenSeconds | Says::Busy => users_name(met),
        _ if is_there => 1,
        _ => users_name(met),
    }
}

fn users_name(met: &FaultMet) -> u32
    ensures { result ≡ users_name met.now }
{
    if met.has_user { 0 } else { 2 }
}

/// Of no memory it isn't told where it was lacking; and what is in the one line of the machine's file is not known if that can't be read.
fn is_placed(says: Says, of: FaultOf) -> bool
    ensures { result ≡ is_placed says of }
{
    match says {
        Says::NoMemory => false,
        Says::System | Says::TooBig => !matches!(of, FaultOf::Kind),
        _ => true,
    }
}

/// The same in numbers, in this order.
pub fn says_number(says: Says) -> u32
    ensures { result ≡ says_number says }
{
    match says {
        Says::Nothing => 0,
        Says::Already => 1,
        Says::NoMemory => 2,
        Says::TooBig => 3,
        Says::System => 4,
        Says::NoFile => 5,
        Says::TenSeconds => 6,
        Says::Busy => 7,
        Says::Either => 8,
        Says::Unsettled => 9,
        Says::Unsynced => 10,
        Says::Double => 11,
        Says::Number => 12,
        Says::Text => 13,
        Says::TextAt => 14,
        Says::Rule => 15,
        Says::RuleAt => 16,
        Says::NoFolder => 17,
        Says::NoKind => 18,
        Says::NotUtf8 => 19,
        Says::TooDeep => 20,
        Says::HoldsDouble => 21,
        Says::NoValue => 22,
        Says::NoValueAt => 23,
        Says::Changed => 24,
    }
}
