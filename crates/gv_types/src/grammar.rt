//! Reading a type at the start of a text (GVariant Specification, "Type Strings").
ghost use Rattle.std.specs.Prelude.{◌≡◌, ◌↔◌, IsTrue, suc, ◌∷◌, MatchResult};
ghost use Rattle.gv_model.specs.TypeText.{mark};
ghost use Rattle.gv_types.specs.Classes.{is_single_mark};
ghost use Rattle.gv_types.specs.TypePrefix.{BeginsWithType, ReadsType, HaltsAt, IsNotClosed, after_letters};

use crate::class::{Class, class_of_letter};
use crate::fault::TypeFault;
use crate::type_str::TypeStr;

/// Why reading a type stops.
#[derive(Clone, Copy, Debug, PartialEq, Eq)]
pub(crate) enum Halt {
    /// The text ends inside the type.
    Unclosed,
    /// A byte can't occur there.
    BadChar,
    /// A byte begins a type that is no key, where a key is.
    KeyNotBasic,
    /// A byte begins a type that is nested too deep.
    TooDeep,
}

impl Halt {
    ghost use Rattle.gv_types.specs.TypeFaults.{type_fault_of, halt_fault};

    /// The fault that this is at the byte of this index.
    pub(crate) fn at(self, index: usize) -> TypeFault
        ensures { type_fault_of result ≡ halt_fault self index }
    {
        match self {
            Halt::Unclosed => TypeFault::Unclosed(index),
            Halt::BadChar => TypeFault::BadChar(index),
            Halt::KeyNotBasic => TypeFault::KeyNotBasic(index),
            Halt::TooDeep => TypeFault::TooDeep(index),
        }
    }
}

/// Why reading a type stops, and the bytes before which it does.
#[derive(Clone, Copy, Debug)]
pub(crate) struct Stop<'a> {
    pub(crate) halt: Halt,
    pub(crate) rest: &'a [u8],
}

/// A type that was read: what follows it, and how many tuples of one member it is, one in another.
#[derive(Clone, Copy, Debug)]
pub(crate) struct Reading<'a> {
    pub(crate) rest: &'a [u8],
    pub(crate) singles: u8,
}

/// Reading stops at once.
fn stopped(halt: Halt, rest: &[u8]) -> Result<Reading<'_>, Stop<'_>>
    ensures { MatchResult result (λ _. ⊥) (λ stop. (stop.halt ≡ halt) × (stop.rest.now ≡ rest.now)) }
{
    Err(Stop { halt, rest })
}

/// What follows the type at the start of the text, of at most this many levels.
pub(crate) fn after_type(text: &[u8], room: u8) -> Result<&[u8], Stop<'_>>
    ensures { MatchResult result
        (λ rest. BeginsWithType room text.now rest.now)
        (λ stop. HaltsAt room text.now stop.rest.now stop.halt) }
{
    let read = read_type(text, room)?;
    Ok(read.rest)
}

/// Reads the type at the start of the text, of at most this many levels.
///
/// It looks at each byte once, and calls itself no deeper than the levels that are left.
#[cycle(types)]
#[inline(always)]
pub(crate) fn read_type(text: &[u8], room: u8) -> Result<Reading<'_>, Stop<'_>>
    ensures { MatchResult result
        (λ read. ReadsType room text.now read.rest.now read.singles)
        (λ stop. HaltsAt room text.now stop.rest.now stop.halt) }
{
    let Some((letter, rest)) = text.split_first() else {
        return stopped(Halt::Unclosed, text);
    };
    let Some(class) = class_of_letter(*letter) else {
        return stopped(Halt::BadChar, text);
    };
    if room == 0 {
        return stopped(Halt::TooDeep, text);
    }
    match class {
        Class::Basic(_) | Class::Variant => Ok(Reading { rest, singles: 0 }),
        Class::Array | Class::Maybe => read_element(rest, room - 1),
        Class::Tuple => read_members(rest, room - 1),
        Class::Entry => read_entry(rest, room - 1),
    }
}

/// Reads the type that an array or a maybe holds, of at most this many levels. No tuple is counted.
#[cycle(types)]
fn read_element(text: &[u8], room: u8) -> Result<Reading<'_>, Stop<'_>>
    ensures { MatchResult result
        (λ read. BeginsWithType room text.now read.rest.now × (read.singles ≡ 0))
        (λ stop. HaltsAt room text.now stop.rest.now stop.halt) }
{
    let element = read_type(text, room)?;
    Ok(Reading {
        rest: element.rest,
        singles: 0,
    })
}

/// Reads the tuple whose `(` comes before the text, with members of at most this many levels.
#[cycle(types)]
fn read_members(text: &[u8], room: u8) -> Result<Reading<'_>, Stop<'_>>
    ensures { MatchResult result
        (λ read. ReadsType (suc room) (40 ∷ text.now) read.rest.now read.singles)
        (λ stop. HaltsAt (suc room) (40 ∷ text.now) stop.rest.now stop.halt) }
{
    let mut rest = text;
    let mut singles: u8 = 0;
    loop {
        let Some((letter, others)) = rest.split_first() else {
            return stopped(Halt::Unclosed, rest);
        };
        if *letter == b')' {
            return Ok(Reading {
                rest: others,
                singles,
            });
        }
        let member = read_type(rest, room)?;
        let others = after_letters(member.rest);
        singles = if is_alone(text.len(), rest.len(), member.rest.len(), others.len()) {
            member.singles + 1
        } else {
            0
        };
        rest = others;
    }
}

/// Whether nothing is read before a member, and nothing behind it: the bytes left are as many as at first before it, and as
/// many as behind it at last.
fn is_alone(at_first: usize, before: usize, after: usize, at_last: usize) -> bool
    ensures { IsTrue result ↔ (before ≡ at_first) × (at_last ≡ after) }
{
    before == at_first && at_last == after
}

/// What follows the types of one letter that the text begins with, of which a tuple may have very many.
fn after_letters(text: &[u8]) -> &[u8]
    ensures { result.now ≡ after_letters text.entry.now }
{
    let mut rest = text;
    loop {
        match rest.split_first() {
            Some((letter, others)) if is_single(*letter) => rest = others,
            _ => return rest,
        }
    }
}

/// Reads the type at the start of the text, which most often has one letter.
#[inline(always)]
pub(crate) fn read_member(text: &[u8]) -> Result<Reading<'_>, Stop<'_>>
    ensures { MatchResult result
        (λ read. ReadsType 128 text.now read.rest.now read.singles)
        (λ stop. HaltsAt 128 text.now stop.rest.now stop.halt) }
{
    match text.split_first() {
        Some((letter, rest)) if is_single(*letter) => Ok(Reading { rest, singles: 0 }),
        _ => read_type(text, TypeStr::MAX_LEVELS),
    }
}

/// Whether this byte is the text of a type.
#[inline(always)]
fn is_single(letter: u8) -> bool
    ensures { result ≡ is_single_mark (mark letter) }
{
    matches!(
        class_of_letter(letter),
        Some(Class::Basic(_) | Class::Variant)
    )
}

/// Reads the entry whose `{` comes before the text, with a key and a value of at most this many levels.
#[cycle(types)]
fn read_entry(text: &[u8], room: u8) -> Result<Reading<'_>, Stop<'_>>
    ensures { MatchResult result
        (λ read. ReadsType (suc room) (123 ∷ text.now) read.rest.now read.singles)
        (λ stop. HaltsAt (suc room) (123 ∷ text.now) stop.rest.now stop.halt) }
{
    let Some((letter, rest)) = text.split_first() else {
        return stopped(Halt::Unclosed, text);
    };
    let Some(class) = class_of_letter(*letter) else {
        return stopped(Halt::BadChar, text);
    };
    let Class::Basic(_) = class else {
        return stopped(Halt::KeyNotBasic, text);
    };
    if room == 0 {
        return stopped(Halt::TooDeep, text);
    }
    let value = read_type(rest, room)?;
    read_close(value.rest)
}

/// Reads the bracket that closes an entry.
fn read_close(text: &[u8]) -> Result<Reading<'_>, Stop<'_>>
    ensures { MatchResult result
        (λ read. (text.now ≡ 125 ∷ read.rest.now) × (read.singles ≡ 0))
        (λ stop. (stop.rest.now ≡ text.now) × IsNotClosed text.now stop.halt) }
{
    match text.split_first() {
        None => stopped(Halt::Unclosed, text),
        Some((b'}', rest)) => Ok(Reading { rest, singles: 0 }),
        Some(_) => stopped(Halt::BadChar, text),
    }
}
