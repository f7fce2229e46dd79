//! The databases that a profile names, where bad lines are passed over.
ghost use Rattle.std.specs.Prelude.{◌≡◌, ◌≤◌, ◌<◌, ◌∷◌, ◌+◌, IfErr, IfOk, IfSome, OnOk, length, map, option_map};
ghost use Rattle.std.specs.List.{slice_split};
ghost use Rattle.keyfile_core.specs.Feeds.{is_feed, lines_in};
ghost use Rattle.dconfdb_calls.specs.GoodLines.{IsLineFault, first_fault, good_names, line_fault, line_says, or_later, own_line, place_said, reading_of, with_named};
ghost use Rattle.dconfdb_calls.specs.Named.{told};
ghost use Rattle.dconfdb_calls.specs.Numbers.{number_of};
ghost use Rattle.dconfdb_calls.specs.declared.fault.Fault.TheVariants.{Memory};

use crate::fault::Fault;
use crate::profiles::{BadProfile, DconfdbName, fault_of, named};
use dconf_path::{MAX_DATABASES, ProfileFault};
use memchr::memchr;
use std::alloc::Global;

/// The databases that the good lines of a profile name, and the first bad line, if there is one.
#[derive(Drop)]
pub struct GoodLines<'a> {
    pub names: Vec<DconfdbName<'a>>,
    pub fault: Option<BadProfile>,
}

/// The databases that a profile's lines name, at most 64, where a bad line is passed over: one that
/// is not UTF-8, or that [`crate::profile_databases`] refuses after the databases so far.
///
/// The only error is `Memory`, if an allocation fails. It reads each line once.
pub fn good_lines<'a>(alloc: Global, text: &'a [u8]) -> Result<GoodLines<'a>, Fault>
    ensures names { IfOk result (λ it. map told it.names.items ≡ good_names text.entry.now) }
    ensures fault { IfOk result (λ it. option_map line_fault it.fault ≡ first_fault text.entry.now) }
    ensures memory { IfErr result (λ e. e ≡ Memory) }
{
    let mut lines = GoodLines {
        names: Vec::new(alloc),
        fault: None,
    };
    let mut number = 0;
    let mut rest = Some(text);
    while let Some(text) = rest {
        let (line, after) = split_line(text);
        number += 1;
        lines.add(alloc, line, number)?;
        rest = after;
    }
    Ok(lines)
}

/// The first line of a text without its line feed, and what follows that, if there was one.
fn split_line(text: &[u8]) -> (&[u8], Option<&[u8]>)
    ensures parts { slice_split is_feed text.now ≡ result.0.now ∷ lines_in (option_map (λ rest. rest.now) result.1) }
    ensures shorter { IfSome result.1 (λ rest. length rest.now < length text.now) }
{
    match memchr(b'\n', text) {
        Some(end) => (&text[..end], Some(&text[end + 1..])),
        None => (text, None),
    }
}

impl<'a> GoodLines<'a> {
    /// Adds what a line of that number says.
    fn add(&mut self, alloc: Global, line: &'a [u8], number: usize) -> Result<(), Fault>
        ensures names { OnOk result (map told self.new.names.items ≡ with_named (map told self.old.names.items) (line_says (length self.old.names.items) line.entry.now)) }
        ensures fault { OnOk result (option_map line_fault self.new.fault ≡ or_later (option_map line_fault self.old.fault) number (line_says (length self.old.names.items) line.entry.now)) }
        ensures memory { IfErr result (λ e. e ≡ Memory) }
    {
        match line_name(alloc, line, self.names.len()) {
            Ok(Some(name)) => match self.names.push(name) {
                Ok(()) => Ok(()),
                Err(_) => Err(Fault::Memory),
            },
            Ok(None) => Ok(()),
            Err(Fault::Memory) => Err(Fault::Memory),
            Err(fault) => {
                if self.fault.is_none() {
                    self.fault = Some(BadProfile {
                        fault,
                        line: number,
                    });
                }
                Ok(())
            }
        }
    }
}

/// The database that a line names after so many others, if the line says anything.
fn line_name<'a>(
    alloc: Global,
    line: &'a [u8],
    before: usize,
) -> Result<Option<DconfdbName<'a>>, Fault>
    ensures found { IfOk result (λ name. line_says before line.entry.now ≡ reading_of (option_map told name)) }
    ensures fault { IfErr result (IsLineFault (line_says before line.entry.now)) }
{
    let Ok(text) = str::from_utf8(line) else {
        return Err(Fault::NotText);
    };
    match own_name(alloc, text)? {
        Some(name) => placed(name, before),
        None => Ok(None),
    }
}

/// The database that a line names by itself, if it says anything.
fn own_name<'a>(alloc: Global, line: &'a str) -> Result<Option<DconfdbName<'a>>, Fault>
    ensures found { IfOk result (λ name. own_line line.entry.now ≡ reading_of (option_map told name)) }
    ensures fault { IfErr result (IsLineFault (own_line line.entry.now)) }
{
    match named(alloc, line) {
        Ok(names) => Ok(names.first().copied()),
        Err(ProfileFault::Fault(flaw)) => Err(fault_of(flaw)),
        Err(ProfileFault::Memory) => Err(Fault::Memory),
    }
}

/// A database after so many others, if it may stand there.
fn placed(name: DconfdbName<'_>, before: usize) -> Result<Option<DconfdbName<'_>>, Fault>
    ensures found { IfOk result (λ it. place_said before (told name.entry) ≡ reading_of (option_map told it)) }
    ensures fault { IfErr result (IsLineFault (place_said before (told name.entry))) }
{
    if name.kind == 0 && before > 0 {
        return Err(Fault::UserNotFirst);
    }
    if before >= MAX_DATABASES {
        return Err(Fault::TooMany);
    }
    Ok(Some(name))
}
