//! The words of a command line: the command that they ask for, by what clap gives its arguments.
ghost use Rattle.std.specs.Prelude.{◌≡◌, ◌≢◌, [], codes, List, IfOk, Some, map, option_map, string_bytes, unwrap_or, vec_items};
ghost use Rattle.clap.specs.Words.{FailsBy, Text, fault_of, first_value, found_of, matched_of, raw_values};
ghost use Rattle.dconf_args.specs.Asked.{Asks, HasValue, IsNamedBy, IsOf, IsParsedBy, is_set, profile_file};
ghost use Rattle.dconf_args.specs.CommandLine.{command_line};

use crate::command_line::dconfdb;
use crate::place::{Asked, Place};
use clap::ArgMatches;
use command_words::Command;
use std::alloc::{AllocError, Global};

/// What the words ask for, where the first word is the program's name and a word after
/// `--` is a value even if it starts with `-`.
///
/// An error is clap's own: its `Display` is the text for the user, and its `exit_code` the status.
/// It is a fault in the words, a request for help or the version, or `OutOfMemory`.
///
/// It costs a few short lists for clap, and a copy of the words in the answer.
pub fn command(alloc: Global, words: &[String]) -> Result<Asked, clap::Error>
    ensures asked { IfOk result (Asks (map string_bytes words.now)) }
    ensures faults { FailsBy (fault_of command_line (map string_bytes words.now)) result }
{
    let matches = parsed(alloc, words)?;
    Ok(all_asked(alloc, &matches)?)
}

/// What clap gives the arguments.
fn parsed<'a>(alloc: Global, words: &'a [String]) -> Result<ArgMatches<'a>, clap::Error>
    ensures ok { IfOk result (IsParsedBy (map string_bytes words.now)) }
    ensures err { FailsBy (fault_of command_line (map string_bytes words.now)) result }
{
    dconfdb(alloc, words)?.try_get_matches_from(words)
}

/// What was asked for, with its values.
fn all_asked(alloc: Global, matches: &ArgMatches<'_>) -> Result<Asked, AllocError>
    requires { (words : List Text) × IsParsedBy words matches.now }
    ensures { IfOk result (λ asked. (words : List Text) → IsParsedBy words matches.now → Asks words asked) }
{
    let (name, named) = matches.subcommand().unwrap();
    if name == "update" {
        return Ok(Asked::Update {
            folder: value_if_any(alloc, named, "FOLDER")?,
            forces: is_given(named, "force"),
            is_dry: is_given(named, "dry-run"),
        });
    }
    if name == "diff" {
        return Ok(Asked::Diff {
            old: value(alloc, named, "OLD")?,
            new: value(alloc, named, "NEW")?,
            is_json: is_given(named, "json"),
        });
    }
    let place = placed(alloc, named)?;
    Ok(Asked::Run {
        command: asked(alloc, name, named)?,
        place,
        is_json: is_given(named, "json"),
    })
}

/// Where the store of a command is.
fn placed(alloc: Global, named: &ArgMatches<'_>) -> Result<Place, AllocError>
    ensures user { IfOk result (λ place. place.is_users ≡ is_set (first_value (found_of named.now) (codes "user"))) }
    ensures folder { IfOk result (λ place. option_map string_bytes place.folder ≡ first_value (found_of named.now) (codes "store")) }
    ensures profile { IfOk result (λ place. option_map string_bytes place.profile ≡ first_value (found_of named.now) (codes "profile")) }
    ensures own { IfOk result (λ place. place.is_own ≡ is_set (first_value (found_of named.now) (codes "own"))) }
{
    Ok(Place {
        is_users: is_given(named, "user"),
        folder: value_if_any(alloc, named, "store")?,
        profile: value_if_any(alloc, named, "profile")?,
        is_own: is_given(named, "own"),
    })
}

/// The command of this name, with its values.
fn asked(alloc: Global, name: &str, named: &ArgMatches<'_>) -> Result<Command, AllocError>
    requires named { (words : List Text) × IsNamedBy words name.now named.now }
    requires other { name.now ≢ codes "update" }
    requires alone { name.now ≢ codes "diff" }
    ensures { IfOk result (IsOf name.now named.now) }
{
    match name {
        "check" => Ok(Command::Check {
            file: value(alloc, named, "FILE")?,
        }),
        "compile" => compile_asked(alloc, named),
        "read" => read_asked(alloc, named),
        "origin" => {
            let (key, profile) = value_and_profile(alloc, named, "KEY")?;
            Ok(Command::Origin { key, profile })
        }
        "repair" => repair_asked(alloc, named),
        "list" => {
            let (directory, profile) = value_and_profile(alloc, named, "DIR")?;
            Ok(Command::List { directory, profile })
        }
        "list-locks" => {
            let (directory, profile) = value_and_profile(alloc, named, "DIR")?;
            Ok(Command::ListLocks { directory, profile })
        }
        "dump" => dump_asked(alloc, named),
        "write" => write_asked(alloc, named),
        "reset" => reset_asked(alloc, named),
        "load" => load_asked(alloc, named),
        "explain" => {
            let (key, profile) = value_and_profile(alloc, named, "PATH")?;
            Ok(Command::Explain { key, profile })
        }
        _ => show_asked(alloc, named),
    }
}

/// `compile OUT [--locks FILE].. [KEYFILE..]`.
fn compile_asked(alloc: Global, compile: &ArgMatches<'_>) -> Result<Command, AllocError>
    requires { HasValue compile.now (codes "OUT") }
    ensures { IfOk result (IsOf (codes "compile") compile.now) }
{
    Ok(Command::Compile {
        out: value(alloc, compile, "OUT")?,
        locks: values(alloc, compile, "locks")?,
        keyfiles: values(alloc, compile, "KEYFILE")?,
    })
}

/// `read [-d] [-p FILE] KEY`.
fn read_asked(alloc: Global, read: &ArgMatches<'_>) -> Result<Command, AllocError>
    requires { HasValue read.now (codes "KEY") }
    ensures { IfOk result (IsOf (codes "read") read.now) }
{
    let (key, profile) = value_and_profile(alloc, read, "KEY")?;
    Ok(Command::Read {
        default: is_given(read, "default"),
        key,
        profile,
    })
}

/// `repair FILE OUT`.
fn repair_asked(alloc: Global, repair: &ArgMatches<'_>) -> Result<Command, AllocError>
    requires file { HasValue repair.now (codes "FILE") }
    requires out { HasValue repair.now (codes "OUT") }
    ensures { IfOk result (IsOf (codes "repair") repair.now) }
{
    Ok(Command::Repair {
        file: value(alloc, repair, "FILE")?,
        out: value(alloc, repair, "OUT")?,
    })
}

/// `dump [--skip-doubles] [--own] [-p FILE] DIR`.
fn dump_asked(alloc: Global, dump: &ArgMatches<'_>) -> Result<Command, AllocError>
    requires { HasValue dump.now (codes "DIR") }
    ensures { IfOk result (IsOf (codes "dump") dump.now) }
{
    let (directory, profile) = value_and_profile(alloc, dump, "DIR")?;
    Ok(Command::Dump {
        skip_doubles: is_given(dump, "skip-doubles"),
        directory,
        profile,
    })
}

/// `write [-p FILE] KEY VALUE`.
fn write_asked(alloc: Global, write: &ArgMatches<'_>) -> Result<Command, AllocError>
    requires key { HasValue write.now (codes "KEY") }
    requires value { HasValue write.now (codes "VALUE") }
    ensures { IfOk result (IsOf (codes "write") write.now) }
{
    let text = value(alloc, write, "VALUE")?;
    let (key, profile) = value_and_profile(alloc, write, "KEY")?;
    Ok(Command::Write {
        key,
        value: text,
        profile,
    })
}

/// `reset [-f] [-p FILE] PATH`.
fn reset_asked(alloc: Global, reset: &ArgMatches<'_>) -> Result<Command, AllocError>
    requires { HasValue reset.now (codes "PATH") }
    ensures { IfOk result (IsOf (codes "reset") reset.now) }
{
    let (path, profile) = value_and_profile(alloc, reset, "PATH")?;
    Ok(Command::Reset {
        force: is_given(reset, "force"),
        path,
        profile,
    })
}

/// `load [-f] [--skip-doubles] [-p FILE] DIR`.
fn load_asked(alloc: Global, load: &ArgMatches<'_>) -> Result<Command, AllocError>
    requires { HasValue load.now (codes "DIR") }
    ensures { IfOk result (IsOf (codes "load") load.now) }
{
    let (directory, profile) = value_and_profile(alloc, load, "DIR")?;
    Ok(Command::Load {
        force: is_given(load, "force"),
        skip_doubles: is_given(load, "skip-doubles"),
        directory,
        profile,
    })
}

/// `show TYPE FILE`.
fn show_asked(alloc: Global, show: &ArgMatches<'_>) -> Result<Command, AllocError>
    requires type_text { HasValue show.now (codes "TYPE") }
    requires file { HasValue show.now (codes "FILE") }
    ensures { IfOk result (IsOf (codes "show") show.now) }
{
    Ok(Command::Show {
        type_text: value(alloc, show, "TYPE")?,
        file: value(alloc, show, "FILE")?,
    })
}

/// The value of an argument that has one.
fn value(alloc: Global, matches: &ArgMatches<'_>, id: &str) -> Result<String, AllocError>
    requires { HasValue matches.now id.now }
    ensures { IfOk result (λ text.
        first_value (found_of matches.now) id.now ≡ Some (string_bytes text)) }
{
    String::from_str(alloc, matches.get_str(id).unwrap())
}

/// The value of an argument that has one, and the name of the profile's file.
fn value_and_profile(
    alloc: Global,
    matches: &ArgMatches<'_>,
    id: &str,
) -> Result<(String, String), AllocError>
    requires { HasValue matches.now id.now }
    ensures value { IfOk result (λ texts. first_value (found_of matches.now) id.now ≡ Some (string_bytes texts.0)) }
    ensures profile { IfOk result (λ texts. string_bytes texts.1 ≡ profile_file (first_value (found_of matches.now) (codes "profile"))) }
{
    let text = value(alloc, matches, id)?;
    Ok((text, profile_value(alloc, matches)?))
}

/// The value of an argument that may be left out.
fn value_if_any(
    alloc: Global,
    matches: &ArgMatches<'_>,
    id: &str,
) -> Result<Option<String>, AllocError>
    ensures { IfOk result (λ text. option_map string_bytes text ≡ first_value (found_of matches.now) id.now) }
{
    match matches.get_str(id) {
        Some(text) => Ok(Some(String::from_str(alloc, text)?)),
        None => Ok(None),
    }
}

/// Whether a flag is among the words.
fn is_given(matches: &ArgMatches<'_>, id: &str) -> bool
    ensures { result ≡ is_set (first_value (found_of matches.now) id.now) }
{
    match matches.get_str(id) {
        Some(text) => text == "true",
        None => false,
    }
}

/// The name of the profile's file.
fn profile_value(alloc: Global, matches: &ArgMatches<'_>) -> Result<String, AllocError>
    ensures { IfOk result (λ text. string_bytes text ≡ profile_file (first_value (found_of matches.now) (codes "profile"))) }
{
    String::from_str(alloc, matches.get_str("profile").unwrap_or("profile"))
}

/// The values of an argument that may have several, or none.
fn values(alloc: Global, matches: &ArgMatches<'_>, id: &str) -> Result<Vec<String>, AllocError>
    ensures { IfOk result (λ texts. map string_bytes (vec_items texts)
        ≡ unwrap_or (option_map raw_values (matched_of (found_of matches.now) id.now)) []) }
{
    copies(alloc, matches.get_strs(id).unwrap_or(&[]))
}

/// A copy of each text.
fn copies(alloc: Global, texts: &[&str]) -> Result<Vec<String>, AllocError>
    ensures { IfOk result (λ copies. map string_bytes (vec_items copies) ≡ map (λ text. text.now) texts.now) }
{
    let mut copies = Vec::new(alloc);
    for text in texts {
        copies.push(String::from_str(alloc, text)?)?;
    }
    Ok(copies)
}
