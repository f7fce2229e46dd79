//! What a line of dconf(1) asks for.
ghost use Rattle.std.specs.Prelude.{◌≡◌, Err, IfErr, IfOk, Ok, codes, map, string_bytes};
ghost use Rattle.dconf_model.specs.Commands.Command.{list, list_locks};
ghost use Rattle.command_words.specs.Commands.{command_of};
ghost use Rattle.dconf_by_name.specs.Words.{blame_means, compile_means, complete_means, dconf_means, dump_means, help_means, list_locks_means, list_means, load_means, meaning_of, means, profile, read_means, reset_means, reset_path, update_means, watch_means, write_means};

use crate::paths::{behind_option, first_path, has_option, is_directory, only_path};
use crate::request::Asked;
use crate::verb::Verb;
use crate::why::{Noun, Why};
use command_words::Command;
use std::alloc::{AllocError, Global};

/// What the words of a line ask for, which come behind the name of the program. The profile of a command is the one of the current folder,
/// until its store is found.
///
/// The only error is a failed allocation.
pub fn asked<'a>(alloc: Global, words: &'a [String]) -> Result<Asked<'a>, AllocError>
    ensures { IfOk result (λ asked. meaning_of asked ≡ dconf_means (map string_bytes words.entry.now)) }
{
    match words {
        [] => Ok(Asked::Wrong(None, Why::NoCommand)),
        [name, more @ ..] => match Verb::named(name.as_str()) {
            Some(verb) => of_verb(alloc, verb, more),
            None => Ok(Asked::Wrong(None, Why::Unknown)),
        },
    }
}

fn of_verb<'a>(alloc: Global, verb: Verb, words: &'a [String]) -> Result<Asked<'a>, AllocError>
    ensures { IfOk result (λ asked. meaning_of asked ≡ means verb (map string_bytes words.entry.now)) }
{
    match verb {
        Verb::Help => Ok(help(words)),
        Verb::Read => read(alloc, words),
        Verb::List => list(alloc, words),
        Verb::ListLocks => list_locks(alloc, words),
        Verb::Write => write(alloc, words),
        Verb::Reset => reset(alloc, words),
        Verb::Compile => Ok(compile(words)),
        Verb::Update => Ok(update(words)),
        Verb::Watch => Ok(watch(words)),
        Verb::Dump => dump(alloc, words),
        Verb::Load => load(alloc, words),
        Verb::Blame => Ok(blame(words)),
        Verb::Complete => Ok(complete(words)),
    }
}

/// `help [COMMAND]`. What follows isn't looked at.
fn help<'a>(words: &'a [String]) -> Asked<'a>
    ensures { meaning_of result ≡ help_means (map string_bytes words.entry.now) }
{
    match words {
        [] => Asked::Help(None),
        [name, ..] => Asked::Help(Verb::named(name.as_str())),
    }
}

/// `read [-d] KEY`.
fn read<'a>(alloc: Global, words: &'a [String]) -> Result<Asked<'a>, AllocError>
    ensures { IfOk result (λ asked. meaning_of asked ≡ read_means (map string_bytes words.entry.now)) }
{
    match only_path(Noun::Key, behind_option("-d", words)) {
        Ok(key) => Ok(Asked::Run(Command::Read {
            default: has_option("-d", words),
            key: String::from_str(alloc, key)?,
            profile: profile(alloc)?,
        })),
        Err(why) => Ok(Asked::Wrong(Some(Verb::Read), why)),
    }
}

/// `list DIR`. What follows isn't looked at.
fn list<'a>(alloc: Global, words: &'a [String]) -> Result<Asked<'a>, AllocError>
    ensures { IfOk result (λ asked. meaning_of asked ≡ list_means (map string_bytes words.entry.now)) }
{
    match first_path(Noun::Dir, words) {
        Ok(directory) => Ok(Asked::Run(list_of(alloc, directory)?)),
        Err(why) => Ok(Asked::Wrong(Some(Verb::List), why)),
    }
}

/// The command that lists a directory.
///
/// The only error is a failed allocation.
pub fn list_of(alloc: Global, directory: &str) -> Result<Command, AllocError>
    ensures { IfOk result (λ command. command_of command ≡ list directory.now profile) }
{
    Ok(Command::List {
        directory: String::from_str(alloc, directory)?,
        profile: profile(alloc)?,
    })
}

/// `list-locks DIR`.
fn list_locks<'a>(alloc: Global, words: &'a [String]) -> Result<Asked<'a>, AllocError>
    ensures { IfOk result (λ asked. meaning_of asked ≡ list_locks_means (map string_bytes words.entry.now)) }
{
    match only_path(Noun::Dir, words) {
        Ok(directory) => Ok(Asked::Run(locks_below(alloc, directory)?)),
        Err(why) => Ok(Asked::Wrong(Some(Verb::ListLocks), why)),
    }
}

/// The command that lists all locks.
///
/// The only error is a failed allocation.
pub fn locks_of(alloc: Global) -> Result<Command, AllocError>
    ensures { IfOk result (λ command. command_of command ≡ list_locks (codes "/") profile) }
{
    locks_below(alloc, "/")
}

fn locks_below(alloc: Global, directory: &str) -> Result<Command, AllocError>
    ensures { IfOk result (λ command. command_of command ≡ list_locks directory.now profile) }
{
    Ok(Command::ListLocks {
        directory: String::from_str(alloc, directory)?,
        profile: profile(alloc)?,
    })
}

/// `write KEY VALUE`.
fn write<'a>(alloc: Global, words: &'a [String]) -> Result<Asked<'a>, AllocError>
    ensures { IfOk result (λ asked. meaning_of asked ≡ write_means (map string_bytes words.entry.now)) }
{
    let key = match first_path(Noun::Key, words) {
        Ok(key) => key,
        Err(why) => return Ok(Asked::Wrong(Some(Verb::Write), why)),
    };
    match words {
        [_, value] => Ok(Asked::Run(Command::Write {
            key: String::from_str(alloc, key)?,
            value: String::from_str(alloc, value.as_str())?,
            profile: profile(alloc)?,
        })),
        [_, _, _, ..] => Ok(Asked::Wrong(Some(Verb::Write), Why::TooMany)),
        _ => Ok(Asked::Wrong(Some(Verb::Write), Why::NoValue)),
    }
}

/// `reset [-f] PATH`.
fn reset<'a>(alloc: Global, words: &'a [String]) -> Result<Asked<'a>, AllocError>
    ensures { IfOk result (λ asked. meaning_of asked ≡ reset_means (map string_bytes words.entry.now)) }
{
    match reset_path(has_option("-f", words), behind_option("-f", words)) {
        Ok(path) => {
            let is_directory = is_directory(path);
            let command = Command::Reset {
                force: is_directory,
                path: String::from_str(alloc, path)?,
                profile: profile(alloc)?,
            };
            if is_directory {
                Ok(Asked::Run(command))
            } else {
                Ok(Asked::Reset { command, key: path })
            }
        }
        Err(why) => Ok(Asked::Wrong(Some(Verb::Reset), why)),
    }
}

/// The path that is reset. A directory's wants `-f`.
fn reset_path<'a>(force: bool, words: &'a [String]) -> Result<&'a str, Why>
    ensures ok { IfOk result (λ path. reset_path force (map string_bytes words.entry.now) ≡ Ok path.now) }
    ensures err { IfErr result (λ why. reset_path force (map string_bytes words.entry.now) ≡ Err why) }
{
    let path = first_path(Noun::Path, words)?;
    if is_directory(path) && !force {
        return Err(Why::NeedsForce);
    }
    match words {
        [_, _, ..] => Err(Why::TooMany),
        _ => Ok(path),
    }
}

/// `compile OUTPUT KEYFILEDIR`.
fn compile<'a>(words: &'a [String]) -> Asked<'a>
    ensures { meaning_of result ≡ compile_means (map string_bytes words.entry.now) }
{
    match words {
        [] => Asked::Wrong(Some(Verb::Compile), Why::NoOutput),
        [_] => Asked::Wrong(Some(Verb::Compile), Why::NoFolder),
        [out, folder] => Asked::Compile {
            out: out.as_str(),
            folder: folder.as_str(),
        },
        _ => Asked::Wrong(Some(Verb::Compile), Why::TooMany),
    }
}

/// `update [DBDIR]`.
fn update<'a>(words: &'a [String]) -> Asked<'a>
    ensures { meaning_of result ≡ update_means (map string_bytes words.entry.now) }
{
    match words {
        [] => Asked::Update(None),
        [folder] => Asked::Update(Some(folder.as_str())),
        _ => Asked::Wrong(Some(Verb::Update), Why::TooMany),
    }
}

/// `watch PATH`.
fn watch<'a>(words: &'a [String]) -> Asked<'a>
    ensures { meaning_of result ≡ watch_means (map string_bytes words.entry.now) }
{
    match only_path(Noun::Path, words) {
        Ok(path) => Asked::Watch(path),
        Err(why) => Asked::Wrong(Some(Verb::Watch), why),
    }
}

/// `dump DIR`.
fn dump<'a>(alloc: Global, words: &'a [String]) -> Result<Asked<'a>, AllocError>
    ensures { IfOk result (λ asked. meaning_of asked ≡ dump_means (map string_bytes words.entry.now)) }
{
    match only_path(Noun::Dir, words) {
        Ok(directory) => Ok(Asked::Dump(Command::Dump {
            skip_doubles: true,
            directory: String::from_str(alloc, directory)?,
            profile: profile(alloc)?,
        })),
        Err(why) => Ok(Asked::Wrong(Some(Verb::Dump), why)),
    }
}

/// `load [-f] DIR`.
fn load<'a>(alloc: Global, words: &'a [String]) -> Result<Asked<'a>, AllocError>
    ensures { IfOk result (λ asked. meaning_of asked ≡ load_means (map string_bytes words.entry.now)) }
{
    match only_path(Noun::Dir, behind_option("-f", words)) {
        Ok(directory) => Ok(Asked::Load {
            command: Command::Load {
                force: has_option("-f", words),
                skip_doubles: true,
                directory: String::from_str(alloc, directory)?,
                profile: profile(alloc)?,
            },
            directory,
        }),
        Err(why) => Ok(Asked::Wrong(Some(Verb::Load), why)),
    }
}

/// `blame`.
fn blame<'a>(words: &'a [String]) -> Asked<'a>
    ensures { meaning_of result ≡ blame_means (map string_bytes words.entry.now) }
{
    match words {
        [] => Asked::Blame,
        _ => Asked::Wrong(Some(Verb::Blame), Why::TooMany),
    }
}

/// `_complete SUFFIX PATH`.
fn complete<'a>(words: &'a [String]) -> Asked<'a>
    ensures { meaning_of result ≡ complete_means (map string_bytes words.entry.now) }
{
    match words {
        [] => Asked::Wrong(Some(Verb::Complete), Why::NoSuffix),
        [_] => Asked::Wrong(Some(Verb::Complete), Why::Missing(Noun::Path)),
        [suffix, path] => Asked::Complete {
            suffix: suffix.as_str(),
            path: path.as_str(),
        },
        _ => Asked::Wrong(Some(Verb::Complete), Why::TooMany),
    }
}

/// The name of a profile in the current folder.
fn profile(alloc: Global) -> Result<String, AllocError>
    ensures { IfOk result (λ name. string_bytes name ≡ profile) }
{
    String::from_str(alloc, "profile")
}
