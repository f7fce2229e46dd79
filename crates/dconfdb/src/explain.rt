//! What is said below the line of a refusal to a person who reads it: dconf_words' text, of what can be seen here.
use crate::sources::is_folder;
use command_words::Command;
use dconf_disk::{Folder, StdFolder, folder_of};
use dconf_found::Renames;
use dconf_path::read_profile;
use dconf_places::file_name;
use dconf_words::{About, Facts, Hint, Said, WORDS, Word};
use std::alloc::{AllocError, Global};
use std::env::{self, Env};
use std::fs::{self, OpenOptions};
use std::io::{self, IsTerminal};

/// Says whether refusals are explained: `1` always, `0` never, and unset where they are read on a terminal.
const VARIABLE: &str = "DCONFDB_EXPLAIN";

/// More of a file is not read for it.
const MOST_BYTES: usize = 16_777_216;

const MARK: &[u8] = b"\xef\xbb\xbf";

/// The page of the word that the command line asks for, or a line for each word; None where it asks for something else.
pub(crate) fn page(rt: &HostRuntime, words: &[String]) -> Option<u8> {
    if words.len() != 3 || words[1].as_str() != "help" {
        return None;
    }
    if words[2].as_str() == "words" {
        for word in WORDS {
            if println!(rt; "{}: {}", word.name(), word.meaning()).is_err() {
                return Some(1);
            }
        }
        return Some(0);
    }
    let word = Word::of(words[2].as_str())?;
    match word.page(rt.alloc()) {
        Ok(page) => Some(status_of(print!(rt; "{page}"))),
        Err(_) => Some(1),
    }
}

pub(crate) fn status_of(printed: io::Result<()>) -> u8 {
    match printed {
        Ok(()) => 0,
        Err(_) => 1,
    }
}

/// The words of a command that may be at fault. What it hasn't is empty.
#[derive(Drop)]
pub(crate) struct Given {
    path: String,
    value: String,
    file: String,
    profile: String,
    /// The names that files have in the folder, of a store that was found.
    pub(crate) names: Option<Renames>,
}

impl Given {
    /// Those of a command, if its refusal is explained.
    pub(crate) fn of(rt: &HostRuntime, command: &Command) -> Option<Given> {
        if !is_wanted(rt) {
            return None;
        }
        Given::copied(rt.alloc(), command).ok()
    }

    fn copied(alloc: Global, command: &Command) -> Result<Given, AllocError> {
        let (path, value, file, profile) = match command {
            Command::Show { type_text, file } => ("", type_text.as_str(), file.as_str(), ""),
            Command::Read { key, profile, .. } => (key.as_str(), "", "", profile.as_str()),
            Command::Origin { key, profile } => (key.as_str(), "", "", profile.as_str()),
            Command::Explain { key, profile } => (key.as_str(), "", "", profile.as_str()),
            Command::List { directory, profile } => (directory.as_str(), "", "", profile.as_str()),
            Command::ListLocks { directory, profile } => {
                (directory.as_str(), "", "", profile.as_str())
            }
            Command::Dump {
                directory,
                profile,
                ..
            } => (directory.as_str(), "", "", profile.as_str()),
            Command::Check { file } => ("", "", file.as_str(), ""),
            Command::Compile { .. } => ("", "", "", ""),
            Command::Repair { file, .. } => ("", "", file.as_str(), ""),
            Command::Write {
                key,
                value,
                profile,
            } => (key.as_str(), value.as_str(), "", profile.as_str()),
            Command::Reset { path, profile, .. } => (path.as_str(), "", "", profile.as_str()),
            Command::Load {
                directory,
                profile,
                ..
            } => (directory.as_str(), "", "", profile.as_str()),
        };
        Ok(Given {
            path: String::from_str(alloc, path)?,
            value: String::from_str(alloc, value)?,
            file: String::from_str(alloc, file)?,
            profile: String::from_str(alloc, profile)?,
            names: None,
        })
    }

    /// The name in the folder of a file that a line names.
    fn held<'a>(&'a self, name: &'a str) -> &'a str {
        match &self.names {
            Some(names) => names.held(name),
            None => name,
        }
    }
}

/// Explains what was written to err of a command.
pub(crate) fn explain(rt: &HostRuntime, given: &Given, heard: &[u8]) {
    let Ok(line) = str::from_utf8(heard) else {
        return;
    };
    let line = line.strip_suffix('\n').unwrap_or(line);
    say(rt, given, line.strip_prefix("error: ").unwrap_or(line));
}

/// Explains what `main` itself refused for.
pub(crate) fn explain_own(rt: &HostRuntime, said: &str) {
    if !is_wanted(rt) {
        return;
    }
    let alloc = rt.alloc();
    let none = Given {
        path: String::new(alloc),
        value: String::new(alloc),
        file: String::new(alloc),
        profile: String::new(alloc),
        names: None,
    };
    say(rt, &none, said);
}

fn is_wanted(rt: &HostRuntime) -> bool {
    let mut room = [0; 2];
    match rt.var(VARIABLE, &mut room) {
        Ok(1) => room[0] == b'1',
        Ok(0) => rt.stderr().is_terminal(),
        Ok(_) => false,
        Err(env::FillError::NotPresent) => rt.stderr().is_terminal(),
        Err(env::FillError::TooLong) => false,
    }
}

fn say(rt: &HostRuntime, given: &Given, said: &str) {
    if let Some(said) = Said::read(said) {
        // Without memory the line says enough.
        if let Ok(text) = explained(rt, given, &said) {
            let _ = eprint!(rt; "{text}");
        }
    }
}

/// What can be seen of a refusal.
fn explained(rt: &HostRuntime, given: &Given, said: &Said<'_>) -> Result<String, AllocError> {
    let file = file_at_fault(rt, given, said)?;
    let path = file.as_str();
    let line = line_at_fault(rt, said, path)?;
    let reason = match said.word {
        Word::Device => reason_of(rt, path)?,
        _ => String::new(rt.alloc()),
    };
    let facts = Facts {
        why: said.why(),
        file: path,
        line: line.as_str(),
        argument: argument(given, said),
        reason: reason.as_str(),
        hint: hint(rt, given, said, path, line.as_str()),
    };
    said.word.explanation(rt.alloc(), &facts)
}

/// The word of the command line that is at fault.
fn argument<'a>(given: &'a Given, said: &Said<'a>) -> &'a str {
    if !said.place.is_empty() {
        return "";
    }
    match said.word.about() {
        About::Path => given.path.as_str(),
        About::Type => given.value.as_str(),
        About::File => "",
        _ if said.rest.starts_with('/') => said.rest,
        About::Value => given.value.as_str(),
        _ => "",
    }
}

/// The whole path of the file at fault, and its line.
fn file_at_fault(rt: &HostRuntime, given: &Given, said: &Said<'_>) -> Result<String, AllocError> {
    let alloc = rt.alloc();
    match said.word.about() {
        About::Rule => whole(rt, given.file.as_str()),
        About::Database => match said.word {
            Word::BadDatabase => database_at_fault(rt, given, said),
            _ => whole(rt, given.file.as_str()),
        },
        About::File => match said.word {
            Word::TooBig => whole(rt, given.held(placed(said))),
            _ => whole(rt, given.held(said.rest)),
        },
        About::Change => match said.word {
            Word::NotWritable => whole(rt, given.profile.as_str()),
            _ => Ok(String::new(alloc)),
        },
        _ if said.place.is_empty() && given.value.is_empty() => whole(rt, given.file.as_str()),
        _ => whole(rt, placed(said)),
    }
}

/// FILE:LINE of a line at fault. That of the input is none.
fn placed<'a>(said: &Said<'a>) -> &'a str {
    let place = said.place.strip_suffix(':').unwrap_or("");
    if place.starts_with("input:") {
        return "";
    }
    place
}

/// The file of a database, by the number that is said of it.
fn database_at_fault(
    rt: &HostRuntime,
    given: &Given,
    said: &Said<'_>,
) -> Result<String, AllocError> {
    let alloc = rt.alloc();
    let Some((number, _)) = said.rest.split_once(':') else {
        return Ok(String::new(alloc));
    };
    let Ok(number) = number.parse::<usize>() else {
        return Ok(String::new(alloc));
    };
    let bytes = bytes_of(rt, given.profile.as_str());
    let Ok(text) = str::from_utf8(&bytes) else {
        return Ok(String::new(alloc));
    };
    let Ok(profile) = read_profile(alloc, text) else {
        return Ok(String::new(alloc));
    };
    match profile.databases().get(number) {
        Some(database) => whole(rt, file_name(alloc, *database)?.as_str()),
        None => Ok(String::new(alloc)),
    }
}

/// The whole path of a name; of none there is none.
fn whole(rt: &HostRuntime, name: &str) -> Result<String, AllocError> {
    if name.is_empty() || name.starts_with('/') {
        return String::from_str(rt.alloc(), name);
    }
    match env::current_dir(rt) {
        Ok(here) if here.as_str() == "/" => format!(in rt.alloc(); "/{name}"),
        Ok(here) => format!(in rt.alloc(); "{}/{name}", here.as_str()),
        Err(_) => String::from_str(rt.alloc(), name),
    }
}

/// What the line at fault says, where the file can be read again.
fn line_at_fault(rt: &HostRuntime, said: &Said<'_>, place: &str) -> Result<String, AllocError> {
    let none = String::new(rt.alloc());
    let number = match said.word {
        Word::NotWritable => "1",
        _ if said.place.is_empty() => return Ok(none),
        _ => match place.rsplit_once(':') {
            Some((_, number)) => number,
            None => return Ok(none),
        },
    };
    let Ok(number) = number.parse::<usize>() else {
        return Ok(none);
    };
    let file = match said.word {
        Word::NotWritable => place,
        _ => place.rsplit_once(':').map_or("", |(file, _)| file),
    };
    let bytes = bytes_of(rt, file);
    let Ok(text) = str::from_utf8(&bytes) else {
        return Ok(none);
    };
    match text.split('\n').nth(number.saturating_sub(1)) {
        Some(line) if number > 0 => String::from_str(rt.alloc(), line),
        _ => Ok(none),
    }
}

/// The bytes of a file that is read again; none where that can't be done.
fn bytes_of(rt: &HostRuntime, name: &str) -> Vec<u8> {
    let none = Vec::new(rt.alloc());
    match fs::metadata(rt, name) {
        Ok(found) if found.is_file() && found.len() <= MOST_BYTES as u64 => {}
        _ => return none,
    }
    match StdFolder::read_only(rt).read(rt.alloc(), name) {
        Ok(Some(bytes)) => bytes,
        _ => none,
    }
}

/// Why the system refuses a file, if it is asked again: to open it, and then to open what programs take turns by.
fn reason_of(rt: &HostRuntime, path: &str) -> Result<String, AllocError> {
    if path.is_empty() {
        return Ok(String::new(rt.alloc()));
    }
    match fs::open(rt, path) {
        Err(error) if error.kind() != io::ErrorKind::NotFound => {
            return format!(in rt.alloc(); "{error}");
        }
        _ => {}
    }
    let lock = format!(in rt.alloc(); "{}/.lock", folder_of(path))?;
    let mut options = OpenOptions::new();
    options.read(true).write(true);
    match options.open(rt, lock.as_str()) {
        Err(error) if error.kind() != io::ErrorKind::NotFound => format!(in rt.alloc(); "{error}"),
        _ => Ok(String::new(rt.alloc())),
    }
}

/// What more can be seen of how to go on.
fn hint(rt: &HostRuntime, given: &Given, said: &Said<'_>, path: &str, line: &str) -> Hint {
    match said.word {
        Word::NoFile if said.rest == "profile" && given.profile.as_str() == "profile" => {
            Hint::NoStore
        }
        Word::Device if is_folder(rt, path) => Hint::Folder,
        Word::BadToken | Word::Unexpected if line.contains(" #") => Hint::Comment,
        _ if line.as_bytes().starts_with(MARK) => Hint::Mark,
        _ => Hint::Nothing,
    }
}
