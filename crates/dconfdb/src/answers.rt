//! What is asked of a store besides what `run` answers: what explains each key below a directory, and JSON.
use crate::explain::{Given, explain, status_of};
use crate::messages::{REFUSED, refuse_memory, refuse_place};
use crate::runs::{found_for, warn};
use crate::stores::found_folder;
use dconf_args::{Command, Place};
use dconf_commands::answered_below;
use dconf_disk::{Folder, StdFolder};
use dconf_json::{Question, answered_as_json};
use dconf_streams::{Answer, Refusal, refusal_line};
use dconf_surroundings::Found;

/// Answers `explain` of a directory, or a command as JSON, where the store is, and gives the status. Of a store that was found bad databases
/// count as what can be saved of them.
pub(crate) fn answer(rt: &HostRuntime, asked: Command, place: Place, is_json: bool) -> u8 {
    if !place.is_users && place.folder.is_none() {
        return answer_in(rt, &asked, is_json, &mut StdFolder::read_only(rt), None);
    }
    let (asked, found) = match found_for(rt, asked, place) {
        Ok(found) => found,
        Err(fault) => return refuse_place(rt, fault),
    };
    let Ok(mut folder) = found_folder(rt, StdFolder::read_only(rt), &found) else {
        return refuse_memory(rt);
    };
    let status = answer_in(rt, &asked, is_json, &mut folder, Some(&found));
    match warn(rt, folder.bad(), &found) {
        Ok(()) => status,
        Err(_) => REFUSED,
    }
}

/// The same by a folder. Behind what explains keys of a store that was found, and an empty line, comes which kind it is. A refusal is explained.
pub(crate) fn answer_in<F: Folder>(
    rt: &HostRuntime,
    asked: &Command,
    is_json: bool,
    folder: &mut F,
    found: Option<&Found>,
) -> u8 {
    let mut given = Given::of(rt, asked);
    if let (Some(given), Some(found)) = (&mut given, found) {
        given.names = found.names(rt).ok();
    }
    match text_of(rt, asked, is_json, folder) {
        Ok(text) => {
            let kind = match (asked, found) {
                (Command::Explain { .. }, Some(found)) if !is_json => found.kind.as_str(),
                _ => "",
            };
            let gap = if text.is_empty() || kind.is_empty() {
                ""
            } else {
                "\n"
            };
            status_of(print!(rt; "{text}{gap}{kind}"))
        }
        Err(refusal) => {
            let line = refusal_line(&refusal);
            let _ = eprint!(rt; "{line}");
            if let Some(given) = &given {
                explain(rt, given, line.as_bytes());
            }
            REFUSED
        }
    }
}

/// What is printed, by a folder. `is_json` says that it is JSON.
fn text_of<F: Folder>(
    rt: &HostRuntime,
    asked: &Command,
    is_json: bool,
    folder: &mut F,
) -> Result<String, Refusal> {
    let alloc = rt.alloc();
    let answer = match asked {
        Command::Explain { key, profile } if !is_json => {
            answered_below(alloc, key.as_str(), profile.as_str(), folder)?
        }
        _ => match question_of(asked) {
            Some((question, profile)) => answered_as_json(alloc, question, profile, folder)?,
            None => return Ok(String::new(alloc)),
        },
    };
    match answer {
        Answer::Done(text) => Ok(text),
        Answer::Changed { text, .. } => Ok(text),
    }
}

/// What a command asks whose answer may be JSON, and the profile that it asks it of.
fn question_of(asked: &Command) -> Option<(Question<'_>, &str)> {
    match asked {
        Command::Read {
            default,
            key,
            profile,
        } => {
            let (default, key) = (*default, key.as_str());
            Some((Question::Value { default, key }, profile.as_str()))
        }
        Command::List { directory, profile } => {
            let directory = directory.as_str();
            Some((Question::Names { directory }, profile.as_str()))
        }
        Command::Dump {
            skip_doubles,
            directory,
            profile,
        } => {
            let (skips, directory) = (*skip_doubles, directory.as_str());
            Some((Question::Values { skips, directory }, profile.as_str()))
        }
        Command::Explain { key, profile } => Some((explained(key.as_str()), profile.as_str())),
        _ => None,
    }
}

/// What explains a path: that of a directory ends in a slash.
fn explained(path: &str) -> Question<'_> {
    if path.ends_with('/') {
        Question::ExplainedBelow { directory: path }
    } else {
        Question::Explained { key: path }
    }
}
