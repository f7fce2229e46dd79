//! What is said on err of what `main` itself finds, and the statuses that it gives.
use crate::explain::explain_own;
use dconf_found::{BadDatabase, MACHINE_FILE};
use dconf_streams::{Refusal, refusal_line};
use dconf_surroundings::NotFound;
use dconfdb_calls::{Fate, Fault};
use std::fmt::Display;
use std::io;

/// The status of a command that is refused.
pub(crate) const REFUSED: u8 = 1;

/// The status of wrong arguments, and of running out of memory while they are read.
pub(crate) const USAGE: u8 = 2;

/// What is said of a want of memory.
pub(crate) const NO_MEMORY: &str = "Memory";

/// What is said of a store that is named twice.
const BOTH: &str = "--user and --store exclude each other\n\nFor more information, try '--help'.";

/// Says on err why nothing is done.
pub(crate) fn refuse<D: Display + Drop>(rt: &HostRuntime, why: D) {
    let _ = eprintln!(rt; "error: {why}");
    if let Ok(said) = format!(in rt.alloc(); "{why}") {
        explain_own(rt, said.as_str());
    }
}

/// Says on err the line of a refusal.
pub(crate) fn refuse_for(rt: &HostRuntime, refusal: &Refusal) -> u8 {
    let line = refusal_line(refusal);
    let _ = eprint!(rt; "{line}");
    let line = line.strip_suffix('\n').unwrap_or(line);
    explain_own(rt, line.strip_prefix("error: ").unwrap_or(line));
    REFUSED
}

pub(crate) fn refuse_memory(rt: &HostRuntime) -> u8 {
    refuse(rt, NO_MEMORY);
    REFUSED
}

/// Says on err which name the host fails at.
pub(crate) fn refuse_device(rt: &HostRuntime, name: &str) -> u8 {
    refuse(rt, format_args!("Device {name}"));
    REFUSED
}

/// Says on err why no store was found.
pub(crate) fn refuse_place(rt: &HostRuntime, fault: NotFound) -> u8 {
    match fault {
        NotFound::Both => {
            refuse(rt, BOTH);
            return USAGE;
        }
        NotFound::NoFolder => refuse(rt, "NoFolder"),
        NotFound::Kind {
            is_unreadable: true,
        } => refuse(rt, format_args!("Device {MACHINE_FILE}")),
        NotFound::Kind {
            is_unreadable: false,
        } => refuse(rt, format_args!("{MACHINE_FILE}:1: BadLine")),
        NotFound::Device(folder) => refuse(rt, format_args!("Device {folder}")),
        NotFound::NotText => refuse(rt, "the environment is not UTF-8"),
        NotFound::Memory => refuse(rt, NO_MEMORY),
    }
    REFUSED
}

/// Says on err what was wrong with a database of this path, and what counts of it, as the library for C says it: with the rule that it
/// breaks, if it breaks one, and the item.
pub(crate) fn warn_of_bad(
    rt: &HostRuntime,
    path: &str,
    bad: &BadDatabase,
    is_first: bool,
) -> io::Result<()> {
    let wrong = bad.loss.bad;
    let rule = wrong.unsound.rule;
    let item = wrong.unsound.item;
    let fate = Fate {
        keys: bad.loss.keys,
        locks: bad.loss.locks,
        is_first,
        is_aside: false,
    };
    if wrong.fault != Fault::Unsound {
        return eprintln!(rt; "warning: {path}: {}{fate}", wrong.fault.text());
    }
    if wrong.unsound.has_item {
        return eprintln!(rt;
            "warning: {path}: the database breaks the rule S{rule}, at item {item}{fate}"
        );
    }
    eprintln!(rt; "warning: {path}: the database breaks the rule S{rule}{fate}")
}
