//! The command line of dconf(1), for a program that is run by the name `dconf`: its words mean our commands on the user's own store.
use crate::explain::status_of;
use crate::messages::{REFUSED, USAGE, refuse, refuse_device, refuse_memory};
use crate::runs::{run_at, run_in_turn};
use crate::session::Session;
use crate::sources::{Unread, source_folder};
use crate::updates::{Making, Naming, update_in, update_machines};
use dconf_args::{Command, Place};
use dconf_by_name::{
    Asked, Verb, asked, compile_of_folder, dconfs_sentence, directory_of, doubles, ignored,
    in_dconfs_order, is_ignored, is_wrong_value, list_of, locks_of, offers, refusal, usage,
    warning_of,
};
use dconf_words::Heard;
use std::fs;
use std::io::ErrorKind;

/// What is said of `watch`, which the launcher runs where it is installed.
const NO_WATCH: &str =
    "watch is a program of its own, dconfdb-watch, and it is not installed with this one";

/// What is said of `blame`.
const NO_BLAME: &str =
    "only the service knows it: gdbus call --session --dest ca.desrt.dconf --object-path /ca/desrt/dconf --method ca.desrt.dconf.ServiceInfo.Blame";

/// Where the user's own store is.
const USERS: Place = Place {
    is_users: true,
    folder: None,
    profile: None,
    is_own: false,
};

/// Does what the words ask for, and gives the status: 0 is done, 1 is refused, and 2 says that the words are wrong.
pub(crate) fn dconf(rt: &HostRuntime, words: &[String]) -> u8 {
    let alloc = rt.alloc();
    let Ok(of) = asked(alloc, words) else {
        return refuse_memory(rt);
    };
    match of {
        Asked::Run(command) => run(rt, command),
        Asked::Dump(command) => dump(rt, command),
        Asked::Reset { command, key } => reset(rt, command, key),
        Asked::Load { command, directory } => load(rt, command, directory),
        Asked::Update(None) => update_machines(rt, Making::Each, Making::Due),
        Asked::Update(Some(folder)) => update_in(rt, folder, Naming::InPlace, Making::Each),
        Asked::Compile { out, folder } => compile(rt, out, folder),
        Asked::Complete { suffix, path } => complete(rt, suffix, path),
        Asked::Watch(_) => {
            refuse(rt, NO_WATCH);
            REFUSED
        }
        Asked::Blame => {
            refuse(rt, NO_BLAME);
            REFUSED
        }
        Asked::Help(verb) => match usage(alloc, verb) {
            Ok(text) => status_of(print!(rt; "{text}")),
            Err(_) => refuse_memory(rt),
        },
        Asked::Wrong(verb, why) => {
            let name = words.first().map_or("", |name| name.as_str());
            if let Ok(text) = refusal(alloc, verb, why, name) {
                let _ = eprint!(rt; "{text}");
            }
            USAGE
        }
    }
}

/// Runs a command on the user's own store.
fn run(rt: &HostRuntime, command: Command) -> u8 {
    let alloc = rt.alloc();
    let mut session = Session::on(alloc, rt.stdin(), rt.stdout(), rt.stderr());
    session.leaves_made = true;
    let status = run_at(rt, command, USERS, &mut session);
    say_more(rt, status, session.err.get_ref().text())
}

/// Runs `dump DIR`, and prints its groups in dconf's order.
fn dump(rt: &HostRuntime, command: Command) -> u8 {
    let alloc = rt.alloc();
    let mut session = Session::on(alloc, rt.stdin(), Vec::new(alloc), rt.stderr());
    let status = run_at(rt, command, USERS, &mut session);
    let dumped = str::from_utf8(session.out.get_ref().as_slice()).unwrap_or("");
    // Comments in the first lines name what a dump leaves out.
    if dumped.starts_with('#') {
        let _ = eprintln!(rt;
            "warning: a double has no text: the first lines name the keys that are left out"
        );
    }
    match in_dconfs_order(alloc, dumped) {
        Ok(text) => status | status_of(print!(rt; "{text}")),
        Err(_) => refuse_memory(rt),
    }
}

/// Runs `reset KEY`. A locked key stays as it is, and is named.
fn reset(rt: &HostRuntime, command: Command, key: &str) -> u8 {
    let alloc = rt.alloc();
    let Some(locks) = locks(rt) else {
        return run(rt, command);
    };
    if !matches!(is_ignored(alloc, locks.as_str(), key), Ok(true)) {
        return run(rt, command);
    }
    if let Ok(warning) = warning_of(alloc, key) {
        let _ = eprint!(rt; "{warning}");
    }
    0
}

/// What `list-locks /` prints; nothing where it is refused, of which nothing is said.
fn locks(rt: &HostRuntime) -> Option<String> {
    let alloc = rt.alloc();
    let command = locks_of(alloc).ok()?;
    let mut session = Session::on(alloc, rt.stdin(), Vec::new(alloc), Vec::new(alloc));
    session.warns = false;
    if run_at(rt, command, USERS, &mut session) != 0 {
        return None;
    }
    let listed = str::from_utf8(session.out.get_ref().as_slice()).ok()?;
    String::from_str(alloc, listed).ok()
}

/// Says what dconf says of a refusal whose line is this, and gives the status.
fn say_more(rt: &HostRuntime, status: u8, line: &[u8]) -> u8 {
    let _ = eprint!(rt; "{}", dconfs_sentence(line));
    if !is_wrong_value(line) {
        return status;
    }
    if let Ok(usage) = usage(rt.alloc(), Some(Verb::Write)) {
        let _ = eprint!(rt; "\n{usage}");
    }
    USAGE
}

/// Runs `load [-f] DIR`, and names what it left out.
fn load(rt: &HostRuntime, command: Command, directory: &str) -> u8 {
    let alloc = rt.alloc();
    let is_forced = matches!(&command, Command::Load { force: true, .. });
    let input = Heard::new(alloc, rt.stdin());
    let mut session = Session::on(alloc, input, Vec::new(alloc), rt.stderr());
    let status = run_at(rt, command, USERS, &mut session);
    let left_out = str::from_utf8(session.out.get_ref().as_slice()).unwrap_or("");
    // Without memory nothing is said.
    if let Ok(text) = doubles(alloc, left_out) {
        let _ = eprint!(rt; "{text}");
    }
    if status == 0 && is_forced {
        say_ignored(rt, directory, session.input.get_ref().text());
    }
    say_more(rt, status, session.err.get_ref().text())
}

/// Names the locked keys among those of a keyfile that was loaded. Without memory for it nothing is said.
fn say_ignored(rt: &HostRuntime, directory: &str, keyfile: &[u8]) {
    let alloc = rt.alloc();
    let Some(locks) = locks(rt) else {
        return;
    };
    if let Ok(text) = ignored(alloc, locks.as_str(), directory, keyfile) {
        let _ = eprint!(rt; "{text}");
    }
}

/// `compile OUTPUT KEYFILEDIR`.
fn compile(rt: &HostRuntime, out: &str, folder: &str) -> u8 {
    if let Err(error) = fs::metadata(rt, folder)
        && error.kind() == ErrorKind::NotFound
    {
        refuse(rt, format_args!("NoFile {folder}"));
        return REFUSED;
    }
    let sources = match source_folder(rt, folder, out) {
        Ok(sources) => sources,
        Err(Unread::Folder(folder)) => return refuse_device(rt, folder.as_str()),
        Err(Unread::Memory) => return refuse_memory(rt),
    };
    let alloc = rt.alloc();
    let made = compile_of_folder(alloc, out, folder, &sources.locks, &sources.keyfiles);
    let Ok(command) = made else {
        return refuse_memory(rt);
    };
    let mut session = Session::on(alloc, rt.stdin(), rt.stdout(), rt.stderr());
    run_in_turn(rt, command, &mut session)
}

/// `_complete SUFFIX PATH`: the root, if nothing is typed, and nothing of what doesn't start there.
fn complete(rt: &HostRuntime, suffix: &str, path: &str) -> u8 {
    let alloc = rt.alloc();
    if path.is_empty() {
        return status_of(println!(rt; "/"));
    }
    if !path.starts_with('/') {
        return 0;
    }
    let directory = str::from_utf8(directory_of(path)).unwrap_or("/");
    let Ok(command) = list_of(alloc, directory) else {
        return refuse_memory(rt);
    };
    let mut session = Session::on(alloc, rt.stdin(), Vec::new(alloc), rt.stderr());
    let status = run_at(rt, command, USERS, &mut session);
    let listed = str::from_utf8(session.out.get_ref().as_slice()).unwrap_or("");
    match offers(alloc, suffix, path, directory, listed) {
        Ok(offered) => status | status_of(print!(rt; "{offered}")),
        Err(_) => refuse_memory(rt),
    }
}
