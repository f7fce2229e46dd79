//! The program `dconfdb`: the words, the streams and the folder of the store, handed to dconf_cli, when it is this program's turn. Run by the
//! name `dconf`, it has dconf's command line.
#![tactic(auto)]

mod answers;
mod by_name;
mod compare;
mod dry;
mod dumps;
mod explain;
mod marks;
mod messages;
mod named;
mod runs;
mod session;
mod sources;
mod stores;
mod updates;

use answers::answer;
use by_name::dconf;
use compare::compare;
use dconf_args::{Asked, Command, command};
use dconf_by_name::is_run_as_dconf;
use dconf_habits::{as_in_dconf, with_dashes};
use dumps::run_or_dump;
use explain::page;
use messages::{NO_MEMORY, USAGE, refuse};
use session::Session;
use std::env;
use std::io::ErrorKind;
use std::process::ExitCode;
use updates::update;

/// Runs the command that the words ask for, and ends with its status.
///
/// Wrong arguments, also such as are not UTF-8, end with status 2 and a text on err; `--help` and
/// `--version` with status 0 and their text on out, or 1 where that can't be written.
fn main(rt: HostRuntime) -> ExitCode {
    let alloc = rt.alloc();
    let args = match env::args(&rt) {
        Ok(args) => args,
        Err(error) if error.kind() == ErrorKind::OutOfMemory => {
            refuse(&rt, NO_MEMORY);
            return ExitCode::from(USAGE);
        }
        Err(_) => {
            refuse(&rt, "the arguments are not UTF-8");
            return ExitCode::from(USAGE);
        }
    };
    let Ok(mut words) = args.collect::<Vec<String>>(alloc) else {
        refuse(&rt, NO_MEMORY);
        return ExitCode::from(USAGE);
    };
    if is_run_as_dconf(&words) {
        return ExitCode::from(dconf(&rt, words.get(1..).unwrap_or(&[])));
    }
    if with_dashes(alloc, &mut words).is_err() {
        refuse(&rt, NO_MEMORY);
        return ExitCode::from(USAGE);
    }
    if let Some(status) = page(&rt, &words) {
        return ExitCode::from(status);
    }
    match command(alloc, &words) {
        Ok(asked) => ExitCode::from(done(&rt, asked)),
        Err(error) => {
            let printed = error.print(&rt);
            if error.use_stderr() {
                ExitCode::from(USAGE)
            } else if printed.is_ok() {
                ExitCode::SUCCESS
            } else {
                ExitCode::FAILURE
            }
        }
    }
}

/// Does what is asked, and gives the status.
fn done(rt: &HostRuntime, asked: Asked) -> u8 {
    match asked {
        Asked::Run {
            command,
            place,
            is_json,
        } => {
            if matches!(&command, Command::Explain { key, .. } if key.ends_with('/')) {
                return answer(rt, command, place, is_json);
            }
            let mut session = Session::on(rt.alloc(), rt.stdin(), rt.stdout(), rt.stderr());
            run_or_dump(rt, as_in_dconf(command), place, is_json, &mut session)
        }
        Asked::Update {
            folder,
            forces,
            is_dry,
        } => update(rt, folder, forces, is_dry),
        Asked::Diff { old, new, is_json } => compare(rt, old.as_str(), new.as_str(), is_json),
    }
}
