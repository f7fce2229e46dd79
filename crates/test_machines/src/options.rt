//! Which program a command line is for; and the words of `watch` and of `lint`.
use dconf_options::{
    Line, OptionsRead, asks_home, forgets, lint_status, option_after, options_end, placing_number,
    placing_of, program_number, program_of, said_number,
};
use std::test::Fail;

const WATCH: OptionsRead = OptionsRead {
    wants: 0,
    is_lint: false,
    is_over: false,
    has_folder: false,
    is_user: false,
    has_name: false,
};

const LINT: OptionsRead = OptionsRead {
    is_lint: true,
    ..WATCH
};

/// What is said of the last of these words, or at their end if none before was refused.
fn said(program: OptionsRead, words: &[&str]) -> u32 {
    let mut read = program;
    let mut last = 0;
    for word in words {
        let taken = option_after(&read, word.as_bytes());
        read = taken.read;
        last = said_number(taken.said);
    }
    if last > 3 {
        last
    } else {
        said_number(options_end(&read))
    }
}

/// Where the text begins that the word gives.
fn begins(program: OptionsRead, word: &str) -> usize {
    option_after(&program, word.as_bytes()).from
}

fn watch_takes_its_words() -> bool {
    said(WATCH, &["/"]) == 0
        && said(WATCH, &["--store", "--user", "/"]) == 0
        && said(WATCH, &["--store=x", "--", "--user"]) == 0
        && said(WATCH, &["--user", "/"]) == 0
        && said(WATCH, &["-"]) == 0
        && said(WATCH, &["/", "-h"]) == 4
        && begins(WATCH, "--store=x") == 8
}

fn watch_refuses_the_others() -> bool {
    said(WATCH, &[]) == 10
        && said(WATCH, &["/", "/"]) == 8
        && said(WATCH, &["--store"]) == 9
        && said(WATCH, &["--store", "x", "--store=y"]) == 6
        && said(WATCH, &["--user", "--user"]) == 6
        && said(WATCH, &["--user", "--store"]) == 7
        && said(WATCH, &["--schema"]) == 5
        && said(WATCH, &["--sto"]) == 5
}

fn lint_takes_its_words() -> bool {
    said(LINT, &["k", "l"]) == 0
        && said(LINT, &[]) == 12
        && said(LINT, &["--"]) == 12
        && lint_status(0, true) == 0
        && lint_status(1, true) == 1
        && lint_status(0, false) == 1
        && said(LINT, &["--schemas"]) == 9
        && said(LINT, &["--json"]) == 11
        && said(LINT, &["--json=x"]) == 5
        && said(WATCH, &["--json"]) == 5
        && said(
            LINT,
            &["--schema", "a", "--schema=b", "--schemas", "c", "k"],
        ) == 0
        && said(LINT, &["--schemas=c", "--schemas=d"]) == 6
        && said(LINT, &["--user"]) == 5
        && begins(LINT, "--schemas=x") == 10
        && begins(LINT, "--schema=x") == 9
}

const LINE: Line = Line {
    count: 3,
    is_path: true,
    has_blame: true,
    is_noted: false,
    counts: true,
    is_at_home: false,
};

fn program(name: &str, first: &str, second: &str, line: Line) -> u32 {
    program_number(program_of(name.as_bytes(), first.as_bytes(), second.as_bytes(), &line))
}

fn is_forgetting(name: &str, first: &str, line: Line) -> bool {
    forgets(
        program_of(name.as_bytes(), first.as_bytes(), b"/", &line),
        &line,
    )
}

fn is_told_of_home(name: &str, first: &str, line: Line) -> bool {
    asks_home(
        program_of(name.as_bytes(), first.as_bytes(), b"/", &line),
        &line,
    )
}

fn homes_are_asked_for() -> bool {
    let at_home = Line {
        is_at_home: true,
        ..LINE
    };
    is_told_of_home("dconfdb", "read", at_home)
        && is_told_of_home(
            "dconf",
            "write",
            Line {
                is_noted: true,
                ..at_home
            },
        )
        && !is_told_of_home("dconfdb", "read", LINE)
        && !is_told_of_home("dconfdb", "watch", at_home)
        && is_told_of_home(
            "dconfdb",
            "read",
            Line {
                counts: false,
                ..LINE
            },
        )
}

/// By a program that has more rights the environment isn't asked.
fn more_rights_have_no_environment() -> bool {
    let more = Line {
        is_noted: true,
        counts: false,
        ..LINE
    };
    program("dconf", "write", "/a", more) == 0
        && is_forgetting("dconf", "write", more)
        && is_forgetting("dconfdb", "read", more)
        && !is_forgetting("dconfdb", "watch", more)
        && !is_forgetting("dconf", "watch", more)
        && !is_forgetting("dconfdb", "read", LINE)
        && !is_forgetting(
            "dconf",
            "write",
            Line {
                is_noted: true,
                ..LINE
            },
        )
}

fn our_name_runs_its_programs() -> bool {
    let two = Line { count: 2, ..LINE };
    program("/bin/dconfdb", "watch", "/", LINE) == 1
        && program("dconfdb", "lint", "", two) == 2
        && program("dconfdb", "help", "watch", LINE) == 3
        && program("dconfdb", "help", "lint", LINE) == 4
        && program("dconfdb", "help", "read", LINE) == 0
        && program("dconfdb", "help", "", two) == 0
        && program("dconfdb", "blame", "", two) == 0
        && program("dconfdb", "", "", Line { count: 1, ..LINE }) == 0
        && program("mydconf", "blame", "", two) == 0
}

fn dconfs_name_runs_its_programs() -> bool {
    let two = Line { count: 2, ..LINE };
    let odd = Line {
        is_path: false,
        ..LINE
    };
    let bare = Line {
        has_blame: false,
        ..two
    };
    let noted = Line {
        is_noted: true,
        ..LINE
    };
    program("/usr/bin/dconf", "watch", "/", LINE) == 5
        && program("dconf", "watch", "no path", odd) == 0
        && program("dconf", "watch", "", two) == 0
        && program("dconf", "blame", "", two) == 6
        && program("dconf", "blame", "", bare) == 0
        && program("dconf", "help", "watch", LINE) == 0
        && program("dconf", "write", "/a", noted) == 7
        && program("dconf", "reset", "/a", noted) == 7
        && program("dconf", "load", "/", noted) == 7
        && program("dconf", "read", "/a", noted) == 0
        && program("dconf", "write", "/a", LINE) == 0
        && program("dconfdb", "write", "/a", noted) == 0
}

#[test]
fn programs_are_found(rt: HostRuntime) -> Result<(), Fail> {
    assert!(rt; our_name_runs_its_programs() && dconfs_name_runs_its_programs());
    assert!(rt; more_rights_have_no_environment() && homes_are_asked_for());
    Ok(())
}

/// An argument of `--schema`.
fn placed(has_path: bool, is_directory: bool, has_schema: bool, is_fixed: bool) -> u32 {
    placing_number(placing_of(has_path, is_directory, has_schema, is_fixed))
}

fn schemas_are_placed() -> bool {
    placed(true, true, true, false) == 0
        && placed(false, false, false, false) == 1
        && placed(true, false, true, true) == 2
        && placed(true, true, false, false) == 3
        && placed(true, true, true, true) == 4
}

#[test]
fn words_are_read(rt: HostRuntime) -> Result<(), Fail> {
    assert!(rt; watch_takes_its_words() && watch_refuses_the_others());
    assert!(rt; lint_takes_its_words() && schemas_are_placed());
    Ok(())
}
