//! Lock files and profiles, and faults that no command prints.
use super::paths::PATHS;
use crate::questions::TableOf;
use dconf_path::{
    Database, DatabaseKind, KeyPath, Lock, LocksFault, PathFault, ProfileFault, ProfileFlaw,
    TextFault, read_locks, read_profile, settings_text,
};
use gvdb_write::{SalvageFault, TooBig, WriteFault};
use std::alloc::{AllocError, Global};
use std::fmt::Write;
use std::test::Fail;
use test_rows::table;

/// Whether these are the locks of a text of three lines.
fn are_its_locks(locks: &[Lock<'_>]) -> bool {
    match locks {
        [key, directory] => {
            key.line == 1
                && key.path.as_str() == "/a/k"
                && directory.line == 3
                && directory.path.as_str() == "/a/"
        }
        _ => false,
    }
}

/// Whether these are the databases of a profile.
fn are_its_databases(databases: &[Database<'_>]) -> bool {
    match databases {
        [user, site, file] => {
            matches!(user.kind, DatabaseKind::User)
                && user.name == "me"
                && matches!(site.kind, DatabaseKind::System)
                && site.name == "site"
                && matches!(file.kind, DatabaseKind::File)
                && file.name == "/a/b"
        }
        _ => false,
    }
}

/// Whether the texts of a lock file and of a profile are read.
fn are_read(alloc: Global) -> bool {
    let locks = match read_locks(alloc, "/a/k\n# c\n/a/\n") {
        Ok(locks) => are_its_locks(&locks),
        Err(_) => false,
    };
    let databases = match read_profile(alloc, "user-db:me\nsystem-db:site\nfile-db:/a/b#c\n") {
        Ok(profile) => are_its_databases(profile.databases()),
        Err(_) => false,
    };
    locks && databases && settings_text("é".as_bytes()) == Ok("é")
}

/// Whether a profile and a text are refused by their second lines.
fn are_refused(alloc: Global) -> bool {
    let profile = match read_profile(alloc, "system-db:a\nuser-db:b") {
        Err(ProfileFault::Fault(flaw)) => flaw == ProfileFlaw::UserNotFirst(2) && flaw.line() == 2,
        _ => false,
    };
    let text = match settings_text(b"[a]\nk='\xc3'\n") {
        Ok(_) => false,
        Err(fault) => fault == TextFault::NotUtf8(2) && fault.line() == 2,
    };
    profile && text
}

/// The names of faults that no command prints.
fn show_faults(names: &mut String) -> Result<(), AllocError> {
    write!(names, "{} {} ", PathFault::HasNul, LocksFault::Memory)?;
    write!(names, "{} {} ", ProfileFault::Memory, SalvageFault::Memory)?;
    write!(names, "{} {}", TooBig, WriteFault::Memory)
}

#[test]
fn paths_texts_locks_and_profiles_are_read(rt: HostRuntime) -> Result<(), Fail> {
    let alloc = rt.alloc();
    table(alloc, &mut TableOf::Path, PATHS)?;
    let is_none = KeyPath::of_bytes(b"/org/gnome/desktop/\xff").is_none();
    assert!(rt; is_none && are_read(alloc) && are_refused(alloc));
    let mut names = String::new(alloc);
    show_faults(&mut names)?;
    assert!(rt;
        names.as_str() == "HasNul Memory Memory Memory TooBig Memory",
        "{names}"
    );
    Ok(())
}
