//! What the command of a line replaces, where its store is, the user's file of a profile, and what an update makes.
use crate::questions::RowsOf;
use crate::script::words_of;
use dconf_args::{Asked, SourceFolder, command, updates, user_file};
use std::alloc::{AllocError, Global};
use std::fmt::Write;
use std::test::Fail;
use test_rows::{is_so, table};

/// What the command of a line replaces.
pub(crate) fn replaced(alloc: Global, line: &str, found: &mut String) -> Result<(), Fail> {
    let text = replaced_text(alloc, line)?;
    Ok(found.push_str(text.as_str())?)
}

fn replaced_text(alloc: Global, line: &str) -> Result<String, Fail> {
    match command(alloc, &words_of(alloc, line)?) {
        Ok(Asked::Run { command, .. }) => {
            let replaced = command.replaced();
            Ok(format!(in alloc; "{replaced:?}")?)
        }
        Ok(
            Asked::Update {
                folder,
                forces,
                is_dry,
            },
        ) => Ok(format!(in alloc; "{folder:?} {forces} {is_dry}")?),
        Ok(Asked::Diff { old, new, is_json }) => {
            Ok(format!(in alloc; "{old:?} {new:?} {is_json}")?)
        }
        Err(_) => Err(Fail::new("the words are refused")),
    }
}

/// Where the store of a line's command is, and what it replaces by another profile.
pub(crate) fn placed(alloc: Global, line: &str, found: &mut String) -> Result<(), Fail> {
    match command(alloc, &words_of(alloc, line)?) {
        Ok(Asked::Run { command, place, .. }) => {
            let other = command.with_profile(String::from_str(alloc, "other")?);
            Ok(write!(found, "{place:?} {:?}", other.replaced())?)
        }
        _ => Err(Fail::new("the words are refused")),
    }
}

const REPLACED: &str = r#"
show au two | None
check site.db | None
read -p x /k | None
origin /k | None
explain /k | None
list / | None
list-locks / | None
dump / | None
dump --skip-doubles / | None
compile a/site.db k | Some(File("a/site.db"))
repair bad.db fixed.db | Some(File("fixed.db"))
write /k 5 | Some(UserOf("profile"))
write -p x /k 5 | Some(UserOf("x"))
reset /k | Some(UserOf("profile"))
reset -f -p x / | Some(UserOf("x"))
load -p x / | Some(UserOf("x"))
load -f / | Some(UserOf("profile"))
load --skip-doubles / | Some(UserOf("profile"))
update | None false false
update a | Some("a") false false
update --force a | Some("a") true false
update a --dry-run | Some("a") false true
update --dry-run --force | None true true
diff a b | "a" "b" false
diff -- --x y | "--x" "y" false
diff --json a b | "a" "b" true
"#;

const PLACES: &str = r#"
write /k 5 | Place { is_users: false, folder: None, profile: None, is_own: false } Some(UserOf("other"))
write -p x --user /k 5 | Place { is_users: true, folder: None, profile: Some("x"), is_own: false } Some(UserOf("other"))
reset --store a --user /k | Place { is_users: true, folder: Some("a"), profile: None, is_own: false } Some(UserOf("other"))
list --store=a / | Place { is_users: false, folder: Some("a"), profile: None, is_own: false } None
check -- --user | Place { is_users: false, folder: None, profile: None, is_own: false } None
dump --own --user / | Place { is_users: true, folder: None, profile: None, is_own: true } None
"#;

#[test]
fn names_what_a_command_replaces_and_where(rt: HostRuntime) -> Result<(), Fail> {
    table(rt.alloc(), &mut RowsOf::Replaced, REPLACED)?;
    table(rt.alloc(), &mut RowsOf::Place, PLACES)
}

const PROFILES: [(&str, &str); 7] = [
    ("user-db:me\nsystem-db:site\n", "me.user"),
    ("# first\n\t user-db:a.b # the user's\r\n", "a.b.user"),
    ("system-db:site\n", "the profile"),
    ("system-db:site\nuser-db:me\n", "the profile"),
    ("user-db:me\nnonsense\n", "the profile"),
    ("", "the profile"),
    ("service-db:x", "the profile"),
];

#[test]
fn names_the_users_file(rt: HostRuntime) -> Result<(), Fail> {
    for (text, wanted) in PROFILES {
        let name = user_file(rt.alloc(), "the profile", text.as_bytes())?;
        is_so(rt.alloc(), text, &name, wanted)?;
    }
    Ok(())
}

/// With a hidden keyfile, and a lock file.
fn folder(alloc: Global, name: &str) -> Result<SourceFolder, AllocError> {
    let mut keyfiles = Vec::new(alloc);
    keyfiles.push(String::from_str(alloc, "a")?)?;
    keyfiles.push(String::from_str(alloc, ".b")?)?;
    let mut locks = Vec::new(alloc);
    locks.push(String::from_str(alloc, "l")?)?;
    Ok(SourceFolder {
        name: String::from_str(alloc, name)?,
        keyfiles,
        locks,
    })
}

#[test]
fn makes_what_is_shown(rt: HostRuntime) -> Result<(), Fail> {
    let alloc = rt.alloc();
    let commands = updates(alloc, &[folder(alloc, ".x")?, folder(alloc, "site")?])?;
    let text = format!(in alloc; "{commands:?}")?;
    let wanted =
        r#"[Compile { out: "site.db", locks: ["site.d/locks/l"], keyfiles: ["site.d/a"] }]"#;
    is_so(alloc, "update", &text, wanted)
}
