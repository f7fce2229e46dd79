//! Lines of JSON, as RFC 8259 has them.
use crate::layers::two_layers;
use dconf_commands::{
    StoreFiles, databases, directory_argument, key_argument, place_name, profile,
};
use dconf_folders::{Folder, MemoryFolder};
use dconf_json::{Question, answered_as_json};
use dconf_streams::{Answer, named_file};
use std::alloc::Global;
use std::test::Fail;
use test_rows::{bytes_of, is_so};

const EXPLAINED: &str =
    r#"{"path":"/a/k","value":"1","from":"0 user-db:me","refusal":null,"databases":[{"database":"0 user-db:me","value":"1","lock":null},{"database":"1 system-db:site","value":"2","lock":null}]}
"#;

const LOCKED: &str =
    r#"{"path":"/a/k","value":"2","from":"1 system-db:site","refusal":"Locked","databases":[{"database":"0 user-db:me","value":"1","lock":null},{"database":"1 system-db:site","value":"2","lock":"/a/"}]}
"#;

/// A database with a double alone, of the bytes 1 to 8, at `/k`.
const DOUBLE: &str = "%plain :96 01 02 03 04 05 06 07 08 00 'd' 80=106";

/// What is answered of the profile.
fn answer(
    alloc: Global,
    folder: &mut MemoryFolder,
    question: Question<'_>,
    profile: &str,
) -> Result<String, Fail> {
    match answered_as_json(alloc, question, profile, folder) {
        Ok(Answer::Done(text)) => Ok(text),
        _ => Err(Fail::new("it is not answered")),
    }
}

fn answers(
    alloc: Global,
    folder: &mut MemoryFolder,
    question: Question<'_>,
    wanted: &str,
) -> Result<(), Fail> {
    let given = answer(alloc, folder, question, "profile")?;
    is_so(alloc, "the answer", &given, wanted)
}

#[test]
fn answers_as_json(rt: HostRuntime) -> Result<(), Fail> {
    let alloc = rt.alloc();
    let mut folder = two_layers(alloc, "")?;
    let (key, directory) = ("/a/k", "/a/");
    let seen = Question::Value {
        default: false,
        key,
    };
    answers(alloc, &mut folder, seen, "\"1\"\n")?;
    let default = Question::Value { default: true, key };
    answers(alloc, &mut folder, default, "\"2\"\n")?;
    let none = Question::Value {
        default: false,
        key: "/a/none",
    };
    answers(alloc, &mut folder, none, "null\n")?;
    let names = Question::Names { directory: "/" };
    answers(alloc, &mut folder, names, "[\"a/\"]\n")?;
    let values = Question::Values {
        skips: false,
        directory,
    };
    answers(alloc, &mut folder, values, "{\"/a/k\":\"1\"}\n")?;
    answers(alloc, &mut folder, Question::Explained { key }, EXPLAINED)?;
    let mut folder = two_layers(alloc, "/a/\n")?;
    let below = Question::ExplainedBelow { directory };
    answers(alloc, &mut folder, below, LOCKED)
}

#[test]
fn gives_the_bytes_of_a_double(rt: HostRuntime) -> Result<(), Fail> {
    let alloc = rt.alloc();
    let mut folder = MemoryFolder::new(alloc);
    folder.create(alloc, "profile", 0)?;
    folder.append("profile", b"system-db:site\n")?;
    folder.create(alloc, "site.db", 0)?;
    folder.append("site.db", &bytes_of(alloc, DOUBLE)?)?;
    let double = Question::Value {
        default: false,
        key: "/k",
    };
    let wanted = "{\"type\":\"d\",\"bytes\":\"0102030405060708\"}\n";
    answers(alloc, &mut folder, double, wanted)?;
    let values = Question::Values {
        skips: false,
        directory: "/",
    };
    let wanted = "{\"/k\":{\"type\":\"d\",\"bytes\":\"0102030405060708\"}}\n";
    answers(alloc, &mut folder, values, wanted)?;
    let skipped = Question::Values {
        skips: true,
        directory: "/",
    };
    answers(alloc, &mut folder, skipped, "{\"/k\":null}\n")
}

#[test]
fn reads_the_files_of_a_store(rt: HostRuntime) -> Result<(), Fail> {
    let alloc = rt.alloc();
    let mut folder = two_layers(alloc, "")?;
    let Ok(file) = named_file(alloc, &mut folder, "profile") else {
        return Err(Fail::new("the profile is not read"));
    };
    let Ok(files) = StoreFiles::read(alloc, &mut folder, &file) else {
        return Err(Fail::new("the databases are not read"));
    };
    let layers = files.layers(alloc).ok().map_or(0, |layers| layers.len());
    let Ok(named) = profile(alloc, file.name, &file.bytes) else {
        return Err(Fail::new("the profile is refused"));
    };
    let each = databases(alloc, named.databases(), &mut folder).map_or(0, |items| items.len());
    let place = place_name(alloc, &files.profile, 1)?;
    let key = key_argument(alloc, "/a/k").is_ok();
    let directory = directory_argument(alloc, "/a/").is_ok();
    let given = format!(in alloc; "{layers} {each} {place} {key} {directory}")?;
    is_so(alloc, "a store", &given, "2 2 1 system-db:site true true")
}
