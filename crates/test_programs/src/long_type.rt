//! `show` of a type's text that is longer than a word of a command line may be.
use crate::script::left_by;
use crate::streams::{Source, Streams};
use dconf_cli::Command;
use dconf_folders::MemoryFolder;
use std::alloc::Global;
use std::test::Fail;
use test_rows::is_so;

const LETTERS: &str = "rrrrrrrrrrrrrrrrrrrrrrrrrrrrrrrrrrrrrrrrrrrrrrrrrrrrrrrrrrrrrrrr";

/// Runs `show` of a type of 64 megabytes of letters and these after them. An error says that it leaves something else.
fn leaves(alloc: Global, after: &str, wanted: &str) -> Result<(), Fail> {
    let mut type_text = LETTERS.repeat(alloc, 1_048_576)?;
    type_text.push_str(after)?;
    let file = String::from_str(alloc, "f")?;
    let mut streams = Streams::calm(alloc, Source::bytes(b""));
    let asked = Command::Show { type_text, file };
    let left = left_by(alloc, asked, &mut MemoryFolder::new(alloc), &mut streams)?;
    is_so(alloc, "a long type", &left, wanted)
}

/// The length is looked at before all else.
#[test]
fn a_type_has_at_most_64_megabytes(rt: HostRuntime) -> Result<(), Fail> {
    leaves(rt.alloc(), "", "1\n! error: BadChar at 0\n")?;
    leaves(rt.alloc(), "r", "1\n! error: TooLong\n")
}
