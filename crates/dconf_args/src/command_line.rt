//! The command line of `dconfdb`, by clap's builder.
ghost use Rattle.std.specs.Prelude.{◌≡◌, IfOk, map, string_bytes};
ghost use Rattle.clap.specs.Words.{app_of, new_app};
ghost use Rattle.dconf_args.specs.CommandLine.{command_line};
ghost use Rattle.dconf_args.specs.Taken.{is_among, told, told_of, with_line, with_lines, with_words};

use crate::command_table::{COMMANDS, Line, PROGRAM};
use std::alloc::{AllocError, Global};

/// The command line, of which only commands among the words have arguments: clap reads no others.
pub(crate) fn dconfdb<'a>(alloc: Global, words: &[String]) -> Result<clap::Command<'a>, AllocError>
    ensures { IfOk result (λ c. app_of c ≡ told (map string_bytes words.now) command_line) }
{
    let line = clap::Command::new(alloc, "dconfdb")
        .about("Read, change, compile and check dconf settings databases")
        .after_long_help(PROGRAM)
        .version("0.2.0")
        .subcommand_required(true);
    with_all(alloc, line, COMMANDS.as_slice(), words)
}

/// The line with these commands too.
fn with_all<'a>(
    alloc: Global,
    line: clap::Command<'a>,
    commands: &[Line<'a>],
    given: &[String],
) -> Result<clap::Command<'a>, AllocError>
    ensures { IfOk result (λ c. app_of c ≡ with_lines (map string_bytes given.now) (app_of line.entry) commands.now) }
{
    let mut line = line;
    for command in commands {
        line = with(alloc, line, command, given)?;
    }
    Ok(line)
}

/// The line with one more command. It makes the command itself, so that a caller of many holds no
/// line across a `?`: that is dear to prove.
fn with<'a>(
    alloc: Global,
    line: clap::Command<'a>,
    command: &Line<'a>,
    given: &[String],
) -> Result<clap::Command<'a>, AllocError>
    ensures { IfOk result (λ c. app_of c ≡ with_line (map string_bytes given.now) (app_of line.entry) command.now) }
{
    line.subcommand(made(alloc, command, given)?)
}

/// A command, without its arguments if its name is not one of the words.
fn made<'a>(
    alloc: Global,
    line: &Line<'a>,
    given: &[String],
) -> Result<clap::Command<'a>, AllocError>
    ensures { IfOk result (λ c. (app_of c).top ≡ told_of (map string_bytes given.now) (with_words (new_app line.now.name.now) line.now.words.now).top) }
{
    let mut command = clap::Command::new(alloc, line.name)
        .about(line.about)
        .after_long_help(line.more);
    if !is_given(line.name, given) {
        return Ok(command);
    }
    for word in line.words {
        command = command.arg(word.argument(alloc))?;
    }
    Ok(command)
}

/// Whether the name is one of the words.
fn is_given(name: &str, words: &[String]) -> bool
    ensures { result ≡ is_among name.now (map string_bytes words.now) }
{
    words.iter().any(|word| word.as_str() == name)
}
