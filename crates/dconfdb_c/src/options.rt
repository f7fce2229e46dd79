//! Which program a command line is for; and the words of `watch` and of `lint`.
ghost use Rattle.std.specs.Prelude.{◌≡◌, false, true};
ghost use Rattle.dconf_options.specs.Options.{option_after, options_end, said_number};
ghost use Rattle.dconf_options.specs.Placings.{placing_number, placing_of};
ghost use Rattle.dconf_options.specs.Programs.{asks_home, forgets, program_number, program_of};
ghost use Rattle.dconf_options.specs.Statuses.{lint_status};

use dconf_options::{
    Line, OptionsRead, asks_home, forgets, lint_status, option_after, options_end, placing_number,
    placing_of, program_number, program_of, said_number,
};

/// What is said of the next word, or at the end of all: 0 nothing, 1 a folder is given, 2 a schema, 3 a name, 4 the help is asked for; or why it is
/// refused: 5 there is no such option, 6 it is given twice, 7 two exclude each other, 8 there is a name too many, 9 an option has no argument, 10
/// no name is given; 11 the findings are wanted as JSON; 12 the folder is looked at that `update` takes if none is named. What is given begins so many bytes behind the start of the word.
#[unsafe(no_mangle)]
pub extern "C" fn dconfdb_option(
    read: &mut OptionsRead,
    is_end: bool,
    word: &[u8],
    from: &mut usize,
) -> u32
    ensures said { is_end ≡ false → result ≡ said_number (option_after read.old word.now).said }
    ensures read { is_end ≡ false → read.new ≡ (option_after read.old word.now).read }
    ensures from { is_end ≡ false → from.new ≡ (option_after read.old word.now).from }
    ensures end { is_end ≡ true → result ≡ said_number (options_end read.old) }
    ensures kept { is_end ≡ true → (read.new ≡ read.old) × (from.new ≡ from.old) }
{
    if is_end {
        return said_number(options_end(read));
    }
    let taken = option_after(read, word);
    *read = taken.read;
    *from = taken.from;
    said_number(taken.said)
}

/// With which status `lint` ends, by how much was found, and whether all that was written.
#[unsafe(no_mangle)]
pub extern "C" fn dconfdb_lint_status(found: usize, is_written: bool) -> u32
    ensures { result ≡ lint_status found is_written }
{
    lint_status(found, is_written)
}

/// What is said of an argument of `--schema`, by whether it has a `:`, the path behind that is a directory's, there is the schema before it, and that has
/// a path: 0 it is taken, 1 there is no path, 2 no directory's, 3 no such schema, 4 it has a path of its own.
#[unsafe(no_mangle)]
pub extern "C" fn dconfdb_placing(
    has_path: bool,
    is_directory: bool,
    has_schema: bool,
    is_fixed: bool,
) -> u32
    ensures { result ≡ placing_number (placing_of has_path is_directory has_schema is_fixed) }
{
    placing_number(placing_of(has_path, is_directory, has_schema, is_fixed))
}

/// Which program a command line is for, by the program's name and the two words after it, each empty where there is none: 0 the proved one, 1 `watch`,
/// 2 `lint`, 3 and 4 the help of these; run as `dconf`, 5 the same `watch`, 6 `blame`, 7 the proved one by that. And whether it is run without the
/// variables that say where a store is (`has_none`); and by the program that asks the system for the user's home (`is_homeless`).
#[unsafe(no_mangle)]
pub extern "C" fn dconfdb_program_of(
    name: &[u8],
    first: &[u8],
    second: &[u8],
    line: &Line,
    has_none: &mut bool,
    is_homeless: &mut bool,
) -> u32
    ensures program { result ≡ program_number (program_of name.now first.now second.now line.now) }
    ensures none { has_none.new ≡ forgets (program_of name.now first.now second.now line.now) line.now }
    ensures homeless { is_homeless.new ≡ asks_home (program_of name.now first.now second.now line.now) line.now }
{
    let program = program_of(name, first, second, line);
    *has_none = forgets(program, line);
    *is_homeless = asks_home(program, line);
    program_number(program)
}
