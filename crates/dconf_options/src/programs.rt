//! Which program a command line is for.
ghost use Rattle.std.specs.Prelude.{◌≡◌};
ghost use Rattle.dconf_options.specs.Programs.{asks_home, changes, dconfs_program, forgets, helped, is_dconf, is_proved, own_program, program_number, program_of};

/// A program, and what it is handed.
#[derive(Clone, Copy)]
pub enum Program {
    /// The proved one, with all words as they are.
    Proved,
    /// `watch` or `lint`, with the words behind that one.
    Watch,
    Lint,
    /// The same with `--help` alone.
    WatchHelp,
    LintHelp,
    /// What is run as `dconf`: the same `watch`, and `blame`.
    DconfWatch,
    DconfBlame,
    /// The proved one, by `blame`, which has it noted that this process changes settings.
    Noted,
}

/// What is known of the line beside its first words.
#[repr(C)]
#[derive(Clone, Copy)]
pub struct Line {
    /// How many words there are, with the program's name.
    pub count: u64,
    /// The last of three is a path.
    pub is_path: bool,
    /// The program `blame` may be run.
    pub has_blame: bool,
    /// The environment asks that changes are noted.
    pub is_noted: bool,
    /// The environment counts: the program hasn't more rights than whoever started it.
    pub counts: bool,
    /// By the environment the store may be in the home that the system has for the user.
    pub is_at_home: bool,
}

/// By the program's name and the two words after it, each empty where there is none.
pub fn program_of(name: &[u8], first: &[u8], second: &[u8], line: &Line) -> Program
    ensures { result ≡ program_of name.now first.now second.now line.now }
{
    if line.count < 2 {
        return Program::Proved;
    }
    if is_dconf(name) {
        return dconfs_program(first, line);
    }
    if line.count == 3 && first == "help".as_bytes() {
        return helped(own_program(second));
    }
    own_program(first)
}

/// Whether the program is run without the variables that say where a store is: to the proved one each counts that it has, and none does here.
pub fn forgets(program: Program, line: &Line) -> bool
    ensures { result ≡ forgets program line.now }
{
    is_proved(program) && !line.counts
}

/// Whether the program is the proved one that asks the system for that home first: without the variables of a store nothing else says where it is.
pub fn asks_home(program: Program, line: &Line) -> bool
    ensures { result ≡ asks_home program line.now }
{
    is_proved(program) && (line.is_at_home || !line.counts)
}

fn is_proved(program: Program) -> bool
    ensures { result ≡ is_proved program }
{
    matches!(program, Program::Proved | Program::Noted)
}

/// The same as a number: 0 proved, 1 watch, 2 lint, 3 and 4 their help, 5 dconf's watch, 6 its blame, 7 noted.
pub fn program_number(program: Program) -> u32
    ensures { result ≡ program_number program }
{
    match program {
        Program::Proved => 0,
        Program::Watch => 1,
        Program::Lint => 2,
        Program::WatchHelp => 3,
        Program::LintHelp => 4,
        Program::DconfWatch => 5,
        Program::DconfBlame => 6,
        Program::Noted => 7,
    }
}

fn is_dconf(name: &[u8]) -> bool
    ensures { result ≡ is_dconf name.now }
{
    name == "dconf".as_bytes() || name.ends_with(b"/dconf")
}

/// Whether the command changes settings.
fn changes(word: &[u8]) -> bool
    ensures { result ≡ changes word.now }
{
    word == "write".as_bytes() || (word == "reset".as_bytes() || word == "load".as_bytes())
}

fn dconfs_program(first: &[u8], line: &Line) -> Program
    ensures { result ≡ dconfs_program first.now line.now }
{
    if line.count == 3 && (first == "watch".as_bytes() && line.is_path) {
        return Program::DconfWatch;
    }
    if line.count == 2 && (first == "blame".as_bytes() && line.has_blame) {
        return Program::DconfBlame;
    }
    if (line.counts && line.is_noted) && changes(first) {
        return Program::Noted;
    }
    Program::Proved
}

fn own_program(word: &[u8]) -> Program
    ensures { result ≡ own_program word.now }
{
    if word == "watch".as_bytes() {
        return Program::Watch;
    }
    if word == "lint".as_bytes() {
        return Program::Lint;
    }
    Program::Proved
}

fn helped(program: Program) -> Program
    ensures { result ≡ helped program }
{
    match program {
        Program::Watch => Program::WatchHelp,
        Program::Lint => Program::LintHelp,
        _ => program,
    }
}
