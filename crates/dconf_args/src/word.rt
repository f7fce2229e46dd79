//! The arguments of a command, as clap is told of them.
ghost use Rattle.std.specs.Prelude.{◌≡◌, codes, false, Some};
ghost use Rattle.clap.specs.Words.{new_rule, rule_of};
ghost use Rattle.clap.specs.declared.builder.action.ArgAction.TheVariants.{SetTrue};
ghost use Rattle.dconf_args.specs.CommandLine.{further_words, locks_option, long_flag, optional_word, profile_option, required_word, store_option};
ghost use Rattle.dconf_args.specs.Taken.{rule_of_word};

use clap::{Arg, ArgAction};
use std::alloc::Global;

/// A word, or words, that a command takes.
#[derive(Clone, Copy)]
pub(crate) enum Word<'a> {
    /// One that must be there, in its place.
    Required {
        name: &'a str,
        help: &'a str,
    },
    /// One that may be there, in its place.
    Optional {
        name: &'a str,
        help: &'a str,
    },
    /// Those that may follow in its place, each a value.
    Further {
        name: &'a str,
        help: &'a str,
    },
    /// A flag of one letter.
    Flag {
        name: &'a str,
        letter: char,
        help: &'a str,
    },
    /// A flag `--NAME`.
    Long {
        name: &'a str,
        help: &'a str,
    },
    /// `--locks FILE`, any number of times.
    Locks,
    /// `-p FILE`.
    Profile,
    /// `--store FOLDER`.
    Store,
}

/// The type of a value.
pub(crate) const TYPE: Word<'static> = Word::Required {
    name: "TYPE",
    help: "a GVariant type, such as s, au or a{sv}",
};

/// The file that is read.
pub(crate) const FILE: Word<'static> = Word::Required {
    name: "FILE",
    help: "the file to read",
};

/// The database that is made.
pub(crate) const OUT: Word<'static> = Word::Required {
    name: "OUT",
    help: "the database to write",
};

/// The path of a key.
pub(crate) const KEY: Word<'static> = Word::Required {
    name: "KEY",
    help: "the path of a key, such as /org/gnome/desktop/interface/clock-format",
};

/// The path of a directory.
pub(crate) const DIR: Word<'static> = Word::Required {
    name: "DIR",
    help: "the path of a directory, such as /org/gnome/ or /",
};

/// The value that a key gets.
pub(crate) const VALUE: Word<'static> = Word::Required {
    name: "VALUE",
    help: "the value as GVariant text, such as 5 or \"'12h'\"; put -- before one that starts with -",
};

/// The path of a key or of a directory.
pub(crate) const PATH: Word<'static> = Word::Required {
    name: "PATH",
    help: "the path of a key or, with -f, of a directory such as /org/gnome/",
};

/// The path of a key that is explained, or of a directory.
pub(crate) const EXPLAINED: Word<'static> = Word::Required {
    name: "PATH",
    help: "the path of a key or, if it ends in /, of a directory: then of each key below it",
};

/// The keyfiles that are read.
pub(crate) const KEYFILE: Word<'static> = Word::Further {
    name: "KEYFILE",
    help: "a keyfile to compile",
};

/// The folder whose databases are made.
pub(crate) const FOLDER: Word<'static> = Word::Optional {
    name: "FOLDER",
    help: "the folder of the sources and databases [default: /etc/dconfdb]",
};

/// Whether the user's values are left aside.
pub(crate) const DEFAULT: Word<'static> = Word::Flag {
    name: "default",
    letter: 'd',
    help: "ignore the user's value",
};

/// Whether PATH is a directory.
pub(crate) const WHOLE: Word<'static> = Word::Flag {
    name: "force",
    letter: 'f',
    help: "reset every key below the directory PATH, except locked ones",
};

/// Whether locked keys are left out, in place of a refusal.
pub(crate) const LEAVING: Word<'static> = Word::Flag {
    name: "force",
    letter: 'f',
    help: "skip locked keys instead of failing",
};

/// Whether keys whose value has a double are left out, in place of a refusal.
pub(crate) const NAMING_DOUBLES: Word<'static> = Word::Long {
    name: "skip-doubles",
    help: "name keys whose value has a double in comments instead of failing",
};

/// Whether rows whose value has a double are left out, in place of a refusal.
pub(crate) const PRINTING_DOUBLES: Word<'static> = Word::Long {
    name: "skip-doubles",
    help: "skip keys whose value has a double, and print their paths, instead of failing",
};

/// Whether the store is the user's.
pub(crate) const USER: Word<'static> = Word::Long {
    name: "user",
    help: "work on the store of the user, as programs do",
};

/// Whether only the user's database counts.
pub(crate) const OWN: Word<'static> = Word::Long {
    name: "own",
    help: "print the user's own values alone",
};

/// Whether JSON is printed.
pub(crate) const JSON: Word<'static> = Word::Long {
    name: "json",
    help: "print JSON",
};

/// Whether each database is made, whatever is there.
pub(crate) const FORCE: Word<'static> = Word::Long {
    name: "force",
    help: "make each database, whatever is there",
};

/// Whether it is only said what would be made.
pub(crate) const DRY_RUN: Word<'static> = Word::Long {
    name: "dry-run",
    help: "write nothing: print what would be made, of which files, and which keys that changes",
};

/// What is compared.
pub(crate) const OLD: Word<'static> = Word::Required {
    name: "OLD",
    help: "a folder with a store, or a database",
};

/// With what it is compared.
pub(crate) const NEW: Word<'static> = Word::Required {
    name: "NEW",
    help: "the one to compare it with",
};

impl<'a> Word<'a> {
    /// What clap is told of it.
    pub(crate) fn argument(self, alloc: Global) -> Arg<'a>
        ensures rule { rule_of result ≡ rule_of_word self.entry }
        ensures own { result.global ≡ false }
    {
        match self {
            Word::Required { name, help } => required(alloc, name, help),
            Word::Optional { name, help } => optional(alloc, name, help),
            Word::Further { name, help } => further(alloc, name, help),
            Word::Flag { name, letter, help } => flag(alloc, name, letter, help),
            Word::Long { name, help } => long_flag(alloc, name, help),
            Word::Locks => locks(alloc),
            Word::Profile => profile(alloc),
            Word::Store => store(alloc),
        }
    }
}

fn required<'a>(alloc: Global, name: &'a str, help: &'a str) -> Arg<'a>
    ensures rule { rule_of result ≡ required_word name.now }
    ensures own { result.global ≡ false }
{
    Arg::new(alloc, name)
        .required(true)
        .action(ArgAction::Set)
        .help(help)
}

fn optional<'a>(alloc: Global, name: &'a str, help: &'a str) -> Arg<'a>
    ensures rule { rule_of result ≡ optional_word name.now }
    ensures own { result.global ≡ false }
{
    Arg::new(alloc, name).action(ArgAction::Set).help(help)
}

fn further<'a>(alloc: Global, name: &'a str, help: &'a str) -> Arg<'a>
    ensures rule { rule_of result ≡ further_words name.now }
    ensures own { result.global ≡ false }
{
    Arg::new(alloc, name).action(ArgAction::Append).help(help)
}

fn flag<'a>(alloc: Global, name: &'a str, letter: char, help: &'a str) -> Arg<'a>
    ensures rule { rule_of result ≡ record (new_rule name.now) { short = Some letter; action = Some SetTrue } }
    ensures own { result.global ≡ false }
{
    Arg::new(alloc, name)
        .short(letter)
        .action(ArgAction::SetTrue)
        .help(help)
}

fn long_flag<'a>(alloc: Global, name: &'a str, help: &'a str) -> Arg<'a>
    ensures rule { rule_of result ≡ long_flag name.now }
    ensures own { result.global ≡ false }
{
    Arg::new(alloc, name)
        .long(name)
        .action(ArgAction::SetTrue)
        .help(help)
}

fn locks<'a>(alloc: Global) -> Arg<'a>
    ensures rule { rule_of result ≡ locks_option }
    ensures own { result.global ≡ false }
{
    Arg::new(alloc, "locks")
        .long("locks")
        .value_name("FILE")
        .action(ArgAction::Append)
        .help("a file of paths to lock, one per line; may be given more than once")
}

fn profile<'a>(alloc: Global) -> Arg<'a>
    ensures rule { rule_of result ≡ profile_option }
    ensures own { result.global ≡ false }
{
    Arg::new(alloc, "profile")
        .short('p')
        .value_name("FILE")
        .action(ArgAction::Set)
        .help("the file that lists the databases [default: profile]")
}

fn store<'a>(alloc: Global) -> Arg<'a>
    ensures rule { rule_of result ≡ store_option }
    ensures own { result.global ≡ false }
{
    Arg::new(alloc, "store")
        .long("store")
        .value_name("FOLDER")
        .action(ArgAction::Set)
        .help("work on the store in FOLDER, as programs do")
}
