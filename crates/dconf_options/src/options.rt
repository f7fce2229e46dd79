//! The words one after another.
ghost use Rattle.std.specs.Prelude.{◌≡◌};
ghost use Rattle.dconf_options.specs.Options.{as_folder, as_name, as_user, as_word, begins_at, of_argument, option_after, options_end, said_number, saying};

use crate::words::{Word, word_of};

/// What the words before say; all is 0 and false at first, but for the program.
#[repr(C)]
#[derive(Clone, Copy)]
pub struct OptionsRead {
    /// The next word is the argument of an option: 1 a folder, 2 a schema; 0 it isn't.
    pub wants: u32,
    /// They are those of `lint`, and not of `watch`.
    pub is_lint: bool,
    /// `--` came.
    pub is_over: bool,
    /// A folder is given, or wanted.
    pub has_folder: bool,
    /// `--user` is given.
    pub is_user: bool,
    /// A PATH or a FILE is given.
    pub has_name: bool,
}

/// What is said of a word.
#[derive(Clone, Copy)]
pub enum Said {
    /// It is taken, and there is nothing to be kept of it.
    Nothing,
    /// The argument of `--store` or `--schemas`.
    Folder,
    /// One of `--schema`.
    Schema,
    /// The PATH, or one more FILE.
    Name,
    /// The help is asked for.
    Help,
    /// There is no such option.
    Unknown,
    /// The option is given twice.
    Twice,
    /// `--user` and `--store` exclude each other.
    Excluded,
    /// There is a PATH already.
    TooMany,
    /// An option has no argument.
    Lacking,
    /// No PATH is given.
    NoName,
    /// Findings are to be written as JSON.
    Json,
    /// `lint` looks at the folder that `update` takes if none is named.
    Machines,
}

/// What is said of a word, and what the words up to it say.
#[derive(Clone, Copy)]
pub struct Taken {
    pub read: OptionsRead,
    pub said: Said,
    /// So many bytes of the word come before what is to be kept.
    pub from: usize,
}

/// What is said of the next word.
pub fn option_after(read: &OptionsRead, word: &[u8]) -> Taken
    ensures { result ≡ option_after read.now word.now }
{
    match read.wants {
        1 => of_argument(read, Said::Folder),
        2 => of_argument(read, Said::Schema),
        _ if read.is_over => as_name(read),
        _ => as_word(read, word_of(read.is_lint, word)),
    }
}

/// What is said once there is no further word: without a name `lint` looks at what `update` would make.
pub fn options_end(read: &OptionsRead) -> Said
    ensures { result ≡ options_end read.now }
{
    if read.wants != 0 {
        return Said::Lacking;
    }
    if !read.is_lint && !read.has_name {
        return Said::NoName;
    }
    if !read.has_name {
        return Said::Machines;
    }
    Said::Nothing
}

/// The same as a number: 0 nothing, 1 a folder, 2 a schema, 3 a name, 4 help, 5 unknown, 6 twice, 7 excluded, 8 too many, 9 lacking, 10 no name, 11 JSON, 12 the
/// machine's folder.
pub fn said_number(said: Said) -> u32
    ensures { result ≡ said_number said }
{
    match said {
        Said::Nothing => 0,
        Said::Folder => 1,
        Said::Schema => 2,
        Said::Name => 3,
        Said::Help => 4,
        Said::Unknown => 5,
        Said::Twice => 6,
        Said::Excluded => 7,
        Said::TooMany => 8,
        Said::Lacking => 9,
        Said::NoName => 10,
        Said::Json => 11,
        Said::Machines => 12,
    }
}

fn saying(read: &OptionsRead, said: Said) -> Taken
    ensures { result ≡ saying read.now said }
{
    Taken {
        read: *read,
        said,
        from: 0,
    }
}

/// Whatever it is: also `--user` may be the name of a folder.
fn of_argument(read: &OptionsRead, said: Said) -> Taken
    ensures { result ≡ of_argument read.now said }
{
    saying(&OptionsRead { wants: 0, ..*read }, said)
}

fn as_word(read: &OptionsRead, word: Word) -> Taken
    ensures { result ≡ as_word read.now word }
{
    match word {
        Word::Name => as_name(read),
        Word::Help => saying(read, Said::Help),
        Word::Divider => saying(
            &OptionsRead {
                is_over: true,
                ..*read
            },
            Said::Nothing,
        ),
        Word::WantsFolder => as_folder(read, 1, Said::Nothing, 0),
        Word::Folder => as_folder(read, 0, Said::Folder, begins_at(read.is_lint)),
        Word::WantsSchema => saying(&OptionsRead { wants: 2, ..*read }, Said::Nothing),
        Word::Schema => Taken {
            read: *read,
            said: Said::Schema,
            from: 9,
        },
        Word::User => as_user(read),
        Word::Json => saying(read, Said::Json),
        Word::Unknown => saying(read, Said::Unknown),
    }
}

/// Behind `--schemas=` or `--store=`.
fn begins_at(is_lint: bool) -> usize
    ensures { result ≡ begins_at is_lint }
{
    if is_lint { 10 } else { 8 }
}

fn as_folder(read: &OptionsRead, wants: u32, said: Said, from: usize) -> Taken
    ensures { result ≡ as_folder read.now wants said from }
{
    if read.has_folder {
        return saying(read, Said::Twice);
    }
    if read.is_user {
        return saying(read, Said::Excluded);
    }
    Taken {
        read: OptionsRead {
            wants,
            has_folder: true,
            ..*read
        },
        said,
        from,
    }
}

fn as_user(read: &OptionsRead) -> Taken
    ensures { result ≡ as_user read.now }
{
    if read.is_user {
        return saying(read, Said::Twice);
    }
    if read.has_folder {
        return saying(read, Said::Excluded);
    }
    saying(
        &OptionsRead {
            is_user: true,
            ..*read
        },
        Said::Nothing,
    )
}

/// `watch` takes one, and `lint` any number.
fn as_name(read: &OptionsRead) -> Taken
    ensures { result ≡ as_name read.now }
{
    if !read.is_lint && read.has_name {
        return saying(read, Said::TooMany);
    }
    saying(
        &OptionsRead {
            has_name: true,
            ..*read
        },
        Said::Name,
    )
}
