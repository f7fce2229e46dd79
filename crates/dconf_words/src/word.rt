//! The words that dconfdb refuses with, and what each means.
ghost use Rattle.std.specs.Prelude.{◌≡◌};
ghost use Rattle.dconf_words.specs.Words.{about, word_of};
ghost use Rattle.dconf_words.specs.Texts.{name_of, meaning_of, typed_of, answer_of, cure_of};

/// A word.
#[derive(Clone, Copy, Debug, PartialEq, Eq)]
pub enum Word {
    /// The path doesn't start with '/'.
    NotAbsolute,
    /// The path has a zero byte.
    HasNul,
    /// The path has two slashes with nothing between them.
    DoubleSlash,
    /// The path is a directory's, since it ends in '/', and a key's is wanted.
    EndsInSlash,
    /// The path is a key's, since it doesn't end in '/', and a directory's is wanted.
    NoEndSlash,
    /// The path has more than 65,535 bytes, or the type more than 67,108,864.
    TooLong,
    /// The text of a value has something in it that is no number, no quoted text, no bracket and no word of the format.
    BadToken,
    /// A quote or a bracket is opened and not closed, or a type ends too early.
    Unclosed,
    /// What follows a backslash in a quoted text is none of what may follow it.
    BadEscape,
    /// Something else should come at that place of a value's text, or the text ends there too early.
    Unexpected,
    /// The value or the type is nested more than 128 levels deep.
    TooDeep,
    /// There is a double in the value: doubles are neither read from a text nor printed.
    DoubleText,
    /// The elements of an array have no type in common.
    NoCommonType,
    /// The text has values of several types, and doesn't say which is meant.
    Ambiguous,
    /// A number doesn't fit its type.
    OutOfRange,
    /// The text after objectpath is no path of a D-Bus object.
    BadObjectPath,
    /// The text after signature is none of D-Bus; or, of a file, it doesn't begin as a database does.
    BadSignature,
    /// The value is nested too deep or has too many bytes.
    TooLarge,
    /// There is no type.
    Empty,
    /// That byte may not stand there in a type.
    BadChar,
    /// The key of a dictionary has a type that is not basic.
    KeyNotBasic,
    /// Something follows a type that is complete.
    Trailing,
    /// There is no file of that name.
    NoFile,
    /// The system could not open, read or replace the file, or could not lock its folder.
    Device,
    /// The file or the text has more bytes than is allowed, or a new database would have.
    TooBig,
    /// Other programs have held the lock of the file's folder for ten seconds.
    Busy,
    /// Nobody says where the user's store is: neither the environment nor the system knows a home.
    NoFolder,
    /// The line has a byte that is no part of a character in UTF-8.
    NotUtf8,
    /// The line is none that the file may have: a profile names databases, a keyfile has [groups] and NAME=VALUE.
    BadLine,
    /// The line of the profile names a service-db, and those are not supported.
    ServiceDb,
    /// The line of the profile names a user-db behind another database.
    UserNotFirst,
    /// The line of the profile names a 65th database.
    TooMany,
    /// A key comes before the first group of the keyfile.
    NoGroup,
    /// The line in brackets is no group, or no group can name the directory.
    BadGroup,
    /// The key's name is empty, or has a slash, a bracket, '=' or a control character.
    BadKeyName,
    /// The line of a file of locks starts with '/' and is no path.
    LockNotKey,
    /// A database of the store is damaged; its number is that of its line in the profile, from 0.
    BadDatabase,
    /// The file is shorter than the header of a database.
    Short,
    /// The file begins as a database does, and has a version other than 0.
    BadVersion,
    /// The header of the database points to no table.
    BadRoot,
    /// There is no table where the header of the database points to.
    BadTable,
    /// The buckets of the database's table don't fit its items.
    S1,
    /// An item's key lies outside the file, or is no text, or its parent is no item.
    S2,
    /// An item's parents go round in a ring, or its key is empty.
    S3,
    /// An item's hash is not that of its path.
    S4,
    /// An item lies in the bucket of another hash.
    S5,
    /// The table's filter says of an item that it isn't there.
    S6,
    /// Two items have the same path.
    S7,
    /// An item is of no known kind, or what it points to lies outside the file.
    S8,
    /// An item is neither a key nor a directory, where it stands, or its path is too long.
    S9,
    /// A directory does not list just what is in it.
    S10,
    /// The table of locks breaks one of these rules, or a lock is no path.
    S11,
    /// The profile's first database is no user-db, so nothing can be written.
    NotWritable,
    /// The key is locked by a database that comes after the user's.
    Locked,
    /// No memory is left.
    Memory,
    /// Lint found no compiled schemas in the folder.
    NoSchemas,
}

/// What a word is said of.
#[derive(Clone, Copy, Debug, PartialEq, Eq)]
pub enum About {
    /// The path of a key or of a directory.
    Path,
    /// The text of a value, or a value.
    Value,
    /// The text of a type.
    Type,
    /// A file as a whole.
    File,
    /// A line of a file.
    Line,
    /// A database.
    Database,
    /// A rule of sound databases.
    Rule,
    /// A change.
    Change,
    /// The program and what it runs in.
    Process,
}

/// All of them.
pub const WORDS: [Word; 56] = [
    Word::NotAbsolute,
    Word::HasNul,
    Word::DoubleSlash,
    Word::EndsInSlash,
    Word::NoEndSlash,
    Word::TooLong,
    Word::BadToken,
    Word::Unclosed,
    Word::BadEscape,
    Word::Unexpected,
    Word::TooDeep,
    Word::DoubleText,
    Word::NoCommonType,
    Word::Ambiguous,
    Word::OutOfRange,
    Word::BadObjectPath,
    Word::BadSignature,
    Word::TooLarge,
    Word::Empty,
    Word::BadChar,
    Word::KeyNotBasic,
    Word::Trailing,
    Word::NoFile,
    Word::Device,
    Word::TooBig,
    Word::Busy,
    Word::NoFolder,
    Word::NotUtf8,
    Word::BadLine,
    Word::ServiceDb,
    Word::UserNotFirst,
    Word::TooMany,
    Word::NoGroup,
    Word::BadGroup,
    Word::BadKeyName,
    Word::LockNotKey,
    Word::BadDatabase,
    Word::Short,
    Word::BadVersion,
    Word::BadRoot,
    Word::BadTable,
    Word::S1,
    Word::S2,
    Word::S3,
    Word::S4,
    Word::S5,
    Word::S6,
    Word::S7,
    Word::S8,
    Word::S9,
    Word::S10,
    Word::S11,
    Word::NotWritable,
    Word::Locked,
    Word::Memory,
    Word::NoSchemas,
];

impl Word {
    /// The word of this name, if there is one.
    pub fn of(name: &str) -> Option<Word>
        ensures { result ≡ word_of name.now }
    {
        WORDS.iter().copied().find(|word| word.name() == name)
    }

    /// The word itself, as it is printed.
    pub fn name(self) -> &'static str
        ensures { result.now ≡ name_of self }
    {
        match self {
            Word::NotAbsolute => "NotAbsolute",
            Word::HasNul => "HasNul",
            Word::DoubleSlash => "DoubleSlash",
            Word::EndsInSlash => "EndsInSlash",
            Word::NoEndSlash => "NoEndSlash",
            Word::TooLong => "TooLong",
            Word::BadToken => "BadToken",
            Word::Unclosed => "Unclosed",
            Word::BadEscape => "BadEscape",
            Word::Unexpected => "Unexpected",
            Word::TooDeep => "TooDeep",
            Word::DoubleText => "DoubleText",
            Word::NoCommonType => "NoCommonType",
            Word::Ambiguous => "Ambiguous",
            Word::OutOfRange => "OutOfRange",
            Word::BadObjectPath => "BadObjectPath",
            Word::BadSignature => "BadSignature",
            Word::TooLarge => "TooLarge",
            Word::Empty => "Empty",
            Word::BadChar => "BadChar",
            Word::KeyNotBasic => "KeyNotBasic",
            Word::Trailing => "Trailing",
            Word::NoFile => "NoFile",
            Word::Device => "Device",
            Word::TooBig => "TooBig",
            Word::Busy => "Busy",
            Word::NoFolder => "NoFolder",
            Word::NotUtf8 => "NotUtf8",
            Word::BadLine => "BadLine",
            Word::ServiceDb => "ServiceDb",
            Word::UserNotFirst => "UserNotFirst",
            Word::TooMany => "TooMany",
            Word::NoGroup => "NoGroup",
            Word::BadGroup => "BadGroup",
            Word::BadKeyName => "BadKeyName",
            Word::LockNotKey => "LockNotKey",
            Word::BadDatabase => "BadDatabase",
            Word::Short => "Short",
            Word::BadVersion => "BadVersion",
            Word::BadRoot => "BadRoot",
            Word::BadTable => "BadTable",
            Word::S1 => "S1",
            Word::S2 => "S2",
            Word::S3 => "S3",
            Word::S4 => "S4",
            Word::S5 => "S5",
            Word::S6 => "S6",
            Word::S7 => "S7",
            Word::S8 => "S8",
            Word::S9 => "S9",
            Word::S10 => "S10",
            Word::S11 => "S11",
            Word::NotWritable => "NotWritable",
            Word::Locked => "Locked",
            Word::Memory => "Memory",
            Word::NoSchemas => "NoSchemas",
        }
    }

    /// What is wrong, in words.
    pub fn meaning(self) -> &'static str
        ensures { result.now ≡ meaning_of self }
    {
        match self {
            Word::NotAbsolute => "the path doesn't start with '/'",
            Word::HasNul => "the path has a zero byte",
            Word::DoubleSlash => "the path has two slashes with nothing between them",
            Word::EndsInSlash =>
                "the path is a directory's, since it ends in '/', and a key's is wanted",
            Word::NoEndSlash =>
                "the path is a key's, since it doesn't end in '/', and a directory's is wanted",
            Word::TooLong =>
                "the path has more than 65,535 bytes, or the type more than 67,108,864",
            Word::BadToken =>
                "the text of a value has something in it that is no number, no quoted text, no bracket and no word of the format",
            Word::Unclosed =>
                "a quote or a bracket is opened and not closed, or a type ends too early",
            Word::BadEscape =>
                "what follows a backslash in a quoted text is none of what may follow it",
            Word::Unexpected =>
                "something else should come at that place of a value's text, or the text ends there too early",
            Word::TooDeep => "the value or the type is nested more than 128 levels deep",
            Word::DoubleText =>
                "there is a double in the value: doubles are neither read from a text nor printed",
            Word::NoCommonType => "the elements of an array have no type in common",
            Word::Ambiguous =>
                "the text has values of several types, and doesn't say which is meant",
            Word::OutOfRange => "a number doesn't fit its type",
            Word::BadObjectPath => "the text after objectpath is no path of a D-Bus object",
            Word::BadSignature =>
                "the text after signature is none of D-Bus; or, of a file, it doesn't begin as a database does",
            Word::TooLarge => "the value is nested too deep or has too many bytes",
            Word::Empty => "there is no type",
            Word::BadChar => "that byte may not stand there in a type",
            Word::KeyNotBasic => "the key of a dictionary has a type that is not basic",
            Word::Trailing => "something follows a type that is complete",
            Word::NoFile => "there is no file of that name",
            Word::Device =>
                "the system could not open, read or replace the file, or could not lock its folder",
            Word::TooBig =>
                "the file or the text has more bytes than is allowed, or a new database would have",
            Word::Busy => "other programs have held the lock of the file's folder for ten seconds",
            Word::NoFolder =>
                "nobody says where the user's store is: neither the environment nor the system knows a home",
            Word::NotUtf8 => "the line has a byte that is no part of a character in UTF-8",
            Word::BadLine =>
                "the line is none that the file may have: a profile names databases, a keyfile has [groups] and NAME=VALUE",
            Word::ServiceDb =>
                "the line of the profile names a service-db, and those are not supported",
            Word::UserNotFirst => "the line of the profile names a user-db behind another database",
            Word::TooMany => "the line of the profile names a 65th database",
            Word::NoGroup => "a key comes before the first group of the keyfile",
            Word::BadGroup =>
                "the line in brackets is no group, or no group can name the directory",
            Word::BadKeyName =>
                "the key's name is empty, or has a slash, a bracket, '=' or a control character",
            Word::LockNotKey => "the line of a file of locks starts with '/' and is no path",
            Word::BadDatabase =>
                "a database of the store is damaged; its number is that of its line in the profile, from 0",
            Word::Short => "the file is shorter than the header of a database",
            Word::BadVersion =>
                "the file begins as a database does, and has a version other than 0",
            Word::BadRoot => "the header of the database points to no table",
            Word::BadTable => "there is no table where the header of the database points to",
            Word::S1 => "the buckets of the database's table don't fit its items",
            Word::S2 =>
                "an item's key lies outside the file, or is no text, or its parent is no item",
            Word::S3 => "an item's parents go round in a ring, or its key is empty",
            Word::S4 => "an item's hash is not that of its path",
            Word::S5 => "an item lies in the bucket of another hash",
            Word::S6 => "the table's filter says of an item that it isn't there",
            Word::S7 => "two items have the same path",
            Word::S8 => "an item is of no known kind, or what it points to lies outside the file",
            Word::S9 =>
                "an item is neither a key nor a directory, where it stands, or its path is too long",
            Word::S10 => "a directory does not list just what is in it",
            Word::S11 => "the table of locks breaks one of these rules, or a lock is no path",
            Word::NotWritable =>
                "the profile's first database is no user-db, so nothing can be written",
            Word::Locked => "the key is locked by a database that comes after the user's",
            Word::Memory => "no memory is left",
            Word::NoSchemas => "lint found no compiled schemas in the folder",
        }
    }

    /// What somebody typed, for an example.
    pub fn typed(self) -> &'static str
        ensures { result.now ≡ typed_of self }
    {
        match self {
            Word::NotAbsolute => "dconfdb read org/desk/name",
            Word::HasNul => "a program asks for the key \"/a\\0b\"",
            Word::DoubleSlash => "dconfdb read /org//name",
            Word::EndsInSlash => "dconfdb read /org/desk/",
            Word::NoEndSlash => "dconfdb list /org/desk",
            Word::TooLong => "dconfdb read \"/$(printf %065535d 0)\"",
            Word::BadToken => "dconfdb write /org/desk/name oops",
            Word::Unclosed => "dconfdb write /org/desk/sizes '[1, 2'",
            Word::BadEscape => "dconfdb write /org/desk/name \"'\\u12'\"",
            Word::Unexpected => "dconfdb write /org/desk/size '(1 2)'",
            Word::TooDeep => "dconfdb show \"$(printf %0129d 0 | tr 0 a)y\" numbers.au",
            Word::DoubleText => "dconfdb write /org/desk/size 1.5",
            Word::NoCommonType => "dconfdb write /org/desk/list \"[1, 'a']\"",
            Word::Ambiguous => "dconfdb write /org/desk/list '[]'",
            Word::OutOfRange => "dconfdb write /org/desk/size 3000000000",
            Word::BadObjectPath => "dconfdb write /org/desk/at \"objectpath 'a'\"",
            Word::BadSignature => "dconfdb write /org/desk/type \"signature 'a{vs}'\"",
            Word::TooLarge => "dconfdb dump /",
            Word::Memory => "dconfdb dump /",
            Word::Empty => "dconfdb show '' numbers.au",
            Word::BadChar => "dconfdb show 'a!' numbers.au",
            Word::KeyNotBasic => "dconfdb show 'a{vs}' numbers.au",
            Word::Trailing => "dconfdb show 'ii' numbers.au",
            Word::NoFile => "dconfdb read /org/desk/name",
            Word::BadLine => "dconfdb read /org/desk/name",
            Word::ServiceDb => "dconfdb read /org/desk/name",
            Word::UserNotFirst => "dconfdb read /org/desk/name",
            Word::TooMany => "dconfdb read /org/desk/name",
            Word::BadDatabase => "dconfdb read /org/desk/name",
            Word::Device => "dconfdb compile site.db site.d",
            Word::TooBig => "dconfdb check core",
            Word::Busy => "dconfdb write /org/desk/size 32",
            Word::Locked => "dconfdb write /org/desk/size 32",
            Word::NoFolder => "dconfdb read --user /org/desk/name",
            Word::NotUtf8 => "dconfdb compile site.db 00-site",
            Word::NoGroup => "dconfdb compile site.db 00-site",
            Word::BadGroup => "dconfdb compile site.db 00-site",
            Word::BadKeyName => "dconfdb compile site.db 00-site",
            Word::LockNotKey => "dconfdb compile site.db --locks locks 00-site",
            Word::Short => "dconfdb check numbers.au",
            Word::BadVersion => "dconfdb check next.db",
            Word::BadRoot => "dconfdb check cut.db",
            Word::BadTable => "dconfdb check cut.db",
            Word::S1 => "dconfdb check hash.db",
            Word::S2 => "dconfdb check hash.db",
            Word::S3 => "dconfdb check hash.db",
            Word::S4 => "dconfdb check hash.db",
            Word::S5 => "dconfdb check hash.db",
            Word::S6 => "dconfdb check hash.db",
            Word::S7 => "dconfdb check hash.db",
            Word::S8 => "dconfdb check hash.db",
            Word::S9 => "dconfdb check hash.db",
            Word::S10 => "dconfdb check hash.db",
            Word::S11 => "dconfdb check hash.db",
            Word::NotWritable => "dconfdb write -p site /org/desk/size 32",
            Word::NoSchemas => "dconfdb lint 00-site",
        }
    }

    /// What was said then.
    pub fn answer(self) -> &'static str
        ensures { result.now ≡ answer_of self }
    {
        match self {
            Word::NotAbsolute => "error: NotAbsolute",
            Word::HasNul => "HasNul",
            Word::DoubleSlash => "error: DoubleSlash",
            Word::EndsInSlash => "error: EndsInSlash",
            Word::NoEndSlash => "error: NoEndSlash",
            Word::TooLong => "error: TooLong",
            Word::BadToken => "error: BadToken at 0..4",
            Word::Unclosed => "error: Unclosed at 0..1",
            Word::BadEscape => "error: BadEscape at 1..5",
            Word::Unexpected => "error: Unexpected at 3..4",
            Word::TooDeep => "error: TooDeep at 128",
            Word::DoubleText => "error: DoubleText at 0..3",
            Word::NoCommonType => "error: NoCommonType",
            Word::Ambiguous => "error: Ambiguous",
            Word::OutOfRange => "error: OutOfRange",
            Word::BadObjectPath => "error: BadObjectPath",
            Word::BadSignature => "error: BadSignature",
            Word::TooLarge => "error: TooLarge /org/desk/deep",
            Word::Empty => "error: Empty at 0",
            Word::BadChar => "error: BadChar at 1",
            Word::KeyNotBasic => "error: KeyNotBasic at 2",
            Word::Trailing => "error: Trailing at 1",
            Word::NoFile => "error: NoFile profile",
            Word::Device => "error: Device site.d",
            Word::TooBig => "error: TooBig",
            Word::Busy => "error: Busy me.user",
            Word::NoFolder => "error: NoFolder",
            Word::NotUtf8 => "error: 00-site:2: NotUtf8",
            Word::BadLine => "error: profile:2: BadLine",
            Word::ServiceDb => "error: profile:1: ServiceDb",
            Word::UserNotFirst => "error: profile:2: UserNotFirst",
            Word::TooMany => "error: profile:65: TooMany",
            Word::NoGroup => "error: 00-site:1: NoGroup",
            Word::BadGroup => "error: 00-site:1: BadGroup",
            Word::BadKeyName => "error: 00-site:2: BadKeyName",
            Word::LockNotKey => "error: locks:1: LockNotKey",
            Word::BadDatabase => "error: BadDatabase 1: Short",
            Word::Short => "error: Short",
            Word::BadVersion => "error: BadVersion",
            Word::BadRoot => "error: BadRoot",
            Word::BadTable => "error: BadTable",
            Word::S1 => "unsound: S1",
            Word::S2 => "unsound: S2 item 1",
            Word::S3 => "unsound: S3 item 1",
            Word::S4 => "unsound: S4 item 1",
            Word::S5 => "unsound: S5 item 1",
            Word::S6 => "unsound: S6 item 1",
            Word::S7 => "unsound: S7 item 1",
            Word::S8 => "unsound: S8 item 1",
            Word::S9 => "unsound: S9 item 1",
            Word::S10 => "unsound: S10 item 1",
            Word::S11 => "unsound: S11 item 1",
            Word::NotWritable => "error: NotWritable",
            Word::Locked => "error: Locked /org/desk/size",
            Word::Memory => "error: Memory",
            Word::NoSchemas => "error: NoSchemas /usr/share/glib-2.0/schemas: WHY",
        }
    }

    /// What to do about it.
    pub fn cure(self) -> &'static str
        ensures { result.now ≡ cure_of self }
    {
        match self {
            Word::NotAbsolute => "write the path from the root: /org/desk/name",
            Word::HasNul => "leave the zero byte out; a shell hands none on",
            Word::DoubleSlash => "write one slash between two names",
            Word::EndsInSlash =>
                "name a key, as /org/desk/name; dump and list take a directory, and reset -f resets all keys below one",
            Word::NoEndSlash => "add the slash: /org/desk/",
            Word::TooLong => "take shorter names, or fewer directories",
            Word::BadToken =>
                "give a text quotes of its own, as \"'hello'\"; the numbers are the first byte at fault and the one after the last, from 0",
            Word::Unclosed => "close it; the numbers say where it was opened, from 0",
            Word::BadEscape =>
                "double a backslash that stands for itself; after \\u come four hexadecimal digits, after \\U eight",
            Word::Unexpected =>
                "put commas between elements and colons behind the keys of a dictionary; the numbers say where it stands, from 0",
            Word::TooDeep => "nest it less deep",
            Word::DoubleText =>
                "use an integer or a text; dump and load --skip-doubles leave doubles out and name them",
            Word::NoCommonType => "give all elements one type, or use a tuple: (1, 'a')",
            Word::Ambiguous => "write the type before it: '@as []' is an empty list of texts",
            Word::OutOfRange =>
                "write the type before it, as in 'int64 3000000000' or 'uint32 3000000000', or take a smaller number",
            Word::BadObjectPath =>
                "let it start with '/', with names of letters, digits and '_' between single slashes, and none at the end",
            Word::BadSignature =>
                "write complete types after each other, as in \"signature 'a{sv}u'\"; a file that is no database has to be made anew",
            Word::TooLarge => "store a value of at most 127 levels and 4,294,967,295 bytes",
            Word::Empty => "name a type, as in: dconfdb show au numbers.au",
            Word::BadChar =>
                "types are letters such as s, i, u, b and v, with a, m, ( ) and { } around them",
            Word::KeyNotBasic => "take a basic type for the key, as in a{sv}",
            Word::Trailing => "put several types in brackets: (ii)",
            Word::NoFile =>
                "make the file, or name another; where it is a profile, --user works on your own store and --store FOLDER on that in FOLDER",
            Word::Device =>
                "look at the reason that the system gives, at the rights of the file and of its folder, and at the room on the disk",
            Word::TooBig =>
                "split it: a keyfile, a profile and a value have at most 16,777,216 bytes, a database 4,294,967,295",
            Word::Busy =>
                "try again; nothing was done. 'fuser -v .lock' in that folder names who holds it",
            Word::NoFolder =>
                "set HOME, XDG_CONFIG_HOME or DCONFDB_STORE, or name the store's folder by --store",
            Word::NotUtf8 => "save the file in UTF-8",
            Word::BadLine =>
                "write user-db:NAME, system-db:NAME or file-db:PATH in a profile, and NAME=VALUE below a group in a keyfile",
            Word::ServiceDb => "name a user-db in its place",
            Word::UserNotFirst => "move the user-db to the first line; a profile has one at most",
            Word::TooMany => "put the settings of several databases into one",
            Word::NoGroup => "write a group above it, as in [org/desk], or [/] for the root",
            Word::BadGroup =>
                "write the directory without a slash at either end: [org/desk]; the root is [/]",
            Word::BadKeyName =>
                "put the directories into the group above, and write the name alone before the '='",
            Word::LockNotKey =>
                "write the path of a key, as /org/desk/name, or of a directory, as /org/desk/",
            Word::BadDatabase =>
                "make a site's database anew by update or compile; of a user's, 'dconfdb repair me.user me.user' saves what can be read",
            Word::Short => "remove it, or make it anew from its sources by update or compile",
            Word::BadVersion => "make it anew from its sources by update or compile",
            Word::BadRoot => "make it anew from its sources by update or compile",
            Word::BadTable => "make it anew from its sources by update or compile",
            Word::S1 =>
                "'dconfdb repair FILE OUT' makes a sound database of what can be read; or make it anew by update or compile",
            Word::S2 =>
                "'dconfdb repair FILE OUT' makes a sound database of what can be read; or make it anew by update or compile",
            Word::S3 =>
                "'dconfdb repair FILE OUT' makes a sound database of what can be read; or make it anew by update or compile",
            Word::S4 =>
                "'dconfdb repair FILE OUT' makes a sound database of what can be read; or make it anew by update or compile",
            Word::S5 =>
                "'dconfdb repair FILE OUT' makes a sound database of what can be read; or make it anew by update or compile",
            Word::S6 =>
                "'dconfdb repair FILE OUT' makes a sound database of what can be read; or make it anew by update or compile",
            Word::S7 =>
                "'dconfdb repair FILE OUT' makes a sound database of what can be read; or make it anew by update or compile",
            Word::S8 =>
                "'dconfdb repair FILE OUT' makes a sound database of what can be read; or make it anew by update or compile",
            Word::S9 =>
                "'dconfdb repair FILE OUT' makes a sound database of what can be read; or make it anew by update or compile",
            Word::S10 =>
                "'dconfdb repair FILE OUT' makes a sound database of what can be read; or make it anew by update or compile",
            Word::S11 =>
                "'dconfdb repair FILE OUT' makes a sound database of what can be read; or make it anew by update or compile",
            Word::NotWritable =>
                "begin the profile with a line such as user-db:me, or change the site's keyfiles and run update",
            Word::Locked =>
                "'dconfdb explain KEY' names the database that locks it; its administrator can take the lock away",
            Word::Memory =>
                "end other programs, or raise the limit (ulimit -v), and try again; nothing was done",
            Word::NoSchemas =>
                "install the schemas of the programs, or name a folder of compiled ones by --schemas",
        }
    }

    /// What it is said of.
    pub fn about(self) -> About
        ensures { result ≡ about self }
    {
        match self {
            Word::NotAbsolute => About::Path,
            Word::HasNul => About::Path,
            Word::DoubleSlash => About::Path,
            Word::EndsInSlash => About::Path,
            Word::NoEndSlash => About::Path,
            Word::TooLong => About::Path,
            Word::BadToken => About::Value,
            Word::Unclosed => About::Value,
            Word::BadEscape => About::Value,
            Word::Unexpected => About::Value,
            Word::TooDeep => About::Value,
            Word::DoubleText => About::Value,
            Word::NoCommonType => About::Value,
            Word::Ambiguous => About::Value,
            Word::OutOfRange => About::Value,
            Word::BadObjectPath => About::Value,
            Word::BadSignature => About::Value,
            Word::TooLarge => About::Value,
            Word::Empty => About::Type,
            Word::BadChar => About::Type,
            Word::KeyNotBasic => About::Type,
            Word::Trailing => About::Type,
            Word::NoFile => About::File,
            Word::Device => About::File,
            Word::TooBig => About::File,
            Word::Busy => About::File,
            Word::NoFolder => About::Process,
            Word::NotUtf8 => About::Line,
            Word::BadLine => About::Line,
            Word::ServiceDb => About::Line,
            Word::UserNotFirst => About::Line,
            Word::TooMany => About::Line,
            Word::NoGroup => About::Line,
            Word::BadGroup => About::Line,
            Word::BadKeyName => About::Line,
            Word::LockNotKey => About::Line,
            Word::BadDatabase => About::Database,
            Word::Short => About::Database,
            Word::BadVersion => About::Database,
            Word::BadRoot => About::Database,
            Word::BadTable => About::Database,
            Word::S1 => About::Rule,
            Word::S2 => About::Rule,
            Word::S3 => About::Rule,
            Word::S4 => About::Rule,
            Word::S5 => About::Rule,
            Word::S6 => About::Rule,
            Word::S7 => About::Rule,
            Word::S8 => About::Rule,
            Word::S9 => About::Rule,
            Word::S10 => About::Rule,
            Word::S11 => About::Rule,
            Word::NotWritable => About::Change,
            Word::Locked => About::Change,
            Word::Memory => About::Process,
            Word::NoSchemas => About::Process,
        }
    }
}
