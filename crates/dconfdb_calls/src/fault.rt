//! Why a call has no answer, and how that is told to C.
ghost use Rattle.std.specs.Prelude.{◌≡◌, ◌≢◌, IfSome, None};
ghost use Rattle.dconfdb_calls.specs.Numbers.{IsNumber, number_of, text_of};

/// Why a call has no answer. C is told its number; 0 is none.
#[derive(Clone, Copy, Debug, PartialEq, Eq)]
pub enum Fault {
    /// An allocation failed.
    Memory,
    /// A file has fewer bytes than a header.
    Short,
    /// It does not start as a database does.
    BadSignature,
    /// It has a version other than 0.
    BadVersion,
    /// It has no root table.
    BadRoot,
    /// Its root table does not fit.
    BadTable,
    /// It breaks a rule of sound databases.
    Unsound,
    /// A profile is not UTF-8.
    NotText,
    /// A line of a profile names no database.
    BadLine,
    /// It names a service.
    ServiceDb,
    /// It names a user's database after another.
    UserNotFirst,
    /// It names the 65th database.
    TooMany,
    /// A path is not a key's, or not a directory's.
    BadPath,
    /// A type text spells no type.
    BadType,
    /// The layers have no user's database.
    NotWritable,
    /// A key is locked.
    Locked,
    /// A value is nested too deep, or has too many bytes.
    TooLarge,
    /// A database would have over 4,294,967,295 bytes.
    TooBig,
    /// A value's bytes are not in normal form at its type.
    BadValue,
}

impl Fault {
    /// The number that C is told.
    pub fn number(self) -> u32
        ensures number { result ≡ number_of self }
        ensures some { result ≢ 0 }
    {
        match self {
            Fault::Memory => 1,
            Fault::Short => 2,
            Fault::BadSignature => 3,
            Fault::BadVersion => 4,
            Fault::BadRoot => 5,
            Fault::BadTable => 6,
            Fault::Unsound => 7,
            Fault::NotText => 8,
            Fault::BadLine => 9,
            Fault::ServiceDb => 10,
            Fault::UserNotFirst => 11,
            Fault::TooMany => 12,
            Fault::BadPath => 13,
            Fault::BadType => 14,
            Fault::NotWritable => 15,
            Fault::Locked => 16,
            Fault::TooLarge => 17,
            Fault::TooBig => 18,
            Fault::BadValue => 20,
        }
    }

    /// The fault of a number; None if no fault has it.
    pub fn of_number(number: u32) -> Option<Fault>
        ensures fault { IfSome result (λ fault. number_of fault ≡ number) }
        ensures none { result ≡ None → ¬ IsNumber number }
    {
        match number {
            1 => Some(Fault::Memory),
            2 => Some(Fault::Short),
            3 => Some(Fault::BadSignature),
            4 => Some(Fault::BadVersion),
            5 => Some(Fault::BadRoot),
            6 => Some(Fault::BadTable),
            7 => Some(Fault::Unsound),
            8 => Some(Fault::NotText),
            9 => Some(Fault::BadLine),
            10 => Some(Fault::ServiceDb),
            11 => Some(Fault::UserNotFirst),
            12 => Some(Fault::TooMany),
            13 => Some(Fault::BadPath),
            14 => Some(Fault::BadType),
            15 => Some(Fault::NotWritable),
            16 => Some(Fault::Locked),
            17 => Some(Fault::TooLarge),
            18 => Some(Fault::TooBig),
            20 => Some(Fault::BadValue),
            _ => None,
        }
    }

    /// What it says.
    pub fn text(self) -> &'static str
        ensures { result.now ≡ text_of self }
    {
        match self {
            Fault::Memory => "no memory is left",
            Fault::Short => "the file is shorter than a database's header",
            Fault::BadSignature => "the file does not start as a database does",
            Fault::BadVersion => "the database has a version other than 0",
            Fault::BadRoot => "the database has no root table",
            Fault::BadTable => "the database's root table does not fit",
            Fault::Unsound => "the database breaks a rule of sound databases",
            Fault::NotText => "the profile is not UTF-8",
            Fault::BadLine => "a line of the profile names no database",
            Fault::ServiceDb => "a line of the profile names a service-db",
            Fault::UserNotFirst =>
                "a line of the profile names a user-db that is not the first database",
            Fault::TooMany => "a line of the profile names the 65th database",
            Fault::BadPath => "the path is not one of a key, or of a directory",
            Fault::BadType => "the type text spells no type",
            Fault::NotWritable => "there is no user's database",
            Fault::Locked => "the key is locked",
            Fault::TooLarge => "the value is nested too deep or too long",
            Fault::TooBig => "the database would have over 4294967295 bytes",
            Fault::BadValue => "the value's bytes are not in normal form at its type",
        }
    }
}
