//! What a program is told of an errno, whose call of the library failed.
ghost use Rattle.std.specs.Prelude.{◌≡◌};
ghost use Rattle.dconf_verdicts.specs.Errnos.{code_of, file_told, is_list_refused, told_of};

/// By what it is told.
#[derive(Clone, Copy)]
pub enum Told {
    /// No memory is left.
    Memory,
    /// A file has more bytes than it may have.
    TooLarge,
    /// A call of the system failed, by that errno.
    System,
    /// Others had the lock for as long as it was waited for.
    Busy,
}

/// What is told of a fault of a file, or of the lock by which programs take turns.
pub fn told_of(of_lock: bool, errno: u32) -> Told
    ensures { result ≡ told_of of_lock errno }
{
    if of_lock && errno == 11 {
        return Told::Busy;
    }
    file_told(errno)
}

/// The code that the library's header has for it: 1 memory, 18 too large, 64 the system's, 65 busy.
pub fn told_code(of_lock: bool, errno: u32) -> u32
    ensures { result ≡ code_of (told_of of_lock errno) }
{
    match told_of(of_lock, errno) {
        Told::Memory => 1,
        Told::TooLarge => 18,
        Told::System => 64,
        Told::Busy => 65,
    }
}

/// Whether that code, of what was wrong with the profile, keeps the files of a store from being listed.
pub fn is_list_refused(code: u32) -> bool
    ensures { result ≡ is_list_refused code }
{
    code == 1
}

fn file_told(errno: u32) -> Told
    ensures { result ≡ file_told errno }
{
    match errno {
        12 => Told::Memory,
        75 => Told::TooLarge,
        _ => Told::System,
    }
}
