//! What the service does before it serves.
ghost use Rattle.std.specs.Prelude.{◌≡◌};
ghost use Rattle.dconf_served.specs.Begins.{begins_after, begins_number};

/// What is done next, in this order.
#[derive(Clone, Copy)]
pub enum Begins {
    /// Makes the store's folder. A sandbox is given dconf's two only if they are there when it starts.
    MakeFolder,
    /// Makes the folder of the flags that dconf's readers map, in the user's runtime folder.
    MakeFlags,
    /// Opens the database `user`, so that what others change in it is told before anybody writes.
    OpenUser,
    /// It serves.
    Serves,
}

/// What comes next, once the first `done` tasks were done, or were not due. A store of dconf's kind alone has dconf's folders; and where the user has no
/// runtime folder, whose path would have so many bytes, dconf's readers have no flag.
pub fn begins_after(done: u32, is_dconfs: bool, runtime: usize) -> Begins
    ensures { result ≡ begins_after done is_dconfs runtime }
{
    if done < 1 && is_dconfs {
        return Begins::MakeFolder;
    }
    if done < 2 && (is_dconfs && runtime > 0) {
        return Begins::MakeFlags;
    }
    if done < 3 {
        return Begins::OpenUser;
    }
    Begins::Serves
}

/// The same as a number: 1 makes the folder, 2 that of flags, 3 opens the database, 4 serves.
pub fn begins_number(done: u32, is_dconfs: bool, runtime: usize) -> u32
    ensures { result ≡ begins_number (begins_after done is_dconfs runtime) }
{
    match begins_after(done, is_dconfs, runtime) {
        Begins::MakeFolder => 1,
        Begins::MakeFlags => 2,
        Begins::OpenUser => 3,
        Begins::Serves => 4,
    }
}
