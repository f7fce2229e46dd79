//! A folder of files, which counts the failures of its device.
ghost use Rattle.std.specs.Prelude.{◌≡◌, ◌⊎◌, ◌≤◌, ◌∷◌, ℕ, Bool, true, false, List, None, IfOk, IsTrue, OnOk, OnErr, IsErrOf, IfSome, option_map, length};
ghost use Rattle.dconf_model.specs.Folders.{Event, read_content};
ghost use Rattle.dconf_model.specs.Folders.Event.{create, append, sync, touch, rename, remove, link, sync_folder};
ghost use Rattle.dconf_model.specs.Reads.{IsOverSize};
ghost use Rattle.dconf_folders.specs.Asides.{IsSetAside, is_free_for};
ghost use Rattle.dconf_folders.specs.Failures.{HasCause};

use crate::{FolderFault, Old};
use std::alloc::Global;

/// The most bytes that a file may have to be read: the places in a database are numbers of four bytes.
pub const LARGEST_FILE: u64 = 4_294_967_295;

/// A folder of files, by their names. A name is any text; what the host makes of it as a path is the host's matter.
///
/// Who doesn't hold the turn reads alone: each writing call fails then, and does nothing. No call takes the turn, or gives it back.
///
/// A fault may be followed by further calls. After a failed writing call the folder is as it was, or the call has had its
/// effect; after a failed `append` or `sync` the file's bytes count as unsynced. A writing call fails with `Device` alone: `TooBig`
/// can't happen there, and want of memory is a fault of the device too.
pub trait Folder {
    // These events are what was done to the folder, the last first, and nobody else wrote it.
    ghost past: { Self → List Event → Type 0 };

    // What its calls answered so far is true of a folder to which this was done.
    ghost honest: { Self → Bool };

    // Its files may be replaced: whoever has it holds the turn to.
    ghost holds_turn: { Self → Bool };

    // How often the device failed, up to `u64::MAX`.
    ghost failed: { Self → ℕ };

    // The other name of what is set aside is in a folder behind this one, and not shown. No other folder asks for anything to be set aside.
    ghost hides: { Bool };

    /// How often the device failed, up to `u64::MAX`. It never falls, and rises by one where a call answers `Device`.
    fn failures(&self) -> u64
        ensures { result ≡ failed self.now };

    /// The bytes of a file, all of them and held once, or `None` where there is no file of that name. It changes no file.
    ///
    /// `TooBig` comes for a file of more than `LARGEST_FILE` bytes, of which no more are read than show it, `Device` where the
    /// host fails otherwise, and `Memory`. That the name has no file is no error.
    fn read(&mut self, alloc: Global, name: &str) -> Result<Option<Vec<u8>>, FolderFault>
        ensures past { (es : List Event) → past self.old es → past self.new es }
        ensures bytes { IsTrue (honest self.new) → (es : List Event) → past self.old es → IfOk result (λ found. option_map (λ v. v.items) found ≡ read_content es name.now) }
        ensures size { IfOk result (λ found. IfSome found (λ v. length v.items ≤ LARGEST_FILE)) }
        ensures too_big { IsTrue (honest self.new) → (es : List Event) → past self.old es → IsErrOf result FolderFault.TooBig → IsOverSize (read_content es name.now) }
        ensures honest { IsTrue (honest self.new) → IsTrue (honest self.old) }
        ensures turn { holds_turn self.new ≡ holds_turn self.old }
        ensures cause { HasCause (failed self.old) (failed self.new) result };

    /// Takes the turn to replace files. A folder that holds it has it already; any other can't be given it.
    fn take_turn(&mut self) -> Result<(), FolderFault>
        ensures past { (es : List Event) → past self.old es → past self.new es }
        ensures held { OnOk result (holds_turn self.old ≡ true) }
        ensures honest { IsTrue (honest self.new) → IsTrue (honest self.old) }
        ensures turn { holds_turn self.new ≡ holds_turn self.old }
        ensures read_only { holds_turn self.old ≡ false → IsErrOf result FolderFault.Device }
        ensures only { OnErr result (IsErrOf result FolderFault.Device) }
        ensures cause { HasCause (failed self.old) (failed self.new) result };

    /// What has a name that a new file is to take. It reads none of its bytes, and changes nothing.
    fn look(&mut self, name: &str) -> Result<Old, FolderFault>
        ensures past { (es : List Event) → past self.old es → past self.new es }
        ensures aside { IfOk result (λ old. IsSetAside old → hides ≡ true) }
        ensures honest { IsTrue (honest self.new) → IsTrue (honest self.old) }
        ensures turn { holds_turn self.new ≡ holds_turn self.old }
        ensures only { OnErr result (IsErrOf result FolderFault.Device) }
        ensures cause { HasCause (failed self.old) (failed self.new) result };

    /// Makes an empty file, in the place of any other of that name, with those of these permission bits that the host leaves. It never fails for want of a
    /// file. If it fails, it may have removed the other one and made none.
    fn create(&mut self, alloc: Global, name: &str, bits: u32) -> Result<(), FolderFault>
        ensures ok { (es : List Event) → past self.old es → OnOk result (past self.new (create name.now ∷ es)) }
        ensures err { (es : List Event) → past self.old es → OnErr result (past self.new es ⊎ (past self.new (create name.now ∷ es) ⊎ past self.new (remove name.now ∷ es))) }
        ensures honest { IsTrue (honest self.new) → IsTrue (honest self.old) }
        ensures turn { holds_turn self.new ≡ holds_turn self.old }
        ensures read_only { holds_turn self.old ≡ false → IsErrOf result FolderFault.Device }
        ensures untouched { holds_turn self.old ≡ false → (es : List Event) → past self.old es → past self.new es }
        ensures only { OnErr result (IsErrOf result FolderFault.Device) }
        ensures cause { HasCause (failed self.old) (failed self.new) result };

    /// Writes the bytes after those of the file (POSIX, `O_APPEND`). A name without a file is a fault of the device.
    fn append(&mut self, name: &str, bytes: &[u8]) -> Result<(), FolderFault>
        ensures ok { (es : List Event) → past self.old es → OnOk result (past self.new (append name.now bytes.now ∷ es)) }
        ensures err { holds_turn self.old ≡ true → (es : List Event) → past self.old es → OnErr result (past self.new (touch name.now ∷ es) ⊎ past self.new (append name.now bytes.now ∷ es)) }
        ensures missing { IsTrue (honest self.new) → (es : List Event) → past self.old es → read_content es name.now ≡ None → IsErrOf result FolderFault.Device }
        ensures honest { IsTrue (honest self.new) → IsTrue (honest self.old) }
        ensures turn { holds_turn self.new ≡ holds_turn self.old }
        ensures read_only { holds_turn self.old ≡ false → IsErrOf result FolderFault.Device }
        ensures untouched { holds_turn self.old ≡ false → (es : List Event) → past self.old es → past self.new es }
        ensures only { OnErr result (IsErrOf result FolderFault.Device) }
        ensures cause { HasCause (failed self.old) (failed self.new) result };

    /// Gives the file these permission bits, if any, and makes sure that a crash leaves all its bytes (POSIX, `fsync`). A name without a file is a fault
    /// of the device.
    fn sync(&mut self, name: &str, bits: Option<u32>) -> Result<(), FolderFault>
        ensures ok { (es : List Event) → past self.old es → OnOk result (past self.new (sync name.now ∷ es)) }
        ensures err { holds_turn self.old ≡ true → (es : List Event) → past self.old es → OnErr result (past self.new (touch name.now ∷ es)) }
        ensures missing { IsTrue (honest self.new) → (es : List Event) → past self.old es → read_content es name.now ≡ None → IsErrOf result FolderFault.Device }
        ensures honest { IsTrue (honest self.new) → IsTrue (honest self.old) }
        ensures turn { holds_turn self.new ≡ holds_turn self.old }
        ensures read_only { holds_turn self.old ≡ false → IsErrOf result FolderFault.Device }
        ensures untouched { holds_turn self.old ≡ false → (es : List Event) → past self.old es → past self.new es }
        ensures only { OnErr result (IsErrOf result FolderFault.Device) }
        ensures cause { HasCause (failed self.old) (failed self.new) result };

    /// Gives what has this name another one, too: `NAME~1` or the like, that nothing has, or that it has already (POSIX, `link`).
    fn set_aside(&mut self, alloc: Global, name: &str) -> Result<(), FolderFault>
        ensures hidden { hides ≡ true → (es : List Event) → past self.old es → past self.new es }
        ensures ok { hides ≡ false → (es : List Event) → past self.old es → OnOk result ((aside : List ℕ)
            × (IsTrue (honest self.new) → IsTrue (is_free_for name.now aside es)) × past self.new (link name.now aside ∷ es)) }
        ensures any { (es : List Event) → past self.old es → past self.new es ⊎ ((aside : List ℕ) × past self.new (link name.now aside ∷ es)) }
        ensures honest { IsTrue (honest self.new) → IsTrue (honest self.old) }
        ensures turn { holds_turn self.new ≡ holds_turn self.old }
        ensures read_only { holds_turn self.old ≡ false → IsErrOf result FolderFault.Device }
        ensures untouched { holds_turn self.old ≡ false → (es : List Event) → past self.old es → past self.new es }
        ensures only { OnErr result (IsErrOf result FolderFault.Device) }
        ensures cause { HasCause (failed self.old) (failed self.new) result };

    /// Gives the file of one name another, in the place of any other file of that name (POSIX, `rename`). Where `from` has no file
    /// it is a fault of the device.
    fn rename(&mut self, from: &str, to: &str) -> Result<(), FolderFault>
        ensures ok { (es : List Event) → past self.old es → OnOk result (past self.new (rename from.now to.now ∷ es)) }
        ensures err { (es : List Event) → past self.old es → OnErr result (past self.new es ⊎ past self.new (rename from.now to.now ∷ es)) }
        ensures missing { IsTrue (honest self.new) → (es : List Event) → past self.old es → read_content es from.now ≡ None → IsErrOf result FolderFault.Device }
        ensures honest { IsTrue (honest self.new) → IsTrue (honest self.old) }
        ensures turn { holds_turn self.new ≡ holds_turn self.old }
        ensures read_only { holds_turn self.old ≡ false → IsErrOf result FolderFault.Device }
        ensures untouched { holds_turn self.old ≡ false → (es : List Event) → past self.old es → past self.new es }
        ensures only { OnErr result (IsErrOf result FolderFault.Device) }
        ensures cause { HasCause (failed self.old) (failed self.new) result };

    /// Takes a name from its file (POSIX, `unlink`), and says whether it did. It tidies up after a fault, so a failure is not counted.
    fn remove(&mut self, name: &str) -> bool
        ensures done { (es : List Event) → past self.old es → IsTrue result → past self.new (remove name.now ∷ es) }
        ensures any { (es : List Event) → past self.old es → past self.new es ⊎ past self.new (remove name.now ∷ es) }
        ensures honest { IsTrue (honest self.new) → IsTrue (honest self.old) }
        ensures turn { holds_turn self.new ≡ holds_turn self.old }
        ensures read_only { holds_turn self.old ≡ false → result ≡ false }
        ensures untouched { holds_turn self.old ≡ false → (es : List Event) → past self.old es → past self.new es }
        ensures failed { failed self.new ≡ failed self.old };

    /// Makes sure that after a crash each name stands for the file that it stands for now (POSIX, `fsync` of a folder).
    fn sync_folder(&mut self) -> Result<(), FolderFault>
        ensures ok { (es : List Event) → past self.old es → OnOk result (past self.new (sync_folder ∷ es)) }
        ensures err { (es : List Event) → past self.old es → OnErr result (past self.new es) }
        ensures honest { IsTrue (honest self.new) → IsTrue (honest self.old) }
        ensures turn { holds_turn self.new ≡ holds_turn self.old }
        ensures read_only { holds_turn self.old ≡ false → IsErrOf result FolderFault.Device }
        ensures untouched { holds_turn self.old ≡ false → (es : List Event) → past self.old es → past self.new es }
        ensures only { OnErr result (IsErrOf result FolderFault.Device) }
        ensures cause { HasCause (failed self.old) (failed self.new) result };
}
