//! Keyfiles and lock files, line by line.
ghost use Rattle.std.specs.Prelude.{◌≡◌, ◌<◌, ◌+◌, ◌∷◌, [], false, if◌then◌else◌, IsTrue};
ghost use Rattle.keyfile_lines.specs.Answers.{Answer};
ghost use Rattle.keyfile_lines.specs.Cursors.{keyfile_answers, lock_answers};
ghost use Rattle.keyfile_lines.specs.Told.{IsTold};

use keyfile_lines::{Cursor, ToldLine};

/// What the next line of a keyfile says, or of a lock file, whatever is wrong with those before it: the answers are, one after
/// another, those of all lines that are left. False if there is none, and then nothing changes.
#[unsafe(no_mangle)]
pub extern "C" fn dconfdb_line<'a>(
    is_of_locks: bool,
    cursor: &mut Cursor<'a>,
    line: &mut ToldLine<'a>,
) -> bool
    ensures told { IsTrue result → (answer : Answer) × ((if is_of_locks then lock_answers cursor.old else keyfile_answers cursor.old) ≡ answer ∷ (if is_of_locks then lock_answers cursor.new else keyfile_answers cursor.new)) × IsTold answer line.new }
    ensures counted { IsTrue result → cursor.old.line < 18446744073709551615 → cursor.new.line ≡ cursor.old.line + 1 }
    ensures none { result ≡ false → (if is_of_locks then lock_answers cursor.old else keyfile_answers cursor.old) ≡ [] }
    ensures kept { result ≡ false → (cursor.new ≡ cursor.old) × (line.new ≡ line.old) }
{
    if is_of_locks {
        lock_line(cursor, line)
    } else {
        keyfile_line(cursor, line)
    }
}

fn keyfile_line<'a>(cursor: &mut Cursor<'a>, line: &mut ToldLine<'a>) -> bool
    ensures told { IsTrue result → (answer : Answer) × (keyfile_answers cursor.old ≡ answer ∷ keyfile_answers cursor.new) × IsTold answer line.new }
    ensures counted { IsTrue result → cursor.old.line < 18446744073709551615 → cursor.new.line ≡ cursor.old.line + 1 }
    ensures none { result ≡ false → keyfile_answers cursor.old ≡ [] }
    ensures kept { result ≡ false → (cursor.new ≡ cursor.old) × (line.new ≡ line.old) }
{
    match cursor.next_of_keyfile() {
        Some(said) => {
            *line = ToldLine::of(said);
            true
        }
        None => false,
    }
}

fn lock_line<'a>(cursor: &mut Cursor<'a>, line: &mut ToldLine<'a>) -> bool
    ensures told { IsTrue result → (answer : Answer) × (lock_answers cursor.old ≡ answer ∷ lock_answers cursor.new) × IsTold answer line.new }
    ensures counted { IsTrue result → cursor.old.line < 18446744073709551615 → cursor.new.line ≡ cursor.old.line + 1 }
    ensures none { result ≡ false → lock_answers cursor.old ≡ [] }
    ensures kept { result ≡ false → (cursor.new ≡ cursor.old) × (line.new ≡ line.old) }
{
    match cursor.next_of_locks() {
        Some(said) => {
            *line = ToldLine::of(said);
            true
        }
        None => false,
    }
}
