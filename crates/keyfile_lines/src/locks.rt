//! Lock files, line by line.
ghost use Rattle.std.specs.Prelude.{◌≡◌, ◌<◌, ◌+◌, ◌∷◌, [], IfSome, IfNone};
ghost use Rattle.keyfile_lines.specs.Answers.{lock_answer};
ghost use Rattle.keyfile_lines.specs.Cursors.{lock_answers};
ghost use Rattle.keyfile_lines.specs.Sayings.{answer_said};

use crate::cursor::Cursor;
use crate::fault::LineFault;
use crate::lines::Line;
use crate::said::Said;
use dconf_path::LockPath;

impl<'a> Cursor<'a> {
    /// What the next line of a lock file says; None if there is none. The answers, one after another, are those of the lines that are left.
    pub fn next_of_locks(&mut self) -> Option<Said<'a>>
        ensures some { IfSome result (λ said. lock_answers self.old ≡ answer_said said ∷ lock_answers self.new) }
        ensures counted { IfSome result (λ _. self.old.line < 18446744073709551615 → self.new.line ≡ self.old.line + 1) }
        ensures none { IfNone result (lock_answers self.old ≡ []) }
        ensures kept { IfNone result (self.new ≡ self.old) }
    {
        let line = self.take_line()?;
        Some(lock_said(line))
    }
}

/// What a line of a lock file says.
fn lock_said(line: &[u8]) -> Said<'_>
    ensures { answer_said result ≡ lock_answer line.entry.now }
{
    let Ok(text) = str::from_utf8(line) else {
        return Said::Fault(LineFault::NotUtf8);
    };
    if text.starts_with("/") {
        return match LockPath::parse(text) {
            Ok(_) => Said::Locks(line),
            Err(_) => Said::Fault(LineFault::LockNotKey),
        };
    }
    match Line::parse(text) {
        Line::Empty => Said::Nothing,
        _ => Said::LocksNothing,
    }
}
