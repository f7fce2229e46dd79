//! Where the reading of a text has come.
ghost use Rattle.std.specs.Prelude.{◌≡◌, ◌<◌, ◌+◌, ◌∷◌, [], IfSome, IfNone, length};
ghost use Rattle.dconf_model.specs.Lines.{lines_of};

use crate::lines::split_line;

/// Where the reading of a text has come. It is C's to keep.
#[repr(C)]
#[derive(Clone, Copy)]
pub struct Cursor<'a> {
    /// What isn't read yet.
    pub rest: &'a [u8],
    /// The group of the lines that come, if they are in one.
    pub group: &'a [u8],
    /// How many lines were read: so it is the number of the last one, from 1 on.
    pub line: usize,
    /// 0: no line in brackets was read. 1: the last one names the group. 2 and more: it names none.
    pub place: u32,
}

impl<'a> Cursor<'a> {
    /// At the start of a text.
    pub fn new(text: &'a [u8]) -> Cursor<'a>
        ensures rest { result.rest.now ≡ text.entry.now }
        ensures line { result.line ≡ 0 }
        ensures place { result.place ≡ 0 }
    {
        Cursor {
            rest: text,
            group: b"",
            line: 0,
            place: 0,
        }
    }

    /// Goes on to the next line, if there is one.
    pub(crate) fn take_line(&mut self) -> Option<&'a [u8]>
        ensures some { IfSome result (λ line. lines_of self.old.rest.now ≡ line.now ∷ lines_of self.new.rest.now) }
        ensures shorter { IfSome result (λ _. length self.new.rest.now < length self.old.rest.now) }
        ensures counted { IfSome result (λ _. self.old.line < 18446744073709551615 → self.new.line ≡ self.old.line + 1) }
        ensures place { (self.new.group ≡ self.old.group) × (self.new.place ≡ self.old.place) }
        ensures none { IfNone result (lines_of self.old.rest.now ≡ []) }
        ensures kept { IfNone result (self.new ≡ self.old) }
    {
        if self.rest.is_empty() {
            return None;
        }
        let (line, rest) = split_line(self.rest);
        self.rest = rest;
        self.line = self.line.saturating_add(1);
        Some(line)
    }
}
