//! Marks, and characters that begin no token.
ghost use Rattle.std.specs.Prelude.{◌≡◌, option_map};
ghost use Rattle.gv_model.specs.Characters.{char_len};
ghost use Rattle.gv_model.specs.Lexing.{mark_of_byte as the_mark};
ghost use Rattle.gv_syntax.specs.ModelTokens.{mark_of};

use crate::token::Mark;

/// The mark that a byte is.
pub(crate) fn mark(c: u8) -> Option<Mark>
    ensures { option_map mark_of result ≡ the_mark c }
{
    match c {
        b'(' => Some(Mark::OpenTuple),
        b')' => Some(Mark::CloseTuple),
        b'[' => Some(Mark::OpenArray),
        b']' => Some(Mark::CloseArray),
        b'{' => Some(Mark::OpenBrace),
        b'}' => Some(Mark::CloseBrace),
        b'<' => Some(Mark::OpenVariant),
        b'>' => Some(Mark::CloseVariant),
        b',' => Some(Mark::Comma),
        b':' => Some(Mark::Colon),
        _ => None,
    }
}

/// How many bytes the character has in UTF-8 that begins with this one.
pub(crate) fn char_len(c: u8) -> usize
    ensures { result ≡ char_len c }
{
    match c {
        0..128 => 1,
        128..224 => 2,
        224..240 => 3,
        _ => 4,
    }
}
