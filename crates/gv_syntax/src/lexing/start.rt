//! What kind of token begins with a character.
ghost use Rattle.std.specs.Prelude.{◌≡◌, ◌<◌, ℕ, List, ◌∷◌, length};
ghost use Rattle.gv_model.specs.Lexing.{start};
ghost use Rattle.gv_syntax.specs.LexSteps.{start_kind, BeginsSo};

use crate::lexing::bytes::{is_quote, is_sign};

/// What kind of token begins.
#[derive(Clone, Copy)]
pub(crate) enum Start {
    OfText,
    OfByteString,
    OfWord,
    OfNumber,
    OfType,
    OfMark,
}

impl Start {
    /// What begins at the start of a text, which is not empty.
    pub(crate) fn of(text: &[u8]) -> Start
        requires { 0 < length text.now }
        ensures start { (c : ℕ) (cs : List ℕ) → text.now ≡ c ∷ cs → start_kind result ≡ start c cs }
        ensures first { BeginsSo result text.now }
    {
        let c = text[0];
        if is_quote(c) {
            Start::OfText
        } else if c == b'b' && text.len() > 1 && is_quote(text[1]) {
            Start::OfByteString
        } else if c.is_ascii_alphabetic() {
            Start::OfWord
        } else if c.is_ascii_digit() || is_sign(c) || c == b'.' {
            Start::OfNumber
        } else if c == b'@' {
            Start::OfType
        } else {
            Start::OfMark
        }
    }
}
