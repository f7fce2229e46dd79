//! Words (GLib, "GVariant Text Format", Syntax Summary).
ghost use Rattle.std.specs.Prelude.{◌≡◌, ◌+◌, ℕ, drop, length, option_map};
ghost use Rattle.gv_model.specs.Characters.{same_text};
ghost use Rattle.gv_model.specs.Words.{words, word_among, word_at};
ghost use Rattle.gv_syntax.specs.ModelTokens.{word_of};
ghost use Rattle.gv_syntax.specs.NumberChars.{named_type};
ghost use Rattle.gv_syntax.specs.LexSteps.{placed_as};

use crate::fault::TextCause;
use crate::lexing::numeral::is_double_word;
use crate::token::{TokenKind, Word};
use gv_types::BasicType;

/// The token that a word is, or why it is none.
pub(crate) fn word(text: &[u8]) -> Result<TokenKind, TextCause>
    ensures { (at : ℕ) → word_at at text.now ≡ placed_as result at (at + length text.now) }
{
    match known_word(text) {
        Some(word) => Ok(TokenKind::Word(word)),
        None if is_double_word(text) || is_word(text, "double") => Err(TextCause::DoubleText),
        None => Err(TextCause::BadToken),
    }
}

/// The word that a text is, if it is one that has a meaning.
#[tactic(auto, unfolding(gv_model::specs::Words::word_among))]
fn known_word(text: &[u8]) -> Option<Word>
    ensures { option_map word_of result ≡ word_among words text.now }
{
    if is_word(text, "true") {
        Some(Word::Truth(true))
    } else if is_word(text, "false") {
        Some(Word::Truth(false))
    } else if is_word(text, "just") {
        Some(Word::Just)
    } else if is_word(text, "nothing") {
        Some(Word::Nothing)
    } else {
        type_word(text).map(Word::Type)
    }
}

/// The types that words name. `double` is none of the words.
const NAMED: [BasicType; 12] = [
    BasicType::Boolean,
    BasicType::Byte,
    BasicType::Int16,
    BasicType::Uint16,
    BasicType::Int32,
    BasicType::Uint32,
    BasicType::Handle,
    BasicType::Int64,
    BasicType::Uint64,
    BasicType::Text,
    BasicType::ObjectPath,
    BasicType::Signature,
];

/// The type that a word names.
fn type_word(text: &[u8]) -> Option<BasicType>
    ensures { option_map named_type result ≡ word_among (drop 4 words) text.now }
{
    NAMED.iter().copied().find(|of| is_word(text, of.keyword()))
}

/// Whether the text is this word.
pub(crate) fn is_word(text: &[u8], word: &str) -> bool
    ensures same { result ≡ same_text word.now text.now }
    ensures swapped { result ≡ same_text text.now word.now }
{
    word.as_bytes() == text
}
