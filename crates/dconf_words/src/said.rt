//! A line of a refusal, read back.
ghost use Rattle.std.specs.Prelude.{◌≡◌, option_map, ◌==◌};
ghost use Rattle.std.specs.List.{before_first, after_first};
ghost use Rattle.dconf_words.specs.Refusals.{parts_of, said_in, said_first, said_behind, why_of};

use crate::word::Word;

/// What a refusal says: `PLACE WORD REST`, where PLACE, such as `FILE:LINE:`, may be missing, and REST too.
#[derive(Clone, Copy, Debug)]
pub struct Said<'a> {
    pub word: Word,
    /// What stands before the word, up to the blank there.
    pub place: &'a str,
    /// What comes after the blank behind it.
    pub rest: &'a str,
}

impl<'a> Said<'a> {
    /// What a refusal says, which is handed in without its `error: ` and its line feed: its first part between blanks is a word, or else its
    /// second one. None is said of other texts.
    pub fn read(text: &'a str) -> Option<Said<'a>>
        ensures { option_map parts_of result ≡ said_in text.entry.now }
    {
        let (first, behind) = cut(text);
        match Word::of(first) {
            Some(word) => Some(Said {
                word,
                place: "",
                rest: behind,
            }),
            None => read_behind(first, behind),
        }
    }

    /// The word that says more: of a damaged database the fault of its file.
    pub fn why(self) -> Option<Word>
        ensures { result ≡ why_of (parts_of self.entry) }
    {
        match self.word {
            Word::BadDatabase => {
                let (_, why) = cut(self.rest);
                Some(Said::read(why)?.word)
            }
            _ => None,
        }
    }
}

/// What is said behind a place.
fn read_behind<'a>(place: &'a str, behind: &'a str) -> Option<Said<'a>>
    ensures { option_map parts_of result ≡ said_behind place.entry.now behind.entry.now }
{
    let (second, rest) = cut(behind);
    match Word::of(second) {
        Some(word) => Some(Said { word, place, rest }),
        None => None,
    }
}

/// What comes before the first blank, and what behind it.
fn cut(text: &str) -> (&str, &str)
    ensures before { result.0.now ≡ before_first (λ c. c == 32) text.entry.now }
    ensures behind { result.1.now ≡ after_first (λ c. c == 32) text.entry.now }
{
    match text.split_once(' ') {
        Some((before, behind)) => (before, behind),
        None => (text, ""),
    }
}
