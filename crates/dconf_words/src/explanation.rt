//! What is said of a refusal to a person.
ghost use Rattle.std.specs.Prelude.{◌≡◌, ◌++◌, IfOk, OnOk, string_bytes};
ghost use Rattle.dconf_words.specs.Explanations.{advice_lines, cure_by, explanation, facts_of, is_control, is_plain, known_lines, labelled, labelled_if_any, meaning_lines, more_line, page, titled, titled_if_any};

use crate::word::Word;
use std::alloc::{AllocError, Global};
use std::fmt::Write;

/// What a remedy depends on, beside the word.
#[derive(Clone, Copy, Debug, PartialEq, Eq)]
pub enum Hint {
    Nothing,
    /// The file that isn't there is the profile in the current folder.
    NoStore,
    /// What can't be read as a file is a folder.
    Folder,
    /// The line at fault has a `#` behind something else.
    Comment,
    /// The file at fault begins with a byte order mark.
    Mark,
}

/// What is known of a refusal, beside its word. What nobody knows is empty.
#[derive(Clone, Copy, Debug)]
pub struct Facts<'a> {
    /// A word that says more, as of a damaged database the fault of its file.
    pub why: Option<Word>,
    /// The whole path of the file, with its line.
    pub file: &'a str,
    /// What the line says.
    pub line: &'a str,
    /// The word of the command line at fault.
    pub argument: &'a str,
    /// Why the system refused.
    pub reason: &'a str,
    pub hint: Hint,
}

impl Word {
    /// What is said below the line of a refusal: in words what is wrong, where, why, and what to do. What has a control character in it is
    /// left out, since it might do something to a terminal.
    pub fn explanation(self, alloc: Global, facts: &Facts<'_>) -> Result<String, AllocError>
        ensures { IfOk result (λ text. string_bytes text ≡ explanation self (facts_of facts.now)) }
    {
        let mut text = String::new(alloc);
        push_meaning(&mut text, self, facts)?;
        push_known(&mut text, facts)?;
        push_advice(&mut text, self, facts)?;
        Ok(text)
    }

    /// The page of a word: what it means, an example, and what to do.
    pub fn page(self, alloc: Global) -> Result<String, AllocError>
        ensures { IfOk result (λ text. string_bytes text ≡ page self) }
    {
        let name = self.name();
        let meaning = self.meaning();
        let typed = self.typed();
        let answer = self.answer();
        let cure = self.cure();
        format!(in alloc;
            "{name}: {meaning}\n\nExample:\n  {typed}\n  {answer}\n\nTo do:\n  {cure}\n"
        )
    }

    /// What to do, where something more is known.
    fn cure_by(self, hint: Hint) -> &'static str
        ensures { result.now ≡ cure_by self hint }
    {
        match hint {
            Hint::Nothing => self.cure(),
            Hint::NoStore =>
                "this folder is no store: make a profile in it, name another folder by --store FOLDER, or work on your own store by --user",
            Hint::Folder =>
                "it is a folder: name the files in it, or make all databases of a site by 'dconfdb update FOLDER'",
            Hint::Comment =>
                "'#' begins a comment at the start of a line only: put it on a line of its own",
            Hint::Mark => "the file begins with a byte order mark: save it without one",
        }
    }
}

/// Adds what is wrong.
#[tactic(auto, unfolding(crate::specs::Explanations::meaning_lines))]
fn push_meaning(text: &mut String, word: Word, facts: &Facts<'_>) -> Result<(), AllocError>
    ensures { OnOk result (string_bytes text.new ≡ string_bytes text.old ++ meaning_lines word (facts_of facts.now)) }
{
    push_title(text, word)?;
    push_title_if_any(text, facts.why)
}

/// Adds where, and why.
#[tactic(auto, unfolding(crate::specs::Explanations::known_lines))]
fn push_known(text: &mut String, facts: &Facts<'_>) -> Result<(), AllocError>
    ensures { OnOk result (string_bytes text.new ≡ string_bytes text.old ++ known_lines (facts_of facts.now)) }
{
    push_if_any(text, "file", facts.file)?;
    push_if_any(text, "line", facts.line)?;
    push_if_any(text, "argument", facts.argument)?;
    push_if_any(text, "reason", facts.reason)
}

/// Adds what to do, and where more is said.
#[tactic(auto, unfolding(crate::specs::Explanations::advice_lines))]
fn push_advice(text: &mut String, word: Word, facts: &Facts<'_>) -> Result<(), AllocError>
    ensures { OnOk result (string_bytes text.new ≡ string_bytes text.old ++ advice_lines word (facts_of facts.now)) }
{
    push(text, "to do", word.cure_by(facts.hint))?;
    push_more(text, word)
}

/// Adds what a word means, on a line.
fn push_title(text: &mut String, word: Word) -> Result<(), AllocError>
    ensures { OnOk result (string_bytes text.new ≡ string_bytes text.old ++ titled word) }
{
    push(text, word.name(), word.meaning())
}

/// The same, if there is a word.
fn push_title_if_any(text: &mut String, word: Option<Word>) -> Result<(), AllocError>
    ensures { OnOk result (string_bytes text.new ≡ string_bytes text.old ++ titled_if_any word) }
{
    match word {
        Some(word) => push_title(text, word),
        None => Ok(()),
    }
}

/// Adds where more is said.
fn push_more(text: &mut String, word: Word) -> Result<(), AllocError>
    ensures { OnOk result (string_bytes text.new ≡ string_bytes text.old ++ more_line word) }
{
    let name = word.name();
    write!(text, "  more: dconfdb help {name}\n")
}

/// Adds a line, if there is something to say that can't do anything to a terminal.
fn push_if_any(text: &mut String, label: &str, said: &str) -> Result<(), AllocError>
    ensures { OnOk result (string_bytes text.new ≡ string_bytes text.old ++ labelled_if_any label.now said.now) }
{
    if said.is_empty() || !is_plain(said.as_bytes()) {
        return Ok(());
    }
    push(text, label, said)
}

/// Adds a line.
fn push(text: &mut String, label: &str, said: &str) -> Result<(), AllocError>
    ensures { OnOk result (string_bytes text.new ≡ string_bytes text.old ++ labelled label.now said.now) }
{
    text.push_str("  ")?;
    text.push_str(label)?;
    text.push_str(": ")?;
    text.push_str(said)?;
    text.push('\n')
}

/// Whether a text has no control character.
fn is_plain(text: &[u8]) -> bool
    ensures { result ≡ is_plain text.now }
{
    !text.iter().any(|byte| is_control(*byte))
}

/// Whether a byte is a control character.
fn is_control(byte: u8) -> bool
    ensures { result ≡ is_control byte }
{
    byte < 32 || byte == 127
}
