//! The words of a command as paths and values. They are looked at before anything is read.
ghost use Rattle.std.specs.Prelude.{◌≡◌, Err, IfErr, IfOk, None, Ok, OnOk};
ghost use Rattle.dconf_model.specs.Outcomes.{OrCause, UnlessFault, value_of_word};
ghost use Rattle.dconf_model.specs.Paths.{directory_fault, key_fault};
ghost use Rattle.dconf_path.specs.Paths.{directory_text, key_text};
ghost use Rattle.dconf_compile.specs.CompileFaults.{cause_of};
ghost use Rattle.dconf_streams.specs.Answers.{GivesOutcome, NoOutcome};
ghost use Rattle.dconf_commands.specs.Refusals.{NoValue, RefusedCause};

use dconf_compile::{CompileCause, value_of_text};
use dconf_path::{DirPath, KeyPath, MAX_TEXT_LEN};
use dconf_streams::{Refusal, refused};
use gv_tree::Tree;
use std::alloc::Global;

/// The path of a key that a word spells.
pub fn key_argument<'a>(alloc: Global, word: &'a str) -> Result<KeyPath<'a>, Refusal>
    ensures ok { IfOk result (λ key. key_text key ≡ word.entry.now) }
    ensures faultless { OnOk result (key_fault word.entry.now ≡ None) }
    ensures err { IfErr result (λ refusal. GivesOutcome (Err refusal) (UnlessFault (key_fault word.entry.now) NoOutcome)) }
{
    match KeyPath::parse(word) {
        Ok(key) => Ok(key),
        Err(fault) => Err(refused(alloc, fault)),
    }
}

/// The path of a directory that a word spells.
pub fn directory_argument<'a>(alloc: Global, word: &'a str) -> Result<DirPath<'a>, Refusal>
    ensures ok { IfOk result (λ directory. directory_text directory ≡ word.entry.now) }
    ensures faultless { OnOk result (directory_fault word.entry.now ≡ None) }
    ensures err { IfErr result (λ refusal. GivesOutcome (Err refusal) (UnlessFault (directory_fault word.entry.now) NoOutcome)) }
{
    match DirPath::parse(word) {
        Ok(directory) => Ok(directory),
        Err(fault) => Err(refused(alloc, fault)),
    }
}

/// The value that a word spells, or the refusal of its text. A word of over 16,777,216 bytes isn't read.
pub(crate) fn value_argument(alloc: Global, text: &str) -> Result<Tree, Refusal>
    ensures ok { IfOk result (λ v. value_of_word text.now ≡ Ok v) }
    ensures err { IfErr result (λ refusal. GivesOutcome (Err refusal) (OrCause (value_of_word text.now) NoValue)) }
{
    if text.len() > MAX_TEXT_LEN {
        return Err(refused(alloc, CompileCause::TooBig));
    }
    match value_of_text(alloc, text) {
        Ok(value) => Ok(value),
        Err(cause) => Err(refused_for(alloc, cause)),
    }
}

/// The refusal that says what is wrong with a text.
fn refused_for(alloc: Global, cause: CompileCause) -> Refusal
    ensures { GivesOutcome (Err result) (RefusedCause (cause_of cause)) }
{
    match cause {
        CompileCause::Memory => Refusal::Memory,
        _ => refused(alloc, cause),
    }
}
