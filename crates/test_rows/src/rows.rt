//! Tables and scripts, each row of which is asked.
ghost use Rattle.std.specs.Prelude.{◌≡◌, ◌↔◌, IsOk};
ghost use Rattle.std.specs.Str.Parse.{digits_value, without_leading_plus};
ghost use Rattle.test_rows.specs.Words.{IsNumber};

use std::alloc::Global;
use std::test::Fail;

/// What the rows of a text ask.
pub trait Question {
    /// Adds the answer to what a row asks.
    fn answer(&mut self, alloc: Global, asked: &str, found: &mut String) -> Result<(), Fail>;
}

/// The number that a word is, and 0 where it is none.
pub fn number(word: &str) -> u32
    ensures number { IsNumber word.now → result ≡ digits_value 10 (without_leading_plus word.now) }
    ensures none { ¬ IsNumber word.now → result ≡ 0 }
{
    word.parse().unwrap_or(0)
}

/// An error says what was found, if it isn't what is wanted.
pub fn is_so(alloc: Global, asked: &str, found: &str, wanted: &str) -> Result<(), Fail>
    ensures { IsOk result ↔ (found.now ≡ wanted.now) }
{
    if found == wanted {
        Ok(())
    } else {
        Err(Fail::new(format!(in alloc; "{asked} | {found}")?))
    }
}

/// Asks what a row asks, which has a blank before its mark.
fn holds<Q: Question>(
    alloc: Global,
    question: &mut Q,
    asked: &str,
    wanted: &str,
) -> Result<(), Fail> {
    let asked = asked.strip_suffix(' ').unwrap_or(asked);
    let mut found = String::new(alloc);
    question.answer(alloc, asked, &mut found)?;
    is_so(alloc, asked, found.trim_start(), wanted.trim_start())
}

/// Adds `ababab` and the rest for `3:ab}` and the rest.
fn add_repeated(alloc: Global, to: &mut String, piece: &str) -> Result<(), Fail> {
    let (repeated, rest) = piece.split_once('}').unwrap_or((piece, ""));
    let (times, part) = repeated.split_once(':').unwrap_or((repeated, ""));
    to.push_str(part.repeat(alloc, times.parse()?)?.as_str())?;
    Ok(to.push_str(rest)?)
}

/// A line where `@{3:ab}` stands for `ababab`.
fn spelt_out(alloc: Global, line: &str) -> Result<String, Fail> {
    let (first, rest) = line.split_once("@{").unwrap_or((line, ""));
    let mut whole = String::from_str(alloc, first)?;
    for piece in rest.split_terminator("@{") {
        add_repeated(alloc, &mut whole, piece)?;
    }
    Ok(whole)
}

fn line_holds<Q: Question>(alloc: Global, question: &mut Q, line: &str) -> Result<(), Fail> {
    let line = spelt_out(alloc, line)?;
    match line.split_once('|') {
        Some((asked, wanted)) => holds(alloc, question, asked, wanted),
        None => Err(Fail::new("a line without its answer")),
    }
}

/// Asks each row of a table. An error says what was found of the first row that has another answer.
pub fn table<Q: Question>(alloc: Global, question: &mut Q, lines: &str) -> Result<(), Fail> {
    for line in lines.split('\n') {
        let line = line.trim_start();
        if !line.is_empty() && !line.starts_with("-- ") {
            line_holds(alloc, question, line)?;
        }
    }
    Ok(())
}

/// Asks each row of a script. An error says what was found of the first row that has another answer.
pub fn script<Q: Question>(alloc: Global, question: &mut Q, text: &str) -> Result<(), Fail> {
    for row in text.split('$') {
        if let Some((asked, wanted)) = row.split_once("=> ") {
            holds(alloc, question, asked.trim_start(), wanted)?;
        } else if !row.trim().is_empty() {
            return Err(Fail::new("a row without its answer"));
        }
    }
    Ok(())
}
