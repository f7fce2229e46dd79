//! A dump with its groups in dconf's order.
ghost use Rattle.std.specs.Prelude.{◌≡◌, ◌++◌, ◌∷◌, [], IfOk, OnOk, map, string_bytes};
ghost use Rattle.dconf_model.specs.Keyfiles.{begins_with};
ghost use Rattle.dconf_model.specs.Order.{in_order};
ghost use Rattle.dconf_by_name.specs.Meant.{line_meant, placed_meant};
ghost use Rattle.dconf_by_name.specs.Dumps.{beginning, directory_named, heading_after, in_dconfs_order, line_below, lines_below, text_after};

use crate::completions::lines;
use std::alloc::{AllocError, Global};

/// A row of a dump, or a comment, which stands above all groups.
#[derive(Drop)]
struct Placed<'a> {
    /// That of its group, by which groups are ordered.
    directory: String,
    /// The line that names its group, or nothing.
    heading: &'a str,
    text: &'a str,
}

/// The same, lent.
#[derive(Clone, Copy)]
struct Line<'a> {
    directory: &'a str,
    heading: &'a str,
    text: &'a str,
}

/// A dump of ours with its groups in the order in which dconf dumps them. Rows of a group, and comments above all groups, keep their order.
///
/// It takes the time of sorting the lines. The only error is a failed allocation.
pub fn in_dconfs_order(alloc: Global, dump: &str) -> Result<String, AllocError>
    ensures { IfOk result (λ text. string_bytes text ≡ in_dconfs_order dump.now) }
{
    let texts = lines(alloc, dump)?;
    let placed = with_places(alloc, &texts)?;
    let mut order = lent(alloc, &placed)?;
    sort(&mut order)?;
    text_of(alloc, &order)
}

/// The lines that are no headings, each with the heading above it.
fn with_places<'a>(alloc: Global, texts: &[&'a str]) -> Result<Vec<Placed<'a>>, AllocError>
    ensures { IfOk result (λ all. map placed_meant all.items ≡ lines_below [] (map (λ text. text.now) texts.entry.now)) }
{
    let mut heading = "";
    let mut all = Vec::new(alloc);
    for text in texts {
        if is_heading(text) {
            heading = *text;
        } else if !text.is_empty() {
            all.push(placed_below(alloc, heading, *text)?)?;
        }
    }
    Ok(all)
}

fn placed_below<'a>(
    alloc: Global,
    heading: &'a str,
    text: &'a str,
) -> Result<Placed<'a>, AllocError>
    ensures { IfOk result (λ placed. placed_meant placed ≡ line_below heading.entry.now text.entry.now) }
{
    Ok(Placed {
        directory: directory_named(alloc, heading)?,
        heading,
        text,
    })
}

fn is_heading(text: &str) -> bool
    ensures { result ≡ begins_with 91 text.now }
{
    text.as_bytes().starts_with(b"[")
}

/// The directory that a heading names. It is empty for that which is dumped, and for comments.
fn directory_named(alloc: Global, heading: &str) -> Result<String, AllocError>
    ensures { IfOk result (λ directory. string_bytes directory ≡ directory_named heading.now) }
{
    if heading == "[/]" {
        return Ok(String::new(alloc));
    }
    match heading.strip_suffix(']') {
        Some(start) => format!(in alloc; "{start}/"),
        None => Ok(String::new(alloc)),
    }
}

fn lent<'a>(alloc: Global, placed: &'a [Placed<'a>]) -> Result<Vec<Line<'a>>, AllocError>
    ensures { IfOk result (λ lines. map line_meant lines.items ≡ map placed_meant placed.entry.now) }
{
    let mut lines = Vec::new(alloc);
    for it in placed {
        lines.push(Line {
            directory: it.directory.as_str(),
            heading: it.heading,
            text: it.text,
        })?;
    }
    Ok(lines)
}

/// Puts lines in the order of their directories. Those of one keep their order.
fn sort(lines: &mut Vec<Line<'_>>) -> Result<(), AllocError>
    ensures { OnOk result (map line_meant lines.new.items ≡ in_order (λ line. line.directory) (map line_meant lines.old.items)) }
{
    lines.sort_by_key(|line| line.directory)?;
    Ok(())
}

/// The text of lines that are in order.
fn text_of(alloc: Global, lines: &[Line<'_>]) -> Result<String, AllocError>
    ensures { IfOk result (λ text. string_bytes text ≡ text_after [] (map line_meant lines.entry.now)) }
{
    let mut text = String::new(alloc);
    let mut before = "";
    for line in lines {
        push_line(&mut text, before, line)?;
        before = line.heading;
    }
    Ok(text)
}

/// Appends a line, after the heading of its group where that begins.
fn push_line(text: &mut String, before: &str, line: &Line<'_>) -> Result<(), AllocError>
    ensures { OnOk result (string_bytes text.new ≡ string_bytes text.old ++ (heading_after before.now line.entry.now.heading.now ++ (line.entry.now.text.now ++ 10 ∷ []))) }
{
    if before != line.heading {
        push_heading(text, before.is_empty(), line.heading)?;
    }
    text.push_str(line.text)?;
    text.push_str("\n")
}

/// Appends a heading, behind an empty line if it isn't the first.
fn push_heading(text: &mut String, is_first: bool, heading: &str) -> Result<(), AllocError>
    ensures { OnOk result (string_bytes text.new ≡ string_bytes text.old ++ beginning is_first heading.now) }
{
    if !is_first {
        text.push_str("\n")?;
    }
    text.push_str(heading)?;
    text.push_str("\n")
}
