//! What `dconf _complete` offers.
ghost use Rattle.std.specs.Prelude.{◌≡◌, ◌==◌, ◌++◌, IfOk, OnOk, map, string_bytes, vec_items};
ghost use Rattle.std.specs.List.{slice_split};
ghost use Rattle.dconf_by_name.specs.Completions.{directory_of, goes_on, offer, offers, offers_of};

use crate::paths::is_directory;
use std::alloc::{AllocError, Global};

/// What of a path was typed whole: up to its last slash, and with it. It is empty if there is none, and a text, since a slash is one byte.
pub fn directory_of(typed: &str) -> &[u8]
    ensures { result.now ≡ directory_of typed.entry.now }
{
    match typed.rfind('/') {
        Some(slash) => &typed.as_bytes()[..slash + 1],
        None => &[],
    }
}

/// The paths that are offered, each on a line, of the lines that `list` printed of the directory: those that begin with what was typed and end
/// in `suffix`. Behind a key's is a blank.
///
/// It looks at each line once. The only error is a failed allocation.
pub fn offers(
    alloc: Global,
    suffix: &str,
    typed: &str,
    directory: &str,
    listed: &str,
) -> Result<String, AllocError>
    ensures { IfOk result (λ text. string_bytes text ≡ offers suffix.now typed.now directory.now listed.now) }
{
    let names = lines(alloc, listed)?;
    offers_of(alloc, suffix, typed, directory, &names)
}

fn offers_of(
    alloc: Global,
    suffix: &str,
    typed: &str,
    directory: &str,
    names: &[&str],
) -> Result<String, AllocError>
    ensures { IfOk result (λ text. string_bytes text ≡ offers_of suffix.now typed.now directory.now (map (λ name. name.now) names.now)) }
{
    let mut text = String::new(alloc);
    for name in names {
        if goes_on(alloc, suffix, typed, directory, *name)? {
            push_offer(&mut text, directory, *name)?;
        }
    }
    Ok(text)
}

/// What stands between the line feeds of a text.
pub(crate) fn lines<'a>(alloc: Global, text: &'a str) -> Result<Vec<&'a str>, AllocError>
    ensures { IfOk result (λ lines. map (λ line. line.now) (vec_items lines) ≡ slice_split (λ c. c == 10) text.entry.now) }
{
    text.split('\n').collect::<Vec<&str>>(alloc)
}

/// Whether a name in the directory goes on from what was typed, and ends as is asked.
fn goes_on(
    alloc: Global,
    suffix: &str,
    typed: &str,
    directory: &str,
    name: &str,
) -> Result<bool, AllocError>
    ensures { IfOk result (λ r. r ≡ goes_on suffix.now typed.now directory.now name.now) }
{
    let path = format!(in alloc; "{directory}{name}")?;
    Ok(
        !name.is_empty()
            && path.as_bytes().starts_with(typed.as_bytes())
            && name.as_bytes().ends_with(suffix.as_bytes()),
    )
}

fn push_offer(text: &mut String, directory: &str, name: &str) -> Result<(), AllocError>
    ensures { OnOk result (string_bytes text.new ≡ string_bytes text.old ++ offer directory.now name.now) }
{
    text.push_str(directory)?;
    text.push_str(name)?;
    if is_directory(name) {
        text.push_str("\n")
    } else {
        text.push_str(" \n")
    }
}
