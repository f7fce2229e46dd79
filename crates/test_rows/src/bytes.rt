//! Bytes, by words.
use crate::samples::sample;
use std::alloc::Global;
use std::test::Fail;

/// Sets the byte at a place.
fn set(bytes: &mut [u8], at: usize, byte: u8) -> Result<(), Fail> {
    match bytes.get_mut(at) {
        Some(there) => {
            *there = byte;
            Ok(())
        }
        None => Err(Fail::new("a byte past the end")),
    }
}

/// Does what a word says that has a mark.
fn add_marked(to: &mut Vec<u8>, mark: &str, word: &str) -> Result<(), Fail> {
    match mark {
        "'" => to.extend_from_slice(word.trim_end_matches('\'').as_bytes())?,
        "%" => to.extend_from_slice(sample(word))?,
        ":" => to.truncate(word.parse()?),
        _ => to.push((to.len() % 256) as u8)?,
    }
    Ok(())
}

fn add_word(to: &mut Vec<u8>, word: &str) -> Result<(), Fail> {
    if let Some((at, byte)) = word.split_once('=') {
        return set(to, at.parse()?, byte.parse()?);
    }
    match word.split_at_checked(1) {
        Some((mark, rest)) if "'%:~".contains(mark) => add_marked(to, mark, rest),
        _ => Ok(to.push(u8::from_str_radix(word, 16)?)?),
    }
}

/// The bytes of words. A text in quotes has no blank and no `=`.
pub fn bytes_of(alloc: Global, words: &str) -> Result<Vec<u8>, Fail> {
    let mut bytes = Vec::new(alloc);
    for word in words.split_whitespace() {
        add_word(&mut bytes, word)?;
    }
    Ok(bytes)
}
