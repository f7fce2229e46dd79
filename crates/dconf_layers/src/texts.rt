//! Texts that are gathered, and listed in the end.
ghost use Rattle.std.specs.Prelude.{◌≡◌, IfOk, OnOk, map, string_bytes};
ghost use Rattle.std.specs.FinMap.{empty, keys};
ghost use Rattle.dconf_model.specs.Paths.{first_part};

use std::alloc::{AllocError, Global};
use std::marker::Model;

/// Texts that are gathered: which there are counts, and not how often or in which order.
#[derive(Drop)]
pub struct Texts {
    alloc: Global,
    texts: Vec<String>,
}

impl Model for Texts {
    ghost use Rattle.dconf_layers.specs.TextSets.{TextSet, text_set, text_set_code};

    ghost Value = { TextSet };

    ghost coded = { text_set_code };

    ghost view = { λ t. text_set t.texts.items };
}

impl Texts {
    ghost use Rattle.dconf_layers.specs.TextSets.{with_child, with_text};

    /// No texts. It takes no memory.
    pub fn new(alloc: Global) -> Texts
        ensures { result ≡ empty }
    {
        let texts = Vec::new(alloc);
        Texts { alloc, texts }
    }

    /// Adds a text.
    ///
    /// An error comes where a growth is refused.
    pub fn add(&mut self, text: &str) -> Result<(), AllocError>
        ensures { OnOk result (self.new ≡ with_text self.old text.now) }
    {
        self.add_with_room(text, 0)
    }

    /// Adds a text, which has room for so many bytes more.
    ///
    /// An error comes where a growth is refused.
    pub fn add_with_room(&mut self, text: &str, room: usize) -> Result<(), AllocError>
        ensures { OnOk result (self.new ≡ with_text self.old text.now) }
    {
        let mut kept = String::with_capacity(self.alloc, text.len().saturating_add(room))?;
        kept.push_str(text)?;
        self.texts.push(kept)?;
        Ok(())
    }

    /// Adds the name of a path in a directory, where the path is below it.
    ///
    /// An error comes where a growth is refused. It looks at each byte of the path a fixed number of times.
    pub fn add_child(&mut self, directory: &str, path: &str) -> Result<(), AllocError>
        ensures { OnOk result (self.new ≡ with_child directory.now self.old path.now) }
    {
        let Some(rest) = path.strip_prefix(directory) else {
            return Ok(());
        };
        self.texts.push(first_part_of(self.alloc, rest)?)?;
        Ok(())
    }

    /// The texts in the order of their bytes, once each.
    ///
    /// An error comes where a growth is refused. Those that come in order are compared once, each with the next.
    pub fn list(self) -> Result<Vec<String>, AllocError>
        ensures { IfOk result (λ list. map string_bytes list.items ≡ keys self) }
    {
        let mut texts = self.texts;
        texts.sort()?;
        texts.dedup();
        Ok(texts)
    }
}

/// A text up to its first slash and with it, or all of it where there is none.
fn first_part_of(alloc: Global, rest: &str) -> Result<String, AllocError>
    ensures { IfOk result (λ part. string_bytes part ≡ first_part rest.now) }
{
    match rest.split_once('/') {
        Some((first, _)) => {
            let mut part = String::from_str(alloc, first)?;
            part.push('/')?;
            Ok(part)
        }
        None => String::from_str(alloc, rest),
    }
}
