//! A path in its parts, so that who wants it as one text takes the memory for that.
ghost use Rattle.std.specs.Prelude.{◌≡◌, ◌++◌, IfOk, codes};
ghost use Rattle.dconf_places.specs.Told.{text_of};

use std::alloc::{AllocError, Global};

/// A path: texts that stand one after the other. Any of them may be empty.
#[repr(C)]
#[derive(Clone, Copy)]
pub struct PathParts<'a> {
    pub first: &'a [u8],
    pub second: &'a [u8],
    pub third: &'a [u8],
    pub fourth: &'a [u8],
}

impl<'a> PathParts<'a> {
    /// That of two texts.
    pub(crate) fn of_two(one: &'a [u8], other: &'a [u8]) -> PathParts<'a>
        ensures { text_of result ≡ one.entry.now ++ other.entry.now }
    {
        PathParts {
            first: b"",
            second: b"",
            third: one,
            fourth: other,
        }
    }

    /// That of a name in a folder.
    pub(crate) fn below(folder: &'a [u8], name: &'a [u8]) -> PathParts<'a>
        ensures { text_of result ≡ folder.entry.now ++ (codes "/" ++ name.entry.now) }
    {
        PathParts {
            first: b"",
            second: folder,
            third: b"/",
            fourth: name,
        }
    }

    /// The path as one text.
    pub fn text(self, alloc: Global) -> Result<Vec<u8>, AllocError>
        ensures { IfOk result (λ text. text.items ≡ text_of self.entry) }
    {
        let mut text = Vec::new(alloc);
        text.extend_from_slice(self.first)?;
        text.extend_from_slice(self.second)?;
        text.extend_from_slice(self.third)?;
        text.extend_from_slice(self.fourth)?;
        Ok(text)
    }
}
