//! Views and values that tests of several subjects ask for.
use gv_infer::read_value;
use gv_text::Syntax;
use gv_tree::Tree;
use gv_types::{TypeFault, TypeStr};
use gv_view::View;
use std::alloc::Global;
use std::test::Fail;

/// The bytes at the type of this text.
pub(crate) fn view<'a>(of: &'a str, bytes: &'a [u8]) -> Result<View<'a>, TypeFault> {
    Ok(View::new(TypeStr::parse(of)?, bytes))
}

/// The value of a text that has one.
pub(crate) fn value(alloc: Global, text: &str) -> Result<Tree, Fail> {
    if text.len() > Syntax::MAX_TEXT_LEN {
        return Err(Fail::new("a text too long to be read"));
    }
    Ok(read_value(alloc, text)?)
}
