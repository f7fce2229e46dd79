//! GVariant values as text, and the tokens and syntax of texts (GLib, "GVariant Text Format").
//!
//! Printing takes memory for the text alone, and nothing fails but what has no text or is too large. [`tokens`] and [`parse`]
//! take memory for the tokens and the tree alone, and are linear in the text. Nothing recurses deeper than 128.
//!
//! The tokens and the syntax are gv_syntax's, and have their names here, too.
//!
//! ```
//! let numbers = View::new(TypeStr::parse("au")?, &[1, 0, 0, 0, 2, 0, 0, 0]);
//! let text = print(alloc, numbers)?;
//! Ok(text.as_str() == "[uint32 1, 2]")
//! ```
#![tactic(auto)]

mod print_fault;
mod printing;

pub use gv_syntax::{
    Mark, Span, Syntax, SyntaxKind, SyntaxNode, TextCause, TextFault, TextFlaw, Token, TokenKind,
    TypeText, Word, is_plain, parse, tokens,
};
pub use print_fault::{PrintFault, PrintFlaw};
pub use printing::{print, print_onto};
