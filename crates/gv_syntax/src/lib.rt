//! The tokens and the syntax of GVariant values as text (GLib, "GVariant Text Format").
//!
//! [`tokens`] and [`parse`] take memory for the tokens and the tree alone, and are linear in the text. Nothing recurses deeper
//! than 128.
#![tactic(auto)]

mod fault;
mod lexing;
mod parsing;
mod plain;
mod syntax;
mod token;
mod type_text;

pub use fault::{TextCause, TextFault, TextFlaw};
pub use lexing::tokens;
pub use parsing::parse;
pub use plain::is_plain;
pub use syntax::{Syntax, SyntaxKind, SyntaxNode};
pub use token::{Mark, Span, Token, TokenKind, Word};
pub use type_text::TypeText;
