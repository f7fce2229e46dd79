//! The text of the least type in a set.
#![tactic(auto, unfolding(crate::specs::Parts::parts))]

ghost use Rattle.std.specs.Prelude.{◌≡◌, IfOk, string_bytes};
ghost use Rattle.gv_model.specs.Ty.{Ty.basic};
ghost use Rattle.gv_model.specs.LeastTypes.{least_in, least_bare, leasts_in, least_basics};
ghost use Rattle.gv_model.specs.Patterns.{pattern};
ghost use Rattle.gv_patterns.specs.BasicSets.{basic_set_of};
ghost use Rattle.gv_patterns.specs.Forms.{bare_of, patterns_of};
ghost use Rattle.gv_patterns.specs.LeastTexts.{Written, WrittenEach, both_found};

use crate::admitted::pattern_of;
use crate::basic_set::BasicSet;
use crate::pattern::{Bare, Pattern, PatternForm};
use gv_syntax::SyntaxNode;
use std::alloc::{AllocError, Global};

/// What is found in a set of types.
#[derive(Clone, Copy)]
pub enum Found {
    /// No type.
    Nowhere,
    /// A type that is below all in it.
    Least,
    /// A type that is as shallow as any, none being below all in it.
    Many,
}

impl Found {
    /// What is found in a set of which both are parts.
    fn and(self, other: Found) -> Found
        ensures { result ≡ both_found self other }
    {
        match self {
            Found::Nowhere => Found::Nowhere,
            Found::Least => other,
            Found::Many => match other {
                Found::Nowhere => Found::Nowhere,
                Found::Least | Found::Many => Found::Many,
            },
        }
    }
}

/// Writes the text of the least type that the syntax admits after a text, if there is one.
///
/// It takes memory for the set of all types that the syntax admits, and time linear in the syntax times the levels of its type.
pub fn write_least_type(
    alloc: Global,
    node: &SyntaxNode,
    text: &mut String,
) -> Result<Found, AllocError>
    ensures { IfOk result (λ f. Written (least_in (pattern node.now)) (string_bytes text.old) (string_bytes text.new) f) }
{
    pattern_of(alloc, node)?.write_least(text)
}

impl Pattern {
    /// Writes the text of the least type after a text, if there is one. It takes time linear in the pattern.
    #[cycle(least)]
    fn write_least(&self, text: &mut String) -> Result<Found, AllocError>
        ensures { IfOk result (λ f. Written (least_in self.now) (string_bytes text.old) (string_bytes text.new) f) }
    {
        match &self.form {
            PatternForm::Anything => {
                text.push_str("v")?;
                Ok(Found::Many)
            }
            PatternForm::Never => Ok(Found::Nowhere),
            PatternForm::MaybeOf(p) => {
                text.push_str("m")?;
                p.write_least(text)
            }
            PatternForm::Strict(c) => write_least_bare(c, text),
            PatternForm::Loose(c) => write_least_bare(c, text),
        }
    }
}

/// Writes the text of the least type in a set of types that are no maybes.
#[cycle(least)]
fn write_least_bare(bare: &Bare, text: &mut String) -> Result<Found, AllocError>
    ensures { IfOk result (λ f. Written (least_bare (bare_of bare.now)) (string_bytes text.old) (string_bytes text.new) f) }
{
    match bare {
        Bare::Basic(basics) => write_least_basic(*basics, text),
        Bare::Variant => {
            text.push_str("v")?;
            Ok(Found::Least)
        }
        Bare::Array(p) => {
            text.push_str("a")?;
            p.write_least(text)
        }
        Bare::Tuple(ps) => {
            text.push_str("(")?;
            let found = write_leasts(ps.as_slice(), text)?;
            text.push_str(")")?;
            Ok(found)
        }
        Bare::Entry(basics, p) => {
            text.push_str("{")?;
            let key = write_least_basic(*basics, text)?;
            let value = p.write_least(text)?;
            text.push_str("}")?;
            Ok(key.and(value))
        }
        Bare::Empty => Ok(Found::Nowhere),
    }
}

/// Writes the texts of the least types in each of these sets, one after the other.
#[cycle(least)]
fn write_leasts(ps: &[Pattern], text: &mut String) -> Result<Found, AllocError>
    ensures { IfOk result (λ f. WrittenEach (leasts_in (patterns_of ps.now)) (string_bytes text.old) (string_bytes text.new) f) }
{
    let mut found = Found::Least;
    for p in ps {
        found = found.and(p.write_least(text)?);
    }
    Ok(found)
}

/// Writes the letter of the least type in a set of basic types.
fn write_least_basic(basics: BasicSet, text: &mut String) -> Result<Found, AllocError>
    ensures { IfOk result (λ f. Written (least_basics basic (basic_set_of basics)) (string_bytes text.old) (string_bytes text.new) f) }
{
    match basics {
        BasicSet::Any => {
            text.push_str("b")?;
            Ok(Found::Many)
        }
        BasicSet::Numbers => {
            text.push_str("i")?;
            Ok(Found::Least)
        }
        BasicSet::Texts => {
            text.push_str("s")?;
            Ok(Found::Least)
        }
        BasicSet::Empty => Ok(Found::Nowhere),
        BasicSet::Only(basic) => {
            text.push_str(basic.letter())?;
            Ok(Found::Least)
        }
    }
}
