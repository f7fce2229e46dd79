//! The set of types that syntax admits.
#![tactic(auto, unfolding(gv_model::specs::Patterns::pattern, gv_model::specs::Syntax::levels))]

ghost use Rattle.std.specs.Prelude.{◌≡◌, IfOk};
ghost use Rattle.gv_model.specs.Patterns.{pattern, common, exactly, all_common, patterns, common_key, common_value, basics_of, basics_of_bare};
ghost use Rattle.gv_model.specs.Patterns.{Pattern.maybe_of, Pattern.loose, Pattern.strict, Bare.basics, Bare.array_of, Bare.entry_of, BasicSet.only};
ghost use Rattle.gv_types.specs.Classes.{basic_of};
ghost use Rattle.gv_types.specs.TypeStr.{ty};
ghost use Rattle.gv_syntax.specs.SyntaxNodes.{nodes_of, pairs_of};
ghost use Rattle.gv_patterns.specs.BasicSets.{basic_set_of as set_of};
ghost use Rattle.gv_patterns.specs.Forms.{bare_of, patterns_of};

use crate::basic_set::BasicSet;
use crate::pattern::{Bare, Pattern, PatternForm};
use gv_syntax::{SyntaxKind, SyntaxNode};
use gv_types::{BasicType, TypeStr};
use std::alloc::{AllocError, Global};

/// The set of types that the syntax admits. What is in `<..>` is not looked at.
#[cycle(admitted)]
pub(crate) fn pattern_of(alloc: Global, node: &SyntaxNode) -> Result<Pattern, AllocError>
    ensures { IfOk result (λ p. p ≡ pattern node.now) }
{
    match &node.kind {
        SyntaxKind::Truth(_) => Ok(loose(Bare::Basic(BasicSet::Only(BasicType::Boolean)))),
        SyntaxKind::Integer { .. } => Ok(loose(Bare::Basic(BasicSet::Numbers))),
        SyntaxKind::Text(_) => Ok(loose(Bare::Basic(BasicSet::Texts))),
        SyntaxKind::ByteString(_) => array_of(alloc, only(BasicType::Byte)),
        SyntaxKind::Array(nodes) => array_of(alloc, all_common(alloc, nodes.as_slice())?),
        SyntaxKind::Tuple(nodes) => Ok(loose(Bare::Tuple(patterns(alloc, nodes.as_slice())?))),
        SyntaxKind::Dictionary(pairs) => {
            array_of(alloc, strict(common_entry(alloc, pairs.as_slice())?))
        }
        SyntaxKind::Entry(key, value) => entry_of(alloc, key, value),
        SyntaxKind::Variant(_) => Ok(loose(Bare::Variant)),
        SyntaxKind::Just(inner) => maybe_of(alloc, pattern_of(alloc, inner)?),
        SyntaxKind::Nothing => maybe_of(alloc, Pattern::anything()),
        SyntaxKind::OfType(of, inner) => common_exactly(
            alloc,
            of.as_type(),
            pattern_of(alloc, inner)?,
        ),
        SyntaxKind::Keyword(basic, inner) => Ok(common_only(*basic, pattern_of(alloc, inner)?)),
    }
}

/// An entry whose key and value these admit.
#[cycle(admitted)]
fn entry_of(alloc: Global, key: &SyntaxNode, value: &SyntaxNode) -> Result<Pattern, AllocError>
    ensures { IfOk result (λ p. p ≡ loose (entry_of (basics_of (pattern key.now)) (pattern value.now))) }
{
    let key = pattern_of(alloc, key)?.into_basics();
    let value = pattern_of(alloc, value)?;
    Ok(loose(Bare::Entry(key, Box::new(alloc, value)?)))
}

/// What the syntax admits of the types.
#[cycle(admitted)]
fn common_with(alloc: Global, node: &SyntaxNode, others: Pattern) -> Result<Pattern, AllocError>
    ensures { IfOk result (λ p. p ≡ common (pattern node.now) others) }
{
    let own = pattern_of(alloc, node)?;
    Ok(own.common(others))
}

/// The types that all of these admit, joined from the last one on.
#[cycle(admitted)]
fn all_common(alloc: Global, nodes: &[SyntaxNode]) -> Result<Pattern, AllocError>
    ensures { IfOk result (λ p. p ≡ all_common (nodes_of nodes.now)) }
{
    let mut all = Pattern::anything();
    for done in 0..nodes.len() {
        all = common_with(alloc, &nodes[nodes.len() - 1 - done], all)?;
    }
    Ok(all)
}

/// The types that each of these admits.
#[cycle(admitted)]
fn patterns(alloc: Global, nodes: &[SyntaxNode]) -> Result<Vec<Pattern>, AllocError>
    ensures { IfOk result (λ ps. patterns_of ps.items ≡ patterns (nodes_of nodes.now)) }
{
    let mut all = Vec::with_capacity(alloc, nodes.len())?;
    for node in nodes {
        all.push(pattern_of(alloc, node)?)?;
    }
    Ok(all)
}

/// The entries whose key and value all of these pairs admit.
#[cycle(admitted)]
fn common_entry(alloc: Global, pairs: &[(SyntaxNode, SyntaxNode)]) -> Result<Bare, AllocError>
    ensures { IfOk result (λ c. bare_of c ≡ entry_of (basics_of (common_key (pairs_of pairs.now))) (common_value (pairs_of pairs.now))) }
{
    let key = common_key(alloc, pairs)?;
    let value = common_value(alloc, pairs)?;
    Ok(Bare::Entry(key, Box::new(alloc, value)?))
}

/// The basic types that the keys of all of these pairs admit.
#[cycle(admitted)]
fn common_key(alloc: Global, pairs: &[(SyntaxNode, SyntaxNode)]) -> Result<BasicSet, AllocError>
    ensures { IfOk result (λ s. set_of s ≡ basics_of (common_key (pairs_of pairs.now))) }
{
    let mut all = Pattern::anything();
    for done in 0..pairs.len() {
        let (key, _) = &pairs[pairs.len() - 1 - done];
        all = common_with(alloc, key, all)?;
    }
    Ok(all.into_basics())
}

/// The types that the values of all of these pairs admit.
#[cycle(admitted)]
fn common_value(alloc: Global, pairs: &[(SyntaxNode, SyntaxNode)]) -> Result<Pattern, AllocError>
    ensures { IfOk result (λ p. p ≡ common_value (pairs_of pairs.now)) }
{
    let mut all = Pattern::anything();
    for done in 0..pairs.len() {
        let (_, value) = &pairs[pairs.len() - 1 - done];
        all = common_with(alloc, value, all)?;
    }
    Ok(all)
}

/// The types with any number of maybes around them.
fn loose(bare: Bare) -> Pattern
    ensures { result ≡ loose (bare_of bare) }
{
    Pattern {
        form: PatternForm::Loose(bare),
    }
}

/// The types alone.
pub(crate) fn strict(bare: Bare) -> Pattern
    ensures { result ≡ strict (bare_of bare) }
{
    Pattern {
        form: PatternForm::Strict(bare),
    }
}

/// A basic type alone.
fn only(basic: BasicType) -> Pattern
    ensures { result ≡ strict (basics (only (basic_of basic))) }
{
    strict(Bare::Basic(BasicSet::Only(basic)))
}

/// What a basic type alone has in common with the types.
fn common_only(basic: BasicType, of: Pattern) -> Pattern
    ensures { result ≡ common (strict (basics (only (basic_of basic)))) of }
{
    only(basic).common(of)
}

/// What a type alone has in common with the types.
fn common_exactly(alloc: Global, exact: TypeStr<'_>, of: Pattern) -> Result<Pattern, AllocError>
    ensures { IfOk result (λ p. p ≡ common (exactly (ty exact.entry)) of) }
{
    let exact = Pattern::exactly(alloc, exact)?;
    Ok(exact.common(of))
}

/// Arrays of the types, with any number of maybes around them.
fn array_of(alloc: Global, of: Pattern) -> Result<Pattern, AllocError>
    ensures { IfOk result (λ p. p ≡ loose (array_of of)) }
{
    Ok(loose(Bare::Array(Box::new(alloc, of)?)))
}

/// Maybes of the types.
pub(crate) fn maybe_of(alloc: Global, of: Pattern) -> Result<Pattern, AllocError>
    ensures { IfOk result (λ p. p ≡ maybe_of of) }
{
    Ok(Pattern {
        form: PatternForm::MaybeOf(Box::new(alloc, of)?),
    })
}

impl Pattern {
    /// The basic types in the set.
    fn basics(&self) -> BasicSet
        ensures { set_of result ≡ basics_of self.now }
    {
        match &self.form {
            PatternForm::Anything => BasicSet::Any,
            PatternForm::Strict(bare) => bare.basics(),
            PatternForm::Loose(bare) => bare.basics(),
            PatternForm::Never => BasicSet::Empty,
            PatternForm::MaybeOf(_) => BasicSet::Empty,
        }
    }

    /// The basic types in the set, which is let go.
    fn into_basics(self) -> BasicSet
        ensures { set_of result ≡ basics_of self }
    {
        self.basics()
    }
}

impl Bare {
    /// The basic types in the set.
    fn basics(&self) -> BasicSet
        ensures { set_of result ≡ basics_of_bare (bare_of self.now) }
    {
        match self {
            Bare::Basic(basics) => *basics,
            Bare::Variant | Bare::Array(_) | Bare::Tuple(_) | Bare::Entry(_, _) | Bare::Empty =>
                BasicSet::Empty,
        }
    }
}
