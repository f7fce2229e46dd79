//! Sets of types, as they come from syntax, and what two of them have in common.
#![tactic(auto, unfolding(gv_model::specs::Patterns::common, gv_model::specs::Patterns::under, crate::specs::Parts::parts))]

ghost use Rattle.std.specs.Prelude.{◌≡◌, ◌≤◌, length};
ghost use Rattle.gv_model.specs.Patterns.{common, common_bare, common_each, Pattern.anything, Pattern.never, Pattern.maybe_of, Pattern.strict, Pattern.loose};
ghost use Rattle.gv_patterns.specs.Forms.{bare_of, patterns_of};
ghost use Rattle.gv_patterns.specs.Orders.{common_by, each_by};

use crate::basic_set::BasicSet;
use std::marker::Model;
use std::mem;

/// A set of types.
#[cycle(pattern)]
#[derive(Drop)]
pub(crate) struct Pattern {
    pub(crate) form: PatternForm,
}

/// What a set of types is.
#[cycle(pattern)]
#[derive(Drop)]
pub(crate) enum PatternForm {
    Anything,
    Never,
    /// Maybes of these.
    MaybeOf(Box<Pattern>),
    /// These alone.
    Strict(Bare),
    /// These with any number of maybes around them.
    Loose(Bare),
}

/// A set of types that are no maybes.
#[cycle(pattern)]
#[derive(Drop)]
pub(crate) enum Bare {
    Basic(BasicSet),
    Variant,
    Array(Box<Pattern>),
    Tuple(Vec<Pattern>),
    Entry(BasicSet, Box<Pattern>),
    Empty,
}

impl Model for Pattern {
    ghost use Rattle.gv_model.specs.Patterns.{Pattern as Shown};
    ghost use Rattle.gv_patterns.specs.Codes.{coded_pattern};

    ghost Value = { Shown };

    ghost coded = { coded_pattern };

    ghost use Rattle.gv_patterns.specs.Forms.{form_of};

    ghost view = { λ a. form_of a.form };

    ghost use Rattle.gv_patterns.specs.Parts.{parts};

    ghost size = { parts };

    ghost use Rattle.gv_patterns.specs.Falls.{deep-le_parts};

    ghost size_decreases = { λ a h. deep-le_parts a.form };
}

impl Pattern {
    /// The set of all types.
    pub(crate) fn anything() -> Pattern
        ensures { result ≡ anything }
    {
        Pattern {
            form: PatternForm::Anything,
        }
    }

    /// The empty set.
    fn never() -> Pattern
        ensures { result ≡ never }
    {
        Pattern {
            form: PatternForm::Never,
        }
    }

    /// The types that are in both. It takes no memory, and time linear in the two.
    #[cycle(common)]
    pub(crate) fn common(self, other: Pattern) -> Pattern
        ensures { result ≡ common self other }
    {
        match self.form {
            PatternForm::Anything => other,
            PatternForm::Never => Pattern::never(),
            PatternForm::MaybeOf(p) => maybe_common(p, other),
            PatternForm::Strict(c) => strict_common(c, other),
            PatternForm::Loose(c) => loose_common(c, other),
        }
    }
}

/// What maybes of a pattern have in common with another.
#[cycle(common)]
fn maybe_common(p: Box<Pattern>, other: Pattern) -> Pattern
    ensures { result ≡ common (maybe_of p.value) other }
{
    match other.form {
        PatternForm::Anything => Pattern {
            form: PatternForm::MaybeOf(p),
        },
        PatternForm::Never | PatternForm::Strict(_) => Pattern::never(),
        PatternForm::MaybeOf(q) => Pattern {
            form: PatternForm::MaybeOf(common_boxed(p, Box::into_inner(q), true)),
        },
        PatternForm::Loose(d) => {
            let loose = Pattern {
                form: PatternForm::Loose(d),
            };
            Pattern {
                form: PatternForm::MaybeOf(common_boxed(p, loose, true)),
            }
        }
    }
}

/// What types that are no maybes have in common with a pattern.
#[cycle(common)]
fn strict_common(c: Bare, other: Pattern) -> Pattern
    ensures { result ≡ common (strict (bare_of c)) other }
{
    match other.form {
        PatternForm::Anything => Pattern {
            form: PatternForm::Strict(c),
        },
        PatternForm::Never | PatternForm::MaybeOf(_) => Pattern::never(),
        PatternForm::Strict(d) | PatternForm::Loose(d) => Pattern {
            form: PatternForm::Strict(common_bare(c, d)),
        },
    }
}

/// What types with any number of maybes around them have in common with a pattern.
#[cycle(common)]
fn loose_common(c: Bare, other: Pattern) -> Pattern
    ensures { result ≡ common (loose (bare_of c)) other }
{
    match other.form {
        PatternForm::Anything => Pattern {
            form: PatternForm::Loose(c),
        },
        PatternForm::Never => Pattern::never(),
        PatternForm::MaybeOf(q) => {
            let loose = Pattern {
                form: PatternForm::Loose(c),
            };
            Pattern {
                form: PatternForm::MaybeOf(common_boxed(q, loose, false)),
            }
        }
        PatternForm::Strict(d) => Pattern {
            form: PatternForm::Strict(common_bare(c, d)),
        },
        PatternForm::Loose(d) => Pattern {
            form: PatternForm::Loose(common_bare(c, d)),
        },
    }
}

/// What two patterns have in common, in the box of one of them; it is the first one where `in_order`.
#[cycle(common)]
fn common_boxed(mut kept: Box<Pattern>, other: Pattern, in_order: bool) -> Box<Pattern>
    ensures { result.value ≡ common_by in_order kept.value other }
{
    let one = mem::replace(&mut *kept, Pattern::never());
    *kept = if in_order {
        one.common(other)
    } else {
        other.common(one)
    };
    kept
}

/// What two sets of types that are no maybes have in common.
#[cycle(common)]
fn common_bare(c: Bare, d: Bare) -> Bare
    ensures { bare_of result ≡ common_bare (bare_of c) (bare_of d) }
{
    match (c, d) {
        (Bare::Basic(one), Bare::Basic(other)) => Bare::Basic(one.common(other)),
        (Bare::Variant, Bare::Variant) => Bare::Variant,
        (Bare::Array(p), Bare::Array(q)) => Bare::Array(common_boxed(p, Box::into_inner(q), true)),
        (Bare::Tuple(ps), Bare::Tuple(qs)) => Bare::Tuple(common_each(ps, qs)),
        (Bare::Entry(one, p), Bare::Entry(other, q)) => Bare::Entry(
            one.common(other),
            common_boxed(p, Box::into_inner(q), true),
        ),
        _ => Bare::Empty,
    }
}

/// What two lists have in common, one by one. Lists of two lengths have nothing in common where the shorter one ends.
#[cycle(common)]
fn common_each(ps: Vec<Pattern>, qs: Vec<Pattern>) -> Vec<Pattern>
    ensures { patterns_of result.items ≡ common_each (patterns_of ps.items) (patterns_of qs.items) }
{
    if qs.len() <= ps.len() {
        common_listed(ps, qs, true)
    } else {
        common_listed(qs, ps, false)
    }
}

/// What two lists have in common, in the one that is no shorter; it is the first one where `in_order`.
#[cycle(common)]
fn common_listed(mut kept: Vec<Pattern>, others: Vec<Pattern>, in_order: bool) -> Vec<Pattern>
    requires { length others.items ≤ length kept.items }
    ensures { patterns_of result.items ≡ each_by in_order (patterns_of kept.items) (patterns_of others.items) }
{
    let mut shared = 0;
    for other in others {
        let one = mem::replace(&mut kept[shared], Pattern::never());
        let both = if in_order {
            one.common(other)
        } else {
            other.common(one)
        };
        drop(mem::replace(&mut kept[shared], both));
        shared += 1;
    }
    if shared < kept.len() {
        kept.truncate(shared + 1);
        drop(mem::replace(&mut kept[shared], Pattern::never()));
    }
    kept
}
