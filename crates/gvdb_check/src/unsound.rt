//! Why a database is not sound.
ghost use Rattle.std.specs.Prelude.{◌≡◌};
ghost use Rattle.dconf_model.specs.Sound.{rule_number};
ghost use Rattle.gvdb_check.specs.Unsounds.{rule_of};

use std::error::Error;
use std::fmt;

/// The rules that a sound database keeps, in the order in which they are asked. A rule is printed as its name, `S1`
/// to `S11`.
#[derive(Clone, Copy, Debug, PartialEq, Eq)]
pub enum Rule {
    /// S1: where there are items there are buckets; the first bucket's number is 0, they don't fall, and none is past
    /// the item count.
    Buckets,
    /// S2: the key lies in the file, and is UTF-8 without a zero byte; the parent is none or the number of an item.
    Keys,
    /// S3: the item's parents end, and its key isn't empty.
    Chain,
    /// S4: the hash is that of the full name.
    Hash,
    /// S5: the item lies among those of its hash's bucket.
    Span,
    /// S6: the bloom words let its hash pass.
    Bloom,
    /// S7: no lower item has the same full name.
    Once,
    /// S8: the kind is `v`, `L` or `H`, the pointer is valid for it, and a list's size is a multiple of 4.
    Content,
    /// S9: an item without parent is `/` of kind `L` or `.locks` of kind `H`; any other has a parent of kind `L`, and
    /// is of kind `v` with no `/` in its key or of kind `L` with one `/` in its key, at its end and not alone; a full
    /// name has at most 65,535 bytes.
    Place,
    /// S10: a list holds exactly the items whose parent it is, once each; it is empty only at `/`.
    Lists,
    /// S11: `.locks` opens as a table in which S1 to S8 hold and each item is of kind `v`, without parent, its key
    /// starting with `/`.
    Locks,
}

impl Rule {
    /// The number after the S.
    fn number(self) -> u8
        ensures { result ≡ rule_number (rule_of self) }
    {
        match self {
            Rule::Buckets => 1,
            Rule::Keys => 2,
            Rule::Chain => 3,
            Rule::Hash => 4,
            Rule::Span => 5,
            Rule::Bloom => 6,
            Rule::Once => 7,
            Rule::Content => 8,
            Rule::Place => 9,
            Rule::Lists => 10,
            Rule::Locks => 11,
        }
    }
}

impl fmt::Display for Rule {
    ghost use Rattle.std.specs.Prelude.{Some};
    ghost use Rattle.dconf_model.specs.FaultTexts.{rule_text};

    ghost output = { λ rule. Some (rule_text (rule_of rule)) };

    fn fmt<W: fmt::Write>(&self, f: &mut fmt::Formatter<W>) -> fmt::Result {
        write!(f, "S{}", self.number())
    }
}

/// The least rule that a database breaks, and the least item that breaks it. It is printed as `S4 item 1`, or `S1`.
#[derive(Clone, Copy, Debug, PartialEq, Eq)]
pub struct Unsound {
    pub rule: Rule,
    /// None exactly at [`Rule::Buckets`], which is a rule of the table alone.
    pub item: Option<u32>,
}

impl fmt::Display for Unsound {
    ghost use Rattle.std.specs.Prelude.{Some};
    ghost use Rattle.dconf_model.specs.FaultTexts.{broken_text};

    ghost output = { λ unsound. Some (broken_text (rule_of unsound.rule) unsound.item) };

    fn fmt<W: fmt::Write>(&self, f: &mut fmt::Formatter<W>) -> fmt::Result {
        match self.item {
            None => write!(f, "{}", self.rule),
            Some(item) => write!(f, "{} item {item}", self.rule),
        }
    }
}

impl Error for Unsound {}
