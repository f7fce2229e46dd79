//! How long full names are, and S9, which asks for short ones.
ghost use Rattle.std.specs.Prelude.{◌≡◌, ◌≤◌, ◌<◌, ◌↔◌, IfErr, IfNone, IfOk, IfSome, IsSome, length};
ghost use Rattle.dconf_model.specs.Table.{item_count};
ghost use Rattle.dconf_model.specs.Names.{full_name};
ghost use Rattle.dconf_model.specs.Sound.{HasPlace, IsFirstFault, KeepsAll};
ghost use Rattle.dconf_model.specs.Sound.Rule.{keys, chain};
ghost use Rattle.gvdb_check.specs.NotedItems.{AreLong};
ghost use Rattle.gvdb_check.specs.Unsounds.{KeepsBelow, rule_of};
ghost use Rattle.gvdb_format.specs.Tables.{region};

use crate::parents::{NotedItems, note_up};
use crate::place::has_parent;
use crate::unsound::{Rule, Unsound};
use gvdb_format::RawTable;

/// How many bytes a full name may have: as many as one item's key, whose size is a number of two bytes.
pub const MAX_NAME_LEN: usize = u16::MAX as usize;

/// Asks S9 of each item. It looks at the item and its parent, and no further up than to one whose length is noted, and then notes
/// its own length and those of the items above it.
#[tactic(auto, using(crate::proofs::RuleOrder::least_is_not_kept))]
pub(crate) fn check_places(table: RawTable<'_>) -> Result<(), Unsound>
    requires earlier { KeepsBelow (region table) 9 }
    ensures kept { IfOk result (λ _. KeepsBelow (region table.entry) 10) }
    ensures fault { IfErr result (λ e. IsFirstFault (region table.entry) (rule_of e.rule) e.item) }
{
    let mut noted = NotedItems::none();
    for i in 0..table.n_items() {
        let Some(len) = placed_len(table, i, &noted) else {
            return Err(Unsound {
                rule: Rule::Place,
                item: Some(i),
            });
        };
        note_up(table, i, len, &mut noted);
    }
    Ok(())
}

/// How many bytes item `i`'s full name has. None where it doesn't keep the rule.
#[tactic(auto, using(crate::proofs::NameLengths::placed_where_short))]
fn placed_len(table: RawTable<'_>, i: u32, noted: &NotedItems) -> Option<u16>
    requires keys { KeepsAll (region table) keys }
    requires chain { KeepsAll (region table) chain }
    requires counted { i < item_count (region table) }
    requires noted { AreLong (region table) noted.now }
    ensures some { IsSome result ↔ HasPlace (region table.entry) i }
    ensures len { IfSome result (λ len. length (full_name (region table.entry) i) ≡ len) }
{
    if !has_parent(table, i) {
        return None;
    }
    short_len(table, i, noted)
}

/// How many bytes item `i`'s full name has. None where it has more than 65,535.
fn short_len(table: RawTable<'_>, i: u32, noted: &NotedItems) -> Option<u16>
    requires keys { KeepsAll (region table) keys }
    requires chain { KeepsAll (region table) chain }
    requires counted { i < item_count (region table) }
    requires noted { AreLong (region table) noted.now }
    ensures len { IfSome result (λ len. length (full_name (region table.entry) i) ≡ len) }
    ensures short { IfSome result (λ len. len ≤ 65535) }
    ensures none { IfNone result (65535 < length (full_name (region table.entry) i)) }
{
    let mut at = i;
    let mut left = u16::MAX;
    loop {
        if let Some(len) = noted.get(at) {
            return Some(u16::MAX - left.checked_sub(len)?);
        }
        left = left.checked_sub(table.key_size_at(at))?;
        let Some(parent) = table.parent_at(at) else {
            return Some(u16::MAX - left);
        };
        at = parent;
    }
}
