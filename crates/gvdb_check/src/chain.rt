//! S3: the item's parents end, and its key isn't empty.
ghost use Rattle.std.specs.Prelude.{◌<◌, ◌↔◌, List, ℕ, IfErr, IfOk, IsTrue};
ghost use Rattle.dconf_model.specs.Table.{item_count};
ghost use Rattle.dconf_model.specs.Searchable.{HasEnd, LeadsUp};
ghost use Rattle.dconf_model.specs.Sound.{IsFirstFault, KeepsAll};
ghost use Rattle.dconf_model.specs.Sound.Rule.{keys, chain};
ghost use Rattle.gvdb_check.specs.NotedItems.{DoEnd};
ghost use Rattle.gvdb_check.specs.Unsounds.{KeepsBelow, KeptBefore, rule_of};
ghost use Rattle.gvdb_format.specs.Tables.{region};

use crate::parents::{NotedItems, note_up};
use crate::unsound::{Rule, Unsound};
use gvdb_format::RawTable;

/// Asks S3 of each item. It looks at no more of its parents than up to one that is noted or has a lower number, and then notes it
/// and those above it.
#[tactic(auto, using(crate::proofs::RuleOrder::least_is_not_kept))]
pub(crate) fn check_chains(table: RawTable<'_>) -> Result<(), Unsound>
    requires earlier { KeepsBelow (region table) 3 }
    ensures kept { IfOk result (λ _. KeepsBelow (region table.entry) 4) }
    ensures fault { IfErr result (λ e. IsFirstFault (region table.entry) (rule_of e.rule) e.item) }
    ensures not_kept { IfErr result (λ _. ¬ KeepsAll (region table.entry) chain) }
{
    let mut noted = NotedItems::none();
    for i in 0..table.n_items() {
        if !has_end(table, i, &noted) {
            return Err(Unsound {
                rule: Rule::Chain,
                item: Some(i),
            });
        }
        note_up(table, i, 0, &mut noted);
    }
    Ok(())
}

/// Whether item `i` keeps the rule, where each lower item does.
#[tactic(auto, using(crate::proofs::NameLengths::key_long))]
fn has_end(table: RawTable<'_>, i: u32, noted: &NotedItems) -> bool
    requires counted { i < item_count (region table) }
    requires keys { KeepsAll (region table) keys }
    requires noted { DoEnd (region table) noted.now }
    ensures { KeptBefore (region table.entry) chain i → IsTrue result ↔ HasEnd (region table.entry) i }
{
    table.key_size_at(i) > 0 && ends_at_noted(table, i, noted)
}

/// Whether the parents of item `i` end, where those of each lower item do. As many steps as there are items are enough:
/// more would come to an item for the second time, and go round in a circle.
fn ends_at_noted(table: RawTable<'_>, i: u32, noted: &NotedItems) -> bool
    requires counted { i < item_count (region table) }
    requires keys { KeepsAll (region table) keys }
    requires noted { DoEnd (region table) noted.now }
    ensures { KeptBefore (region table.entry) chain i
        → IsTrue result ↔ ((parents : List ℕ) × LeadsUp (region table.entry) i parents) }
{
    let mut at = i;
    for _ in 0..table.n_items() {
        if noted.get(at).is_some() {
            return true;
        }
        let Some(parent) = table.parent_at(at) else {
            return true;
        };
        if parent < i {
            return true;
        }
        at = parent;
    }
    false
}
