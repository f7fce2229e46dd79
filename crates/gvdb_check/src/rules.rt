//! Whether a database is sound: the rules are asked one by one, in their order.
ghost use Rattle.std.specs.Prelude.{◌≢◌, ◌+◌, ◌<◌, ◌↔◌, ℕ, Bool, IfErr, IfOk, IsTrue};
ghost use Rattle.dconf_model.specs.Table.{item_count};
ghost use Rattle.dconf_model.specs.Searchable.{IsSearchable};
ghost use Rattle.dconf_model.specs.Sound.{IsFirstFault, IsSound, Keeps, KeepsAll, rule_number};
ghost use Rattle.dconf_model.specs.Sound.Rule.{buckets, hash, once};
ghost use Rattle.gvdb_check.specs.Unsounds.{IsAskedAlone, KeepsBelow, rule_of};
ghost use Rattle.gvdb_format.specs.Tables.{region};

use crate::bloom::is_in_bloom;
use crate::buckets::has_buckets;
use crate::chain::check_chains;
use crate::content::has_content;
use crate::hash::has_hash_of_name;
use crate::hash_by_parent::hashes_go_on;
use crate::keys::has_good_key;
use crate::length::check_places;
use crate::lists::has_list_if_any;
use crate::lists_counted::lists_hold_all;
use crate::locks::has_locks_if_any;
use crate::once::is_only_named;
use crate::once_by_hash::hashes_tell;
use crate::one_pass::all_keep;
use crate::span::is_in_span;
use crate::unsound::{Rule, Unsound};
use gvdb_format::RawTable;

/// Whether the table, as the root of a database, is sound. Where it isn't, the error names the first rule that
/// fails, in the order of [`Rule`], and the least item that breaks it.
///
/// It takes no memory. One pass sees that a usual file is sound: it reads each item once, with its key and its bucket, and
/// each number of a list; a key's bytes are counted once. Where it says nothing, the rules are asked in order, some by a
/// quick way first, which says that all items keep the rule, or nothing:
///
/// | Rule | Quick way | Slow way | What it looks at |
/// |---|---|---|---|
/// | S1, buckets | | each by itself | each bucket once |
/// | S2, keys; S5, span; S6, bloom; S8, content | | each by itself | each record, and of S2 each byte of the keys |
/// | S3, chain | | up the parents | from each item the parents up to one of a lower number, or to one of 256 that are noted |
/// | S4, hash | each goes on from its parent's | each by itself | quickly the bytes of the keys, slowly those of the full names |
/// | S7, once | by hashes, where buckets are long | by names | quickly each hash once for each 2,048 items, slowly each item and the lower ones of its bucket |
/// | S9, place | | the item and its parent, and its name's length | from each item the parents up to one of 256 that are noted |
/// | S10, lists | all lists together | list by list | quickly each number once where they rise, else once for each 32,768 items; slowly for each list all items, and for each number those before it |
/// | S11, locks | | | what S1 to S8 look at, of the table of locks |
pub fn check(table: RawTable<'_>) -> Result<(), Unsound>
    ensures sound { IfOk result (λ _. IsSound (region table.entry)) }
    ensures fault { IfErr result (λ e. IsFirstFault (region table.entry) (rule_of e.rule) e.item) }
{
    if all_keep(table) {
        return Ok(());
    }
    check_in_order(table)
}

/// The same, rule by rule.
fn check_in_order(table: RawTable<'_>) -> Result<(), Unsound>
    ensures sound { IfOk result (λ _. IsSound (region table.entry)) }
    ensures fault { IfErr result (λ e. IsFirstFault (region table.entry) (rule_of e.rule) e.item) }
{
    check_names(table)?;
    check_places(table)?;
    check_lists(table)?;
    each_keeps(table, Rule::Locks, |i| has_locks_if_any(table, i))
}

/// Whether each item of the table can be found by its name: it keeps S1 to S8.
pub(crate) fn is_searchable(table: RawTable<'_>) -> bool
    ensures { IsTrue result ↔ IsSearchable (region table.entry) }
{
    check_names(table).is_ok()
}

/// Asks S1 to S8, the rules by which each item can be found by its name.
fn check_names(table: RawTable<'_>) -> Result<(), Unsound>
    ensures kept { IfOk result (λ _. KeepsBelow (region table.entry) 9) }
    ensures fault { IfErr result (λ e. IsFirstFault (region table.entry) (rule_of e.rule) e.item) }
    ensures not_searchable { IfErr result (λ _. ¬ IsSearchable (region table.entry)) }
{
    if !has_buckets(table) {
        return Err(Unsound {
            rule: Rule::Buckets,
            item: None,
        });
    }
    check_names_in_buckets(table)
}

/// Asks S7. Where buckets are long, hashes tell of most items that they are the first of their names. Else it looks at the items
/// of each item's bucket.
fn check_once(table: RawTable<'_>) -> Result<(), Unsound>
    requires earlier { KeepsBelow (region table) 7 }
    ensures kept { IfOk result (λ _. KeepsBelow (region table.entry) 8) }
    ensures fault { IfErr result (λ e. IsFirstFault (region table.entry) (rule_of e.rule) e.item) }
    ensures not_kept { IfErr result (λ _. ¬ KeepsAll (region table.entry) once) }
{
    if hashes_tell(table) {
        return Ok(());
    }
    each_keeps(table, Rule::Once, |i| is_only_named(table, i))
}

/// Asks S2 to S8.
fn check_names_in_buckets(table: RawTable<'_>) -> Result<(), Unsound>
    requires earlier { KeepsBelow (region table) 2 }
    ensures kept { IfOk result (λ _. KeepsBelow (region table.entry) 9) }
    ensures fault { IfErr result (λ e. IsFirstFault (region table.entry) (rule_of e.rule) e.item) }
    ensures not_searchable { IfErr result (λ _. ¬ IsSearchable (region table.entry)) }
{
    check_each(table, Rule::Keys)?;
    check_chains(table)?;
    check_hashes(table)?;
    check_each(table, Rule::Span)?;
    check_each(table, Rule::Bloom)?;
    check_once(table)?;
    check_each(table, Rule::Content)
}

/// Asks S4. Where each hash goes on from the parent's it looks at each byte of the keys once. Else it looks at each byte
/// of the full names, up to the first item whose hash is wrong.
fn check_hashes(table: RawTable<'_>) -> Result<(), Unsound>
    requires earlier { KeepsBelow (region table) 4 }
    ensures kept { IfOk result (λ _. KeepsBelow (region table.entry) 5) }
    ensures fault { IfErr result (λ e. IsFirstFault (region table.entry) (rule_of e.rule) e.item) }
    ensures not_kept { IfErr result (λ _. ¬ KeepsAll (region table.entry) hash) }
{
    if hashes_go_on(table) {
        return Ok(());
    }
    check_each(table, Rule::Hash)
}

/// Asks S10. Where no list is seen to hold a number twice, and all of them together hold as many numbers as they should, it looks
/// at each item once, and at each number once or for each 32,768 items. Else it looks at each item once for each list, and
/// compares each number of a list with its children and with the numbers before it.
#[tactic(auto, using(crate::proofs::RuleOrder::one_more))]
fn check_lists(table: RawTable<'_>) -> Result<(), Unsound>
    requires earlier { KeepsBelow (region table) 10 }
    ensures kept { IfOk result (λ _. KeepsBelow (region table.entry) 11) }
    ensures fault { IfErr result (λ e. IsFirstFault (region table.entry) (rule_of e.rule) e.item) }
{
    if lists_hold_all(table) {
        return Ok(());
    }
    check_each(table, Rule::Lists)
}

/// Asks a rule of each item by itself.
fn check_each(table: RawTable<'_>, rule: Rule) -> Result<(), Unsound>
    requires alone { IsAskedAlone (rule_of rule) }
    requires earlier { KeepsBelow (region table) (rule_number (rule_of rule)) }
    ensures kept { IfOk result (λ _. KeepsBelow (region table.entry) (rule_number (rule_of rule) + 1)) }
    ensures fault { IfErr result (λ e. IsFirstFault (region table.entry) (rule_of e.rule) e.item) }
    ensures not_kept { IfErr result (λ _. ¬ KeepsAll (region table.entry) (rule_of rule)) }
{
    each_keeps(table, rule, |i| keeps(table, rule, i))
}

/// Whether item `i` keeps a rule. A closure for each rule would be dearer to prove.
fn keeps(table: RawTable<'_>, rule: Rule, i: u32) -> bool
    requires alone { IsAskedAlone (rule_of rule) }
    requires earlier { KeepsBelow (region table) (rule_number (rule_of rule)) }
    requires counted { i < item_count (region table) }
    ensures { IsTrue result ↔ Keeps (region table.entry) (rule_of rule) i }
{
    match rule {
        Rule::Keys => has_good_key(table, i),
        Rule::Hash => has_hash_of_name(table, i),
        Rule::Span => is_in_span(table, i),
        Rule::Bloom => is_in_bloom(table, i),
        Rule::Content => has_content(table, i, table.stored(i)),
        Rule::Lists => has_list_if_any(table, i),
        // No other rule is asked so.
        Rule::Buckets => true,
        Rule::Chain => true,
        Rule::Once => true,
        Rule::Place => true,
        Rule::Locks => true,
    }
}

/// Refuses a table in which an item doesn't keep the rule, at the least such item.
#[tactic(auto, using(crate::proofs::RuleOrder::least_is_not_kept, crate::proofs::RuleOrder::all_keep))]
fn each_keeps<F: Fn(u32) -> bool>(table: RawTable<'_>, rule: Rule, keeps: F) -> Result<(), Unsound>
    requires of_items { rule_of rule ≢ buckets }
    requires earlier { KeepsBelow (region table) (rule_number (rule_of rule)) }
    requires callable { (i : ℕ) → i < item_count (region table) → F.pre keeps i }
    requires tells { (i : ℕ) (b : Bool) → F.post keeps i b → IsTrue b ↔ Keeps (region table) (rule_of rule) i }
    ensures kept { IfOk result (λ _. KeepsBelow (region table.entry) (rule_number (rule_of rule) + 1)) }
    ensures fault { IfErr result (λ e. IsFirstFault (region table.entry) (rule_of e.rule) e.item) }
    ensures not_kept { IfErr result (λ _. ¬ KeepsAll (region table.entry) (rule_of rule)) }
{
    for i in 0..table.n_items() {
        if !keeps(i) {
            return Err(Unsound {
                rule,
                item: Some(i),
            });
        }
    }
    Ok(())
}
