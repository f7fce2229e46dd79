//! Who is told of what: the keys that are seen otherwise than before.
ghost use Rattle.std.specs.FinMap.{empty};
ghost use Rattle.std.specs.Prelude.{◌≡◌, ◌≤◌, [], ◌∷◌, ◌++◌, ℕ, List, false, IfOk, IfSome, OnOk, drop, filter, length, map, string_bytes};
ghost use Rattle.dconf_differences.specs.Differing.{AreAsked};
ghost use Rattle.dconf_differences.proofs.TwinLaws.{AreTwins};
ghost use Rattle.dconf_layers.specs.Entries.{entries_left, entry_row};
ghost use Rattle.dconf_layers.specs.LayerRows.{AreOf, paths_of};
ghost use Rattle.dconf_layers.specs.LayerSettings.{settings_of, seen_in};
ghost use Rattle.dconf_layers.specs.TextSets.{with_texts};
ghost use Rattle.dconf_model.specs.Order.{listing};
ghost use Rattle.dconf_told.specs.Seeing.{layers_in};
ghost use Rattle.dconf_told.specs.Telling.{AreTold, HasAllOthers, after_first, any_name, any_names, asked_otherwise, before_in, ended, named_otherwise, shown_otherwise};

use crate::alike::are_seen_alike;
use crate::seen::{DconfdbView, DconfdbWaits};
use crate::texts::{has_text, texts_of};
use dconf_differences::{differing, differing_first};
use dconf_layers::{Entries, Entry, Layer, LentLayers, Texts};
use dconf_path::KeyPath;
use gvdb_alike::differing_items;
use std::alloc::{AllocError, Global};

/// A key that is asked for by itself: what waited of it, and what waits, for who asks for that type; an empty text asks for any.
#[repr(C)]
#[derive(Clone, Copy)]
pub struct DconfdbKeyAsked<'a> {
    pub path: &'a [u8],
    pub type_text: &'a [u8],
    pub before: DconfdbWaits<'a>,
    pub after: DconfdbWaits<'a>,
}

/// What was seen, what is seen, and which keys are asked for by themselves.
#[derive(Clone, Copy)]
struct Telling<'a, 'l> {
    before: LentLayers<'a, 'l>,
    after: LentLayers<'a, 'l>,
    asked: &'l [DconfdbKeyAsked<'a>],
}

/// The keys that are seen otherwise than before: those that are asked for by themselves, beside what waits of them, and all others by
/// what the layers show. A value in other bytes is the same one. They are in the order of their bytes, once each. Where `same_others`,
/// the layers before but for the first count as those after.
///
/// An error comes where a growth is refused. It asks what [`differing`] asks, and once more of what differs. Where the others are the
/// same, it asks the keys of the two first layers alone: what [`differing_first`] asks, or, if few of their items may be otherwise, these
/// alone. Each is searched for by halving among the keys that are asked for.
pub fn told<'a, 'l>(
    alloc: Global,
    before: LentLayers<'a, 'l>,
    after: LentLayers<'a, 'l>,
    same_others: bool,
    asked: &'l [DconfdbKeyAsked<'a>],
) -> Result<Vec<String>, AllocError>
    ensures { IfOk result (λ paths. AreTold (before_in same_others (seen_in before.entry) (seen_in after.entry)) (seen_in after.entry) asked.now (map string_bytes paths.items)) }
{
    if !same_others {
        return told_of_all(alloc, before, after, asked);
    }
    let Some((first, _)) = before.layers.split_first() else {
        return told_of_all(alloc, before, after, asked);
    };
    told_of_first(alloc, *first, before.writable, after, asked)
}

/// The same where all layers may differ.
fn told_of_all<'a, 'l>(
    alloc: Global,
    before: LentLayers<'a, 'l>,
    after: LentLayers<'a, 'l>,
    asked: &'l [DconfdbKeyAsked<'a>],
) -> Result<Vec<String>, AllocError>
    ensures { IfOk result (λ paths. AreTold (seen_in before.entry) (seen_in after.entry) asked.now (map string_bytes paths.items)) }
{
    let count = most_layers(before, after);
    let others = differing(alloc, before, after, count)?;
    let telling = Telling {
        before,
        after,
        asked,
    };
    telling.list(alloc, others.as_slice())
}

/// The same where before only the first layer was another one, which was the user's if `was_writable`.
fn told_of_first<'a, 'l>(
    alloc: Global,
    first: Layer<'a>,
    was_writable: bool,
    after: LentLayers<'a, 'l>,
    asked: &'l [DconfdbKeyAsked<'a>],
) -> Result<Vec<String>, AllocError>
    ensures { IfOk result (λ paths. AreTold (after_first was_writable (settings_of first.entry) (seen_in after.entry)) (seen_in after.entry) asked.now (map string_bytes paths.items)) }
{
    let layers = with_first(alloc, after, first)?;
    let telling = Telling {
        before: LentLayers::new(was_writable, &layers),
        after,
        asked,
    };
    if let Some((newer, _)) = after.layers.split_first() {
        if let Some(paths) = telling.list_of_few(alloc, first, *newer)? {
            return Ok(paths);
        }
    }
    let others = differing_first(alloc, after, first)?;
    telling.list(alloc, others.as_slice())
}

/// The same, as they are handed out: a zero byte after each.
pub fn told_texts<'a, 'l>(
    alloc: Global,
    before: LentLayers<'a, 'l>,
    after: LentLayers<'a, 'l>,
    same_others: bool,
    asked: &'l [DconfdbKeyAsked<'a>],
) -> Result<Vec<u8>, AllocError>
    ensures { IfOk result (λ all. (paths : List (List ℕ)) × AreTold (before_in same_others (seen_in before.entry) (seen_in after.entry)) (seen_in after.entry) asked.now paths × (all.items ≡ ended paths)) }
{
    let paths = told(alloc, before, after, same_others, asked)?;
    texts_of(alloc, paths.as_slice())
}

impl<'a> Telling<'a, '_> {
    /// The keys that are told, by those that the layers show otherwise, among others.
    fn list(self, alloc: Global, others: &[String]) -> Result<Vec<String>, AllocError>
        requires { HasAllOthers (seen_in self.before) (seen_in self.after) (map string_bytes others.now) }
        ensures { IfOk result (λ paths. AreTold (seen_in self.entry.before) (seen_in self.entry.after) self.entry.asked.now (map string_bytes paths.items)) }
    {
        let mut paths = self.asked_otherwise(alloc)?;
        let any = self.asked_of_any(alloc)?;
        self.add_others(alloc, others, any.as_slice(), &mut paths)?;
        paths.list()
    }

    /// The keys that are told, where the layers are the same but for these two, the first before and the first after. None says nothing:
    /// too many keys may be otherwise in these.
    fn list_of_few(
        self,
        alloc: Global,
        older: Layer<'_>,
        newer: Layer<'_>,
    ) -> Result<Option<Vec<String>>, AllocError>
        requires { AreTwins (seen_in self.before) (seen_in self.after) (settings_of older) (settings_of newer) }
        ensures { IfOk result (λ found. IfSome found (λ paths. AreTold (seen_in self.entry.before) (seen_in self.entry.after) self.entry.asked.now (map string_bytes paths.items))) }
    {
        let Some((gone, come)) = few_apart(older, newer) else {
            return Ok(None);
        };
        let mut paths = self.asked_otherwise(alloc)?;
        let any = self.asked_of_any(alloc)?;
        self.add_entries(alloc, gone, any.as_slice(), &mut paths)?;
        self.add_entries(alloc, come, any.as_slice(), &mut paths)?;
        Ok(Some(paths.list()?))
    }

    /// Adds those of a layer's entries that are shown otherwise, and nobody asks for of any type.
    fn add_entries(
        self,
        alloc: Global,
        entries: Entries<'_>,
        any: &[String],
        paths: &mut Texts,
    ) -> Result<(), AllocError>
        requires { map string_bytes any.now ≡ listing (any_names self.asked.now) }
        ensures { OnOk result (paths.new ≡ with_texts (filter (shown_otherwise (seen_in self.entry.before) (seen_in self.entry.after) self.entry.asked.now)
            (paths_of (entries_left entries.entry))) paths.old) }
    {
        for entry in entries {
            self.add_entry(alloc, entry, any, paths)?;
        }
        Ok(())
    }

    /// Adds one of them, if it is.
    fn add_entry(
        self,
        alloc: Global,
        entry: Entry<'_>,
        any: &[String],
        paths: &mut Texts,
    ) -> Result<(), AllocError>
        requires { map string_bytes any.now ≡ listing (any_names self.asked.now) }
        ensures { OnOk result (paths.new ≡ with_texts (filter (shown_otherwise (seen_in self.entry.before) (seen_in self.entry.after) self.entry.asked.now)
            ((entry_row entry.entry).0 ∷ [])) paths.old) }
    {
        let path = entry.path(alloc)?;
        if !self.is_shown_otherwise(alloc, any, path.as_str())? {
            return Ok(());
        }
        paths.add(path.as_str())
    }

    /// The keys that are asked for of any type, in the order of their bytes.
    fn asked_of_any(self, alloc: Global) -> Result<Vec<String>, AllocError>
        ensures { IfOk result (λ paths. map string_bytes paths.items ≡ listing (any_names self.entry.asked.now)) }
    {
        let mut paths = Texts::new(alloc);
        for key in self.asked {
            add_if_any(*key, &mut paths)?;
        }
        paths.list()
    }

    /// The keys that are asked for by themselves, and are seen otherwise.
    fn asked_otherwise(self, alloc: Global) -> Result<Texts, AllocError>
        ensures { IfOk result (λ paths. paths ≡ with_texts (named_otherwise (seen_in self.entry.before) (seen_in self.entry.after) self.entry.asked.now) empty) }
    {
        let mut paths = Texts::new(alloc);
        self.add_asked(alloc, &mut paths)?;
        Ok(paths)
    }

    /// Adds the keys that are asked for by themselves, and are seen otherwise.
    fn add_asked(self, alloc: Global, paths: &mut Texts) -> Result<(), AllocError>
        ensures { OnOk result (paths.new ≡ with_texts (named_otherwise (seen_in self.entry.before) (seen_in self.entry.after) self.entry.asked.now) paths.old) }
    {
        for key in self.asked {
            self.add_one(alloc, *key, paths)?;
        }
        Ok(())
    }

    /// Adds one of them, if it is.
    fn add_one(
        self,
        alloc: Global,
        key: DconfdbKeyAsked<'_>,
        paths: &mut Texts,
    ) -> Result<(), AllocError>
        ensures { OnOk result (paths.new ≡ with_texts (named_otherwise (seen_in self.entry.before) (seen_in self.entry.after) (key.entry ∷ [])) paths.old) }
    {
        if !self.is_otherwise(alloc, key)? {
            return Ok(());
        }
        match KeyPath::of_bytes(key.path) {
            Some(path) => paths.add(path.as_str()),
            None => Ok(()),
        }
    }

    /// Adds those of these keys that the layers show otherwise, and nobody asks for of any type.
    fn add_others(
        self,
        alloc: Global,
        others: &[String],
        any: &[String],
        paths: &mut Texts,
    ) -> Result<(), AllocError>
        requires { map string_bytes any.now ≡ listing (any_names self.asked.now) }
        ensures { OnOk result (paths.new ≡ with_texts (filter (shown_otherwise (seen_in self.entry.before) (seen_in self.entry.after) self.entry.asked.now) (map string_bytes others.now)) paths.old) }
    {
        for path in others {
            if self.is_shown_otherwise(alloc, any, path.as_str())? {
                paths.add(path.as_str())?;
            }
        }
        Ok(())
    }

    /// Whether a key is shown otherwise that nobody asks for of any type.
    fn is_shown_otherwise(
        self,
        alloc: Global,
        any: &[String],
        path: &str,
    ) -> Result<bool, AllocError>
        requires { map string_bytes any.now ≡ listing (any_names self.asked.now) }
        ensures { IfOk result (λ is. is ≡ shown_otherwise (seen_in self.entry.before) (seen_in self.entry.after) self.entry.asked.now path.now) }
    {
        if has_text(any, path) {
            return Ok(false);
        }
        self.is_otherwise(alloc, bare(path.as_bytes()))
    }

    /// Whether a key that is asked for by itself is seen otherwise.
    fn is_otherwise(self, alloc: Global, key: DconfdbKeyAsked<'_>) -> Result<bool, AllocError>
        ensures { IfOk result (λ is. is ≡ asked_otherwise (seen_in self.entry.before) (seen_in self.entry.after) key.entry) }
    {
        let before = view(self.before, key.before);
        let after = view(self.after, key.after);
        let alike = are_seen_alike(alloc, before, after, key.path, key.type_text)?;
        Ok(!alike)
    }
}

/// So many keys are asked at once, and more only if a search has found them otherwise.
const FEW: u32 = 4;

/// The entries of each of two layers that the other one may have otherwise, if they are few. It looks at the items of both once, as
/// [`differing_items`] says.
fn few_apart<'a>(one: Layer<'a>, other: Layer<'a>) -> Option<(Entries<'a>, Entries<'a>)>
    ensures of_one { IfSome result (λ found. AreOf one.entry (entries_left found.0)) }
    ensures one { IfSome result (λ found. AreAsked one.entry other.entry (entries_left found.0)) }
    ensures of_other { IfSome result (λ found. AreOf other.entry (entries_left found.1)) }
    ensures other { IfSome result (λ found. AreAsked other.entry one.entry (entries_left found.1)) }
{
    let items = differing_items(one.table(), other.table())?;
    if items.end - items.first > FEW {
        return None;
    }
    let ones = one.entries_in(items.first, items.end);
    let others = other.entries_in(items.first, items.end);
    Some((ones, others))
}

/// How many layers there are, before or after, whichever are more.
pub(crate) fn most_layers(before: LentLayers<'_, '_>, after: LentLayers<'_, '_>) -> usize
    ensures before { length (seen_in before.entry).layers ≤ result }
    ensures after { length (seen_in after.entry).layers ≤ result }
{
    if before.layers.len() < after.layers.len() {
        after.layers.len()
    } else {
        before.layers.len()
    }
}

/// The layers with this one as the first.
fn with_first<'a>(
    alloc: Global,
    layers: LentLayers<'a, '_>,
    first: Layer<'a>,
) -> Result<Vec<Layer<'a>>, AllocError>
    ensures { IfOk result (λ made. map settings_of made.items ≡ settings_of first.entry ∷ drop 1 (seen_in layers.entry).layers) }
{
    let mut made = Vec::new(alloc);
    made.push(first)?;
    if let Some((_, others)) = layers.layers.split_first() {
        made.extend_from_slice(others)?;
    }
    Ok(made)
}

/// What a key is seen through beside an edit of it.
fn view<'a, 'l>(layers: LentLayers<'a, 'l>, edit: DconfdbWaits<'a>) -> DconfdbView<'a, 'l>
    ensures layers { layers_in result ≡ seen_in layers.entry }
    ensures edit { result.edit ≡ edit.entry }
{
    DconfdbView {
        layers: layers.layers,
        edit,
        writable: layers.writable,
    }
}

/// Adds a key, if it is asked for of any type.
fn add_if_any(key: DconfdbKeyAsked<'_>, paths: &mut Texts) -> Result<(), AllocError>
    ensures { OnOk result (paths.new ≡ with_texts (any_name key.entry) paths.old) }
{
    if !key.type_text.is_empty() {
        return Ok(());
    }
    match KeyPath::of_bytes(key.path) {
        Some(path) => paths.add(path.as_str()),
        None => Ok(()),
    }
}

/// A key of any type that nothing waits of.
fn bare(path: &[u8]) -> DconfdbKeyAsked<'_>
    ensures path { result.path.now ≡ path.now }
    ensures any { result.type_text.now ≡ [] }
    ensures before { result.before.waits ≡ false }
    ensures after { result.after.waits ≡ false }
{
    let none = DconfdbWaits {
        value: &[],
        type_text: &[],
        waits: false,
        sets: false,
    };
    DconfdbKeyAsked {
        path,
        type_text: &[],
        before: none,
        after: none,
    }
}
