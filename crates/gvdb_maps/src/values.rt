//! The values of a database: equal ones are stored once, at the first place. A value is looked for at the slot of its hash,
//! where most are alone; those that come to a slot that is taken are in a map. So its bytes are compared with those of one
//! value, and else with as many as that map is deep, whatever their hashes are.
ghost use Rattle.std.specs.Prelude.{◌≡◌, ◌<◌, ◌≤◌, ◌+◌, [], fold, length, slice_index_or, OnOk, IfOk};
ghost use Rattle.dconf_model.specs.Plans.{with_new};
ghost use Rattle.gvdb_maps.specs.Limits.{limit};
ghost use Rattle.gvdb_maps.specs.LayoutParts.{own_values, HavePlaces, place_by, ArePlaces};
ghost use Rattle.gvdb_values.specs.WrittenValues.{bytes_of_each};

use crate::names::{Content, Named};
use gvdb_format::hash;
use std::alloc::{AllocError, Global};
use std::collections::BTreeMap;

/// Values in the order in which they came, each of them once.
#[derive(Drop)]
pub(crate) struct Values<'a> {
    pub(crate) distinct: Vec<&'a [u8]>,
    /// The place of the first value of each slot, counted from 1; of a slot without one, 0.
    slots: Vec<u32>,
    /// The place of each other one.
    others: BTreeMap<&'a [u8], usize>,
}

impl<'a> Values<'a> {
    /// No values. There is room for so many, and they are looked for fast.
    pub(crate) fn new(alloc: Global, many: usize) -> Result<Values<'a>, AllocError>
        ensures empty { IfOk result (λ values. values.distinct.items ≡ []) }
        ensures places { IfOk result (λ values. ArePlaces values.slots.items values.others (bytes_of_each values.distinct.items)) }
    {
        let mut slots = Vec::new(alloc);
        // With four slots for each item, one value in nine or less comes to a slot that is taken.
        slots.resize(many.saturating_mul(4).max(1), 0u32)?;
        Ok(Values {
            distinct: Vec::with_capacity(alloc, many)?,
            slots,
            others: BTreeMap::new(alloc),
        })
    }

    /// Adds a value, unless an equal one is there, and gives the place that it has.
    pub(crate) fn add(&mut self, value: &'a [u8]) -> Result<usize, AllocError>
        requires room { length self.old.distinct.items < limit }
        requires places { ArePlaces self.old.slots.items self.old.others (bytes_of_each self.old.distinct.items) }
        ensures places { OnOk result (ArePlaces self.new.slots.items self.new.others (bytes_of_each self.new.distinct.items)) }
        ensures distinct { OnOk result (bytes_of_each self.new.distinct.items ≡ with_new (bytes_of_each self.old.distinct.items) value.now) }
        ensures within { IfOk result (λ place. place < length self.new.distinct.items) }
        ensures place { IfOk result (λ place. slice_index_or (bytes_of_each self.new.distinct.items) place [] ≡ value.now) }
    {
        let slot = hash(value) as usize % self.slots.len();
        if let Some(place) = self.place(value, self.slots[slot] as usize) {
            return Ok(place);
        }
        let place = self.distinct.len();
        if self.slots[slot] == 0 {
            self.slots[slot] = (place + 1) as u32;
        } else {
            self.others.insert(value, place)?;
        }
        self.distinct.push(value)?;
        Ok(place)
    }

    /// Where a value is, if it is there and its slot has that.
    fn place(&self, value: &'a [u8], first: usize) -> Option<usize>
        requires { first ≤ length self.now.distinct.items }
        ensures { result ≡ place_by self.now.others (bytes_of_each self.now.distinct.items) value.entry first }
    {
        if first == 0 {
            return None;
        }
        if self.distinct[first - 1] == value {
            return Some(first - 1);
        }
        self.others.get(&value).copied()
    }
}

/// The values of a database that are stored, and which of them each item has.
#[derive(Drop)]
pub(crate) struct PlacedValues<'a> {
    /// Each value once, in the order in which the items have them.
    pub(crate) distinct: Vec<&'a [u8]>,
    /// The place of the value of each item of the root table among them; of an item without one, 0.
    pub(crate) root: Vec<usize>,
    /// The same of the table of locks.
    pub(crate) locks: Vec<usize>,
}

impl<'a> PlacedValues<'a> {
    /// The values of the items of the root table, and then of those of the table of locks.
    pub(crate) fn new(
        alloc: Global,
        root: &[Named<'a>],
        locks: &[Named<'a>],
    ) -> Result<PlacedValues<'a>, AllocError>
        requires room { length root.now + length locks.now ≤ limit }
        ensures distinct { IfOk result (λ placed. bytes_of_each placed.distinct.items
            ≡ fold with_new (fold with_new [] (own_values root.now)) (own_values locks.now)) }
        ensures root { IfOk result (λ placed. HavePlaces root.now (bytes_of_each placed.distinct.items) placed.root.items) }
        ensures locks { IfOk result (λ placed. HavePlaces locks.now (bytes_of_each placed.distinct.items) placed.locks.items) }
    {
        let mut values = Values::new(alloc, root.len())?;
        let root = value_places(alloc, root, &mut values)?;
        let locks = value_places(alloc, locks, &mut values)?;
        Ok(PlacedValues {
            distinct: values.distinct,
            root,
            locks,
        })
    }
}

/// The place of the value of each item among all values; of another item, 0.
fn value_places<'a>(
    alloc: Global,
    items: &[Named<'a>],
    values: &mut Values<'a>,
) -> Result<Vec<usize>, AllocError>
    requires room { length values.old.distinct.items + length items.now ≤ limit }
    requires places { ArePlaces values.old.slots.items values.old.others (bytes_of_each values.old.distinct.items) }
    ensures known { OnOk result (ArePlaces values.new.slots.items values.new.others (bytes_of_each values.new.distinct.items)) }
    ensures distinct { OnOk result (bytes_of_each values.new.distinct.items
        ≡ fold with_new (bytes_of_each values.old.distinct.items) (own_values items.now)) }
    ensures count { OnOk result (length values.new.distinct.items ≤ length values.old.distinct.items + length items.now) }
    ensures places { IfOk result (λ places. HavePlaces items.now (bytes_of_each values.new.distinct.items) places.items) }
{
    let mut places = Vec::with_capacity(alloc, items.len())?;
    for named in items {
        let place = match named.content {
            Content::Value(bytes) => values.add(bytes)?,
            _ => 0,
        };
        places.push(place)?;
    }
    Ok(places)
}
