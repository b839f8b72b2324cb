// The orders of all keys.
ghost use Rattle.std.specs.Prelude.{◌≡◌, ◌<◌, [], map, length, position, IfOk, OnOk};
ghost use Rattle.std.specs.List.{AllByRecursion};
ghost use Rattle.std.specs.Str.{bytes_eq};
ghost use Rattle.peg_model.specs.Order.{tagged};
ghost use Rattle.peg_history.specs.Entries.{InRange, added, grouped};
ghost use Rattle.peg_history.specs.Groups.{group_of, IsIndex, extended, key_orders};

use crate::order::{entry_if, keep, order_in};
use crate::{Entry, History, KeyOrder};
use indexmap::IndexSet;
use peg_name::{Key, OutOfMemory, Version};
use std::alloc::Global;

// The entries of a key.
#[derive(Drop)]
struct Group {
    key: Key,
    entries: Vec<Entry>,
}

/// The orders of all keys with an operation, in the order of first issue. The history is read once.
pub fn orders_of(
    alloc: Global,
    history: &History,
    tags: &[Version],
) -> Result<Vec<KeyOrder>, OutOfMemory>
    requires { length tags.now ≡ length history.now.ops }
    ensures { IfOk result (λ orders. orders.items ≡ key_orders history.now.ops tags.now) }
{
    let groups = groups_of(alloc, history, tags)?;
    let mut orders = Vec::new(alloc);
    for group in groups {
        orders.push(order_in(alloc, group.key, group.entries)?)?;
    }
    Ok(orders)
}

fn groups_of(alloc: Global, history: &History, tags: &[Version]) -> Result<Vec<Group>, OutOfMemory>
    requires { length tags.now ≡ length history.now.ops }
    ensures groups { IfOk result
        (λ groups. map group_of groups.items ≡ grouped [] (tagged 0 history.now.ops tags.now)) }
    ensures range { OnOk result (AllByRecursion InRange (tagged 0 history.now.ops tags.now)) }
{
    let mut known = IndexSet::new(alloc);
    let mut groups = Vec::new(alloc);
    for place in 0..history.len() {
        let op = history.op(place);
        let entry = entry_if(place, &op, tags[place as usize]);
        add(alloc, &mut known, &mut groups, &op.key, entry)?;
    }
    Ok(groups)
}

// Adds an entry to the group of its key, which is a new one where the key has none.
fn add(
    alloc: Global,
    known: &mut IndexSet<Key>,
    groups: &mut Vec<Group>,
    key: &Key,
    entry: Option<Entry>,
) -> Result<(), OutOfMemory>
    requires { IsIndex known.old.keys (map group_of groups.old.items) }
    ensures groups { OnOk result
        (map group_of groups.new.items ≡ added (map group_of groups.old.items) key.now entry) }
    ensures index { OnOk result (IsIndex known.new.keys (map group_of groups.new.items)) }
{
    if let Some(index) = place_of(known, key) {
        extend(groups, index, entry)?;
        return Ok(());
    }
    known.insert(*key)?;
    let mut entries = Vec::new(alloc);
    keep(&mut entries, entry)?;
    groups.push(Group { key: *key, entries })?;
    Ok(())
}

fn place_of(known: &IndexSet<Key>, key: &Key) -> Option<usize>
    ensures { result ≡ position (bytes_eq key.now) known.now.keys }
{
    known.get_index_of(key)
}

fn extend(groups: &mut Vec<Group>, index: usize, entry: Option<Entry>) -> Result<(), OutOfMemory>
    requires { index < length groups.old.items }
    ensures { OnOk result (map group_of groups.new.items ≡ extended (map group_of groups.old.items)
        index entry) }
{
    let group = &mut groups[index];
    keep(&mut group.entries, entry)?;
    Ok(())
}
