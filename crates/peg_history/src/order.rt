// The order of one key.
ghost use Rattle.std.specs.Prelude.{◌≡◌, ℕ, ◌+◌, ◌<◌, ◌≤◌, ◌^◌, ◌==◌, ◌||◌, not, filter, ◌++◌};
ghost use Rattle.std.specs.Prelude.{length, map, IfOk, OnOk, IfSome, option_to_list};
ghost use Rattle.std.specs.List.{list_any};
ghost use Rattle.std.specs.List.Sorted.{IsNonDecreasing};
ghost use Rattle.peg_model.specs.Order.{order_of};
ghost use Rattle.peg_history.specs.Entries.{entry_if, printed, has_read};

use crate::{Entry, History, KeyOrder, Ops};
use peg_event::{Act, Op};
use peg_name::{Key, OutOfMemory, Version};
use std::alloc::Global;

/// The order of a key: its answered operations, and those of its unanswered writes whose tag is the
/// tag of an answered read of the key; by tag, writes first, then by answer place, and last by number.
pub fn order_of(
    alloc: Global,
    history: &History,
    tags: &[Version],
    key: &Key,
) -> Result<KeyOrder, OutOfMemory>
    requires { length tags.now ≡ length history.now.ops }
    ensures { IfOk result (λ o. o ≡
        record { key = key.now; ops = order_of history.now.ops tags.now key.now }) }
{
    let mut entries = Vec::new(alloc);
    for place in 0..history.len() {
        let op = history.op(place);
        let entry = entry_if(place, &op, tags[place as usize]);
        if op.key == *key {
            keep(&mut entries, entry)?;
        }
    }
    order_in(alloc, *key, entries)
}

// The entry of an operation that may stand in its key's order.
pub(crate) fn entry_if(place: u32, op: &Op<'_>, tag: Version) -> Option<Entry>
    ensures entry { result ≡ entry_if (record { place = place; op = op.now; tag = tag }) }
    ensures range { IfSome op.now.answered (λ at. at < 2 ^ 64) }
{
    let is_read = op.act == Act::Read;
    let is_open = op.answered.is_none();
    let at = op.answered.unwrap_or(0);
    if is_open && (is_read || tag.0 == 0) {
        return None;
    }
    Some(Entry {
        tag: tag.0,
        is_read,
        is_open,
        at,
        place,
    })
}

pub(crate) fn keep(entries: &mut Vec<Entry>, entry: Option<Entry>) -> Result<(), OutOfMemory>
    ensures { OnOk result (entries.new.items ≡ entries.old.items ++ option_to_list entry) }
{
    if let Some(entry) = entry {
        entries.push(entry)?;
    }
    Ok(())
}

// The order of these entries of the key.
pub(crate) fn order_in(
    alloc: Global,
    key: Key,
    mut entries: Vec<Entry>,
) -> Result<KeyOrder, OutOfMemory>
    ensures { IfOk result (λ o. o ≡ record { key = key; ops = printed entries.items }) }
{
    let tags = read_tags(alloc, &entries)?;
    keep_seen(&mut entries, &tags);
    entries.sort_unstable();
    let ops = places_of(alloc, &entries)?;
    Ok(KeyOrder { key, ops })
}

// Drops the unanswered operations of a tag that wasn't read.
fn keep_seen(entries: &mut Vec<Entry>, tags: &[u64])
    requires { IsNonDecreasing tags.now }
    ensures { entries.new.items ≡ filter (λ e. not e.is_open || list_any (λ t. t == e.tag) tags.now)
        entries.old.items }
{
    entries.retain(
        |entry: &Entry| -> bool
            requires { IsNonDecreasing tags.now }
            ensures { result ≡ (not entry.now.is_open || list_any (λ t. t == entry.now.tag)
                tags.entry.now) }
        { !entry.is_open || is_among(tags, entry.tag) },
    );
}

fn places_of(alloc: Global, entries: &[Entry]) -> Result<Ops, OutOfMemory>
    ensures { IfOk result (λ ops. ops ≡ map (λ e. e.place) entries.now) }
{
    // No history has so many operations.
    if entries.len() > 4_000_000_000 {
        return Err(OutOfMemory);
    }
    let mut ops = Ops::make(alloc);
    for entry in entries {
        ops.push(entry.place)?;
    }
    Ok(ops)
}

// The tags that were read, in rising order.
fn read_tags(alloc: Global, entries: &[Entry]) -> Result<Vec<u64>, OutOfMemory>
    ensures rising { IfOk result (λ tags. IsNonDecreasing tags.items) }
    ensures tags { IfOk result
        (λ tags. (tag : ℕ) → list_any (λ t. t == tag) tags.items ≡ has_read entries.now tag) }
{
    let mut tags = Vec::new(alloc);
    for entry in entries {
        if entry.is_read {
            tags.push(entry.tag)?;
        }
    }
    tags.sort_unstable();
    Ok(tags)
}

fn is_among(tags: &[u64], tag: u64) -> bool
    requires { IsNonDecreasing tags.now }
    ensures { result ≡ list_any (λ t. t == tag) tags.now }
{
    tags.binary_search(&tag).is_ok()
}
