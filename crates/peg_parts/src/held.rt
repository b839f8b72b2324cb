//! Parts at their places, some of which are still to come.

ghost use Rattle.std.specs.Prelude.{◌≡◌, ◌≤◌, ◌<◌, ◌*◌, length, replicate, slice_set, Some, None, []};
ghost use Rattle.std.specs.Prelude.{vec_capacity, is_some, count_by, flat_map, unwrap_or, slice_index_or};

use crate::spell::put;
use arrayvec::ArrayVec;
use std::marker::Model;

/// The bytes of a part, at most 512.
#[derive(Drop)]
pub struct PartBytes {
    bytes: ArrayVec<u8, 512>,
}

impl Model for PartBytes {
    ghost use Rattle.std.specs.Prelude.{List, ℕ};

    ghost Value = { List ℕ };

    ghost view = { λ p. p.bytes.items };
}

impl PartBytes {
    fn of(bytes: &[u8]) -> PartBytes
        requires { length bytes.now ≤ 512 }
        ensures { result ≡ bytes.now }
    {
        let mut held = ArrayVec::new();
        if held.try_extend_from_slice(bytes).is_err() {
            unreachable!();
        }
        PartBytes { bytes: held }
    }

    fn bytes(&self) -> &[u8]
        ensures bytes { result.now ≡ self.now }
        ensures short { length result.now ≤ 512 }
    {
        self.bytes.as_slice()
    }
}

/// Empties as many places, in the room that there is.
pub fn begin(parts: &mut Vec<Option<PartBytes>>, count: u8)
    requires { count ≤ vec_capacity parts.old }
    ensures items { parts.new.items ≡ replicate count None }
    ensures room { vec_capacity parts.new ≡ vec_capacity parts.old }
{
    parts.clear();
    for _ in 0..count {
        parts.push_reserved(None);
    }
}

/// Puts a part at its place.
pub fn hold(parts: &mut Vec<Option<PartBytes>>, index: u8, bytes: &[u8])
    requires index { index < length parts.old.items }
    requires short { length bytes.now ≤ 512 }
    ensures items { parts.new.items ≡ slice_set parts.old.items index (Some bytes.now) }
    ensures room { vec_capacity parts.new ≡ vec_capacity parts.old }
{
    parts[usize::from(index)] = Some(PartBytes::of(bytes));
}

/// Whether the part of an index is held.
pub fn has(parts: &[Option<PartBytes>], index: u8) -> bool
    requires { index < length parts.now }
    ensures { result ≡ is_some (slice_index_or parts.now index None) }
{
    parts[usize::from(index)].is_some()
}

/// How many parts are held.
pub fn held_count(parts: &[Option<PartBytes>]) -> usize
    ensures held { result ≡ count_by is_some parts.now }
    ensures most { result ≤ length parts.now }
{
    let mut held = 0;
    for part in parts {
        if part.is_some() {
            held += 1;
        }
    }
    held
}

// What stands at a place, once this part is put at its own.
fn part_with<'a>(
    parts: &'a [Option<PartBytes>],
    place: usize,
    index: usize,
    bytes: &'a [u8],
) -> &'a [u8]
    requires place { place < length parts.now }
    requires short { length bytes.now ≤ 512 }
    ensures part { result.now
        ≡ unwrap_or (slice_index_or (slice_set parts.now index (Some bytes.now)) place None) [] }
    ensures short { length result.now ≤ 512 }
{
    if place == index {
        return bytes;
    }
    match &parts[place] {
        Some(part) => part.bytes(),
        None => &[],
    }
}

/// Joins the parts that are held, with one more at its place, in the room that there is.
pub fn join(out: &mut Vec<u8>, parts: &[Option<PartBytes>], index: u8, bytes: &[u8])
    requires index { index < length parts.now }
    requires short { length bytes.now ≤ 512 }
    requires room { 512 * length parts.now ≤ vec_capacity out.old }
    ensures items { out.new.items
        ≡ flat_map (λ part. unwrap_or part []) (slice_set parts.now index (Some bytes.now)) }
    ensures room { vec_capacity out.old ≤ vec_capacity out.new }
{
    out.clear();
    for place in 0..parts.len() {
        put(out, part_with(parts, place, usize::from(index), bytes));
    }
}
