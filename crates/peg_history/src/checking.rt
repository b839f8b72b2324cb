// The check of orders against a history: one walk along each order, with a mark for each operation.
ghost use Rattle.std.specs.Prelude.{◌≡◌, ℕ, ◌+◌, ◌<◌, ◌≤◌, ◌↔◌, ◌++◌, List, OnOk, Some, length, map};
ghost use Rattle.std.specs.Prelude.{IfOk, slice_get, slice_index, nat_eq};
ghost use Rattle.std.specs.Str.{bytes_eq};
ghost use Rattle.peg_event.specs.declared.history.Verdict.TheVariants.{Yes};
ghost use Rattle.peg_model.specs.Judge.{verdict_of, order_fault, late_of, is_same_content};
ghost use Rattle.peg_history.specs.Walking.{order_pair, AreHistories, walked_of, latest_issue};
ghost use Rattle.peg_history.specs.Walking.{held_at, places_in, place_if, last_write, own_fault};
ghost use Rattle.peg_history.specs.Walking.{answered_from, first_unmarked};

use crate::{History, KeyOrder};
use peg_event::{Act, Fault, Op, Verdict};
use peg_name::{Content, Key, OutOfMemory};
use std::alloc::Global;
use std::collections::BTreeMap;

/// What the judge says: the first fault of the orders, as they are walked one after the other, or
/// that there is none. The time is near linear: each order and each key's answered operations are
/// gone along once.
pub fn check(alloc: Global, history: &History, orders: &[KeyOrder]) -> Result<Verdict, OutOfMemory>
    // The book's verdict, with the first fault.
    ensures verdict { IfOk result
        (λ v. v ≡ verdict_of history.now.ops (map order_pair orders.now)) }
    // Yes exactly where each order is a register history of its key.
    ensures yes { IfOk result (λ v. (v ≡ Yes) ↔ AreHistories history.now.ops orders.now) }
{
    let answered = answered_of(alloc, history)?;
    let mut marks = vec![in alloc; 0; history.len() as usize]?;
    for (i, order) in orders.iter().enumerate() {
        let places = places_of(&answered, &order.key);
        if let Some(fault) = fault_in(history, order, places, &mut marks, i + 1) {
            return Ok(Verdict::No(fault));
        }
    }
    Ok(Verdict::Yes)
}

// The places of the answered operations of each key.
fn answered_of(alloc: Global, history: &History) -> Result<BTreeMap<Key, Vec<u32>>, OutOfMemory>
    ensures { IfOk result
        (λ known. (key : List ℕ) → places_in known key ≡ answered_from history.now.ops 0 key) }
{
    let mut known = BTreeMap::new(alloc);
    for place in 0..history.len() {
        let op = history.op(place);
        if op.answered.is_some() {
            add_place(alloc, &mut known, &op.key, place)?;
        }
    }
    Ok(known)
}

fn add_place(
    alloc: Global,
    known: &mut BTreeMap<Key, Vec<u32>>,
    key: &Key,
    place: u32,
) -> Result<(), OutOfMemory>
    ensures { OnOk result ((q : List ℕ) → places_in known.new q
        ≡ places_in known.old q ++ place_if (bytes_eq key.now q) place) }
{
    let mut places = known.remove(key).unwrap_or(Vec::new(alloc));
    places.push(place)?;
    known.insert(*key, places)?;
    Ok(())
}

fn places_of<'a>(known: &'a BTreeMap<Key, Vec<u32>>, key: &Key) -> &'a [u32]
    ensures { result.now ≡ places_in known.now key.now }
{
    match known.get(key) {
        Some(places) => places,
        None => &[],
    }
}

// The operation at a place, where there is one.
fn op_if(history: &History, place: u32) -> Option<Op<'_>>
    ensures { result ≡ slice_get history.now.ops place }
{
    if place < history.len() {
        Some(history.op(place))
    } else {
        None
    }
}

// The first fault of one order. The marks that equal `mark` are those of the operations that were
// walked, so none does at first.
fn fault_in(
    history: &History,
    order: &KeyOrder,
    answered: &[u32],
    marks: &mut [usize],
    mark: usize,
) -> Option<Fault>
    requires even { length marks.old ≡ length history.now.ops }
    requires unused { (place : ℕ) → slice_index marks.old place < mark }
    requires answered { answered.now ≡ answered_from history.now.ops 0 order.now.key }
    ensures fault { result ≡ order_fault history.now.ops order.now.key order.now.ops }
    ensures even { length marks.new ≡ length marks.old }
    ensures used { (place : ℕ) → slice_index marks.new place ≤ mark }
{
    let places = order.ops.places();
    let mut last = None;
    let mut latest = 0;
    for i in 0..places.len() {
        let place = places[i];
        let Some(op) = op_if(history, place) else {
            return Some(Fault::Strange(place));
        };
        let is_walked = marks[place as usize] == mark;
        let own = own_fault(history, &order.key, last, is_walked, place, &op);
        if own.is_some() {
            return own;
        }
        let late = late_fault(history, &places[..i], latest, place, op.answered);
        if late.is_some() {
            return late;
        }
        marks[place as usize] = mark;
        latest = latest.max(op.issued);
        last = last_write(last, place, &op);
    }
    missing(answered, marks, mark)
}

// The last write after an operation.
fn last_write(last: Option<u32>, place: u32, op: &Op<'_>) -> Option<u32>
    ensures { result ≡ last_write last place op.now }
{
    if op.act == Act::Write {
        Some(place)
    } else {
        last
    }
}

// The fault of an operation that isn't one of answer places.
fn own_fault(
    history: &History,
    key: &Key,
    last: Option<u32>,
    is_walked: bool,
    place: u32,
    op: &Op<'_>,
) -> Option<Fault>
    ensures { result ≡ own_fault key.now (held_at history.now.ops last) is_walked place op.now }
{
    let is_read = op.act == Act::Read;
    if op.key != *key || (is_read && op.answered.is_none()) {
        return Some(Fault::Strange(place));
    }
    if is_walked {
        return Some(Fault::Twice(place));
    }
    if is_read && !is_held(history, last, &op.content) {
        return Some(Fault::Illegal(place));
    }
    None
}

// Whether the register has this content after the last write.
fn is_held(history: &History, last: Option<u32>, content: &Content<'_>) -> bool
    ensures { result ≡ is_same_content content.now (held_at history.now.ops last) }
{
    let Some(last) = last else {
        return *content == Content::Absent;
    };
    match op_if(history, last) {
        Some(write) => *content == write.content,
        None => *content == Content::Absent,
    }
}

// Whether an operation was answered before one of those walked was issued, by the latest issue.
fn late_fault(
    history: &History,
    walked: &[u32],
    latest: u64,
    place: u32,
    answered: Option<u64>,
) -> Option<Fault>
    requires { latest ≡ latest_issue (walked_of history.now.ops walked.now) }
    ensures { result ≡ late_of (walked_of history.now.ops walked.now) place answered }
{
    let Some(at) = answered else {
        return None;
    };
    if at >= latest {
        return None;
    }
    first_late(history, walked, place, at)
}

// The first of these operations that was issued after the answer.
fn first_late(history: &History, walked: &[u32], place: u32, at: u64) -> Option<Fault>
    ensures { result ≡ late_of (walked_of history.now.ops walked.now) place (Some at) }
{
    for first in walked {
        if let Some(op) = op_if(history, *first) {
            if at < op.issued {
                return Some(Fault::Late {
                    first: *first,
                    place,
                });
            }
        }
    }
    None
}

// The first of these places that isn't marked.
fn missing(places: &[u32], marks: &[usize], mark: usize) -> Option<Fault>
    requires { 0 < mark }
    ensures { result ≡ first_unmarked marks.now mark places.now }
{
    for place in places {
        if !is_marked(marks, *place, mark) {
            return Some(Fault::Missing(*place));
        }
    }
    None
}

fn is_marked(marks: &[usize], place: u32, mark: usize) -> bool
    requires { 0 < mark }
    ensures { result ≡ nat_eq (slice_index marks.now place) mark }
{
    match marks.get(place as usize) {
        Some(found) => *found == mark,
        None => false,
    }
}
