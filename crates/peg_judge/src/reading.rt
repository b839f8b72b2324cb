// A history that is read, and the orders of its keys.
ghost use Rattle.std.specs.Prelude.{◌≡◌, ◌≤◌, ◌<◌, ◌+◌, ◌-◌, ◌∷◌, ◌++◌, ℕ, [], List, true, false};
ghost use Rattle.std.specs.Prelude.{length, map, OnOk, IfSome, Some, ◌^◌, ◌&&◌, nat_eq, nat_lt};
ghost use Rattle.peg_model.specs.Trace as trace;
ghost use Rattle.peg_judge.specs.Judging.{SaysDone};
ghost use Rattle.peg_io.specs.Outside.{Rose};
ghost use Rattle.peg_model.specs.Order.{keys_in};
ghost use Rattle.peg_meaning.specs.Session as session;
ghost use Rattle.peg_meaning.specs.CheckWord as word;
ghost use Rattle.peg_meaning.specs.CheckWord.{judges, last_issued, with_place};
ghost use Rattle.peg_history.specs.Walking.{order_pair};
ghost use Rattle.peg_session.specs.Took.{Took, TookLine, WantFits};

use crate::numbers::number_behind;
use crate::verdict::{Line, verdict_text};
use indexmap::IndexSet;
use peg_event::Op;
use peg_history::{History, KeyOrder, Ops, check};
use peg_io::Sink;
use peg_name::{Key, OutOfMemory};
use peg_session::{Page, Stepped, Want};
use peg_text::{Text, op_of, order_text};
use std::alloc::Global;

// What a line behind the line history says.
#[derive(Drop)]
pub(crate) enum Entry<'a> {
    Operation(u32, Op<'a>),
    Order(Key, u64),
    At(u32),
    Done,
}

// The operations that were read, and those still to come; the keys in the order of first issue; the
// orders that were read, and how many places of the last one are still to come.
#[derive(Drop)]
pub(crate) struct Reading {
    alloc: Global,
    unread: u32,
    history: History,
    latest: u64,
    keys: IndexSet<Key>,
    unplaced: u64,
    orders: Vec<KeyOrder>,
    is_over: bool,
}

impl Reading {
    ghost use Rattle.peg_judge.specs.Judging.{checked_of, stage_at, checker_at, IsTied, Says, said};
    ghost use Rattle.peg_judge.specs.Judging.{IsHere, Finishes};

    // Behind the line history, which says how many operations there are.
    pub(crate) fn make(alloc: Global, count: u32) -> Reading
        requires { count ≤ 200000 }
        ensures tied { IsTied result }
        ensures begins { stage_at result.is_over (checked_of result) ≡ word.Reading
            (record { unread = count; ops = []; unplaced = 0; key_orders = [] }) }
    {
        Reading {
            alloc,
            unread: count,
            history: History::make(alloc),
            latest: 1,
            keys: IndexSet::new(alloc),
            unplaced: 0,
            orders: Vec::new(alloc),
            is_over: false,
        }
    }

    // What is wanted.
    pub(crate) fn want(&self) -> Want
        ensures want { result ≡ word.check_want (stage_at self.now.is_over (checked_of self.now)) }
        ensures fits { WantFits result 0 }
    {
        if self.is_over {
            return Want::Over;
        }
        Want::Line {
            limit: 4096,
            optional: false,
        }
    }

    fn op_line<'a>(&self, line: &'a [u8], room: &'a mut [u8; 1024]) -> Option<Entry<'a>>
        requires tied { IsTied self.now }
        requires unread { 0 < self.now.unread }
        ensures { Says result (checked_of self.now) line.entry.now }
    {
        let Some((number, op)) = op_of(line, room) else {
            return None;
        };
        if self.is_next(number, &op) {
            Some(Entry::Operation(number, op))
        } else {
            None
        }
    }

    // Whether an operation may follow those that were read.
    fn is_next(&self, number: u32, op: &Op<'_>) -> bool
        ensures { result ≡ (nat_eq number (length self.now.history.ops)
            && nat_lt self.now.latest op.now.issued) }
    {
        number == self.history.len() && self.latest < op.issued
    }

    fn place_line<'a>(&self, line: &[u8]) -> Option<Entry<'a>>
        requires read { self.now.unread ≡ 0 }
        requires unplaced { 0 < self.now.unplaced }
        ensures { Says result (checked_of self.now) line.now }
    {
        let Some(place) = number_behind(b"at ", line) else {
            return None;
        };
        if place <= u64::from(u32::MAX) {
            Some(Entry::At(place as u32))
        } else {
            None
        }
    }

    fn order_line<'a>(&self, line: &[u8], text: &mut Text) -> Option<Entry<'a>>
        requires tied { IsTied self.now }
        requires read { self.now.unread ≡ 0 }
        requires placed { self.now.unplaced ≡ 0 }
        ensures { Says result (checked_of self.now) line.now }
    {
        let Some(key) = self.keys.get_index(self.orders.len()) else {
            return done_line(line);
        };
        match count_of(key, line, text) {
            Some(count) => Some(Entry::Order(*key, count)),
            None => None,
        }
    }

    // What a line says.
    fn says<'a>(
        &self,
        line: &'a [u8],
        room: &'a mut [u8; 1024],
        text: &mut Text,
    ) -> Option<Entry<'a>>
        requires { IsTied self.now }
        ensures { Says result (checked_of self.now) line.entry.now }
    {
        if self.unread > 0 {
            return self.op_line(line, room);
        }
        if self.unplaced > 0 {
            return self.place_line(line);
        }
        self.order_line(line, text)
    }

    fn add_op(&mut self, op: &Op<'_>) -> Result<(), OutOfMemory>
        requires tied { IsTied self.old }
        requires unread { 0 < self.old.unread }
        ensures added { OnOk result (checked_of self.new
            ≡ word.checked_on (checked_of self.old) (word.Operation 0 op.now)) }
        ensures tied { OnOk result (IsTied self.new) }
        ensures on { self.new.is_over ≡ self.old.is_over }
    {
        self.history.push(op)?;
        self.keys.insert(op.key)?;
        self.latest = op.issued;
        self.unread -= 1;
        Ok(())
    }

    fn add_order(&mut self, key: &Key, count: u64) -> Result<(), OutOfMemory>
        requires tied { IsTied self.old }
        ensures added { OnOk result (checked_of self.new
            ≡ word.checked_on (checked_of self.old) (word.Order key.now count)) }
        ensures tied { OnOk result (IsTied self.new) }
        ensures on { self.new.is_over ≡ self.old.is_over }
    {
        self.orders.push(KeyOrder {
            key: *key,
            ops: Ops::make(self.alloc),
        })?;
        self.unplaced = count;
        Ok(())
    }

    fn add_place(&mut self, place: u32) -> Result<(), OutOfMemory>
        requires tied { IsTied self.old }
        requires unplaced { 0 < self.old.unplaced }
        ensures added { OnOk result (checked_of self.new
            ≡ word.checked_on (checked_of self.old) (word.At place)) }
        ensures tied { OnOk result (IsTied self.new) }
        ensures on { self.new.is_over ≡ self.old.is_over }
    {
        put_last(&mut self.orders, place)?;
        self.unplaced -= 1;
        Ok(())
    }

    // Adds what is said; of the line done there is nothing.
    fn add(&mut self, entry: &Entry<'_>) -> Result<(), OutOfMemory>
        requires tied { IsTied self.old }
        requires here { IsHere (checked_of self.old) entry.now }
        ensures added { OnOk result (checked_of self.new
            ≡ word.checked_on (checked_of self.old) (said entry.now)) }
        ensures tied { OnOk result (IsTied self.new) }
        ensures on { self.new.is_over ≡ self.old.is_over }
    {
        match entry {
            Entry::Operation(_, op) => self.add_op(op),
            Entry::Order(key, count) => self.add_order(key, *count),
            Entry::At(place) => self.add_place(*place),
            Entry::Done => Ok(()),
        }
    }

    // Writes the verdict.
    fn finish<K: Sink>(&mut self, page: &mut Page, sink: &mut K) -> Stepped
        ensures over { Finishes result (checked_of self.old)
            page.old page.new (K.held sink.old) (K.held sink.new) }
        ensures same { checked_of self.new ≡ checked_of self.old }
        ensures tied { IsTied self.old → IsTied self.new }
        ensures ends { result ≡ Stepped.Goes → self.new.is_over ≡ true }
        ensures cause { result ≡ Stepped.Unwritten → Rose (K.faults sink.old) (K.faults sink.new) }
        ensures later { K.faults sink.old ≤ K.faults sink.new }
    {
        let Ok(verdict) = check(self.alloc, &self.history, &self.orders) else {
            return Stepped::OutOfMemory;
        };
        let mut line = Line::new();
        let operations = u64::from(self.history.len());
        verdict_text(&verdict, operations, self.orders.len() as u64, &mut line);
        if !page.push(line.as_slice(), sink) {
            return Stepped::Unwritten;
        }
        self.is_over = true;
        Stepped::Goes
    }

    // Makes a step, where so many lines were taken before.
    fn step<K: Sink>(
        &mut self,
        lines: u64,
        entry: &Entry<'_>,
        page: &mut Page,
        sink: &mut K,
    ) -> Stepped
        requires tied { IsTied self.old }
        requires on { self.old.is_over ≡ false }
        requires here { IsHere (checked_of self.old) entry.now }
        requires few { lines < 2000000 }
        ensures took { Took judges (checker_at lines self.old) (session.Entry (said entry.now))
            result
            (checker_at (lines + 1) self.new) [] []
            page.old page.new (K.held sink.old) (K.held sink.new) }
        ensures tied { result ≡ Stepped.Goes → IsTied self.new }
        ensures cause { result ≡ Stepped.Unwritten → Rose (K.faults sink.old) (K.faults sink.new) }
        ensures later { K.faults sink.old ≤ K.faults sink.new }
    {
        if matches!(entry, Entry::Done) {
            return self.finish(page, sink);
        }
        match self.add(entry) {
            Ok(()) => Stepped::Goes,
            Err(_) => Stepped::OutOfMemory,
        }
    }

    // Takes a line, where so many were taken before. A content is spelled into the room.
    pub(crate) fn take<K: Sink>(
        &mut self,
        lines: u64,
        line: &[u8],
        room: &mut [u8; 1024],
        text: &mut Text,
        page: &mut Page,
        sink: &mut K,
    ) -> Stepped
        requires tied { IsTied self.old }
        requires on { self.old.is_over ≡ false }
        requires few { lines ≤ 2000000 }
        ensures took { TookLine judges (checker_at lines self.old) line.now result
            (checker_at (lines + 1) self.new) [] []
            page.old page.new (K.held sink.old) (K.held sink.new) }
        ensures tied { result ≡ Stepped.Goes → IsTied self.new }
        ensures few { result ≡ Stepped.Goes → lines < 2000000 }
        ensures cause { result ≡ Stepped.Unwritten → Rose (K.faults sink.old) (K.faults sink.new) }
        ensures later { K.faults sink.old ≤ K.faults sink.new }
    {
        let Some(entry) = self.says(line, room, text) else {
            return Stepped::Refused;
        };
        if lines == 2_000_000 {
            return Stepped::Past;
        }
        self.step(lines, &entry, page, sink)
    }
}

// The line done.
fn done_line<'a>(line: &[u8]) -> Option<Entry<'a>>
    ensures { SaysDone result line.now }
{
    if line == b"done".as_slice() {
        Some(Entry::Done)
    } else {
        None
    }
}

// How many places the order of this key has, by its line.
fn count_of(key: &Key, line: &[u8], text: &mut Text) -> Option<u64>
    ensures sound { IfSome result (λ n. line.now ≡ trace.order_text key.now n) }
    ensures complete { (n : ℕ) → n < 2 ^ 64 → line.now ≡ trace.order_text key.now n
        → result ≡ Some n }
{
    order_text(key, 0, text);
    let shown = text.bytes();
    number_behind(&shown[..shown.len() - 1], line)
}

// Puts a place last in the last order, where there is one.
fn put_last(orders: &mut Vec<KeyOrder>, place: u32) -> Result<(), OutOfMemory>
    ensures { OnOk result (map order_pair orders.new.items
        ≡ with_place place (map order_pair orders.old.items)) }
{
    let count = orders.len();
    if count == 0 {
        return Ok(());
    }
    let order = &mut orders[count - 1];
    // No order has so many places.
    if order.ops.len() >= 4_000_000_000 {
        return Err(OutOfMemory);
    }
    order.ops.push(place)?;
    Ok(())
}
