// The lines of several racks, each onto the page; false where the sink failed.
ghost use Rattle.std.specs.Prelude.{◌≡◌, ◌≤◌, ◌<◌, ◌++◌, IfOk, Some, length, map, slice_get};
ghost use Rattle.std.specs.Prelude.{codes, decimal};
ghost use Rattle.std.specs.Bool.{OnFalse};
ghost use Rattle.peg_io.specs.Outside.{Rose};
ghost use Rattle.peg_meaning.specs.Racks as book;
ghost use Rattle.peg_model.specs.Schedule.{fed};
ghost use Rattle.peg_session.specs.Pages.{Passes};
ghost use Rattle.peg_racks.specs.Worlds.{worlds_of, AreOrdersOf};
ghost use Rattle.peg_racks.specs.Tails.{AreOrders, tail_in};

use crate::divided::Racks;
use peg_event::{Line, Said};
use peg_history::KeyOrder;
use peg_io::Sink;
use peg_name::OutOfMemory;
use peg_print::{prints_orders_of_the_book, push_line, push_tail};
use peg_session::Page;
use peg_text::{Text, line_in_rack_text, rack_number_text, racks_text};
use std::alloc::Global;

pub(crate) fn push_count<K: Sink>(page: &mut Page, text: &mut Text, racks: u8, sink: &mut K) -> bool
    ensures content { Passes result (book.at_place 1 (codes "racks " ++ decimal racks))
        page.old page.new (K.held sink.old) (K.held sink.new) }
    ensures cause { OnFalse result (Rose (K.faults sink.old) (K.faults sink.new)) }
    ensures later { K.faults sink.old ≤ K.faults sink.new }
{
    racks_text(1, racks, text);
    page.push(text.bytes(), sink)
}

// The line of a rack line.
pub(crate) fn push_rack<K: Sink>(page: &mut Page, text: &mut Text, place: u64, sink: &mut K) -> bool
    ensures content { Passes result (book.at_place place (codes "rack"))
        page.old page.new (K.held sink.old) (K.held sink.new) }
    ensures cause { OnFalse result (Rose (K.faults sink.old) (K.faults sink.new)) }
    ensures later { K.faults sink.old ≤ K.faults sink.new }
{
    let line = Line {
        said: Said::Rack,
        sent: None,
    };
    push_line(page, text, place, &line, sink)
}

// The line of an event, with the rack that took it.
pub(crate) fn push_taken<K: Sink>(
    page: &mut Page,
    text: &mut Text,
    place: u64,
    rack: u8,
    line: &Line<'_>,
    sink: &mut K,
) -> bool
    ensures content { Passes result (book.line_of (Some line.now) place rack)
        page.old page.new (K.held sink.old) (K.held sink.new) }
    ensures cause { OnFalse result (Rose (K.faults sink.old) (K.faults sink.new)) }
    ensures later { K.faults sink.old ≤ K.faults sink.new }
{
    line_in_rack_text(place, rack, line, text);
    page.push(text.bytes(), sink)
}

// The orders of each rack.
pub(crate) fn orders_of(alloc: Global, racks: &Racks) -> Result<Vec<Vec<KeyOrder>>, OutOfMemory>
    ensures { IfOk result (λ all. AreOrders racks.now (map (λ v. v.items) all.items)) }
{
    let mut all = Vec::new(alloc);
    for rack in 0..racks.count() {
        all.push(racks.orders(alloc, rack)?)?;
    }
    Ok(all)
}

fn push_rack_number<K: Sink>(page: &mut Page, text: &mut Text, rack: u8, sink: &mut K) -> bool
    ensures content { Passes result (fed (codes "rack " ++ decimal rack))
        page.old page.new (K.held sink.old) (K.held sink.new) }
    ensures cause { OnFalse result (Rose (K.faults sink.old) (K.faults sink.new)) }
    ensures later { K.faults sink.old ≤ K.faults sink.new }
{
    rack_number_text(rack, text);
    page.push(text.bytes(), sink)
}

// The number of a rack, its history and its orders.
fn push_rack_tail<K: Sink>(
    page: &mut Page,
    text: &mut Text,
    racks: &Racks,
    rack: u8,
    orders: &[KeyOrder],
    sink: &mut K,
) -> bool
    requires below { rack < length racks.now }
    requires orders { AreOrdersOf (slice_get racks.now rack) orders.now }
    ensures content { Passes result (tail_in (slice_get (worlds_of racks.now) rack) rack)
        page.old page.new (K.held sink.old) (K.held sink.new) }
    ensures cause { OnFalse result (Rose (K.faults sink.old) (K.faults sink.new)) }
    ensures later { K.faults sink.old ≤ K.faults sink.new }
{
    prints_orders_of_the_book();
    push_rack_number(page, text, rack, sink)
        && push_tail(page, text, racks.history(rack), orders, sink)
}

// What stands behind the line end, rack by rack.
pub(crate) fn push_tails<K: Sink>(
    page: &mut Page,
    text: &mut Text,
    racks: &Racks,
    orders: &[Vec<KeyOrder>],
    sink: &mut K,
) -> bool
    requires orders { AreOrders racks.now (map (λ v. v.items) orders.now) }
    ensures content { Passes result (book.tails_text 0 (worlds_of racks.now))
        page.old page.new (K.held sink.old) (K.held sink.new) }
    ensures cause { OnFalse result (Rose (K.faults sink.old) (K.faults sink.new)) }
    ensures later { K.faults sink.old ≤ K.faults sink.new }
{
    for rack in 0..racks.count() {
        let own = orders[usize::from(rack)].as_slice();
        if !push_rack_tail(page, text, racks, rack, own, sink) {
            return false;
        }
    }
    true
}
