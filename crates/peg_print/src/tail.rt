// The text behind the lines of a run.
ghost use Rattle.std.specs.Prelude.{◌≡◌, ◌≤◌, ℕ, ◌++◌, length, map, flat_map, codes, decimal};
ghost use Rattle.std.specs.Bool.{OnFalse};
ghost use Rattle.peg_model.specs.Schedule.{fed};
ghost use Rattle.peg_model.specs.Trace as trace;
ghost use Rattle.peg_io.specs.Outside.{Rose};
ghost use Rattle.peg_session.specs.Pages.{Passes};
ghost use Rattle.peg_print.specs.Tail.{key_order, history_lines};

use crate::lines::{push_done, push_history_line, push_op, push_order, push_place};
use peg_history::{History, KeyOrder, Ops};
use peg_io::Sink;
use peg_session::Page;
use peg_text::Text;

// Adds the line of each operation; false where the sink failed. So do those below.
fn push_ops<K: Sink>(page: &mut Page, text: &mut Text, history: &History, sink: &mut K) -> bool
    ensures content { Passes result (trace.ops_text 0 history.now.ops)
        page.old page.new (K.held sink.old) (K.held sink.new) }
    ensures cause { OnFalse result (Rose (K.faults sink.old) (K.faults sink.new)) }
    ensures later { K.faults sink.old ≤ K.faults sink.new }
{
    for number in 0..history.len() {
        if !push_op(page, text, number, &history.op(number), sink) {
            return false;
        }
    }
    true
}

// The places of an order.
fn push_places<K: Sink>(page: &mut Page, text: &mut Text, ops: &Ops, sink: &mut K) -> bool
    ensures content { Passes result (flat_map (λ place. fed (codes "at " ++ decimal place)) ops.now)
        page.old page.new (K.held sink.old) (K.held sink.new) }
    ensures cause { OnFalse result (Rose (K.faults sink.old) (K.faults sink.new)) }
    ensures later { K.faults sink.old ≤ K.faults sink.new }
{
    for i in 0..ops.len() {
        if !push_place(page, text, ops.at(i), sink) {
            return false;
        }
    }
    true
}

fn push_key_order<K: Sink>(page: &mut Page, text: &mut Text, order: &KeyOrder, sink: &mut K) -> bool
    ensures content { Passes result (trace.key_order_text (key_order order.now))
        page.old page.new (K.held sink.old) (K.held sink.new) }
    ensures cause { OnFalse result (Rose (K.faults sink.old) (K.faults sink.new)) }
    ensures later { K.faults sink.old ≤ K.faults sink.new }
{
    push_order(page, text, &order.key, order.ops.len(), sink)
        && push_places(page, text, &order.ops, sink)
}

fn push_orders<K: Sink>(page: &mut Page, text: &mut Text, orders: &[KeyOrder], sink: &mut K) -> bool
    ensures content { Passes result (flat_map trace.key_order_text (map key_order orders.now))
        page.old page.new (K.held sink.old) (K.held sink.new) }
    ensures cause { OnFalse result (Rose (K.faults sink.old) (K.faults sink.new)) }
    ensures later { K.faults sink.old ≤ K.faults sink.new }
{
    for order in orders {
        if !push_key_order(page, text, order, sink) {
            return false;
        }
    }
    true
}

fn push_history<K: Sink>(page: &mut Page, text: &mut Text, history: &History, sink: &mut K) -> bool
    ensures content { Passes result (history_lines history.now.ops)
        page.old page.new (K.held sink.old) (K.held sink.new) }
    ensures cause { OnFalse result (Rose (K.faults sink.old) (K.faults sink.new)) }
    ensures later { K.faults sink.old ≤ K.faults sink.new }
{
    push_history_line(page, text, history.len(), sink) && push_ops(page, text, history, sink)
}

/// Adds the history and its orders, and the line `done`; false where the sink failed.
pub fn push_tail<K: Sink>(
    page: &mut Page,
    text: &mut Text,
    history: &History,
    orders: &[KeyOrder],
    sink: &mut K,
) -> bool
    ensures content { Passes result (trace.tail_text history.now.ops (map key_order orders.now))
        page.old page.new (K.held sink.old) (K.held sink.new) }
    ensures cause { OnFalse result (Rose (K.faults sink.old) (K.faults sink.new)) }
    ensures later { K.faults sink.old ≤ K.faults sink.new }
{
    if !push_history(page, text, history, sink) {
        return false;
    }
    if !push_orders(page, text, orders, sink) {
        return false;
    }
    push_done(page, sink)
}
