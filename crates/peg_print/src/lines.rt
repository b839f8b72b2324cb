// The lines of a run, each onto the page; false where the sink failed.
ghost use Rattle.std.specs.Prelude.{◌≡◌, ◌≤◌, ◌++◌, codes, decimal};
ghost use Rattle.std.specs.Bool.{OnFalse};
ghost use Rattle.peg_model.specs.Schedule.{fed};
ghost use Rattle.peg_model.specs.Trace as trace;
ghost use Rattle.peg_io.specs.Outside.{Rose};
ghost use Rattle.peg_session.specs.Pages.{Passes};

use peg_event::{Line, Op, Said};
use peg_io::Sink;
use peg_name::Key;
use peg_session::Page;
use peg_text::{Text, history_text, line_text, op_text, order_text, place_text};

/// Adds the line that an event at this place came to; false where the sink failed.
pub fn push_line<K: Sink>(
    page: &mut Page,
    text: &mut Text,
    place: u64,
    line: &Line<'_>,
    sink: &mut K,
) -> bool
    ensures content { Passes result (fed (trace.line_text place line.now))
        page.old page.new (K.held sink.old) (K.held sink.new) }
    ensures cause { OnFalse result (Rose (K.faults sink.old) (K.faults sink.new)) }
    ensures later { K.faults sink.old ≤ K.faults sink.new }
{
    line_text(place, line, text);
    page.push(text.bytes(), sink)
}

pub(crate) fn push_history_line<K: Sink>(
    page: &mut Page,
    text: &mut Text,
    count: u32,
    sink: &mut K,
) -> bool
    ensures content { Passes result (fed (codes "history " ++ decimal count))
        page.old page.new (K.held sink.old) (K.held sink.new) }
    ensures cause { OnFalse result (Rose (K.faults sink.old) (K.faults sink.new)) }
    ensures later { K.faults sink.old ≤ K.faults sink.new }
{
    history_text(count, text);
    page.push(text.bytes(), sink)
}

pub(crate) fn push_op<K: Sink>(
    page: &mut Page,
    text: &mut Text,
    number: u32,
    op: &Op<'_>,
    sink: &mut K,
) -> bool
    ensures content { Passes result (fed (trace.op_text number op.now))
        page.old page.new (K.held sink.old) (K.held sink.new) }
    ensures cause { OnFalse result (Rose (K.faults sink.old) (K.faults sink.new)) }
    ensures later { K.faults sink.old ≤ K.faults sink.new }
{
    op_text(number, op, text);
    page.push(text.bytes(), sink)
}

pub(crate) fn push_order<K: Sink>(
    page: &mut Page,
    text: &mut Text,
    key: &Key,
    count: u32,
    sink: &mut K,
) -> bool
    ensures content { Passes result (fed (trace.order_text key.now count))
        page.old page.new (K.held sink.old) (K.held sink.new) }
    ensures cause { OnFalse result (Rose (K.faults sink.old) (K.faults sink.new)) }
    ensures later { K.faults sink.old ≤ K.faults sink.new }
{
    order_text(key, count, text);
    page.push(text.bytes(), sink)
}

pub(crate) fn push_place<K: Sink>(
    page: &mut Page,
    text: &mut Text,
    place: u32,
    sink: &mut K,
) -> bool
    ensures content { Passes result (fed (codes "at " ++ decimal place))
        page.old page.new (K.held sink.old) (K.held sink.new) }
    ensures cause { OnFalse result (Rose (K.faults sink.old) (K.faults sink.new)) }
    ensures later { K.faults sink.old ≤ K.faults sink.new }
{
    place_text(place, text);
    page.push(text.bytes(), sink)
}

pub(crate) fn push_done<K: Sink>(page: &mut Page, sink: &mut K) -> bool
    ensures content { Passes result (fed (codes "done"))
        page.old page.new (K.held sink.old) (K.held sink.new) }
    ensures cause { OnFalse result (Rose (K.faults sink.old) (K.faults sink.new)) }
    ensures later { K.faults sink.old ≤ K.faults sink.new }
{
    page.push(b"done", sink)
}

/// Adds the line `end` of a schedule; false where the sink failed.
pub fn push_end<K: Sink>(page: &mut Page, text: &mut Text, place: u64, sink: &mut K) -> bool
    ensures content { Passes result (fed (decimal place ++ codes " end"))
        page.old page.new (K.held sink.old) (K.held sink.new) }
    ensures cause { OnFalse result (Rose (K.faults sink.old) (K.faults sink.new)) }
    ensures later { K.faults sink.old ≤ K.faults sink.new }
{
    let line = Line {
        said: Said::End,
        sent: None,
    };
    push_line(page, text, place, &line, sink)
}
