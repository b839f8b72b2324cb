// The lines of foreign datagrams, each onto the page; false where the sink failed.
ghost use Rattle.std.specs.Prelude.{◌≡◌, ◌≤◌, ◌++◌, codes, decimal};
ghost use Rattle.std.specs.Bool.{OnFalse};
ghost use Rattle.peg_model.specs.Schedule.{fed};
ghost use Rattle.peg_meaning.specs.RackWord as book;
ghost use Rattle.peg_io.specs.Outside.{Rose};
ghost use Rattle.peg_session.specs.Pages.{Passes};

use peg_io::Sink;
use peg_name::Node;
use peg_session::Page;
use peg_text::{Text, foreign_count_text, foreign_text};

pub(crate) fn push_foreign<K: Sink>(
    page: &mut Page,
    text: &mut Text,
    place: u64,
    node: &Node,
    sink: &mut K,
) -> bool
    ensures content { Passes result (book.foreign_text place node.now)
        page.old page.new (K.held sink.old) (K.held sink.new) }
    ensures cause { OnFalse result (Rose (K.faults sink.old) (K.faults sink.new)) }
    ensures later { K.faults sink.old ≤ K.faults sink.new }
{
    foreign_text(place, node, text);
    page.push(text.bytes(), sink)
}

pub(crate) fn push_end<K: Sink>(
    page: &mut Page,
    text: &mut Text,
    place: u64,
    foreign: u64,
    sink: &mut K,
) -> bool
    ensures content { Passes result (fed (decimal place ++ codes " end foreign " ++ decimal foreign))
        page.old page.new (K.held sink.old) (K.held sink.new) }
    ensures cause { OnFalse result (Rose (K.faults sink.old) (K.faults sink.new)) }
    ensures later { K.faults sink.old ≤ K.faults sink.new }
{
    foreign_count_text(place, foreign, text);
    page.push(text.bytes(), sink)
}
