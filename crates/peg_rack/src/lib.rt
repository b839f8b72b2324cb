//! The word `rack` as a session: a whole rack in one process, each node at a port of its own. What
//! the nodes send goes over a wire, and what they take comes from it.
#![tactic(auto)]

ghost use Rattle.std.specs.Prelude.{◌≤◌};
ghost use Rattle.peg_meaning.specs.RackWord.{serves_rack, rack_start};
ghost use Rattle.peg_session.specs.Ends.{Ended, HasCause, told};

use peg_io::{Sink, Source, Wire};
use peg_session::{End, drive};
use serving::Serving;
use std::alloc::Global;

mod places;
mod printing;
mod rig;
mod serving;
mod takes;

/// Runs the rack that the first line of the source names. Its nodes are bound in the order
/// controller, switches, servers, clients, at ports from `base` on; the lines behind have clients
/// and the controller do something, or have nodes receive. A received datagram that is a packet
/// which was sent to that node makes its step, as the first such packet; any other is foreign and
/// changes nothing. What a step sends goes out from the port of its node. The trace is written line
/// by line, and behind the line `end` the operations and the order of each key.
pub fn serve_rack<S: Source, K: Sink, W: Wire>(
    alloc: Global,
    base: u16,
    source: &mut S,
    sink: &mut K,
    wire: &mut W,
) -> End
    requires low { base ≤ 60000 }
    // All that holds at the end.
    ensures ended { Ended serves_rack (rack_start base)
        (told (S.left source.old) (K.held sink.old) (W.carried wire.old) (W.slots wire.old))
        (told (S.left source.new) (K.held sink.new) (W.carried wire.new) (W.slots wire.new))
        result }
    // A fault is answered only where its count rose.
    ensures cause { HasCause result (S.faults source.old) (S.faults source.new)
        (K.faults sink.old) (K.faults sink.new) (W.faults wire.old) (W.faults wire.new) }
{
    let mut serving = Serving::make(alloc, base);
    drive(&mut serving, source, sink, wire)
}
