//! The word `soak`: a made workload is played on a rack, judged and summed up.
#![tactic(auto)]

ghost use Rattle.std.specs.Prelude.{◌≡◌, ◌≤◌};
ghost use Rattle.peg_io.specs.Outside.{Rose};
ghost use Rattle.peg_soak.specs.Soaked.{Ended};

use peg_io::{Sink, write_all};
use peg_session::End;
use playing::played;
use std::alloc::Global;
use summary::summary_of;

mod playing;
mod summary;
#[cfg(test)]
mod tests;

/// Plays so many events of the generator of this number, judges the orders of their run, and writes
/// six lines into the sink: how many events, packets, operations, answered operations and keys there
/// were, and the verdict, which is yes.
///
/// `OutOfMemory` where there was none for what is kept, and nothing was written; `WriteFault` where
/// the sink failed, and maybe only a first part was written; `TooMuch` at the first event after
/// which a run has too many packets, and nothing was written. There is no other end.
pub fn soak<K: Sink>(alloc: Global, events: u64, start: u64, sink: &mut K) -> End
    requires few { events ≤ 20000 }
    // What was written, by the end.
    ensures ended { Ended events start result (K.held sink.old) (K.held sink.new) }
    // A fault of the sink is answered only where its count rose.
    ensures write_fault { result ≡ End.WriteFault → Rose (K.faults sink.old) (K.faults sink.new) }
{
    let world = match played(alloc, events, start) {
        Ok(world) => world,
        Err(end) => return end,
    };
    let Ok(summary) = summary_of(alloc, events, &world) else {
        return End::OutOfMemory;
    };
    if write_all(sink, summary.as_bytes()) {
        End::Done
    } else {
        End::WriteFault
    }
}
