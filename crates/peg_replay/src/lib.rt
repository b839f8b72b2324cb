//! The word `replay` as a session: a schedule is played on a rack, and its trace is written.
#![tactic(auto)]

ghost use Rattle.std.specs.Prelude.{◌≡◌, None};
ghost use Rattle.peg_meaning.specs.ReplayWord.{replays, replay_start};
ghost use Rattle.peg_io.specs.Outside.{Rose};
ghost use Rattle.peg_session.specs.Ends.{Ended, told};

use peg_io::{NoWire, Sink, Source};
use peg_session::{End, drive};
use replaying::Replay;
use std::alloc::Global;

mod play;
mod replaying;

/// Replays the schedule of the source into the sink: the trace line by line, and behind the line
/// `end` the operations and the order of each key.
pub fn replay<S: Source, K: Sink>(alloc: Global, source: &mut S, sink: &mut K) -> End
    // All that holds at the end of the session.
    ensures ended { Ended replays replay_start
        (told (S.left source.old) (K.held sink.old) None 0)
        (told (S.left source.new) (K.held sink.new) None 0) result }
    // A fault of the source is answered only where its count rose.
    ensures read_fault { result ≡ End.ReadFault → Rose (S.faults source.old) (S.faults source.new) }
    // A fault of the sink is answered only where its count rose.
    ensures write_fault { result ≡ End.WriteFault → Rose (K.faults sink.old) (K.faults sink.new) }
{
    let mut replay = Replay::make(alloc);
    drive(&mut replay, source, sink, &mut NoWire::make())
}
