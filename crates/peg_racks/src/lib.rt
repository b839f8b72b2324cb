//! Several racks among which the keys are divided, and the word `racks` as a session: the lines of
//! all of them are played, and the trace is written.
#![tactic(auto)]

ghost use Rattle.std.specs.Prelude.{◌≡◌, None};
ghost use Rattle.peg_meaning.specs.Racks.{plays_racks, racks_start};
ghost use Rattle.peg_io.specs.Outside.{Rose};
ghost use Rattle.peg_session.specs.Ends.{Ended, told};

use peg_io::{NoWire, Sink, Source};
use peg_session::{End, drive};
use playing::Playing;
use std::alloc::Global;

mod divided;
mod play;
mod playing;
mod printing;

pub use divided::Racks;
pub use peg_text::RacksEvent;

/// Plays the racks of the source into the sink: the trace line by line, each line with the rack that
/// took it, and behind the line `end` for each rack its operations and the order of each key.
pub fn play_racks<S: Source, K: Sink>(alloc: Global, source: &mut S, sink: &mut K) -> End
    // All that holds at the end of the session.
    ensures ended { Ended plays_racks racks_start
        (told (S.left source.old) (K.held sink.old) None 0)
        (told (S.left source.new) (K.held sink.new) None 0) result }
    // A fault of the source is answered only where its count rose.
    ensures read_fault { result ≡ End.ReadFault → Rose (S.faults source.old) (S.faults source.new) }
    // A fault of the sink is answered only where its count rose.
    ensures write_fault { result ≡ End.WriteFault → Rose (K.faults sink.old) (K.faults sink.new) }
{
    let mut playing = Playing::make(alloc);
    drive(&mut playing, source, sink, &mut NoWire::make())
}
