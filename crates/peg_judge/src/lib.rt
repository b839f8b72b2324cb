//! The word `check` as a session: a history and the orders of its keys are read, and judged.
#![tactic(auto)]

ghost use Rattle.std.specs.Prelude.{◌≡◌, None};
ghost use Rattle.peg_meaning.specs.CheckWord.{judges, check_start};
ghost use Rattle.peg_io.specs.Outside.{Rose};
ghost use Rattle.peg_session.specs.Ends.{Ended, told};

use checking::Check;
use peg_io::{NoWire, Sink, Source};
use peg_session::{End, drive};
use std::alloc::Global;

mod checking;
mod law;
mod numbers;
mod reading;
mod verdict;

pub use law::says_yes_of_histories;

/// Judges what the source has: the lines of a trace, which are skipped, the history, the order of
/// each of its keys, and the line `done`. Writes one line into the sink: the verdict.
pub fn check<S: Source, K: Sink>(alloc: Global, source: &mut S, sink: &mut K) -> End
    // All that holds at the end of the session.
    ensures ended { Ended judges check_start
        (told (S.left source.old) (K.held sink.old) None 0)
        (told (S.left source.new) (K.held sink.new) None 0) result }
    // A fault of the source is answered only where its count rose.
    ensures read_fault { result ≡ End.ReadFault → Rose (S.faults source.old) (S.faults source.new) }
    // A fault of the sink is answered only where its count rose.
    ensures write_fault { result ≡ End.WriteFault → Rose (K.faults sink.old) (K.faults sink.new) }
{
    let mut check = Check::make(alloc);
    drive(&mut check, source, sink, &mut NoWire::make())
}
