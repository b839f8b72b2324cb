// The words that run whole racks.
ghost use Rattle.std.specs.Prelude.{◌≡◌, ◌≢◌, ◌≤◌, None};
ghost use Rattle.peg_io.specs.Outside.{Rose, Tells};
ghost use Rattle.peg_meaning.specs.RackWord.{serves_rack, rack_start};
ghost use Rattle.peg_meaning.specs.Racks.{plays_racks, racks_start};
ghost use Rattle.peg_session.specs.Ends.{told};
ghost use Rattle.peg_run.specs.Divided.{ShowsRacks};
ghost use Rattle.peg_run.specs.Ends.{HasCause};
ghost use Rattle.peg_run.specs.Racked.{ShowsHistories};
ghost use Rattle.peg_run.specs.Verdicts.{EndsAs};

use crate::{Status, status_of};
use peg_io::{Sink, Source, Wire};
use peg_rack::serve_rack;
use peg_racks::play_racks;
use peg_word_law::{
    isolates_racks, keeps_keys_apart, plays_its_lines, plays_runs, prints_register_histories,
    serves_a_run,
};
use std::alloc::Global;

// Whatever the wire gave, the world was that of a run.
pub(crate) fn run_rack<S: Source, K: Sink, W: Wire>(
    alloc: Global,
    base: u16,
    source: &mut S,
    sink: &mut K,
    wire: &mut W,
) -> Status
    requires low { base ≤ 60000 }
    ensures ended { EndsAs serves_rack (rack_start base) result
        (told (S.left source.old) (K.held sink.old) (W.carried wire.old) (W.slots wire.old))
        (told (S.left source.new) (K.held sink.new) (W.carried wire.new) (W.slots wire.new)) }
    ensures histories { result ≡ Status.Done
        → Tells (K.held sink.old) (K.held sink.new) ShowsHistories }
    ensures no_usage { result ≢ Status.Usage }
    ensures cause { HasCause result (S.faults source.old) (S.faults source.new)
        (K.faults sink.old) (K.faults sink.new) }
    ensures wire_fault { result ≡ Status.WireFault → Rose (W.faults wire.old) (W.faults wire.new) }
{
    serves_a_run();
    prints_register_histories();
    status_of(serve_rack(alloc, base, source, sink, wire))
}

// Each world was that of a run, and of its own run alone.
pub(crate) fn run_racks<S: Source, K: Sink>(alloc: Global, source: &mut S, sink: &mut K) -> Status
    ensures ended { EndsAs plays_racks racks_start result
        (told (S.left source.old) (K.held sink.old) None 0)
        (told (S.left source.new) (K.held sink.new) None 0) }
    ensures divided { result ≡ Status.Done → Tells (K.held sink.old) (K.held sink.new) ShowsRacks }
    ensures no_usage { result ≢ Status.Usage }
    ensures no_wire_fault { result ≢ Status.WireFault }
    ensures cause { HasCause result (S.faults source.old) (S.faults source.new)
        (K.faults sink.old) (K.faults sink.new) }
{
    plays_runs();
    plays_its_lines();
    keeps_keys_apart();
    isolates_racks();
    prints_register_histories();
    status_of(play_racks(alloc, source, sink))
}
