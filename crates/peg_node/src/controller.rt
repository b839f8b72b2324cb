// The word `control`.
ghost use Rattle.std.specs.Prelude.{◌≡◌, ◌≤◌};
ghost use Rattle.peg_meaning.specs.Roles.{controls, control_start};
ghost use Rattle.peg_session.specs.Ends.{Ended, HasCause, told};

use crate::controlling::Controlling;
use peg_control::Controller;
use peg_io::{Sink, Source, Wire};
use peg_name::Config;
use peg_packet::Post;
use peg_session::End;
use std::alloc::Global;

/// Runs the controller of the rack, which knows no key to be listed: it binds its port, and does what
/// each line of the source says (`promote KEY`, `demote KEY`, `copy KEY S`, `fence KEY`,
/// `handover W`, `clear`, `retry`, `survey`, `plan P D`, as in a schedule). A line is settled where no
/// command is pending and a survey has its report. It is sent until it is settled, at most `tries`
/// times (1 to 100), with `waits` turns (at most 1,000) after each. What the controller does is
/// written, and `controller unanswered` where a line isn't settled.
pub fn serve_controller<S: Source, K: Sink, W: Wire>(
    alloc: Global,
    config: &Config,
    base: u16,
    tries: u32,
    waits: u32,
    source: &mut S,
    sink: &mut K,
    wire: &mut W,
) -> End
    requires low { base ≤ 60000 }
    requires some_tries { 1 ≤ tries }
    requires few_tries { tries ≤ 100 }
    requires few_waits { waits ≤ 1000 }
    // All that holds at the end.
    ensures ended { Ended controls (control_start base config.now tries waits)
        (told (S.left source.old) (K.held sink.old) (W.carried wire.old) (W.slots wire.old))
        (told (S.left source.new) (K.held sink.new) (W.carried wire.new) (W.slots wire.new))
        result }
    // Where its port was not bound, nothing was read or written.
    ensures unbound { W.slots wire.new ≡ W.slots wire.old
        → (source.new ≡ source.old) × (sink.new ≡ sink.old) }
    // A fault is answered only where its count rose.
    ensures cause { HasCause result (S.faults source.old) (S.faults source.new)
        (K.faults sink.old) (K.faults sink.new) (W.faults wire.old) (W.faults wire.new) }
{
    // A step may announce to each client, and order one command more.
    let slots = config.clients() as usize + 1;
    let Ok(post) = Post::make(alloc, config.format(), slots) else {
        return End::OutOfMemory;
    };
    let Ok(controller) = Controller::make(alloc, config, &[]) else {
        return End::OutOfMemory;
    };
    Controlling::make(controller, config, post, base, tries, waits).run(source, sink, wire)
}
