// The word `ask`.
ghost use Rattle.std.specs.Prelude.{◌≡◌, ◌≤◌, ◌<◌};
ghost use Rattle.peg_meaning.specs.Roles.{asks, ask_start};
ghost use Rattle.peg_session.specs.Ends.{Ended, HasCause, told};

use crate::asking::Asking;
use peg_client::Client;
use peg_io::{Sink, Source, Wire};
use peg_name::{ClientId, Config, Seq};
use peg_packet::Post;
use peg_session::End;
use std::alloc::Global;

/// Runs a client of the rack, whose first operation gets the number `first`: it binds its port, and
/// each line of the source begins an operation (`read KEY`, `write KEY VALUE`, in format 2 also
/// `delete KEY`). Its request is sent until it is answered, at most `tries` times (1 to 100), with
/// `waits` turns (at most 1,000) after each. Its answer is written, or `unanswered` and its number;
/// `spent` where the numbers are used up.
pub fn ask<S: Source, K: Sink, W: Wire>(
    alloc: Global,
    config: &Config,
    base: u16,
    client: ClientId,
    first: Seq,
    tries: u32,
    waits: u32,
    source: &mut S,
    sink: &mut K,
    wire: &mut W,
) -> End
    requires within { client < config.now.clients }
    requires first { 1 ≤ first }
    requires low { base ≤ 60000 }
    requires some_tries { 1 ≤ tries }
    requires few_tries { tries ≤ 100 }
    requires few_waits { waits ≤ 1000 }
    // All that holds at the end.
    ensures ended { Ended asks (ask_start base config.now.format client first tries waits)
        (told (S.left source.old) (K.held sink.old) (W.carried wire.old) (W.slots wire.old))
        (told (S.left source.new) (K.held sink.new) (W.carried wire.new) (W.slots wire.new))
        result }
    // Where its port was not bound, nothing was read or written.
    ensures unbound { W.slots wire.new ≡ W.slots wire.old
        → (source.new ≡ source.old) × (sink.new ≡ sink.old) }
    // A fault is answered only where its count rose.
    ensures cause { HasCause result (S.faults source.old) (S.faults source.new)
        (K.faults sink.old) (K.faults sink.new) (W.faults wire.old) (W.faults wire.new) }
{
    prove!(config.clients() > 0);
    let format = config.format();
    let Ok(post) = Post::make(alloc, format, 1) else {
        return End::OutOfMemory;
    };
    let asks = Client::new(format, client, first);
    Asking::make(asks, config, client, post, base, tries, waits).run(source, sink, wire)
}
