// The word `server`.
ghost use Rattle.std.specs.Prelude.{◌≡◌, ◌≤◌, ◌<◌, Some, []};
ghost use Rattle.peg_meaning.specs.Roles.{server_word, server_start};
ghost use Rattle.peg_io.specs.Outside.{Rose};
ghost use Rattle.peg_session.specs.Ends.{Ended, HasCause, told};
ghost use Rattle.peg_node.specs.Served.{IsServed, IsServedPart, IsServeEnd};

use crate::serving::Serving;
use peg_io::{Sink, Wire};
use peg_name::{Config, Node, ServerId};
use peg_packet::Post;
use peg_server::Server;
use peg_session::End;
use std::alloc::Global;

/// Runs a server of the rack that holds nothing yet: it binds its port and takes so many turns. Each
/// datagram is one step, whose packets are sent to the ports of their nodes. At the end it writes
/// how many datagrams it took.
pub fn serve_server<K: Sink, W: Wire>(
    alloc: Global,
    config: &Config,
    id: ServerId,
    base: u16,
    turns: u32,
    sink: &mut K,
    wire: &mut W,
) -> End
    requires within { id < config.now.servers }
    requires low { base ≤ 60000 }
    // All that holds at the end.
    ensures ended { Ended server_word (server_start base config.now id turns)
        (told (Some []) (K.held sink.old) (W.carried wire.old) (W.slots wire.old))
        (told (Some []) (K.held sink.new) (W.carried wire.new) (W.slots wire.new)) result }
    ensures ends { IsServeEnd result }
    // Exactly so many turns were taken, and the wire carried what they come to.
    ensures done { result ≡ End.Done
        → IsServed server_word (server_start base config.now id turns) turns
        (told (Some []) (K.held sink.old) (W.carried wire.old) (W.slots wire.old))
        (told (Some []) (K.held sink.new) (W.carried wire.new) (W.slots wire.new)) }
    // A first part of what its turns come to.
    ensures memory { result ≡ End.OutOfMemory
        → IsServedPart server_word (server_start base config.now id turns)
        (told (Some []) (K.held sink.old) (W.carried wire.old) (W.slots wire.old))
        (told (Some []) (K.held sink.new) (W.carried wire.new) (W.slots wire.new)) }
    ensures wire { result ≡ End.WireFault → Rose (W.faults wire.old) (W.faults wire.new) }
    // A fault is answered only where its count rose.
    ensures cause { HasCause result 0 0 (K.faults sink.old) (K.faults sink.new)
        (W.faults wire.old) (W.faults wire.new) }
{
    run(alloc, config, id, base, turns, sink, wire)
}

fn run<K: Sink, W: Wire>(
    alloc: Global,
    config: &Config,
    id: ServerId,
    base: u16,
    turns: u32,
    sink: &mut K,
    wire: &mut W,
) -> End
    requires within { id < config.now.servers }
    requires low { base ≤ 60000 }
    ensures ended { Ended server_word (server_start base config.now id turns)
        (told (Some []) (K.held sink.old) (W.carried wire.old) (W.slots wire.old))
        (told (Some []) (K.held sink.new) (W.carried wire.new) (W.slots wire.new)) result }
    ensures cause { HasCause result 0 0 (K.faults sink.old) (K.faults sink.new)
        (W.faults wire.old) (W.faults wire.new) }
{
    let Ok(post) = Post::make(alloc, config.format(), 1) else {
        return End::OutOfMemory;
    };
    let server = Server::make(alloc, config, id);
    Serving::make(server, Node::Server(id), config, post, base, turns).serve(sink, wire)
}
