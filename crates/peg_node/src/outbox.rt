// What the words of one node share: ports, the room of a receive, and the line at the end.
ghost use Rattle.std.specs.Prelude.{◌≡◌, ◌≤◌, ◌<◌, ◌+◌, true};
ghost use Rattle.peg_meaning.specs.Session.{port_of, room};
ghost use Rattle.std.specs.Bool.{OnFalse};
ghost use Rattle.peg_io.specs.Outside.{Rose};
ghost use Rattle.peg_packet.specs.Nodes.{is_in_rack};
ghost use Rattle.peg_session.specs.Pages.{Passes};
ghost use Rattle.peg_meaning.specs.Roles as roles;

use peg_io::Sink;
use peg_name::{Config, Format, Node, SwitchId};
use peg_session::Page;
use peg_text::{Text, datagrams_text};

/// The port of a node of the rack: the controller has the base itself, and behind it come switches,
/// servers from 8 on and clients from 128 on.
pub fn port(base: u16, config: &Config, node: Node) -> u16
    requires low { base ≤ 60000 }
    requires within { is_in_rack config.now node ≡ true }
    ensures { result ≡ port_of base node }
{
    match node {
        Node::Controller => base,
        Node::Switch(id) => switch_port(base, id),
        Node::Server(id) => base + 8 + u16::from(id.0),
        Node::Client(id) => client_port(base, config.clients(), id.0),
    }
}

pub(crate) fn switch_port(base: u16, id: SwitchId) -> u16
    requires low { base ≤ 60000 }
    ensures { result ≡ base + 1 + id }
{
    base + 1 + u16::from(id.0)
}

fn client_port(base: u16, clients: u64, id: u16) -> u16
    requires low { base ≤ 60000 }
    requires few { clients ≤ 1024 }
    requires within { id < clients }
    ensures { result ≡ base + 128 + id }
{
    base + 128 + id
}

/// The bytes that a receive takes at most: one more than a packet of the format may have, so that a
/// longer datagram is no packet.
pub fn room_of(format: Format) -> usize
    ensures is { result ≡ room format }
    ensures few { result ≤ 1153 }
    ensures some { 1 ≤ result }
{
    match format {
        Format::One => 641,
        Format::Two => 1153,
    }
}

// The line that is written once the turns are used: how many of them were datagrams.
pub(crate) fn push_datagrams<K: Sink>(page: &mut Page, datagrams: u32, sink: &mut K) -> bool
    ensures content { Passes result (roles.datagrams_text datagrams)
        page.old page.new (K.held sink.old) (K.held sink.new) }
    ensures cause { OnFalse result (Rose (K.faults sink.old) (K.faults sink.new)) }
    ensures later { K.faults sink.old ≤ K.faults sink.new }
{
    let mut line = Text::make();
    datagrams_text(datagrams as u64, &mut line);
    page.push(line.bytes(), sink)
}
