// The nodes of a rack, in the order in which their ports are bound.
ghost use Rattle.std.specs.Prelude.{◌≡◌, ◌<◌, ◌≤◌, ◌+◌, length, slice_get, Some, true};
ghost use Rattle.peg_meaning.specs.RackWord.{nodes_of, slot_of, actor_of};
ghost use Rattle.peg_model.specs.Schedule.{EventInRack};
ghost use Rattle.peg_packet.specs.Nodes.{is_in_rack};

use peg_event::Event;
use peg_name::{ClientId, Config, Node, ServerId, SwitchId};

// The slot of the first server, and that of the first client.
fn first_server(config: &Config) -> u32
    ensures first { result ≡ 1 + config.now.switches }
    ensures few { result ≤ 5 }
{
    1 + config.switches() as u32
}

fn first_client(config: &Config) -> u32
    ensures first { result ≡ 1 + config.now.switches + config.now.servers }
    ensures few { result ≤ 69 }
{
    first_server(config) + config.servers() as u32
}

#[tactic(auto, using(crate::proofs::InOrder::nodes_count))]
pub(crate) fn count_of(config: &Config) -> u32
    ensures count { result ≡ length (nodes_of config.now) }
    ensures few { result ≤ 1093 }
{
    first_client(config) + config.clients() as u32
}

// The node that was bound at this place.
pub(crate) fn node_at(config: &Config, slot: u32) -> Node
    requires { slot < length (nodes_of config.now) }
    ensures node { slice_get (nodes_of config.now) slot ≡ Some result }
    ensures slot { slot_of config.now result ≡ slot }
    ensures in_rack { is_in_rack config.now result ≡ true }
{
    prove!(count_of(config) <= 1093);
    if slot == 0 {
        return Node::Controller;
    }
    if slot < first_server(config) {
        return Node::Switch(SwitchId((slot - 1) as u8));
    }
    if slot < first_client(config) {
        return Node::Server(ServerId((slot - first_server(config)) as u8));
    }
    Node::Client(ClientId((slot - first_client(config)) as u16))
}

// The place at which a node was bound.
#[tactic(auto, using(crate::proofs::InOrder::nodes_count))]
pub(crate) fn slot_of(config: &Config, node: &Node) -> u32
    requires { is_in_rack config.now node.now ≡ true }
    ensures slot { result ≡ slot_of config.now node.now }
    ensures within { result < length (nodes_of config.now) }
{
    prove!(config.clients() > 0);
    match node {
        Node::Controller => 0,
        Node::Switch(id) => 1 + u32::from(id.0),
        Node::Server(id) => first_server(config) + u32::from(id.0),
        Node::Client(id) => first_client(config) + u32::from(id.0),
    }
}

// Who does what an event line says.
#[tactic(auto, using(crate::proofs::InOrder::actor_in_rack))]
pub(crate) fn actor_of(config: &Config, event: &Event<'_>) -> Node
    requires { EventInRack config.now event.now }
    ensures actor { result ≡ actor_of event.now }
    ensures in_rack { is_in_rack config.now result ≡ true }
{
    match event {
        Event::Read { client, .. }
        | Event::Write { client, .. }
        | Event::Delete { client, .. }
        | Event::Resend { client }
        | Event::GiveUp { client } => Node::Client(*client),
        _ => Node::Controller,
    }
}
