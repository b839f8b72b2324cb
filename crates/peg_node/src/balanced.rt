// The word `balanced`: a switch that spreads requests by the load of the servers.
ghost use Rattle.std.specs.Prelude.{◌≡◌, ◌≤◌, ◌<◌, ◌+◌, Some, [], length, true, IfOk};
ghost use Rattle.peg_name.specs.Name.{parts_most};
ghost use Rattle.peg_model.specs.Packet.{in_range};
ghost use Rattle.peg_model.specs.Switch.{new_switch};
ghost use Rattle.peg_meaning.specs.Balance.{balanced_turn, balanced_word, balanced_start, pick_by};
ghost use Rattle.peg_meaning.specs.Balance.{charged_by, unloaded};
ghost use Rattle.peg_io.specs.Outside.{Rose};
ghost use Rattle.peg_packet.specs.Nodes.{are_in_rack};
ghost use Rattle.peg_packet.specs.Outbox.{posted};
ghost use Rattle.peg_packet.specs.Seen.{seen};
ghost use Rattle.peg_session.specs.Ends.{Ended, HasCause, told};
ghost use Rattle.peg_switch.specs.Choices.{packet_allowed};
ghost use Rattle.peg_node.specs.Served.{IsServed, IsServedPart, IsServeEnd};

use crate::serving::Serving;
use crate::turning::Turning;
use peg_balance::Loads;
use peg_event::SwitchDid;
use peg_io::{Sink, Wire};
use peg_name::{Config, Node, OutOfMemory, SwitchId};
use peg_packet::{Packet, Post, decode};
use peg_session::End;
use peg_switch::{Allowed, Switch, most_packets};
use std::alloc::Global;
use std::marker::Model;

/// Runs a switch as `serve_switch` does, with another pick: where a request may go to more servers
/// than one, the pick is that of the server with the least load for its weight, and of several the
/// one with the least number. The server of each request that is forwarded is charged with it.
/// There is one weight for each server.
pub fn serve_balanced<K: Sink, W: Wire>(
    alloc: Global,
    config: &Config,
    id: SwitchId,
    base: u16,
    turns: u32,
    weights: &[u32],
    sink: &mut K,
    wire: &mut W,
) -> End
    requires within { id < config.now.switches }
    requires low { base ≤ 60000 }
    requires one_each { length weights.now ≡ config.now.servers }
    // All that holds at the end.
    ensures ended { Ended balanced_word (balanced_start base config.now id turns weights.now)
        (told (Some []) (K.held sink.old) (W.carried wire.old) (W.slots wire.old))
        (told (Some []) (K.held sink.new) (W.carried wire.new) (W.slots wire.new)) result }
    ensures ends { IsServeEnd result }
    // Exactly so many turns were taken, and the wire carried what they come to.
    ensures done { result ≡ End.Done
        → IsServed balanced_word (balanced_start base config.now id turns weights.now) turns
        (told (Some []) (K.held sink.old) (W.carried wire.old) (W.slots wire.old))
        (told (Some []) (K.held sink.new) (W.carried wire.new) (W.slots wire.new)) }
    // A first part of what its turns come to.
    ensures memory { result ≡ End.OutOfMemory
        → IsServedPart balanced_word (balanced_start base config.now id turns weights.now)
        (told (Some []) (K.held sink.old) (W.carried wire.old) (W.slots wire.old))
        (told (Some []) (K.held sink.new) (W.carried wire.new) (W.slots wire.new)) }
    ensures wire { result ≡ End.WireFault → Rose (W.faults wire.old) (W.faults wire.new) }
    // A fault is answered only where its count rose.
    ensures cause { HasCause result 0 0 (K.faults sink.old) (K.faults sink.new)
        (W.faults wire.old) (W.faults wire.new) }
{
    run(alloc, config, id, base, turns, weights, sink, wire)
}

fn run<K: Sink, W: Wire>(
    alloc: Global,
    config: &Config,
    id: SwitchId,
    base: u16,
    turns: u32,
    weights: &[u32],
    sink: &mut K,
    wire: &mut W,
) -> End
    requires within { id < config.now.switches }
    requires low { base ≤ 60000 }
    requires one_each { length weights.now ≡ config.now.servers }
    ensures ended { Ended balanced_word (balanced_start base config.now id turns weights.now)
        (told (Some []) (K.held sink.old) (W.carried wire.old) (W.slots wire.old))
        (told (Some []) (K.held sink.new) (W.carried wire.new) (W.slots wire.new)) result }
    ensures cause { HasCause result 0 0 (K.faults sink.old) (K.faults sink.new)
        (W.faults wire.old) (W.faults wire.new) }
{
    let Ok(post) = Post::make(alloc, config.format(), most_packets(config.format())) else {
        return End::OutOfMemory;
    };
    let Ok(balanced) = Balanced::make(alloc, config, id, weights) else {
        return End::OutOfMemory;
    };
    Serving::make(balanced, Node::Switch(id), config, post, base, turns).serve(sink, wire)
}

/// A switch, and the load of each server of its rack.
#[derive(Drop)]
pub(crate) struct Balanced {
    switch: Switch,
    loads: Loads,
}

impl Model for Balanced {
    ghost use Rattle.std.specs.Prelude.{◌≡◌, length};
    ghost use Rattle.peg_meaning.specs.Balance as balance;

    ghost Value = { balance.Balanced };

    ghost view = { λ b. record { switch = b.switch; loads = b.loads } };

    ghost invariant = { λ b. length b.loads.weights ≡ b.switch.rack.servers };
}

impl Balanced {
    fn make(
        alloc: Global,
        config: &Config,
        id: SwitchId,
        weights: &[u32],
    ) -> Result<Balanced, OutOfMemory>
        requires id { id < config.now.switches }
        requires one_each { length weights.now ≡ config.now.servers }
        ensures { IfOk result (λ b. b ≡ record {
          switch = new_switch config.now [] id;
          loads = unloaded weights.now;
        }) }
    {
        prove!(config.servers() <= 64);
        let switch = Switch::make(alloc, config, id, &[])?;
        Ok(Balanced {
            switch,
            loads: Loads::make(weights),
        })
    }

    // The pick with which the switch sends the packet to the lightest server.
    fn pick(&self, packet: &Packet<'_>) -> u64
        requires { in_range self.now.switch.rack.format (seen packet.now) ≡ true }
        ensures { result ≡ pick_by self.now.loads self.now.switch.rack
            (packet_allowed self.now.switch (seen packet.now)) }
    {
        match self.switch.packet_allowed(packet) {
            Allowed::Holders(holders) => u64::from(self.loads.place_among(holders)),
            Allowed::Any => u64::from(self.loads.choose_any().0),
            Allowed::Home(_) | Allowed::Nothing => 0,
        }
    }

    // Takes a datagram, which is decoded once.
    fn turn(&mut self, bytes: &[u8], post: &mut Post)
        requires format { post.old.format ≡ self.old.switch.rack.format }
        requires room { length post.old.items + parts_most self.old.switch.rack.format
            ≤ post.old.slots }
        ensures after { self.new ≡ (balanced_turn self.old bytes.now 0).0 }
        ensures sent { post.new ≡ posted post.old (balanced_turn self.old bytes.now 0).1 }
        ensures nodes { are_in_rack self.old.switch.rack (balanced_turn self.old bytes.now 0).1
            ≡ true }
        ensures rack { self.new.switch.rack ≡ self.old.switch.rack }
    {
        let Some((format, packet)) = decode(bytes) else {
            return;
        };
        if format != self.switch.config().format() {
            return;
        }
        let pick = self.pick(&packet);
        let did = self.switch.take(bytes, &packet, pick, post);
        charge(&mut self.loads, &did);
    }
}

// Charges the server of a request that was forwarded.
fn charge(loads: &mut Loads, did: &SwitchDid)
    ensures charged { loads.new ≡ charged_by did.now loads.old }
    ensures weights { loads.new.weights ≡ loads.old.weights }
{
    match did {
        SwitchDid::Read { server, .. } | SwitchDid::Wrote { server, .. } => loads.charge(*server),
        _ => {}
    }
}

impl Turning for Balanced {
    ghost use Rattle.peg_name.specs.Name.{parts_most};
    ghost use Rattle.peg_meaning.specs.Balance as balance;
    ghost use Rattle.peg_meaning.specs.Balance.{balanced_turn};

    ghost Seen = { balance.Balanced };

    ghost seen = { λ b. b };

    ghost rack = { λ b. b.switch.rack };

    ghost turn = { balanced_turn };

    ghost most = { λ b. parts_most b.switch.rack.format };

    fn take(&mut self, bytes: &[u8], _before: u64, post: &mut Post) -> Result<(), OutOfMemory> {
        self.turn(bytes, post);
        Ok(())
    }
}
