// The words that run one node of a rack.
ghost use Rattle.std.specs.Prelude.{◌≡◌, ◌≢◌, ◌≤◌};
ghost use Rattle.peg_io.specs.Outside.{Rose};
ghost use Rattle.peg_session.specs.Ends as session;
ghost use Rattle.peg_session.specs.Ends.{told};
ghost use Rattle.peg_words.specs.Jobs.{IsRoleOf};
ghost use Rattle.peg_run.specs.Ends.{HasCause};
ghost use Rattle.peg_run.specs.Roles.{TakesTurns, ReadsLines, RunsNode, EndsNode};

use crate::{Status, status_of};
use peg_io::{Sink, Source, Wire};
use peg_name::Config;
use peg_node::{ask, serve_balanced, serve_controller, serve_server, serve_switch};
use peg_session::End;
use peg_words::Role;
use std::alloc::Global;

#[tactic(auto, using(crate::proofs::RoleEnds::serves_by, crate::proofs::RoleEnds::turns_cause))]
fn end_of_node<S: Source, K: Sink, W: Wire>(
    alloc: Global,
    base: u16,
    config: &Config,
    role: &Role,
    source: &mut S,
    sink: &mut K,
    wire: &mut W,
) -> End
    requires low { base ≤ 60000 }
    requires within { IsRoleOf config.now role.now }
    ensures runs { RunsNode base config.now role.now result
        (told (S.left source.old) (K.held sink.old) (W.carried wire.old) (W.slots wire.old))
        (told (S.left source.new) (K.held sink.new) (W.carried wire.new) (W.slots wire.new)) }
    ensures unread { TakesTurns role.now → source.new ≡ source.old }
    ensures unbound { ReadsLines role.now → W.slots wire.new ≡ W.slots wire.old
        → (source.new ≡ source.old) × (sink.new ≡ sink.old) }
    ensures cause { session.HasCause result (S.faults source.old) (S.faults source.new)
        (K.faults sink.old) (K.faults sink.new) (W.faults wire.old) (W.faults wire.new) }
{
    match role {
        Role::Switch { switch, turns } => {
            serve_switch(alloc, config, *switch, base, *turns, sink, wire)
        }
        Role::Balanced {
            switch,
            turns,
            weights,
        } => serve_balanced(
            alloc,
            config,
            *switch,
            base,
            *turns,
            weights.as_slice(),
            sink,
            wire,
        ),
        Role::Server { server, turns } => {
            serve_server(alloc, config, *server, base, *turns, sink, wire)
        }
        Role::Control { tries, waits } => {
            serve_controller(alloc, config, base, *tries, *waits, source, sink, wire)
        }
        Role::Ask {
            client,
            first,
            tries,
            waits,
        } => ask(
            alloc, config, base, *client, *first, *tries, *waits, source, sink, wire,
        ),
    }
}

pub(crate) fn run_node<S: Source, K: Sink, W: Wire>(
    alloc: Global,
    base: u16,
    config: &Config,
    role: &Role,
    source: &mut S,
    sink: &mut K,
    wire: &mut W,
) -> Status
    requires low { base ≤ 60000 }
    requires within { IsRoleOf config.now role.now }
    ensures node { EndsNode base config.now role.now result
        (told (S.left source.old) (K.held sink.old) (W.carried wire.old) (W.slots wire.old))
        (told (S.left source.new) (K.held sink.new) (W.carried wire.new) (W.slots wire.new)) }
    ensures unread { TakesTurns role.now → source.new ≡ source.old }
    ensures unbound { ReadsLines role.now → W.slots wire.new ≡ W.slots wire.old
        → (source.new ≡ source.old) × (sink.new ≡ sink.old) }
    ensures no_usage { result ≢ Status.Usage }
    ensures cause { HasCause result (S.faults source.old) (S.faults source.new)
        (K.faults sink.old) (K.faults sink.new) }
    ensures wire_fault { result ≡ Status.WireFault → Rose (W.faults wire.old) (W.faults wire.new) }
{
    status_of(end_of_node(alloc, base, config, role, source, sink, wire))
}
