ghost use Rattle.std.specs.Prelude.{◌≡◌, ◌+◌, ◌<◌, length};
ghost use Rattle.std.specs.Bool.{OnTrue};

use peg_control::*;
use peg_event::Outcome;
use peg_name::{Config, Format, Key, Node, Row, SwitchId};
use peg_packet::{Packet, Post, Rows, What, acknowledge, encode, is_in_range};
use std::process::Abort;
use std::test::Fail;

/// Whether the outbox can take whatever one call puts in it.
fn is_ready(controller: &Controller, post: &Post) -> bool
    ensures format { OnTrue result (post.now.format ≡ controller.now.rack.format) }
    ensures room { OnTrue result
        (length post.now.items + controller.now.rack.clients < post.now.slots) }
{
    let free = (post.slots() - post.len()) as u64;
    post.format() == controller.config().format() && controller.config().clients() < free
}

/// The controller takes the packet, and says what it did.
fn takes(
    rt: &impl Abort,
    controller: &mut Controller,
    post: &mut Post,
    packet: &Packet<'_>,
    did: ControlDid,
) {
    let mut bytes = [0; 1152];
    assert!(rt; is_in_range(Format::One, packet));
    let len = encode(Format::One, packet, &mut bytes);
    assert!(rt; len <= 1152 && is_ready(controller, post));
    assert_eq!(rt; controller.step(&bytes[..len], post), did);
}

#[test]
fn one_command_is_pending_at_most(rt: HostRuntime) -> Result<(), Fail> {
    let config = Config::make(1, 3, 2, 2, 1, 4, 1)?;
    let keys: [Key; 0] = [];
    let k = Key::read(b"k")?;
    // the acknowledgement of a promotion with number 1, and why it is refused
    let cases = [
        (1, Outcome::Listed(1), None),
        (1, Outcome::Already(7), None),
        (1, Outcome::Full(1), None),
        (1, Outcome::NoVersion(u64::MAX), None),
        (2, Outcome::Listed(2), Some(ControlDid::Ignored)),
        (1, Outcome::Listed(2), Some(ControlDid::OutOfPlace)),
        (1, Outcome::Marked(3), Some(ControlDid::OutOfPlace)),
        (1, Outcome::Activated(2), Some(ControlDid::OutOfPlace)),
    ];
    for (number, outcome, refused) in cases {
        let mut controller = Controller::make(rt.alloc(), &config, &keys)?;
        let mut post = Post::make(rt.alloc(), config.format(), 4)?;
        assert!(rt; is_ready(&controller, &post));
        assert_eq!(rt;
            controller.promote(&k, &mut post),
            Order::Sent { number: 1 }
        );
        assert_eq!(rt; controller.pending(), Some(1));
        assert!(rt; is_ready(&controller, &post));
        assert_eq!(rt;
            controller.demote(&k, &mut post),
            Order::Busy { pending: 1 }
        );
        let packets = [acknowledge(number, outcome)];
        let did = refused.unwrap_or(ControlDid::Took { number, outcome });
        takes(&rt, &mut controller, &mut post, &packets[0], did);
        assert_eq!(rt; controller.pending().is_none(), refused.is_none());
        assert_eq!(rt; post.len(), 1);
    }
    Ok(())
}

#[test]
fn a_handover_moves_the_clients(rt: HostRuntime) -> Result<(), Fail> {
    let config = Config::make(1, 3, 2, 2, 1, 4, 1)?;
    let keys: [Key; 0] = [];
    let k = Key::read(b"k")?;
    let mut controller = Controller::make(rt.alloc(), &config, &keys)?;
    let mut post = Post::make(rt.alloc(), config.format(), 9)?;
    assert!(rt; is_ready(&controller, &post));
    assert_eq!(rt;
        controller.copy(&k, 3, &mut post),
        Order::NoSuch { target: 3 }
    );
    assert!(rt; is_ready(&controller, &post));
    assert_eq!(rt;
        controller.handover(2, &mut post),
        Order::NoSuch { target: 2 }
    );
    assert!(rt; is_ready(&controller, &post));
    let same = Order::SameSwitch {
        switch: SwitchId(0),
    };
    assert_eq!(rt; controller.handover(0, &mut post), same);
    assert!(rt; is_ready(&controller, &post));
    assert_eq!(rt;
        controller.handover(1, &mut post),
        Order::Sent { number: 1 }
    );
    assert!(rt; is_ready(&controller, &post));
    assert_eq!(rt; controller.retry(&mut post), Retry::Command { number: 1 });
    let packets = [acknowledge(1, Outcome::Activated(2))];
    let took = ControlDid::Took {
        number: 1,
        outcome: Outcome::Activated(2),
    };
    takes(&rt, &mut controller, &mut post, &packets[0], took);
    assert_eq!(rt; controller.current(), SwitchId(1));
    assert_eq!(rt; controller.epoch(), 2);
    assert!(rt; is_ready(&controller, &post));
    assert_eq!(rt; controller.retry(&mut post), Retry::Announced { epoch: 2 });
    assert_eq!(rt; post.len(), 6);
    Ok(())
}

#[test]
fn commands_without_a_target_are_sent(rt: HostRuntime) -> Result<(), Fail> {
    let config = Config::make(1, 3, 2, 2, 1, 4, 1)?;
    let keys: [Key; 0] = [];
    let k = Key::read(b"k")?;
    let mut post = Post::make(rt.alloc(), config.format(), 8)?;
    let mut controller = Controller::make(rt.alloc(), &config, &keys)?;
    assert!(rt; is_ready(&controller, &post));
    controller.survey(&mut post);
    assert!(rt; is_ready(&controller, &post));
    assert_eq!(rt;
        controller.step(b"no packet", &mut post),
        ControlDid::Malformed
    );
    assert!(rt; is_ready(&controller, &post));
    assert_eq!(rt; controller.plan(3, 1, &mut post), Plan::NoReport);
    assert!(rt; is_ready(&controller, &post));
    assert_eq!(rt; controller.fence(&k, &mut post), Order::Sent { number: 1 });
    assert!(rt; is_ready(&controller, &post));
    assert_eq!(rt; controller.clear(&mut post), Order::Busy { pending: 1 });
    assert!(rt; is_ready(&controller, &post));
    assert_eq!(rt; controller.plan(3, 1, &mut post), Plan::Busy { pending: 1 });
    assert_eq!(rt; post.len(), 2);
    Ok(())
}

#[test]
fn a_plan_promotes_the_hot_key(rt: HostRuntime) -> Result<(), Fail> {
    let config = Config::make(1, 3, 2, 2, 1, 4, 1)?;
    let keys: [Key; 0] = [];
    let mut controller = Controller::make(rt.alloc(), &config, &keys)?;
    let mut post = Post::make(rt.alloc(), config.format(), 4)?;
    let rows = [
        Row {
            key: Key::read(b"k")?,
            count: 3,
            error: 0,
        },
        Row {
            key: Key::read(b"c")?,
            count: 2,
            error: 1,
        },
    ];
    let mut out = [0; 588];
    let reports = [Packet::Report {
        epoch: 1,
        total: 5,
        rows: Rows::write(&rows, &mut out),
    }];
    let did = ControlDid::HasReport { rows: 2 };
    takes(&rt, &mut controller, &mut post, &reports[0], did);
    assert!(rt; is_ready(&controller, &post));
    let planned = Plan::Planned {
        demotes: 0,
        promotes: 1,
    };
    assert_eq!(rt; controller.plan(3, 1, &mut post), planned);
    let commands = [Packet::Command {
        number: 1,
        what: What::Promote { key: b"k" },
    }];
    assert!(rt; is_in_range(Format::One, &commands[0]));
    let mut bytes = [0; 1152];
    let len = encode(Format::One, &commands[0], &mut bytes);
    assert!(rt; len <= 1152 && post.len() == 1);
    assert_eq!(rt; post.item(0), (Node::Switch(SwitchId(0)), &bytes[..len]));
    Ok(())
}
