use peg_name::{ClientId, Config, Key, Node, Note, Seq, ServerId, SwitchId, Version};
use peg_packet::{Packet, Post, encode, is_in_range};
use peg_switch::*;
use std::alloc::Global;
use std::process::Abort;
use std::test::Fail;

// A switch of a rack of 3 servers, where `k` is at home at server 2, and an outbox for it.
fn make(rt: &impl Abort, alloc: Global, id: SwitchId) -> Result<(Switch, Post), Fail> {
    let config = Config::make(1, 3, 2, 2, 4, 4, 1)?;
    let keys: [Key; 0] = [];
    assert!(rt; u64::from(id.0) < config.switches());
    let switch = Switch::make(alloc, &config, id, &keys)?;
    let post = Post::make(alloc, config.format(), 64)?;
    Ok((switch, post))
}

// Hands bytes over, and leaves in the outbox what is sent.
fn take(rt: &impl Abort, switch: &mut Switch, bytes: &[u8], post: &mut Post) -> SwitchDid {
    let format = switch.config().format();
    post.clear();
    assert!(rt; post.format() == format && most_packets(format) <= post.slots());
    switch.step(bytes, 0, post)
}

// Hands bytes over, of which one packet comes: it goes to this node and has these bytes.
fn sends(
    rt: &impl Abort,
    switch: &mut Switch,
    post: &mut Post,
    bytes: &[u8],
    to: Node,
    packet: &[u8],
) -> SwitchDid {
    let did = take(rt, switch, bytes, post);
    assert!(rt; post.len() == 1);
    let (node, sent) = post.item(0);
    assert_eq!(rt; node, to);
    assert_eq!(rt; sent, packet);
    did
}

#[test]
fn a_write_is_stamped_and_sent_home(rt: HostRuntime) -> Result<(), Fail> {
    let (mut switch, mut post) = make(&rt, rt.alloc(), SwitchId(0))?;
    let key = Key::read(b"k")?;
    let packets = [Packet::Write {
        client: ClientId(1),
        seq: Seq(1),
        key: b"k",
        content: Some(b"x"),
    }];
    let format = switch.config().format();
    assert!(rt; is_in_range(format, &packets[0]));
    let mut bytes = [0; 1152];
    let len = encode(format, &packets[0], &mut bytes);
    assert!(rt; len <= 1152);
    let wrote = SwitchDid::Wrote {
        server: ServerId(2),
        key,
        version: Version(1),
    };
    assert_eq!(rt; take(&rt, &mut switch, &bytes[..len], &mut post), wrote);
    assert_eq!(rt; post.len(), 1);
    assert_eq!(rt; switch.base_of(&key), None);
    Ok(())
}

// The state of a rack of 2 clients that did nothing is 51 bytes: the next version, the number of
// the seal, a row for each client, and no entry.
const STATE: [u8; 67] = *b"PG\x01\x0c\0\0\0\0\0\0\0\x02\0\x01\0\x33\
    \0\0\0\0\0\0\0\x01\0\0\0\0\0\0\0\x01\0\x02\
    \0\0\0\0\0\0\0\0\0\0\0\0\0\0\0\0\0\0\0\0\0\0\0\0\0\0\0\0\0\0\0\0\0";

#[test]
fn a_state_is_taken_over(rt: HostRuntime) -> Result<(), Fail> {
    let (mut switch, mut post) = make(&rt, rt.alloc(), SwitchId(1))?;
    let epoch = 2;
    let idle = SwitchDid::NotActive { epoch: 0 };
    assert_eq!(rt; take(&rt, &mut switch, b"PG\x01\x0e", &mut post), idle);
    let active = SwitchDid::Activated { epoch };
    assert_eq!(rt; take(&rt, &mut switch, &STATE, &mut post), active);
    assert_eq!(rt; post.len(), 1);
    let again = SwitchDid::Repeated { number: 1 };
    assert_eq!(rt; take(&rt, &mut switch, &STATE, &mut post), again);
    assert_eq!(rt; post.len(), 1);
    Ok(())
}

#[test]
fn refusals_come_in_their_order(rt: HostRuntime) -> Result<(), Fail> {
    let (mut switch, mut post) = make(&rt, rt.alloc(), SwitchId(0))?;
    // bytes that spell nothing, a survey of the other format, an announcement, a seal towards the
    // switch itself, one in another epoch, and the number after the next
    let datagrams: [&[u8]; 6] = [
        b"PG",
        b"PG\x02\x0e",
        b"PG\x01\x0d\0\0\0\0\0\0\0\x02\0",
        b"PG\x01\x07\0\0\0\0\0\0\0\x01\x04\0\0\0\0\0\0\0\0\x02",
        b"PG\x01\x07\0\0\0\0\0\0\0\x01\x04\x01\0\0\0\0\0\0\0\x03",
        b"PG\x01\x07\0\0\0\0\0\0\0\x02\x05",
    ];
    let wanted = [
        SwitchDid::Malformed,
        SwitchDid::OutOfPlace,
        SwitchDid::OutOfPlace,
        SwitchDid::OutOfPlace,
        SwitchDid::OutOfPlace,
        SwitchDid::Skipped { number: 2, last: 0 },
    ];
    for i in 0..6 {
        assert_eq!(rt;
            take(&rt, &mut switch, datagrams[i], &mut post),
            wanted[i],
            "row {i}"
        );
        assert!(rt; post.is_empty());
    }
    Ok(())
}

// A write that was voided is stamped anew, and its reply goes to the client as it came.
#[test]
fn a_reply_goes_on_and_a_void_does_not(rt: HostRuntime) -> Result<(), Fail> {
    let (mut switch, mut post) = make(&rt, rt.alloc(), SwitchId(0))?;
    let (switch, post) = (&mut switch, &mut post);
    let (client, seq, server) = (ClientId(0), Seq(1), ServerId(2));
    let write = b"PG\x01\x02\0\0\0\0\0\0\0\0\0\x01\0\0\0\0\0\0\0\0\0\0\x01k\x01\0\x01x";
    let first = b"PG\x01\x04\0\0\0\0\0\0\0\0\0\x01\0\0\0\0\0\0\0\x01\x02\0\x01k\x01\0\x01x";
    let second = b"PG\x01\x04\0\0\0\0\0\0\0\0\0\x01\0\0\0\0\0\0\0\x02\x02\0\x01k\x01\0\x01x";
    let void = b"PG\x01\x11\0\0\0\0\0\0\0\0\0\x01\0\0\0\0\0\0\0\x01\x02\0\x01k";
    let reply = b"PG\x01\x06\0\0\0\0\0\0\0\0\0\x01\0\0\0\0\0\0\0\x02\x02\0\x01k";
    sends(&rt, switch, post, write, Node::Server(server), first);
    let voided = SwitchDid::Voided {
        client,
        seq,
        version: Version(1),
    };
    assert_eq!(rt; take(&rt, switch, void, post), voided);
    assert!(rt; post.is_empty());
    let skipped = SwitchDid::VoidSkipped { client, seq };
    assert_eq!(rt; take(&rt, switch, void, post), skipped);
    assert!(rt; post.is_empty());
    sends(&rt, switch, post, write, Node::Server(server), second);
    let answered = SwitchDid::Answered {
        client,
        seq,
        version: Version(2),
        note: Note::Unlisted,
    };
    let did = sends(&rt, switch, post, reply, Node::Client(client), reply);
    assert_eq!(rt; did, answered);
    Ok(())
}

// The parts go out once more where the same seal comes again, and nothing else is served then.
#[test]
fn a_state_is_handed_over(rt: HostRuntime) -> Result<(), Fail> {
    let (mut switch, mut post) = make(&rt, rt.alloc(), SwitchId(0))?;
    let (switch, post) = (&mut switch, &mut post);
    let seal = b"PG\x01\x07\0\0\0\0\0\0\0\x01\x04\x01\0\0\0\0\0\0\0\x02";
    let read = b"PG\x01\x01\0\0\0\0\0\0\0\0\0\x01\0\0\0\0\0\0\0\0\0\0\x01k";
    let target = SwitchId(1);
    let sealed = SwitchDid::Sealed { epoch: 2, target };
    let did = sends(&rt, switch, post, seal, Node::Switch(target), &STATE);
    assert_eq!(rt; did, sealed);
    let again = SwitchDid::Repeated { number: 1 };
    let did = sends(&rt, switch, post, seal, Node::Switch(target), &STATE);
    assert_eq!(rt; did, again);
    let refused = SwitchDid::NotActive { epoch: 1 };
    assert_eq!(rt; take(&rt, switch, read, post), refused);
    assert_eq!(rt; take(&rt, switch, b"PG\x01\x0e", post), refused);
    assert!(rt; post.is_empty());
    Ok(())
}

#[test]
fn an_idle_switch_is_not_active(rt: HostRuntime) -> Result<(), Fail> {
    let (mut switch, mut post) = make(&rt, rt.alloc(), SwitchId(1))?;
    let idle = SwitchDid::NotActive { epoch: 0 };
    // a read, a reply, a void, a server that holds the key, and a command
    let datagrams: [&[u8]; 5] = [
        b"PG\x01\x01\0\0\0\0\0\0\0\0\0\x01\0\0\0\0\0\0\0\0\0\0\x01k",
        b"PG\x01\x06\0\0\0\0\0\0\0\0\0\x01\0\0\0\0\0\0\0\x01\x02\0\x01k",
        b"PG\x01\x11\0\0\0\0\0\0\0\0\0\x01\0\0\0\0\0\0\0\x01\x02\0\x01k",
        b"PG\x01\x0b\x02\0\0\0\0\0\0\0\x01\x01k",
        b"PG\x01\x07\0\0\0\0\0\0\0\x01\x05",
    ];
    for i in 0..5 {
        assert_eq!(rt;
            take(&rt, &mut switch, datagrams[i], &mut post),
            idle,
            "row {i}"
        );
        assert!(rt; post.is_empty());
    }
    Ok(())
}

#[test]
fn it_says_where_a_request_may_go(rt: HostRuntime) -> Result<(), Fail> {
    let read = b"PG\x01\x01\0\0\0\0\0\0\0\0\0\x01\0\0\0\0\0\0\0\0\0\0\x01k";
    let (active, _) = make(&rt, rt.alloc(), SwitchId(0))?;
    assert_eq!(rt; active.allowed(read), Allowed::Home(ServerId(2)));
    assert_eq!(rt; active.allowed(b"PG\x01\x0e"), Allowed::Nothing);
    assert_eq!(rt; active.allowed(b"PG"), Allowed::Nothing);
    let (idle, _) = make(&rt, rt.alloc(), SwitchId(1))?;
    assert_eq!(rt; idle.allowed(read), Allowed::Nothing);
    Ok(())
}
