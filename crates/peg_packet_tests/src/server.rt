//! Server 2 of three, where the key `k` is at home, against packets that were spelled by hand.

use peg_name::{Config, Key, Node, ServerId, SwitchId, Version};
use peg_packet::Post;
use peg_server::*;
use std::alloc::Global;
use std::process::Abort;
use std::test::Fail;

const READ: &[u8] = b"PG\x01\x03\0\0\0\0\0\0\0\0\0\x02\0\0\0\0\0\0\0\0\x02\0\x01k";

const READ_AT_1: &[u8] = b"PG\x01\x03\0\0\0\0\0\0\0\0\0\x02\0\0\0\0\0\0\0\0\x01\0\x01k";

const NOTHING_READ: &[u8] = b"PG\x01\x05\0\0\0\0\0\0\0\0\0\x02\0\0\0\0\0\0\0\0\x02\0\x01k\0";

const Y_READ: &[u8] = b"PG\x01\x05\0\0\0\0\0\0\0\0\0\x02\0\0\0\0\0\0\0\x0e\x02\0\x01k\x01\0\x01y";

const WRITE_4: &[u8] = b"PG\x01\x04\0\0\0\0\0\0\0\0\0\x01\0\0\0\0\0\0\0\x04\x02\0\x01k\x01\0\x01x";

const WRITE_5: &[u8] = b"PG\x01\x04\0\0\0\0\0\0\0\0\0\x01\0\0\0\0\0\0\0\x05\x02\0\x01k\x01\0\x01x";

const WRITE_7: &[u8] = b"PG\x01\x04\0\0\0\0\0\0\0\0\0\x01\0\0\0\0\0\0\0\x07\x02\0\x01k\x01\0\x01x";

const WROTE_4: &[u8] = b"PG\x01\x06\0\0\0\0\0\0\0\0\0\x01\0\0\0\0\0\0\0\x04\x02\0\x01k";

const WROTE_5: &[u8] = b"PG\x01\x06\0\0\0\0\0\0\0\0\0\x01\0\0\0\0\0\0\0\x05\x02\0\x01k";

const VOID_7: &[u8] = b"PG\x01\x11\0\0\0\0\0\0\0\0\0\x01\0\0\0\0\0\0\0\x07\x02\0\x01k";

const FENCE_9: &[u8] = b"PG\x01\x10\0\x02\0\0\0\0\0\0\0\x09\x01k";

const FENCE_12: &[u8] = b"PG\x01\x10\0\x02\0\0\0\0\0\0\0\x0c\x01k";

const COPY_13: &[u8] = b"PG\x01\x0a\0\x02\0\0\0\0\0\0\0\x0d\x01k\x01\0\x01z";

const COPY_14: &[u8] = b"PG\x01\x0a\0\x02\0\0\0\0\0\0\0\x0e\x01k\x01\0\x01y";

const COPY_14_TO_1: &[u8] = b"PG\x01\x0a\0\x01\0\0\0\0\0\0\0\x0e\x01k\x01\0\x01y";

const ORDER_TO_1: &[u8] = b"PG\x01\x09\0\x02\x01\x01k";

const ORDER_TO_2: &[u8] = b"PG\x01\x09\0\x02\x02\x01k";

const HELD_9: &[u8] = b"PG\x01\x0b\x02\0\0\0\0\0\0\0\x09\x01k";

const HELD_12: &[u8] = b"PG\x01\x0b\x02\0\0\0\0\0\0\0\x0c\x01k";

const HELD_13: &[u8] = b"PG\x01\x0b\x02\0\0\0\0\0\0\0\x0d\x01k";

const HELD_14: &[u8] = b"PG\x01\x0b\x02\0\0\0\0\0\0\0\x0e\x01k";

const NOTHING: &[u8] = b"";

const SWITCH: Node = Node::Switch(SwitchId(0));

const SERVER_1: Node = Node::Server(ServerId(1));

fn read(key: Key, version: u64) -> ServerDid {
    let version = Version(version);
    ServerDid::Read { key, version }
}

fn applied(key: Key, version: u64) -> ServerDid {
    let version = Version(version);
    ServerDid::Applied { key, version }
}

fn kept(key: Key, held: u64) -> ServerDid {
    let held = Version(held);
    ServerDid::Kept { key, held }
}

fn fenced(key: Key, version: u64, held: u64) -> ServerDid {
    ServerDid::Fenced {
        key,
        version: Version(version),
        held: Version(held),
    }
}

/// The server takes the bytes of each case in turn, says what it did, and sends one packet to the
/// node, or nothing.
fn serves(
    rt: &impl Abort,
    alloc: Global,
    cases: &[(&[u8], ServerDid, Node, &[u8])],
) -> Result<(), Fail> {
    let config = Config::make(1, 3, 2, 1, 1, 1, 5)?;
    let id = ServerId(2);
    assert!(rt; u64::from(id.0) < config.servers());
    let mut server = Server::make(alloc, &config, id);
    let mut post = Post::make(alloc, config.format(), 1)?;
    for (bytes, did, to, sent) in cases {
        post.clear();
        assert!(rt; post.format() == server.config().format() && post.len() < post.slots());
        assert_eq!(rt; server.step(bytes, &mut post)?, *did, "{bytes:?}");
        assert_eq!(rt; post.is_empty(), sent.is_empty(), "{bytes:?}");
        if post.len() > 0 {
            assert_eq!(rt; post.item(0), (*to, *sent));
        }
    }
    Ok(())
}

#[test]
fn writes_stand_under_fences(rt: HostRuntime) -> Result<(), Fail> {
    let key = Key::read(b"k")?;
    let version = Version(7);
    let void = ServerDid::Void {
        key,
        version,
        floor: Version(9),
    };
    let barred = ServerDid::Barred {
        key,
        version,
        old: Version(9),
    };
    let cases = [
        (READ, read(key, 0), SWITCH, NOTHING_READ),
        (WRITE_5, applied(key, 5), SWITCH, WROTE_5),
        (WRITE_5, kept(key, 5), SWITCH, WROTE_5),
        (FENCE_9, fenced(key, 9, 5), SWITCH, HELD_9),
        (FENCE_9, kept(key, 9), SWITCH, HELD_9),
        (WRITE_7, void, SWITCH, VOID_7),
        (WRITE_4, kept(key, 9), SWITCH, WROTE_4),
        (FENCE_12, fenced(key, 12, 9), SWITCH, HELD_12),
        (WRITE_7, barred, SWITCH, NOTHING),
    ];
    serves(&rt, rt.alloc(), &cases)
}

#[test]
fn copies_are_kept_by_their_versions(rt: HostRuntime) -> Result<(), Fail> {
    let key = Key::read(b"k")?;
    let copied = ServerDid::Copied {
        key,
        version: Version(14),
        target: ServerId(1),
    };
    let cases = [
        (ORDER_TO_1, ServerDid::HasNone { key }, SWITCH, NOTHING),
        (COPY_14, applied(key, 14), SWITCH, HELD_14),
        (COPY_13, kept(key, 14), SWITCH, HELD_13),
        (READ, read(key, 14), SWITCH, Y_READ),
        (ORDER_TO_1, copied, SERVER_1, COPY_14_TO_1),
        (READ_AT_1, ServerDid::OutOfPlace, SWITCH, NOTHING),
        (ORDER_TO_2, ServerDid::OutOfPlace, SWITCH, NOTHING),
        (NOTHING, ServerDid::Malformed, SWITCH, NOTHING),
    ];
    serves(&rt, rt.alloc(), &cases)
}
