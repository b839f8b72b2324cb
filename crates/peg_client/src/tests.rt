use crate::*;
use peg_name::{ServerId, Value, Version};
use peg_packet::{Header, Packet, encode, is_in_range};
use std::test::Fail;

const READER: ClientId = ClientId(1);

/// An operation of the reader, at the first server and through the first switch.
fn header(seq: u64) -> Header {
    Header {
        client: READER,
        seq: Seq(seq),
        server: ServerId(0),
        switch: SwitchId(0),
    }
}

#[test]
fn one_operation_is_pending_at_most(rt: HostRuntime) -> Result<(), Fail> {
    let reads = [Ask::Read];
    let mut client = Client::new(Format::One, READER, Seq(7));
    let mut post = Post::make(rt.alloc(), Format::One, 2)?;
    let key = Key::read(b"k")?;
    assert!(rt; post.len() < post.slots() && post.format() == client.format());
    assert_eq!(rt;
        client.issue(&key, &reads[0], &mut post),
        Issue::Sent { seq: Seq(7) }
    );
    assert!(rt; post.len() < post.slots() && post.format() == client.format());
    assert_eq!(rt;
        client.issue(&key, &reads[0], &mut post),
        Issue::Busy { seq: Seq(7) }
    );
    assert!(rt; post.len() < post.slots() && post.format() == client.format());
    assert_eq!(rt; client.resend(&mut post), Some(Seq(7)));
    assert_eq!(rt; post.len(), 2);
    assert_eq!(rt; client.give_up(), Some(Seq(7)));
    assert_eq!(rt; client.give_up(), None);
    Ok(())
}

#[test]
fn the_first_reply_answers(rt: HostRuntime) -> Result<(), Fail> {
    let reads = [Ask::Read];
    let mut client = Client::new(Format::One, READER, Seq(7));
    let mut post = Post::make(rt.alloc(), Format::One, 2)?;
    let key = Key::read(b"k")?;
    assert!(rt; post.len() < post.slots() && post.format() == client.format());
    client.issue(&key, &reads[0], &mut post);
    let replies = [Packet::ReadReply {
        header: header(7),
        version: Version(3),
        key: b"k",
        content: Some(b"x"),
    }];
    assert!(rt; is_in_range(Format::One, &replies[0]));
    let mut bytes = [0; 1152];
    let len = encode(Format::One, &replies[0], &mut bytes);
    assert!(rt; len <= 1152);
    let did = client.step(&bytes[..len]);
    assert_eq!(rt;
        did,
        ClientDid::Read {
            seq: Seq(7),
            version: Version(3),
            content: Content::Present(Value::read(b"x")?)
        }
    );
    assert_eq!(rt; client.step(&bytes[..len]), ClientDid::Ignored);
    assert_eq!(rt; client.step(b"no packet"), ClientDid::Ignored);
    Ok(())
}

#[test]
fn writes_are_answered_and_clients_move(rt: HostRuntime) -> Result<(), Fail> {
    let mut client = Client::new(Format::One, READER, Seq(1));
    let mut post = Post::make(rt.alloc(), Format::One, 2)?;
    let key = Key::read(b"k")?;
    let asks = [Ask::Write(Content::Present(Value::read(b"x")?))];
    assert!(rt; post.len() < post.slots() && post.format() == client.format());
    assert_eq!(rt;
        client.issue(&key, &asks[0], &mut post),
        Issue::Sent { seq: Seq(1) }
    );
    let (switch, version) = (SwitchId(1), Version(3));
    let packets = [
        Packet::WriteReply {
            header: header(1),
            version,
            key: b"k",
        },
        Packet::Announce { epoch: 2, switch },
    ];
    let dids = [
        ClientDid::Wrote {
            seq: Seq(1),
            version,
        },
        ClientDid::Moved { switch, epoch: 2 },
    ];
    let mut bytes = [0; 1152];
    for (packet, did) in packets.iter().zip(&dids) {
        assert!(rt; is_in_range(Format::One, packet));
        let len = encode(Format::One, packet, &mut bytes);
        assert!(rt; len <= 1152);
        assert_eq!(rt; client.step(&bytes[..len]), *did);
    }
    Ok(())
}
