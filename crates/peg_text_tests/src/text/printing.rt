use crate::text::key_k;
use peg_event::{ClientDid, Line, Said, ServerDid};
use peg_name::{ClientId, Content, Key, Seq, ServerId, SwitchId, Value, Version};
use peg_text::{Text, body_text, history_text, line_text, order_text, place_text, said_text};
use std::process::Abort;
use std::test::Fail;

pub fn prints(rt: &impl Abort, said: Said<'_>, text: &[u8]) {
    let mut out = Text::make();
    said_text(&said, &mut out);
    assert_eq!(rt; out.bytes(), text);
}

#[test]
fn what_clients_began_is_printed(rt: HostRuntime) {
    let client = ClientId(3);
    let seq = Seq(9);
    prints(&rt, Said::Rack, b"rack");
    prints(&rt, Said::End, b"end");
    prints(&rt, Said::Forged, b"forged");
    prints(&rt, Said::Read { client, seq }, b"read 3 seq 9");
    prints(&rt, Said::Write { client, seq }, b"write 3 seq 9");
    prints(&rt, Said::Delete { client, seq }, b"delete 3 seq 9");
    prints(&rt, Said::Busy { client, seq }, b"busy 3 seq 9");
    prints(&rt, Said::Spent { client }, b"spent 3");
    prints(&rt, Said::Resend { client, seq }, b"resend 3 seq 9");
    prints(&rt, Said::GiveUp { client, seq }, b"giveup 3 seq 9");
    prints(&rt, Said::NothingOpen { client }, b"nothing open 3");
    prints(
        &rt,
        Said::NoSuchPacket {
            number: 8,
            count: 5,
        },
        b"no such packet 8 of 5",
    );
}

fn prints_client(rt: &impl Abort, did: ClientDid<'_>, text: &[u8]) {
    prints(
        rt,
        Said::Client {
            client: ClientId(3),
            did,
        },
        text,
    );
}

#[test]
fn what_clients_were_told_is_printed(rt: HostRuntime) -> Result<(), Fail> {
    let seq = Seq(9);
    let value = Value::read(b"x y")?;
    let wrote = ClientDid::Wrote {
        seq,
        version: Version(4),
    };
    let found = ClientDid::Read {
        seq,
        version: Version(4),
        content: Content::Present(value),
    };
    let absent = ClientDid::Read {
        seq,
        version: Version(0),
        content: Content::Absent,
    };
    let moved = ClientDid::Moved {
        switch: SwitchId(1),
        epoch: 2,
    };
    prints_client(&rt, wrote, b"client 3 answered 9 version 4");
    prints_client(&rt, found, b"client 3 answered 9 version 4 =x%20y");
    prints_client(&rt, absent, b"client 3 answered 9 version 0 -");
    prints_client(&rt, moved, b"client 3 moves to switch 1 epoch 2");
    prints_client(&rt, ClientDid::Ignored, b"client 3 ignores");
    Ok(())
}

fn prints_server(rt: &impl Abort, did: ServerDid, text: &[u8]) {
    prints(
        rt,
        Said::Server {
            server: ServerId(2),
            did,
        },
        text,
    );
}

#[test]
fn what_a_server_did_is_printed(rt: HostRuntime) -> Result<(), Fail> {
    let key = Key::read(b"\x01%~")?;
    let version = Version(4);
    let target = ServerId(0);
    prints_server(
        &rt,
        ServerDid::Read { key, version },
        b"server 2 reads %01%25~ version 4",
    );
    prints_server(
        &rt,
        ServerDid::Applied { key, version },
        b"server 2 applies %01%25~ version 4",
    );
    prints_server(
        &rt,
        ServerDid::Kept {
            key,
            held: Version(5),
        },
        b"server 2 keeps %01%25~ version 5",
    );
    prints_server(
        &rt,
        ServerDid::Copied {
            key,
            version,
            target,
        },
        b"server 2 copies %01%25~ version 4 to server 0",
    );
    prints_server(&rt, ServerDid::HasNone { key }, b"server 2 has no %01%25~");
    prints_server(&rt, ServerDid::Malformed, b"server 2 malformed");
    prints_server(&rt, ServerDid::OutOfPlace, b"server 2 out of place");
    Ok(())
}

#[test]
fn what_a_server_did_under_fences_is_printed(rt: HostRuntime) -> Result<(), Fail> {
    let key = Key::read(b"\x01%~")?;
    let version = Version(4);
    prints_server(
        &rt,
        ServerDid::Fenced {
            key,
            version,
            held: Version(3),
        },
        b"server 2 fences %01%25~ version 4 from 3",
    );
    prints_server(
        &rt,
        ServerDid::Void {
            key,
            version,
            floor: Version(5),
        },
        b"server 2 voids %01%25~ version 4 under 5",
    );
    prints_server(
        &rt,
        ServerDid::Barred {
            key,
            version,
            old: Version(5),
        },
        b"server 2 bars %01%25~ version 4 under 5",
    );
    Ok(())
}

#[test]
fn whole_lines_are_printed(rt: HostRuntime) -> Result<(), Fail> {
    let mut out = Text::make();
    assert_eq!(rt; out.bytes(), b"".as_slice());
    line_text(
        12,
        &Line {
            said: Said::Retries { number: 1 },
            sent: None,
        },
        &mut out,
    );
    assert_eq!(rt; out.bytes(), b"12 controller retries 1".as_slice());
    line_text(
        12,
        &Line {
            said: Said::Retries { number: 1 },
            sent: Some((3, 3)),
        },
        &mut out,
    );
    assert_eq!(rt; out.bytes(), b"12 controller retries 1 sends 3".as_slice());
    body_text(
        &Line {
            said: Said::Retries { number: 1 },
            sent: Some((3, 5)),
        },
        &mut out,
    );
    assert_eq!(rt; out.bytes(), b"controller retries 1 sends 3..5".as_slice());
    order_text(&key_k()?, 2, &mut out);
    assert_eq!(rt; out.bytes(), b"order k 2".as_slice());
    history_text(2, &mut out);
    assert_eq!(rt; out.bytes(), b"history 2".as_slice());
    place_text(0, &mut out);
    assert_eq!(rt; out.bytes(), b"at 0".as_slice());
    Ok(())
}
