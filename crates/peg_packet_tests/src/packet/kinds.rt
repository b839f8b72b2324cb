//! A packet of each kind, and each outcome.

use super::{TO_SERVER_WRITE, WRITE, survives_in_both};
use peg_event::Outcome;
use peg_name::{ClientId, Format, Seq, ServerId, SwitchId, Version};
use peg_packet::{Header, Packet, What, acknowledge, decode, outcome_of};

// The bytes are this packet of the first format, and are read and written back in both.
macro_rules! reads {
    ($rt:expr, $bytes:expr, $packet:pat) => {
        survives_in_both(
            &$rt,
            $bytes,
            matches!(decode($bytes), Some((Format::One, $packet))),
        );
    };
}

#[test]
fn writes(rt: HostRuntime) {
    reads!(
        rt,
        WRITE,
        Packet::Write {
            client: ClientId(0),
            seq: Seq(1),
            key: [b'k'],
            content: Some([b'x']),
        }
    );
    reads!(
        rt,
        TO_SERVER_WRITE,
        Packet::ToServerWrite {
            header: Header {
                client: ClientId(0),
                seq: Seq(1),
                server: ServerId(0),
                switch: SwitchId(0),
            },
            version: Version(1),
            key: [b'k'],
            content: Some([b'x']),
        }
    );
}

#[test]
fn reads(rt: HostRuntime) {
    let bytes = b"PG\x01\x01\0\0\0\0\0\0\0\0\0\x02\0\0\0\0\0\0\0\0\0\0\x01k";
    reads!(
        rt,
        bytes,
        Packet::Read {
            client: ClientId(0),
            seq: Seq(2),
            key: [b'k'],
        }
    );
    let bytes = b"PG\x01\x03\0\0\0\0\0\0\0\0\0\x02\0\0\0\0\0\0\0\0\0\0\x01k";
    reads!(
        rt,
        bytes,
        Packet::ToServerRead {
            header: Header {
                client: ClientId(0),
                seq: Seq(2),
                server: ServerId(0),
                switch: SwitchId(0),
            },
            key: [b'k'],
        }
    );
}

#[test]
fn replies(rt: HostRuntime) {
    let bytes = b"PG\x01\x06\0\0\0\0\0\0\0\0\0\x01\0\0\0\0\0\0\0\x01\0\0\x01k";
    reads!(
        rt,
        bytes,
        Packet::WriteReply {
            header: Header {
                client: ClientId(0),
                seq: Seq(1),
                server: ServerId(0),
                switch: SwitchId(0),
            },
            version: Version(1),
            key: [b'k'],
        }
    );
    let bytes = b"PG\x01\x05\0\0\0\0\0\0\0\0\0\x02\0\0\0\0\0\0\0\x01\0\0\x01k\x01\0\x01x";
    reads!(
        rt,
        bytes,
        Packet::ReadReply {
            header: Header {
                client: ClientId(0),
                seq: Seq(2),
                server: ServerId(0),
                switch: SwitchId(0),
            },
            version: Version(1),
            key: [b'k'],
            content: Some([b'x']),
        }
    );
}

#[test]
fn voids(rt: HostRuntime) {
    let bytes = b"PG\x01\x11\0\x02\0\0\0\0\0\0\0\x03\0\0\0\0\0\0\0\x04\x05\x01\x01k";
    reads!(
        rt,
        bytes,
        Packet::Void {
            header: Header {
                client: ClientId(2),
                seq: Seq(3),
                server: ServerId(5),
                switch: SwitchId(1),
            },
            version: Version(4),
            key: [b'k'],
        }
    );
}

#[test]
fn copies(rt: HostRuntime) {
    let bytes = b"PG\x01\x09\x01\x02\x03\x02ab";
    reads!(
        rt,
        bytes,
        Packet::CopyOrder {
            switch: SwitchId(1),
            server: ServerId(2),
            target: ServerId(3),
            key: [b'a', b'b'],
        }
    );
    let bytes = b"PG\x01\x0a\x01\x02\0\0\0\0\0\0\x01\x02\x02ab\0";
    reads!(
        rt,
        bytes,
        Packet::CopyData {
            switch: SwitchId(1),
            server: ServerId(2),
            version: Version(258),
            key: [b'a', b'b'],
            content: None,
        }
    );
}

#[test]
fn what_is_held_and_fences(rt: HostRuntime) {
    let bytes = b"PG\x01\x0b\x02\0\0\0\0\0\0\x01\x02\x02ab";
    reads!(
        rt,
        bytes,
        Packet::Held {
            server: ServerId(2),
            version: Version(258),
            key: [b'a', b'b'],
        }
    );
    let bytes = b"PG\x01\x10\x01\x02\0\0\0\0\0\0\x01\x02\x02ab";
    reads!(
        rt,
        bytes,
        Packet::Fence {
            switch: SwitchId(1),
            server: ServerId(2),
            version: Version(258),
            key: [b'a', b'b'],
        }
    );
}

#[test]
fn parts_and_surveys(rt: HostRuntime) {
    let bytes = b"PG\x01\x0c\0\0\0\0\0\0\0\x02\x04\x05\0\x01x";
    reads!(
        rt,
        bytes,
        Packet::Part {
            epoch: 2,
            index: 4,
            count: 5,
            bytes: [b'x'],
        }
    );
    let bytes = b"PG\x01\x0d\0\0\0\0\0\0\0\x01\x03";
    reads!(
        rt,
        bytes,
        Packet::Announce {
            epoch: 1,
            switch: SwitchId(3),
        }
    );
    let bytes = b"PG\x01\x0e";
    reads!(rt, bytes, Packet::Survey);
    let bytes = b"PG\x01\x08\0\0\0\0\0\0\0\x01\x0d\xff\xff\xff\xff\xff\xff\xff\xff";
    reads!(
        rt,
        bytes,
        Packet::CommandAck {
            number: 1,
            outcome: 13,
            value: u64::MAX,
        }
    );
}

#[test]
fn commands_of_keys(rt: HostRuntime) {
    let bytes = b"PG\x01\x07\0\0\0\0\0\0\0\x09\x01\x01k";
    reads!(
        rt,
        bytes,
        Packet::Command {
            number: 9,
            what: What::Promote { key: [b'k'] },
        }
    );
    let bytes = b"PG\x01\x07\0\0\0\0\0\0\0\x09\x02\x01k";
    reads!(
        rt,
        bytes,
        Packet::Command {
            number: 9,
            what: What::Demote { key: [b'k'] },
        }
    );
    let bytes = b"PG\x01\x07\0\0\0\0\0\0\0\x09\x03\x0f\x01k";
    reads!(
        rt,
        bytes,
        Packet::Command {
            number: 9,
            what: What::Copy {
                target: ServerId(15),
                key: [b'k']
            },
        }
    );
}

#[test]
fn commands_of_switches(rt: HostRuntime) {
    let bytes = b"PG\x01\x07\0\0\0\0\0\0\0\x09\x04\x03\0\0\0\0\0\0\0\x02";
    reads!(
        rt,
        bytes,
        Packet::Command {
            number: 9,
            what: What::Seal {
                target: SwitchId(3),
                epoch: 2
            },
        }
    );
    let bytes = b"PG\x01\x07\0\0\0\0\0\0\0\x09\x05";
    reads!(
        rt,
        bytes,
        Packet::Command {
            number: 9,
            what: What::Clear,
        }
    );
    let bytes = b"PG\x01\x07\0\0\0\0\0\0\0\x09\x06\x01k";
    reads!(
        rt,
        bytes,
        Packet::Command {
            number: 9,
            what: What::Fence { key: [b'k'] },
        }
    );
}

#[test]
fn every_outcome(rt: HostRuntime) {
    let outcomes = [
        (1, 7, Outcome::Listed(7)),
        (2, 7, Outcome::Already(7)),
        (3, 7, Outcome::Full(7)),
        (4, 7, Outcome::Marked(7)),
        (5, 0, Outcome::NotListed),
        (6, 7, Outcome::AlreadyMarked(7)),
        (7, 7, Outcome::Ordered(7)),
        (8, 0, Outcome::Holds),
        (9, 7, Outcome::Activated(7)),
        (10, 0, Outcome::Cleared),
        (11, 7, Outcome::Fenced(7)),
        (12, 0, Outcome::NoBase),
        (13, u64::MAX, Outcome::NoVersion(u64::MAX)),
    ];
    for (number, value, outcome) in outcomes {
        assert_eq!(rt; outcome_of(number, value), outcome);
        let told = matches!(acknowledge(9, outcome),
            Packet::CommandAck { number: 9, outcome: n, value: v } if n == number && v == value);
        assert!(rt; told, "{number}");
    }
}

#[test]
fn a_report_has_its_rows(rt: HostRuntime) {
    let bytes = b"PG\x01\x0f\0\0\0\0\0\0\0\x03\0\0\0\0\0\0\0\x04\x02\
        \x01k\0\0\0\0\0\0\0\x02\0\0\0\0\0\0\0\x01\
        \x01a\0\0\0\0\0\0\0\x01\0\0\0\0\0\0\0\0";
    let mut said = false;
    if let Some(
        (
            Format::One,
            Packet::Report {
                epoch: 3,
                total: 4,
                rows,
            },
        ),
    ) = decode(bytes)
    {
        assert!(rt; rows.len() == 2);
        let row = rows.row(0);
        said = row.key.bytes() == b"k".as_slice() && row.count == 2 && row.error == 1;
    }
    survives_in_both(&rt, bytes, said);
}
