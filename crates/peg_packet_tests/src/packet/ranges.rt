//! The largest packets, and bytes that are no packet.

use super::{TO_SERVER_WRITE, WRITE, survives};
use peg_packet::decode;
use std::process::Abort;

#[test]
fn the_second_format_has_wider_ranges(rt: HostRuntime) {
    let packets: [&[u8]; 3] = [
        b"PG\x02\x02\x03\xff\0\0\0\0\0\0\0\x01\0\0\0\0\0\0\0\0\0\0\x01k\0",
        b"PG\x02\x0b\x3f\0\0\0\0\0\0\0\x01\x01k",
        b"PG\x02\x0c\0\0\0\0\0\0\0\x02\x3f\x40\0\x01x",
    ];
    for bytes in packets {
        survives(&rt, bytes);
        let mut first = [0; 64];
        for (to, from) in first.iter_mut().zip(bytes) {
            *to = *from;
        }
        first[2] = 1;
        assert!(rt;
            first
                .get(..bytes.len())
                .is_some_and(|first| decode(first).is_none())
        );
    }
}

/// These bytes and then letters, as many as they are to be in all.
fn filled(rt: &impl Abort, head: &[u8], len: usize, packet: bool) {
    let mut bytes = [b'x'; 1152];
    for (to, from) in bytes.iter_mut().zip(head) {
        *to = *from;
    }
    assert!(rt; len <= 1152);
    if packet {
        survives(rt, &bytes[..len]);
    } else {
        assert!(rt; decode(&bytes[..len]).is_none(), "{head:?}");
    }
}

#[test]
fn the_largest_packets(rt: HostRuntime) {
    let one = b"PG\x01\x02\0\0\0\0\0\0\0\0\0\x01\0\0\0\0\0\0\0\0\0\0\
        \x2012345678901234567890123456789012\x01\x02\0";
    filled(&rt, one, 572, true);
    let one = b"PG\x01\x02\0\0\0\0\0\0\0\0\0\x01\0\0\0\0\0\0\0\0\0\0\x01k\x01\x02\x01";
    filled(&rt, one, 542, false);
    let two = b"PG\x02\x02\0\0\0\0\0\0\0\0\0\x01\0\0\0\0\0\0\0\0\0\0\
        \x2012345678901234567890123456789012\x01\x04\0";
    filled(&rt, two, 1084, true);
    let two = b"PG\x02\x02\0\0\0\0\0\0\0\0\0\x01\0\0\0\0\0\0\0\0\0\0\x01k\x01\x04\x01";
    filled(&rt, two, 1054, false);
    filled(&rt, b"PG\x01\x0c\0\0\0\0\0\0\0\x02\0\x02\x02\0", 528, true);
    filled(
        &rt,
        b"PG\x01\x0c\0\0\0\0\0\0\0\x02\0\x02\x01\xff",
        527,
        false,
    );
}

#[test]
fn the_largest_report(rt: HostRuntime) {
    for format in [1, 2] {
        let mut bytes = [0; 609];
        bytes[..4].copy_from_slice(&[0x50, 0x47, format, 15]);
        bytes[20] = 12;
        for (i, row) in bytes[21..].chunks_mut(49).enumerate() {
            for byte in row.iter_mut().take(33) {
                *byte = i as u8;
            }
            if let [len, .., count, _, _, _, _, _, _, _, _] = row {
                (*len, *count) = (32, 1);
            }
        }
        survives(&rt, &bytes);
    }
}

#[test]
fn malformed_bytes_are_no_packet(rt: HostRuntime) {
    let malformed: [&[u8]; 14] = [
        b"",
        b"P",
        b"PG\x01",
        b"PG\x01\x02\0\0\0\0\0\0\0\0\0\x01\0\0\0\0\0\0\0\0\0\0\0\x01\0\x01x",
        b"PG\x01\x02\0\0\0\0\0\0\0\0\0\x01\0\0\0\0\0\0\0\0\0\0\
            \x21123456789012345678901234567890123\x01\0\x01x",
        b"PG\x01\x02\0\0\0\0\0\0\0\0\0\x01\0\0\0\0\0\0\0\0\0\0\x01k\0",
        b"PG\x01\x02\0\0\0\0\0\0\0\0\0\x01\0\0\0\0\0\0\0\0\0\0\x01k\x01\0\x01x\0",
        b"PG\x01\x02\0\0\0\0\0\0\0\0\0\x01\0\0\0\0\0\0\0\0\0\0\x01k\x01\0\x01",
        b"PG\x01\x0c\0\0\0\0\0\0\0\x02\x01\x01\0\x01x",
        b"PG\x01\x0d\0\0\0\0\0\0\0\0\0",
        b"PG\x01\x07\0\0\0\0\0\0\0\x01\x04\0\0\0\0\0\0\0\0\x01",
        b"PG\x01\x0f\0\0\0\0\0\0\0\0\0\0\0\0\0\0\0\0\x01\x01k\0\0\0\0\0\0\0\x01\0\0\0\0\0\0\0\x02",
        b"PG\x01\x0f\0\0\0\0\0\0\0\0\0\0\0\0\0\0\0\0\x02\
            \x01k\0\0\0\0\0\0\0\x01\0\0\0\0\0\0\0\0\x01k\0\0\0\0\0\0\0\x01\0\0\0\0\0\0\0\0",
        b"PG\x01\x08\0\0\0\0\0\0\0\x01\x05\0\0\0\0\0\0\0\x01",
    ];
    for bytes in malformed {
        assert!(rt; decode(bytes).is_none(), "{bytes:?}");
    }
    assert!(rt; decode(&[0; 641]).is_none());
}

/// The bytes are no packet once the byte at a place is another.
fn no_packet_with(rt: &impl Abort, bytes: &[u8], place: usize, byte: u8) {
    let mut changed = [0; 30];
    for (to, from) in changed.iter_mut().zip(bytes) {
        *to = *from;
    }
    assert!(rt; place < 30);
    changed[place] = byte;
    assert!(rt; decode(&changed).is_none(), "{byte} at {place}");
}

#[test]
fn a_write_with_another_byte_is_no_packet(rt: HostRuntime) {
    let changes = [
        (0, 0x51),
        (2, 3),
        (3, 0),
        (3, 0x20),
        (4, 1),
        (13, 0),
        (21, 1),
        (24, 0),
        (24, 33),
        (24, 200),
        (26, 2),
        (28, 2),
    ];
    for (place, byte) in changes {
        no_packet_with(&rt, WRITE, place, byte);
    }
    no_packet_with(&rt, TO_SERVER_WRITE, 22, 16);
    no_packet_with(&rt, TO_SERVER_WRITE, 23, 4);
}
