//! Packets against bytes that were spelled by hand.

use peg_packet::{decode, encode, is_in_range};
use std::process::Abort;

mod kinds;
mod lent;
mod ranges;

const WRITE: &[u8] = b"PG\x01\x02\0\0\0\0\0\0\0\0\0\x01\0\0\0\0\0\0\0\0\0\0\x01k\x01\0\x01x";

const TO_SERVER_WRITE: &[u8] =
    b"PG\x01\x04\0\0\0\0\0\0\0\0\0\x01\0\0\0\0\0\0\0\x01\0\0\x01k\x01\0\x01x";

/// The bytes are a packet, and it is spelled by them.
fn survives(rt: &impl Abort, bytes: &[u8]) {
    let mut out = [0; 1152];
    let read = decode(bytes);
    assert!(rt; read.is_some(), "{bytes:?}");
    if let Some((format, packet)) = read {
        assert!(rt; is_in_range(format, &packet));
        let len = encode(format, &packet, &mut out);
        assert!(rt;
            out.get(..len).is_some_and(|spelled| spelled == bytes),
            "{bytes:?}"
        );
    }
}

/// The bytes are a packet of the first format as is said, and survive; and so they do in the
/// second.
fn survives_in_both(rt: &impl Abort, bytes: &[u8], as_said: bool) {
    assert!(rt; as_said, "{bytes:?}");
    survives(rt, bytes);
    let mut second = [0; 1152];
    for (to, from) in second.iter_mut().zip(bytes) {
        *to = *from;
    }
    second[2] = 2;
    if let Some(second) = second.get(..bytes.len()) {
        survives(rt, second);
    }
}
