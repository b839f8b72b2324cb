//! What stands at a place of a datagram.

ghost use Rattle.std.specs.Prelude.{◌≡◌, ◌≤◌, ◌+◌, ◌++◌, length, drop};
ghost use Rattle.peg_model.specs.Packet.{two, eight};
ghost use Rattle.peg_model.specs.Reading.{two_at, eight_at};
ghost use Rattle.peg_packet.specs.Shapes.{KeyFrom, LastKey, LastValue, LastContent, LastPair};
ghost use Rattle.peg_packet.specs.Shapes.{HeaderAt};

use crate::Header;
use peg_name::{ClientId, Seq, ServerId, SwitchId, Version};

/// The number in the two bytes at a place.
pub fn two_at(bytes: &[u8], at: usize) -> u16
    requires { at + 2 ≤ length bytes.now }
    ensures number { result ≡ two_at bytes.now at }
    ensures split { drop at bytes.now ≡ two (two_at bytes.now at) ++ drop (at + 2) bytes.now }
{
    match bytes[at..].first_chunk() {
        Some(chunk) => u16::from_be_bytes(*chunk),
        None => unreachable!(),
    }
}

/// The number in the eight bytes at a place.
pub fn eight_at(bytes: &[u8], at: usize) -> u64
    requires { at + 8 ≤ length bytes.now }
    ensures number { result ≡ eight_at bytes.now at }
    ensures split { drop at bytes.now ≡ eight (eight_at bytes.now at) ++ drop (at + 8) bytes.now }
{
    match bytes[at..].first_chunk() {
        Some(chunk) => u64::from_be_bytes(*chunk),
        None => unreachable!(),
    }
}

/// The header of a kind between clients and servers, and the version that stands within it.
pub fn header(bytes: &[u8]) -> (Header, Version)
    requires { 24 ≤ length bytes.now }
    ensures { HeaderAt bytes.now result.0 result.1 }
{
    let header = Header {
        client: ClientId(two_at(bytes, 4)),
        seq: Seq(eight_at(bytes, 6)),
        server: ServerId(bytes[22]),
        switch: SwitchId(bytes[23]),
    };
    (header, Version(eight_at(bytes, 14)))
}

/// The bytes from a place on.
pub fn tail(bytes: &[u8], at: usize) -> &[u8]
    requires { at ≤ length bytes.now }
    ensures { result.now ≡ drop at bytes.now }
{
    &bytes[at..]
}

/// The key at a place, and the place behind it.
pub fn key_from(bytes: &[u8], at: usize) -> Option<(&[u8], usize)>
    ensures { KeyFrom bytes.now at result }
{
    if at >= bytes.len() {
        return None;
    }
    let next = at + 1 + usize::from(bytes[at]);
    if next > bytes.len() {
        return None;
    }
    Some((&bytes[at + 1..next], next))
}

/// The key at a place where it ends the datagram.
pub fn last_key(bytes: &[u8], at: usize) -> Option<&[u8]>
    ensures { LastKey bytes.now at result }
{
    let (key, next) = key_from(bytes, at)?;
    if next == bytes.len() { Some(key) } else { None }
}

/// The bytes behind their length of two bytes, where they end the datagram.
pub fn last_value(bytes: &[u8], at: usize) -> Option<&[u8]>
    ensures { LastValue bytes.now at result }
{
    if bytes.len() < 2 || at > bytes.len() - 2 {
        return None;
    }
    let start = at + 2;
    if bytes.len() - start == usize::from(two_at(bytes, at)) {
        Some(&bytes[start..])
    } else {
        None
    }
}

/// The content at a place where it ends the datagram.
pub fn last_content(bytes: &[u8], at: usize) -> Option<Option<&[u8]>>
    ensures { LastContent bytes.now at result }
{
    if at >= bytes.len() {
        return None;
    }
    match bytes[at] {
        0 if at + 1 == bytes.len() => Some(None),
        1 => last_value(bytes, at + 1).map(Some),
        _ => None,
    }
}

/// The key and the content at a place where they end the datagram.
pub fn last_pair(bytes: &[u8], at: usize) -> Option<(&[u8], Option<&[u8]>)>
    ensures { LastPair bytes.now at result }
{
    let (key, next) = key_from(bytes, at)?;
    let content = last_content(bytes, next)?;
    Some((key, content))
}
