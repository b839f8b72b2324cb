//! Parts of a packet, written behind the first bytes of a buffer. Each call answers the new end.

ghost use Rattle.std.specs.Prelude.{◌≡◌, ◌≤◌, ◌<◌, ◌+◌, [], ◌∷◌, ◌++◌, length};
ghost use Rattle.peg_model.specs.Packet.{begin, two, eight, key_bytes, content_bytes};
ghost use Rattle.peg_model.specs.Packet.{what_bytes, family};
ghost use Rattle.peg_packet.specs.Puts.{Puts, header_bytes};
ghost use Rattle.peg_grammar.specs.Fits.{FitsKey, FitsContent, FitsWhat};
ghost use Rattle.peg_packet.specs.Seen.{content_seen, what_seen};

use crate::codes::whats;
use crate::{Header, What};
use byteorder::{BigEndian, ByteOrder};
use peg_name::{ClientId, Format, Seq, ServerId, SwitchId, Version};

/// The bytes of the largest packet.
pub const MOST: usize = 1152;

pub fn put_byte(out: &mut [u8; MOST], at: usize, byte: u8) -> usize
    requires { at < 1152 }
    ensures { Puts out.old out.new at result (byte ∷ []) }
{
    out[at] = byte;
    at + 1
}

pub fn put_two(out: &mut [u8; MOST], at: usize, number: u16) -> usize
    requires { at + 2 ≤ 1152 }
    ensures { Puts out.old out.new at result (two number) }
{
    BigEndian::write_u16(&mut out[at..], number);
    at + 2
}

pub fn put_eight(out: &mut [u8; MOST], at: usize, number: u64) -> usize
    requires { at + 8 ≤ 1152 }
    ensures { Puts out.old out.new at result (eight number) }
{
    BigEndian::write_u64(&mut out[at..], number);
    at + 8
}

pub fn put_client(out: &mut [u8; MOST], at: usize, client: ClientId) -> usize
    requires { at + 2 ≤ 1152 }
    ensures { Puts out.old out.new at result (two client) }
{
    put_two(out, at, client.0)
}

pub fn put_seq(out: &mut [u8; MOST], at: usize, seq: Seq) -> usize
    requires { at + 8 ≤ 1152 }
    ensures { Puts out.old out.new at result (eight seq) }
{
    put_eight(out, at, seq.0)
}

pub fn put_version(out: &mut [u8; MOST], at: usize, version: Version) -> usize
    requires { at + 8 ≤ 1152 }
    ensures { Puts out.old out.new at result (eight version) }
{
    put_eight(out, at, version.0)
}

pub fn put_server(out: &mut [u8; MOST], at: usize, server: ServerId) -> usize
    requires { at < 1152 }
    ensures { Puts out.old out.new at result (server ∷ []) }
{
    put_byte(out, at, server.0)
}

pub fn put_switch(out: &mut [u8; MOST], at: usize, switch: SwitchId) -> usize
    requires { at < 1152 }
    ensures { Puts out.old out.new at result (switch ∷ []) }
{
    put_byte(out, at, switch.0)
}

pub fn put_slice(out: &mut [u8; MOST], at: usize, bytes: &[u8]) -> usize
    requires { at + length bytes.now ≤ 1152 }
    ensures { Puts out.old out.new at result bytes.now }
{
    let end = at + bytes.len();
    out[at..end].copy_from_slice(bytes);
    end
}

/// The four bytes that begin a packet of this kind.
pub fn put_begin(out: &mut [u8; MOST], format: Format, kind: u8) -> usize
    ensures { Puts out.old out.new 0 result (begin format kind) }
{
    put_slice(out, 0, &[0x50, 0x47, format.number(), kind])
}

pub fn put_key(out: &mut [u8; MOST], at: usize, key: &[u8]) -> usize
    requires room { at + 33 ≤ 1152 }
    requires fits { FitsKey key.now }
    ensures { Puts out.old out.new at result (key_bytes key.now) }
{
    let at = put_byte(out, at, key.len() as u8);
    put_slice(out, at, key)
}

/// Bytes behind their length.
pub fn put_value(out: &mut [u8; MOST], at: usize, value: &[u8]) -> usize
    requires room { at + 1026 ≤ 1152 }
    requires fits { length value.now ≤ 1024 }
    ensures { Puts out.old out.new at result (two (length value.now) ++ value.now) }
{
    let at = put_two(out, at, value.len() as u16);
    put_slice(out, at, value)
}

pub fn put_content(out: &mut [u8; MOST], at: usize, content: Option<&[u8]>) -> usize
    requires room { at + 1027 ≤ 1152 }
    requires fits { FitsContent (content_seen content) }
    ensures { Puts out.old out.new at result (content_bytes (content_seen content.entry)) }
{
    match content {
        None => put_byte(out, at, 0),
        Some(value) => {
            let at = put_byte(out, at, 1);
            put_value(out, at, value)
        }
    }
}

/// A header, around a version.
fn put_header(out: &mut [u8; MOST], at: usize, header: &Header, version: Version) -> usize
    requires { at + 20 ≤ 1152 }
    ensures { Puts out.old out.new at result (header_bytes header.now version) }
{
    let at = put_client(out, at, header.client);
    let at = put_seq(out, at, header.seq);
    let at = put_version(out, at, version);
    let at = put_server(out, at, header.server);
    put_switch(out, at, header.switch)
}

/// A packet of a kind between clients and servers, up to its content.
pub fn put_family(
    out: &mut [u8; MOST],
    format: Format,
    kind: u8,
    header: &Header,
    version: Version,
    key: &[u8],
) -> usize
    requires { FitsKey key.now }
    ensures { Puts out.old out.new 0 result (family format kind header.now.client header.now.seq
        version header.now.server header.now.switch key.now) }
{
    let at = put_begin(out, format, kind);
    let at = put_header(out, at, header, version);
    put_key(out, at, key)
}

pub fn put_what(out: &mut [u8; MOST], at: usize, what: &What<'_>) -> usize
    requires room { at + 35 ≤ 1152 }
    requires fits { FitsWhat (what_seen what.now) }
    ensures { Puts out.old out.new at result (what_bytes (what_seen what.now)) }
{
    match *what {
        What::Promote { key } => put_named(out, at, whats::PROMOTE, key),
        What::Demote { key } => put_named(out, at, whats::DEMOTE, key),
        What::Copy { target, key } => {
            let at = put_byte(out, at, whats::COPY);
            put_named(out, at, target.0, key)
        }
        What::Seal { target, epoch } => {
            let at = put_byte(out, at, whats::SEAL);
            let at = put_byte(out, at, target.0);
            put_eight(out, at, epoch)
        }
        What::Clear => put_byte(out, at, whats::CLEAR),
        What::Fence { key } => put_named(out, at, whats::FENCE, key),
    }
}

/// A number and a key.
fn put_named(out: &mut [u8; MOST], at: usize, number: u8, key: &[u8]) -> usize
    requires room { at + 34 ≤ 1152 }
    requires fits { FitsKey key.now }
    ensures { Puts out.old out.new at result (number ∷ key_bytes key.now) }
{
    let at = put_byte(out, at, number);
    put_key(out, at, key)
}
