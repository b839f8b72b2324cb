//! The packet that the bytes of a datagram spell.

ghost use Rattle.std.specs.Prelude.{◌≡◌, ◌≤◌, ◌++◌, length, drop, true, option_map, ℕ, List};
ghost use Rattle.std.specs.Prelude.{IfSome, IfNone, IsTrue};
ghost use Rattle.peg_name.specs.declared.Format.{Format as TheFormat};
ghost use Rattle.peg_model.specs.Packet.{begin, spelling, in_range, Read, Write, ToServerRead};
ghost use Rattle.peg_model.specs.Packet.{ToServerWrite, ReadReply, WriteReply, CopyOrder};
ghost use Rattle.peg_model.specs.Packet.{CopyData, Held, Part, Announce, Survey, Report, Fence};
ghost use Rattle.peg_model.specs.Packet.{Void};
ghost use Rattle.peg_model.specs.Reading.{one_at, two_at, eight_at, key_at, past_key, content_at};
ghost use Rattle.peg_model.specs.Reading.{rows_at, candidate, packet_of};
ghost use Rattle.peg_packet.specs.Seen.{seen};
ghost use Rattle.peg_packet.specs.Shapes.{ReadsKind, ReadsAny, value_at};

use crate::codes::kinds;
use crate::commands::{acknowledgement, command};
use crate::parts::{eight_at, header, last_key, last_pair, last_value, tail};
use crate::range::is_in_range;
use crate::{Packet, Rows};
use peg_name::{Format, ServerId, SwitchId, Version};

/// Whether the fields that a client's request fixes at 0 are 0.
fn is_request(bytes: &[u8]) -> bool
    requires { 24 ≤ length bytes.now }
    ensures version { IsTrue result → eight_at bytes.now 14 ≡ 0 }
    ensures server { IsTrue result → one_at bytes.now 22 ≡ 0 }
    ensures switch { IsTrue result → one_at bytes.now 23 ≡ 0 }
    ensures only { eight_at bytes.now 14 ≡ 0 → one_at bytes.now 22 ≡ 0 → one_at bytes.now 23 ≡ 0
        → IsTrue result }
{
    eight_at(bytes, 14) == 0 && bytes[22] == 0 && bytes[23] == 0
}

fn read(bytes: &[u8]) -> Option<Packet<'_>>
    ensures { ReadsKind bytes.now 1 (Read (two_at bytes.now 4) (eight_at bytes.now 6)
        (key_at bytes.now 24)) result }
{
    let key = last_key(bytes, 24)?;
    if !is_request(bytes) {
        return None;
    }
    let (header, _version) = header(bytes);
    Some(Packet::Read {
        client: header.client,
        seq: header.seq,
        key,
    })
}

fn write(bytes: &[u8]) -> Option<Packet<'_>>
    ensures { ReadsKind bytes.now 2 (Write (two_at bytes.now 4) (eight_at bytes.now 6)
        (key_at bytes.now 24) (content_at bytes.now (past_key bytes.now 24))) result }
{
    let (key, content) = last_pair(bytes, 24)?;
    if !is_request(bytes) {
        return None;
    }
    let (header, _version) = header(bytes);
    Some(Packet::Write {
        client: header.client,
        seq: header.seq,
        key,
        content,
    })
}

fn to_server_read(bytes: &[u8]) -> Option<Packet<'_>>
    ensures { ReadsKind bytes.now 3 (ToServerRead (two_at bytes.now 4) (eight_at bytes.now 6)
        (one_at bytes.now 22) (one_at bytes.now 23) (key_at bytes.now 24)) result }
{
    let key = last_key(bytes, 24)?;
    let (header, version) = header(bytes);
    if version.0 != 0 {
        return None;
    }
    Some(Packet::ToServerRead { header, key })
}

fn to_server_write(bytes: &[u8]) -> Option<Packet<'_>>
    ensures { ReadsKind bytes.now 4 (ToServerWrite (two_at bytes.now 4) (eight_at bytes.now 6)
        (eight_at bytes.now 14) (one_at bytes.now 22) (one_at bytes.now 23) (key_at bytes.now 24)
        (content_at bytes.now (past_key bytes.now 24))) result }
{
    let (key, content) = last_pair(bytes, 24)?;
    let (header, version) = header(bytes);
    Some(Packet::ToServerWrite {
        header,
        version,
        key,
        content,
    })
}

fn read_reply(bytes: &[u8]) -> Option<Packet<'_>>
    ensures { ReadsKind bytes.now 5 (ReadReply (two_at bytes.now 4) (eight_at bytes.now 6)
        (eight_at bytes.now 14) (one_at bytes.now 22) (one_at bytes.now 23) (key_at bytes.now 24)
        (content_at bytes.now (past_key bytes.now 24))) result }
{
    let (key, content) = last_pair(bytes, 24)?;
    let (header, version) = header(bytes);
    Some(Packet::ReadReply {
        header,
        version,
        key,
        content,
    })
}

fn write_reply(bytes: &[u8]) -> Option<Packet<'_>>
    ensures { ReadsKind bytes.now 6 (WriteReply (two_at bytes.now 4) (eight_at bytes.now 6)
        (eight_at bytes.now 14) (one_at bytes.now 22) (one_at bytes.now 23) (key_at bytes.now 24))
        result }
{
    let key = last_key(bytes, 24)?;
    let (header, version) = header(bytes);
    Some(Packet::WriteReply {
        header,
        version,
        key,
    })
}

fn void(bytes: &[u8]) -> Option<Packet<'_>>
    ensures { ReadsKind bytes.now 17 (Void (two_at bytes.now 4) (eight_at bytes.now 6)
        (eight_at bytes.now 14) (one_at bytes.now 22) (one_at bytes.now 23) (key_at bytes.now 24))
        result }
{
    let key = last_key(bytes, 24)?;
    let (header, version) = header(bytes);
    Some(Packet::Void {
        header,
        version,
        key,
    })
}

fn copy_order(bytes: &[u8]) -> Option<Packet<'_>>
    ensures { ReadsKind bytes.now 9 (CopyOrder (one_at bytes.now 4) (one_at bytes.now 5)
        (one_at bytes.now 6) (key_at bytes.now 7)) result }
{
    let key = last_key(bytes, 7)?;
    Some(Packet::CopyOrder {
        switch: SwitchId(bytes[4]),
        server: ServerId(bytes[5]),
        target: ServerId(bytes[6]),
        key,
    })
}

fn copy_data(bytes: &[u8]) -> Option<Packet<'_>>
    ensures { ReadsKind bytes.now 10 (CopyData (one_at bytes.now 4) (one_at bytes.now 5)
        (eight_at bytes.now 6) (key_at bytes.now 14)
        (content_at bytes.now (past_key bytes.now 14))) result }
{
    let (key, content) = last_pair(bytes, 14)?;
    Some(Packet::CopyData {
        switch: SwitchId(bytes[4]),
        server: ServerId(bytes[5]),
        version: Version(eight_at(bytes, 6)),
        key,
        content,
    })
}

fn held(bytes: &[u8]) -> Option<Packet<'_>>
    ensures { ReadsKind bytes.now 11 (Held (one_at bytes.now 4) (eight_at bytes.now 5)
        (key_at bytes.now 13)) result }
{
    let key = last_key(bytes, 13)?;
    Some(Packet::Held {
        server: ServerId(bytes[4]),
        version: Version(eight_at(bytes, 5)),
        key,
    })
}

fn part(bytes: &[u8]) -> Option<Packet<'_>>
    ensures { ReadsKind bytes.now 12 (Part (eight_at bytes.now 4) (one_at bytes.now 12)
        (one_at bytes.now 13) (value_at bytes.now 14)) result }
{
    let part = last_value(bytes, 14)?;
    Some(Packet::Part {
        epoch: eight_at(bytes, 4),
        index: bytes[12],
        count: bytes[13],
        bytes: part,
    })
}

fn announce(bytes: &[u8]) -> Option<Packet<'_>>
    ensures { ReadsKind bytes.now 13 (Announce (eight_at bytes.now 4) (one_at bytes.now 12))
        result }
{
    if bytes.len() != 13 {
        return None;
    }
    Some(Packet::Announce {
        epoch: eight_at(bytes, 4),
        switch: SwitchId(bytes[12]),
    })
}

fn survey(bytes: &[u8]) -> Option<Packet<'_>>
    ensures { ReadsKind bytes.now 14 Survey result }
{
    if bytes.len() == 4 {
        Some(Packet::Survey)
    } else {
        None
    }
}

fn report(bytes: &[u8]) -> Option<Packet<'_>>
    ensures { ReadsKind bytes.now 15 (Report (eight_at bytes.now 4) (eight_at bytes.now 12)
        (rows_at bytes.now (one_at bytes.now 20) 21)) result }
{
    if bytes.len() < 21 {
        return None;
    }
    let spelled = tail(bytes, 21);
    let rows = Rows::read(spelled, bytes[20] as usize)?;
    Some(Packet::Report {
        epoch: eight_at(bytes, 4),
        total: eight_at(bytes, 12),
        rows,
    })
}

fn fence(bytes: &[u8]) -> Option<Packet<'_>>
    ensures { ReadsKind bytes.now 16 (Fence (one_at bytes.now 4) (one_at bytes.now 5)
        (eight_at bytes.now 6) (key_at bytes.now 14)) result }
{
    let key = last_key(bytes, 14)?;
    Some(Packet::Fence {
        switch: SwitchId(bytes[4]),
        server: ServerId(bytes[5]),
        version: Version(eight_at(bytes, 6)),
        key,
    })
}

/// The packet of the kind that the bytes spell, whatever its ranges.
fn packet(bytes: &[u8]) -> Option<Packet<'_>>
    requires { 4 ≤ length bytes.now }
    ensures { ReadsAny bytes.now (one_at bytes.now 3) (candidate bytes.now) result }
{
    match bytes[3] {
        kinds::READ => read(bytes),
        kinds::WRITE => write(bytes),
        kinds::TO_SERVER_READ => to_server_read(bytes),
        kinds::TO_SERVER_WRITE => to_server_write(bytes),
        kinds::READ_REPLY => read_reply(bytes),
        kinds::WRITE_REPLY => write_reply(bytes),
        kinds::COMMAND => command(bytes),
        kinds::COMMAND_ACK => acknowledgement(bytes),
        kinds::COPY_ORDER => copy_order(bytes),
        kinds::COPY_DATA => copy_data(bytes),
        kinds::HELD => held(bytes),
        kinds::PART => part(bytes),
        kinds::ANNOUNCE => announce(bytes),
        kinds::SURVEY => survey(bytes),
        kinds::REPORT => report(bytes),
        kinds::FENCE => fence(bytes),
        kinds::VOID => void(bytes),
        _ => None,
    }
}

/// The format that the bytes of a datagram begin with.
fn format(bytes: &[u8]) -> Option<Format>
    ensures long { IfSome result (λ _. 4 ≤ length bytes.now) }
    ensures begun { IfSome result (λ format. bytes.now ≡ begin format (one_at bytes.now 3)
        ++ drop 4 bytes.now) }
    ensures none { IfNone result ((format : TheFormat) (kind : ℕ) (rest : List ℕ)
        → bytes.now ≡ begin format kind ++ rest → ⊥) }
{
    if bytes.len() < 4 || bytes[0] != 0x50 || bytes[1] != 0x47 {
        return None;
    }
    Format::of_number(u64::from(bytes[2]))
}

/// The packet that the whole of the bytes spell, with its format. There is none exactly where they
/// are no packet of either format, to the last byte and in every range. The packet is lent from
/// the bytes.
pub fn decode(bytes: &[u8]) -> Option<(Format, Packet<'_>)>
    ensures packet { option_map (λ r. (r.0, seen r.1)) result ≡ packet_of bytes.now }
    ensures in_range { IfSome result (λ r. in_range r.0 (seen r.1) ≡ true) }
    ensures spelled { IfSome result (λ r. bytes.now ≡ spelling r.0 (seen r.1)) }
{
    let format = format(bytes)?;
    let Some(packet) = packet(bytes) else {
        return None;
    };
    if is_in_range(format, &packet) {
        Some((format, packet))
    } else {
        None
    }
}
