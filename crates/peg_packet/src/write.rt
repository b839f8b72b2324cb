//! How a packet is spelled.

ghost use Rattle.std.specs.Prelude.{◌≡◌, ◌≤◌, ◌++◌, ◌∷◌, [], length, take, true, false, Some};
ghost use Rattle.std.specs.List.{flat_map};
ghost use Rattle.peg_name.specs.Name.{packet_most};
ghost use Rattle.peg_model.specs.Packet.{begin, eight, two, key_bytes, content_bytes, family};
ghost use Rattle.peg_model.specs.Packet.{spelling, in_range, what_bytes, outcome_bytes, row_bytes};
ghost use Rattle.peg_model.specs.Packet.{Command, CommandAck, CopyOrder, CopyData, Held, Part};
ghost use Rattle.peg_model.specs.Packet.{Announce, Report, Fence};
ghost use Rattle.peg_model.specs.Reading.{packet_of};
ghost use Rattle.peg_packet.specs.Puts.{Puts};
ghost use Rattle.peg_packet.specs.Family.{is_request, is_reply, is_copy};
ghost use Rattle.peg_grammar.specs.Fits.{FitsKey, FitsContent, FitsWhat};
ghost use Rattle.peg_packet.specs.Seen.{seen, content_seen, what_seen, outcome_seen, rows_seen};

use crate::codes::kinds;
use crate::puts::{
    MOST, put_begin, put_byte, put_content, put_eight, put_family, put_key, put_server, put_slice,
    put_switch, put_value, put_version, put_what,
};
use crate::{Header, Packet, Rows, What};
use peg_name::{Format, ServerId, SwitchId, Version};

/// A packet of a kind between clients and servers that has a content.
fn put_with_content(
    out: &mut [u8; MOST],
    format: Format,
    kind: u8,
    header: &Header,
    version: Version,
    key: &[u8],
    content: Option<&[u8]>,
) -> usize
    requires key { FitsKey key.now }
    requires content { FitsContent (content_seen content) }
    ensures { Puts out.old out.new 0 result (family format kind header.now.client header.now.seq
        version header.now.server header.now.switch key.now
        ++ content_bytes (content_seen content.entry)) }
{
    let at = put_family(out, format, kind, header, version, key);
    put_content(out, at, content)
}

#[tactic(auto, unfolding(peg_model::specs::Packet::spelling))]
fn put_command(out: &mut [u8; MOST], format: Format, number: u64, what: &What<'_>) -> usize
    requires { FitsWhat (what_seen what.now) }
    ensures { Puts out.old out.new 0 result
        (spelling format (Command number (what_seen what.now))) }
{
    let at = put_begin(out, format, kinds::COMMAND);
    let at = put_eight(out, at, number);
    put_what(out, at, what)
}

fn put_acknowledgement(
    out: &mut [u8; MOST],
    format: Format,
    number: u64,
    outcome: u8,
    value: u64,
) -> usize
    ensures { Puts out.old out.new 0 result
        (begin format 8 ++ eight number ++ outcome ∷ eight value) }
{
    let at = put_begin(out, format, kinds::COMMAND_ACK);
    let at = put_eight(out, at, number);
    let at = put_byte(out, at, outcome);
    put_eight(out, at, value)
}

#[tactic(auto, unfolding(peg_model::specs::Packet::spelling))]
fn put_copy_order(
    out: &mut [u8; MOST],
    format: Format,
    switch: SwitchId,
    server: ServerId,
    target: ServerId,
    key: &[u8],
) -> usize
    requires { FitsKey key.now }
    ensures { Puts out.old out.new 0 result
        (spelling format (CopyOrder switch server target key.now)) }
{
    let at = put_begin(out, format, kinds::COPY_ORDER);
    let at = put_switch(out, at, switch);
    let at = put_server(out, at, server);
    let at = put_server(out, at, target);
    put_key(out, at, key)
}

/// A packet that names a switch, a server, a version and a key.
fn put_at_version(
    out: &mut [u8; MOST],
    format: Format,
    kind: u8,
    switch: SwitchId,
    server: ServerId,
    version: Version,
    key: &[u8],
) -> usize
    requires { FitsKey key.now }
    ensures { Puts out.old out.new 0 result (begin format kind ++ switch ∷ server ∷ eight version
        ++ key_bytes key.now) }
{
    let at = put_begin(out, format, kind);
    let at = put_switch(out, at, switch);
    let at = put_server(out, at, server);
    let at = put_version(out, at, version);
    put_key(out, at, key)
}

#[tactic(auto, unfolding(peg_model::specs::Packet::spelling))]
fn put_held(
    out: &mut [u8; MOST],
    format: Format,
    server: ServerId,
    version: Version,
    key: &[u8],
) -> usize
    requires { FitsKey key.now }
    ensures { Puts out.old out.new 0 result (spelling format (Held server version key.now)) }
{
    let at = put_begin(out, format, kinds::HELD);
    let at = put_server(out, at, server);
    let at = put_version(out, at, version);
    put_key(out, at, key)
}

#[tactic(auto, unfolding(peg_model::specs::Packet::spelling))]
fn put_part(
    out: &mut [u8; MOST],
    format: Format,
    epoch: u64,
    index: u8,
    count: u8,
    bytes: &[u8],
) -> usize
    requires { length bytes.now ≤ 512 }
    ensures { Puts out.old out.new 0 result (spelling format (Part epoch index count bytes.now)) }
{
    let at = put_begin(out, format, kinds::PART);
    let at = put_eight(out, at, epoch);
    let at = put_byte(out, at, index);
    let at = put_byte(out, at, count);
    put_value(out, at, bytes)
}

#[tactic(auto, unfolding(peg_model::specs::Packet::spelling))]
fn put_announce(out: &mut [u8; MOST], format: Format, epoch: u64, switch: SwitchId) -> usize
    ensures { Puts out.old out.new 0 result (spelling format (Announce epoch switch)) }
{
    let at = put_begin(out, format, kinds::ANNOUNCE);
    let at = put_eight(out, at, epoch);
    put_switch(out, at, switch)
}

#[tactic(auto, unfolding(peg_model::specs::Packet::spelling))]
fn put_report(out: &mut [u8; MOST], format: Format, epoch: u64, total: u64, rows: Rows<'_>) -> usize
    requires few { length (rows_seen rows) ≤ 12 }
    requires short { length (flat_map row_bytes (rows_seen rows)) ≤ 588 }
    ensures { Puts out.old out.new 0 result
        (spelling format (Report epoch total (rows_seen rows.entry))) }
{
    let at = put_begin(out, format, kinds::REPORT);
    let at = put_eight(out, at, epoch);
    let at = put_eight(out, at, total);
    let at = put_byte(out, at, rows.len() as u8);
    put_slice(out, at, rows.bytes())
}

/// The packet at the front of the buffer.
fn put(out: &mut [u8; MOST], format: Format, packet: &Packet<'_>) -> usize
    requires { in_range format (seen packet.now) ≡ true }
    ensures { Puts out.old out.new 0 result (spelling format (seen packet.now)) }
{
    match packet {
        Packet::Read { client, seq, key } => {
            let header = Header::of_request(*client, *seq);
            put_family(out, format, kinds::READ, &header, Version(0), key)
        }
        Packet::Write {
            client,
            seq,
            key,
            content,
        } => {
            let header = Header::of_request(*client, *seq);
            put_with_content(
                out,
                format,
                kinds::WRITE,
                &header,
                Version(0),
                key,
                *content,
            )
        }
        Packet::ToServerRead { header, key } => {
            put_family(out, format, kinds::TO_SERVER_READ, header, Version(0), key)
        }
        Packet::ToServerWrite {
            header,
            version,
            key,
            content,
        } => {
            let kind = kinds::TO_SERVER_WRITE;
            put_with_content(out, format, kind, header, *version, key, *content)
        }
        _ => put_reply(out, format, packet),
    }
}

/// A packet that is no request.
fn put_reply(out: &mut [u8; MOST], format: Format, packet: &Packet<'_>) -> usize
    requires no_request { is_request packet.now ≡ false }
    requires in_range { in_range format (seen packet.now) ≡ true }
    ensures { Puts out.old out.new 0 result (spelling format (seen packet.now)) }
{
    match packet {
        Packet::ReadReply {
            header,
            version,
            key,
            content,
        } => put_with_content(
            out,
            format,
            kinds::READ_REPLY,
            header,
            *version,
            key,
            *content,
        ),
        Packet::WriteReply {
            header,
            version,
            key,
        } => put_family(out, format, kinds::WRITE_REPLY, header, *version, key),
        Packet::Void {
            header,
            version,
            key,
        } => put_family(out, format, kinds::VOID, header, *version, key),
        _ => put_copy(out, format, packet),
    }
}

/// A packet that is neither a request nor a reply.
fn put_copy(out: &mut [u8; MOST], format: Format, packet: &Packet<'_>) -> usize
    requires no_request { is_request packet.now ≡ false }
    requires no_reply { is_reply packet.now ≡ false }
    requires in_range { in_range format (seen packet.now) ≡ true }
    ensures { Puts out.old out.new 0 result (spelling format (seen packet.now)) }
{
    match packet {
        Packet::CopyOrder {
            switch,
            server,
            target,
            key,
        } => { put_copy_order(out, format, *switch, *server, *target, key) }
        Packet::CopyData {
            switch,
            server,
            version,
            key,
            content,
        } => {
            let at = put_at_version(
                out,
                format,
                kinds::COPY_DATA,
                *switch,
                *server,
                *version,
                key,
            );
            put_content(out, at, *content)
        }
        Packet::Held {
            server,
            version,
            key,
        } => put_held(out, format, *server, *version, key),
        Packet::Fence {
            switch,
            server,
            version,
            key,
        } => { put_at_version(out, format, kinds::FENCE, *switch, *server, *version, key) }
        _ => put_other(out, format, packet),
    }
}

/// A packet of no key.
fn put_other(out: &mut [u8; MOST], format: Format, packet: &Packet<'_>) -> usize
    requires no_request { is_request packet.now ≡ false }
    requires no_reply { is_reply packet.now ≡ false }
    requires no_copy { is_copy packet.now ≡ false }
    requires in_range { in_range format (seen packet.now) ≡ true }
    ensures { Puts out.old out.new 0 result (spelling format (seen packet.now)) }
{
    match packet {
        Packet::Command { number, what } => put_command(out, format, *number, what),
        Packet::CommandAck {
            number,
            outcome,
            value,
        } => { put_acknowledgement(out, format, *number, *outcome, *value) }
        Packet::Part {
            epoch,
            index,
            count,
            bytes,
        } => { put_part(out, format, *epoch, *index, *count, bytes) }
        Packet::Announce { epoch, switch } => put_announce(out, format, *epoch, *switch),
        Packet::Survey => put_begin(out, format, kinds::SURVEY),
        Packet::Report { epoch, total, rows } => put_report(out, format, *epoch, *total, *rows),
        _ => unreachable!(),
    }
}

/// Writes the one spelling of a packet that is in range in a format, and answers the number of its
/// bytes: at most 640, and 1,152 in the second format. What stands behind them in the buffer is of
/// no meaning.
pub fn encode(format: Format, packet: &Packet<'_>, out: &mut [u8; 1152]) -> usize
    requires { in_range format (seen packet.now) ≡ true }
    ensures spelled { take result out.new ≡ spelling format (seen packet.now) }
    ensures len { result ≡ length (spelling format (seen packet.now)) }
    ensures most { result ≤ packet_most format }
    ensures decoded { packet_of (take result out.new) ≡ Some (format, seen packet.now) }
{
    put(out, format, packet)
}
