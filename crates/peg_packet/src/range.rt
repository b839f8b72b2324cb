//! Whether the numbers and the lengths of a packet are those that a packet of its format may have.

ghost use Rattle.std.specs.Prelude.{◌≡◌, ◌≤◌, ◌&&◌, nat_lt, nat_le, false};
ghost use Rattle.peg_model.specs.Packet.{is_client, is_positive, is_number, is_server, is_switch};
ghost use Rattle.peg_model.specs.Packet.{is_key, is_value, is_content, is_written};
ghost use Rattle.peg_model.specs.Packet.{is_read_content, what_in_range, outcome_in_range};
ghost use Rattle.peg_model.specs.Packet.{part_in_range, family_in_range, in_range};
ghost use Rattle.peg_packet.specs.Seen.{seen, what_seen, content_seen, outcome_seen};
ghost use Rattle.peg_packet.specs.Family.{is_request, is_reply, is_copy};

use crate::outcomes::outcome_of;
use crate::report::is_report;
use crate::{Header, Packet, What};
use peg_event::Outcome;
use peg_name::{ClientId, Format, ServerId, SwitchId, Version};

fn is_client(format: Format, client: ClientId) -> bool
    ensures { result ≡ is_client format client }
{
    u64::from(client.0) < format.most_clients()
}

fn is_server_number(format: Format, server: u64) -> bool
    ensures { result ≡ is_server format server }
{
    server < format.most_servers()
}

fn is_server(format: Format, server: ServerId) -> bool
    ensures { result ≡ is_server format server }
{
    is_server_number(format, u64::from(server.0))
}

fn is_switch(switch: SwitchId) -> bool
    ensures { result ≡ is_switch switch }
{
    switch.0 < 4
}

pub fn is_key(key: &[u8]) -> bool
    ensures { result ≡ is_key key.now }
{
    1 <= key.len() && key.len() <= 32
}

fn is_value(format: Format, value: &[u8]) -> bool
    ensures { result ≡ is_value format value.now }
{
    value.len() <= format.most_of_value()
}

fn is_content(format: Format, content: Option<&[u8]>) -> bool
    ensures { result ≡ is_content format (content_seen content.entry) }
{
    match content {
        None => true,
        Some(value) => is_value(format, value),
    }
}

fn is_written(format: Format, content: Option<&[u8]>) -> bool
    ensures { result ≡ is_written format (content_seen content.entry) }
{
    match (format, content) {
        (Format::One, None) => false,
        (Format::Two, None) => true,
        (_, Some(value)) => is_value(format, value),
    }
}

fn is_read_content(format: Format, version: Version, content: Option<&[u8]>) -> bool
    ensures { result ≡ is_read_content format version (content_seen content.entry) }
{
    match content {
        None => true,
        Some(value) => version.0 > 0 && is_value(format, value),
    }
}

fn is_what(format: Format, what: &What<'_>) -> bool
    ensures { result ≡ what_in_range format (what_seen what.now) }
{
    match what {
        What::Promote { key } | What::Demote { key } | What::Fence { key } => is_key(key),
        What::Copy { target, key } => is_server(format, *target) && is_key(key),
        What::Seal { target, epoch } => is_switch(*target) && *epoch >= 2,
        What::Clear => true,
    }
}

fn is_outcome(format: Format, outcome: Outcome) -> bool
    ensures { result ≡ outcome_in_range format outcome }
{
    match outcome {
        Outcome::Ordered(server) => is_server_number(format, server),
        Outcome::Activated(epoch) => epoch >= 2,
        Outcome::Fenced(base) => base > 0,
        Outcome::NoVersion(next) => next == u64::MAX,
        _ => true,
    }
}

fn is_part(format: Format, index: u8, count: u8, bytes: &[u8]) -> bool
    ensures { result ≡ part_in_range format index count bytes.now }
{
    index < count
        && count <= format.most_parts()
        && 1 <= bytes.len()
        && bytes.len() <= 512
        && (count - index == 1 || bytes.len() == 512)
}

fn is_asked(format: Format, header: &Header, version: Version) -> bool
    ensures { result ≡ (is_client format header.now.client && is_positive header.now.seq
        && is_number version) }
{
    let _version = version.0;
    is_client(format, header.client) && header.seq.0 > 0
}

fn are_nodes(format: Format, header: &Header) -> bool
    ensures { result ≡ (is_server format header.now.server && is_switch header.now.switch) }
{
    is_server(format, header.server) && is_switch(header.switch)
}

fn is_family(format: Format, header: &Header, version: Version, key: &[u8]) -> bool
    ensures { result ≡ family_in_range format header.now.client header.now.seq version
        header.now.server header.now.switch key.now }
{
    is_asked(format, header, version) && are_nodes(format, header) && is_key(key)
}

fn is_positive(number: u64) -> bool
    ensures { result ≡ is_positive number }
{
    number > 0
}

fn is_version(version: Version) -> bool
    ensures { result ≡ is_positive version }
{
    is_positive(version.0)
}

fn is_epoch(epoch: u64) -> bool
    ensures { result ≡ (nat_le 2 epoch && is_number epoch) }
{
    epoch >= 2
}

fn is_family_write(
    format: Format,
    header: &Header,
    version: Version,
    key: &[u8],
    content: Option<&[u8]>,
) -> bool
    ensures { result ≡ (family_in_range format header.now.client header.now.seq version
        header.now.server header.now.switch key.now
        && is_written format (content_seen content.entry)) }
{
    is_family(format, header, version, key) && is_written(format, content)
}

fn is_family_read(
    format: Format,
    header: &Header,
    version: Version,
    key: &[u8],
    content: Option<&[u8]>,
) -> bool
    ensures { result ≡ (family_in_range format header.now.client header.now.seq version
        header.now.server header.now.switch key.now
        && is_read_content format version (content_seen content.entry)) }
{
    is_family(format, header, version, key) && is_read_content(format, version, content)
}

fn is_versioned(format: Format, header: &Header, version: Version, key: &[u8]) -> bool
    ensures { result ≡ (family_in_range format header.now.client header.now.seq version
        header.now.server header.now.switch key.now && nat_lt 0 version) }
{
    is_family(format, header, version, key) && version.0 > 0
}

fn is_versioned_write(
    format: Format,
    header: &Header,
    version: Version,
    key: &[u8],
    content: Option<&[u8]>,
) -> bool
    ensures { result ≡ (family_in_range format header.now.client header.now.seq version
        header.now.server header.now.switch key.now && nat_lt 0 version
        && is_written format (content_seen content.entry)) }
{
    is_versioned(format, header, version, key) && is_written(format, content)
}

fn is_command(format: Format, number: u64, what: &What<'_>) -> bool
    ensures { result ≡ (is_positive number && what_in_range format (what_seen what.now)) }
{
    is_positive(number) && is_what(format, what)
}

fn is_acknowledgement(format: Format, number: u64, outcome: u8, value: u64) -> bool
    ensures { result ≡ (is_positive number && outcome_in_range format
        (outcome_seen outcome value)) }
{
    is_positive(number) && is_outcome(format, outcome_of(outcome, value))
}

fn is_place(format: Format, switch: SwitchId, server: ServerId) -> bool
    ensures { result ≡ (is_switch switch && is_server format server) }
{
    is_switch(switch) && is_server(format, server)
}

fn is_order(
    format: Format,
    switch: SwitchId,
    server: ServerId,
    target: ServerId,
    key: &[u8],
) -> bool
    ensures { result ≡ (is_switch switch && is_server format server && is_server format target
        && is_key key.now) }
{
    is_place(format, switch, server) && is_server(format, target) && is_key(key)
}

fn is_placed(
    format: Format,
    switch: SwitchId,
    server: ServerId,
    version: Version,
    key: &[u8],
) -> bool
    ensures { result ≡ (is_switch switch && is_server format server && is_positive version
        && is_key key.now) }
{
    is_place(format, switch, server) && is_version(version) && is_key(key)
}

fn is_copied(
    format: Format,
    switch: SwitchId,
    server: ServerId,
    version: Version,
    key: &[u8],
    content: Option<&[u8]>,
) -> bool
    ensures { result ≡ (is_switch switch && is_server format server && is_positive version
        && is_key key.now && is_content format (content_seen content.entry)) }
{
    is_placed(format, switch, server, version, key) && is_content(format, content)
}

fn is_held(format: Format, server: ServerId, version: Version, key: &[u8]) -> bool
    ensures { result ≡ (is_server format server && is_positive version && is_key key.now) }
{
    is_server(format, server) && is_version(version) && is_key(key)
}

fn is_numbered_part(format: Format, epoch: u64, index: u8, count: u8, bytes: &[u8]) -> bool
    ensures { result ≡ (nat_le 2 epoch && is_number epoch
        && part_in_range format index count bytes.now) }
{
    is_epoch(epoch) && is_part(format, index, count, bytes)
}

fn is_announcement(epoch: u64, switch: SwitchId) -> bool
    ensures { result ≡ (is_positive epoch && is_switch switch) }
{
    is_positive(epoch) && is_switch(switch)
}

/// Whether a packet may be sent in a format: its numbers, its lengths and its rows are in the
/// ranges of its kind.
#[tactic(auto, unfolding(peg_model::specs::Packet::in_range))]
pub fn is_in_range(format: Format, packet: &Packet<'_>) -> bool
    ensures { result ≡ in_range format (seen packet.now) }
{
    match packet {
        Packet::Read { client, seq, key } => {
            is_family(format, &Header::of_request(*client, *seq), Version(0), key)
        }
        Packet::Write {
            client,
            seq,
            key,
            content,
        } => {
            let header = Header::of_request(*client, *seq);
            is_family_write(format, &header, Version(0), key, *content)
        }
        Packet::ToServerRead { header, key } => is_family(format, header, Version(0), key),
        Packet::ToServerWrite {
            header,
            version,
            key,
            content,
        } => is_versioned_write(format, header, *version, key, *content),
        _ => reply_in_range(format, packet),
    }
}

/// The same of a packet that is no request.
#[tactic(auto, unfolding(peg_model::specs::Packet::in_range))]
fn reply_in_range(format: Format, packet: &Packet<'_>) -> bool
    requires no_request { is_request packet.now ≡ false }
    ensures { result ≡ in_range format (seen packet.now) }
{
    match packet {
        Packet::ReadReply {
            header,
            version,
            key,
            content,
        } => is_family_read(format, header, *version, key, *content),
        Packet::WriteReply {
            header,
            version,
            key,
        }
        | Packet::Void {
            header,
            version,
            key,
        } => is_versioned(format, header, *version, key),
        _ => copy_in_range(format, packet),
    }
}

/// The same of a packet that is neither a request nor a reply.
#[tactic(auto, unfolding(peg_model::specs::Packet::in_range))]
fn copy_in_range(format: Format, packet: &Packet<'_>) -> bool
    requires no_request { is_request packet.now ≡ false }
    requires no_reply { is_reply packet.now ≡ false }
    ensures { result ≡ in_range format (seen packet.now) }
{
    match packet {
        Packet::CopyOrder {
            switch,
            server,
            target,
            key,
        } => is_order(format, *switch, *server, *target, key),
        Packet::CopyData {
            switch,
            server,
            version,
            key,
            content,
        } => is_copied(format, *switch, *server, *version, key, *content),
        Packet::Held {
            server,
            version,
            key,
        } => is_held(format, *server, *version, key),
        Packet::Fence {
            switch,
            server,
            version,
            key,
        } => is_placed(format, *switch, *server, *version, key),
        _ => other_in_range(format, packet),
    }
}

/// The same of a packet of no key.
#[tactic(auto, unfolding(peg_model::specs::Packet::in_range))]
fn other_in_range(format: Format, packet: &Packet<'_>) -> bool
    requires no_request { is_request packet.now ≡ false }
    requires no_reply { is_reply packet.now ≡ false }
    requires no_copy { is_copy packet.now ≡ false }
    ensures { result ≡ in_range format (seen packet.now) }
{
    match packet {
        Packet::Command { number, what } => is_command(format, *number, what),
        Packet::CommandAck {
            number,
            outcome,
            value,
        } => is_acknowledgement(format, *number, *outcome, *value),
        Packet::Part {
            epoch,
            index,
            count,
            bytes,
        } => is_numbered_part(format, *epoch, *index, *count, bytes),
        Packet::Announce { epoch, switch } => is_announcement(*epoch, *switch),
        Packet::Survey => true,
        Packet::Report { epoch, total, rows } => is_report(*epoch, *total, *rows),
        _ => unreachable!(),
    }
}
