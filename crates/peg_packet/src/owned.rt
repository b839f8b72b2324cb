//! Between what a packet lends and what a node keeps.

ghost use Rattle.std.specs.Prelude.{◌≡◌, true};
ghost use Rattle.peg_model.specs.Packet.{is_key, is_content};
ghost use Rattle.peg_packet.specs.Seen.{content_seen};

use peg_name::{Content, Format, Key, Value};

/// A lent key of 1 to 32 bytes, to be kept.
pub fn key_of(bytes: &[u8]) -> Key
    requires { is_key bytes.now ≡ true }
    ensures { result ≡ bytes.now }
{
    match Key::read(bytes) {
        Ok(key) => key,
        Err(_) => unreachable!(),
    }
}

/// The content of lent bytes, which is lent too. A value has at most 512 bytes, and 1,024 in the second format.
pub fn content_of<'a>(format: Format, content: Option<&'a [u8]>) -> Content<'a>
    requires { is_content format (content_seen content) ≡ true }
    ensures { result ≡ content_seen content.entry }
{
    match content {
        None => Content::Absent,
        Some(bytes) => match Value::read(bytes) {
            Ok(value) => Content::Present(value),
            Err(_) => Content::Absent,
        },
    }
}

/// A content, to be lent to a packet.
pub fn bytes_of<'a>(content: &Content<'a>) -> Option<&'a [u8]>
    ensures { content_seen result ≡ content.now }
{
    match content {
        Content::Absent => None,
        Content::Present(value) => Some(value.bytes()),
    }
}
