//! One row of a report, and the bytes that spell it.

ghost use Rattle.std.specs.Prelude.{◌≡◌, ◌≤◌, ◌+◌, IfNone, IfSome, length};
ghost use Rattle.peg_model.specs.Packet.{row_bytes, key_bytes, eight};
ghost use Rattle.peg_model.specs.Reading.{key_at, past_key, eight_at};
ghost use Rattle.peg_grammar.specs.Rows.{IsRowAt};
ghost use Rattle.peg_packet.specs.Puts.{Puts};

use crate::parts::{eight_at, key_from};
use crate::range::is_key;
use peg_name::{Key, Row};

/// The place behind the row at a place.
pub fn past_row(bytes: &[u8], at: usize) -> usize
    requires { IsRowAt bytes.now at }
    ensures { result ≡ past_key bytes.now at + 16 }
{
    at + 17 + usize::from(bytes[at])
}

/// The key of the row at a place.
pub fn row_key(bytes: &[u8], at: usize) -> &[u8]
    requires { IsRowAt bytes.now at }
    ensures { result.now ≡ key_at bytes.now at }
{
    &bytes[at + 1..at + 1 + usize::from(bytes[at])]
}

/// The row at a place.
pub fn row_at(bytes: &[u8], at: usize) -> Row
    requires { IsRowAt bytes.now at }
    ensures key { result.key ≡ key_at bytes.now at }
    ensures count { result.count ≡ eight_at bytes.now (past_key bytes.now at) }
    ensures error { result.error ≡ eight_at bytes.now (past_key bytes.now at + 8) }
{
    let Ok(key) = Key::read(row_key(bytes, at)) else {
        unreachable!()
    };
    let end = past_row(bytes, at) - 16;
    Row {
        key,
        count: eight_at(bytes, end),
        error: eight_at(bytes, end + 8),
    }
}

/// The place behind the row at a place, where a whole row with a key stands there.
pub fn checked_row(bytes: &[u8], at: usize) -> Option<usize>
    ensures row { IfSome result (λ _. IsRowAt bytes.now at) }
    ensures next { IfSome result (λ next. next ≡ past_key bytes.now at + 16) }
    ensures none { IfNone result (¬ IsRowAt bytes.now at) }
{
    let (key, next) = key_from(bytes, at)?;
    if bytes.len() - next < 16 {
        return None;
    }
    if !is_key(key) {
        return None;
    }
    Some(next + 16)
}

fn put_bytes(out: &mut [u8], at: usize, bytes: &[u8]) -> usize
    requires { at + length bytes.now ≤ length out.old }
    ensures { Puts out.old out.new at result bytes.now }
{
    let end = at + bytes.len();
    out[at..end].copy_from_slice(bytes);
    end
}

fn put_number(out: &mut [u8], at: usize, number: u64) -> usize
    requires { at + 8 ≤ length out.old }
    ensures { Puts out.old out.new at result (eight number) }
{
    put_bytes(out, at, &number.to_be_bytes())
}

fn put_key(out: &mut [u8], at: usize, key: &Key) -> usize
    requires { at + 33 ≤ length out.old }
    ensures bytes { Puts out.old out.new at result (key_bytes key.now) }
    ensures few { result ≤ at + 33 }
{
    let bytes = key.bytes();
    let at = put_bytes(out, at, &[bytes.len() as u8]);
    put_bytes(out, at, bytes)
}

/// Writes a row behind the first `at` bytes, and answers the end.
pub fn put_row(out: &mut [u8], at: usize, row: &Row) -> usize
    requires { at + 49 ≤ length out.old }
    ensures { Puts out.old out.new at result (row_bytes row.now) }
{
    let at = put_key(out, at, &row.key);
    let at = put_number(out, at, row.count);
    put_number(out, at, row.error)
}
