//! Whether a report is in the ranges of its kind.

ghost use Rattle.std.specs.Prelude.{◌≡◌, ◌&&◌, nat_le, length};
ghost use Rattle.std.specs.List.{list_all};
ghost use Rattle.peg_model.specs.Words.{is_in};
ghost use Rattle.peg_model.specs.Packet.{is_number, row_in_range, are_distinct, keys_of_rows};
ghost use Rattle.peg_model.specs.Reading.{rows_at};
ghost use Rattle.peg_grammar.specs.Rows.{RowsFrom};
ghost use Rattle.peg_packet.specs.Seen.{rows_seen};

use crate::Rows;
use crate::range::is_key;
use crate::row::{past_row, row_at, row_key};
use peg_name::Row;

fn is_row(row: &Row) -> bool
    ensures { result ≡ row_in_range row.now }
{
    is_key(row.key.bytes()) && row.count > 0 && row.error <= row.count
}

fn are_rows(rows: Rows<'_>) -> bool
    ensures { result ≡ list_all row_in_range (rows_seen rows.entry) }
{
    let bytes = rows.bytes();
    let mut at = 0;
    let mut left = rows.len();
    while left > 0 {
        if !is_row(&row_at(bytes, at)) {
            return false;
        }
        at = past_row(bytes, at);
        left -= 1;
    }
    true
}

/// Whether a key is that of one of the rows at a place.
fn is_among(bytes: &[u8], mut at: usize, count: usize, key: &[u8]) -> bool
    requires { RowsFrom bytes.now count at }
    ensures { result ≡ is_in key.now (keys_of_rows (rows_at bytes.now count at)) }
{
    let mut left = count;
    while left > 0 {
        if key == row_key(bytes, at) {
            return true;
        }
        at = past_row(bytes, at);
        left -= 1;
    }
    false
}

fn are_distinct(rows: Rows<'_>) -> bool
    ensures { result ≡ are_distinct (keys_of_rows (rows_seen rows.entry)) }
{
    let bytes = rows.bytes();
    let mut at = 0;
    let mut left = rows.len();
    while left > 0 {
        let next = past_row(bytes, at);
        left -= 1;
        if is_among(bytes, next, left, row_key(bytes, at)) {
            return false;
        }
        at = next;
    }
    true
}

fn are_few(epoch: u64, total: u64, rows: Rows<'_>) -> bool
    ensures { result ≡ (is_number epoch && is_number total
        && nat_le (length (rows_seen rows.entry)) 12) }
{
    let (_epoch, _total) = (epoch, total);
    rows.len() <= 12
}

pub fn is_report(epoch: u64, total: u64, rows: Rows<'_>) -> bool
    ensures { result ≡ (is_number epoch && is_number total
        && nat_le (length (rows_seen rows.entry)) 12
        && list_all row_in_range (rows_seen rows.entry)
        && are_distinct (keys_of_rows (rows_seen rows.entry))) }
{
    are_few(epoch, total, rows) && are_rows(rows) && are_distinct(rows)
}
