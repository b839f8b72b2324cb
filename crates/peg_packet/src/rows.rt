//! The rows of a report, lent from the bytes that spell them.

ghost use Rattle.std.specs.Prelude.{◌≡◌, true};
ghost use Rattle.std.specs.List.{list_all, flat_map};
ghost use Rattle.peg_model.specs.Packet.{row_bytes};
ghost use Rattle.peg_grammar.specs.Rows.{rows_in, has_key};

use crate::row::{checked_row, past_row, put_row, row_at};
use peg_name::Row;

/// The rows of a report. A contract sees them as a list, by `rows_seen`.
#[derive(Clone, Copy)]
pub struct Rows<'a> {
    bytes: &'a [u8],
    count: usize,
    ghost keyed: { list_all has_key (rows_in bytes.now count) ≡ true },
    ghost spelled: { bytes.now ≡ flat_map row_bytes (rows_in bytes.now count) },
}

impl<'a> Rows<'a> {
    ghost use Rattle.std.specs.Prelude.{◌≡◌, ◌<◌, ◌≤◌, ◌↔◌, length, slice_get, Some, IsTrue, true};
    ghost use Rattle.std.specs.Prelude.{MatchOption};
    ghost use Rattle.std.specs.List.{list_all, flat_map};
    ghost use Rattle.peg_model.specs.Packet.{row_bytes, row_in_range};
    ghost use Rattle.peg_grammar.specs.Rows.{rows_in, RowsFrom};
    ghost use Rattle.peg_packet.specs.Seen.{rows_seen};

    /// The number of rows.
    pub fn len(&self) -> usize
        ensures { result ≡ length (rows_seen self.now) }
    {
        self.count
    }

    /// Whether there are no rows.
    pub fn is_empty(&self) -> bool
        ensures { IsTrue result ↔ (length (rows_seen self.now) ≡ 0) }
    {
        self.len() == 0
    }

    /// The row at a place, counted from 0.
    pub fn row(&self, i: usize) -> Row
        requires { i < length (rows_seen self.now) }
        ensures { slice_get (rows_seen self.now) i ≡ Some result }
    {
        let bytes = self.bytes();
        let mut at = 0;
        let mut left = i;
        while left > 0 {
            at = past_row(bytes, at);
            left -= 1;
        }
        row_at(bytes, at)
    }

    /// Spells rows for a report. At most 12 rows fit, each with a key, a count of at least 1 and
    /// an error of at most the count.
    pub fn write(rows: &[Row], out: &'a mut [u8; 588]) -> Rows<'a>
        requires few { length rows.now ≤ 12 }
        requires in_range { list_all row_in_range rows.now ≡ true }
        ensures { rows_seen result ≡ rows.now }
    {
        let mut end = 0;
        for row in rows {
            end = put_row(out, end, row);
        }
        Rows {
            bytes: &out[..end],
            count: rows.len(),
        }
    }

    /// The rows that these bytes are, where they are as many and each has a key.
    pub(crate) fn read(bytes: &'a [u8], count: usize) -> Option<Rows<'a>>
        ensures { MatchOption result (¬ RowsFrom bytes.now count 0)
            (λ rows. (rows_seen rows ≡ rows_in bytes.now count) × RowsFrom bytes.now count 0) }
    {
        let mut at = 0;
        let mut left = count;
        while left > 0 {
            let next = checked_row(bytes, at)?;
            at = next;
            left -= 1;
        }
        if at < bytes.len() {
            return None;
        }
        Some(Rows { bytes, count })
    }

    /// The bytes that spell them.
    pub(crate) fn bytes(&self) -> &'a [u8]
        ensures bytes { result.now ≡ self.now.bytes.now }
        ensures spelled { result.now ≡ flat_map row_bytes (rows_seen self.now) }
        ensures rows { RowsFrom result.now (length (rows_seen self.now)) 0 }
        ensures same { rows_in result.now (length (rows_seen self.now)) ≡ rows_seen self.now }
    {
        self.bytes
    }
}
