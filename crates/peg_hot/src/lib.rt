//! Popularity counts in a table of few rows, by the Space-Saving rule.
#![tactic(auto)]

ghost use Rattle.std.specs.Prelude.{◌≡◌, ℕ, ◌+◌, ◌<◌, ◌≤◌, ◌-◌, ◌^◌, ◌↔◌, List, length};
ghost use Rattle.std.specs.Prelude.{vec_capacity, Some, slice_get, IfOk, IsTrue, true};
ghost use Rattle.std.specs.List.{AllByRecursion, list_all};
ghost use Rattle.peg_model.specs.Packet.{row_in_range, are_distinct, keys_of_rows};
ghost use Rattle.peg_model.specs.Counts.{see, no_counts, has_row, raised, least, taken_over};
ghost use Rattle.peg_model.specs.Counts.{rows_after};
ghost use Rattle.peg_hot.specs.Table.{Table, IsDistinct, counted};
ghost use Rattle.peg_hot.specs.Laws.{CountsWell};

use peg_name::{Key, Row};
use std::alloc::Global;
use std::marker::Model;

#[cfg(test)]
mod tests;

pub use peg_name::OutOfMemory;

/// The counts of every list of keys sum to their total, each is above what was seen of its key by
/// at most its error, and each key that makes up more than one of `most` parts of the total is kept.
pub fn counts_every_list_well()
    ensures { (most : ℕ) (keys : List (List ℕ)) → 1 ≤ most
        → CountsWell most keys (counted most no_counts keys) }
{}

/// A table of counts.
#[derive(Drop)]
pub struct Counts {
    most: u8,
    total: u64,
    rows: Vec<Row>,
}

impl Model for Counts {
    ghost use Rattle.std.specs.Prelude.{◌≤◌, vec_len, vec_capacity};
    ghost use Rattle.peg_hot.specs.Table.{Table, IsTable};

    ghost Value = { Table };

    ghost view = { λ c. record {
      most = c.most;
      counts = record { total = c.total; rows = c.rows.items };
    } };

    ghost invariant = { λ c.
        IsTable
        (record { most = c.most; counts = record { total = c.total; rows = c.rows.items } })
        × (c.most ≤ vec_capacity c.rows) };
}

impl Counts {
    /// An empty table of at most `m` rows.
    pub fn make(alloc: Global, m: u8) -> Result<Counts, OutOfMemory>
        requires least { 1 ≤ m }
        requires most { m ≤ 12 }
        ensures { IfOk result (λ c. c ≡ record { most = m; counts = no_counts }) }
    {
        let rows = Vec::with_capacity(alloc, usize::from(m))?;
        Ok(Counts {
            most: m,
            total: 0,
            rows,
        })
    }

    /// The table that seeing these keys in order makes of an empty one.
    pub fn of(alloc: Global, m: u8, keys: &[Key]) -> Result<Counts, OutOfMemory>
        requires least { 1 ≤ m }
        requires most { m ≤ 12 }
        ensures counts { IfOk result
            (λ c. c ≡ record { most = m; counts = counted m no_counts keys.now }) }
        ensures laws { IfOk result (λ c. CountsWell m keys.now c.counts) }
    {
        let mut counts = Counts::make(alloc, m)?;
        for key in keys {
            counts.see(key);
        }
        Ok(counts)
    }

    /// Counts a request for a key. A key without a row takes a free one, or else the first of the
    /// rows with the least count, whose count becomes its error. At the greatest total nothing is
    /// counted any more.
    pub fn see(&mut self, key: &Key)
        ensures { self.new
            ≡ record self.old { counts = see self.old.most self.old.counts key.now } }
    {
        if self.total == u64::MAX {
            return;
        }
        prove!(key.bytes().len() <= 32);
        self.total += 1;
        count_in(&mut self.rows, self.most, key);
    }

    /// How many requests were counted.
    pub fn total(&self) -> u64
        ensures { result ≡ self.now.counts.total }
    {
        self.total
    }

    /// How many rows there are.
    pub fn len(&self) -> usize
        ensures len { result ≡ length self.now.counts.rows }
        ensures most { result ≤ self.now.most }
    {
        self.rows.len()
    }

    /// Whether there is no row.
    pub fn is_empty(&self) -> bool
        ensures { IsTrue result ↔ (length self.now.counts.rows ≡ 0) }
    {
        self.rows.is_empty()
    }

    /// The rows, in table order: what a report may carry.
    #[tactic(auto, using(crate::proofs::Within::distinct_keys))]
    pub fn rows(&self) -> &[Row]
        ensures rows { result.now ≡ self.now.counts.rows }
        ensures few { length result.now ≤ self.now.most }
        ensures within { list_all row_in_range result.now ≡ true }
        ensures distinct { are_distinct (keys_of_rows result.now) ≡ true }
    {
        &self.rows
    }

    /// A row, in table order.
    pub fn row(&self, i: usize) -> Row
        requires { i < length self.now.counts.rows }
        ensures { Some result ≡ slice_get self.now.counts.rows i }
    {
        self.rows[i]
    }

    /// Empties the table.
    pub fn clear(&mut self)
        ensures { self.new ≡ record self.old { counts = no_counts } }
    {
        self.total = 0;
        self.rows.clear();
    }
}

fn count_in(rows: &mut Vec<Row>, most: u8, key: &Key)
    requires some { 1 ≤ most }
    requires room { most ≤ vec_capacity rows.old }
    requires distinct { IsDistinct rows.old.items }
    requires small { AllByRecursion (λ row. row.count < 2 ^ 64 - 1) rows.old.items }
    ensures rows { rows.new.items ≡ rows_after most key.now rows.old.items }
    ensures room { vec_capacity rows.new ≡ vec_capacity rows.old }
{
    if raise(rows, key) {
        return;
    }
    if rows.len() < usize::from(most) {
        rows.push_reserved(Row {
            key: *key,
            count: 1,
            error: 0,
        });
        return;
    }
    let count = least(rows);
    take_over(rows, key, count);
}

// Raises the count of the key's row, and says whether it has one.
fn raise(rows: &mut [Row], key: &Key) -> bool
    requires distinct { IsDistinct rows.old }
    requires small { AllByRecursion (λ row. row.count < 2 ^ 64 - 1) rows.old }
    ensures found { result ≡ has_row key.now rows.old }
    ensures rows { rows.new ≡ raised key.now rows.old }
{
    for i in 0..rows.len() {
        if rows[i].key == *key {
            rows[i].count += 1;
            return true;
        }
    }
    false
}

// The least count.
fn least(rows: &[Row]) -> u64
    ensures { result ≡ least rows.now }
{
    let mut count = u64::MAX;
    for row in rows {
        count = count.min(row.count);
    }
    count
}

// Gives the key the first row of this count.
fn take_over(rows: &mut [Row], key: &Key, count: u64)
    requires { count < 2 ^ 64 - 1 }
    ensures { rows.new ≡ taken_over key.now count rows.old }
{
    for i in 0..rows.len() {
        if rows[i].count == count {
            rows[i] = Row {
                key: *key,
                count: count + 1,
                error: count,
            };
            return;
        }
    }
}
