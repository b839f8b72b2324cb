//! A block of raw memory of one allocation.

ghost use Rattle.std.specs.Prelude.{◌≡◌, ◌+◌, ◌^◌, ◌<◌, ◌≤◌, Some, length, map, take, drop, IfOk};
ghost use Rattle.peg_pool.specs.Block.{patched};
ghost use Rattle.peg_pool.specs.Places.{IsRun};

use crate::cells::{Base, Cells, Deed, allocate, deallocate};
use peg_name::OutOfMemory;
use std::alloc::Global;
use std::marker::Model;

/// A block of bytes, each to be written before it is read.
pub(crate) struct Block {
    base: Base<u8>,
    size: usize,
    cells: Cells<u8>,
    deed: Deed<u8, Global>,
    alloc: Global,
}

impl Model for Block {
    ghost use Rattle.std.specs.Prelude.{ℕ, List, Option};

    ghost Value = { List (Option ℕ) };

    ghost use Rattle.peg_pool.specs.Block.{IsBlock};

    ghost view = { λ b. b.cells.places };

    ghost invariant = { IsBlock };
}

impl Drop for Block {
    fn drop(self) {
        let Block {
            base,
            size,
            cells,
            deed,
            alloc,
        } = self;
        deallocate(&alloc, base, size, cells, deed);
    }
}

impl Block {
    /// A block of this many bytes.
    pub(crate) fn make(alloc: Global, size: usize) -> Result<Block, OutOfMemory>
        requires { size < 2 ^ 63 }
        ensures { IfOk result (λ block. length block ≡ size) }
    {
        let (base, cells, deed) = allocate(&alloc, size)?;
        Ok(Block {
            base,
            size,
            cells,
            deed,
            alloc,
        })
    }

    /// Some of its bytes, each of which was written.
    pub(crate) fn bytes(&self, from: usize, len: usize) -> &[u8]
        requires { IsRun self.now from len }
        ensures { take len (drop from self.now) ≡ map Some result.now }
    {
        self.cells.slice(self.base, from, len)
    }

    /// Writes these bytes.
    pub(crate) fn write(&mut self, from: usize, bytes: &[u8])
        requires { from + length bytes.now ≤ length self.old }
        ensures { self.new ≡ patched self.old from (map Some bytes.now) }
    {
        fill(&mut self.cells, self.base, from, bytes);
    }
}

// Puts these bytes in the places from one on.
fn fill(cells: &mut Cells<u8>, base: Base<u8>, from: usize, bytes: &[u8])
    requires base { base.ptr ≡ cells.old.at }
    requires room { from + length bytes.now ≤ length cells.old.places }
    requires small { length cells.old.places < 2 ^ 63 }
    ensures places { cells.new.places ≡ patched cells.old.places from (map Some bytes.now) }
    ensures at { cells.new.at ≡ cells.old.at }
{
    for i in 0..bytes.len() {
        cells.put(base, from + i, bytes[i]);
    }
}
