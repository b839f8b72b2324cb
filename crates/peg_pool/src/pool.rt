//! Slots that are used again without asking the allocator.

ghost use Rattle.std.specs.Prelude.{◌≡◌, ◌+◌, ◌*◌, ◌<◌, ◌≤◌, [], length, map, IfOk, OnOk, OnErr, IsOk};
ghost use Rattle.std.specs.Prelude.{Some, None, IsSome, vec_len, slice_index_or};
ghost use Rattle.std.specs.List.{AllByRecursion};
ghost use Rattle.peg_pool.specs.Held.{joined};
ghost use Rattle.peg_pool.specs.Block.{patched};
ghost use Rattle.peg_pool.specs.Slots.{bytes_of, next_slot, with_bytes, with_put, with_freed, SetsOnly};

use crate::block::Block;
use peg_name::OutOfMemory;
use std::alloc::Global;
use std::marker::Model;

/// The slots of a block.
const SLOTS: usize = 64;

/// The most blocks: those of 4,000,000,000 slots, whose numbers a `u32` holds.
const BLOCKS: usize = 62_500_000;

/// Slots of up to so many bytes each. A freed slot is used again, the last freed one first.
#[derive(Drop)]
pub struct SlotPool {
    alloc: Global,
    size: usize,
    blocks: Vec<Block>,
    // the length of what each slot holds that was ever used; none where it is free
    lengths: Vec<Option<u16>>,
    freed: Vec<u32>,
}

impl Model for SlotPool {
    ghost use Rattle.peg_pool.specs.Slots.{Pool};

    ghost Value = { Pool };

    ghost use Rattle.peg_pool.specs.Held.{pool_of, IsPool};

    ghost view = { pool_of };

    ghost invariant = { IsPool };
}

impl SlotPool {
    /// A pool without a slot, for contents of at most `size` bytes each: 1 to 1,200. It takes no
    /// memory.
    pub fn make(alloc: Global, size: usize) -> SlotPool
        requires least { 1 ≤ size }
        requires most { size ≤ 1200 }
        ensures { result
            ≡ record { slots = record { size = size; used = []; freed = [] }; spare = 0 } }
    {
        SlotPool {
            alloc,
            size,
            blocks: Vec::new(alloc),
            lengths: Vec::new(alloc),
            freed: Vec::new(alloc),
        }
    }

    /// How many puts there is memory for.
    pub fn spare(&self) -> usize
        ensures { result ≡ self.now.spare }
    {
        SLOTS * self.blocks.len() - self.lengths.len() + self.freed.len()
    }

    /// Makes room for `n` puts. It succeeds where there is room already, and never for more than
    /// 4,000,000,000. All slots stay as they are, also after `OutOfMemory`.
    pub fn reserve(&mut self, n: usize) -> Result<(), OutOfMemory>
        ensures room { OnOk result (n ≤ self.new.spare) }
        ensures same { self.new.slots ≡ self.old.slots }
        ensures succeeds { n ≤ self.old.spare → IsOk result }
        ensures later { self.old.spare ≤ self.new.spare }
    {
        if n <= self.spare() {
            return Ok(());
        }
        if n > SLOTS * BLOCKS {
            return Err(OutOfMemory);
        }
        while self.spare() < n {
            self.grow()?;
        }
        Ok(())
    }

    /// Keeps the bytes in a slot that is not live: the last freed one, else the least that was never
    /// used. It answers the slot, and succeeds where there is spare room. After `OutOfMemory` all
    /// slots are as before.
    pub fn put(&mut self, bytes: &[u8]) -> Result<u32, OutOfMemory>
        requires { length bytes.now ≤ self.old.slots.size }
        ensures slot { IfOk result (λ slot. slot ≡ next_slot self.old.slots) }
        ensures fresh { IfOk result (λ slot. bytes_of self.old.slots slot ≡ None) }
        ensures slots { OnOk result (self.new.slots ≡ with_put self.old.slots bytes.now) }
        ensures map { IfOk result
            (λ slot. SetsOnly self.old.slots slot (Some bytes.now) self.new.slots) }
        ensures err { OnErr result (self.new.slots ≡ self.old.slots) }
        ensures succeeds { 0 < self.old.spare → IsOk result }
        ensures spare { self.old.spare ≤ self.new.spare + 1 }
        ensures few { length self.new.slots.used ≤ 4000000000 }
    {
        if !self.freed.is_empty() {
            return Ok(self.put_freed(bytes));
        }
        if self.spare() == 0 {
            self.grow()?;
        }
        Ok(self.put_last(bytes))
    }

    /// The bytes of a live slot.
    pub fn get(&self, slot: u32) -> &[u8]
        requires { IsSome (bytes_of self.now.slots slot) }
        ensures bytes { Some result.now ≡ bytes_of self.now.slots slot }
        ensures most { length result.now ≤ self.now.slots.size }
    {
        let slot = slot as usize;
        let len = length_of(&self.lengths, slot);
        let block = &self.blocks[slot / SLOTS];
        block.bytes(slot % SLOTS * self.size, len)
    }

    /// Keeps other bytes in a live slot.
    pub fn replace(&mut self, slot: u32, bytes: &[u8])
        requires live { IsSome (bytes_of self.old.slots slot) }
        requires fits { length bytes.now ≤ self.old.slots.size }
        ensures slots { self.new.slots ≡ with_bytes self.old.slots slot bytes.now }
        ensures map { SetsOnly self.old.slots slot (Some bytes.now) self.new.slots }
        ensures spare { self.new.spare ≡ self.old.spare }
    {
        let slot = slot as usize;
        fill(&mut self.blocks, self.size, slot, bytes);
        self.lengths[slot] = Some(bytes.len() as u16);
    }

    /// Gives a live slot back, to be used again by the next `put`.
    pub fn free(&mut self, slot: u32)
        requires { IsSome (bytes_of self.old.slots slot) }
        ensures slots { self.new.slots ≡ with_freed self.old.slots slot }
        ensures map { SetsOnly self.old.slots slot None self.new.slots }
        ensures spare { self.new.spare ≡ self.old.spare + 1 }
    {
        self.lengths[slot as usize] = None;
        self.freed.push_reserved(slot);
    }
}

impl SlotPool {
    // Adds a block of slots.
    fn grow(&mut self) -> Result<(), OutOfMemory>
        ensures same { self.new.slots ≡ self.old.slots }
        ensures ok { OnOk result (self.new.spare ≡ self.old.spare + 64) }
        ensures err { OnErr result (self.new.spare ≡ self.old.spare) }
    {
        if self.blocks.len() == BLOCKS {
            return Err(OutOfMemory);
        }
        let slots = SLOTS * (self.blocks.len() + 1);
        self.lengths.reserve(slots - self.lengths.len())?;
        self.freed.reserve(slots - self.freed.len())?;
        self.blocks.reserve(1)?;
        let block = Block::make(self.alloc, SLOTS * self.size)?;
        self.blocks.push_reserved(block);
        Ok(())
    }

    // Keeps the bytes in the slot that was freed last.
    fn put_freed(&mut self, bytes: &[u8]) -> u32
        requires fits { length bytes.now ≤ self.old.slots.size }
        requires some { 0 < length self.old.slots.freed }
        ensures slot { result ≡ next_slot self.old.slots }
        ensures fresh { bytes_of self.old.slots result ≡ None }
        ensures slots { self.new.slots ≡ with_put self.old.slots bytes.now }
        ensures map { SetsOnly self.old.slots result (Some bytes.now) self.new.slots }
        ensures spare { self.new.spare + 1 ≡ self.old.spare }
        ensures few { length self.new.slots.used ≤ 4000000000 }
    {
        let slot = self.freed.take_last();
        fill(&mut self.blocks, self.size, slot as usize, bytes);
        self.lengths[slot as usize] = Some(bytes.len() as u16);
        slot
    }

    // Keeps the bytes in the least slot that was never used.
    fn put_last(&mut self, bytes: &[u8]) -> u32
        requires fits { length bytes.now ≤ self.old.slots.size }
        requires none { self.old.slots.freed ≡ [] }
        requires room { 0 < self.old.spare }
        ensures slot { result ≡ next_slot self.old.slots }
        ensures fresh { bytes_of self.old.slots result ≡ None }
        ensures slots { self.new.slots ≡ with_put self.old.slots bytes.now }
        ensures map { SetsOnly self.old.slots result (Some bytes.now) self.new.slots }
        ensures spare { self.new.spare + 1 ≡ self.old.spare }
        ensures few { length self.new.slots.used ≤ 4000000000 }
    {
        let slot = self.lengths.len();
        fill(&mut self.blocks, self.size, slot, bytes);
        self.lengths.push_reserved(Some(bytes.len() as u16));
        slot as u32
    }
}

// The length of what a live slot holds.
fn length_of(lengths: &Vec<Option<u16>>, slot: usize) -> usize
    requires { IsSome (slice_index_or lengths.now.items slot None) }
    ensures { Some result ≡ slice_index_or lengths.now.items slot None }
{
    lengths[slot].map_or(0, usize::from)
}

// Writes the bytes at the front of a slot's room.
fn fill(blocks: &mut Vec<Block>, size: usize, slot: usize, bytes: &[u8])
    requires most { size ≤ 1200 }
    requires fits { length bytes.now ≤ size }
    requires whole { AllByRecursion (λ block. length block ≡ 64 * size) blocks.old.items }
    requires slot { slot < 64 * vec_len blocks.old }
    ensures written { joined blocks.new.items
        ≡ patched (joined blocks.old.items) (slot * size) (map Some bytes.now) }
    ensures whole { AllByRecursion (λ block. length block ≡ 64 * size) blocks.new.items }
    ensures len { vec_len blocks.new ≡ vec_len blocks.old }
{
    let block = &mut blocks[slot / SLOTS];
    block.write(slot % SLOTS * size, bytes);
}
