//! What a switch that takes over collects.

ghost use Rattle.std.specs.Prelude.{◌≡◌, ◌≤◌, ◌<◌, length, IfOk, false};
ghost use Rattle.peg_name.specs.Name.{parts_most};
ghost use Rattle.peg_model.specs.Handover.{none_collected, begun, with_part, has_part};
ghost use Rattle.peg_directory.specs.Table.{with_entries};
ghost use Rattle.peg_parts.specs.Taking.{take_part, adds, stamps_after, entries_after, TakesAs};

use crate::Taken;
use crate::held::{PartBytes, begin, has, held_count, hold, join};
use crate::reader::Reader;
use crate::spell::put;
use peg_directory::Directory;
use peg_name::{Config, OutOfMemory};
use peg_stamp::Stamper;
use std::alloc::Global;
use std::marker::Model;

/// The parts of one epoch that came in so far. All its room is taken when it is made.
#[derive(Drop)]
pub struct Collector {
    config: Config,
    epoch: u64,
    parts: Vec<Option<PartBytes>>,
    joined: Vec<u8>,
    reader: Reader,
}

impl Model for Collector {
    ghost use Rattle.std.specs.Prelude.{length, vec_capacity};
    ghost use Rattle.peg_parts.specs.Taking.{Collection};
    ghost use Rattle.peg_parts.specs.Collecting.{IsCollector};

    ghost Value = { Collection };

    ghost view = { λ c. record {
      rack = c.config;
      collected = record { epoch = c.epoch; parts = c.parts.items };
    } };

    ghost invariant = { λ c.
        IsCollector c.config c.reader.rack (length c.parts.items) (vec_capacity c.parts)
        (vec_capacity c.joined) };
}

impl Collector {
    /// A collector that has nothing yet, with room for the parts of any state of the rack.
    pub fn make(alloc: Global, config: &Config) -> Result<Collector, OutOfMemory>
        ensures { IfOk result
            (λ c. c ≡ record { rack = config.now; collected = none_collected }) }
    {
        let most = usize::from(config.format().most_parts());
        Ok(Collector {
            config: *config,
            epoch: 0,
            parts: Vec::with_capacity(alloc, most)?,
            joined: Vec::with_capacity(alloc, 512 * most)?,
            reader: Reader::make(alloc, config)?,
        })
    }

    /// Takes in a part of at most 512 bytes, one of `count`, for a switch that is in the epoch
    /// `own`. A part of a greater epoch than those that are held begins anew.
    ///
    /// `Old` where its epoch isn't above the switch's own or is below the one that is collected;
    /// `Malformed` where its count is another than that of the parts that are held, or where it
    /// completes bytes that are no state of the rack; `Repeated` where the part of its index is
    /// held. Nothing changes then. With `More` it is held, and with `Whole` the stamps and the
    /// entries are those of the state, and nothing is collected any more.
    pub fn take(
        &mut self,
        own: u64,
        epoch: u64,
        index: u8,
        count: u8,
        bytes: &[u8],
        stamper: &mut Stamper,
        directory: &mut Directory,
    ) -> Taken
        requires clients { length stamper.old.rows ≡ self.old.rack.clients }
        requires rack { directory.old.rack ≡ self.old.rack }
        requires index { index < count }
        requires few { count ≤ parts_most self.old.rack.format }
        requires short { length bytes.now ≤ 512 }
        ensures answer { result
            ≡ (take_part self.old.rack own self.old.collected epoch index count bytes.now).answer }
        ensures collected { self.new ≡ record self.old {
          collected = (take_part self.old.rack own self.old.collected epoch index count
              bytes.now).collected;
        } }
        ensures stamps { stamper.new ≡ stamps_after stamper.old
            (take_part self.old.rack own self.old.collected epoch index count bytes.now).state }
        ensures entries { directory.new
            ≡ with_entries directory.old (entries_after directory.old.entries
            (take_part self.old.rack own self.old.collected epoch index count bytes.now).state) }
        ensures clients { length stamper.new.rows ≡ length stamper.old.rows }
    {
        if epoch <= own || epoch < self.epoch {
            return Taken::Old;
        }
        if epoch > self.epoch {
            return self.take_first(epoch, index, count, bytes, stamper, directory);
        }
        if self.parts.len() != usize::from(count) {
            return Taken::Malformed;
        }
        if has(&self.parts, index) {
            return Taken::Repeated;
        }
        self.take_next(index, count, bytes, stamper, directory)
    }

    // Takes in the first part of an epoch. The parts of the one before are given up, unless this
    // one is to be whole and is no state.
    fn take_first(
        &mut self,
        epoch: u64,
        index: u8,
        count: u8,
        bytes: &[u8],
        stamper: &mut Stamper,
        directory: &mut Directory,
    ) -> Taken
        requires clients { length stamper.old.rows ≡ self.old.rack.clients }
        requires rack { directory.old.rack ≡ self.old.rack }
        requires epoch { self.old.collected.epoch < epoch }
        requires index { index < count }
        requires few { count ≤ parts_most self.old.rack.format }
        requires short { length bytes.now ≤ 512 }
        ensures takes { TakesAs (adds self.old.rack self.old.collected
            (with_part (begun self.old.collected epoch count) index bytes.now)) result self.old
            self.new stamper.old stamper.new directory.old directory.new }
        ensures clients { length stamper.new.rows ≡ length stamper.old.rows }
    {
        if count > 1 {
            begin(&mut self.parts, count);
            hold(&mut self.parts, index, bytes);
            self.epoch = epoch;
            return Taken::More { held: 1 };
        }
        self.joined.clear();
        put(&mut self.joined, bytes);
        let Some(last) = self.reader.take(&self.joined, stamper, directory) else {
            return Taken::Malformed;
        };
        self.parts.clear();
        self.epoch = 0;
        Taken::Whole { last }
    }

    // Takes in a further part of the epoch, which isn't held.
    fn take_next(
        &mut self,
        index: u8,
        count: u8,
        bytes: &[u8],
        stamper: &mut Stamper,
        directory: &mut Directory,
    ) -> Taken
        requires clients { length stamper.old.rows ≡ self.old.rack.clients }
        requires rack { directory.old.rack ≡ self.old.rack }
        requires index { index < count }
        requires count { length self.old.collected.parts ≡ count }
        requires free { has_part self.old.collected index ≡ false }
        requires short { length bytes.now ≤ 512 }
        ensures takes { TakesAs (adds self.old.rack self.old.collected
            (with_part self.old.collected index bytes.now)) result self.old
            self.new stamper.old stamper.new directory.old directory.new }
        ensures clients { length stamper.new.rows ≡ length stamper.old.rows }
    {
        let held = held_count(&self.parts) + 1;
        if held < usize::from(count) {
            hold(&mut self.parts, index, bytes);
            return Taken::More { held: held as u8 };
        }
        join(&mut self.joined, &self.parts, index, bytes);
        let Some(last) = self.reader.take(&self.joined, stamper, directory) else {
            return Taken::Malformed;
        };
        self.parts.clear();
        self.epoch = 0;
        Taken::Whole { last }
    }
}
