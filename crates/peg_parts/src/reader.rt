//! Whether bytes are a state of the rack, and which.

ghost use Rattle.std.specs.Prelude.{◌≡◌, ◌≤◌, length, replicate, Some, None, IfOk, IfSome, IfNone};
ghost use Rattle.peg_model.specs.Handover.{state_of};
ghost use Rattle.peg_directory.specs.Table.{with_entries};
ghost use Rattle.peg_parts.specs.Sealed.{state_with};

use crate::read::read_state;
use crate::spell::spell;
use peg_directory::{Directory, Listing};
use peg_name::{Config, Key, OutOfMemory};
use peg_stamp::Stamper;
use std::alloc::Global;
use std::marker::Model;
use std::mem;

/// Reads states into a stamper and a directory of its own. Its room is taken when it is made.
#[derive(Drop)]
pub struct Reader {
    config: Config,
    stamper: Stamper,
    entries: Vec<(Key, Listing)>,
    directory: Directory,
    again: Vec<u8>,
}

impl Model for Reader {
    ghost use Rattle.std.specs.Prelude.{◌≡◌, ◌≤◌, length, vec_capacity};
    ghost use Rattle.peg_parts.specs.Sealed.{room_of};
    ghost use Rattle.peg_parts.specs.Reading.{Read};

    ghost Value = { Read };

    ghost view = { λ r. record {
      rack = r.config;
      stamps = r.stamper;
      entries = r.directory.entries;
    } };

    ghost invariant = { λ r.
        (length r.stamper.rows ≡ r.config.clients) × (r.directory.rack ≡ r.config)
        × (r.config.listed ≤ vec_capacity r.entries) × (room_of r.config ≤ vec_capacity r.again) };
}

impl Reader {
    /// A reader of the states of a rack.
    pub fn make(alloc: Global, config: &Config) -> Result<Reader, OutOfMemory>
        ensures { IfOk result (λ r. r.rack ≡ config.now) }
    {
        let room = 19 + 16 * config.clients() as usize + 73 * config.listed() as usize;
        Ok(Reader {
            config: *config,
            stamper: Stamper::make(alloc, config)?,
            entries: Vec::with_capacity(alloc, config.listed() as usize)?,
            directory: Directory::make(alloc, config)?,
            again: Vec::with_capacity(alloc, room)?,
        })
    }

    /// Reads the state that the whole bytes are, and answers the number of its last command; there
    /// is none where they are no state of the rack.
    fn read(&mut self, bytes: &[u8]) -> Option<u64>
        ensures state { IfSome result (λ last. state_of self.old.rack bytes.now
            ≡ Some (state_with self.new.stamps last self.new.entries)) }
        ensures none { IfNone result (state_of self.old.rack bytes.now ≡ None) }
        ensures rack { self.new.rack ≡ self.old.rack }
    {
        let Some(last) = read_state(
            bytes,
            &self.config,
            &mut self.stamper,
            &mut self.entries,
            &mut self.directory,
        ) else {
            return None;
        };
        spell(&mut self.again, &self.stamper, &self.directory, last);
        if bytes != self.again.as_slice() {
            return None;
        }
        Some(last)
    }

    /// Hands over the stamps and the entries that were read last, in exchange for others.
    fn exchange(&mut self, stamper: &mut Stamper, directory: &mut Directory)
        requires clients { length stamper.old.rows ≡ self.old.rack.clients }
        requires rack { directory.old.rack ≡ self.old.rack }
        ensures stamps { stamper.new ≡ self.old.stamps }
        ensures clients { length stamper.new.rows ≡ self.old.rack.clients }
        ensures entries { directory.new ≡ with_entries directory.old self.old.entries }
        ensures rack { self.new.rack ≡ self.old.rack }
    {
        mem::swap(stamper, &mut self.stamper);
        mem::swap(directory, &mut self.directory);
    }

    /// Puts the state that the whole bytes are in place of these stamps and this directory, and
    /// answers the number of its last command. There is none where they are no state of the rack,
    /// and nothing changes then.
    pub fn take(
        &mut self,
        bytes: &[u8],
        stamper: &mut Stamper,
        directory: &mut Directory,
    ) -> Option<u64>
        requires clients { length stamper.old.rows ≡ self.old.rack.clients }
        requires rack { directory.old.rack ≡ self.old.rack }
        ensures state { IfSome result (λ last. state_of self.old.rack bytes.now
            ≡ Some (state_with stamper.new last directory.new.entries)) }
        ensures table { IfSome result (λ _.
            directory.new ≡ with_entries directory.old directory.new.entries) }
        ensures none { IfNone result (state_of self.old.rack bytes.now ≡ None) }
        ensures stamps { IfNone result (stamper.new ≡ stamper.old) }
        ensures entries { IfNone result (directory.new ≡ directory.old) }
        ensures clients { length stamper.new.rows ≡ self.old.rack.clients }
        ensures rack { self.new.rack ≡ self.old.rack }
    {
        let Some(last) = self.read(bytes) else {
            return None;
        };
        self.exchange(stamper, directory);
        Some(last)
    }
}
