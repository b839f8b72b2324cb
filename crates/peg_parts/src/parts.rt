//! The parts of a sealed state.

ghost use Rattle.std.specs.Prelude.{◌≡◌, ◌≤◌, ◌<◌, ◌^◌, ℕ, [], length, slice_index_or, IfOk};
ghost use Rattle.std.specs.Prelude.{IsTrue};
ghost use Rattle.peg_name.specs.Name.{parts_most};
ghost use Rattle.peg_model.specs.Packet.{Part, in_range};
ghost use Rattle.peg_model.specs.Handover.{state_bytes, parts};
ghost use Rattle.peg_grammar.specs.State.{SpellsState};
ghost use Rattle.peg_parts.specs.Sealed.{state_with};

use crate::spell::spell;
use peg_directory::Directory;
use peg_name::{Config, OutOfMemory};
use peg_stamp::Stamper;
use std::alloc::Global;
use std::marker::Model;

/// The state that a switch hands over, in parts of at most 512 bytes. Its room is taken when it is
/// made.
#[derive(Drop)]
pub struct Parts {
    config: Config,
    bytes: Vec<u8>,
}

impl Model for Parts {
    ghost use Rattle.std.specs.Prelude.{◌≤◌, vec_capacity};
    ghost use Rattle.peg_parts.specs.Sealed.{Sealed, IsSealed, room_of};

    ghost Value = { Sealed };

    ghost view = { λ p. record { rack = p.config; bytes = p.bytes.items } };

    ghost invariant = { λ p.
        IsSealed (record { rack = p.config; bytes = p.bytes.items })
        × (room_of p.config ≤ vec_capacity p.bytes) };
}

impl Parts {
    /// No parts yet, with room for those of the largest state of the rack.
    pub fn make(alloc: Global, config: &Config) -> Result<Parts, OutOfMemory>
        ensures { IfOk result (λ p. p ≡ record { rack = config.now; bytes = [] }) }
    {
        let room = 19 + 16 * config.clients() as usize + 73 * config.listed() as usize;
        Ok(Parts {
            config: *config,
            bytes: Vec::with_capacity(alloc, room)?,
        })
    }

    /// Keeps the state of a switch in place of the one that was kept: its stamps, its directory and
    /// the number of the last command that it took, which is at least 1.
    pub fn seal(&mut self, stamper: &Stamper, directory: &Directory, last: u64)
        requires clients { length stamper.now.rows ≡ self.old.rack.clients }
        requires rack { directory.now.rack ≡ self.old.rack }
        requires last { 1 ≤ last }
        ensures bytes { self.new ≡ record self.old {
          bytes = state_bytes self.old.rack.format
              (state_with stamper.now last directory.now.entries);
        } }
        ensures spelled { SpellsState self.old.rack self.new.bytes
            (state_with stamper.now last directory.now.entries) }
        ensures some { 1 ≤ length (parts self.new.bytes) }
    {
        spell(&mut self.bytes, stamper, directory, last);
    }

    /// How many parts there are: none before the first seal, and at most 32, or 64 in format 2.
    pub fn count(&self) -> u8
        ensures count { result ≡ length (parts self.now.bytes) }
        ensures most { result ≤ parts_most self.now.rack.format }
    {
        self.bytes.len().div_ceil(512) as u8
    }

    /// A part, counted from 0: 512 bytes, and 1 to 512 of the last. It has its place in a packet of
    /// any epoch from 2 on.
    pub fn part(&self, i: u8) -> &[u8]
        requires { i < length (parts self.now.bytes) }
        ensures part { result.now ≡ slice_index_or (parts self.now.bytes) i [] }
        ensures packet { (epoch : ℕ) → 2 ≤ epoch → epoch < 2 ^ 64
            → IsTrue (in_range self.now.rack.format
            (Part epoch i (length (parts self.now.bytes)) result.now)) }
    {
        let rest = &self.bytes[512 * usize::from(i)..];
        &rest[..rest.len().min(512)]
    }
}
