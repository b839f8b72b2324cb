//! Versions for writes: each write of a client is stamped once, with the next version.
#![tactic(auto)]

ghost use Rattle.std.specs.Prelude.{◌≡◌, ℕ, ◌+◌, ◌<◌, ◌≤◌, List, length, replicate, IfOk};
ghost use Rattle.peg_model.specs.Rules.{Stamps, stamp, row_of, with_row, void, take_version};

use peg_name::{ClientId, Config, Seq, Version};
use std::alloc::Global;
use std::marker::Model;

#[cfg(test)]
mod tests;

pub use peg_event::Stamp;
pub use peg_name::OutOfMemory;

/// The next version, and each client's last stamped sequence number with its version.
#[derive(Drop)]
pub struct Stamper {
    next: Version,
    rows: Vec<(Seq, Version)>,
}

impl Model for Stamper {
    ghost use Rattle.peg_model.specs.Rules.{Stamps};
    ghost use Rattle.std.specs.Prelude.{◌≤◌};

    ghost Value = { Stamps };

    ghost view = { λ s. record { next = s.next; rows = s.rows.items } };

    ghost invariant = { λ s. 1 ≤ s.next };
}

impl Stamper {
    /// The stamper of a rack, which has stamped nothing yet.
    pub fn make(alloc: Global, config: &Config) -> Result<Stamper, OutOfMemory>
        ensures { IfOk result (λ s. s ≡
            record { next = config.now.first; rows = replicate config.now.clients (0, 0) }) }
    {
        let clients = config.clients();
        let mut rows = Vec::new(alloc);
        for _ in 0..clients {
            rows.push((Seq(0), Version(0)))?;
        }
        Ok(Stamper {
            next: Version(config.first()),
            rows,
        })
    }

    /// What a write of this client and sequence number is stamped with. A sequence number above the
    /// client's last gets the next version, and so does the last one where its stamp was taken back;
    /// else the last one gets its version again. `Stale` is for a lower number, and `Exhausted` comes
    /// where no next version is left.
    pub fn stamp(&mut self, client: ClientId, seq: Seq) -> Stamp
        requires client { client < length self.old.rows }
        requires seq { 1 ≤ seq }
        ensures answer { result ≡ (stamp self.old client seq).0 }
        ensures after { self.new ≡ (stamp self.old client seq).1 }
    {
        let (last, version) = self.rows[client.0 as usize];
        if seq < last {
            return Stamp::Stale { last };
        }
        if seq == last && version.0 > 0 {
            return Stamp::Same(version);
        }
        if self.next.0 == u64::MAX {
            return Stamp::Exhausted;
        }
        let given = self.next;
        self.rows[client.0 as usize] = (seq, given);
        self.next = Version(given.0 + 1);
        Stamp::New(given)
    }

    /// Takes back the stamp of a client's last write, where it is this one; answers whether it was.
    pub fn void(&mut self, client: ClientId, seq: Seq, version: Version) -> bool
        requires client { client < length self.old.rows }
        ensures answer { result ≡ (void self.old client seq version).0 }
        ensures after { self.new ≡ (void self.old client seq version).1 }
    {
        let row = self.rows[client.0 as usize];
        if row.0 == seq && row.1 == version {
            self.rows[client.0 as usize] = (seq, Version(0));
            return true;
        }
        false
    }

    /// Takes the next version, for a promotion; none where no next one is left.
    pub fn take_version(&mut self) -> Option<Version>
        ensures answer { result ≡ (take_version self.old).0 }
        ensures after { self.new ≡ (take_version self.old).1 }
    {
        let given = self.next;
        if given.0 == u64::MAX {
            return None;
        }
        self.next = Version(given.0 + 1);
        Some(given)
    }

    /// The next version.
    pub fn next(&self) -> Version
        ensures next { result ≡ self.now.next }
        ensures least { 1 ≤ result }
    {
        self.next
    }

    /// A client's last stamped sequence number and its version; (0, 0) before the first, and version
    /// 0 where the stamp was taken back.
    pub fn row(&self, client: ClientId) -> (Seq, Version)
        requires { client < length self.now.rows }
        ensures { result ≡ row_of self.now client }
    {
        self.rows[client.0 as usize]
    }

    /// Sets the next version, as a handover brings it.
    pub fn set_next(&mut self, next: Version)
        requires { 1 ≤ next }
        ensures { self.new ≡ record self.old { next = next } }
    {
        self.next = next;
    }

    /// Sets a client's row, as a handover brings it.
    pub fn set_row(&mut self, client: ClientId, seq: Seq, version: Version)
        requires { client < length self.old.rows }
        ensures { self.new ≡ with_row self.old client seq version }
    {
        self.rows[client.0 as usize] = (seq, version);
    }
}
