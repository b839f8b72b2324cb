//! The rules of a switch: where a request goes, what a reply changes, and how keys are listed,
//! marked, copied and fenced, over the stamps of writes and the directory of listed keys.
#![tactic(auto)]

ghost use Rattle.std.specs.Prelude.{◌≡◌, ℕ, ◌<◌, ◌≤◌, ◌-◌, ◌%◌, [], length, true, false, IfOk};
ghost use Rattle.std.specs.Prelude.{Some, slice_get, slice_index};
ghost use Rattle.peg_name.specs.Name.{home_of, parts_most};
ghost use Rattle.peg_model.specs.Packet.{are_distinct};
ghost use Rattle.peg_model.specs.Rules.{Core as TheCore, request, read_request, write_request};
ghost use Rattle.peg_model.specs.Rules.{on_report, on_void, promote, demote, copy_source};
ghost use Rattle.peg_model.specs.Rules.{fence_of, to_server, server_of_read, entry_of, base_of};
ghost use Rattle.peg_directory.specs.Table.{Table, with_entries};
ghost use Rattle.peg_parts.specs.Taking.{take_part, stamps_after, entries_after};
ghost use Rattle.peg_rules.specs.Started.{started, listed_at_start};
ghost use Rattle.peg_rules.specs.Going.{GoesTo, ComesFrom, FencesAt, OfLast};

use crate::choices::goes_anywhere;
use peg_directory::Directory;
use peg_name::{ClientId, Config, Holders, Key, Seq, ServerId, Version, home};
use peg_parts::{Collector, Taken};
use peg_stamp::{Stamp, Stamper};
use std::alloc::Global;
use std::marker::Model;

mod choices;

pub use choices::Allowed;
pub use peg_event::{CopyFrom, FenceOf, Forward, MarkDid, Promoted};
pub use peg_name::{Note, OutOfMemory};

/// What a switch knows of its rack's writes and keys: the stamps and the directory. It takes its
/// memory when it is made.
#[derive(Drop)]
pub struct Core {
    stamper: Stamper,
    directory: Directory,
}

impl Model for Core {
    ghost use Rattle.std.specs.Prelude.{◌≡◌, length};
    ghost use Rattle.peg_model.specs.Rules.{Core as TheCore};

    ghost Value = { TheCore };

    ghost view = { λ c. record {
      rack = c.directory.rack;
      stamps = c.stamper;
      entries = c.directory.entries;
    } };

    ghost invariant = { λ c. length c.stamper.rows ≡ c.directory.rack.clients };
}

impl Core {
    /// The core of a rack whose keys are listed from the start on, before any other, each with the
    /// version before the first as its base. The keys are distinct, and there is room for them.
    pub fn make(alloc: Global, config: &Config, keys: &[Key]) -> Result<Core, OutOfMemory>
        requires distinct { are_distinct keys.now ≡ true }
        requires few { length keys.now ≤ config.now.listed }
        ensures { IfOk result (λ core. core ≡ started config.now keys.now) }
    {
        let stamper = Stamper::make(alloc, config)?;
        let mut directory = Directory::make(alloc, config)?;
        list_at_start(&mut directory, keys);
        Ok(Core { stamper, directory })
    }

    /// The rack.
    pub fn config(&self) -> &Config
        ensures { result.now ≡ self.now.rack }
    {
        self.directory.config()
    }

    /// The stamps, a row for each client.
    pub fn stamper(&self) -> &Stamper
        ensures stamps { result.now ≡ self.now.stamps }
        ensures rows { length result.now.rows ≡ self.now.rack.clients }
    {
        &self.stamper
    }

    /// The listed keys.
    pub fn directory(&self) -> &Directory
        ensures rack { result.now.rack ≡ self.now.rack }
        ensures entries { result.now.entries ≡ self.now.entries }
    {
        &self.directory
    }

    /// Takes in a part of a state that is handed over, for a switch that is in the epoch `own`, as
    /// the collector does. With the last one the stamps and the entries are those of the state.
    pub fn take_part(
        &mut self,
        collector: &mut Collector,
        own: u64,
        epoch: u64,
        index: u8,
        count: u8,
        bytes: &[u8],
    ) -> Taken
        requires rack { collector.old.rack ≡ self.old.rack }
        requires index { index < count }
        requires few { count ≤ parts_most self.old.rack.format }
        requires short { length bytes.now ≤ 512 }
        ensures answer { result ≡ (take_part self.old.rack own collector.old.collected epoch index
            count bytes.now).answer }
        ensures collected { collector.new ≡ record collector.old {
          collected = (take_part self.old.rack own collector.old.collected epoch index count
              bytes.now).collected;
        } }
        ensures after { self.new ≡ record self.old {
          stamps = stamps_after self.old.stamps (take_part self.old.rack own
              collector.old.collected epoch index count bytes.now).state;
          entries = entries_after self.old.entries (take_part self.old.rack own
              collector.old.collected epoch index count bytes.now).state;
        } }
    {
        let (stamper, directory) = (&mut self.stamper, &mut self.directory);
        collector.take(own, epoch, index, count, bytes, stamper, directory)
    }
}

impl Core {
    /// Where a client's request goes. A write is stamped first, and goes nowhere where its sequence
    /// number is `Stale` or the versions are `Exhausted`; then nothing changes. A read of a listed
    /// key goes to the holder that the pick names, and a write of one without a mark, of a version
    /// above its base and its completed one, to the server that the pick names. Every other request
    /// goes to the key's home server.
    pub fn on_request(
        &mut self,
        write: bool,
        key: &Key,
        client: ClientId,
        seq: Seq,
        pick: u64,
    ) -> Forward
        requires client { client < self.old.rack.clients }
        requires seq { 1 ≤ seq }
        ensures answer { result ≡ (request self.old write key.now client seq pick).0 }
        ensures after { self.new ≡ (request self.old write key.now client seq pick).1 }
        ensures rack { self.new.rack ≡ self.old.rack }
        ensures goes { GoesTo self.old.rack write result }
    {
        if write {
            self.on_write(key, client, seq, pick)
        } else {
            self.on_read(key, pick)
        }
    }

    /// Notes that a server has this version of a key, as its reply or its report of a copy says.
    pub fn on_reply(&mut self, server: ServerId, key: &Key, version: Version) -> Note
        requires { server < self.old.rack.servers }
        ensures answer { result ≡ (on_report self.old server key.now version).0 }
        ensures after { self.new ≡ (on_report self.old server key.now version).1 }
        ensures rack { self.new.rack ≡ self.old.rack }
    {
        let home = home(self.directory.config(), key);
        self.directory.note_reply(key, home, server, version)
    }

    /// Takes back the stamp of a client's last write, where it is this one; answers whether it was.
    /// That write is stamped anew when it comes again.
    pub fn on_void(&mut self, client: ClientId, seq: Seq, version: Version) -> bool
        requires { client < self.old.rack.clients }
        ensures answer { result ≡ (on_void self.old client seq version).0 }
        ensures after { self.new ≡ (on_void self.old client seq version).1 }
        ensures rack { self.new.rack ≡ self.old.rack }
    {
        self.stamper.void(client, seq, version)
    }
}

impl Core {
    /// Lists a key, by the command of this number, with the next version as its base. `Already`
    /// where it is listed, `Full` where there are as many entries as the rack may list, and
    /// `NoVersion` where no next version is left; then nothing changes.
    pub fn promote(&mut self, key: &Key, listing: u64) -> Promoted
        ensures answer { result ≡ (promote self.old key.now listing).0 }
        ensures after { self.new ≡ (promote self.old key.now listing).1 }
        ensures rack { self.new.rack ≡ self.old.rack }
        ensures spent { OfLast result }
    {
        if let Some(old) = self.directory.find(key) {
            return Promoted::Already {
                listing: old.listing,
            };
        }
        let config = self.directory.config();
        let count = self.directory.len() as u64;
        if count == config.listed() {
            return Promoted::Full { count };
        }
        let next = self.stamper.next();
        let home = home(config, key);
        match self.stamper.take_version() {
            Some(base) => self.directory.promote(key, listing, home, base),
            None => Promoted::NoVersion { next },
        }
    }

    /// Marks a key's entry, to go once its home server reports the next version or a later one.
    pub fn demote(&mut self, key: &Key) -> MarkDid
        ensures answer { result ≡ (demote self.old key.now).0 }
        ensures after { self.new ≡ (demote self.old key.now).1 }
        ensures rack { self.new.rack ≡ self.old.rack }
    {
        self.directory.mark(key, self.stamper.next())
    }

    /// The server that is to copy a key to the target: its least holder. `NotListed` where the key
    /// has no entry, and `Holds` where the target is a holder.
    pub fn copy_source(&self, key: &Key, target: ServerId) -> CopyFrom
        ensures answer { result ≡ copy_source self.now key.now target }
        ensures within { ComesFrom self.now.rack result }
    {
        let Some(entry) = self.directory.find(key) else {
            return CopyFrom::NotListed;
        };
        if entry.holders.has(target) {
            return CopyFrom::Holds;
        }
        CopyFrom::From(entry.holders.nth(0))
    }

    /// Where a key is to be fenced, and at which version: at its home server, at the base of its
    /// listing. `NotListed` where it has no entry, and `NoBase` where its base is 0.
    pub fn fence_of(&self, key: &Key) -> FenceOf
        ensures answer { result ≡ fence_of self.now key.now }
        ensures within { FencesAt self.now.rack result }
    {
        let Some(entry) = self.directory.find(key) else {
            return FenceOf::NotListed;
        };
        if entry.base.0 == 0 {
            return FenceOf::NoBase;
        }
        FenceOf::At {
            home: home(self.directory.config(), key),
            base: entry.base,
        }
    }
}

impl Core {
    /// Where a read goes: home, or to the holder that the pick names.
    fn on_read(&self, key: &Key, pick: u64) -> Forward
        ensures answer { result ≡ read_request self.now key.now pick }
        ensures goes { GoesTo self.now.rack false result }
    {
        let config = self.directory.config();
        prove!(config.servers() >= 1);
        let server = match self.directory.find(key) {
            Some(entry) => picked(&entry.holders, pick),
            None => home(config, key),
        };
        Forward::To {
            server,
            version: Version(0),
        }
    }

    /// Stamps a write and says where it goes.
    fn on_write(&mut self, key: &Key, client: ClientId, seq: Seq, pick: u64) -> Forward
        requires client { client < self.old.rack.clients }
        requires seq { 1 ≤ seq }
        ensures answer { result ≡ (write_request self.old key.now client seq pick).0 }
        ensures after { self.new ≡ (write_request self.old key.now client seq pick).1 }
        ensures rack { self.new.rack ≡ self.old.rack }
        ensures goes { GoesTo self.old.rack true result }
    {
        let next = self.stamper.next();
        match self.stamper.stamp(client, seq) {
            Stamp::New(version) | Stamp::Same(version) => self.to_server(key, version, pick),
            Stamp::Stale { last } => Forward::Stale { last },
            Stamp::Exhausted => Forward::Exhausted { next },
        }
    }

    /// Where a stamped write goes.
    fn to_server(&self, key: &Key, version: Version, pick: u64) -> Forward
        requires { 1 ≤ version }
        ensures answer { result ≡ to_server self.now key.now version pick }
        ensures goes { GoesTo self.now.rack true result }
    {
        let config = self.directory.config();
        prove!(config.servers() >= 1);
        if let Some(entry) = self.directory.find(key) {
            if goes_anywhere(&entry, version) {
                let server = ServerId((pick % config.servers()) as u8);
                return Forward::To { server, version };
            }
        }
        Forward::To {
            server: home(config, key),
            version,
        }
    }
}

// The holder that the pick names.
fn picked(holders: &Holders, pick: u64) -> ServerId
    requires { 0 < length holders.now }
    ensures server { result ≡ slice_index holders.now (pick % length holders.now) }
    ensures member { slice_get holders.now (pick % length holders.now) ≡ Some result }
{
    let count = u64::from(holders.count());
    holders.nth((pick % count) as u32)
}

// Lists the keys in a directory that lists nothing yet.
fn list_at_start(directory: &mut Directory, keys: &[Key])
    requires empty { directory.old.entries ≡ [] }
    requires distinct { are_distinct keys.now ≡ true }
    requires few { length keys.now ≤ directory.old.rack.listed }
    ensures { directory.new
        ≡ with_entries directory.old (listed_at_start directory.old.rack keys.now) }
{
    for key in keys {
        let config = directory.config();
        let (home, base) = (home(config, key), Version(config.first() - 1));
        directory.promote(key, 0, home, base);
    }
}
