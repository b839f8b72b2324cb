//! To which servers a request may go, before a pick chooses one of them.

ghost use Rattle.std.specs.Prelude.{◌≡◌, ◌<◌, ◌&&◌, not, nat_lt, is_some};
ghost use Rattle.peg_model.specs.Rules.{stamp, entry_of};
ghost use Rattle.peg_meaning.specs.Balance.{read_allowed, write_allowed, stamped_allowed};
ghost use Rattle.peg_rules.specs.Choices.{allowed_seen, allowed_in};

use crate::Core;
use peg_event::Listing;
use peg_name::{ClientId, Holders, Key, Seq, ServerId, Version, home};
use peg_stamp::Stamp;

/// To which servers a request may go.
#[derive(Clone, Copy, Debug, PartialEq, Eq)]
pub enum Allowed {
    /// Those that hold the listed key, for a read.
    Holders(Holders),
    /// Each server of the rack, for a write of a listed key that goes where the pick says.
    Any,
    /// The home server of the key, for each other request that is forwarded.
    Home(ServerId),
    /// No server: nothing is forwarded.
    Nothing,
}

impl Core {
    /// To which servers `on_request` may send this request. Nothing is stamped.
    pub fn allowed(&self, write: bool, key: &Key, client: ClientId, seq: Seq) -> Allowed
        requires { client < self.now.rack.clients }
        ensures { allowed_seen result ≡ allowed_in self.now write key.now client seq }
    {
        if write {
            self.write_allowed(key, client, seq)
        } else {
            self.read_allowed(key)
        }
    }

    fn read_allowed(&self, key: &Key) -> Allowed
        ensures { allowed_seen result
            ≡ read_allowed (entry_of self.now.entries key.now) self.now.rack key.now }
    {
        match self.directory.find(key) {
            Some(entry) => Allowed::Holders(entry.holders),
            None => Allowed::Home(home(self.directory.config(), key)),
        }
    }

    fn write_allowed(&self, key: &Key, client: ClientId, seq: Seq) -> Allowed
        requires { client < self.now.rack.clients }
        ensures { allowed_seen result ≡ stamped_allowed (stamp self.now.stamps client seq).0
            (entry_of self.now.entries key.now) self.now.rack key.now }
    {
        match self.stamp_for(client, seq) {
            Stamp::New(version) | Stamp::Same(version) => self.version_allowed(key, version),
            Stamp::Stale { .. } | Stamp::Exhausted => Allowed::Nothing,
        }
    }

    // Where a write of this version may go.
    fn version_allowed(&self, key: &Key, version: Version) -> Allowed
        ensures { allowed_seen result
            ≡ write_allowed (entry_of self.now.entries key.now) self.now.rack key.now version }
    {
        if let Some(entry) = self.directory.find(key) {
            if goes_anywhere(&entry, version) {
                return Allowed::Any;
            }
        }
        Allowed::Home(home(self.directory.config(), key))
    }

    // What a write of this client and sequence number would be stamped with.
    fn stamp_for(&self, client: ClientId, seq: Seq) -> Stamp
        requires { client < self.now.rack.clients }
        ensures { result ≡ (stamp self.now.stamps client seq).0 }
    {
        let (last, version) = self.stamper.row(client);
        if seq < last {
            return Stamp::Stale { last };
        }
        if seq == last && version.0 > 0 {
            return Stamp::Same(version);
        }
        let next = self.stamper.next();
        if next.0 == u64::MAX {
            return Stamp::Exhausted;
        }
        Stamp::New(next)
    }
}

/// Whether a write of this version goes to the server that the pick names.
pub(crate) fn goes_anywhere(entry: &Listing, version: Version) -> bool
    ensures { result ≡ (not (is_some entry.now.mark) && nat_lt entry.now.base version
        && nat_lt entry.now.completed version) }
{
    entry.mark.is_none() && entry.base < version && entry.completed < version
}
