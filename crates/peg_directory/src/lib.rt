//! The coherence directory of a switch: which keys are listed, and for each the newest version that
//! some server is known to hold, the servers that hold it, and whether the entry is to go.
#![tactic(auto)]

ghost use Rattle.std.specs.Prelude.{◌≡◌, ℕ, ◌+◌, ◌^◌, ◌<◌, ◌≤◌, ◌↔◌, [], length, Some, slice_get};
ghost use Rattle.std.specs.Prelude.{IfOk, IfSome, IfNone, None, IsTrue, true, All};
ghost use Rattle.std.specs.Map.{keys_of, remove_entry};
ghost use Rattle.std.specs.Str.{bytes_eq};
ghost use Rattle.indexmap.specs.IndexMap.{spare};
ghost use Rattle.peg_model.specs.Packet.{are_distinct};
ghost use Rattle.peg_model.specs.Rules.{entry_of, base_of, list_key, mark_key, note_reply};
ghost use Rattle.peg_model.specs.Rules.{reported, ends, new_listing};
ghost use Rattle.peg_model.specs.Handover.{is_entry};
ghost use Rattle.peg_directory.specs.Table.{Table, IsDirectory, with_entries, IsAt};

use indexmap::IndexMap;
use peg_name::{Config, Holders, Key, ServerId, Version};
use std::alloc::Global;
use std::marker::Model;
use std::mem;

#[cfg(test)]
mod tests;

pub use peg_event::{Listing, MarkDid, Promoted};
pub use peg_name::{Note, OutOfMemory};

/// The listed keys of a rack, in the order of listing. Its room is taken when it is made, so no
/// later call takes memory.
#[derive(Drop)]
pub struct Directory {
    config: Config,
    entries: IndexMap<Key, Listing>,
    // Empty between calls: a removal moves what stays here, and the two change places. A map that
    // entries were removed from one by one would want memory before it is full.
    emptied: IndexMap<Key, Listing>,
}

impl Model for Directory {
    ghost use Rattle.std.specs.Prelude.{◌≡◌, ◌+◌, ◌≤◌, [], length};
    ghost use Rattle.indexmap.specs.IndexMap.{spare};
    ghost use Rattle.peg_directory.specs.Table.{Table, IsDirectory};

    ghost Value = { Table };

    ghost view = { λ d. record { rack = d.config; entries = d.entries.entries } };

    ghost invariant = { λ d.
        IsDirectory (record { rack = d.config; entries = d.entries.entries })
        × (d.config.listed ≤ length d.entries.entries + spare d.entries)
        × (d.emptied.entries ≡ []) × (d.config.listed ≤ spare d.emptied) };
}

impl Directory {
    /// A directory that lists nothing yet, with room for all the keys that the rack may list.
    pub fn make(alloc: Global, config: &Config) -> Result<Directory, OutOfMemory>
        ensures { IfOk result (λ d. d ≡ record { rack = config.now; entries = [] }) }
    {
        let room = config.listed() as usize;
        let entries = IndexMap::with_capacity(alloc, room)?;
        let emptied = IndexMap::with_capacity(alloc, room)?;
        Ok(Directory {
            config: *config,
            entries,
            emptied,
        })
    }

    /// The rack whose directory it is.
    pub fn config(&self) -> &Config
        ensures { result.now ≡ self.now.rack }
    {
        &self.config
    }

    /// How many keys are listed.
    pub fn len(&self) -> usize
        ensures len { result ≡ length self.now.entries }
        ensures few { result ≤ 64 }
        ensures whole { IsDirectory self.now }
    {
        prove!(self.config.listed() <= 64);
        self.entries.len()
    }

    /// Whether no key is listed.
    pub fn is_empty(&self) -> bool
        ensures { IsTrue result ↔ (length self.now.entries ≡ 0) }
    {
        self.entries.is_empty()
    }

    /// An entry, by its place in the order of listing.
    pub fn entry(&self, place: usize) -> (Key, Listing)
        requires { place < length self.now.entries }
        ensures { Some result ≡ slice_get self.now.entries place }
    {
        entry_at(&self.entries, place)
    }
}

impl Directory {
    /// The key's entry, which at least one server holds.
    pub fn find(&self, key: &Key) -> Option<Listing>
        ensures entry { result ≡ entry_of self.now.entries key.now }
        ensures within { IfSome result (λ entry. is_entry self.now.rack (key.now, entry) ≡ true) }
        ensures held { IfSome result (λ entry. 0 < length entry.holders) }
        ensures servers { IfSome result
            (λ entry. All (λ server. server < self.now.rack.servers) entry.holders) }
    {
        let (_, entry) = look_up(&self.entries, key)?;
        Some(entry)
    }

    /// The version that the key's listing took; none where it is not listed.
    pub fn base_of(&self, key: &Key) -> Option<Version>
        ensures { result ≡ base_of self.now.entries key.now }
    {
        let (_, entry) = look_up(&self.entries, key)?;
        Some(entry.base)
    }

    /// Lists a key after the others, by the command of this number. Nothing is completed above its
    /// base, and its home server is its one holder. `Already` where it is listed, with the number
    /// that listed it, and `Full` where there are as many entries as the rack may list.
    pub fn promote(&mut self, key: &Key, listing: u64, home: ServerId, base: Version) -> Promoted
        requires { home < self.old.rack.servers }
        ensures answer { result
            ≡ (list_key self.old.rack.listed self.old.entries key.now listing home base).0 }
        ensures after { self.new ≡ with_entries self.old
            (list_key self.old.rack.listed self.old.entries key.now listing home base).1 }
    {
        prove!(key.bytes().len() <= 32);
        if let Some((_, old)) = look_up(&self.entries, key) {
            return Promoted::Already {
                listing: old.listing,
            };
        }
        let count = self.entries.len() as u64;
        if count == self.config.listed() {
            return Promoted::Full { count };
        }
        let entry = new_listing(listing, home, base);
        self.entries.insert(*key, entry).unwrap();
        Promoted::Listed
    }

    /// Marks a key's entry with the next version: it goes once its home server reports that one or
    /// a later one. `AlreadyMarked` with the mark where it has one.
    pub fn mark(&mut self, key: &Key, next: Version) -> MarkDid
        requires { 1 ≤ next }
        ensures answer { result ≡ (mark_key self.old.entries key.now next).0 }
        ensures after { self.new
            ≡ with_entries self.old (mark_key self.old.entries key.now next).1 }
    {
        let Some((place, entry)) = look_up(&self.entries, key) else {
            return MarkDid::NotListed;
        };
        if let Some(mark) = entry.mark {
            return MarkDid::AlreadyMarked { mark };
        }
        self.entries[place] = marked(&entry, next);
        MarkDid::Marked { mark: next }
    }

    /// Notes that a server has this version of a key. A version above the completed one becomes
    /// that one, with the server as its one holder (`Raised`); the completed one has the server as
    /// a further holder (`Added`); a lower one changes nothing (`Kept`). Where the entry has a mark
    /// that the home server reached, it goes (`Removed`), and the others close up.
    pub fn note_reply(
        &mut self,
        key: &Key,
        home: ServerId,
        server: ServerId,
        version: Version,
    ) -> Note
        requires { server < self.old.rack.servers }
        ensures answer { result ≡ (note_reply self.old.entries key.now home server version).0 }
        ensures after { self.new
            ≡ with_entries self.old (note_reply self.old.entries key.now home server version).1 }
    {
        let Some((place, entry)) = look_up(&self.entries, key) else {
            return Note::Unlisted;
        };
        if ends(&entry, home, server, version) {
            self.remove(key);
            return Note::Removed {
                listing: entry.listing,
            };
        }
        let (note, now) = reported(&entry, server, version);
        self.entries[place] = now;
        note
    }

    /// Takes a key's entry out. The others close up.
    fn remove(&mut self, key: &Key)
        ensures { self.new
            ≡ with_entries self.old (remove_entry (bytes_eq key.now) self.old.entries) }
    {
        move_others(&mut self.entries, &mut self.emptied, key);
        mem::swap(&mut self.entries, &mut self.emptied);
    }

    /// Takes these entries in place of its own, as a handover brings them.
    pub fn load(&mut self, entries: &[(Key, Listing)])
        requires { IsDirectory (with_entries self.old entries.now) }
        ensures { self.new ≡ with_entries self.old entries.now }
    {
        refill(&mut self.entries, entries);
    }

    /// Takes every entry away.
    pub fn clear(&mut self)
        ensures { self.new ≡ with_entries self.old [] }
    {
        self.entries.clear();
    }
}

// The key's entry, with its place.
fn look_up(entries: &IndexMap<Key, Listing>, key: &Key) -> Option<(usize, Listing)>
    ensures found { IfSome result (λ r. IsAt key.now entries.now.entries r.0 r.1) }
    ensures absent { IfNone result (entry_of entries.now.entries key.now ≡ None) }
{
    let (place, _, entry) = entries.get_full(key)?;
    Some((place, *entry))
}

fn entry_at<V: Copy>(entries: &IndexMap<Key, V>, place: usize) -> (Key, V)
    requires { place < length entries.now.entries }
    ensures { Some result ≡ slice_get entries.now.entries place }
{
    let (key, entry) = entries.get_index(place).unwrap();
    (*key, *entry)
}

// Moves all entries but the key's to an empty map, in their order.
fn move_others<V: Copy>(from: &mut IndexMap<Key, V>, to: &mut IndexMap<Key, V>, key: &Key)
    requires empty { to.old.entries ≡ [] }
    requires room { length from.old.entries ≤ spare to.old }
    ensures moved { to.new.entries ≡ remove_entry (bytes_eq key.now) from.old.entries }
    ensures room { spare to.old ≤ length to.new.entries + spare to.new }
    ensures emptied { from.new.entries ≡ [] }
    ensures room_from { length from.old.entries + spare from.old ≤ spare from.new }
{
    for i in 0..from.len() {
        let (other, entry) = entry_at(from, i);
        if *key != other {
            to.insert(other, entry).unwrap();
        }
    }
    from.clear();
}

// Keeps these entries in place of the old ones, in the room that there is.
fn refill(kept: &mut IndexMap<Key, Listing>, entries: &[(Key, Listing)])
    requires room { length entries.now ≤ length kept.old.entries + spare kept.old }
    requires distinct { are_distinct (keys_of entries.now) ≡ true }
    ensures entries { kept.new.entries ≡ entries.now }
    ensures room { length kept.old.entries + spare kept.old
        ≤ length kept.new.entries + spare kept.new }
{
    kept.clear();
    for (key, entry) in entries {
        kept.insert(*key, *entry).unwrap();
    }
}

// An entry as it begins.
fn new_listing(listing: u64, home: ServerId, base: Version) -> Listing
    requires { home < 64 }
    ensures listing { result ≡ new_listing listing home base }
    ensures small { base < 2 ^ 64 }
{
    prove!(base.0 <= u64::MAX);
    Listing {
        listing,
        base,
        completed: base,
        holders: Holders::only(home),
        mark: None,
    }
}

// The entry with a mark.
fn marked(entry: &Listing, mark: Version) -> Listing
    ensures marked { result ≡ record entry.now { mark = Some mark } }
    ensures small { mark < 2 ^ 64 }
{
    prove!(mark.0 <= u64::MAX);
    Listing {
        listing: entry.listing,
        base: entry.base,
        completed: entry.completed,
        holders: entry.holders,
        mark: Some(mark),
    }
}

// Whether a report ends the entry: a mark is reached at the home server.
fn ends(entry: &Listing, home: ServerId, server: ServerId, version: Version) -> bool
    ensures { result ≡ ends home entry.now.mark server version }
{
    match entry.mark {
        Some(mark) => server == home && mark <= version,
        None => false,
    }
}

// What a report that the server has the version makes of the entry.
fn reported(entry: &Listing, server: ServerId, version: Version) -> (Note, Listing)
    requires { server < 64 }
    ensures reported { result ≡ reported entry.now server version }
    ensures small { version < 2 ^ 64 }
{
    prove!(version.0 <= u64::MAX);
    if version < entry.completed {
        return (Note::Kept, *entry);
    }
    if version == entry.completed {
        let note = if entry.holders.has(server) {
            Note::Kept
        } else {
            Note::Added
        };
        return (note, held_by(entry, version, entry.holders.with(server)));
    }
    (Note::Raised, held_by(entry, version, Holders::only(server)))
}

// The entry with another completed version and its holders.
fn held_by(entry: &Listing, completed: Version, holders: Holders) -> Listing
    ensures { result ≡ record entry.now { completed = completed; holders = holders } }
{
    Listing {
        listing: entry.listing,
        base: entry.base,
        completed,
        holders,
        mark: entry.mark,
    }
}
