//! The fences that servers applied.
ghost use Rattle.std.specs.Prelude.{◌≡◌, ◌≤◌, ◌++◌, ◌∷◌, [], OnOk, IsOk};
ghost use Rattle.peg_model.specs.World.{origin_of};
ghost use Rattle.indexmap.specs.IndexMap.{spare};
ghost use Rattle.peg_ledger.specs.After.{fence_of, fenced_after};
ghost use Rattle.peg_ledger.specs.Fenced.{Remembers};

use indexmap::IndexMap;
use peg_event::ServerDid;
use peg_name::{Key, OutOfMemory, Version};
use std::alloc::Global;
use std::hash::{Hash, Hasher};
use std::marker::Model;

/// A fence, the version that its server held before, and the version of the write that it goes
/// back to.
#[derive(Clone, Copy)]
struct Fence {
    key: Key,
    version: Version,
    held: Version,
    origin: Version,
}

/// What a fence is found by.
#[derive(Clone, Copy, Debug, PartialEq, Eq)]
struct FenceName {
    key: Key,
    version: Version,
}

impl Hash for FenceName {
    ghost use Rattle.std.specs.Hash as fed;
    ghost use Rattle.std.specs.Cmp.Rules.{hashing};
    ghost use Rattle.std.proofs.Common.{rules};

    ghost hash_input = { λ name. fed.u64 name.version };

    ghost respects_eq = { Prim.search (hashing, rules) };

    // a version is given once, so it tells names apart
    fn hash<H: Hasher>(&self, state: &mut H) {
        self.version.0.hash(state);
    }
}

/// The fences of a run in the order in which they were applied, each found by its key and version.
#[derive(Drop)]
pub struct Fences {
    fences: Vec<Fence>,
    origins: IndexMap<FenceName, Version>,
}

impl Model for Fences {
    ghost use Rattle.std.specs.Prelude.{◌-◌, min, map, vec_len, vec_capacity};
    ghost use Rattle.indexmap.specs.IndexMap.{spare};
    ghost use Rattle.peg_ledger.specs.Fenced.{Fenced, fence_seen, AreIndexed};

    ghost Value = { Fenced };

    ghost view = { λ f. record {
      fences = map fence_seen f.fences.items;
      spare = min (spare f.origins) (vec_capacity f.fences - vec_len f.fences);
    } };

    ghost invariant = { λ f. AreIndexed (map fence_seen f.fences.items) f.origins.entries };
}

impl Fences {
    /// No fence.
    pub fn make(alloc: Global) -> Fences
        ensures { result.fences ≡ [] }
    {
        Fences {
            fences: Vec::new(alloc),
            origins: IndexMap::new(alloc),
        }
    }

    /// Makes room for one more fence.
    pub fn reserve(&mut self) -> Result<(), OutOfMemory>
        ensures same { self.new.fences ≡ self.old.fences }
        ensures room { OnOk result (1 ≤ self.new.spare) }
    {
        self.fences.reserve(1)?;
        self.origins.reserve(1)?;
        Ok(())
    }

    /// The version of the write that a version of a key goes back to: the version itself, but for
    /// that of a fence.
    pub fn origin_of(&self, key: &Key, version: Version) -> Version
        ensures { result ≡ origin_of self.now.fences key.now version }
    {
        match self.origins.get(&FenceName { key: *key, version }) {
            Some(origin) => *origin,
            None => version,
        }
    }

    /// Keeps the fence that a server applied. It succeeds where there is room.
    pub fn take_fence(&mut self, did: &ServerDid) -> Result<(), OutOfMemory>
        requires room { 1 ≤ self.old.spare }
        ensures ok { OnOk result (self.new.fences ≡ fenced_after did.now self.old.fences) }
        ensures succeeds { IsOk result }
    {
        match did {
            ServerDid::Fenced { key, version, held } => self.push(key, *version, *held),
            _ => Ok(()),
        }
    }

    fn push(&mut self, key: &Key, version: Version, held: Version) -> Result<(), OutOfMemory>
        requires room { 1 ≤ self.old.spare }
        ensures ok { OnOk result (self.new.fences
            ≡ self.old.fences ++ fence_of self.old.fences key.now version held ∷ []) }
        ensures succeeds { IsOk result }
    {
        let origin = self.origin_of(key, held);
        let name = FenceName { key: *key, version };
        remember(&mut self.origins, name, origin)?;
        self.fences.extend_from_slice(&[Fence {
            key: *key,
            version,
            held,
            origin,
        }])?;
        Ok(())
    }
}

// Has the origin found by the name, unless it has one.
fn remember(
    origins: &mut IndexMap<FenceName, Version>,
    name: FenceName,
    origin: Version,
) -> Result<(), OutOfMemory>
    requires room { 1 ≤ spare origins.old }
    ensures ok { OnOk result (Remembers origins.old.entries origins.new.entries name origin) }
    ensures succeeds { IsOk result }
{
    if origins.get(&name).is_some() {
        return Ok(());
    }
    origins.insert(name, origin)?;
    Ok(())
}
