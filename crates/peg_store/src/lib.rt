//! A server's keys: for each the content of the greatest version that it was given, and the three
//! numbers by which its fences tell whether a late write may still be answered.
#![tactic(auto)]

ghost use Rattle.std.specs.Prelude.{◌≡◌, ℕ, ◌<◌, ◌≤◌, [], None, OnErr, IfOk, OnOk, IsOk, length};
ghost use Rattle.std.specs.Map.{lookup};
ghost use Rattle.std.specs.BTreeMap.{is_at};
ghost use Rattle.peg_name.specs.Name.{key_cmp};
ghost use Rattle.peg_model.specs.Server.{held, applied, apply_answer, written, write_answer};
ghost use Rattle.peg_model.specs.Server.{fenced, fence_answer, with_stored};
ghost use Rattle.peg_store.specs.Places.{content_of, with_content, numbers_of, bytes_in, HasSlot};
ghost use Rattle.peg_store.specs.Places.{content_if};
ghost use Rattle.peg_store.specs.Held.{IsHeld};

pub use peg_event::{Apply, FenceDid, Stored, WriteDid};
use peg_name::{Content, Key, OutOfMemory, Value, Version};
use peg_pool::SlotPool;
use std::alloc::Global;
use std::collections::BTreeMap;
use std::marker::Model;

#[cfg(test)]
mod tests;

/// The bytes of a slot: as many as a value has at most.
const SLOT: usize = 1024;

/// A server's keys with what is kept of each. A contract sees the list of them in the order of
/// keys. Each key that is held has memory of its own for a content, present or absent, so that only
/// a new key wants more.
#[derive(Drop)]
pub struct Store {
    places: BTreeMap<Key, Place>,
    pool: SlotPool,
}

// The version of a key's content, and the numbers that its fences left.
#[derive(Clone, Copy)]
struct Numbers {
    version: Version,
    low: Version,
    floor: Version,
    old: Version,
}

// What is kept of a key beside the bytes of its content, and the slot that they lie in.
#[derive(Clone, Copy)]
struct Place {
    numbers: Numbers,
    slot: u32,
    present: bool,
}

impl Model for Store {
    ghost use Rattle.peg_model.specs.Server.{Store as TheStore};
    ghost use Rattle.peg_store.specs.Places.{entries_of, IsTied};

    ghost Value = { TheStore };

    ghost view = { λ s. entries_of s.pool.slots s.places.entries };

    ghost invariant = { λ s. IsTied s.pool.slots s.places.entries };
}

impl Store {
    /// A store with no keys, which takes its memory from this allocator as it grows: about 1 KB a
    /// key, whatever its content, and 64 keys' at a time.
    pub fn make(alloc: Global) -> Store
        ensures { result ≡ [] }
    {
        Store {
            places: BTreeMap::new(alloc),
            pool: SlotPool::make(alloc, SLOT),
        }
    }

    /// The version and the content of a key, which is lent: 0 and absent where there is nothing. It
    /// takes no memory.
    pub fn read(&self, key: &Key) -> (Version, Content<'_>)
        ensures { result ≡ ((held self.now key.now).version, (held self.now key.now).content) }
    {
        match self.places.get(key) {
            Some(place) => (place.numbers.version, content_at(&self.pool, place)),
            None => (Version(0), Content::Absent),
        }
    }

    /// Keeps a copy of the key exactly where its version is above the held one. `OutOfMemory` comes
    /// at a new key alone, and leaves the store as before.
    pub fn apply(
        &mut self,
        key: &Key,
        version: Version,
        content: &Content<'_>,
    ) -> Result<Apply, OutOfMemory>
        requires { 1 ≤ version }
        ensures answer { IfOk result (λ did. did ≡ apply_answer self.old key.now version) }
        ensures after { OnOk result (self.new ≡ applied self.old key.now version content.now) }
        ensures err { OnErr result (self.new ≡ self.old) }
        ensures held { IsHeld self.old key.now → IsOk result }
    {
        let was = self.numbers(key);
        if version <= was.version {
            return Ok(Apply::Kept { held: was.version });
        }
        let now = Numbers { version, ..was };
        self.keep(key, &now, content)?;
        Ok(Apply::Applied)
    }

    /// Keeps a write of the key exactly where its version is above the held one. Else the fences
    /// say whether it acted for certain (`Kept`), never will (`Void`), or can't be told (`Barred`).
    /// `OutOfMemory` comes at a new key alone, and leaves the store as before.
    pub fn write(
        &mut self,
        key: &Key,
        version: Version,
        content: &Content<'_>,
    ) -> Result<WriteDid, OutOfMemory>
        requires { 1 ≤ version }
        ensures answer { IfOk result (λ did. did ≡ write_answer self.old key.now version) }
        ensures after { OnOk result (self.new ≡ written self.old key.now version content.now) }
        ensures err { OnErr result (self.new ≡ self.old) }
        ensures held { IsHeld self.old key.now → IsOk result }
    {
        let was = self.numbers(key);
        if version > was.version {
            self.apply(key, version, content)?;
            return Ok(WriteDid::Applied);
        }
        if version <= was.old {
            return Ok(WriteDid::Barred { old: was.old });
        }
        if version <= was.low {
            return Ok(WriteDid::Kept { held: was.version });
        }
        if version <= was.floor {
            return Ok(WriteDid::Void { floor: was.floor });
        }
        Ok(WriteDid::Kept { held: was.version })
    }

    /// Holds the content of the key at the version of a fence, exactly where that is above the held
    /// one. `OutOfMemory` comes at a new key alone, and leaves the store as before.
    pub fn fence(&mut self, key: &Key, version: Version) -> Result<FenceDid, OutOfMemory>
        requires { 1 ≤ version }
        ensures answer { IfOk result (λ did. did ≡ fence_answer self.old key.now version) }
        ensures after { OnOk result (self.new ≡ fenced self.old key.now version) }
        ensures err { OnErr result (self.new ≡ self.old) }
        ensures held { IsHeld self.old key.now → IsOk result }
    {
        let was = self.numbers(key);
        if version <= was.version {
            return Ok(FenceDid::Kept { held: was.version });
        }
        let now = Numbers {
            version,
            low: was.version,
            floor: version,
            old: was.floor,
        };
        self.renumber(key, &now)?;
        Ok(FenceDid::Fenced { held: was.version })
    }
}

impl Store {
    // The numbers of a key: zeros where nothing is kept of it.
    fn numbers(&self, key: &Key) -> Numbers
        ensures { result ≡ numbers_of (held self.now key.now) }
    {
        match self.places.get(key) {
            Some(place) => place.numbers,
            None => Numbers {
                version: Version(0),
                low: Version(0),
                floor: Version(0),
                old: Version(0),
            },
        }
    }

    // Keeps these numbers and this content of a key.
    fn keep(
        &mut self,
        key: &Key,
        numbers: &Numbers,
        content: &Content<'_>,
    ) -> Result<(), OutOfMemory>
        ensures after { OnOk result
            (self.new ≡ with_stored self.old key.now (with_content numbers.now content.now)) }
        ensures err { OnErr result (self.new ≡ self.old) }
        ensures held { IsHeld self.old key.now → IsOk result }
    {
        let Some(place) = self.places.get_mut(key) else {
            return self.add(key, numbers, content);
        };
        self.pool.replace(place.slot, bytes_in(content));
        place.numbers = *numbers;
        place.present = is_present(content);
        Ok(())
    }

    // Keeps these numbers of a key, whose content stays.
    fn renumber(&mut self, key: &Key, numbers: &Numbers) -> Result<(), OutOfMemory>
        ensures after { OnOk result
            (self.new
            ≡ with_stored self.old key.now
            (with_content numbers.now (held self.old key.now).content)) }
        ensures err { OnErr result (self.new ≡ self.old) }
        ensures held { IsHeld self.old key.now → IsOk result }
    {
        let Some(place) = self.places.get_mut(key) else {
            return self.add(key, numbers, &Content::Absent);
        };
        place.numbers = *numbers;
        Ok(())
    }

    // Keeps a new key, in a slot of its own, which goes back where the map has no memory for it.
    fn add(
        &mut self,
        key: &Key,
        numbers: &Numbers,
        content: &Content<'_>,
    ) -> Result<(), OutOfMemory>
        requires { lookup (is_at (key_cmp key.now)) self.old ≡ None }
        ensures after { OnOk result
            (self.new ≡ with_stored self.old key.now (with_content numbers.now content.now)) }
        ensures err { OnErr result (self.new ≡ self.old) }
    {
        let slot = self.pool.put(bytes_in(content))?;
        let place = Place {
            numbers: *numbers,
            slot,
            present: is_present(content),
        };
        if let Err(refused) = self.places.insert(*key, place) {
            self.pool.free(slot);
            return Err(refused.into());
        }
        Ok(())
    }
}

// The content at a place.
fn content_at<'a>(pool: &'a SlotPool, place: &Place) -> Content<'a>
    requires size { pool.now.slots.size ≡ 1024 }
    requires live { HasSlot pool.now.slots place.now }
    ensures { result ≡ content_of pool.now.slots place.now }
{
    if !place.present {
        return Content::Absent;
    }
    let bytes = pool.get(place.slot);
    Content::Present(Value::read(bytes).unwrap())
}

// The bytes of a content: none where it is absent.
fn bytes_in<'a>(content: &Content<'a>) -> &'a [u8]
    ensures bytes { result.now ≡ bytes_in content.now }
    ensures most { length result.now ≤ 1024 }
{
    match content {
        Content::Absent => &[],
        Content::Present(value) => value.bytes(),
    }
}

fn is_present(content: &Content<'_>) -> bool
    ensures { content_if result (bytes_in content.now) ≡ content.now }
{
    matches!(content, Content::Present(_))
}
