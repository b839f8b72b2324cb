//! The keys that a controller knows to be listed.

ghost use Rattle.std.specs.Prelude.{◌≡◌, ◌≤◌, ◌<◌, ◌++◌, ◌∷◌, [], IfOk, length, filter, not};
ghost use Rattle.std.specs.Prelude.{vec_capacity, if◌then◌else◌};
ghost use Rattle.std.specs.Str.{bytes_eq};
ghost use Rattle.peg_model.specs.Words.{is_in};

use peg_name::{Key, OutOfMemory};
use std::alloc::Global;
use std::marker::Model;

/// At most 64 keys, in the order in which they were listed. Their room is taken when this is made.
#[derive(Drop)]
pub struct Known {
    keys: Vec<Key>,
}

impl Model for Known {
    ghost use Rattle.std.specs.Prelude.{◌≤◌, List, ℕ, vec_capacity};

    ghost Value = { List (List ℕ) };

    ghost view = { λ k. k.keys.items };

    ghost invariant = { λ k. 64 ≤ vec_capacity k.keys };
}

impl Known {
    /// These keys.
    pub fn make(alloc: Global, keys: &[Key]) -> Result<Known, OutOfMemory>
        requires { length keys.now ≤ 64 }
        ensures { IfOk result (λ k. k ≡ keys.now) }
    {
        let mut kept = Vec::with_capacity(alloc, 64)?;
        fill(&mut kept, keys);
        Ok(Known { keys: kept })
    }

    /// The keys.
    pub fn keys(&self) -> &[Key]
        ensures { result.now ≡ self.now }
    {
        &self.keys
    }

    /// Whether the key is one of them.
    pub fn has(&self, key: &Key) -> bool
        ensures { result ≡ is_in key.now self.now }
    {
        self.keys.iter().any(|known| key == known)
    }

    /// The key is one of them from now on.
    pub fn learn(&mut self, key: &Key)
        requires { length self.old < 64 }
        ensures { self.new
            ≡ (if is_in key.now self.old then self.old else self.old ++ key.now ∷ []) }
    {
        if !self.has(key) {
            self.keys.push_reserved(*key);
        }
    }

    /// The key is none of them any more.
    pub fn forget(&mut self, key: &Key)
        ensures { self.new ≡ filter (λ other. not (bytes_eq other key.now)) self.old }
    {
        self.keys.retain(|other| *other != *key);
    }
}

// Puts the keys into room that is there.
fn fill(kept: &mut Vec<Key>, keys: &[Key])
    requires empty { kept.old.items ≡ [] }
    requires room { length keys.now ≤ vec_capacity kept.old }
    ensures keys { kept.new.items ≡ keys.now }
    ensures room { vec_capacity kept.new ≡ vec_capacity kept.old }
{
    for key in keys {
        kept.push_reserved(*key);
    }
}
