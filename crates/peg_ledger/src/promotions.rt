//! The versions that promotions were given.
ghost use Rattle.std.specs.Prelude.{◌≡◌, ◌≤◌, [], OnOk, IsOk};
ghost use Rattle.peg_ledger.specs.After.{promoted_after};

use peg_name::{Key, OutOfMemory, Version};
use std::alloc::Global;
use std::marker::Model;

/// A version that the promotion of a key was given.
#[derive(Clone, Copy)]
struct Given {
    key: Key,
    version: Version,
}

/// The promotions of a run in their order.
#[derive(Drop)]
pub struct Promotions {
    given: Vec<Given>,
}

impl Model for Promotions {
    ghost use Rattle.std.specs.Prelude.{◌-◌, map, vec_len, vec_capacity};
    ghost use Rattle.peg_ledger.specs.Fenced.{Promoted, promotion_seen};

    ghost Value = { Promoted };

    ghost view = { λ p. record {
      promotions = map promotion_seen p.given.items;
      spare = vec_capacity p.given - vec_len p.given;
    } };
}

impl Promotions {
    /// No promotion.
    pub fn make(alloc: Global) -> Promotions
        ensures { result.promotions ≡ [] }
    {
        Promotions {
            given: Vec::new(alloc),
        }
    }

    /// Makes room for one more promotion.
    pub fn reserve(&mut self) -> Result<(), OutOfMemory>
        ensures same { self.new.promotions ≡ self.old.promotions }
        ensures room { OnOk result (1 ≤ self.new.spare) }
    {
        self.given.reserve(1)?;
        Ok(())
    }

    /// Keeps the base of a key's listing, where it was given one. It succeeds where there is room.
    pub fn take_promotion(&mut self, key: &Key, base: Option<Version>) -> Result<(), OutOfMemory>
        requires room { 1 ≤ self.old.spare }
        ensures ok { OnOk result (self.new.promotions
            ≡ promoted_after key.now base self.old.promotions) }
        ensures succeeds { IsOk result }
    {
        if let Some(version) = base {
            self.given
                .extend_from_slice(&[Given { key: *key, version }])?;
        }
        Ok(())
    }
}
