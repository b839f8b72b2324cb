//! Keys.

ghost use Rattle.std.specs.Prelude.{◌≡◌, ◌<◌, ◌↔◌, length, nat_eq, Some, refl, Err, IfOk};
ghost use Rattle.std.specs.Ordering.{nat_cmp};
ghost use Rattle.std.specs.Cmp.Lexicographic.{pointwise, slice_cmp, nat_list_eq_equiv};
ghost use Rattle.std.specs.Cmp.Lexicographic.{nat_list_cmp_total, texts_po, texts_ties};
ghost use Rattle.std.specs.Cmp.{partial_equiv_from_equiv};
ghost use Rattle.peg_name.specs.Name.{IsKey};

use std::cmp::Ordering;
use std::hash::{Hash, Hasher};
use std::marker::Model;
use thiserror::Error;

/// A key: 1 to 32 bytes, held in place, and ordered by its bytes, a proper prefix first. A contract
/// sees the list of the bytes.
#[derive(Clone, Copy, Debug)]
pub struct Key {
    bytes: [u8; 32],
    len: usize,
}

impl Model for Key {
    ghost use Rattle.std.specs.Prelude.{◌≡◌, ◌≤◌, List, ℕ, length, take};
    ghost use Rattle.peg_name.specs.Name.{padded, IsKey};
    ghost use Rattle.std.proofs.Common.{arith, length-take-le};

    ghost Value = { List ℕ };

    ghost view = { λ k. take k.len k.bytes };

    ghost invariant = { λ k.
        IsKey (take k.len k.bytes) × (k.len ≤ 32) × (length k.bytes ≡ 32)
        × (padded 32 (take k.len k.bytes) ≡ k.bytes) };

    ghost inverse = { λ key. record { bytes = padded 32 key; len = length key } };

    ghost inverse_ok = { λ k h i. record {
      bytes = h.3 i;
      len = length-take-le k.len k.bytes (omega (arith, h.1, h.2)) i;
    } };
}

/// Why bytes are no key.
#[derive(Clone, Copy, Debug, PartialEq, Eq, Error)]
pub enum KeyFault {
    #[error("a key has at least one byte")]
    Empty,
    #[error("a key has at most 32 bytes")]
    TooLong,
}

impl Key {
    /// The key of these bytes. There is none of no byte (`Empty`), and none of more than 32
    /// (`TooLong`).
    pub fn read(bytes: &[u8]) -> Result<Key, KeyFault>
        ensures empty { (length bytes.now ≡ 0) ↔ (result ≡ Err KeyFault.Empty) }
        ensures too_long { (32 < length bytes.now) ↔ (result ≡ Err KeyFault.TooLong) }
        ensures key { IfOk result (λ key. key ≡ bytes.now) }
    {
        if bytes.is_empty() {
            return Err(KeyFault::Empty);
        }
        if bytes.len() > 32 {
            return Err(KeyFault::TooLong);
        }
        let mut held = [0; 32];
        held[..bytes.len()].copy_from_slice(bytes);
        Ok(Key {
            bytes: held,
            len: bytes.len(),
        })
    }

    /// Its bytes.
    pub fn bytes(&self) -> &[u8]
        ensures bytes { result.now ≡ self.now }
        ensures key { IsKey self.now }
    {
        &self.bytes[..self.len]
    }
}

// Whether the bytes are the same, with no branch on them.
#[tactic(auto, using(crate::proofs::Sameness::same_after, crate::proofs::Sameness::same_ends))]
fn are_same(one: &[u8; 32], other: &[u8; 32]) -> bool
    ensures { result ≡ pointwise nat_eq one.now other.now }
{
    let mut same = true;
    for i in 0..32usize {
        same = same & (one[i] == other[i]);
    }
    same
}

#[tactic(auto, using(crate::proofs::Padded::keys_same))]
fn are_keys_same(one: &Key, other: &Key) -> bool
    ensures { result ≡ pointwise nat_eq one.now other.now }
{
    one.len == other.len && are_same(&one.bytes, &other.bytes)
}

impl PartialEq for Key {
    ghost eq = { pointwise nat_eq };

    ghost laws = { partial_equiv_from_equiv nat_list_eq_equiv };

    fn eq(&self, other: &Self) -> bool {
        are_keys_same(self, other)
    }
}

impl Eq for Key {
    ghost laws = { nat_list_eq_equiv };
}

impl PartialOrd for Key {
    ghost partial_cmp = { λ k l. Some (slice_cmp nat_cmp k l) };

    ghost laws = { texts_po };

    fn partial_cmp(&self, other: &Self) -> Option<Ordering> {
        Some(self.cmp(other))
    }
}

impl Ord for Key {
    ghost cmp = { slice_cmp nat_cmp };

    ghost total = { nat_list_cmp_total };

    ghost matches_partial_cmp = { λ k l. refl };

    ghost matches_eq = { λ k l. texts_ties k l };

    fn cmp(&self, other: &Self) -> Ordering {
        self.bytes().cmp(other.bytes())
    }
}

impl Hash for Key {
    ghost use Rattle.std.specs.Prelude.{◌∷◌, []};
    ghost use Rattle.std.specs.Cmp.Rules.{hashing};
    ghost use Rattle.std.proofs.Common.{rules};

    ghost hash_input = { λ key. key ∷ [] };

    ghost respects_eq = { Prim.search (hashing, rules) };

    // In one write of its bytes. A hash without a secret lets users choose keys that collide; a
    // search is then as long as the map, and its answer the same.
    fn hash<H: Hasher>(&self, state: &mut H) {
        state.write(self.bytes());
    }
}
