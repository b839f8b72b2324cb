//! Bytes that need be no packet.

ghost use Rattle.std.specs.Prelude.{◌≡◌, ◌≤◌, length, nat_eq};
ghost use Rattle.std.specs.Cmp.Lexicographic.{pointwise, nat_list_eq_equiv};
ghost use Rattle.std.specs.Cmp.{partial_equiv_from_equiv};

use std::marker::Model;

/// Bytes that are handed to a node as they are: 0 to 1,000, lent. A contract sees the list of the
/// bytes.
#[derive(Debug, Drop)]
pub struct Junk<'a> {
    bytes: &'a [u8],
}

impl<'a> Model for Junk<'a> {
    ghost use Rattle.std.specs.Prelude.{◌≤◌, List, ℕ, length};

    ghost Value = { List ℕ };

    ghost view = { λ v. v.bytes.now };

    ghost invariant = { λ v. length v.bytes.now ≤ 1000 };
}

impl<'a> Junk<'a> {
    /// These bytes, of which there are at most 1,000.
    pub fn make(bytes: &'a [u8]) -> Junk<'a>
        requires { length bytes.now ≤ 1000 }
        ensures { result ≡ bytes.entry.now }
    {
        Junk { bytes }
    }

    /// The bytes.
    pub fn bytes(&self) -> &'a [u8]
        ensures bytes { result.now ≡ self.now }
        ensures few { length self.now ≤ 1000 }
    {
        self.bytes
    }
}

impl<'a> PartialEq for Junk<'a> {
    ghost eq = { pointwise nat_eq };

    ghost laws = { partial_equiv_from_equiv nat_list_eq_equiv };

    fn eq(&self, other: &Self) -> bool {
        self.bytes() == other.bytes()
    }
}

impl<'a> Eq for Junk<'a> {
    ghost laws = { nat_list_eq_equiv };
}
