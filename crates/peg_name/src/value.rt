//! Values, and what a key has.

ghost use Rattle.std.specs.Prelude.{◌≡◌, ◌<◌, ◌↔◌, length, nat_eq, IsErr, IfOk};
ghost use Rattle.std.specs.Cmp.Lexicographic.{pointwise, nat_list_eq_equiv};
ghost use Rattle.std.specs.Cmp.{partial_equiv_from_equiv};
ghost use Rattle.peg_name.specs.Name.{IsValue};

use std::marker::Model;
use thiserror::Error;

/// A value: 0 to 1,024 bytes, lent. A contract sees the list of the bytes.
#[derive(Debug, Drop)]
pub struct Value<'a> {
    bytes: &'a [u8],
}

impl<'a> Model for Value<'a> {
    ghost use Rattle.std.specs.Prelude.{◌≤◌, List, ℕ, length};

    ghost Value = { List ℕ };

    ghost view = { λ v. v.bytes.now };

    ghost invariant = { λ v. length v.bytes.now ≤ 1024 };
}

/// The bytes are more than a value holds.
#[derive(Clone, Copy, Debug, PartialEq, Eq, Error)]
#[error("a value has at most 1,024 bytes")]
pub struct TooLong;

impl<'a> Value<'a> {
    /// The value of these bytes, of which there are at most 1,024. A rack of format 1 has values of
    /// at most 512 bytes, which its packets and texts see to.
    pub fn read(bytes: &'a [u8]) -> Result<Value<'a>, TooLong>
        ensures too_long { (1024 < length bytes.entry.now) ↔ IsErr result }
        ensures value { IfOk result (λ value. value ≡ bytes.entry.now) }
    {
        if bytes.len() > 1024 {
            return Err(TooLong);
        }
        Ok(Value { bytes })
    }

    /// Its bytes.
    pub fn bytes(&self) -> &'a [u8]
        ensures bytes { result.now ≡ self.now }
        ensures value { IsValue self.now }
    {
        self.bytes
    }

    /// The same value, lent again.
    pub fn again(&self) -> Value<'a>
        ensures { result ≡ self.now }
    {
        Value { bytes: self.bytes }
    }
}

impl<'a> PartialEq for Value<'a> {
    ghost eq = { pointwise nat_eq };

    ghost laws = { partial_equiv_from_equiv nat_list_eq_equiv };

    fn eq(&self, other: &Self) -> bool {
        self.bytes() == other.bytes()
    }
}

impl<'a> Eq for Value<'a> {
    ghost laws = { nat_list_eq_equiv };
}

/// What a key has: a value, or nothing, as before its first write and after a delete.
#[derive(Debug, PartialEq, Eq, Drop)]
pub enum Content<'a> {
    Absent,
    Present(Value<'a>),
}

impl<'a> Content<'a> {
    /// The same content, lent again.
    pub fn again(&self) -> Content<'a>
        ensures { result ≡ self.now }
    {
        match self {
            Content::Absent => Content::Absent,
            Content::Present(value) => Content::Present(value.again()),
        }
    }
}
