//! Sets of servers.

ghost use Rattle.std.specs.Prelude.{◌≡◌, ◌^◌, ◌<◌, [], ◌∷◌, length, nat_eq, Some, slice_get};
ghost use Rattle.peg_name.specs.Holders.{servers_of, bits_of, with_holder};
ghost use Rattle.std.specs.List.{list_any};

use crate::ServerId;
use std::marker::Model;

/// A set of servers: bit s for server s. A contract sees their numbers in rising order.
#[derive(Clone, Copy, Debug)]
pub struct Holders(u64);

impl Model for Holders {
    ghost use Rattle.std.specs.Prelude.{◌<◌, ◌^◌, List, ℕ};
    ghost use Rattle.peg_name.specs.Holders.{servers_of, bits_of};
    ghost use Rattle.peg_name.specs.Bits.{bits_of-servers_of};

    ghost Value = { List ℕ };

    ghost view = { λ h. servers_of h.0 };

    ghost invariant = { λ h. h.0 < 2 ^ 64 };

    ghost inverse = { λ servers. record { 0 = bits_of servers } };

    ghost inverse_ok = { λ h small i. record { 0 = bits_of-servers_of h.0 small i } };
}

fn bit(server: ServerId) -> u64
    requires { server < 64 }
    ensures { result ≡ 2 ^ server }
{
    1 << server.0
}

impl Holders {
    /// The servers whose bits are set.
    pub fn of_bits(bits: u64) -> Holders
        ensures { result ≡ servers_of bits }
    {
        Holders(bits)
    }

    /// The number with bit s for each server s.
    pub fn bits(&self) -> u64
        ensures { result ≡ bits_of self.now }
    {
        self.0
    }

    /// One server alone, of a number below 64.
    pub fn only(server: ServerId) -> Holders
        requires { server < 64 }
        ensures { result ≡ server ∷ [] }
    {
        Holders(bit(server))
    }

    /// These servers and one more, of a number below 64.
    pub fn with(&self, server: ServerId) -> Holders
        requires { server < 64 }
        ensures { result ≡ with_holder server self.now }
    {
        if self.has(server) {
            return *self;
        }
        Holders(self.0 + bit(server))
    }

    /// Whether the server is one of them.
    pub fn has(&self, server: ServerId) -> bool
        ensures { result ≡ list_any (nat_eq server) self.now }
    {
        server.0 < 64 && (self.0 >> server.0) % 2 == 1
    }

    /// How many there are.
    pub fn count(&self) -> u32
        ensures { result ≡ length self.now }
    {
        self.0.count_ones()
    }

    /// The server at this place of the rising list.
    pub fn nth(&self, place: u32) -> ServerId
        requires { place < length self.now }
        ensures { slice_get self.now place ≡ Some result }
    {
        let mut bits = self.0;
        let mut before = place;
        for server in 0..64u8 {
            if bits % 2 == 1 {
                if before == 0 {
                    return ServerId(server);
                }
                before -= 1;
            }
            bits /= 2;
        }
        ServerId(64)
    }
}

impl PartialEq for Holders {
    ghost use Rattle.std.specs.Cmp.Lexicographic.{pointwise, nat_list_eq_equiv};
    ghost use Rattle.std.specs.Cmp.{partial_equiv_from_equiv};

    ghost eq = { pointwise nat_eq };

    ghost laws = { partial_equiv_from_equiv nat_list_eq_equiv };

    fn eq(&self, other: &Self) -> bool {
        self.0 == other.0
    }
}

impl Eq for Holders {
    ghost use Rattle.std.specs.Cmp.Lexicographic.{nat_list_eq_equiv};

    ghost laws = { nat_list_eq_equiv };
}
