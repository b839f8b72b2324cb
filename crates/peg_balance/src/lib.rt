//! Loads of servers, by which a switch spreads the requests that have a choice.
#![tactic(auto)]

ghost use Rattle.std.specs.Prelude.{◌≡◌, ◌≤◌, ◌*◌, length, if◌then◌else◌};
ghost use Rattle.peg_model.specs.Words.{below};
ghost use Rattle.peg_meaning.specs.Balance.{unloaded, load_of, weight_of, is_lighter, chosen};
ghost use Rattle.peg_meaning.specs.Balance.{charged, place_of};

use arrayvec::ArrayVec;
use peg_name::{Holders, ServerId};
use std::marker::Model;

#[cfg(test)]
mod tests;

/// A weight for each of at most 64 servers, and with how many requests it was charged. Both lie in
/// place. A server that has no weight counts with weight 0 and load 0.
#[derive(Drop)]
pub struct Loads {
    weights: ArrayVec<u32, 64>,
    loads: ArrayVec<u64, 64>,
}

impl Model for Loads {
    ghost use Rattle.peg_meaning.specs.Balance.{Loads as TheLoads};

    ghost Value = { TheLoads };

    ghost view = { λ l. record { weights = l.weights.items; loads = l.loads.items } };
}

impl Loads {
    /// The servers 0, 1, .. with these weights, each without a load.
    pub fn make(weights: &[u32]) -> Loads
        requires { length weights.now ≤ 64 }
        ensures { result ≡ unloaded weights.now }
    {
        let mut own = ArrayVec::new();
        let mut loads = ArrayVec::new();
        for weight in weights {
            own.push(*weight);
            loads.push(0);
        }
        Loads {
            weights: own,
            loads,
        }
    }

    /// The server among the allowed ones with the least load for its weight, and of several the one
    /// with the least number. Server 0 where none is allowed.
    pub fn choose(&self, allowed: Holders) -> ServerId
        ensures { result ≡ chosen self.now allowed }
    {
        let count = allowed.count();
        if count == 0 {
            return ServerId(0);
        }
        let mut best = allowed.nth(0);
        for place in 1..count {
            best = self.lighter(allowed.nth(place), best);
        }
        best
    }

    /// The same among all servers that have a weight.
    pub fn choose_any(&self) -> ServerId
        ensures { result ≡ chosen self.now (below (length self.now.weights)) }
    {
        let mut best = ServerId(0);
        for server in 0..self.weights.len() {
            best = self.lighter(ServerId(server as u8), best);
        }
        best
    }

    /// The place, among the allowed servers, of the one that `choose` gives.
    pub fn place_among(&self, allowed: Holders) -> u32
        ensures { result ≡ place_of (chosen self.now allowed) allowed }
    {
        place_of(self.choose(allowed), allowed)
    }

    /// Charges a server with one request. Nothing changes where it has no weight, or where its load
    /// is the greatest number.
    pub fn charge(&mut self, server: ServerId)
        ensures charged { self.new ≡ charged self.old server }
        ensures weights { self.new.weights ≡ self.old.weights }
    {
        let place = usize::from(server.0);
        if place >= self.loads.len() {
            return;
        }
        if self.loads[place] == u64::MAX {
            return;
        }
        self.loads[place] += 1;
    }

    /// With how many requests the server was charged.
    pub fn load(&self, server: ServerId) -> u64
        ensures { result ≡ load_of self.now server }
    {
        let place = usize::from(server.0);
        if place < self.loads.len() {
            self.loads[place]
        } else {
            0
        }
    }

    fn weight(&self, server: ServerId) -> u32
        ensures { result ≡ weight_of self.now server }
    {
        let place = usize::from(server.0);
        if place < self.weights.len() {
            self.weights[place]
        } else {
            0
        }
    }

    // The server, if it has less load for its weight than the best one so far.
    fn lighter(&self, server: ServerId, best: ServerId) -> ServerId
        ensures { result ≡ (if is_lighter self.now server best then server else best) }
    {
        let own = product(self.load(server), self.weight(best));
        if own < product(self.load(best), self.weight(server)) {
            server
        } else {
            best
        }
    }
}

fn product(load: u64, weight: u32) -> u128
    ensures { result ≡ load * weight }
{
    u128::from(load) * u128::from(weight)
}

// The place of a server among these; how many there are where it is none of them.
fn place_of(server: ServerId, servers: Holders) -> u32
    ensures { result ≡ place_of server servers }
{
    let count = servers.count();
    for place in 0..count {
        if servers.nth(place) == server {
            return place;
        }
    }
    count
}
