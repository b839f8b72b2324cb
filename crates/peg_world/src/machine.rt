//! The rack as one machine, in the middle of an event or between two.
ghost use Rattle.std.specs.Prelude.{◌≡◌, ◌≤◌, ◌<◌, ◌+◌, ◌++◌, [], length, map, IfOk};
ghost use Rattle.std.specs.Prelude.{OnOk, IsOk, true, nat_lt};
ghost use Rattle.peg_history.specs.Groups.{key_orders};
ghost use Rattle.peg_model.specs.Datagrams.{spelled};
ghost use Rattle.peg_model.specs.Packet.{are_distinct};
ghost use Rattle.std.specs.List.{AllByRecursion};
ghost use Rattle.peg_packet.specs.Nodes.{is_in_rack};
ghost use Rattle.peg_model.specs.World.{history, start, numbers};
ghost use Rattle.peg_world.specs.Midway.{Closes};

use crate::Halt;
use crate::nodes::Nodes;
use peg_grammar::reads_back_what_is_spelled;
use peg_history::{History, KeyOrder};
use peg_ledger::{Fences, Operations, Promotions};
use peg_name::{Config, Key, OutOfMemory};
use peg_pool::Soup;
use std::alloc::Global;
use std::marker::Model;

/// The most packets of a run.
const PACKETS_MOST: usize = 200_000;

/// The nodes, the packets in flight, and what is kept of the run.
#[derive(Drop)]
pub(crate) struct Machine {
    pub(crate) nodes: Nodes,
    pub(crate) place: u64,
    pub(crate) soup: Soup,
    pub(crate) operations: Operations,
    pub(crate) fences: Fences,
    pub(crate) promotions: Promotions,
}

impl Model for Machine {
    ghost use Rattle.peg_world.specs.Midway.{Midway};

    ghost Value = { Midway };

    ghost use Rattle.peg_world.specs.Machine.{midway_of, IsMachine};

    ghost view = { midway_of };

    ghost invariant = { IsMachine };
}

impl Machine {
    /// The machine at the rack line.
    pub(crate) fn make(alloc: Global, config: &Config, keys: &[Key]) -> Result<Machine, OutOfMemory>
        requires distinct { are_distinct keys.now ≡ true }
        requires few { length keys.now ≤ config.now.listed }
        ensures world { IfOk result (λ machine. machine.world ≡ start config.now keys.now) }
        ensures sent { IfOk result (λ machine. machine.sent ≡ []) }
    {
        Ok(Machine {
            nodes: Nodes::make(alloc, config, keys)?,
            place: 1,
            soup: Soup::make(alloc, config.format()),
            operations: Operations::make(alloc),
            fences: Fences::make(alloc),
            promotions: Promotions::make(alloc),
        })
    }

    /// The number of packets in flight.
    pub(crate) fn packets(&self) -> u32
        ensures { result ≡ length self.now.world.packets }
    {
        self.soup.len()
    }

    /// The packets in flight, by their numbers.
    #[tactic(auto, using(crate::proofs::Flying::spelled_in_flight, crate::proofs::Flying::nodes_in_flight))]
    pub(crate) fn soup(&self) -> &Soup
        ensures items { result.now.items
            ≡ spelled self.now.world.rack.format self.now.world.packets }
        ensures nodes { AllByRecursion (λ item. is_in_rack self.now.world.rack item.0 ≡ true)
            result.now.items }
    {
        reads_back_what_is_spelled();
        &self.soup
    }

    /// The operations so far.
    pub(crate) fn history(&self) -> &History
        ensures { result.now.ops ≡ history self.now.world }
    {
        self.operations.history()
    }

    /// The printed order of each key, in the order of first issue.
    pub(crate) fn orders(&self, alloc: Global) -> Result<Vec<KeyOrder>, OutOfMemory>
        ensures { IfOk result (λ orders. orders.items
            ≡ key_orders (history self.now.world) (map (λ o. o.tag) self.now.world.operations)) }
    {
        self.operations.orders(alloc)
    }
}

impl Machine {
    /// Makes room for what an event may send, and for all that is noted of it, with contents of so
    /// many bytes together.
    pub(crate) fn reserve(&mut self, packets: usize, bytes: usize) -> Result<(), OutOfMemory>
        ensures world { self.new.world ≡ self.old.world }
        ensures sent { self.new.sent ≡ self.old.sent }
        ensures room { OnOk result (packets ≤ self.new.spare) }
        ensures notes { OnOk result (1 ≤ self.new.notes) }
        ensures bytes { OnOk result (bytes ≤ self.new.room) }
    {
        self.soup.reserve(packets)?;
        self.operations.reserve(bytes)?;
        self.fences.reserve()?;
        self.promotions.reserve()?;
        Ok(())
    }

    /// Whether more packets are in flight than a run has.
    pub(crate) fn is_full(&self) -> bool
        ensures { result ≡ nat_lt 200000 (length self.now.world.packets) }
    {
        self.soup.len() as usize > PACKETS_MOST
    }

    /// Ends an event at its place, unless its packets would pass the limit.
    pub(crate) fn close(&mut self, place: u64) -> Result<(), Halt>
        requires later { self.old.world.place < place }
        ensures closes { Closes self.old self.new place result }
    {
        let count = self.nodes.sent();
        if count > PACKETS_MOST || self.soup.len() as usize > PACKETS_MOST - count {
            return Err(Halt::TooMuch);
        }
        self.place = place;
        Ok(())
    }

    /// Puts what an event sent into flight, and answers the numbers that it has there. It succeeds
    /// where there is room.
    pub(crate) fn send(&mut self) -> Result<Option<(u32, u32)>, OutOfMemory>
        requires within { length self.old.world.packets + length self.old.sent ≤ 200000 }
        requires room { length self.old.sent ≤ self.old.spare }
        ensures numbers { IfOk result (λ sent. sent
            ≡ numbers (length self.old.world.packets) self.old.sent) }
        ensures world { OnOk result (self.new.world ≡ record self.old.world {
          packets = self.old.world.packets ++ self.old.sent;
        }) }
        ensures sent { OnOk result (self.new.sent ≡ []) }
        ensures succeeds { IsOk result }
    {
        let before = self.soup.len();
        let count = self.nodes.sent() as u32;
        self.nodes.send(&mut self.soup)?;
        Ok(if count == 0 {
            None
        } else {
            Some((before, before + count - 1))
        })
    }
}
