//! The rack as one machine: its nodes, the packets in flight and the operations so far.
#![tactic(auto)]

ghost use Rattle.std.specs.Prelude.{◌≡◌, ◌≢◌, ◌<◌, ◌≤◌, AllPairs, length, map, take};
ghost use Rattle.std.specs.Prelude.{IfOk, IfErr, OnOk, Err, true, false, ℕ};
ghost use Rattle.std.specs.List.{AllByRecursion};
ghost use Rattle.peg_history.specs.Groups.{key_orders};
ghost use Rattle.peg_packet.specs.Nodes.{is_in_rack};
ghost use Rattle.peg_model.specs.Datagrams.{spelled};
ghost use Rattle.peg_model.specs.Schedule.{EventInRack};
ghost use Rattle.peg_model.specs.World.{World as BookWorld, history, start, step};
ghost use Rattle.peg_event.specs.declared.Event.{Event as BookEvent};
ghost use Rattle.peg_law.specs.Lines.{IsLine};
ghost use Rattle.peg_model.specs.Headline.{OrdersAreHistories};
ghost use Rattle.peg_model.specs.Once.{ActsOnce};
ghost use Rattle.peg_model.specs.Moments.{Moment, FullRound, IsAnsweredAt, IsInPlace};
ghost use Rattle.peg_law.specs.Places.{moment_at, moments_at};
ghost use Rattle.peg_law.specs.OfRun.{IsWorldOfRun, KeepsLaws};
ghost use Rattle.peg_world.specs.Running.{started, stepped, is_past, Halted, AreHistories};

use machine::Machine;
use peg_event::Said;
pub use peg_event::{Event, Line};
use peg_history::{History, KeyOrder};
use peg_law::{answers_full_rounds_at_places, keeps_worlds_of_runs};
use peg_name::{Config, Key, OutOfMemory};
use peg_pool::Soup;
use ranges::{event_is_in_range, keys_are_in_range};
use std::alloc::Global;
use std::marker::Model;
use telling::said_of;
use thiserror::Error;

mod delivery;
mod events;
mod machine;
mod making;
mod nodes;
mod ranges;
mod saying;
mod telling;

/// Why a world stops.
#[derive(Clone, Copy, Debug, PartialEq, Eq, Error)]
pub enum Halt {
    #[error("out of memory")]
    OutOfMemory,
    #[error("more events or packets than a run has")]
    TooMuch,
}

impl From<OutOfMemory> for Halt {
    ghost use Rattle.std.specs.Prelude.{◌≡◌};
    ghost use Rattle.peg_world.specs.declared.Halt.TheVariants as halt;

    ghost from_gives = { λ _ given. given ≡ halt.OutOfMemory };

    fn from(_error: OutOfMemory) -> Halt {
        Halt::OutOfMemory
    }
}

/// The most events of a run.
const EVENTS_MOST: u64 = 1_000_000;

/// The rack as one machine. Of what its last line says it keeps all but the content that a read was
/// answered with, which lies in the packet that gave it.
#[derive(Drop)]
pub struct World {
    machine: Machine,
    events: u64,
    is_over: bool,
    said: Said<'static>,
    sent: Option<(u32, u32)>,
    delivered: Option<u64>,
}

impl Model for World {
    ghost use Rattle.peg_world.specs.Running.{Running, IsRun, line_of};

    ghost Value = { Running };

    ghost view = { λ w. record {
      world = w.machine.world;
      events = w.events;
      is_over = w.is_over;
      line = line_of w.delivered w.machine.world w.said w.sent;
    } };

    ghost invariant = { λ w. IsRun w.machine w.events w.is_over };
}

// What of the law of worlds of runs a step rests on.
fn steps_along_runs()
    ensures steps { (w : BookWorld) (at : ℕ) (e : BookEvent) → IsWorldOfRun w → w.place < at
        → IsLine w.rack e → IsWorldOfRun (step w at e).0 }
    ensures in_place { (w : BookWorld) (at : ℕ) (e : BookEvent) → IsWorldOfRun w → w.place < at
        → IsLine w.rack e → IsInPlace (moment_at w at e) }
{
    keeps_worlds_of_runs();
}

impl World {
    /// The rack as it is at its rack line: the keys are distinct, and there is room for them. No
    /// memory is taken for packets yet.
    #[tactic(auto, using(crate::proofs::Distinct::keys_differ))]
    pub fn make(alloc: Global, config: &Config, keys: &[Key]) -> Result<World, OutOfMemory>
        requires distinct { AllPairs (λ key other. key ≢ other) keys.now }
        requires few { length keys.now ≤ config.now.listed }
        ensures { IfOk result (λ world. world ≡ started config.now keys.now) }
    {
        prove!(config.listed() <= 64);
        keeps_worlds_of_runs();
        keys_are_in_range(keys);
        Ok(World {
            machine: Machine::make(alloc, config, keys)?,
            events: 0,
            is_over: false,
            said: Said::Rack,
            sent: None,
            delivered: None,
        })
    }

    /// The number of packets in flight.
    pub fn packets(&self) -> u32
        ensures { result ≡ length self.now.world.packets }
    {
        self.machine.packets()
    }

    /// The packets in flight, by their numbers: the node of the rack that each is for, and its bytes.
    pub fn soup(&self) -> &Soup
        ensures items { result.now.items
            ≡ spelled self.now.world.rack.format self.now.world.packets }
        ensures nodes { AllByRecursion (λ item. is_in_rack self.now.world.rack item.0 ≡ true)
            result.now.items }
    {
        self.machine.soup()
    }

    /// The operations so far.
    pub fn history(&self) -> &History
        ensures { result.now.ops ≡ history self.now.world }
    {
        self.machine.history()
    }

    /// The printed order of each key, in the order of first issue. Each is a register history of
    /// its key among the operations so far, whatever came and also after the world is over.
    #[tactic(auto, using(crate::proofs::Orders::orders_are))]
    pub fn orders(&self, alloc: Global) -> Result<Vec<KeyOrder>, OutOfMemory>
        ensures orders { IfOk result (λ orders. orders.items
            ≡ key_orders (history self.now.world) (map (λ o. o.tag) self.now.world.operations)) }
        ensures histories { IfOk result
            (λ orders. AreHistories (history self.now.world) orders.items) }
    {
        keeps_worlds_of_runs();
        self.machine.orders(alloc)
    }

    /// For those who build on a world: until it is over it is the world of a run, and all laws of
    /// runs hold of it. An operation with a full round in a run that led to it is answered. Also
    /// after it is over its orders are register histories, and a request acts once.
    pub fn keeps_laws(&self)
        ensures run { self.now.is_over ≡ false → IsWorldOfRun self.now.world }
        ensures laws { self.now.is_over ≡ false → KeepsLaws self.now.world }
        ensures rounds { (run : IsWorldOfRun self.now.world) (client seq : ℕ) (last : Moment)
            → FullRound (moments_at (start self.now.world.rack run.keys) run.reached.placed)
            client seq last → IsAnsweredAt last client seq }
        ensures shown { OrdersAreHistories self.now.world × ActsOnce self.now.world.packets }
    {
        let _ = &self.machine;
        keeps_worlds_of_runs();
        answers_full_rounds_at_places();
    }

    /// The line of the last event, or that of the rack line. A content is lent from the packet that
    /// gave it.
    pub fn line(&self) -> Line<'_>
        ensures { result ≡ self.now.line }
    {
        Line {
            said: said_of(&self.machine, self.delivered, &self.said),
            sent: self.sent,
        }
    }

    /// One event at a line of the schedule, whose place is above that of the line before: then
    /// `line` is its line, which says nothing of out of place, and what it sent has the next numbers.
    /// What the event names is in the rack. `TooMuch` exactly at the 1,000,001st event, where more than 200,000 packets would be
    /// in flight, and for good after either; the place, the packets and the operations are then as
    /// before. After `OutOfMemory` the world is as before: the room for what a step may send and
    /// note is made before its node steps.
    pub fn step(&mut self, place: u64, event: &Event<'_>) -> Result<(), Halt>
        requires in_rack { EventInRack self.old.world.rack event.now }
        requires later { self.old.world.place < place }
        ensures ok { OnOk result (self.new ≡ stepped self.old place event.now) }
        ensures within { OnOk result (is_past self.old place event.now ≡ false) }
        ensures at { OnOk result (self.new.world.place ≡ place) }
        ensures grows { OnOk result (take (length self.old.world.packets) self.new.world.packets
            ≡ self.old.world.packets) }
        ensures rack { self.new.world.rack ≡ self.old.world.rack }
        ensures halt { IfErr result (λ halt. Halted halt self.old self.new) }
        ensures past { result ≡ Err Halt.TooMuch → is_past self.old place event.now ≡ true }
        ensures over { self.old.is_over ≡ true → result ≡ Err Halt.TooMuch }
        ensures in_place { OnOk result (IsInPlace (moment_at self.old.world place event.now)) }
    {
        steps_along_runs();
        event_is_in_range(event);
        if self.is_over || self.events >= EVENTS_MOST {
            self.is_over = true;
            return Err(Halt::TooMuch);
        }
        let delivered = self.machine.delivered(event);
        match self.machine.happen(place, event) {
            Ok(said) => {
                self.sent = self.machine.send()?;
                self.events += 1;
                self.said = said;
                self.delivered = delivered;
                Ok(())
            }
            Err(Halt::OutOfMemory) => Err(Halt::OutOfMemory),
            Err(Halt::TooMuch) => {
                self.is_over = true;
                Err(Halt::TooMuch)
            }
        }
    }
}
