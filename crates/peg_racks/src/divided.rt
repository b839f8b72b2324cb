// Racks among which the keys are divided.
ghost use Rattle.std.specs.Prelude.{◌≡◌, ◌≢◌, ◌≤◌, ◌<◌, ℕ, Some, Err, [], ◌∷◌, ◌++◌, length, map};
ghost use Rattle.std.specs.Prelude.{All, IfOk, IfErr, OnOk, OnErr, option_map, slice_get, true};
ghost use Rattle.peg_model.specs.World.{history};
ghost use Rattle.peg_model.specs.Schedule.{EventInRack};
ghost use Rattle.peg_meaning.specs.Racks as book;
ghost use Rattle.peg_meaning.specs.Racks.{event_in, racks_step, longest};
ghost use Rattle.peg_world.specs.Running.{Running};
ghost use Rattle.peg_text.specs.Divides.{event_said};
ghost use Rattle.peg_racks.specs.Worlds.{config_of, worlds_of, taking, begun, IsToBegin, line_in};
ghost use Rattle.peg_racks.specs.Worlds.{longest_of, Steps, Halts, IsPastAt, IsOverAt, AreOrdersOf};

use peg_history::{History, KeyOrder};
use peg_name::{Config, Key, OutOfMemory};
use peg_text::{Rack, RacksEvent, rack_for, rack_taking};
use peg_world::{Event, Halt, Line, World};
use std::alloc::Global;
use std::marker::Model;

/// Up to 8 racks, each with a world of its own. A contract sees the list of what these come to.
#[derive(Drop)]
pub struct Racks {
    configs: Vec<Config>,
    worlds: Vec<World>,
}

impl Model for Racks {
    ghost use Rattle.std.specs.Prelude.{List};
    ghost use Rattle.peg_world.specs.Running.{Running};
    ghost use Rattle.peg_racks.specs.Worlds.{AreKept};

    ghost Value = { List Running };

    ghost view = { λ r. r.worlds.items };

    ghost invariant = { λ r. AreKept r.configs.items r.worlds.items };
}

// The longest line of these racks.
fn longest_line(configs: &[Config]) -> usize
    ensures longest { result ≡ longest_of configs.now }
    ensures few { result ≤ 4096 }
{
    let [config, rest @ ..] = configs else {
        return 0;
    };
    let most = longest_line(rest);
    let own = config.format().most_of_line();
    if most < own { own } else { most }
}

// Adds the world of a rack as it is at its rack line.
fn push_world(alloc: Global, rack: &Rack, worlds: &mut Vec<World>) -> Result<(), OutOfMemory>
    requires { IsToBegin rack.now }
    ensures added { OnOk result (worlds.new.items ≡ worlds.old.items ++ begun rack.now ∷ []) }
    ensures same { OnErr result (worlds.new.items ≡ worlds.old.items) }
{
    let world = World::make(alloc, rack.config(), rack.keys())?;
    worlds.push(world)?;
    Ok(())
}

// What the rack that takes an event is told.
fn told<'a>(event: &'a RacksEvent<'a>) -> &'a Event<'a>
    ensures { result.now ≡ event_in (event_said event.now) }
{
    match event {
        RacksEvent::Routed(event) => event,
        RacksEvent::Within { event, .. } => event,
    }
}

impl Racks {
    /// No rack.
    pub(crate) fn none(alloc: Global) -> Racks
        ensures { result ≡ [] }
    {
        Racks {
            configs: Vec::new(alloc),
            worlds: Vec::new(alloc),
        }
    }

    /// Adds a rack as it is at its rack line.
    pub(crate) fn add(&mut self, alloc: Global, rack: &Rack) -> Result<(), OutOfMemory>
        requires few { length self.old < 8 }
        requires keys { IsToBegin rack.now }
        ensures added { OnOk result (self.new ≡ self.old ++ begun rack.now ∷ []) }
        ensures same { OnErr result (self.new ≡ self.old) }
    {
        self.configs.push(*rack.config())?;
        if push_world(alloc, rack, &mut self.worlds).is_err() {
            self.configs.pop();
            return Err(OutOfMemory);
        }
        Ok(())
    }

    /// Racks as they are at their rack lines: the keys of each are distinct, and it has room for
    /// them.
    pub fn make(alloc: Global, racks: &[Rack]) -> Result<Racks, OutOfMemory>
        requires some { 1 ≤ length racks.now }
        requires few { length racks.now ≤ 8 }
        requires keys { All IsToBegin racks.now }
        ensures { IfOk result (λ made. made ≡ map begun racks.now) }
    {
        let mut made = Racks::none(alloc);
        for rack in racks {
            made.add(alloc, rack)?;
        }
        Ok(made)
    }

    /// How many there are.
    pub fn count(&self) -> u8
        ensures count { result ≡ length self.now }
        ensures few { result ≤ 8 }
    {
        self.worlds.len() as u8
    }

    /// The rack to which a key goes: the sum of its bytes modulo the number of racks.
    pub fn route(&self, key: &Key) -> u8
        requires some { 1 ≤ length self.now }
        ensures rack { result ≡ book.rack_for key.now (length self.now) }
        ensures below { result < length self.now }
    {
        rack_for(key, self.count())
    }

    pub(crate) fn configs(&self) -> &[Config]
        ensures configs { result.now ≡ map config_of self.now }
        ensures few { length result.now ≤ 8 }
    {
        self.configs.as_slice()
    }

    // The most bytes that a line of these has.
    #[tactic(auto, using(crate::proofs::Steps::longest_line))]
    pub(crate) fn most_of_line(&self) -> usize
        ensures most { result ≡ longest (worlds_of self.now) }
        ensures few { result ≤ 4096 }
    {
        longest_line(self.configs())
    }

    /// One event at a line of the schedule, whose place is above that of the last line of the rack
    /// that takes it: a read, a write or a delete goes to the rack of its key, and any other event to
    /// the rack that it names. The answer is that rack, and `line` has its line. What the event names
    /// is in that rack. `TooMuch` exactly where the world of that rack answers it, and after
    /// `OutOfMemory` that world is as before. The other racks stay as they are, whatever comes.
    pub fn step(&mut self, place: u64, event: &RacksEvent<'_>) -> Result<u8, Halt>
        requires some { 1 ≤ length self.old }
        requires below { taking self.old (event_said event.now) < length self.old }
        requires in_rack { (r : Running)
            → slice_get self.old (taking self.old (event_said event.now)) ≡ Some r
            → EventInRack r.world.rack (event_in (event_said event.now)) }
        requires later { (r : Running)
            → slice_get self.old (taking self.old (event_said event.now)) ≡ Some r
            → r.world.place < place }
        ensures rack { IfOk result (λ rack. rack ≡ taking self.old (event_said event.now)) }
        // One step of the racks, and the line of the rack that took it.
        ensures step { OnOk result (racks_step (worlds_of self.old) place (event_said event.now)
            ≡ (worlds_of self.new, line_in self.new (taking self.old (event_said event.now)))) }
        ensures steps { OnOk result (Steps self.old self.new place (event_said event.now)) }
        ensures halt { IfErr result (λ halt. Halts halt self.old self.new
            (taking self.old (event_said event.now))) }
        ensures past { result ≡ Err Halt.TooMuch
            → IsPastAt self.old place (event_said event.now) }
        ensures over { IsOverAt self.old (taking self.old (event_said event.now))
            → result ≡ Err Halt.TooMuch }
        ensures others { (other : ℕ) → other ≢ taking self.old (event_said event.now)
            → slice_get self.new other ≡ slice_get self.old other }
        ensures count { length self.new ≡ length self.old }
    {
        let rack = rack_taking(self.count(), event);
        if let Err(halt) = self.worlds[usize::from(rack)].step(place, told(event)) {
            return Err(halt);
        }
        Ok(rack)
    }

    /// The last line of a rack. A content is lent from the packet that gave it.
    pub fn line(&self, rack: u8) -> Line<'_>
        requires below { rack < length self.now }
        ensures { Some result ≡ line_in self.now rack }
    {
        self.worlds[usize::from(rack)].line()
    }

    /// The operations of a rack so far.
    pub fn history(&self, rack: u8) -> &History
        requires below { rack < length self.now }
        ensures { Some result.now.ops
            ≡ option_map (λ r. history r.world) (slice_get self.now rack) }
    {
        self.worlds[usize::from(rack)].history()
    }

    /// The printed order of each key of a rack, in the order of first issue. Each is a register
    /// history of its key among the operations of that rack.
    pub fn orders(&self, alloc: Global, rack: u8) -> Result<Vec<KeyOrder>, OutOfMemory>
        requires below { rack < length self.now }
        ensures { IfOk result (λ orders. AreOrdersOf (slice_get self.now rack) orders.items) }
    {
        self.worlds[usize::from(rack)].orders(alloc)
    }
}
