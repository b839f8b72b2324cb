// A rack that runs over a wire.
ghost use Rattle.std.specs.Prelude.{◌≡◌, ◌≢◌, ◌≤◌, ◌<◌, ◌+◌, ◌*◌, [], length, None, false, true, not, ◌==◌};
ghost use Rattle.peg_name.specs.Name.{line_most};
ghost use Rattle.peg_model.specs.Schedule.{EventInRack};
ghost use Rattle.peg_meaning.specs.Session as session;
ghost use Rattle.peg_meaning.specs.RackWord as book;
ghost use Rattle.peg_meaning.specs.RackWord.{serves_rack, nodes_of, running_want, Running};
ghost use Rattle.peg_io.specs.Outside.{Rose};
ghost use Rattle.peg_packet.specs.Nodes.{is_in_rack};
ghost use Rattle.peg_session.specs.Took.{Takes as TookInput, TookLine, MayTake, WantFits};
ghost use Rattle.peg_text.specs.Takes.{entry_in};

use crate::places::{actor_of, count_of, node_at, slot_of};
use crate::printing::{push_end, push_foreign};
use crate::takes::Takes;
use peg_event::Event;
use peg_index::{Index, numbers_as_the_book_does, stays_an_index};
use peg_io::Sink;
use peg_name::{Config, Node};
use peg_node::room_of;
use peg_print::{prints_orders_of_the_book, push_line, push_tail};
use peg_session::{Page, Stepped, Taken, Want};
use peg_text::{RackEntry, Text, rack_entry_of};
use peg_world::{Halt, World};
use std::alloc::Global;

// The most lines behind the rack line.
const LINES_MOST: u32 = 1_000_000;

#[derive(Drop)]
pub(crate) struct Rig {
    pub(crate) base: u16,
    pub(crate) config: Config,
    pub(crate) world: World,
    pub(crate) index: Index,
    // The place of the last line of the text.
    pub(crate) place: u64,
    pub(crate) foreign: u64,
    pub(crate) lines: u32,
    pub(crate) takes: Takes,
    // Who made the last step, and how many packets there were before it.
    pub(crate) actor: Node,
    pub(crate) sent_from: u32,
    // Its ports aren't bound yet.
    pub(crate) is_first: bool,
    pub(crate) is_over: bool,
}

impl Rig {
    ghost use Rattle.peg_rack.specs.Racking.{racked_of, word_of, letters_of, takes_of, rank_of};
    ghost use Rattle.peg_rack.specs.Racking.{IsTied, HasRoom, Stays, Comes, IsNext, InRack, AreIn};

    // What is wanted.
    pub(crate) fn want(&self) -> Want
        requires tied { IsTied self.now }
        ensures want { result ≡ book.rack_want (word_of self.now) }
        ensures fits { WantFits result (length (nodes_of self.now.config)) }
    {
        if self.is_over {
            return Want::Over;
        }
        match self.takes {
            Takes::Nothing => self.want_line(),
            Takes::One { node, .. } => self.want_turn(slot_of(&self.config, &node)),
            Takes::Round { next } => {
                if next >= count_of(&self.config) {
                    return self.want_line();
                }
                let node = node_at(&self.config, next);
                self.want_turn(slot_of(&self.config, &node))
            }
        }
    }

    fn want_line(&self) -> Want
        ensures { result ≡ Want.Line (line_most self.now.config.format) false }
    {
        Want::Line {
            limit: self.config.format().most_of_line(),
            optional: false,
        }
    }

    fn want_turn(&self, slot: u32) -> Want
        ensures { result ≡ Want.Turn slot (session.room self.now.config.format) }
    {
        Want::Turn {
            slot,
            room: room_of(self.config.format()),
        }
    }

    // Nothing is bound or sent by the last step any more.
    fn clear(&mut self)
        requires tied { IsTied self.old }
        ensures same { racked_of self.new ≡ racked_of self.old }
        ensures stays { Stays self.old self.new }
        ensures lines { self.new.lines ≡ self.old.lines }
        ensures takes { self.new.takes ≡ self.old.takes }
        ensures tied { IsTied self.new }
        ensures quiet { letters_of self.new ≡ [] }
        ensures first { self.new.is_first ≡ false }
    {
        self.is_first = false;
        self.sent_from = self.world.packets();
    }

    // Steps an event of a node.
    fn step<K: Sink>(
        &mut self,
        actor: Node,
        event: &Event<'_>,
        text: &mut Text,
        page: &mut Page,
        sink: &mut K,
    ) -> Stepped
        requires tied { IsTied self.old }
        requires on { self.old.is_over ≡ false }
        requires room { HasRoom self.old }
        requires in_rack { EventInRack self.old.config event.now }
        requires actor { is_in_rack self.old.config actor ≡ true }
        ensures comes { Comes (book.steps (racked_of self.old) actor event.now) result
            (word_of self.new) (letters_of self.new)
            page.old page.new (K.held sink.old) (K.held sink.new) }
        ensures tied { result ≡ Stepped.Goes → IsTied self.new }
        ensures stays { Stays self.old self.new }
        ensures lines { self.new.lines ≡ self.old.lines }
        ensures takes { self.new.takes ≡ self.old.takes }
        ensures first { self.new.is_first ≡ self.old.is_first }
        ensures cause { result ≡ Stepped.Unwritten → Rose (K.faults sink.old) (K.faults sink.new) }
        ensures later { K.faults sink.old ≤ K.faults sink.new }
    {
        let place = self.place + 1;
        let sent_from = self.world.packets();
        stays_an_index();
        match self.world.step(place, event) {
            Ok(()) => {}
            Err(Halt::OutOfMemory) => return Stepped::OutOfMemory,
            Err(Halt::TooMuch) => return Stepped::Past,
        }
        if self.index.catch_up(self.world.soup()).is_err() {
            return Stepped::OutOfMemory;
        }
        self.place = place;
        self.actor = actor;
        self.sent_from = sent_from;
        if push_line(page, text, place, &self.world.line(), sink) {
            Stepped::Goes
        } else {
            Stepped::Unwritten
        }
    }

    // Turns away a datagram that no packet to the node has.
    fn turn_away<K: Sink>(
        &mut self,
        node: &Node,
        text: &mut Text,
        page: &mut Page,
        sink: &mut K,
    ) -> Stepped
        requires tied { IsTied self.old }
        requires on { self.old.is_over ≡ false }
        requires room { HasRoom self.old }
        requires quiet { letters_of self.old ≡ [] }
        ensures comes { Comes (book.takes_packet None (racked_of self.old) (node.now, None)) result
            (word_of self.new) (letters_of self.new)
            page.old page.new (K.held sink.old) (K.held sink.new) }
        ensures tied { result ≡ Stepped.Goes → IsTied self.new }
        ensures stays { Stays self.old self.new }
        ensures lines { self.new.lines ≡ self.old.lines }
        ensures takes { self.new.takes ≡ self.old.takes }
        ensures first { self.new.is_first ≡ self.old.is_first }
        ensures cause { result ≡ Stepped.Unwritten → Rose (K.faults sink.old) (K.faults sink.new) }
        ensures later { K.faults sink.old ≤ K.faults sink.new }
    {
        self.place += 1;
        self.foreign += 1;
        if push_foreign(page, text, self.place, node, sink) {
            Stepped::Goes
        } else {
            Stepped::Unwritten
        }
    }

    // Takes the first of what the last line still has to take: a node, and the pick for its step.
    fn advance(&mut self) -> (Node, u64)
        requires tied { IsTied self.old }
        requires some { 1 ≤ length (takes_of self.old.config self.old.takes) }
        ensures next { IsNext (takes_of self.old.config self.old.takes)
            (length self.old.world.world.packets) result
            (takes_of self.new.config self.new.takes) }
        ensures same { self.new ≡ record self.old { takes = self.new.takes } }
        ensures in_rack { is_in_rack self.old.config result.0 ≡ true }
        ensures tied { IsTied self.new }
        ensures room { HasRoom self.new }
    {
        prove!(count_of(&self.config) <= 1093);
        match self.takes {
            Takes::Nothing => unreachable!(),
            Takes::One { node, pick } => {
                self.takes = Takes::Nothing;
                (node, pick)
            }
            Takes::Round { next } => {
                self.takes = Takes::Round { next: next + 1 };
                (node_at(&self.config, next), u64::from(self.world.packets()))
            }
        }
    }

    // Takes a datagram.
    fn hear<K: Sink>(
        &mut self,
        bytes: &[u8],
        text: &mut Text,
        page: &mut Page,
        sink: &mut K,
    ) -> Stepped
        requires tied { IsTied self.old }
        requires on { self.old.is_over ≡ false }
        requires quiet { letters_of self.old ≡ [] }
        requires some { 1 ≤ length (takes_of self.old.config self.old.takes) }
        ensures comes { Comes (book.takes_first (racked_of self.old).takes (racked_of self.old)
            bytes.now) result (word_of self.new) (letters_of self.new)
            page.old page.new (K.held sink.old) (K.held sink.new) }
        ensures tied { result ≡ Stepped.Goes → IsTied self.new }
        ensures less { result ≡ Stepped.Goes → rank_of self.new < rank_of self.old }
        ensures stays { Stays self.old self.new }
        ensures first { self.new.is_first ≡ self.old.is_first }
        ensures cause { result ≡ Stepped.Unwritten → Rose (K.faults sink.old) (K.faults sink.new) }
        ensures later { K.faults sink.old ≤ K.faults sink.new }
    {
        let (node, pick) = self.advance();
        numbers_as_the_book_does();
        match self.index.find(self.world.soup(), &node, bytes) {
            Some(number) => {
                let packet = u64::from(number);
                self.step(node, &Event::Deliver { packet, pick }, text, page, sink)
            }
            None => self.turn_away(&node, text, page, sink),
        }
    }

    // Nothing came in place of a datagram.
    fn pass(&mut self)
        requires tied { IsTied self.old }
        requires on { self.old.is_over ≡ false }
        requires quiet { letters_of self.old ≡ [] }
        requires some { 1 ≤ length (takes_of self.old.config self.old.takes) }
        ensures goes { book.passes_first (racked_of self.old).takes (racked_of self.old)
            ≡ session.Goes (session.begun (word_of self.new) [] (letters_of self.new)) }
        ensures tied { IsTied self.new }
        ensures less { rank_of self.new < rank_of self.old }
        ensures stays { Stays self.old self.new }
        ensures first { self.new.is_first ≡ self.old.is_first }
    {
        self.advance();
    }

    // Writes the line end, the history and the orders.
    fn end<K: Sink>(
        &mut self,
        alloc: Global,
        text: &mut Text,
        page: &mut Page,
        sink: &mut K,
    ) -> Stepped
        requires tied { IsTied self.old }
        requires on { self.old.is_over ≡ false }
        requires quiet { letters_of self.old ≡ [] }
        ensures comes { Comes (book.reads_entry book.End (racked_of self.old)) result
            (word_of self.new) (letters_of self.new)
            page.old page.new (K.held sink.old) (K.held sink.new) }
        ensures tied { result ≡ Stepped.Goes → IsTied self.new }
        ensures less { result ≡ Stepped.Goes → rank_of self.new < rank_of self.old }
        ensures config { self.new.config ≡ self.old.config }
        ensures first { self.new.is_first ≡ self.old.is_first }
        ensures cause { result ≡ Stepped.Unwritten → Rose (K.faults sink.old) (K.faults sink.new) }
        ensures later { K.faults sink.old ≤ K.faults sink.new }
    {
        let Ok(orders) = self.world.orders(alloc) else {
            return Stepped::OutOfMemory;
        };
        prints_orders_of_the_book();
        if !push_end(page, text, self.place + 1, self.foreign, sink) {
            return Stepped::Unwritten;
        }
        if !push_tail(page, text, self.world.history(), &orders, sink) {
            return Stepped::Unwritten;
        }
        self.is_over = true;
        Stepped::Goes
    }

    // Counts a line; false where it is one too many.
    fn counts(&mut self) -> bool
        requires tied { IsTied self.old }
        requires none { takes_of self.old.config self.old.takes ≡ [] }
        ensures few { result ≡ not (self.old.lines == 1000000) }
        ensures lines { result ≡ true → self.new ≡ record self.old { lines = self.old.lines + 1 } }
        ensures same { result ≡ false → self.new ≡ self.old }
        ensures limit { result ≡ true → self.old.lines < 1000000 }
        ensures tied { IsTied self.new }
        ensures room { result ≡ true → self.new.place + 1094 ≤ 1 + 1100 * self.new.lines }
    {
        if self.lines == LINES_MOST {
            return false;
        }
        self.lines += 1;
        true
    }

    // Carries out what a line says.
    fn read<K: Sink>(
        &mut self,
        alloc: Global,
        entry: &RackEntry<'_>,
        text: &mut Text,
        page: &mut Page,
        sink: &mut K,
    ) -> Stepped
        requires tied { IsTied self.old }
        requires on { self.old.is_over ≡ false }
        requires quiet { letters_of self.old ≡ [] }
        requires none { takes_of self.old.config self.old.takes ≡ [] }
        requires in_rack { InRack self.old.config entry.now }
        ensures comes { Comes (book.reads_entry (entry_in entry.now) (racked_of self.old)) result
            (word_of self.new) (letters_of self.new)
            page.old page.new (K.held sink.old) (K.held sink.new) }
        ensures tied { result ≡ Stepped.Goes → IsTied self.new }
        ensures less { result ≡ Stepped.Goes → rank_of self.new < rank_of self.old }
        ensures config { self.new.config ≡ self.old.config }
        ensures first { self.new.is_first ≡ self.old.is_first }
        ensures cause { result ≡ Stepped.Unwritten → Rose (K.faults sink.old) (K.faults sink.new) }
        ensures later { K.faults sink.old ≤ K.faults sink.new }
    {
        match entry {
            RackEntry::End => self.end(alloc, text, page, sink),
            RackEntry::Event(event) => {
                if !self.counts() {
                    return Stepped::Past;
                }
                let actor = actor_of(&self.config, event);
                self.step(actor, event, text, page, sink)
            }
            RackEntry::Take { node, pick } => {
                let (node, pick) = (*node, *pick);
                self.begin(Takes::One { node, pick })
            }
            RackEntry::Round => {
                prove!(count_of(&self.config) <= 1093);
                self.begin(Takes::Round { next: 0 })
            }
        }
    }

    // Begins to take.
    fn begin(&mut self, takes: Takes) -> Stepped
        requires tied { IsTied self.old }
        requires on { self.old.is_over ≡ false }
        requires quiet { letters_of self.old ≡ [] }
        requires none { takes_of self.old.config self.old.takes ≡ [] }
        requires in_rack { AreIn self.old.config takes }
        requires few { length (takes_of self.old.config takes) ≤ 1093 }
        ensures goes { result ≡ Stepped.Goes
            → (self.new ≡ record self.old { lines = self.old.lines + 1; takes = takes })
            × (self.old.lines < 1000000) }
        ensures past { result ≢ Stepped.Goes → (result ≡ Stepped.Past)
            × (self.old.lines ≡ 1000000) × (self.new ≡ self.old) }
        ensures tied { result ≡ Stepped.Goes → IsTied self.new }
    {
        if !self.counts() {
            return Stepped::Past;
        }
        self.takes = takes;
        Stepped::Goes
    }

    // Takes a line. A value is spelled into the room.
    fn take_line<K: Sink>(
        &mut self,
        alloc: Global,
        line: &[u8],
        room: &mut [u8; 1024],
        text: &mut Text,
        page: &mut Page,
        sink: &mut K,
    ) -> Stepped
        requires tied { IsTied self.old }
        requires on { self.old.is_over ≡ false }
        requires quiet { letters_of self.old ≡ [] }
        requires none { takes_of self.old.config self.old.takes ≡ [] }
        ensures took { TookLine serves_rack (Running (racked_of self.old)) line.now result
            (word_of self.new) [] (letters_of self.new)
            page.old page.new (K.held sink.old) (K.held sink.new) }
        ensures tied { result ≡ Stepped.Goes → IsTied self.new }
        ensures less { result ≡ Stepped.Goes → rank_of self.new < rank_of self.old }
        ensures config { self.new.config ≡ self.old.config }
        ensures first { self.new.is_first ≡ self.old.is_first }
        ensures cause { result ≡ Stepped.Unwritten → Rose (K.faults sink.old) (K.faults sink.new) }
        ensures later { K.faults sink.old ≤ K.faults sink.new }
    {
        match rack_entry_of(&self.config, line, room) {
            None => Stepped::Refused,
            Some(entry) => self.read(alloc, &entry, text, page, sink),
        }
    }

    // Takes what it wants next.
    pub(crate) fn take<K: Sink>(
        &mut self,
        alloc: Global,
        taken: Taken<'_>,
        room: &mut [u8; 1024],
        text: &mut Text,
        page: &mut Page,
        sink: &mut K,
    ) -> Stepped
        requires tied { IsTied self.old }
        requires on { self.old.is_over ≡ false }
        requires wanted { MayTake (running_want (takes_of self.old.config self.old.takes)
            self.old.config) taken }
        ensures took { TookInput serves_rack (Running (racked_of self.old)) taken.entry result
            (word_of self.new) [] (letters_of self.new)
            page.old page.new (K.held sink.old) (K.held sink.new) }
        ensures tied { result ≡ Stepped.Goes → IsTied self.new }
        ensures less { result ≡ Stepped.Goes → rank_of self.new < rank_of self.old }
        ensures config { self.new.config ≡ self.old.config }
        ensures first { self.new.is_first ≡ false }
        ensures cause { result ≡ Stepped.Unwritten → Rose (K.faults sink.old) (K.faults sink.new) }
        ensures later { K.faults sink.old ≤ K.faults sink.new }
    {
        self.clear();
        match taken {
            Taken::Line(line) => self.take_line(alloc, line, room, text, page, sink),
            Taken::Datagram(bytes) => self.hear(bytes, text, page, sink),
            Taken::Pause => {
                self.pass();
                Stepped::Goes
            }
            Taken::Step => unreachable!(),
        }
    }
}
