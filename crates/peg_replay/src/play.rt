// A schedule behind its rack line.
ghost use Rattle.std.specs.Prelude.{◌≡◌, ◌≤◌, ◌<◌, ◌+◌, ℕ, [], false, true};
ghost use Rattle.peg_model.specs.Schedule.{EventInRack};
ghost use Rattle.peg_io.specs.Outside.{Rose};
ghost use Rattle.peg_meaning.specs.Session as session;
ghost use Rattle.peg_meaning.specs.ReplayWord.{Happens, Ends, replays, replay_want};
ghost use Rattle.peg_session.specs.Took.{Took, TookLine, WantFits};

use peg_event::Event;
use peg_io::Sink;
use peg_print::{prints_orders_of_the_book, push_end, push_line, push_tail};
use peg_session::{Page, Stepped, Want};
use peg_text::{Entry, Rack, Text, event_of};
use peg_world::{Halt, World};
use std::alloc::Global;

// The place is that of the last line that was stepped.
#[derive(Drop)]
pub(crate) struct Play {
    pub(crate) rack: Rack,
    pub(crate) world: World,
    pub(crate) place: u64,
    pub(crate) is_over: bool,
}

impl Play {
    ghost use Rattle.peg_replay.specs.Playing.{word_of, IsTied, rank_at, SaysLine, InRack};

    // Steps an event.
    fn step<K: Sink>(
        &mut self,
        event: &Event<'_>,
        text: &mut Text,
        page: &mut Page,
        sink: &mut K,
    ) -> Stepped
        requires tied { IsTied self.old }
        requires on { self.old.is_over ≡ false }
        requires in_rack { EventInRack self.old.rack.0 event.now }
        ensures took { Took replays (word_of self.old) (session.Entry (Happens event.now)) result
            (word_of self.new) [] [] page.old page.new (K.held sink.old) (K.held sink.new) }
        ensures tied { result ≡ Stepped.Goes → IsTied self.new }
        ensures on { self.new.is_over ≡ false }
        ensures place { result ≡ Stepped.Goes → self.new.place ≡ self.old.place + 1 }
        ensures cause { result ≡ Stepped.Unwritten → Rose (K.faults sink.old) (K.faults sink.new) }
        ensures later { K.faults sink.old ≤ K.faults sink.new }
    {
        let place = self.place + 1;
        match self.world.step(place, event) {
            Ok(()) => {
                self.place = place;
                if push_line(page, text, place, &self.world.line(), sink) {
                    Stepped::Goes
                } else {
                    Stepped::Unwritten
                }
            }
            Err(Halt::OutOfMemory) => Stepped::OutOfMemory,
            Err(Halt::TooMuch) => Stepped::Past,
        }
    }

    // Writes the line end, the history and the orders.
    fn end<K: Sink>(
        &mut self,
        alloc: Global,
        text: &mut Text,
        page: &mut Page,
        sink: &mut K,
    ) -> Stepped
        requires tied { IsTied self.old }
        requires on { self.old.is_over ≡ false }
        ensures took { Took replays (word_of self.old) (session.Entry Ends) result
            (word_of self.new) [] [] page.old page.new (K.held sink.old) (K.held sink.new) }
        ensures tied { result ≡ Stepped.Goes → IsTied self.new }
        ensures over { result ≡ Stepped.Goes → self.new.is_over ≡ true }
        ensures cause { result ≡ Stepped.Unwritten → Rose (K.faults sink.old) (K.faults sink.new) }
        ensures later { K.faults sink.old ≤ K.faults sink.new }
    {
        let Ok(orders) = self.world.orders(alloc) else {
            return Stepped::OutOfMemory;
        };
        prints_orders_of_the_book();
        if !push_end(page, text, self.place + 1, sink) {
            return Stepped::Unwritten;
        }
        if !push_tail(page, text, self.world.history(), &orders, sink) {
            return Stepped::Unwritten;
        }
        self.is_over = true;
        Stepped::Goes
    }

    // What is wanted.
    pub(crate) fn want(&self) -> Want
        ensures want { result ≡ replay_want (word_of self.now) }
        ensures fits { WantFits result 0 }
    {
        if self.is_over {
            return Want::Over;
        }
        Want::Line {
            limit: self.rack.config().format().most_of_line(),
            optional: false,
        }
    }

    // What a line says.
    fn says<'a>(&self, line: &'a [u8], room: &'a mut [u8; 1024]) -> Option<Entry<'a>>
        requires { self.now.is_over ≡ false }
        ensures says { SaysLine result (word_of self.now) line.entry.now }
        ensures in_rack { InRack result self.now.rack.0 }
    {
        event_of(self.rack.config(), line, room)
    }

    // Takes a line. A value is spelled into the room.
    pub(crate) fn take<K: Sink>(
        &mut self,
        alloc: Global,
        line: &[u8],
        room: &mut [u8; 1024],
        text: &mut Text,
        page: &mut Page,
        sink: &mut K,
    ) -> Stepped
        requires tied { IsTied self.old }
        requires on { self.old.is_over ≡ false }
        ensures took { TookLine replays (word_of self.old) line.now result
            (word_of self.new) [] [] page.old page.new (K.held sink.old) (K.held sink.new) }
        ensures tied { result ≡ Stepped.Goes → IsTied self.new }
        ensures less { result ≡ Stepped.Goes → (rank_at self.new.is_over self.new.place)
            < rank_at self.old.is_over self.old.place }
        ensures cause { result ≡ Stepped.Unwritten → Rose (K.faults sink.old) (K.faults sink.new) }
        ensures later { K.faults sink.old ≤ K.faults sink.new }
    {
        match self.says(line, room) {
            None => Stepped::Refused,
            Some(Entry::Event(event)) => self.step(&event, text, page, sink),
            Some(Entry::End) => self.end(alloc, text, page, sink),
        }
    }
}
