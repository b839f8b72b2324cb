// Several racks behind the line that counts them.
ghost use Rattle.std.specs.Prelude.{◌≡◌, ◌≤◌, ◌<◌, ◌+◌, ℕ, Some, [], false, true, length, slice_get};
ghost use Rattle.peg_model.specs.Schedule.{EventInRack};
ghost use Rattle.peg_io.specs.Outside.{Rose};
ghost use Rattle.peg_meaning.specs.Session as session;
ghost use Rattle.peg_meaning.specs.Racks.{Happens, End, plays_racks, racks_want, event_in};
ghost use Rattle.peg_world.specs.Running.{Running};
ghost use Rattle.peg_session.specs.Took.{Took, TookLine, WantFits};
ghost use Rattle.peg_text.specs.Divides.{event_said};
ghost use Rattle.peg_racks.specs.Worlds.{taking};

use crate::divided::Racks;
use crate::printing::{orders_of, push_rack, push_tails, push_taken};
use peg_io::Sink;
use peg_print::push_end;
use peg_session::{Page, Stepped, Want};
use peg_text::{RacksEvent, RacksLine, Text, rack_of, racks_line_of};
use peg_world::Halt;
use std::alloc::Global;

// The most lines behind the rack lines.
const LINES_MOST: u32 = 1_000_000;

// The place is that of the last line.
#[derive(Drop)]
pub(crate) struct Play {
    pub(crate) racks: Racks,
    // The rack lines that are still to come.
    pub(crate) unnamed: u8,
    pub(crate) place: u64,
    pub(crate) lines: u32,
    pub(crate) is_over: bool,
}

impl Play {
    ghost use Rattle.peg_racks.specs.Playing.{word_of, IsTied, rank_of, IsTaken};

    // Takes a rack line.
    fn name<K: Sink>(
        &mut self,
        alloc: Global,
        line: &[u8],
        text: &mut Text,
        page: &mut Page,
        sink: &mut K,
    ) -> Stepped
        requires tied { IsTied self.old }
        requires on { self.old.is_over ≡ false }
        requires some { 1 ≤ self.old.unnamed }
        ensures took { TookLine plays_racks (word_of self.old) line.now result
            (word_of self.new) [] [] page.old page.new (K.held sink.old) (K.held sink.new) }
        ensures tied { result ≡ Stepped.Goes → IsTied self.new }
        ensures less { result ≡ Stepped.Goes → rank_of self.new < rank_of self.old }
        ensures cause { result ≡ Stepped.Unwritten → Rose (K.faults sink.old) (K.faults sink.new) }
        ensures later { K.faults sink.old ≤ K.faults sink.new }
    {
        let Some(rack) = rack_of(line) else {
            return Stepped::Refused;
        };
        let Ok(()) = self.racks.add(alloc, &rack) else {
            return Stepped::OutOfMemory;
        };
        self.unnamed -= 1;
        self.place += 1;
        if push_rack(page, text, self.place, sink) {
            Stepped::Goes
        } else {
            Stepped::Unwritten
        }
    }

    // Steps an event at the rack that takes it.
    fn step<K: Sink>(
        &mut self,
        event: &RacksEvent<'_>,
        text: &mut Text,
        page: &mut Page,
        sink: &mut K,
    ) -> Stepped
        requires tied { IsTied self.old }
        requires on { self.old.is_over ≡ false }
        requires named { self.old.unnamed ≡ 0 }
        requires taken { IsTaken self.old.racks (event_said event.now) }
        ensures took { Took plays_racks (word_of self.old)
            (session.Entry (Happens (event_said event.now))) result
            (word_of self.new) [] [] page.old page.new (K.held sink.old) (K.held sink.new) }
        ensures tied { result ≡ Stepped.Goes → IsTied self.new }
        ensures less { result ≡ Stepped.Goes → rank_of self.new < rank_of self.old }
        ensures cause { result ≡ Stepped.Unwritten → Rose (K.faults sink.old) (K.faults sink.new) }
        ensures later { K.faults sink.old ≤ K.faults sink.new }
    {
        if self.lines == LINES_MOST {
            return Stepped::Past;
        }
        let place = self.place + 1;
        let rack = match self.racks.step(place, event) {
            Ok(rack) => rack,
            Err(Halt::OutOfMemory) => return Stepped::OutOfMemory,
            Err(Halt::TooMuch) => return Stepped::Past,
        };
        self.place = place;
        self.lines += 1;
        if push_taken(page, text, place, rack, &self.racks.line(rack), sink) {
            Stepped::Goes
        } else {
            Stepped::Unwritten
        }
    }

    // Writes the line end, and the history and the orders of each rack.
    fn end<K: Sink>(
        &mut self,
        alloc: Global,
        text: &mut Text,
        page: &mut Page,
        sink: &mut K,
    ) -> Stepped
        requires tied { IsTied self.old }
        requires on { self.old.is_over ≡ false }
        ensures took { Took plays_racks (word_of self.old) (session.Entry End) result
            (word_of self.new) [] [] page.old page.new (K.held sink.old) (K.held sink.new) }
        ensures tied { result ≡ Stepped.Goes → IsTied self.new }
        ensures less { result ≡ Stepped.Goes → rank_of self.new < rank_of self.old }
        ensures cause { result ≡ Stepped.Unwritten → Rose (K.faults sink.old) (K.faults sink.new) }
        ensures later { K.faults sink.old ≤ K.faults sink.new }
    {
        let Ok(orders) = orders_of(alloc, &self.racks) else {
            return Stepped::OutOfMemory;
        };
        if !push_end(page, text, self.place + 1, sink) {
            return Stepped::Unwritten;
        }
        if !push_tails(page, text, &self.racks, orders.as_slice(), sink) {
            return Stepped::Unwritten;
        }
        self.is_over = true;
        Stepped::Goes
    }

    // What is wanted.
    pub(crate) fn want(&self) -> Want
        ensures want { result ≡ racks_want (word_of self.now) }
        ensures fits { WantFits result 0 }
    {
        if self.is_over {
            return Want::Over;
        }
        if self.unnamed > 0 {
            return Want::Line {
                limit: 2048,
                optional: false,
            };
        }
        Want::Line {
            limit: self.racks.most_of_line(),
            optional: false,
        }
    }

    // Takes a line behind the rack lines. A value is spelled into the room.
    fn read<K: Sink>(
        &mut self,
        alloc: Global,
        line: &[u8],
        room: &mut [u8; 1024],
        text: &mut Text,
        page: &mut Page,
        sink: &mut K,
    ) -> Stepped
        requires tied { IsTied self.old }
        requires on { self.old.is_over ≡ false }
        requires named { self.old.unnamed ≡ 0 }
        ensures took { TookLine plays_racks (word_of self.old) line.now result
            (word_of self.new) [] [] page.old page.new (K.held sink.old) (K.held sink.new) }
        ensures tied { result ≡ Stepped.Goes → IsTied self.new }
        ensures less { result ≡ Stepped.Goes → rank_of self.new < rank_of self.old }
        ensures cause { result ≡ Stepped.Unwritten → Rose (K.faults sink.old) (K.faults sink.new) }
        ensures later { K.faults sink.old ≤ K.faults sink.new }
    {
        let Some(says) = racks_line_of(self.racks.configs(), line, room) else {
            return Stepped::Refused;
        };
        match &says {
            RacksLine::Event(event) => self.step(event, text, page, sink),
            RacksLine::End => self.end(alloc, text, page, sink),
        }
    }

    // Takes a line.
    pub(crate) fn take<K: Sink>(
        &mut self,
        alloc: Global,
        line: &[u8],
        room: &mut [u8; 1024],
        text: &mut Text,
        page: &mut Page,
        sink: &mut K,
    ) -> Stepped
        requires tied { IsTied self.old }
        requires on { self.old.is_over ≡ false }
        ensures took { TookLine plays_racks (word_of self.old) line.now result
            (word_of self.new) [] [] page.old page.new (K.held sink.old) (K.held sink.new) }
        ensures tied { result ≡ Stepped.Goes → IsTied self.new }
        ensures less { result ≡ Stepped.Goes → rank_of self.new < rank_of self.old }
        ensures cause { result ≡ Stepped.Unwritten → Rose (K.faults sink.old) (K.faults sink.new) }
        ensures later { K.faults sink.old ≤ K.faults sink.new }
    {
        if self.unnamed > 0 {
            self.name(alloc, line, text, page, sink)
        } else {
            self.read(alloc, line, room, text, page, sink)
        }
    }
}
