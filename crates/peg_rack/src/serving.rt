// The session of a rack over a wire.
ghost use Rattle.std.specs.Prelude.{◌≡◌, ◌≤◌, ◌<◌, [], None, length};
ghost use Rattle.peg_io.specs.Outside.{Rose};
ghost use Rattle.peg_meaning.specs.RackWord.{serves_rack, Starting};
ghost use Rattle.peg_session.specs.Took.{TookLine};

use crate::places::{count_of, node_at, slot_of};
use crate::rig::Rig;
use crate::takes::Takes;
use peg_index::Index;
use peg_io::Sink;
use peg_name::Node;
use peg_node::port;
use peg_session::{Page, Session, Stepped, Taken, Want};
use peg_text::{Text, rack_of};
use peg_world::World;
use std::alloc::Global;

// Nothing before the rack line.
#[derive(Drop)]
pub(crate) struct Serving {
    alloc: Global,
    base: u16,
    rig: Option<Rig>,
    text: Text,
    // What a value is spelled into, while its event is stepped.
    room: [u8; 1024],
}

impl Serving {
    ghost use Rattle.peg_rack.specs.Racking.{rack_word, letters_in, binds_in, ports_in, rank_in};
    ghost use Rattle.peg_rack.specs.Racking.{AreTied};

    pub(crate) fn make(alloc: Global, base: u16) -> Serving
        ensures base { result.base ≡ base }
        ensures none { result.rig ≡ None }
    {
        Serving {
            alloc,
            base,
            rig: None,
            text: Text::make(),
            room: [0; 1024],
        }
    }

    // Takes the rack line.
    fn begin<K: Sink>(&mut self, line: &[u8], page: &mut Page, sink: &mut K) -> Stepped
        requires none { self.old.rig ≡ None }
        requires low { self.old.base ≤ 60000 }
        ensures took { TookLine serves_rack (Starting self.old.base) line.now result
            (rack_word self.new.base self.new.rig) (binds_in self.new.rig) (letters_in self.new.rig)
            page.old page.new (K.held sink.old) (K.held sink.new) }
        ensures tied { result ≡ Stepped.Goes → AreTied self.new.base self.new.rig }
        ensures ports { result ≡ Stepped.Goes
            → ports_in self.new.rig ≡ length (binds_in self.new.rig) }
        ensures less { result ≡ Stepped.Goes → rank_in self.new.rig < 2000000000 }
        ensures cause { result ≡ Stepped.Unwritten → Rose (K.faults sink.old) (K.faults sink.new) }
        ensures later { K.faults sink.old ≤ K.faults sink.new }
    {
        let Some(rack) = rack_of(line) else {
            return Stepped::Refused;
        };
        let config = *rack.config();
        let Ok(world) = World::make(self.alloc, &config, rack.keys()) else {
            return Stepped::OutOfMemory;
        };
        let Ok(index) = Index::make(self.alloc) else {
            return Stepped::OutOfMemory;
        };
        if !page.push(b"1 rack", sink) {
            return Stepped::Unwritten;
        }
        self.rig.insert(Rig {
            base: self.base,
            config,
            world,
            index,
            place: 1,
            foreign: 0,
            lines: 0,
            takes: Takes::Nothing,
            actor: Node::Controller,
            sent_from: 0,
            is_first: true,
            is_over: false,
        });
        Stepped::Goes
    }
}

impl Session for Serving {
    ghost use Rattle.peg_meaning.specs.RackWord.{RackWord, RackEntry};
    ghost use Rattle.peg_rack.specs.Racking.{rack_word, letters_in, binds_in, ports_in, rank_in};
    ghost use Rattle.peg_rack.specs.Racking.{AreTied};

    ghost State = { RackWord };

    ghost Entry = { RackEntry };

    ghost meaning = { serves_rack };

    ghost state = { λ s. rack_word s.base s.rig };

    ghost binds = { λ s. binds_in s.rig };

    ghost letters = { λ s. letters_in s.rig };

    ghost ports = { λ s. ports_in s.rig };

    ghost holds = { λ s. AreTied s.base s.rig };

    ghost rank = { λ s. rank_in s.rig };

    fn want(&self) -> Want {
        match &self.rig {
            None => Want::Line {
                limit: 2048,
                optional: false,
            },
            Some(rig) => rig.want(),
        }
    }

    fn bind_count(&self) -> usize {
        match &self.rig {
            Some(rig) if rig.is_first => count_of(&rig.config) as usize,
            _ => 0,
        }
    }

    fn bind_at(&self, i: usize) -> u16 {
        let Some(rig) = &self.rig else {
            return 0;
        };
        if i >= count_of(&rig.config) as usize {
            return 0;
        }
        port(rig.base, &rig.config, node_at(&rig.config, i as u32))
    }

    fn letter_count(&self) -> usize {
        match &self.rig {
            Some(rig) => rig.world.packets().saturating_sub(rig.sent_from) as usize,
            None => 0,
        }
    }

    fn letter_at(&self, i: usize) -> (u32, u16, &[u8]) {
        let Some(rig) = &self.rig else {
            return (0, 0, &[]);
        };
        let count = rig.world.packets().saturating_sub(rig.sent_from);
        if i >= count as usize {
            return (0, 0, &[]);
        }
        let (to, bytes) = rig.world.soup().get(rig.sent_from + i as u32);
        (
            slot_of(&rig.config, &rig.actor),
            port(rig.base, &rig.config, to),
            bytes,
        )
    }

    fn take<K: Sink>(&mut self, taken: Taken<'_>, page: &mut Page, sink: &mut K) -> Stepped {
        match &mut self.rig {
            Some(rig) => {
                if rig.is_over {
                    unreachable!()
                }
                rig.take(
                    self.alloc,
                    taken,
                    &mut self.room,
                    &mut self.text,
                    page,
                    sink,
                )
            }
            None => match taken {
                Taken::Line(line) => self.begin(line, page, sink),
                _ => unreachable!(),
            },
        }
    }
}
