// The session of a replay.
ghost use Rattle.std.specs.Prelude.{◌≡◌, ◌≤◌, ◌<◌, List, ℕ, [], None};
ghost use Rattle.peg_io.specs.Outside.{Rose};
ghost use Rattle.peg_meaning.specs.ReplayWord.{Starting, replays};
ghost use Rattle.peg_session.specs.Took.{TookLine};

use crate::play::Play;
use peg_io::Sink;
use peg_session::{Page, Session, Stepped, Taken, Want};
use peg_text::{Text, rack_of};
use peg_world::World;
use std::alloc::Global;

// A replay: nothing before the rack line.
#[derive(Drop)]
pub(crate) struct Replay {
    alloc: Global,
    play: Option<Play>,
    text: Text,
    // What a value is spelled into, while its event is stepped.
    room: [u8; 1024],
}

impl Replay {
    ghost use Rattle.peg_replay.specs.Playing.{replay_word, are_tied, rank_of};

    pub(crate) fn make(alloc: Global) -> Replay
        ensures { result.play ≡ None }
    {
        Replay {
            alloc,
            play: None,
            text: Text::make(),
            room: [0; 1024],
        }
    }

    // Takes the rack line.
    fn begin<K: Sink>(&mut self, line: &[u8], page: &mut Page, sink: &mut K) -> Stepped
        requires { self.old.play ≡ None }
        ensures took { TookLine replays Starting line.now result
            (replay_word self.new.play) [] [] page.old page.new (K.held sink.old) (K.held sink.new) }
        ensures tied { result ≡ Stepped.Goes → are_tied self.new.play }
        ensures less { result ≡ Stepped.Goes → rank_of self.new.play < 1000005 }
        ensures cause { result ≡ Stepped.Unwritten → Rose (K.faults sink.old) (K.faults sink.new) }
        ensures later { K.faults sink.old ≤ K.faults sink.new }
    {
        let Some(rack) = rack_of(line) else {
            return Stepped::Refused;
        };
        let Ok(world) = World::make(self.alloc, rack.config(), rack.keys()) else {
            return Stepped::OutOfMemory;
        };
        if !page.push(b"1 rack", sink) {
            return Stepped::Unwritten;
        }
        self.play = Some(Play {
            rack,
            world,
            place: 1,
            is_over: false,
        });
        Stepped::Goes
    }
}

impl Session for Replay {
    ghost use Rattle.peg_meaning.specs.ReplayWord.{ReplayWord, ReplayEntry};
    ghost use Rattle.peg_replay.specs.Playing.{replay_word, are_tied, rank_of};

    ghost State = { ReplayWord };

    ghost Entry = { ReplayEntry };

    ghost meaning = { replays };

    ghost state = { λ s. replay_word s.play };

    ghost binds = { λ _. [] };

    ghost letters = { λ _. [] };

    ghost ports = { λ _. 0 };

    ghost holds = { λ s. are_tied s.play };

    ghost rank = { λ s. rank_of s.play };

    fn want(&self) -> Want {
        match &self.play {
            None => Want::Line {
                limit: 2048,
                optional: false,
            },
            Some(play) => play.want(),
        }
    }

    fn bind_count(&self) -> usize {
        0
    }

    fn bind_at(&self, _i: usize) -> u16 {
        0
    }

    fn letter_count(&self) -> usize {
        0
    }

    fn letter_at(&self, _i: usize) -> (u32, u16, &[u8]) {
        (0, 0, &[])
    }

    // It wants lines alone.
    fn take<K: Sink>(&mut self, taken: Taken<'_>, page: &mut Page, sink: &mut K) -> Stepped {
        let Taken::Line(line) = taken else {
            unreachable!()
        };
        match &mut self.play {
            Some(play) => play.take(self.alloc, line, &mut self.room, &mut self.text, page, sink),
            None => self.begin(line, page, sink),
        }
    }
}
