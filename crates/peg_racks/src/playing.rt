// The session of several racks.
ghost use Rattle.std.specs.Prelude.{◌≡◌, ◌≤◌, ◌<◌, List, ℕ, [], None};
ghost use Rattle.peg_io.specs.Outside.{Rose};
ghost use Rattle.peg_meaning.specs.Racks.{Starting, plays_racks};
ghost use Rattle.peg_session.specs.Took.{TookLine};

use crate::divided::Racks;
use crate::play::Play;
use crate::printing::push_count;
use peg_io::Sink;
use peg_session::{Page, Session, Stepped, Taken, Want};
use peg_text::{Text, racks_of};
use std::alloc::Global;

// Nothing before the line that counts the racks.
#[derive(Drop)]
pub(crate) struct Playing {
    alloc: Global,
    play: Option<Play>,
    text: Text,
    // What a value is spelled into, while its event is stepped.
    room: [u8; 1024],
}

impl Playing {
    ghost use Rattle.peg_racks.specs.Playing.{racks_word, are_tied, rank_in};

    pub(crate) fn make(alloc: Global) -> Playing
        ensures { result.play ≡ None }
    {
        Playing {
            alloc,
            play: None,
            text: Text::make(),
            room: [0; 1024],
        }
    }

    // Takes the line that counts the racks.
    fn begin<K: Sink>(&mut self, line: &[u8], page: &mut Page, sink: &mut K) -> Stepped
        requires { self.old.play ≡ None }
        ensures took { TookLine plays_racks Starting line.now result
            (racks_word self.new.play) [] [] page.old page.new (K.held sink.old) (K.held sink.new) }
        ensures tied { result ≡ Stepped.Goes → are_tied self.new.play }
        ensures less { result ≡ Stepped.Goes → rank_in self.new.play < 1000010 }
        ensures cause { result ≡ Stepped.Unwritten → Rose (K.faults sink.old) (K.faults sink.new) }
        ensures later { K.faults sink.old ≤ K.faults sink.new }
    {
        let Some(racks) = racks_of(line) else {
            return Stepped::Refused;
        };
        if !push_count(page, &mut self.text, racks, sink) {
            return Stepped::Unwritten;
        }
        self.play = Some(Play {
            racks: Racks::none(self.alloc),
            unnamed: racks,
            place: 1,
            lines: 0,
            is_over: false,
        });
        Stepped::Goes
    }
}

impl Session for Playing {
    ghost use Rattle.peg_meaning.specs.Racks.{RacksWord, RacksEntry};
    ghost use Rattle.peg_racks.specs.Playing.{racks_word, are_tied, rank_in};

    ghost State = { RacksWord };

    ghost Entry = { RacksEntry };

    ghost meaning = { plays_racks };

    ghost state = { λ s. racks_word s.play };

    ghost binds = { λ _. [] };

    ghost letters = { λ _. [] };

    ghost ports = { λ _. 0 };

    ghost holds = { λ s. are_tied s.play };

    ghost rank = { λ s. rank_in s.play };

    fn want(&self) -> Want {
        match &self.play {
            None => Want::Line {
                limit: 2048,
                optional: false,
            },
            Some(play) => play.want(),
        }
    }

    fn bind_count(&self) -> usize {
        0
    }

    fn bind_at(&self, _i: usize) -> u16 {
        0
    }

    fn letter_count(&self) -> usize {
        0
    }

    fn letter_at(&self, _i: usize) -> (u32, u16, &[u8]) {
        (0, 0, &[])
    }

    // It wants lines alone.
    fn take<K: Sink>(&mut self, taken: Taken<'_>, page: &mut Page, sink: &mut K) -> Stepped {
        let Taken::Line(line) = taken else {
            unreachable!()
        };
        match &mut self.play {
            Some(play) => play.take(self.alloc, line, &mut self.room, &mut self.text, page, sink),
            None => self.begin(line, page, sink),
        }
    }
}
