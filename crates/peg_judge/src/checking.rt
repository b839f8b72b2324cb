// The session of a check.
ghost use Rattle.std.specs.Prelude.{◌≡◌, ◌≤◌, ◌<◌, ◌+◌, ◌-◌, List, ℕ, Option, [], None, length};
ghost use Rattle.std.specs.Bool.{OnTrue, OnFalse};
ghost use Rattle.peg_io.specs.Outside.{Rose};
ghost use Rattle.peg_model.specs.Judge.{IsSkipped};
ghost use Rattle.peg_meaning.specs.CheckWord.{judges, Skipping};
ghost use Rattle.peg_meaning.specs.CheckWord.{check_want};
ghost use Rattle.peg_meaning.specs.Session.{IsLineOf};
ghost use Rattle.peg_session.specs.Took.{TookLine};
ghost use Rattle.peg_judge.specs.Judging.{SaysFront};

use crate::numbers::number_behind;
use crate::reading::Reading;
use peg_io::Sink;
use peg_session::{Page, Session, Stepped, Taken, Want};
use peg_text::Text;
use std::alloc::Global;

// What a line before the operations says: nothing, or how many operations there are.
#[derive(Clone, Copy)]
enum Front {
    Skipped,
    History(u32),
}

// Whether it is a line of a trace.
fn is_skipped(line: &[u8]) -> bool
    ensures yes { OnTrue result (IsSkipped line.now) }
    ensures no { OnFalse result (IsSkipped line.now → ⊥) }
{
    let [first, rest @ ..] = line else {
        return false;
    };
    first.is_ascii_digit() && rest.len() < 4096 && !rest.contains(&b'\n')
}

fn front_of(line: &[u8]) -> Option<Front>
    ensures { SaysFront result line.now }
{
    if is_skipped(line) {
        return Some(Front::Skipped);
    }
    let count = number_behind(b"history ", line)?;
    if count <= 200_000 {
        Some(Front::History(count as u32))
    } else {
        None
    }
}

// A check: how many lines were taken, and what was read behind the line history.
#[derive(Drop)]
pub(crate) struct Check {
    alloc: Global,
    lines: u64,
    reading: Option<Reading>,
    // What an order's line is printed into, and a content spelled.
    text: Text,
    room: [u8; 1024],
}

impl Check {
    ghost use Rattle.peg_judge.specs.Judging.{checker_of, stage_of, are_tied, IsChecking};

    pub(crate) fn make(alloc: Global) -> Check
        ensures lines { result.lines ≡ 0 }
        ensures reading { result.reading ≡ None }
    {
        Check {
            alloc,
            lines: 0,
            reading: None,
            text: Text::make(),
            room: [0; 1024],
        }
    }

    // Takes a line before the operations.
    fn begin(&mut self, line: &[u8]) -> Stepped
        requires few { self.old.lines ≤ 2000000 }
        requires none { self.old.reading ≡ None }
        requires tied { are_tied self.old.reading }
        ensures took { (page : List ℕ) (held : Option (List ℕ)) → TookLine judges
            (record { lines = self.old.lines; stage = Skipping }) line.now result
            (checker_of (self.old.lines + 1) self.new.reading) [] [] page page held held }
        ensures tied { result ≡ Stepped.Goes → are_tied self.new.reading }
        ensures few { result ≡ Stepped.Goes → self.old.lines < 2000000 }
        ensures lines { self.new.lines ≡ self.old.lines }
        ensures written { result ≡ Stepped.Unwritten → ⊥ }
    {
        let Some(front) = front_of(line) else {
            return Stepped::Refused;
        };
        if self.lines == 2_000_000 {
            return Stepped::Past;
        }
        let Front::History(count) = front else {
            return Stepped::Goes;
        };
        self.reading = Some(Reading::make(self.alloc, count));
        Stepped::Goes
    }

    // Takes a line.
    fn take_line<K: Sink>(&mut self, line: &[u8], page: &mut Page, sink: &mut K) -> Stepped
        requires holds { IsChecking self.old }
        requires wanted { IsLineOf (check_want (stage_of self.old.reading)) (length line.now) }
        ensures took { TookLine judges (checker_of self.old.lines self.old.reading) line.now result
            (checker_of (self.old.lines + 1) self.new.reading) [] []
            page.old page.new (K.held sink.old) (K.held sink.new) }
        ensures tied { result ≡ Stepped.Goes → are_tied self.new.reading }
        ensures few { result ≡ Stepped.Goes → self.old.lines < 2000000 }
        ensures lines { self.new.lines ≡ self.old.lines }
        ensures cause { result ≡ Stepped.Unwritten → Rose (K.faults sink.old) (K.faults sink.new) }
        ensures later { K.faults sink.old ≤ K.faults sink.new }
    {
        match &mut self.reading {
            Some(reading) => {
                reading.take(self.lines, line, &mut self.room, &mut self.text, page, sink)
            }
            None => self.begin(line),
        }
    }
}

impl Session for Check {
    ghost use Rattle.peg_meaning.specs.CheckWord.{Checker, CheckEntry};
    ghost use Rattle.peg_judge.specs.Judging.{checker_of, IsChecking};

    ghost State = { Checker };

    ghost Entry = { CheckEntry };

    ghost meaning = { judges };

    ghost state = { λ s. checker_of s.lines s.reading };

    ghost binds = { λ _. [] };

    ghost letters = { λ _. [] };

    ghost ports = { λ _. 0 };

    ghost holds = { IsChecking };

    ghost rank = { λ s. 2000001 - s.lines };

    fn want(&self) -> Want {
        match &self.reading {
            Some(reading) => reading.want(),
            None => Want::Line {
                limit: 4096,
                optional: false,
            },
        }
    }

    fn bind_count(&self) -> usize {
        0
    }

    fn bind_at(&self, _i: usize) -> u16 {
        0
    }

    fn letter_count(&self) -> usize {
        0
    }

    fn letter_at(&self, _i: usize) -> (u32, u16, &[u8]) {
        (0, 0, &[])
    }

    // It wants lines alone.
    fn take<K: Sink>(&mut self, taken: Taken<'_>, page: &mut Page, sink: &mut K) -> Stepped {
        let Taken::Line(line) = taken else {
            unreachable!()
        };
        let stepped = self.take_line(line, page, sink);
        self.lines += 1;
        stepped
    }
}
