//! Sessions, which say what they take next and what they make of it, and the one loop that carries
//! out a session over a source of lines, a wire of turns and a sink of text.
#![tactic(auto)]

ghost use Rattle.std.specs.Prelude.{◌≡◌, ◌<◌, ◌≤◌, ◌+◌, ℕ, List, length, slice_index, slice_get};
ghost use Rattle.std.specs.Prelude.{Some};
ghost use Rattle.peg_io.specs.Outside.{Rose};
ghost use Rattle.peg_meaning.specs.Session.{Meaning, Letter, letter_read};
ghost use Rattle.peg_session.specs.Took.{MayTake, Takes, WantFits};

use peg_io::Sink;

mod desk;
mod driving;
mod page;
mod silent;
mod weaving;

pub use driving::drive;
pub use page::Page;
pub use peg_meaning::Want;
pub use silent::NoSource;
pub use weaving::weaves_in_one_way;

/// What a session takes.
#[derive(Clone, Copy, Debug)]
pub enum Taken<'a> {
    /// A line of the input, without its line feed.
    Line(&'a [u8]),
    /// A turn that brought a datagram.
    Datagram(&'a [u8]),
    /// A turn in which nothing came.
    Pause,
    /// Nothing: the session makes a step of its own.
    Step,
}

/// What a step came to.
#[derive(Clone, Copy, Debug, PartialEq, Eq)]
pub enum Stepped {
    /// The step was made, and its text lies on the page.
    Goes,
    /// The line is none that is accepted here.
    Refused,
    /// The step would go past a limit.
    Past,
    /// There was no memory for it.
    OutOfMemory,
    /// The sink failed.
    Unwritten,
}

/// How a session ended.
#[derive(Clone, Copy, Debug, PartialEq, Eq)]
pub enum End {
    Done,
    OutOfMemory,
    ReadFault,
    WriteFault,
    WireFault,
    /// This line, from 1, is the first that is missing, too long or not accepted.
    BadInput { line: u64 },
    /// At this line, from 1, a limit is passed.
    TooMuch { line: u64 },
}

/// A session. Its meaning is a fold over what it takes; the methods carry that out.
pub trait Session {
    /// What the fold is over.
    ghost State: { Type 0 };

    /// What a line says.
    ghost Entry: { Type 0 };

    ghost meaning: { Meaning State Entry };

    ghost state: { Self → State };

    /// The ports that are to be bound and the datagrams that are to be sent, by the last step.
    ghost binds: { Self → List ℕ };

    ghost letters: { Self → List Letter };

    /// How many ports are bound, once those are.
    ghost ports: { Self → ℕ };

    /// What each step may rest on and leaves so.
    ghost holds: { Self → Type 0 };

    /// How much is left to be done at most: each step makes it less.
    ghost rank: { Self → ℕ };

    /// What it takes next.
    fn want(&self) -> Want
        requires { holds self.now }
        ensures want { result ≡ meaning.want (state self.now) }
        ensures fits { WantFits result (ports self.now) };

    /// How many ports are to be bound.
    fn bind_count(&self) -> usize
        ensures { result ≡ length (binds self.now) };

    /// The one at this place; past the last it may be any number.
    fn bind_at(&self, i: usize) -> u16
        requires { holds self.now }
        ensures { i < length (binds self.now) → result ≡ slice_index (binds self.now) i };

    /// How many datagrams are to be sent.
    fn letter_count(&self) -> usize
        ensures { result ≡ length (letters self.now) };

    /// The one at this place: the place of the port that it leaves from, the port that it goes to,
    /// its bytes. Past the last it may be any.
    fn letter_at(&self, i: usize) -> (u32, u16, &[u8])
        requires { holds self.now }
        ensures letter { i < length (letters self.now)
            → slice_get (letters self.now) i ≡ Some (letter_read result) }
        ensures slot { i < length (letters self.now) → result.0 < ports self.now };

    /// Takes what it wants next: a line, a turn, or nothing for a step of its own.
    fn take<K: Sink>(&mut self, taken: Taken<'_>, page: &mut Page, sink: &mut K) -> Stepped
        requires holds { holds self.old }
        requires wanted { MayTake (meaning.want (state self.old)) taken }
        ensures took { Takes meaning (state self.old) taken.entry result
            (state self.new) (binds self.new) (letters self.new)
            page.old page.new (K.held sink.old) (K.held sink.new) }
        ensures ports { result ≡ Stepped.Goes
            → ports self.new ≡ ports self.old + length (binds self.new) }
        ensures holds { result ≡ Stepped.Goes → holds self.new }
        ensures rank { result ≡ Stepped.Goes → rank self.new < rank self.old }
        ensures cause { result ≡ Stepped.Unwritten → Rose (K.faults sink.old) (K.faults sink.new) }
        ensures later { K.faults sink.old ≤ K.faults sink.new };
}
