// The session of the controller.
ghost use Rattle.std.specs.Prelude.{◌≡◌, ◌≤◌, ◌<◌, [], true, false};
ghost use Rattle.peg_io.specs.Outside.{Rose};
ghost use Rattle.peg_name.specs.declared.Node.TheVariants as node;
ghost use Rattle.peg_meaning.specs.Roles as roles;
ghost use Rattle.peg_meaning.specs.Roles.{controls};
ghost use Rattle.peg_meaning.specs.Session.{at_port};
ghost use Rattle.peg_session.specs.Took.{TookLine};
ghost use Rattle.peg_session.specs.Ends.{Ended, HasCause, told};
ghost use Rattle.peg_node.specs.Serving.{binds_of_first};
ghost use Rattle.peg_node.specs.Consoles.{console_of, letters_of, console_rank, IsControlling};

use crate::calls::call_of;
use crate::console::Console;
use crate::outbox::{port, room_of};
use crate::phase::Phase;
use peg_control::Controller;
use peg_io::{Sink, Source, Wire};
use peg_name::{Config, Node};
use peg_packet::Post;
use peg_session::{End, Page, Session, Stepped, Taken, Want, drive};
use peg_text::Text;

#[derive(Drop)]
pub(crate) struct Controlling {
    console: Console,
    config: Config,
    // Its port isn't bound yet.
    is_first: bool,
    text: Text,
}

impl Controlling {
    // A controller that has read nothing.
    pub(crate) fn make(
        controller: Controller,
        config: &Config,
        post: Post,
        base: u16,
        tries: u32,
        waits: u32,
    ) -> Controlling
        requires rack { controller.rack ≡ config.now }
        requires format { post.format ≡ config.now.format }
        requires empty { post.items ≡ [] }
        requires room { config.now.clients < post.slots }
        requires low { base ≤ 60000 }
        requires some_tries { 1 ≤ tries }
        requires few_tries { tries ≤ 100 }
        requires few_waits { waits ≤ 1000 }
        ensures is { result.console ≡ record {
          controller = controller;
          post = post;
          base = base;
          tries = tries;
          waits = waits;
          lines = 0;
          is_surveying = false;
          phase = Phase.Reading;
        } }
        ensures first { result.is_first ≡ true }
        ensures controlling { IsControlling result.console result.config }
    {
        let console = Console {
            controller,
            post,
            base,
            tries,
            waits,
            lines: 0,
            is_surveying: false,
            phase: Phase::Reading,
        };
        Controlling {
            console,
            config: *config,
            is_first: true,
            text: Text::make(),
        }
    }

    // Reads its lines, from the first to the last.
    pub(crate) fn run<S: Source, K: Sink, W: Wire>(
        mut self,
        source: &mut S,
        sink: &mut K,
        wire: &mut W,
    ) -> End
        requires controlling { IsControlling self.console self.config }
        requires empty { self.console.post.items ≡ [] }
        requires none { self.console.lines ≡ 0 }
        requires begins { self.console.phase ≡ Phase.Reading }
        requires first { self.is_first ≡ true }
        ensures ended { Ended controls
            (at_port self.console.base node.Controller (console_of self.console))
            (told (S.left source.old) (K.held sink.old) (W.carried wire.old) (W.slots wire.old))
            (told (S.left source.new) (K.held sink.new) (W.carried wire.new) (W.slots wire.new))
            result }
        ensures unbound { W.slots wire.new ≡ W.slots wire.old
            → (source.new ≡ source.old) × (sink.new ≡ sink.old) }
        ensures cause { HasCause result (S.faults source.old) (S.faults source.new)
            (K.faults sink.old) (K.faults sink.new) (W.faults wire.old) (W.faults wire.new) }
    {
        drive(&mut self, source, sink, wire)
    }

    fn take_line<K: Sink>(&mut self, line: &[u8], page: &mut Page, sink: &mut K) -> Stepped
        requires controlling { IsControlling self.old.console self.old.config }
        requires empty { self.old.console.post.items ≡ [] }
        requires reading { self.old.console.phase ≡ Phase.Reading }
        ensures took { TookLine controls (console_of self.old.console) line.now result
            (console_of self.new.console) [] (letters_of self.new.console)
            page.old page.new (K.held sink.old) (K.held sink.new) }
        ensures controlling { result ≡ Stepped.Goes
            → IsControlling self.new.console self.new.config }
        ensures less { result ≡ Stepped.Goes
            → console_rank self.new.console < console_rank self.old.console }
        ensures first { self.new.is_first ≡ self.old.is_first }
        ensures cause { result ≡ Stepped.Unwritten → Rose (K.faults sink.old) (K.faults sink.new) }
        ensures later { K.faults sink.old ≤ K.faults sink.new }
    {
        match call_of(&self.config, line) {
            None => Stepped::Refused,
            Some(call) => self.console.call(&call, &mut self.text, page, sink),
        }
    }
}

impl Session for Controlling {
    ghost State = { roles.Console };

    ghost Entry = { roles.Call };

    ghost meaning = { controls };

    ghost state = { λ s. console_of s.console };

    ghost binds = { λ s. binds_of_first s.is_first s.console.base node.Controller };

    ghost letters = { λ s. letters_of s.console };

    ghost ports = { λ _. 1 };

    ghost holds = { λ s. IsControlling s.console s.config };

    ghost rank = { λ s. console_rank s.console };

    fn want(&self) -> Want {
        self.console.phase.want(2048, room_of(self.config.format()))
    }

    fn bind_count(&self) -> usize {
        if self.is_first { 1 } else { 0 }
    }

    fn bind_at(&self, _i: usize) -> u16 {
        port(self.console.base, &self.config, Node::Controller)
    }

    fn letter_count(&self) -> usize {
        self.console.post.len()
    }

    fn letter_at(&self, i: usize) -> (u32, u16, &[u8]) {
        if i >= self.console.post.len() {
            return (0, 0, &[]);
        }
        let (to, bytes) = self.console.post.item(i);
        (0, port(self.console.base, &self.config, to), bytes)
    }

    fn take<K: Sink>(&mut self, taken: Taken<'_>, page: &mut Page, sink: &mut K) -> Stepped {
        self.is_first = false;
        self.console.clear();
        match self.console.phase {
            Phase::Reading => match taken {
                Taken::Line(line) => self.take_line(line, page, sink),
                _ => unreachable!(),
            },
            Phase::Awaiting { sends, turns } => match taken {
                Taken::Line(_) => unreachable!(),
                Taken::Datagram(bytes) => {
                    self.console
                        .hear(bytes, sends, turns, &mut self.text, page, sink)
                }
                Taken::Pause => {
                    self.console.pause(sends, turns);
                    Stepped::Goes
                }
                Taken::Step => self.console.again(sends, &mut self.text, page, sink),
            },
        }
    }
}
