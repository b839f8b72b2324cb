// The session of a client that asks.
ghost use Rattle.std.specs.Prelude.{◌≡◌, ◌≤◌, ◌<◌, [], true, length};
ghost use Rattle.peg_io.specs.Outside.{Rose};
ghost use Rattle.peg_name.specs.declared.Node.TheVariants as node;
ghost use Rattle.peg_meaning.specs.Roles as roles;
ghost use Rattle.peg_meaning.specs.Roles.{asks};
ghost use Rattle.peg_meaning.specs.Session.{at_port};
ghost use Rattle.peg_session.specs.Took.{TookLine};
ghost use Rattle.peg_session.specs.Ends.{Ended, HasCause, told};
ghost use Rattle.peg_node.specs.Serving.{binds_of_first};
ghost use Rattle.peg_node.specs.Askers.{asker_of, letters_of, asker_rank, IsAsking};

use crate::asked::{Line, asked_of};
use crate::asker::Asker;
use crate::outbox::{port, room_of, switch_port};
use crate::phase::Phase;
use arrayvec::ArrayVec;
use peg_client::Client;
use peg_io::{Sink, Source, Wire};
use peg_name::{ClientId, Config, Node};
use peg_packet::Post;
use peg_session::{End, Page, Session, Stepped, Taken, Want, drive};
use peg_text::Text;

#[derive(Drop)]
pub(crate) struct Asking {
    asker: Asker,
    config: Config,
    id: ClientId,
    // Its port isn't bound yet.
    is_first: bool,
    // What its lines are read into, and what it writes.
    line: Line,
    values: [u8; 1024],
    text: Text,
}

impl Asking {
    // A client that has read nothing.
    pub(crate) fn make(
        client: Client,
        config: &Config,
        id: ClientId,
        post: Post,
        base: u16,
        tries: u32,
        waits: u32,
    ) -> Asking
        requires client { client.format ≡ config.now.format }
        requires within { id < config.now.clients }
        requires format { post.format ≡ client.format }
        requires empty { post.items ≡ [] }
        requires room { 1 ≤ post.slots }
        requires low { base ≤ 60000 }
        requires some_tries { 1 ≤ tries }
        requires few_tries { tries ≤ 100 }
        requires few_waits { waits ≤ 1000 }
        ensures is { result.asker ≡ record {
          client = client;
          post = post;
          base = base;
          tries = tries;
          waits = waits;
          lines = 0;
          phase = Phase.Reading;
        } }
        ensures id { result.id ≡ id }
        ensures first { result.is_first ≡ true }
        ensures asking { IsAsking result.asker result.config result.id }
    {
        let asker = Asker {
            client,
            post,
            base,
            tries,
            waits,
            lines: 0,
            phase: Phase::Reading,
        };
        Asking {
            asker,
            config: *config,
            id,
            is_first: true,
            line: ArrayVec::new(),
            values: [0; 1024],
            text: Text::make(),
        }
    }

    // Reads its lines, from the first to the last.
    pub(crate) fn run<S: Source, K: Sink, W: Wire>(
        mut self,
        source: &mut S,
        sink: &mut K,
        wire: &mut W,
    ) -> End
        requires asking { IsAsking self.asker self.config self.id }
        requires empty { self.asker.post.items ≡ [] }
        requires none { self.asker.lines ≡ 0 }
        requires begins { self.asker.phase ≡ Phase.Reading }
        requires first { self.is_first ≡ true }
        ensures ended { Ended asks
            (at_port self.asker.base (node.Client self.id) (asker_of self.asker))
            (told (S.left source.old) (K.held sink.old) (W.carried wire.old) (W.slots wire.old))
            (told (S.left source.new) (K.held sink.new) (W.carried wire.new) (W.slots wire.new))
            result }
        ensures unbound { W.slots wire.new ≡ W.slots wire.old
            → (source.new ≡ source.old) × (sink.new ≡ sink.old) }
        ensures cause { HasCause result (S.faults source.old) (S.faults source.new)
            (K.faults sink.old) (K.faults sink.new) (W.faults wire.old) (W.faults wire.new) }
    {
        drive(&mut self, source, sink, wire)
    }

    fn take_line<K: Sink>(&mut self, line: &[u8], page: &mut Page, sink: &mut K) -> Stepped
        requires asking { IsAsking self.old.asker self.old.config self.old.id }
        requires empty { self.old.asker.post.items ≡ [] }
        requires reading { self.old.asker.phase ≡ Phase.Reading }
        requires short { length line.now ≤ 4096 }
        ensures took { TookLine asks (asker_of self.old.asker) line.now result
            (asker_of self.new.asker) [] (letters_of self.new.asker)
            page.old page.new (K.held sink.old) (K.held sink.new) }
        ensures asking { result ≡ Stepped.Goes
            → IsAsking self.new.asker self.new.config self.new.id }
        ensures less { result ≡ Stepped.Goes
            → asker_rank self.new.asker < asker_rank self.old.asker }
        ensures first { self.new.is_first ≡ self.old.is_first }
        ensures cause { result ≡ Stepped.Unwritten → Rose (K.faults sink.old) (K.faults sink.new) }
        ensures later { K.faults sink.old ≤ K.faults sink.new }
    {
        match asked_of(&self.config, line, &mut self.line, &mut self.values) {
            None => Stepped::Refused,
            Some((key, ask)) => self.asker.issue(&key, &ask, page, sink),
        }
    }
}

impl Session for Asking {
    ghost State = { roles.Asker };

    ghost Entry = { roles.Asked };

    ghost meaning = { asks };

    ghost state = { λ s. asker_of s.asker };

    ghost binds = { λ s. binds_of_first s.is_first s.asker.base (node.Client s.id) };

    ghost letters = { λ s. letters_of s.asker };

    ghost ports = { λ _. 1 };

    ghost holds = { λ s. IsAsking s.asker s.config s.id };

    ghost rank = { λ s. asker_rank s.asker };

    fn want(&self) -> Want {
        let format = self.config.format();
        self.asker
            .phase
            .want(format.most_of_line(), room_of(format))
    }

    fn bind_count(&self) -> usize {
        if self.is_first { 1 } else { 0 }
    }

    fn bind_at(&self, _i: usize) -> u16 {
        port(self.asker.base, &self.config, Node::Client(self.id))
    }

    fn letter_count(&self) -> usize {
        self.asker.post.len()
    }

    fn letter_at(&self, i: usize) -> (u32, u16, &[u8]) {
        if i >= self.asker.post.len() {
            return (0, 0, &[]);
        }
        let (to, bytes) = self.asker.post.item(i);
        match to {
            Node::Switch(id) => (0, switch_port(self.asker.base, id), bytes),
            // A client sends to switches alone.
            _ => unreachable!(),
        }
    }

    fn take<K: Sink>(&mut self, taken: Taken<'_>, page: &mut Page, sink: &mut K) -> Stepped {
        self.is_first = false;
        self.asker.clear();
        match self.asker.phase {
            Phase::Reading => match taken {
                Taken::Line(line) => self.take_line(line, page, sink),
                _ => unreachable!(),
            },
            Phase::Awaiting { sends, turns } => match taken {
                Taken::Line(_) => unreachable!(),
                Taken::Datagram(bytes) => {
                    self.asker
                        .hear(bytes, sends, turns, &mut self.text, page, sink)
                }
                Taken::Pause => {
                    self.asker.pause(sends, turns);
                    Stepped::Goes
                }
                Taken::Step => self.asker.again(sends, page, sink),
            },
        }
    }
}
