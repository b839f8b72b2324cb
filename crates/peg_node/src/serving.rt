// The session of a node that takes so many turns.
ghost use Rattle.std.specs.Prelude.{◌≡◌, ◌≤◌, ◌<◌, ◌+◌, ◌-◌, ◌^◌, List, ℕ, [], true, false, map, Some};
ghost use Rattle.peg_meaning.specs.Session.{Letter, letter_to, at_port};
ghost use Rattle.peg_meaning.specs.Roles as roles;
ghost use Rattle.peg_meaning.specs.Roles.{serves};
ghost use Rattle.peg_packet.specs.Nodes.{is_in_rack};
ghost use Rattle.peg_session.specs.Ends.{Ended, HasCause, told};
ghost use Rattle.peg_node.specs.Serving.{IsServing, binds_of_first, rank_of};

use crate::outbox::{port, push_datagrams, room_of};
use crate::turning::Turning;
use peg_io::{Sink, Wire};
use peg_name::{Config, Node, OutOfMemory};
use peg_packet::Post;
use peg_session::{End, NoSource, Page, Session, Stepped, Taken, Want, drive};

#[derive(Drop)]
pub(crate) struct Serving<N: Turning + Drop> {
    node: N,
    name: Node,
    config: Config,
    post: Post,
    base: u16,
    left: u32,
    datagrams: u32,
    is_over: bool,
    // Its port isn't bound yet.
    is_first: bool,
}

impl<N: Turning + Drop> Serving<N> {
    // A node that has all of its turns left. The outbox is empty, and has room for a step.
    pub(crate) fn make(
        node: N,
        name: Node,
        config: &Config,
        post: Post,
        base: u16,
        turns: u32,
    ) -> Serving<N>
        requires rack { N.rack node ≡ config.now }
        requires in_rack { is_in_rack config.now name ≡ true }
        requires format { post.format ≡ config.now.format }
        requires empty { post.items ≡ [] }
        requires room { N.most node ≤ post.slots }
        requires low { base ≤ 60000 }
        ensures is { result ≡ record {
          node = node;
          name = name;
          config = config.now;
          post = post;
          base = base;
          left = turns;
          datagrams = 0;
          is_over = false;
          is_first = true;
        } }
        ensures serving { IsServing (N.rack result.node) (N.most result.node) result.config
            result.name result.post result.base result.left result.datagrams }
    {
        Serving {
            node,
            name,
            config: *config,
            post,
            base,
            left: turns,
            datagrams: 0,
            is_over: false,
            is_first: true,
        }
    }

    // Takes its turns, from the first to the last.
    pub(crate) fn serve<K: Sink, W: Wire>(mut self, sink: &mut K, wire: &mut W) -> End
        requires serving { IsServing (N.rack self.node) (N.most self.node) self.config self.name
            self.post self.base self.left self.datagrams }
        requires empty { self.post.items ≡ [] }
        requires none { self.datagrams ≡ 0 }
        requires begins { self.is_over ≡ false }
        requires first { self.is_first ≡ true }
        ensures ended { Ended (serves N.turn)
            (at_port self.base self.name
            (roles.serving (N.seen self.node) self.base self.config.format self.left))
            (told (Some []) (K.held sink.old) (W.carried wire.old) (W.slots wire.old))
            (told (Some []) (K.held sink.new) (W.carried wire.new) (W.slots wire.new)) result }
        ensures cause { HasCause result 0 0 (K.faults sink.old) (K.faults sink.new)
            (W.faults wire.old) (W.faults wire.new) }
    {
        drive(&mut self, &mut NoSource::make(), sink, wire)
    }
}

impl<N: Turning + Drop> Session for Serving<N> {
    ghost State = { roles.Serving N.Seen };

    ghost Entry = { ⊥ };

    ghost meaning = { serves N.turn };

    ghost state = { λ s. record {
      node = N.seen s.node;
      base = s.base;
      format = s.config.format;
      left = s.left;
      datagrams = s.datagrams;
      is_over = s.is_over;
    } };

    ghost binds = { λ s. binds_of_first s.is_first s.base s.name };

    ghost letters = { λ s. map (letter_to 0 s.base) s.post.items };

    ghost ports = { λ _. 1 };

    ghost holds = { λ s. IsServing (N.rack s.node) (N.most s.node) s.config s.name s.post s.base
        s.left s.datagrams };

    ghost rank = { λ s. rank_of s.is_over s.left };

    fn want(&self) -> Want {
        if self.is_over {
            return Want::Over;
        }
        if self.left == 0 {
            return Want::Step;
        }
        let room = room_of(self.config.format());
        Want::Turn { slot: 0, room }
    }

    fn bind_count(&self) -> usize {
        if self.is_first { 1 } else { 0 }
    }

    fn bind_at(&self, _i: usize) -> u16 {
        port(self.base, &self.config, self.name)
    }

    fn letter_count(&self) -> usize {
        self.post.len()
    }

    #[tactic(auto, using(crate::proofs::Outboxes::in_rack_at, crate::proofs::Outboxes::letter_is))]
    fn letter_at(&self, i: usize) -> (u32, u16, &[u8]) {
        if i >= self.post.len() {
            return (0, 0, &[]);
        }
        let (to, bytes) = self.post.item(i);
        (0, port(self.base, &self.config, to), bytes)
    }

    #[tactic(auto, using(crate::proofs::Outboxes::in_rack_items))]
    fn take<K: Sink>(&mut self, taken: Taken<'_>, page: &mut Page, sink: &mut K) -> Stepped {
        self.post.clear();
        match taken {
            // It wants no lines.
            Taken::Line(_) => unreachable!(),
            Taken::Datagram(bytes) => {
                let before = self.datagrams as u64;
                match self.node.take(bytes, before, &mut self.post) {
                    Ok(()) => {
                        self.left -= 1;
                        self.datagrams += 1;
                        self.is_first = false;
                        Stepped::Goes
                    }
                    Err(OutOfMemory) => Stepped::OutOfMemory,
                }
            }
            Taken::Pause => {
                self.left -= 1;
                self.is_first = false;
                Stepped::Goes
            }
            Taken::Step => {
                if !push_datagrams(page, self.datagrams, sink) {
                    return Stepped::Unwritten;
                }
                self.is_over = true;
                self.is_first = false;
                Stepped::Goes
            }
        }
    }
}
