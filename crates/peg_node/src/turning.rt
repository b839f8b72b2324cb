// Nodes that take datagrams, one step for each.
ghost use Rattle.std.specs.Prelude.{◌≡◌, ◌≤◌, ◌+◌, ℕ, List, length, OnOk, true};
ghost use Rattle.peg_name.specs.Name as book;
ghost use Rattle.peg_name.specs.Name.{parts_most};
ghost use Rattle.peg_name.specs.declared.Node as name;
ghost use Rattle.peg_model.specs.Packet.{Packet};
ghost use Rattle.peg_packet.specs.Nodes.{are_in_rack};
ghost use Rattle.peg_packet.specs.Outbox.{posted};

use peg_name::OutOfMemory;
use peg_packet::Post;
use peg_server::Server;
use peg_switch::Switch;

/// A node that takes datagrams.
pub(crate) trait Turning {
    /// The node as the book has it.
    ghost Seen: { Type 0 };

    ghost seen: { Self → Seen };

    ghost rack: { Self → book.Rack };

    /// What comes of a datagram, where so many came before it: the node after, and what it sent.
    ghost turn: { Seen → List ℕ → ℕ → Seen × List (name.Node × Packet) };

    /// How many packets a step may send.
    ghost most: { Self → ℕ };

    /// Takes a datagram.
    fn take(&mut self, bytes: &[u8], before: u64, post: &mut Post) -> Result<(), OutOfMemory>
        requires format { post.old.format ≡ (rack self.old).format }
        requires room { length post.old.items + most self.old ≤ post.old.slots }
        ensures after { OnOk result (seen self.new ≡ (turn (seen self.old) bytes.now before).0) }
        ensures sent { OnOk result
            (post.new ≡ posted post.old (turn (seen self.old) bytes.now before).1) }
        ensures nodes { OnOk result
            (are_in_rack (rack self.old) (turn (seen self.old) bytes.now before).1 ≡ true) }
        ensures rack { rack self.new ≡ rack self.old }
        ensures most { most self.new ≡ most self.old };
}

impl Turning for Server {
    ghost use Rattle.peg_model.specs.Server as server;
    ghost use Rattle.peg_meaning.specs.Roles.{server_turn};

    ghost Seen = { server.Server };

    ghost seen = { λ s. s };

    ghost rack = { λ s. s.rack };

    ghost turn = { server_turn };

    ghost most = { λ _. 1 };

    fn take(&mut self, bytes: &[u8], _before: u64, post: &mut Post) -> Result<(), OutOfMemory> {
        self.step(bytes, post)?;
        Ok(())
    }
}

impl Turning for Switch {
    ghost use Rattle.peg_model.specs.Switch as switch;
    ghost use Rattle.peg_meaning.specs.Roles.{switch_turn};

    ghost Seen = { switch.Switch };

    ghost seen = { λ s. s };

    ghost rack = { λ s. s.rack };

    ghost turn = { switch_turn };

    ghost most = { λ s. parts_most s.rack.format };

    fn take(&mut self, bytes: &[u8], before: u64, post: &mut Post) -> Result<(), OutOfMemory> {
        self.step(bytes, before, post);
        Ok(())
    }
}
