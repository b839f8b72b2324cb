//! What the acknowledgement of a command makes of a controller.

ghost use Rattle.std.specs.Prelude.{◌≡◌, ◌≤◌, ◌<◌, ◌+◌, ◌-◌, ◌^◌, ◌&&◌, Some, length, true, false};
ghost use Rattle.std.specs.Prelude.{nat_le};
ghost use Rattle.peg_model.specs.Controller.{acknowledged, takes, learned, is_strange, is_listed};
ghost use Rattle.peg_model.specs.Controller.{belongs, what_of};
ghost use Rattle.peg_model.specs.Datagrams.{are_packets};
ghost use Rattle.peg_packet.specs.Nodes.{are_in_rack};
ghost use Rattle.peg_packet.specs.Outbox.{posted};
ghost use Rattle.peg_control.specs.Fits.{command_fits, most_epoch};

use crate::Controller;
use peg_event::{Command, ControlDid, Outcome};
use peg_packet::Post;

impl Controller {
    /// Takes the acknowledgement of a command.
    pub(crate) fn acknowledge(
        &mut self,
        number: u64,
        outcome: &Outcome,
        post: &mut Post,
    ) -> ControlDid
        requires format { post.old.format ≡ self.old.rack.format }
        requires room { length post.old.items + self.old.rack.clients < post.old.slots }
        ensures answer { result
            ≡ (acknowledged self.old.pending self.old.rack self.old number outcome.now).did }
        ensures after { self.new
            ≡ (acknowledged self.old.pending self.old.rack self.old number outcome.now).state }
        ensures sent { post.new ≡ posted post.old
            (acknowledged self.old.pending self.old.rack self.old number outcome.now).sent }
        ensures packets { are_packets self.old.rack.format
            (acknowledged self.old.pending self.old.rack self.old number outcome.now).sent ≡ true }
        ensures nodes { are_in_rack self.old.rack
            (acknowledged self.old.pending self.old.rack self.old number outcome.now).sent ≡ true }
        ensures rack { self.new.rack ≡ self.old.rack }
    {
        let Some(command) = self.orders.pending() else {
            return ControlDid::Ignored;
        };
        if number != self.orders.last() {
            return ControlDid::Ignored;
        }
        if self.is_strange(&command, outcome) {
            return ControlDid::OutOfPlace;
        }
        self.finish(&command, outcome, post);
        ControlDid::Took {
            number,
            outcome: *outcome,
        }
    }

    /// Takes the outcome of the pending command, and begins the next one that waits.
    fn finish(&mut self, command: &Command, outcome: &Outcome, post: &mut Post)
        requires format { post.old.format ≡ self.old.rack.format }
        requires room { length post.old.items + self.old.rack.clients < post.old.slots }
        requires pending { self.old.pending ≡ Some command.now }
        requires fits { is_strange self.old.rack self.old command.now outcome.now ≡ false }
        ensures after { self.new
            ≡ (takes self.old.rack self.old command.now outcome.now).state }
        ensures sent { post.new ≡ posted post.old
            (takes self.old.rack self.old command.now outcome.now).sent }
        ensures packets { are_packets self.old.rack.format
            (takes self.old.rack self.old command.now outcome.now).sent ≡ true }
        ensures nodes { are_in_rack self.old.rack
            (takes self.old.rack self.old command.now outcome.now).sent ≡ true }
        ensures rack { self.new.rack ≡ self.old.rack }
    {
        self.move_on(command, outcome);
        self.announce_if_activated(outcome, post);
        self.send_pending(post);
    }

    fn move_on(&mut self, command: &Command, outcome: &Outcome)
        requires pending { self.old.pending ≡ Some command.now }
        requires fits { is_strange self.old.rack self.old command.now outcome.now ≡ false }
        ensures after { self.new
            ≡ (takes self.old.rack self.old command.now outcome.now).state }
        ensures rack { self.new.rack ≡ self.old.rack }
    {
        self.orders.begin_next();
        self.learn(command, outcome);
    }

    /// Takes over what the outcome of a command says of the rack.
    #[tactic(auto, using(crate::proofs::Kept::forgotten_few))]
    fn learn(&mut self, command: &Command, outcome: &Outcome)
        requires target { command_fits self.old.rack command.now ≡ true }
        requires listed { (is_listed outcome.now
            && nat_le self.old.rack.listed (length self.old.known)) ≡ false }
        requires some { 1 ≤ (learned self.old command.now outcome.now).epoch }
        requires epoch { (learned self.old command.now outcome.now).epoch
            ≤ most_epoch self.old.pending self.old.last }
        ensures after { self.new ≡ learned self.old command.now outcome.now }
        ensures rack { self.new.rack ≡ self.old.rack }
    {
        match (command, outcome) {
            (Command::Promote { key }, Outcome::Listed(_)) => self.known.learn(key),
            (Command::Demote { key }, Outcome::Marked(_)) => self.known.forget(key),
            (Command::Handover { target }, Outcome::Activated(epoch)) => {
                self.switch = *target;
                self.epoch = *epoch;
            }
            _ => (),
        }
    }

    /// Whether the outcome can't be that of the pending command, or lists a key where as many are
    /// known as the rack may list.
    fn is_strange(&self, command: &Command, outcome: &Outcome) -> bool
        requires { self.now.pending ≡ Some command.now }
        ensures { result ≡ is_strange self.now.rack self.now command.now outcome.now }
    {
        if !belongs(self.orders.last(), self.epoch, command, outcome) {
            return true;
        }
        is_listed(outcome) && self.known.keys().len() as u64 >= self.config.listed()
    }
}

/// Whether the outcome can be that of the command, which has this number.
fn belongs(number: u64, epoch: u64, command: &Command, outcome: &Outcome) -> bool
    requires { epoch < 2 ^ 64 - 1 }
    ensures { result ≡ belongs number (what_of epoch command.now) outcome.now }
{
    match command {
        Command::Promote { .. } => match outcome {
            Outcome::Listed(listing) => *listing == number,
            Outcome::Already(_) | Outcome::Full(_) | Outcome::NoVersion(_) => true,
            _ => false,
        },
        Command::Demote { .. } => matches!(
            outcome,
            Outcome::Marked(_) | Outcome::NotListed | Outcome::AlreadyMarked(_)
        ),
        Command::Copy { .. } => matches!(
            outcome,
            Outcome::Ordered(_) | Outcome::NotListed | Outcome::Holds
        ),
        Command::Fence { .. } => matches!(
            outcome,
            Outcome::Fenced(_) | Outcome::NotListed | Outcome::NoBase
        ),
        Command::Handover { .. } => match outcome {
            Outcome::Activated(active) => *active == epoch + 1,
            _ => false,
        },
        Command::Clear => matches!(outcome, Outcome::Cleared),
    }
}

fn is_listed(outcome: &Outcome) -> bool
    ensures { result ≡ is_listed outcome.now }
{
    match outcome {
        Outcome::Listed(_) => true,
        _ => false,
    }
}
