//! What clients begin, and what the controller is told to do.
ghost use Rattle.std.specs.Prelude.{◌≡◌, ◌<◌, [], length, true};
ghost use Rattle.peg_model.specs.Schedule.{EventInRack};
ghost use Rattle.peg_client.specs.Fits.{ask_fits};
ghost use Rattle.peg_model.specs.Reading.{packet_of};
ghost use Rattle.peg_model.specs.World as book;
ghost use Rattle.peg_world.specs.Midway.{Came, at_place, is_command};
ghost use Rattle.peg_world.specs.Telling.{told, number_in};

use crate::Halt;
use crate::machine::Machine;
use crate::saying::{
    asked_size, give_up_said, issue_said, junk_said, new_op, order_said, plan_said, resend_said,
    retry_said,
};
use peg_event::{Ask, Command, Event, Said};
use peg_name::{ClientId, Content, Key, Node, ServerId, SwitchId};

impl Machine {
    /// A client's operation is to begin.
    pub(crate) fn issue(
        &mut self,
        place: u64,
        id: ClientId,
        key: &Key,
        ask: &Ask<'_>,
    ) -> Result<Said<'static>, Halt>
        requires later { self.old.world.place < place }
        requires empty { self.old.sent ≡ [] }
        requires few { length self.old.world.operations < 4000000000 }
        requires id { id < self.old.world.rack.clients }
        requires ask { ask_fits self.old.world.rack.format ask.now ≡ true }
        ensures { Came self.old self.new place
            (book.issues (at_place self.old.world place) id key.now ask.now) result }
    {
        self.reserve(1, asked_size(ask))?;
        let op = new_op(id, key, ask, place);
        let issue = self.nodes.issue(id, key, ask);
        self.close(place)?;
        self.operations.take_issue(&op, &issue)?;
        Ok(issue_said(id, ask, &issue))
    }

    /// A client's request is to be sent again.
    pub(crate) fn resend(&mut self, place: u64, id: ClientId) -> Result<Said<'static>, Halt>
        requires later { self.old.world.place < place }
        requires empty { self.old.sent ≡ [] }
        requires id { id < self.old.world.rack.clients }
        ensures { Came self.old self.new place
            (book.resends (at_place self.old.world place) id) result }
    {
        self.reserve(1, 0)?;
        let resent = self.nodes.resend(id);
        self.close(place)?;
        Ok(resend_said(id, resent))
    }

    /// A client's operation is to be given up.
    pub(crate) fn give_up(&mut self, place: u64, id: ClientId) -> Result<Said<'static>, Halt>
        requires later { self.old.world.place < place }
        requires empty { self.old.sent ≡ [] }
        requires id { id < self.old.world.rack.clients }
        ensures { Came self.old self.new place
            (book.gives_up (at_place self.old.world place) id) result }
    {
        let given_up = self.nodes.give_up(id);
        self.close(place)?;
        Ok(give_up_said(id, given_up))
    }

    /// Junk is handed to a node.
    pub(crate) fn junk(&mut self, place: u64, to: Node, bytes: &[u8]) -> Result<Said<'static>, Halt>
        requires later { self.old.world.place < place }
        requires empty { self.old.sent ≡ [] }
        ensures { Came self.old self.new place (book.reports (at_place self.old.world place) []
            (book.junk_said to (packet_of bytes.now))) result }
    {
        self.close(place)?;
        Ok(junk_said(to, bytes))
    }
}

impl Machine {
    /// The controller is to order a command.
    pub(crate) fn order(&mut self, place: u64, command: &Command) -> Result<Said<'static>, Halt>
        requires later { self.old.world.place < place }
        requires empty { self.old.sent ≡ [] }
        ensures { Came self.old self.new place
            (book.orders (at_place self.old.world place) command.now) result }
    {
        self.reserve(1, 0)?;
        let order = self.nodes.order(command);
        self.close(place)?;
        Ok(order_said(command, &order))
    }

    /// The controller is to send again what may be lost.
    pub(crate) fn retry(&mut self, place: u64) -> Result<Said<'static>, Halt>
        requires later { self.old.world.place < place }
        requires empty { self.old.sent ≡ [] }
        ensures { Came self.old self.new place
            (book.retries (at_place self.old.world place)) result }
    {
        let clients = self.nodes.config().clients() as usize;
        self.reserve(clients + 1, 0)?;
        let retry = self.nodes.retry();
        self.close(place)?;
        Ok(retry_said(&retry))
    }

    /// The controller is to ask for a report.
    pub(crate) fn survey(&mut self, place: u64) -> Result<Said<'static>, Halt>
        requires later { self.old.world.place < place }
        requires empty { self.old.sent ≡ [] }
        ensures { Came self.old self.new place
            (book.surveys (at_place self.old.world place)) result }
    {
        self.reserve(1, 0)?;
        self.nodes.survey();
        self.close(place)?;
        Ok(Said::Surveys)
    }

    /// The controller is to plan by its last report.
    pub(crate) fn plan(
        &mut self,
        place: u64,
        promote_at: u64,
        demote_below: u64,
    ) -> Result<Said<'static>, Halt>
        requires later { self.old.world.place < place }
        requires empty { self.old.sent ≡ [] }
        ensures { Came self.old self.new place
            (book.plans (at_place self.old.world place) promote_at demote_below) result }
    {
        self.reserve(1, 0)?;
        let plan = self.nodes.plan(promote_at, demote_below);
        self.close(place)?;
        Ok(plan_said(&plan))
    }
}

impl Machine {
    /// An event happens at its place, but that what it sends is not in flight yet. What is said leaves
    /// out the content of an answered read.
    #[tactic(auto, unfolding(peg_model::specs::World::happens))]
    pub(crate) fn happen(&mut self, place: u64, event: &Event<'_>) -> Result<Said<'static>, Halt>
        requires later { self.old.world.place < place }
        requires empty { self.old.sent ≡ [] }
        requires few { length self.old.world.operations < 4000000000 }
        requires in_rack { EventInRack self.old.world.rack event.now }
        ensures { Came self.old self.new place (book.step self.old.world place event.now)
            (told (number_in event.now self.old.world) self.old.world result) }
    {
        match event {
            Event::Read { client, key } => {
                let asks = [Ask::Read];
                self.issue(place, *client, key, &asks[0])
            }
            Event::Write { client, key, value } => {
                let asks = [Ask::Write(Content::Present(value.again()))];
                self.issue(place, *client, key, &asks[0])
            }
            Event::Delete { client, key } => {
                let asks = [Ask::Write(Content::Absent)];
                self.issue(place, *client, key, &asks[0])
            }
            Event::Resend { client } => self.resend(place, *client),
            Event::GiveUp { client } => self.give_up(place, *client),
            Event::Deliver { packet, pick } => self.deliver(place, *packet, *pick),
            Event::Junk { to, bytes } => self.junk(place, *to, bytes.bytes()),
            Event::Retry => self.retry(place),
            Event::Survey => self.survey(place),
            Event::Plan {
                promote_at,
                demote_below,
            } => self.plan(place, *promote_at, *demote_below),
            _ => self.command(place, event),
        }
    }

    /// The controller is told to order a command.
    #[tactic(auto, unfolding(peg_model::specs::World::happens))]
    fn command(&mut self, place: u64, event: &Event<'_>) -> Result<Said<'static>, Halt>
        requires later { self.old.world.place < place }
        requires empty { self.old.sent ≡ [] }
        requires command { is_command event.now ≡ true }
        ensures { Came self.old self.new place (book.step self.old.world place event.now)
            (told (number_in event.now self.old.world) self.old.world result) }
    {
        match event {
            Event::Promote { key } => self.order(place, &Command::Promote { key: *key }),
            Event::Demote { key } => self.order(place, &Command::Demote { key: *key }),
            Event::Copy { key, target } => {
                let target = ServerId(*target);
                self.order(place, &Command::Copy { key: *key, target })
            }
            Event::Fence { key } => self.order(place, &Command::Fence { key: *key }),
            Event::Handover { target } => {
                let target = SwitchId(*target);
                self.order(place, &Command::Handover { target })
            }
            Event::Clear => self.order(place, &Command::Clear),
            _ => unreachable!(),
        }
    }
}
