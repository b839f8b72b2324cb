//! Packets in flight are handed to their nodes.
ghost use Rattle.std.specs.Prelude.{◌≡◌, ◌≤◌, ◌<◌, [], Some, length, slice_get, OnOk, IsOk};
ghost use Rattle.peg_name.specs.declared.Node.TheVariants as node;
ghost use Rattle.peg_model.specs.Client.{client_step};
ghost use Rattle.peg_model.specs.Server.{server_step};
ghost use Rattle.peg_model.specs.Switch.{switch_step};
ghost use Rattle.peg_model.specs.World as book;
ghost use Rattle.peg_world.specs.Midway.{Came, at_place, packet_at};
ghost use Rattle.peg_world.specs.Notes.{noted};
ghost use Rattle.peg_world.specs.Telling.{told, number_at};

use crate::Halt;
use crate::machine::Machine;
use crate::saying::{Note, note_of};
use crate::telling::{size_of, without};
use peg_event::Said;
use peg_name::{ClientId, Node, OutOfMemory, ServerId, SwitchId};
use peg_switch::most_packets;

/// The most bytes of a content.
const CONTENT_MOST: usize = 1024;

impl Machine {
    /// The packet of a number is handed to its node, if there is one.
    pub(crate) fn deliver(
        &mut self,
        place: u64,
        number: u64,
        pick: u64,
    ) -> Result<Said<'static>, Halt>
        requires later { self.old.world.place < place }
        requires empty { self.old.sent ≡ [] }
        ensures { Came self.old self.new place (book.delivers_item (at_place self.old.world place)
            number (slice_get self.old.world.packets number) pick)
            (told (number_at self.old.world number) self.old.world result) }
    {
        let count = self.packets();
        if number >= u64::from(count) {
            self.close(place)?;
            return Ok(Said::NoSuchPacket { number, count });
        }
        self.hand(place, number as u32, pick)
    }

    /// A packet in flight is handed to its node.
    fn hand(&mut self, place: u64, number: u32, pick: u64) -> Result<Said<'static>, Halt>
        requires later { self.old.world.place < place }
        requires empty { self.old.sent ≡ [] }
        requires number { number < length self.old.world.packets }
        ensures { Came self.old self.new place (book.delivers_item (at_place self.old.world place)
            number (slice_get self.old.world.packets number) pick)
            (told (Some number) self.old.world result) }
    {
        let (to, _bytes) = self.soup.get(number);
        match &to {
            Node::Client(id) => self.to_client(place, number, *id),
            Node::Server(id) => self.to_server(place, number, *id),
            Node::Switch(id) => self.to_switch(place, number, *id, pick),
            Node::Controller => self.to_controller(place, number),
        }
    }

    /// The packet of a number is handed to a client. A content that it is given is left out of what
    /// is said.
    fn to_client(&mut self, place: u64, number: u32, id: ClientId) -> Result<Said<'static>, Halt>
        requires later { self.old.world.place < place }
        requires empty { self.old.sent ≡ [] }
        requires to { slice_get self.old.world.packets number
            ≡ Some (node.Client id, packet_at self.old.world number) }
        ensures { Came self.old self.new place
            (book.client_stepped (at_place self.old.world place) id
            (client_step (book.client_of self.old.world id) (packet_at self.old.world number)))
            (told (Some number) self.old.world result) }
    {
        if self.is_full() {
            return Err(Halt::TooMuch);
        }
        self.operations.reserve(CONTENT_MOST)?;
        let (_to, bytes) = self.soup.get(number);
        let did = self.nodes.client(id, bytes);
        prove!(size_of(&did) <= CONTENT_MOST);
        self.place = place;
        self.operations.take_answer(&self.fences, id, place, &did);
        Ok(Said::Client {
            client: id,
            did: without(&did),
        })
    }

    /// The packet of a number is handed to a server.
    fn to_server(&mut self, place: u64, number: u32, id: ServerId) -> Result<Said<'static>, Halt>
        requires later { self.old.world.place < place }
        requires empty { self.old.sent ≡ [] }
        requires to { slice_get self.old.world.packets number
            ≡ Some (node.Server id, packet_at self.old.world number) }
        ensures { Came self.old self.new place
            (book.server_stepped (at_place self.old.world place) id
            (server_step (book.server_of self.old.world id) (packet_at self.old.world number)))
            (told (Some number) self.old.world result) }
    {
        self.reserve(1, 0)?;
        let (_to, bytes) = self.soup.get(number);
        let did = self.nodes.server(id, bytes)?;
        self.close(place)?;
        self.fences.take_fence(&did)?;
        Ok(Said::Server { server: id, did })
    }

    /// The packet of a number is handed to a switch.
    fn to_switch(
        &mut self,
        place: u64,
        number: u32,
        id: SwitchId,
        pick: u64,
    ) -> Result<Said<'static>, Halt>
        requires later { self.old.world.place < place }
        requires empty { self.old.sent ≡ [] }
        requires to { slice_get self.old.world.packets number
            ≡ Some (node.Switch id, packet_at self.old.world number) }
        ensures { Came self.old self.new place
            (book.switch_stepped (at_place self.old.world place) id
            (packet_at self.old.world number)
            (switch_step (book.switch_of self.old.world id) (packet_at self.old.world number)
            pick)) (told (Some number) self.old.world result) }
    {
        let most = most_packets(self.nodes.config().format());
        self.reserve(most, 0)?;
        let (_to, bytes) = self.soup.get(number);
        let did = self.nodes.switch(id, bytes, pick);
        let note = note_of(bytes, &did);
        self.close(place)?;
        self.note(id, &note)?;
        Ok(Said::Switch { switch: id, did })
    }

    /// Keeps what a switch's step is noted for. It succeeds where there is room.
    #[tactic(auto, using(crate::proofs::Kept::kept_stamped))]
    fn note(&mut self, id: SwitchId, note: &Note) -> Result<(), OutOfMemory>
        requires id { id < self.old.world.rack.switches }
        requires notes { 1 ≤ self.old.notes }
        ensures world { OnOk result (self.new.world
            ≡ noted self.old.world (book.switch_of self.old.world id) note.now) }
        ensures sent { OnOk result (self.new.sent ≡ self.old.sent) }
        ensures spare { OnOk result (self.new.spare ≡ self.old.spare) }
        ensures succeeds { IsOk result }
    {
        match note {
            Note::Stamped {
                client,
                seq,
                version,
            } => {
                let stamped = Some((*client, *seq, *version));
                self.operations.take_stamp(stamped);
                Ok(())
            }
            Note::Listed { key } => {
                let base = self.nodes.base_of(id, key);
                self.promotions.take_promotion(key, base)
            }
            Note::Nothing => Ok(()),
        }
    }

    /// The packet of a number is handed to the controller.
    fn to_controller(&mut self, place: u64, number: u32) -> Result<Said<'static>, Halt>
        requires later { self.old.world.place < place }
        requires empty { self.old.sent ≡ [] }
        requires to { slice_get self.old.world.packets number
            ≡ Some (node.Controller, packet_at self.old.world number) }
        ensures { Came self.old self.new place
            (book.delivers (at_place self.old.world place) node.Controller
            (packet_at self.old.world number) 0) (told (Some number) self.old.world result) }
    {
        let clients = self.nodes.config().clients() as usize;
        self.reserve(clients + 1, 0)?;
        let (_to, bytes) = self.soup.get(number);
        let did = self.nodes.controller(bytes);
        self.close(place)?;
        Ok(Said::Controller { did })
    }
}
