//! The generator of made workloads: each event is drawn from the words of `Pcg64`. No memory is
//! taken.
#![tactic(auto)]

ghost use Rattle.std.specs.Prelude.{◌≡◌, ◌<◌, ◌≤◌};
ghost use Rattle.rand_pcg.specs.Pcg.{pcg64};
ghost use Rattle.peg_event.specs.declared.Event.TheVariants as event;
ghost use Rattle.peg_meaning.specs.Workload.{soak_generator, range, key, of_client_and_key, writes};
ghost use Rattle.peg_meaning.specs.Workload.{junks, copies, delivers, drawn};

use peg_event::Event;
use peg_name::{ClientId, Key, Node, SwitchId};
use rand_core::utils::NextWord;
use rand_pcg::Pcg64;
use spelled::{bytes_of, popular_key, value_of};
use std::marker::Model;

mod spelled;
#[cfg(test)]
mod tests;

pub use spelled::Room;

/// A generator of events. A contract sees the state of its `Pcg64`.
#[derive(Drop)]
pub struct Gen {
    pcg: Pcg64,
}

impl Model for Gen {
    ghost use Rattle.rand_pcg.specs.Lcg.{Lcg};

    ghost Value = { Lcg };

    ghost view = { λ g. g.pcg };
}

impl Gen {
    /// The generator that is made from a number.
    pub fn make(start: u64) -> Gen
        ensures { result ≡ soak_generator start }
    {
        Gen {
            pcg: Pcg64::new(u128::from(start), 1),
        }
    }

    /// The event of this number, from 1, where so many packets were sent so far. Its value or junk
    /// is put into the room.
    pub fn next<'a>(&mut self, number: u64, sent: u64, room: &'a mut Room) -> Event<'a>
        ensures event { result ≡ (drawn pcg64 number sent self.old).0 }
        ensures after { self.new ≡ (drawn pcg64 number sent self.old).1 }
    {
        match self.range(32) {
            0..=3 => self.read(),
            4..=6 => self.write(number, room),
            7 => Event::Resend {
                client: self.client(),
            },
            8 => Event::GiveUp {
                client: self.client(),
            },
            9 => self.junk(room),
            10 => Event::Promote { key: self.key() },
            11 => Event::Demote { key: self.key() },
            12 => self.copy(),
            13 => Event::Handover {
                target: self.range(2) as u8,
            },
            14 => Event::Survey,
            15 => Event::Plan {
                promote_at: 8,
                demote_below: 2,
            },
            16 => Event::Clear,
            17 => Event::Retry,
            _ => self.deliver(sent),
        }
    }

    // The next word modulo `n`.
    fn range(&mut self, n: u64) -> u64
        requires { 0 < n }
        ensures word { result ≡ (range pcg64 n self.old).0 }
        ensures after { self.new ≡ (range pcg64 n self.old).1 }
        ensures below { result < n }
    {
        self.pcg.next_word() % n
    }

    fn client(&mut self) -> ClientId
        ensures client { result ≡ (range pcg64 8 self.old).0 }
        ensures after { self.new ≡ (range pcg64 8 self.old).1 }
    {
        ClientId(self.range(8) as u16)
    }

    fn key(&mut self) -> Key
        ensures key { result ≡ (key pcg64 self.old).0 }
        ensures after { self.new ≡ (key pcg64 self.old).1 }
    {
        popular_key(self.range(336))
    }

    fn read<'a>(&mut self) -> Event<'a>
        ensures event { result ≡ (of_client_and_key pcg64 event.Read self.old).0 }
        ensures after { self.new ≡ (of_client_and_key pcg64 event.Read self.old).1 }
    {
        let client = self.client();
        let key = self.key();
        Event::Read { client, key }
    }

    fn write<'a>(&mut self, number: u64, room: &'a mut Room) -> Event<'a>
        ensures event { result ≡ (writes pcg64 number self.old).0 }
        ensures after { self.new ≡ (writes pcg64 number self.old).1 }
    {
        let client = self.client();
        let key = self.key();
        Event::Write {
            client,
            key,
            value: value_of(number, room),
        }
    }

    // Eight bytes to a switch, which no packet has.
    fn junk<'a>(&mut self, room: &'a mut Room) -> Event<'a>
        ensures event { result ≡ (junks pcg64 self.old).0 }
        ensures after { self.new ≡ (junks pcg64 self.old).1 }
    {
        let to = SwitchId(self.range(2) as u8);
        let bytes = self.range(u64::MAX);
        Event::Junk {
            to: Node::Switch(to),
            bytes: bytes_of(bytes, room),
        }
    }

    fn copy<'a>(&mut self) -> Event<'a>
        ensures event { result ≡ (copies pcg64 self.old).0 }
        ensures after { self.new ≡ (copies pcg64 self.old).1 }
    {
        let key = self.key();
        let target = self.range(4) as u8;
        Event::Copy { key, target }
    }

    // One of the last 24 packets.
    fn deliver<'a>(&mut self, sent: u64) -> Event<'a>
        ensures event { result ≡ (delivers pcg64 sent self.old).0 }
        ensures after { self.new ≡ (delivers pcg64 sent self.old).1 }
    {
        if sent == 0 {
            return Event::Retry;
        }
        let back = self.range(sent.min(24));
        let pick = self.range(12);
        Event::Deliver {
            packet: sent - 1 - back,
            pick,
        }
    }
}
