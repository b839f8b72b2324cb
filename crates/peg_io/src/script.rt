// The wire in memory: what it is asked for is told, as long as there is memory for it.
ghost use Rattle.std.specs.Prelude.{◌≡◌, ℕ, ◌+◌, ◌<◌, ◌≤◌, true, false, not, [], length, map, drop};
ghost use Rattle.std.specs.Prelude.{IsTrue, IsFalse, IsNone, IfSome, OnOk, OnErr, option_map};
ghost use Rattle.std.specs.Prelude.{slice_get};
ghost use Rattle.peg_io.specs.Outside.{Rose, HasTurn, HeardIn, Binds, Attempts, Tells, with_send};
ghost use Rattle.peg_meaning.specs.Wire.{with_turn};
ghost use Rattle.peg_io.specs.Memory.{Became, is_failing, hears, binds, HasBound};
ghost use Rattle.peg_io.specs.Memory.{HasHeard, HasCarried, HasSent, carried_of};
ghost use Rattle.peg_io.specs.Seen.{coming_of, turn_of, sent_read};

use crate::memory::is_failing;
use crate::{Heard, Wire};
use peg_name::OutOfMemory;
use std::alloc::Global;
use std::marker::Model;

/// What a wire in memory is to hear in one receive.
#[derive(Drop)]
pub enum Scripted {
    Datagram(Vec<u8>),
    Pause,
    Fail,
}

// A receive that didn't fail.
#[derive(Drop)]
enum Turned {
    Datagram { slot: u32, bytes: Vec<u8> },
    Pause { slot: u32 },
}

#[derive(Drop)]
struct Attempt {
    turn: u64,
    slot: u32,
    port: u16,
    bytes: Vec<u8>,
}

/// A wire that hears a script, and keeps what is bound, heard and sent.
#[derive(Drop)]
pub struct MemoryWire {
    alloc: Global,
    bound: Vec<u16>,
    turns: Vec<Turned>,
    attempted: Vec<Attempt>,
    tells: bool,
    slots: u32,
    // What is to come, the next last.
    script: Vec<Scripted>,
    fails: Vec<u64>,
    sends: u64,
    faults: u64,
    lost: u64,
}

impl Model for MemoryWire {
    ghost use Rattle.std.specs.Prelude.{◌≡◌, length, map, reverse, IsTrue, vec_len};
    ghost use Rattle.peg_io.specs.Memory.{Script};

    ghost Value = { Script };

    ghost use Rattle.peg_io.specs.Seen.{coming_of, turn_of, sent_of};

    ghost view = { λ w. record {
      carried = record {
        bound = w.bound.items;
        turns = map turn_of w.turns.items;
        attempted = map sent_of w.attempted.items;
      };
      tells = w.tells;
      slots = w.slots;
      coming = reverse (map coming_of w.script.items);
      fails = w.fails.items;
      sends = w.sends;
      faults = w.faults;
      lost = w.lost;
    } };

    ghost invariant = { λ w. IsTrue w.tells → vec_len w.bound ≡ w.slots };
}

impl MemoryWire {
    /// A wire that takes one entry of the script at each receive, and pauses after its end. The
    /// sends whose numbers, from 1, stand in `fails` fail.
    pub fn make(alloc: Global, mut script: Vec<Scripted>, fails: Vec<u64>) -> MemoryWire
        ensures { result ≡ record {
          carried = record { bound = []; turns = []; attempted = [] };
          tells = true;
          slots = 0;
          coming = map coming_of script.items;
          fails = fails.items;
          sends = 0;
          faults = 0;
          lost = 0;
        } }
    {
        script.reverse();
        MemoryWire {
            alloc,
            bound: Vec::new(alloc),
            turns: Vec::new(alloc),
            attempted: Vec::new(alloc),
            tells: true,
            slots: 0,
            script,
            fails,
            sends: 0,
            faults: 0,
            lost: 0,
        }
    }

    /// Whether the content is still told: there was memory for each entry of the lists.
    pub fn tells(&self) -> bool
        ensures { result ≡ self.now.tells }
    {
        self.tells
    }

    /// The port that was bound at a slot; none past the kept ones.
    pub fn port(&self, slot: u32) -> Option<u16>
        ensures { result ≡ slice_get self.now.carried.bound slot }
    {
        self.bound.get(slot as usize).copied()
    }

    /// The number of turns before a send, its slot, its port and its bytes; none past those kept.
    pub fn sent(&self, i: usize) -> Option<(u64, u32, u16, &[u8])>
        ensures { option_map sent_read result ≡ slice_get self.now.carried.attempted i }
    {
        let kept = self.attempted.get(i)?;
        Some((kept.turn, kept.slot, kept.port, kept.bytes.as_slice()))
    }

    fn next_coming(&mut self) -> Option<Scripted>
        ensures next { option_map coming_of result ≡ slice_get self.old.coming 0 }
        ensures after { self.new ≡ record self.old { coming = drop 1 self.old.coming } }
    {
        self.script.pop()
    }

    fn keep_turn(&mut self, turn: Turned)
        ensures { Became self.old.tells
            (record self.old { carried = with_turn self.old.carried (turn_of turn) })
            (record self.old { tells = false }) self.new }
    {
        if self.tells && self.turns.push(turn).is_err() {
            self.tells = false;
        }
    }

    fn attempt(&mut self, slot: u32, port: u16, bytes: &[u8]) -> Result<(), OutOfMemory>
        ensures ok { OnOk result (self.new ≡ record self.old
            { carried = with_send self.old.carried slot port bytes.now }) }
        ensures err { OnErr result (self.new ≡ self.old) }
    {
        let attempt = Attempt {
            turn: self.turns.len() as u64,
            slot,
            port,
            bytes: Vec::from_slice(self.alloc, bytes)?,
        };
        self.attempted.push(attempt)?;
        Ok(())
    }

    fn keep_send(&mut self, slot: u32, port: u16, bytes: &[u8])
        ensures { Became self.old.tells
            (record self.old { carried = with_send self.old.carried slot port bytes.now })
            (record self.old { tells = false }) self.new }
    {
        if self.tells && self.attempt(slot, port, bytes).is_err() {
            self.tells = false;
        }
    }
}

impl Wire for MemoryWire {
    ghost carried = { carried_of };

    ghost slots = { λ w. w.slots };

    ghost faults = { λ w. w.faults };

    ghost lost = { λ w. w.lost };

    fn bind(&mut self, port: u16) -> Option<u32>
        ensures answer { result ≡ binds self.old }
        ensures after { HasBound self.old self.new result port }
        ensures content { Tells (carried_of self.old) (carried_of self.new) (Binds port result) }
        ensures slot { IfSome result (λ slot. slot ≡ self.old.slots) }
        ensures bound { IfSome result (λ _. self.new.slots ≡ self.old.slots + 1) }
        ensures most { 4000000000 ≤ self.old.slots → IsNone result }
        ensures refused { IsNone result → self.new.slots ≡ self.old.slots }
        ensures cause { IsNone result → Rose self.old.faults self.new.faults }
        ensures later { self.old.faults ≤ self.new.faults }
        ensures later_lost { self.old.lost ≤ self.new.lost }
    {
        if self.slots >= 4_000_000_000 {
            self.faults = self.faults.saturating_add(1);
            return None;
        }
        if self.tells && self.bound.push(port).is_err() {
            self.tells = false;
        }
        let slot = self.slots;
        self.slots += 1;
        Some(slot)
    }

    fn receive(&mut self, slot: u32, buf: &mut [u8]) -> Heard
        requires bound { slot < self.old.slots }
        requires room { 0 < length buf.old }
        ensures answer { result ≡ hears self.old.coming (length buf.old) }
        ensures after { HasHeard self.old self.new result slot buf.new }
        ensures bytes { HasCarried self.old.coming result buf.new }
        ensures content { Tells (carried_of self.old) (carried_of self.new)
            (HasTurn slot buf.new result) }
        ensures fits { HeardIn result (length buf.new) }
        ensures bound { self.new.slots ≡ self.old.slots }
        ensures cause { result ≡ Heard.Failed → Rose self.old.faults self.new.faults }
        ensures later { self.old.faults ≤ self.new.faults }
        ensures later_lost { self.old.lost ≤ self.new.lost }
    {
        match self.next_coming() {
            Some(Scripted::Datagram(mut bytes)) => {
                let count = bytes.len().min(buf.len());
                bytes.truncate(count);
                buf[..count].copy_from_slice(&bytes);
                self.keep_turn(Turned::Datagram { slot, bytes });
                Heard::Bytes(count)
            }
            Some(Scripted::Fail) => {
                self.faults = self.faults.saturating_add(1);
                Heard::Failed
            }
            Some(Scripted::Pause) | None => {
                self.keep_turn(Turned::Pause { slot });
                Heard::Nothing
            }
        }
    }

    fn send(&mut self, slot: u32, port: u16, bytes: &[u8]) -> bool
        ensures answer { result ≡ not (is_failing self.old.fails self.old.sends) }
        ensures after { HasSent self.old self.new result slot port bytes.now }
        ensures content { Tells (carried_of self.old) (carried_of self.new)
            (Attempts slot port bytes.now) }
        ensures bound { self.new.slots ≡ self.old.slots }
        ensures cause { IsFalse result → Rose self.old.lost self.new.lost }
        ensures later { self.old.faults ≤ self.new.faults }
        ensures later_lost { self.old.lost ≤ self.new.lost }
    {
        let fails = is_failing(&self.fails, self.sends);
        self.sends = self.sends.saturating_add(1);
        if fails {
            self.lost = self.lost.saturating_add(1);
        }
        self.keep_send(slot, port, bytes);
        !fails
    }
}
