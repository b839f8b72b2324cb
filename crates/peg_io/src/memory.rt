// The source and the sink in memory: what they are given and hold is told, as long as there is
// memory for it.
ghost use Rattle.std.specs.Prelude.{◌≡◌, ℕ, ◌+◌, ◌<◌, ◌≤◌, true, false, Some, [], length, take};
ghost use Rattle.std.specs.Prelude.{drop, min};
ghost use Rattle.peg_io.specs.Outside.{Rose, Reads, Writes};
ghost use Rattle.peg_io.specs.Memory.{is_failing, gives, takes, after_read, HasGiven, HasWritten};
ghost use Rattle.peg_io.specs.Memory.{told_of};

use crate::{Got, Sink, Source, Took};
use std::alloc::Global;
use std::marker::Model;

/// A source of given bytes.
#[derive(Drop)]
pub struct MemorySource {
    bytes: Vec<u8>,
    at: usize,
    step: usize,
    fails: Vec<u64>,
    calls: u64,
    faults: u64,
}

impl Model for MemorySource {
    ghost use Rattle.std.specs.Prelude.{◌≤◌, vec_len, drop};
    ghost use Rattle.peg_io.specs.Memory.{Feed};

    ghost Value = { Feed };

    ghost view = { λ s. record {
      left = drop s.at s.bytes.items;
      step = s.step;
      fails = s.fails.items;
      calls = s.calls;
      faults = s.faults;
    } };

    ghost invariant = { λ s. (s.at ≤ vec_len s.bytes) × (1 ≤ s.step) };
}

impl MemorySource {
    /// The source of these bytes, which gives at most `step` of them in one call, and fails at the
    /// calls whose numbers, from 1, stand in `fails`.
    pub fn make(bytes: Vec<u8>, step: usize, fails: Vec<u64>) -> MemorySource
        requires { 1 ≤ step }
        ensures { result ≡ record {
          left = bytes.items;
          step = step;
          fails = fails.items;
          calls = 0;
          faults = 0;
        } }
    {
        MemorySource {
            bytes,
            at: 0,
            step,
            fails,
            calls: 0,
            faults: 0,
        }
    }
}

// Whether the call after so many is one of those that fail.
pub(crate) fn is_failing(fails: &[u64], calls: u64) -> bool
    ensures { result ≡ is_failing fails.now calls }
{
    calls < u64::MAX && fails.contains(&(calls + 1))
}

// Copies the first bytes, at most `step` of them, to the front of the buffer.
fn copy_front(left: &[u8], step: usize, buf: &mut [u8]) -> usize
    ensures count { result ≡ min step (min (length buf.old) (length left.now)) }
    ensures bytes { take result buf.new ≡ take result left.now }
    ensures len { length buf.new ≡ length buf.old }
{
    let count = step.min(buf.len().min(left.len()));
    buf[..count].copy_from_slice(&left[..count]);
    count
}

impl Source for MemorySource {
    ghost left = { λ s. Some s.left };

    ghost faults = { λ s. s.faults };

    fn read(&mut self, buf: &mut [u8]) -> Got
        requires { 0 < length buf.old }
        ensures answer { result ≡ gives self.old (length buf.old) }
        ensures after { self.new ≡ after_read self.old result }
        ensures bytes { HasGiven self.old result buf.new }
        ensures content { Reads result buf.new (Some self.old.left) (Some self.new.left) }
        ensures later { self.old.faults ≤ self.new.faults }
        ensures cause { result ≡ Got.Failed → Rose self.old.faults self.new.faults }
    {
        let fails = is_failing(&self.fails, self.calls);
        self.calls = self.calls.saturating_add(1);
        if fails {
            self.faults = self.faults.saturating_add(1);
            return Got::Failed;
        }
        let left = &self.bytes[self.at..];
        if left.is_empty() {
            return Got::End;
        }
        let count = copy_front(left, self.step, buf);
        self.at += count;
        Got::Bytes(count)
    }
}

/// A sink that keeps what is written.
#[derive(Drop)]
pub struct MemorySink {
    kept: Vec<u8>,
    tells: bool,
    step: usize,
    fails: Vec<u64>,
    calls: u64,
    faults: u64,
}

impl Model for MemorySink {
    ghost use Rattle.std.specs.Prelude.{◌≤◌};
    ghost use Rattle.peg_io.specs.Memory.{Basin};

    ghost Value = { Basin };

    ghost view = { λ s. record {
      kept = s.kept.items;
      tells = s.tells;
      step = s.step;
      fails = s.fails.items;
      calls = s.calls;
      faults = s.faults;
    } };

    ghost invariant = { λ s. 1 ≤ s.step };
}

impl MemorySink {
    /// An empty sink, which takes at most `step` bytes in one call, and fails at the calls whose
    /// numbers, from 1, stand in `fails`.
    pub fn make(alloc: Global, step: usize, fails: Vec<u64>) -> MemorySink
        requires { 1 ≤ step }
        ensures { result ≡ record {
          kept = [];
          tells = true;
          step = step;
          fails = fails.items;
          calls = 0;
          faults = 0;
        } }
    {
        MemorySink {
            kept: Vec::new(alloc),
            tells: true,
            step,
            fails,
            calls: 0,
            faults: 0,
        }
    }

    /// The bytes that are kept. They are all that was written where the sink tells.
    pub fn written(&self) -> &[u8]
        ensures { result.now ≡ self.now.kept }
    {
        &self.kept
    }

    /// Whether the content is still told: there was memory for each write.
    pub fn tells(&self) -> bool
        ensures { result ≡ self.now.tells }
    {
        self.tells
    }
}

impl Sink for MemorySink {
    ghost held = { told_of };

    ghost faults = { λ s. s.faults };

    fn write(&mut self, bytes: &[u8]) -> Took
        requires { 0 < length bytes.now }
        ensures answer { result ≡ takes self.old (length bytes.now) }
        ensures after { HasWritten self.old self.new result bytes.now }
        ensures content { Writes result bytes.now (told_of self.old) (told_of self.new) }
        ensures later { self.old.faults ≤ self.new.faults }
        ensures cause { result ≡ Took.Failed → Rose self.old.faults self.new.faults }
    {
        let fails = is_failing(&self.fails, self.calls);
        self.calls = self.calls.saturating_add(1);
        if fails {
            self.faults = self.faults.saturating_add(1);
            return Took::Failed;
        }
        let count = self.step.min(bytes.len());
        if self.tells && self.kept.extend_from_slice(&bytes[..count]).is_err() {
            self.tells = false;
        }
        Took::Bytes(count)
    }
}
