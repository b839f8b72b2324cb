//! The commands of a controller: each has a number of its own, one is pending at a time, and the
//! others wait in order.

ghost use Rattle.std.specs.Prelude.{◌≡◌, ◌+◌, ◌-◌, ◌<◌, ◌≤◌, ◌^◌, IfOk, [], None, length};
ghost use Rattle.std.specs.Prelude.{◌++◌, ◌∷◌, take};
ghost use Rattle.std.specs.Prelude.{is_some};
ghost use Rattle.peg_control.specs.Orders.{with_begun, with_next, with_waiting};

use peg_event::Command;
use peg_name::OutOfMemory;
use std::alloc::Global;
use std::collections::VecDeque;
use std::marker::Model;

/// The last number, the command that has it while it is pending, and at most 64 that wait. Their
/// room is taken when this is made.
#[derive(Drop)]
pub struct Orders {
    last: u64,
    pending: Option<Command>,
    queue: VecDeque<Command>,
}

impl Model for Orders {
    ghost use Rattle.std.specs.Prelude.{◌≤◌, ◌+◌, ◌-◌, ◌^◌, length};
    ghost use Rattle.std.specs.VecDeque.{deque_capacity};
    ghost use Rattle.peg_control.specs.Orders.{Orders as TheOrders};

    ghost Value = { TheOrders };

    ghost view = { λ o. record {
      last = o.last;
      pending = o.pending;
      queue = o.queue.items;
    } };

    ghost invariant = { λ o.
        (o.last + length o.queue.items ≤ 2 ^ 64 - 2) × (64 ≤ deque_capacity o.queue) };
}

impl Orders {
    /// No command yet.
    pub fn make(alloc: Global) -> Result<Orders, OutOfMemory>
        ensures { IfOk result (λ o. o ≡ record { last = 0; pending = None; queue = [] }) }
    {
        let queue = VecDeque::with_capacity(alloc, 64)?;
        Ok(Orders {
            last: 0,
            pending: None,
            queue,
        })
    }

    /// The last number.
    pub fn last(&self) -> u64
        ensures last { result ≡ self.now.last }
        ensures numbers { self.now.last + length self.now.queue ≤ 2 ^ 64 - 2 }
    {
        self.last
    }

    /// The pending command.
    pub fn pending(&self) -> Option<Command>
        ensures { result ≡ self.now.pending }
    {
        self.pending
    }

    /// Whether a command is pending.
    pub fn is_pending(&self) -> bool
        ensures { result ≡ is_some self.now.pending }
    {
        self.pending.is_some()
    }

    /// How many commands wait.
    pub fn waiting(&self) -> usize
        ensures { result ≡ length self.now.queue }
    {
        self.queue.len()
    }

    /// The command gets the next number and is pending.
    pub fn begin(&mut self, command: &Command)
        requires { self.old.last + length self.old.queue < 2 ^ 64 - 2 }
        ensures { self.new ≡ with_begun self.old command.now }
    {
        self.last += 1;
        self.pending = Some(*command);
    }

    /// Nothing is pending any more, and the first command that waits begins.
    pub fn begin_next(&mut self)
        ensures { self.new ≡ with_next self.old }
    {
        self.pending = self.queue.pop_front();
        if self.pending.is_some() {
            self.last += 1;
        }
    }

    /// The command waits, last of all.
    pub fn wait(&mut self, command: &Command)
        requires room { length self.old.queue < 64 }
        requires number { self.old.last + length self.old.queue < 2 ^ 64 - 2 }
        ensures { self.new ≡ with_waiting self.old command.now }
    {
        self.queue.push_back_reserved(*command);
    }

    /// The command waits, last of all, unless 64 do already.
    pub fn wait_if_room(&mut self, command: &Command)
        requires few { length self.old.queue ≤ 64 }
        requires numbers { self.old.last + 64 ≤ 2 ^ 64 - 2 }
        ensures { self.new
            ≡ record self.old { queue = take 64 (self.old.queue ++ command.now ∷ []) } }
    {
        if self.waiting() < 64 {
            self.wait(command);
        }
    }
}
