// What a line has the controller do.
ghost use Rattle.std.specs.Prelude.{◌≡◌, ◌<◌, ◌≤◌, ◌+◌, IfSome, length, option_map, Some, true};
ghost use Rattle.peg_model.specs.World as world;
ghost use Rattle.peg_meaning.specs.Roles as roles;
ghost use Rattle.peg_packet.specs.Nodes.{are_in_rack};
ghost use Rattle.peg_packet.specs.Outbox.{posted};
ghost use Rattle.peg_node.specs.Calls.{call_as, call_by};

use peg_control::Controller;
use peg_event::{Command, Event, Order, Plan, Retry, Said};
use peg_name::{Config, ServerId, SwitchId};
use peg_packet::Post;
use peg_text::{Entry, event_of};

/// What the controller is asked for.
#[derive(Clone, Copy)]
pub enum Call {
    Orders(Command),
    Retries,
    Surveys,
    Plans { promote_at: u64, demote_below: u64 },
}

/// What an event has the controller do. `None`: it is no event of the controller.
pub fn call_by(event: &Event<'_>) -> Option<Call>
    ensures { option_map call_as result ≡ call_by event.now }
{
    match event {
        Event::Promote { key } => Some(Call::Orders(Command::Promote { key: *key })),
        Event::Demote { key } => Some(Call::Orders(Command::Demote { key: *key })),
        Event::Copy { key, target } => Some(Call::Orders(Command::Copy {
            key: *key,
            target: ServerId(*target),
        })),
        Event::Fence { key } => Some(Call::Orders(Command::Fence { key: *key })),
        Event::Handover { target } => Some(Call::Orders(Command::Handover {
            target: SwitchId(*target),
        })),
        Event::Clear => Some(Call::Orders(Command::Clear)),
        Event::Retry => Some(Call::Retries),
        Event::Survey => Some(Call::Surveys),
        Event::Plan {
            promote_at,
            demote_below,
        } => Some(Call::Plans {
            promote_at: *promote_at,
            demote_below: *demote_below,
        }),
        _ => None,
    }
}

// What a line has the controller do. `None`: it is outside the grammar.
pub(crate) fn call_of(config: &Config, line: &[u8]) -> Option<Call>
    ensures sound { IfSome result (λ c. roles.IsCallLine line.now (call_as c)) }
    ensures complete { (c : roles.Call) → roles.IsCallLine line.now c
        → option_map call_as result ≡ Some c }
{
    let mut room = [0; 1024];
    match event_of(config, line, &mut room)? {
        Entry::Event(event) => call_by(&event),
        Entry::End => None,
    }
}

fn order_said<'a>(command: &Command, order: &Order) -> Said<'a>
    ensures { result ≡ world.order_said command.now order.now }
{
    match order {
        Order::Busy { pending } => Said::ControlBusy { pending: *pending },
        Order::Spent { last } => Said::ControlSpent { last: *last },
        Order::NoSuch { target } => Said::NoSuch { target: *target },
        Order::SameSwitch { switch } => Said::SameSwitch { switch: *switch },
        Order::Sent { number } => Said::Orders {
            number: *number,
            command: *command,
        },
    }
}

fn retry_said<'a>(retry: &Retry) -> Said<'a>
    ensures { result ≡ world.retry_said retry.now }
{
    match retry {
        Retry::Command { number } => Said::Retries { number: *number },
        Retry::Announced { epoch } => Said::Announces { epoch: *epoch },
    }
}

fn plan_said<'a>(plan: &Plan) -> Said<'a>
    ensures { result ≡ world.plan_said plan.now }
{
    match plan {
        Plan::Busy { pending } => Said::ControlBusy { pending: *pending },
        Plan::Spent { last } => Said::ControlSpent { last: *last },
        Plan::NoReport => Said::NoReport,
        Plan::Planned { demotes, promotes } => Said::Plans {
            demotes: *demotes,
            promotes: *promotes,
        },
    }
}

impl Call {
    ghost use Rattle.peg_node.specs.Calls.{call_as};

    /// Has the controller do it. What it sends is put in the outbox, which has room for a packet to
    /// each client and one more. Says what the controller did.
    pub fn make<'a>(&self, controller: &mut Controller, post: &mut Post) -> Said<'a>
        requires format { post.old.format ≡ controller.old.rack.format }
        requires room { length post.old.items + controller.old.rack.clients < post.old.slots }
        ensures answer { result ≡ (roles.call controller.old (call_as self.now)).did }
        ensures after { controller.new ≡ (roles.call controller.old (call_as self.now)).state }
        ensures sent { post.new
            ≡ posted post.old (roles.call controller.old (call_as self.now)).sent }
        ensures nodes { are_in_rack controller.old.rack
            (roles.call controller.old (call_as self.now)).sent ≡ true }
        ensures rack { controller.new.rack ≡ controller.old.rack }
    {
        match self {
            Call::Orders(command) => order_said(command, &controller.order(command, post)),
            Call::Retries => retry_said(&controller.retry(post)),
            Call::Surveys => {
                controller.survey(post);
                Said::Surveys
            }
            Call::Plans {
                promote_at,
                demote_below,
            } => plan_said(&controller.plan(*promote_at, *demote_below, post)),
        }
    }

    pub(crate) fn is_survey(&self) -> bool
        ensures { result ≡ roles.is_survey (call_as self.now) }
    {
        matches!(self, Call::Surveys)
    }
}

// Whether the controller did nothing.
pub(crate) fn is_refused(said: &Said<'_>) -> bool
    ensures { result ≡ roles.is_refused said.now }
{
    matches!(
        said,
        Said::ControlBusy { .. }
            | Said::ControlSpent { .. }
            | Said::NoSuch { .. }
            | Said::SameSwitch { .. }
            | Said::NoReport
    )
}
