//! What a line says of a step.
ghost use Rattle.std.specs.Prelude.{◌≡◌, ℕ, List, true};
ghost use Rattle.peg_model.specs.World.{new_op, issue_said, resend_said, give_up_said, junk_said};
ghost use Rattle.peg_model.specs.World.{order_said, retry_said, plan_said};
ghost use Rattle.peg_event.specs.declared.answers.Issue.TheVariants as issue;
ghost use Rattle.peg_model.specs.Reading.{packet_of};
ghost use Rattle.peg_event.specs.declared.SwitchDid.TheVariants as switch_did;
ghost use Rattle.peg_event.specs.declared.Outcome.TheVariants as outcome;
ghost use Rattle.peg_model.specs.Packet as model;
ghost use Rattle.peg_model.specs.Packet.{in_range, what_in_range};
ghost use Rattle.peg_packet.specs.Seen.{seen, what_seen};
ghost use Rattle.peg_world.specs.Notes.{note_by, note_of, asked_size};

use peg_event::{
    Act, Ask, ClientDid, Command, ControlDid, Issue, Op, Order, Outcome, Plan, Retry, Said,
    ServerDid, SwitchDid,
};
use peg_name::{ClientId, Content, Format, Key, Node, Seq, Version};
use peg_packet::{Packet, What, decode, key_of};

/// An operation as it begins at this place.
pub(crate) fn new_op<'a>(client: ClientId, key: &Key, ask: &Ask<'a>, place: u64) -> Op<'a>
    ensures { result ≡ new_op client key.now ask.now place }
{
    let (act, content) = match ask {
        Ask::Read => (Act::Read, Content::Absent),
        Ask::Write(content) => (Act::Write, content.again()),
    };
    Op {
        client,
        key: *key,
        act,
        content,
        issued: place,
        answered: None,
    }
}

/// How many bytes the content has that is written.
pub(crate) fn asked_size(ask: &Ask<'_>) -> usize
    ensures { result ≡ asked_size ask.now }
{
    match ask {
        Ask::Write(Content::Present(value)) => value.bytes().len(),
        Ask::Read | Ask::Write(Content::Absent) => 0,
    }
}

/// What is said of an operation that was to begin.
pub(crate) fn issue_said<'a>(client: ClientId, ask: &Ask<'_>, issue: &Issue) -> Said<'a>
    ensures { result ≡ issue_said client ask.now issue.now }
{
    match issue {
        Issue::Busy { seq } => Said::Busy { client, seq: *seq },
        Issue::Spent => Said::Spent { client },
        Issue::Sent { seq } => sent_said(client, ask, *seq),
    }
}

fn sent_said<'a>(client: ClientId, ask: &Ask<'_>, seq: Seq) -> Said<'a>
    ensures { result ≡ issue_said client ask.now (issue.Sent seq) }
{
    match ask {
        Ask::Read => Said::Read { client, seq },
        Ask::Write(Content::Present(_)) => Said::Write { client, seq },
        Ask::Write(Content::Absent) => Said::Delete { client, seq },
    }
}

/// What is said of a request that was to be sent again.
pub(crate) fn resend_said<'a>(client: ClientId, resent: Option<Seq>) -> Said<'a>
    ensures { result ≡ resend_said client resent }
{
    match resent {
        Some(seq) => Said::Resend { client, seq },
        None => Said::NothingOpen { client },
    }
}

/// What is said of an operation that was to be given up.
pub(crate) fn give_up_said<'a>(client: ClientId, given_up: Option<Seq>) -> Said<'a>
    ensures { result ≡ give_up_said client given_up }
{
    match given_up {
        Some(seq) => Said::GiveUp { client, seq },
        None => Said::NothingOpen { client },
    }
}

/// What a switch's step is noted for beside the switch.
#[derive(Drop)]
pub(crate) enum Note {
    /// A write was forwarded with this version.
    Stamped {
        client: ClientId,
        seq: Seq,
        version: Version,
    },
    /// A key was listed.
    Listed {
        key: Key,
    },
    Nothing,
}

/// What a switch's step on the bytes of a packet is noted for. They are read again only where it
/// stamped a write or applied a command.
pub(crate) fn note_of(bytes: &[u8], did: &SwitchDid) -> Note
    ensures { result ≡ note_of (packet_of bytes.now) did.now }
{
    match did {
        SwitchDid::Wrote { version, .. } => stamped_in(bytes, *version),
        SwitchDid::Applied { outcome, .. } => listed_in(bytes, outcome),
        _ => Note::Nothing,
    }
}

fn stamped_in(bytes: &[u8], version: Version) -> Note
    ensures { (server : ℕ) (written : List ℕ) → result
        ≡ note_of (packet_of bytes.now) (switch_did.Wrote server written version) }
{
    match decode(bytes) {
        Some((_format, packet)) => stamped(&packet, version),
        None => Note::Nothing,
    }
}

fn listed_in(bytes: &[u8], outcome: &Outcome) -> Note
    ensures { (number : ℕ)
        → result ≡ note_of (packet_of bytes.now) (switch_did.Applied number outcome.now) }
{
    match decode(bytes) {
        Some((format, packet)) => listed(format, &packet, outcome),
        None => Note::Nothing,
    }
}

fn stamped(packet: &Packet<'_>, version: Version) -> Note
    ensures { (server : ℕ) (written : List ℕ)
        → result ≡ note_by (seen packet.now) (switch_did.Wrote server written version) }
{
    match packet {
        Packet::Write { client, seq, .. } => Note::Stamped {
            client: *client,
            seq: *seq,
            version,
        },
        _ => Note::Nothing,
    }
}

#[tactic(auto, unfolding(peg_model::specs::Packet::in_range))]
fn listed(format: Format, packet: &Packet<'_>, outcome: &Outcome) -> Note
    requires { in_range format (seen packet.now) ≡ true }
    ensures { (number : ℕ)
        → result ≡ note_by (seen packet.now) (switch_did.Applied number outcome.now) }
{
    let Outcome::Listed(_) = outcome else {
        return Note::Nothing;
    };
    match packet {
        Packet::Command { what, .. } => promoted(format, what),
        _ => Note::Nothing,
    }
}

fn promoted(format: Format, what: &What<'_>) -> Note
    requires { what_in_range format (what_seen what.now) ≡ true }
    ensures { (number applied listing : ℕ) → result ≡ note_by (model.Command number (what_seen what.now))
        (switch_did.Applied applied (outcome.Listed listing)) }
{
    match what {
        What::Promote { key } => Note::Listed { key: key_of(key) },
        _ => Note::Nothing,
    }
}

/// What is said of junk that was handed to a node: every node refuses bytes that no packet spells,
/// and others aren't handed over.
pub(crate) fn junk_said<'a>(to: Node, bytes: &[u8]) -> Said<'a>
    ensures { result ≡ junk_said to (packet_of bytes.now) }
{
    if decode(bytes).is_some() {
        return Said::Forged;
    }
    match to {
        Node::Client(client) => Said::Client {
            client,
            did: ClientDid::Ignored,
        },
        Node::Server(server) => Said::Server {
            server,
            did: ServerDid::Malformed,
        },
        Node::Switch(switch) => Said::Switch {
            switch,
            did: SwitchDid::Malformed,
        },
        Node::Controller => Said::Controller {
            did: ControlDid::Malformed,
        },
    }
}

/// What is said of a command that was to be ordered.
pub(crate) fn order_said<'a>(command: &Command, order: &Order) -> Said<'a>
    ensures { result ≡ order_said command.now order.now }
{
    match order {
        Order::Busy { pending } => Said::ControlBusy { pending: *pending },
        Order::Spent { last } => Said::ControlSpent { last: *last },
        Order::NoSuch { target } => Said::NoSuch { target: *target },
        Order::SameSwitch { switch } => Said::SameSwitch { switch: *switch },
        Order::Sent { number } => Said::Orders {
            number: *number,
            command: *command,
        },
    }
}

/// What is said of a controller that sent again.
pub(crate) fn retry_said<'a>(retry: &Retry) -> Said<'a>
    ensures { result ≡ retry_said retry.now }
{
    match retry {
        Retry::Command { number } => Said::Retries { number: *number },
        Retry::Announced { epoch } => Said::Announces { epoch: *epoch },
    }
}

/// What is said of a plan.
pub(crate) fn plan_said<'a>(plan: &Plan) -> Said<'a>
    ensures { result ≡ plan_said plan.now }
{
    match plan {
        Plan::Busy { pending } => Said::ControlBusy { pending: *pending },
        Plan::Spent { last } => Said::ControlSpent { last: *last },
        Plan::NoReport => Said::NoReport,
        Plan::Planned { demotes, promotes } => Said::Plans {
            demotes: *demotes,
            promotes: *promotes,
        },
    }
}
