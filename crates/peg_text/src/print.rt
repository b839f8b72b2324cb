//! The text of each outcome.

ghost use Rattle.std.specs.Prelude.{◌≡◌, ◌+◌, ◌≤◌, ◌++◌, length, codes, decimal};
ghost use Rattle.peg_model.specs.Trace as trace;
ghost use Rattle.peg_text.specs.Rest.{IsOwnDid, IsControlSaid};

use crate::text::Text;
use peg_event::{ClientDid, Command, ControlDid, Line, Outcome, Said, ServerDid, SwitchDid};
use peg_name::{ClientId, Note, Seq, ServerId, Version};

fn push_note(note: &Note, out: &mut Text)
    requires { length out.old + 28 ≤ 4096 }
    ensures text { out.new ≡ out.old ++ trace.note_text note.now }
    ensures room { length out.new ≤ length out.old + 28 }
{
    match note {
        Note::Unlisted => out.push_bytes(b"unlisted"),
        Note::Kept => out.push_bytes(b"kept"),
        Note::Raised => out.push_bytes(b"raised"),
        Note::Added => out.push_bytes(b"added"),
        Note::Removed { listing } => out.push_word_number(b"removed ", *listing),
    }
}

fn push_outcome(outcome: &Outcome, out: &mut Text)
    requires { length out.old + 35 ≤ 4096 }
    ensures text { out.new ≡ out.old ++ trace.outcome_text outcome.now }
    ensures room { length out.new ≤ length out.old + 35 }
{
    match outcome {
        Outcome::Listed(listing) => out.push_word_number(b"listed ", *listing),
        Outcome::Already(listing) => out.push_word_number(b"already ", *listing),
        Outcome::Full(count) => out.push_word_number(b"full ", *count),
        Outcome::Marked(mark) => out.push_word_number(b"marked ", *mark),
        Outcome::NotListed => out.push_bytes(b"not listed"),
        Outcome::AlreadyMarked(mark) => out.push_word_number(b"already marked ", *mark),
        Outcome::Ordered(server) => out.push_word_number(b"ordered ", *server),
        Outcome::Holds => out.push_bytes(b"holds"),
        Outcome::Activated(epoch) => out.push_word_number(b"activated ", *epoch),
        Outcome::Cleared => out.push_bytes(b"cleared"),
        Outcome::Fenced(base) => out.push_word_number(b"fenced ", *base),
        Outcome::NoBase => out.push_bytes(b"no base"),
        Outcome::NoVersion(_next) => out.push_bytes(b"no version"),
    }
}

fn push_answer(client: &ClientId, seq: &Seq, version: &Version, note: &Note, out: &mut Text)
    requires { length out.old + 200 ≤ 4096 }
    ensures text { out.new ≡ out.old
        ++ trace.switch_text (SwitchDid.Answered client.now seq.now version.now note.now) }
    ensures room { length out.new ≤ length out.old + 200 }
{
    out.push_client_seq(b"answers client ", client, seq);
    out.push_version(b" version ", version);
    out.push_bytes(b" ");
    push_note(note, out);
}

fn push_noted(server: &ServerId, version: &Version, note: &Note, out: &mut Text)
    requires { length out.old + 200 ≤ 4096 }
    ensures text { out.new
        ≡ out.old ++ trace.switch_text (SwitchDid.Noted server.now version.now note.now) }
    ensures room { length out.new ≤ length out.old + 200 }
{
    out.push_server(b"notes server ", server);
    out.push_version(b" version ", version);
    out.push_bytes(b" ");
    push_note(note, out);
}

fn push_voided(client: &ClientId, seq: &Seq, version: &Version, out: &mut Text)
    requires { length out.old + 200 ≤ 4096 }
    ensures text { out.new ≡ out.old ++ trace.switch_text
        (SwitchDid.Voided client.now seq.now version.now) }
    ensures room { length out.new ≤ length out.old + 200 }
{
    out.push_client_seq(b"voids client ", client, seq);
    out.push_version(b" version ", version);
}

// What a switch did with no packet to pass on.
fn push_own_did(did: &SwitchDid, out: &mut Text)
    requires room { length out.old + 200 ≤ 4096 }
    requires own { IsOwnDid did.now }
    ensures text { out.new ≡ out.old ++ trace.switch_text did.now }
    ensures room { length out.new ≤ length out.old + 200 }
{
    match did {
        SwitchDid::Applied { number, outcome } => {
            out.push_word_number(b"applies ", *number);
            out.push_bytes(b" ");
            push_outcome(outcome, out);
        }
        SwitchDid::Repeated { number } => out.push_word_number(b"repeats ", *number),
        SwitchDid::Skipped { number, last } => out.push_numbers(b"skips ", *number, b" at ", *last),
        SwitchDid::Sealed { epoch, target } => {
            out.push_word_number(b"seals epoch ", *epoch);
            out.push_switch(b" to switch ", target);
        }
        SwitchDid::Collected { held, count } => out.push_numbers(
            b"collects ",
            u64::from(*held),
            b" of ",
            u64::from(*count),
        ),
        SwitchDid::HasPart { index } => out.push_word_number(b"has part ", u64::from(*index)),
        SwitchDid::OldPart { epoch } => out.push_word_number(b"old part of epoch ", *epoch),
        SwitchDid::Activated { epoch } => out.push_word_number(b"active epoch ", *epoch),
        SwitchDid::Reported { rows } => {
            out.push_word_number(b"reports ", u64::from(*rows));
            out.push_bytes(b" rows");
        }
        SwitchDid::NotActive { epoch } => out.push_word_number(b"not active epoch ", *epoch),
        SwitchDid::Stale { last } => out.push_seq(b"stale ", last),
        SwitchDid::Exhausted { next } => out.push_version(b"exhausted ", next),
        SwitchDid::Malformed => out.push_bytes(b"malformed"),
        SwitchDid::OutOfPlace => out.push_bytes(b"out of place"),
        _ => unreachable!(),
    }
}

fn push_switch_did(did: &SwitchDid, out: &mut Text)
    requires { length out.old + 200 ≤ 4096 }
    ensures text { out.new ≡ out.old ++ trace.switch_text did.now }
    ensures room { length out.new ≤ length out.old + 200 }
{
    match did {
        SwitchDid::Read { server, key } => {
            out.push_word_key(b"forwards read ", key);
            out.push_server(b" to server ", server);
        }
        SwitchDid::Wrote {
            server,
            key,
            version,
        } => {
            out.push_key_version(b"forwards write ", key, version);
            out.push_server(b" to server ", server);
        }
        SwitchDid::Answered {
            client,
            seq,
            version,
            note,
        } => push_answer(client, seq, version, note, out),
        SwitchDid::Noted {
            server,
            version,
            note,
        } => push_noted(server, version, note, out),
        SwitchDid::Voided {
            client,
            seq,
            version,
        } => push_voided(client, seq, version, out),
        SwitchDid::VoidSkipped { client, seq } => out.push_client_seq(
            b"skips void of client ",
            client,
            seq,
        ),
        _ => push_own_did(did, out),
    }
}

fn push_server_did(did: &ServerDid, out: &mut Text)
    requires { length out.old + 200 ≤ 4096 }
    ensures text { out.new ≡ out.old ++ trace.server_text did.now }
    ensures room { length out.new ≤ length out.old + 200 }
{
    match did {
        ServerDid::Read { key, version } => out.push_key_version(b"reads ", key, version),
        ServerDid::Applied { key, version } => out.push_key_version(b"applies ", key, version),
        ServerDid::Kept { key, held } => out.push_key_version(b"keeps ", key, held),
        ServerDid::Copied {
            key,
            version,
            target,
        } => {
            out.push_key_version(b"copies ", key, version);
            out.push_server(b" to server ", target);
        }
        ServerDid::HasNone { key } => out.push_word_key(b"has no ", key),
        ServerDid::Fenced { key, version, held } => {
            out.push_key_version(b"fences ", key, version);
            out.push_version(b" from ", held);
        }
        ServerDid::Void {
            key,
            version,
            floor,
        } => {
            out.push_key_version(b"voids ", key, version);
            out.push_version(b" under ", floor);
        }
        ServerDid::Barred { key, version, old } => {
            out.push_key_version(b"bars ", key, version);
            out.push_version(b" under ", old);
        }
        ServerDid::Malformed => out.push_bytes(b"malformed"),
        ServerDid::OutOfPlace => out.push_bytes(b"out of place"),
    }
}

fn push_client_did(did: &ClientDid<'_>, out: &mut Text)
    requires { length out.old + 3140 ≤ 4096 }
    ensures text { out.new ≡ out.old ++ trace.client_text did.now }
    ensures room { length out.new ≤ length out.old + 3140 }
{
    match did {
        ClientDid::Wrote { seq, version } => {
            out.push_seq(b"answered ", seq);
            out.push_version(b" version ", version);
        }
        ClientDid::Read {
            seq,
            version,
            content,
        } => {
            out.push_seq(b"answered ", seq);
            out.push_version(b" version ", version);
            out.push_bytes(b" ");
            out.push_content(content);
        }
        ClientDid::Moved { switch, epoch } => {
            out.push_switch(b"moves to switch ", switch);
            out.push_word_number(b" epoch ", *epoch);
        }
        ClientDid::Ignored => out.push_bytes(b"ignores"),
    }
}

fn push_control_did(did: &ControlDid, out: &mut Text)
    requires { length out.old + 200 ≤ 4096 }
    ensures text { out.new ≡ out.old ++ trace.control_text did.now }
    ensures room { length out.new ≤ length out.old + 200 }
{
    match did {
        ControlDid::Took { number, outcome } => {
            out.push_word_number(b"takes ", *number);
            out.push_bytes(b" ");
            push_outcome(outcome, out);
        }
        ControlDid::HasReport { rows } => {
            out.push_word_number(b"has report of ", u64::from(*rows));
            out.push_bytes(b" rows");
        }
        ControlDid::Ignored => out.push_bytes(b"ignores"),
        ControlDid::Malformed => out.push_bytes(b"malformed"),
        ControlDid::OutOfPlace => out.push_bytes(b"out of place"),
    }
}

fn push_command(command: &Command, out: &mut Text)
    requires { length out.old + 200 ≤ 4096 }
    ensures text { out.new ≡ out.old ++ trace.command_text command.now }
    ensures room { length out.new ≤ length out.old + 200 }
{
    match command {
        Command::Promote { key } => out.push_word_key(b"promote ", key),
        Command::Demote { key } => out.push_word_key(b"demote ", key),
        Command::Copy { key, target } => {
            out.push_word_key(b"copy ", key);
            out.push_server(b" to server ", target);
        }
        Command::Fence { key } => out.push_word_key(b"fence ", key),
        Command::Handover { target } => out.push_switch(b"handover to switch ", target),
        Command::Clear => out.push_bytes(b"clear"),
    }
}

// What the controller says.
#[tactic(auto, unfolding(peg_model::specs::Trace::said_text))]
fn push_control_said(said: &Said<'_>, out: &mut Text)
    requires room { length out.old + 300 ≤ 4096 }
    requires control { IsControlSaid said.now }
    ensures text { out.new ≡ out.old ++ trace.said_text said.now }
    ensures room { length out.new ≤ length out.old + 300 }
{
    match said {
        Said::Controller { did } => {
            out.push_bytes(b"controller ");
            push_control_did(did, out);
        }
        Said::Orders { number, command } => {
            out.push_word_number(b"controller orders ", *number);
            out.push_bytes(b" ");
            push_command(command, out);
        }
        Said::ControlBusy { pending } => out.push_word_number(b"controller busy ", *pending),
        Said::ControlSpent { last } => out.push_word_number(b"controller spent ", *last),
        Said::NoSuch { target } => out.push_word_number(b"controller no such ", u64::from(*target)),
        Said::SameSwitch { switch } => out.push_switch(b"controller same switch ", switch),
        Said::Retries { number } => out.push_word_number(b"controller retries ", *number),
        Said::Announces { epoch } => out.push_word_number(b"controller announces epoch ", *epoch),
        Said::Surveys => out.push_bytes(b"controller surveys"),
        Said::Plans { demotes, promotes } => {
            out.push_numbers(b"controller plans ", *demotes, b" demote ", *promotes);
            out.push_bytes(b" promote");
        }
        Said::NoReport => out.push_bytes(b"controller has no report"),
        _ => unreachable!(),
    }
}

#[tactic(auto, unfolding(peg_model::specs::Trace::said_text))]
fn push_said(said: &Said<'_>, out: &mut Text)
    requires { length out.old + 3200 ≤ 4096 }
    ensures text { out.new ≡ out.old ++ trace.said_text said.now }
    ensures room { length out.new ≤ length out.old + 3200 }
{
    match said {
        Said::Rack => out.push_bytes(b"rack"),
        Said::End => out.push_bytes(b"end"),
        Said::Forged => out.push_bytes(b"forged"),
        Said::Read { client, seq } => out.push_client_seq(b"read ", client, seq),
        Said::Write { client, seq } => out.push_client_seq(b"write ", client, seq),
        Said::Delete { client, seq } => out.push_client_seq(b"delete ", client, seq),
        Said::Busy { client, seq } => out.push_client_seq(b"busy ", client, seq),
        Said::Spent { client } => out.push_client(b"spent ", client),
        Said::Resend { client, seq } => out.push_client_seq(b"resend ", client, seq),
        Said::GiveUp { client, seq } => out.push_client_seq(b"giveup ", client, seq),
        Said::NothingOpen { client } => out.push_client(b"nothing open ", client),
        Said::NoSuchPacket { number, count } => out.push_numbers(
            b"no such packet ",
            *number,
            b" of ",
            u64::from(*count),
        ),
        Said::Switch { switch, did } => {
            out.push_switch(b"switch ", switch);
            out.push_bytes(b" ");
            push_switch_did(did, out);
        }
        Said::Server { server, did } => {
            out.push_server(b"server ", server);
            out.push_bytes(b" ");
            push_server_did(did, out);
        }
        Said::Client { client, did } => {
            out.push_client(b"client ", client);
            out.push_bytes(b" ");
            push_client_did(did, out);
        }
        _ => push_control_said(said, out),
    }
}

fn push_sent(sent: &Option<(u32, u32)>, out: &mut Text)
    requires { length out.old + 50 ≤ 4096 }
    ensures text { out.new ≡ out.old ++ trace.sent_text sent.now }
    ensures room { length out.new ≤ length out.old + 50 }
{
    if let Some((first, last)) = sent {
        out.push_word_number(b" sends ", u64::from(*first));
        if first != last {
            out.push_word_number(b"..", u64::from(*last));
        }
    }
}

pub(crate) fn push_body(line: &Line<'_>, out: &mut Text)
    requires { length out.old + 3250 ≤ 4096 }
    ensures { out.new ≡ out.old ++ trace.body_text line.now }
{
    push_said(&line.said, out);
    push_sent(&line.sent, out);
}

/// Prints the text of an outcome, without a number and without what was sent.
pub fn said_text(said: &Said<'_>, out: &mut Text)
    ensures { out.new ≡ trace.said_text said.now }
{
    out.clear();
    push_said(said, out);
}

/// Prints the text of an outcome and of what was sent, without a number.
pub fn body_text(line: &Line<'_>, out: &mut Text)
    ensures { out.new ≡ trace.body_text line.now }
{
    out.clear();
    push_body(line, out);
}

/// Prints the line of the trace at this place.
pub fn line_text(place: u64, line: &Line<'_>, out: &mut Text)
    ensures { out.new ≡ trace.line_text place line.now }
{
    out.clear();
    out.push_number(place);
    out.push_bytes(b" ");
    push_body(line, out);
}
