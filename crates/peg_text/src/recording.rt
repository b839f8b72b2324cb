//! The lines of a process that records, read, and those of its datagrams, printed.
ghost use Rattle.std.specs.Prelude.{◌≡◌, ◌≤◌, IfSome, Some, length, option_map};
ghost use Rattle.peg_event.specs.declared.Event as event;
ghost use Rattle.peg_meaning.specs.Records as book;
ghost use Rattle.peg_meaning.specs.Records.{took_line, sent_line};
ghost use Rattle.peg_text.specs.Recordings as recordings;
ghost use Rattle.peg_text.specs.Recordings.{entry_in, IsRecordedLine};

use crate::event::{event_by, read_pick};
use crate::text::Text;
use crate::words::{Words, is};
use peg_event::Event;
use peg_name::{Config, Node};

/// A line of a process that records.
#[derive(Debug, Drop)]
pub enum RecordEntry<'a> {
    /// What is to happen at a node, as in a schedule.
    Event(Event<'a>),
    /// One receive, and the pick of the step that a datagram makes.
    Take { pick: u64 },
    End,
}

fn entry_by<'a>(
    config: &Config,
    verb: &[u8],
    words: &mut Words<'a>,
    room: &'a mut [u8; 1024],
) -> Option<RecordEntry<'a>>
    ensures { option_map (λ e. (entry_in e, words.new)) result
        ≡ recordings.entry_by config.now verb.now words.old }
{
    if is(verb, b"take") {
        let pick = read_pick(words)?;
        return Some(RecordEntry::Take { pick });
    }
    if is(verb, b"end") {
        return Some(RecordEntry::End);
    }
    let event = event_by(config, verb, words, room)?;
    Some(RecordEntry::Event(event))
}

fn entry_of<'a>(
    config: &Config,
    line: &'a [u8],
    room: &'a mut [u8; 1024],
) -> Option<RecordEntry<'a>>
    ensures { option_map entry_in result ≡ recordings.entry_of config.now line.entry.now }
{
    let mut words = Words::of(line);
    let verb = words.next()?;
    let entry = entry_by(config, verb, &mut words, room)?;
    match words.next() {
        Some(_more) => None,
        None => Some(entry),
    }
}

/// What a line of a process that records says: an event as in a schedule, which has to be one of its
/// node, `take` or `take PICK`, or `end`. A pick that is not written is 0. `None`: it is outside the grammar. The
/// bytes that it hands on are lent from the line or from the room, where they are put as the line
/// spells them.
pub fn record_entry_of<'a>(
    config: &Config,
    line: &'a [u8],
    room: &'a mut [u8; 1024],
) -> Option<RecordEntry<'a>>
    ensures sound { IfSome result
        (λ e. IsRecordedLine config.now line.entry.now (entry_in e)) }
    ensures complete { (e : book.RecordEntry event.Event)
        → IsRecordedLine config.now line.entry.now e → option_map entry_in result ≡ Some e }
{
    prove!(config.clients() > 0);
    entry_of(config, line, room)
}

/// Prints the line of a datagram that a node took, with the pick of its step.
pub fn took_text(node: &Node, pick: u64, bytes: &[u8], out: &mut Text)
    requires { length bytes.now ≤ 1153 }
    ensures { out.new ≡ took_line node.now pick bytes.now }
{
    out.clear();
    out.push_node(b"took ", node);
    out.push_word_number(b" ", pick);
    out.push_bytes(b" ");
    out.push_hex(bytes);
}

/// Prints the line of a datagram that an event sent to a node.
pub fn sent_text(node: &Node, bytes: &[u8], out: &mut Text)
    requires { length bytes.now ≤ 1153 }
    ensures { out.new ≡ sent_line node.now bytes.now }
{
    out.clear();
    out.push_node(b"sent ", node);
    out.push_bytes(b" ");
    out.push_hex(bytes);
}
