//! The lines of the records of all nodes, read, and those of the verdict on them, printed.
ghost use Rattle.std.specs.Prelude.{◌≡◌, ◌++◌, IfSome, Some, option_map, codes, decimal};
ghost use Rattle.peg_meaning.specs.Records as book;
ghost use Rattle.peg_meaning.specs.Records.{Audited, IsEntryLine};
ghost use Rattle.peg_text.specs.Audits as audits;
ghost use Rattle.peg_text.specs.Audits.{entry_in, IsStageOf};

use crate::event::read_node;
use crate::taking::node_event;
use crate::text::Text;
use crate::words::{Words, is};
use peg_event::Event;
use peg_name::{Config, Node};

// The most bytes of a recorded datagram.
const DATAGRAM_MOST: usize = 1153;

/// A line of the records of all nodes, behind the rack line.
#[derive(Debug, Drop)]
pub enum AuditEntry<'a> {
    /// What a client or the controller was asked for.
    Event(Event<'a>),
    /// A datagram that a node took, and the pick of its step.
    Took {
        node: Node,
        pick: u64,
        bytes: &'a [u8],
    },
    /// A datagram that the last event sent to a node.
    Sent {
        node: Node,
        bytes: &'a [u8],
    },
    End,
}

fn took_entry<'a>(
    config: &Config,
    words: &mut Words<'a>,
    datagram: &'a mut [u8; 1153],
) -> Option<AuditEntry<'a>>
    ensures { option_map (λ e. (entry_in e, words.new)) result
        ≡ audits.took_entry config.now words.old }
{
    let node = read_node(config, words)?;
    let pick = words.number()?;
    let bytes = words.hex(DATAGRAM_MOST, datagram)?;
    Some(AuditEntry::Took { node, pick, bytes })
}

fn sent_entry<'a>(
    config: &Config,
    words: &mut Words<'a>,
    datagram: &'a mut [u8; 1153],
) -> Option<AuditEntry<'a>>
    ensures { option_map (λ e. (entry_in e, words.new)) result
        ≡ audits.sent_entry config.now words.old }
{
    let node = read_node(config, words)?;
    let bytes = words.hex(DATAGRAM_MOST, datagram)?;
    Some(AuditEntry::Sent { node, bytes })
}

fn entry_by<'a>(
    config: &Config,
    has_begun: bool,
    verb: &[u8],
    words: &mut Words<'a>,
    room: &'a mut [u8; 1024],
    datagram: &'a mut [u8; 1153],
) -> Option<AuditEntry<'a>>
    ensures { option_map (λ e. (entry_in e, words.new)) result
        ≡ audits.entry_by config.now has_begun verb.now words.old }
{
    if is(verb, b"took") {
        return took_entry(config, words, datagram);
    }
    if is(verb, b"sent") {
        if !has_begun {
            return None;
        }
        return sent_entry(config, words, datagram);
    }
    if is(verb, b"end") {
        return Some(AuditEntry::End);
    }
    let event = node_event(config, verb, words, room)?;
    Some(AuditEntry::Event(event))
}

fn entry_of<'a>(
    config: &Config,
    has_begun: bool,
    line: &'a [u8],
    room: &'a mut [u8; 1024],
    datagram: &'a mut [u8; 1153],
) -> Option<AuditEntry<'a>>
    ensures { option_map entry_in result ≡ audits.entry_of config.now has_begun line.entry.now }
{
    let mut words = Words::of(line);
    let verb = words.next()?;
    let entry = entry_by(config, has_begun, verb, &mut words, room, datagram)?;
    match words.next() {
        Some(_more) => None,
        None => Some(entry),
    }
}

/// What a line of the records of all nodes says behind the rack line: an event of a client or of the
/// controller, `took NODE PICK HEX`, `sent NODE HEX` where an event has come before, or `end`.
/// `None`: it is outside the grammar. A value is lent from the line or from the room, where it is
/// put as the line spells it, and a datagram from the room for datagrams.
pub fn audit_entry_of<'a>(
    config: &Config,
    has_begun: bool,
    line: &'a [u8],
    room: &'a mut [u8; 1024],
    datagram: &'a mut [u8; 1153],
) -> Option<AuditEntry<'a>>
    ensures sound { (a : Audited) → IsStageOf a config.now has_begun
        → IfSome result (λ e. IsEntryLine a line.entry.now (entry_in e)) }
    ensures complete { (a : Audited) → IsStageOf a config.now has_begun
        → (e : book.AuditEntry) → IsEntryLine a line.entry.now e
        → option_map entry_in result ≡ Some e }
{
    prove!(config.clients() > 0);
    entry_of(config, has_begun, line, room, datagram)
}

/// Prints the line of an audit that found nothing wrong: how many operations there are, and how
/// many keys have one.
pub fn yes_text(operations: u32, keys: u64, out: &mut Text)
    ensures { out.new
        ≡ codes "yes " ++ decimal operations ++ codes " operations " ++ decimal keys
        ++ codes " keys" }
{
    out.clear();
    out.push_numbers(b"yes ", u64::from(operations), b" operations ", keys);
    out.push_bytes(b" keys");
}

/// Prints the line of an audit that found a datagram which nobody had sent, taken by this line.
pub fn no_foreign_text(line: u64, out: &mut Text)
    ensures { out.new ≡ codes "no foreign " ++ decimal line }
{
    out.clear();
    out.push_word_number(b"no foreign ", line);
}

/// Prints the line of an audit that found something else sent behind the event of this line.
pub fn no_other_text(line: u64, out: &mut Text)
    ensures { out.new ≡ codes "no other " ++ decimal line }
{
    out.clear();
    out.push_word_number(b"no other ", line);
}
