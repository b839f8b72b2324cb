//! The lines of a rack over a wire, read, and those of its datagrams, printed.
ghost use Rattle.std.specs.Prelude.{◌≡◌, ◌++◌, IfSome, Some, option_map, codes, decimal};
ghost use Rattle.peg_model.specs.Schedule.{node_words};
ghost use Rattle.peg_meaning.specs.RackWord as book;
ghost use Rattle.peg_meaning.specs.RackWord.{IsRackEntryLine};
ghost use Rattle.peg_text.specs.Events.{event_by};
ghost use Rattle.peg_text.specs.Takes as takes;
ghost use Rattle.peg_text.specs.Takes.{entry_in};

use crate::event::{event_by, read_node, read_pick};
use crate::text::Text;
use crate::words::{Words, is};
use peg_event::Event;
use peg_name::{Config, Node};

/// A line of a rack over a wire, behind its rack line.
#[derive(Debug, PartialEq, Eq, Drop)]
pub enum RackEntry<'a> {
    /// What a client or the controller is asked for.
    Event(Event<'a>),
    /// One receive at a node, and the pick of the step that a packet makes.
    Take { node: Node, pick: u64 },
    /// One receive at each node.
    Round,
    End,
}

fn is_of_nodes(event: &Event<'_>) -> bool
    ensures { result ≡ takes.is_of_nodes event.now }
{
    match event {
        Event::Deliver { .. } | Event::Junk { .. } => false,
        _ => true,
    }
}

// What a client or the controller is asked for.
pub(crate) fn node_event<'a>(
    config: &Config,
    verb: &[u8],
    words: &mut Words<'a>,
    room: &'a mut [u8; 1024],
) -> Option<Event<'a>>
    ensures { option_map (λ e. (e, words.new)) result
        ≡ takes.node_event (event_by config.now verb.now words.old) }
{
    let event = event_by(config, verb, words, room)?;
    if is_of_nodes(&event) {
        Some(event)
    } else {
        None
    }
}

fn entry_by<'a>(
    config: &Config,
    verb: &[u8],
    words: &mut Words<'a>,
    room: &'a mut [u8; 1024],
) -> Option<RackEntry<'a>>
    ensures { option_map (λ e. (entry_in e, words.new)) result
        ≡ takes.entry_by config.now verb.now words.old }
{
    if is(verb, b"take") {
        let node = read_node(config, words)?;
        let pick = read_pick(words)?;
        return Some(RackEntry::Take { node, pick });
    }
    if is(verb, b"round") {
        return Some(RackEntry::Round);
    }
    if is(verb, b"end") {
        return Some(RackEntry::End);
    }
    let event = node_event(config, verb, words, room)?;
    Some(RackEntry::Event(event))
}

fn entry_of<'a>(config: &Config, line: &'a [u8], room: &'a mut [u8; 1024]) -> Option<RackEntry<'a>>
    ensures { option_map entry_in result ≡ takes.entry_of config.now line.entry.now }
{
    let mut words = Words::of(line);
    let verb = words.next()?;
    let entry = entry_by(config, verb, &mut words, room)?;
    match words.next() {
        Some(_more) => None,
        None => Some(entry),
    }
}

/// What a line of a rack over a wire says behind the rack line: an event of a client or of the
/// controller, `take NODE` or `take NODE PICK`, `round`, or `end`. A pick that is not written is 0.
/// `None`: it is outside the grammar. The bytes that it hands on are lent from the line or from the
/// room, where they are put as the line spells them.
pub fn rack_entry_of<'a>(
    config: &Config,
    line: &'a [u8],
    room: &'a mut [u8; 1024],
) -> Option<RackEntry<'a>>
    ensures sound { IfSome result
        (λ e. IsRackEntryLine config.now line.entry.now (entry_in e)) }
    ensures complete { (e : book.RackEntry) → IsRackEntryLine config.now line.entry.now e
        → option_map entry_in result ≡ Some e }
{
    prove!(config.clients() > 0);
    entry_of(config, line, room)
}

/// Prints the line of a datagram that no packet to its node was.
pub fn foreign_text(place: u64, node: &Node, out: &mut Text)
    ensures { out.new ≡ decimal place ++ codes " foreign " ++ node_words node.now }
{
    out.clear();
    out.push_number(place);
    out.push_node(b" foreign ", node);
}

/// Prints the line `end` of a rack over a wire: how many datagrams were foreign.
pub fn foreign_count_text(place: u64, count: u64, out: &mut Text)
    ensures { out.new ≡ decimal place ++ codes " end foreign " ++ decimal count }
{
    out.clear();
    out.push_numbers(b"", place, b" end foreign ", count);
}
