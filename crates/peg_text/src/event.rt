//! The lines of a schedule, read.
ghost use Rattle.std.specs.Prelude.{◌≡◌, ◌≤◌, ◌<◌, IfSome, option_map, codes};
ghost use Rattle.peg_text.specs.Reading.{next_by, both_by, number_below};
ghost use Rattle.peg_text.specs.Events as events;
ghost use Rattle.peg_text.specs.EntryLine.{IsEntryLine};
ghost use Rattle.peg_model.specs.Schedule.{IsEventLine};
ghost use Rattle.peg_event.specs.declared.Event as book;

use crate::words::{Words, is, number_of};
use peg_event::{Event, Junk};
use peg_name::{ClientId, Config, Format, Key, Node, ServerId, SwitchId, Value};

/// A line of a schedule behind the rack line.
#[derive(Debug, PartialEq, Eq, Drop)]
pub enum Entry<'a> {
    Event(Event<'a>),
    End,
}

fn read_client(config: &Config, words: &mut Words<'_>) -> Option<ClientId>
    ensures { option_map (λ client. (client, words.new)) result
        ≡ events.read_client config.now words.old }
{
    let number = words.number_below(config.clients())?;
    Some(ClientId(number as u16))
}

fn read_server(config: &Config, words: &mut Words<'_>) -> Option<ServerId>
    ensures { option_map (λ server. (server, words.new)) result
        ≡ next_by (number_below config.now.servers) words.old }
{
    let number = words.number_below(config.servers())?;
    Some(ServerId(number as u8))
}

fn read_switch(config: &Config, words: &mut Words<'_>) -> Option<SwitchId>
    ensures { option_map (λ switch. (switch, words.new)) result
        ≡ next_by (number_below config.now.switches) words.old }
{
    let number = words.number_below(config.switches())?;
    Some(SwitchId(number as u8))
}

fn read_target(words: &mut Words<'_>) -> Option<u8>
    ensures { option_map (λ target. (target, words.new)) result ≡ events.read_target words.old }
{
    let number = words.number_below(256)?;
    Some(number as u8)
}

fn read_value<'a>(
    config: &Config,
    words: &mut Words<'a>,
    room: &'a mut [u8; 1024],
) -> Option<Value<'a>>
    ensures { option_map (λ value. (value, words.new)) result
        ≡ events.read_value config.now words.old }
{
    words.value(config.format().most_of_value(), room)
}

fn read_client_key(config: &Config, words: &mut Words<'_>) -> Option<(ClientId, Key)>
    ensures { option_map (λ read. (read, words.new)) result
        ≡ both_by (events.read_client config.now) events.read_key words.old }
{
    let client = read_client(config, words)?;
    let key = words.key()?;
    Some((client, key))
}

// The pick is 0 where the line ends before it.
pub(crate) fn read_pick(words: &mut Words<'_>) -> Option<u64>
    ensures { option_map (λ pick. (pick, words.new)) result ≡ events.read_pick words.old }
{
    match words.next() {
        Some(word) => number_of(word),
        None => Some(0),
    }
}

pub(crate) fn read_node(config: &Config, words: &mut Words<'_>) -> Option<Node>
    ensures { option_map (λ node. (node, words.new)) result
        ≡ events.read_node config.now words.old }
{
    let word = words.next()?;
    if is(word, b"client") {
        Some(Node::Client(read_client(config, words)?))
    } else if is(word, b"server") {
        Some(Node::Server(read_server(config, words)?))
    } else if is(word, b"switch") {
        Some(Node::Switch(read_switch(config, words)?))
    } else if is(word, b"controller") {
        Some(Node::Controller)
    } else {
        None
    }
}

fn bare_event<'a>(verb: &[u8]) -> Option<Event<'a>>
    ensures { result ≡ events.bare_event verb.now }
{
    if is(verb, b"clear") {
        Some(Event::Clear)
    } else if is(verb, b"retry") {
        Some(Event::Retry)
    } else if is(verb, b"survey") {
        Some(Event::Survey)
    } else {
        None
    }
}

fn control_event<'a>(verb: &[u8], words: &mut Words<'a>) -> Option<Event<'a>>
    ensures { option_map (λ event. (event, words.new)) result
        ≡ events.control_event verb.now words.old }
{
    if is(verb, b"promote") {
        let key = words.key()?;
        return Some(Event::Promote { key });
    }
    if is(verb, b"demote") {
        let key = words.key()?;
        return Some(Event::Demote { key });
    }
    if is(verb, b"copy") {
        let key = words.key()?;
        let target = read_target(words)?;
        return Some(Event::Copy { key, target });
    }
    if is(verb, b"fence") {
        let key = words.key()?;
        return Some(Event::Fence { key });
    }
    if is(verb, b"handover") {
        let target = read_target(words)?;
        return Some(Event::Handover { target });
    }
    if is(verb, b"plan") {
        let promote_at = words.number()?;
        let demote_below = words.number()?;
        return Some(Event::Plan {
            promote_at,
            demote_below,
        });
    }
    bare_event(verb)
}

fn packet_event<'a>(
    config: &Config,
    verb: &[u8],
    words: &mut Words<'a>,
    room: &'a mut [u8; 1024],
) -> Option<Event<'a>>
    ensures { option_map (λ event. (event, words.new)) result
        ≡ events.packet_event config.now verb.now words.old }
{
    if is(verb, b"deliver") {
        let packet = words.number()?;
        let pick = read_pick(words)?;
        return Some(Event::Deliver { packet, pick });
    }
    if is(verb, b"junk") {
        let to = read_node(config, words)?;
        let bytes = Junk::make(words.hex(1000, room)?);
        return Some(Event::Junk { to, bytes });
    }
    control_event(verb, words)
}

fn read_delete<'a>(config: &Config, words: &mut Words<'a>) -> Option<Event<'a>>
    ensures { option_map (λ event. (event, words.new)) result
        ≡ events.deletes config.now.format config.now words.old }
{
    match config.format() {
        Format::One => None,
        Format::Two => {
            let (client, key) = read_client_key(config, words)?;
            Some(Event::Delete { client, key })
        }
    }
}

pub(crate) fn event_by<'a>(
    config: &Config,
    verb: &[u8],
    words: &mut Words<'a>,
    room: &'a mut [u8; 1024],
) -> Option<Event<'a>>
    ensures { option_map (λ event. (event, words.new)) result
        ≡ events.event_by config.now verb.now words.old }
{
    if is(verb, b"read") {
        let (client, key) = read_client_key(config, words)?;
        return Some(Event::Read { client, key });
    }
    if is(verb, b"write") {
        let client = read_client(config, words)?;
        let key = words.key()?;
        let value = read_value(config, words, room)?;
        return Some(Event::Write { client, key, value });
    }
    if is(verb, b"delete") {
        return read_delete(config, words);
    }
    if is(verb, b"resend") {
        let client = read_client(config, words)?;
        return Some(Event::Resend { client });
    }
    if is(verb, b"giveup") {
        let client = read_client(config, words)?;
        return Some(Event::GiveUp { client });
    }
    packet_event(config, verb, words, room)
}

// What these words say, all of them.
pub(crate) fn event_in<'a>(
    config: &Config,
    mut words: Words<'a>,
    room: &'a mut [u8; 1024],
) -> Option<Event<'a>>
    ensures { result ≡ events.event_in config.now words.entry }
{
    let verb = words.next()?;
    let event = event_by(config, verb, &mut words, room)?;
    match words.next() {
        Some(_more) => None,
        None => Some(event),
    }
}

fn entry_of<'a>(config: &Config, line: &'a [u8], room: &'a mut [u8; 1024]) -> Option<Entry<'a>>
    ensures { result ≡ events.entry_of config.now line.entry.now }
{
    match event_in(config, Words::of(line), room) {
        Some(event) => Some(Entry::Event(event)),
        None if is(line, b"end") => Some(Entry::End),
        None => None,
    }
}

/// What a line of a schedule says behind the rack line. `None`: it is outside the grammar. The bytes
/// that it hands on are lent from the line or from the room, where they are put as the line spells
/// them.
pub fn event_of<'a>(config: &Config, line: &'a [u8], room: &'a mut [u8; 1024]) -> Option<Entry<'a>>
    ensures event { (e : book.Event) → IsEventLine config.now line.entry.now e → result
        ≡ Some (Entry.Event e) }
    ensures end { line.entry.now ≡ codes "end" → result ≡ Some Entry.End }
    ensures sound { IfSome result (IsEntryLine config.now line.entry.now) }
{
    prove!(config.clients() > 0);
    entry_of(config, line, room)
}
