//! The lines of several racks among which the keys are divided, read and printed.
ghost use Rattle.std.specs.Prelude.{◌≡◌, ◌≤◌, ◌<◌, ◌++◌, ℕ, IfSome, Some, option_map, length, map};
ghost use Rattle.std.specs.Prelude.{All, sum, codes, decimal};
ghost use Rattle.peg_name.specs.Name.{InLimits};
ghost use Rattle.peg_model.specs.Trace as trace;
ghost use Rattle.peg_meaning.specs.Racks as book;
ghost use Rattle.peg_meaning.specs.Racks.{Division, IsDivisionLine, IsRacksWordLine};
ghost use Rattle.peg_text.specs.Reading.{words_of};
ghost use Rattle.peg_text.specs.Divides as divides;
ghost use Rattle.peg_text.specs.Divides.{event_said, entry_in};

use crate::event::event_in;
use crate::print::push_body;
use crate::text::Text;
use crate::words::{Words, is};
use peg_event::{Event, Line};
use peg_name::{Config, Key};

/// The most racks among which keys are divided.
const RACKS_MOST: u64 = 8;

/// An event of several racks.
#[derive(Debug, PartialEq, Eq, Drop)]
pub enum RacksEvent<'a> {
    /// A read, a write or a delete: it goes to the rack of its key.
    Routed(Event<'a>),
    /// Any other event, which names its rack.
    Within { rack: u8, event: Event<'a> },
}

/// A line of several racks, behind their rack lines.
#[derive(Debug, PartialEq, Eq, Drop)]
pub enum RacksLine<'a> {
    Event(RacksEvent<'a>),
    End,
}

fn sum_of(bytes: &[u8]) -> u64
    requires { length bytes.now ≤ 32 }
    ensures { result ≡ sum bytes.now }
{
    let mut total = 0;
    for byte in bytes {
        total += u64::from(*byte);
    }
    total
}

/// The rack of a key: the sum of its bytes modulo the number of racks.
pub fn rack_for(key: &Key, racks: u8) -> u8
    requires some { 1 ≤ racks }
    ensures rack { result ≡ book.rack_for key.now racks }
    ensures below { result < racks }
{
    (sum_of(key.bytes()) % u64::from(racks)) as u8
}

/// The rack that takes an event, where there are so many: that of its key, or the one that it names.
pub fn rack_taking(racks: u8, event: &RacksEvent<'_>) -> u8
    requires some { 1 ≤ racks }
    ensures { result ≡ book.rack_of racks (event_said event.now) }
{
    match event {
        RacksEvent::Within { rack, .. } => *rack,
        RacksEvent::Routed(event) => match event {
            Event::Read { key, .. } | Event::Write { key, .. } | Event::Delete { key, .. } => {
                rack_for(key, racks)
            }
            _ => 0,
        },
    }
}

fn is_routed(event: &Event<'_>) -> bool
    ensures { result ≡ divides.is_routed event.now }
{
    matches!(
        event,
        Event::Read { .. } | Event::Write { .. } | Event::Delete { .. }
    )
}

fn are_in_limits(configs: &[Config])
    ensures { All InLimits configs.now }
{
    for config in configs {
        prove!(config.clients() > 0);
    }
}

// The rack of the key that stands third in a line, as in each line of an operation.
fn rack_named(racks: u8, line: &[u8]) -> Option<u8>
    requires some { 1 ≤ racks }
    ensures rack { result ≡ divides.rack_named racks (words_of line.now) }
    ensures below { IfSome result (λ rack. rack < racks) }
{
    let mut words = Words::of(line);
    words.next()?;
    words.next()?;
    let key = words.key()?;
    Some(rack_for(&key, racks))
}

// What these words say to a rack, in a line of so many bytes.
fn event_for<'a>(
    config: &Config,
    count: usize,
    words: Words<'a>,
    room: &'a mut [u8; 1024],
) -> Option<Event<'a>>
    ensures { result ≡ divides.event_for (Some config.now) count words.entry }
{
    if count > config.format().most_of_line() {
        return None;
    }
    event_in(config, words, room)
}

// An operation, which stands alone in its line.
fn routed<'a>(configs: &[Config], line: &'a [u8], room: &'a mut [u8; 1024]) -> Option<RacksLine<'a>>
    requires some { 1 ≤ length configs.now }
    requires few { length configs.now ≤ 8 }
    ensures { option_map entry_in result ≡ divides.routed configs.now line.entry.now }
{
    let rack = rack_named(configs.len() as u8, line)?;
    let event = event_for(
        &configs[usize::from(rack)],
        line.len(),
        Words::of(line),
        room,
    )?;
    if !is_routed(&event) {
        return None;
    }
    Some(RacksLine::Event(RacksEvent::Routed(event)))
}

// Any other event, behind the number of its rack.
fn within<'a>(
    configs: &[Config],
    count: usize,
    mut words: Words<'a>,
    room: &'a mut [u8; 1024],
) -> Option<RacksLine<'a>>
    requires few { length configs.now ≤ 8 }
    ensures { option_map entry_in result ≡ divides.within configs.now count words.entry }
{
    let rack = words.number_below(configs.len() as u64)? as u8;
    let event = event_for(&configs[usize::from(rack)], count, words, room)?;
    if is_routed(&event) {
        return None;
    }
    Some(RacksLine::Event(RacksEvent::Within { rack, event }))
}

fn line_in<'a>(
    configs: &[Config],
    line: &'a [u8],
    room: &'a mut [u8; 1024],
) -> Option<RacksLine<'a>>
    requires some { 1 ≤ length configs.now }
    requires few { length configs.now ≤ 8 }
    ensures { option_map entry_in result ≡ divides.line_in configs.now line.entry.now }
{
    if is(line, b"end") {
        return Some(RacksLine::End);
    }
    let mut words = Words::of(line);
    if words.take(b"rack") {
        within(configs, line.len(), words, room)
    } else {
        routed(configs, line, room)
    }
}

/// What a line of several racks says behind their rack lines: an operation, which goes to the rack
/// of its key, `rack R` and any other event, or `end`. Ranges and the longest line are those of the
/// rack that takes it. `None`: it is outside the grammar. The bytes that it hands on are lent from
/// the line or from the room, where they are put as the line spells them.
pub fn racks_line_of<'a>(
    configs: &[Config],
    line: &'a [u8],
    room: &'a mut [u8; 1024],
) -> Option<RacksLine<'a>>
    requires some { 1 ≤ length configs.now }
    requires few { length configs.now ≤ 8 }
    ensures sound { (d : Division) → map (λ w. w.rack) d.worlds ≡ configs.now
        → IfSome result (λ l. IsDivisionLine 0 d line.entry.now (entry_in l)) }
    ensures complete { (d : Division) (e : book.RacksEntry)
        → map (λ w. w.rack) d.worlds ≡ configs.now
        → IsDivisionLine 0 d line.entry.now e → option_map entry_in result ≡ Some e }
{
    are_in_limits(configs);
    line_in(configs, line, room)
}

fn count_in(line: &[u8]) -> Option<u8>
    ensures { result ≡ divides.count_in line.now }
{
    let mut words = Words::of(line);
    words.literal(b"racks")?;
    let racks = words.number_below(RACKS_MOST + 1)?;
    if racks < 1 || words.next().is_some() {
        return None;
    }
    Some(racks as u8)
}

/// How many racks the line `racks` says, 1 to 8. `None`: it is outside the grammar.
pub fn racks_of(line: &[u8]) -> Option<u8>
    ensures sound { IfSome result
        (λ racks. IsRacksWordLine book.Starting line.now (book.Counted racks)) }
    ensures complete { (racks : ℕ) → IsRacksWordLine book.Starting line.now (book.Counted racks)
        → result ≡ Some racks }
{
    count_in(line)
}

/// Prints the line `racks` of the trace: how many racks follow.
pub fn racks_text(place: u64, racks: u8, out: &mut Text)
    ensures { out.new ≡ decimal place ++ codes " " ++ (codes "racks " ++ decimal racks) }
{
    out.clear();
    out.push_number(place);
    out.push_bytes(b" ");
    out.push_word_number(b"racks ", u64::from(racks));
}

/// Prints the line `rack`: whose history and orders follow.
pub fn rack_number_text(rack: u8, out: &mut Text)
    ensures { out.new ≡ codes "rack " ++ decimal rack }
{
    out.clear();
    out.push_word_number(b"rack ", u64::from(rack));
}

/// Prints the line of the trace at this place, of the rack that took it.
pub fn line_in_rack_text(place: u64, rack: u8, line: &Line<'_>, out: &mut Text)
    ensures { out.new ≡ decimal place ++ codes " "
        ++ (codes "rack " ++ decimal rack ++ codes " " ++ trace.body_text line.now) }
{
    out.clear();
    out.push_number(place);
    out.push_word_number(b" rack ", u64::from(rack));
    out.push_bytes(b" ");
    push_body(line, out);
}
