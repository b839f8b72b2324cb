// The lines of a client, read.
ghost use Rattle.std.specs.Prelude.{◌≡◌, ◌≤◌, ◌<◌, IfSome, Some, length, option_map};
ghost use Rattle.peg_meaning.specs.Roles.{Asked, IsAskLine};
ghost use Rattle.std.specs.List.{position};
ghost use Rattle.peg_text.specs.Reading.{is_space};
ghost use Rattle.peg_node.specs.Asks.{with_client, asked_by, entry_asks};

use arrayvec::ArrayVec;
use peg_event::{Ask, Event};
use peg_name::{Config, Content, Key};
use peg_text::{Entry, event_of};

// Room for a line with a client's number.
pub(crate) type Line = ArrayVec<u8, 4098>;

fn first_space(text: &[u8]) -> Option<usize>
    ensures { result ≡ position is_space text.now }
{
    text.iter().position(|byte| *byte == b' ')
}

// A line as a schedule has it: the number of client 0 stands behind the first word.
fn with_client<'a>(line: &[u8], room: &'a mut Line) -> Option<&'a [u8]>
    requires { length line.now ≤ 4096 }
    ensures { option_map (λ l. l.now) result ≡ with_client line.now }
{
    let end = first_space(line)?;
    room.clear();
    room.try_extend_from_slice(&line[..end + 1]).unwrap();
    room.try_extend_from_slice(b"0 ").unwrap();
    room.try_extend_from_slice(&line[end + 1..]).unwrap();
    Some(room.as_slice())
}

// What an event of a client asks for.
fn asked_by<'a>(event: &Event<'a>) -> Option<(Key, Ask<'a>)>
    ensures { result ≡ asked_by event.now }
{
    match event {
        Event::Read { key, .. } => Some((*key, Ask::Read)),
        Event::Write { key, value, .. } => {
            Some((*key, Ask::Write(Content::Present(value.again()))))
        }
        Event::Delete { key, .. } => Some((*key, Ask::Write(Content::Absent))),
        _ => None,
    }
}

// What an entry of a schedule asks for.
fn asked_in<'a>(entry: &Option<Entry<'a>>) -> Option<(Key, Ask<'a>)>
    ensures { result ≡ entry_asks entry.now }
{
    match entry {
        Some(Entry::Event(event)) => asked_by(event),
        _ => None,
    }
}

// What a line asks for. `None`: it is outside the grammar. A value is lent from the two rooms.
pub(crate) fn asked_of<'a>(
    config: &Config,
    line: &[u8],
    room: &'a mut Line,
    values: &'a mut [u8; 1024],
) -> Option<(Key, Ask<'a>)>
    requires { length line.now ≤ 4096 }
    ensures sound { IfSome result (IsAskLine config.now.format line.now) }
    ensures complete { (asked : Asked) → IsAskLine config.now.format line.now asked
        → result ≡ Some asked }
{
    prove!(config.clients() > 0);
    match with_client(line, room) {
        None => None,
        Some(full) => asked_in(&event_of(config, full, values)),
    }
}
