//! What is handed to a world is within the types of keys, values and numbers, as the book asks of
//! the lines of a schedule.
ghost use Rattle.std.specs.List.{AllByRecursion};
ghost use Rattle.peg_model.specs.Schedule.{AreBytes, EventInRange, IsKeyOfBytes};

use peg_event::Event;
use peg_name::Key;

#[tactic(auto, using(crate::proofs::Bytes::all_bytes))]
fn are_bytes(_bytes: &[u8])
    ensures { AreBytes _bytes.now }
{}

fn key_is_in_range(key: &Key)
    ensures { IsKeyOfBytes key.now }
{
    are_bytes(key.bytes());
}

#[tactic(auto, using(crate::proofs::Each::take_all))]
pub(crate) fn keys_are_in_range(keys: &[Key])
    ensures { AllByRecursion IsKeyOfBytes keys.now }
{
    for key in keys {
        key_is_in_range(key);
    }
}

pub(crate) fn event_is_in_range(event: &Event<'_>)
    ensures { EventInRange event.now }
{
    match event {
        Event::Read { key, .. } | Event::Delete { key, .. } => key_is_in_range(key),
        Event::Promote { key } | Event::Demote { key } => key_is_in_range(key),
        Event::Fence { key } => key_is_in_range(key),
        Event::Write { key, value, .. } => {
            key_is_in_range(key);
            are_bytes(value.bytes());
        }
        Event::Copy { key, target } => {
            key_is_in_range(key);
            let _target = *target;
        }
        Event::Deliver { packet, pick } => {
            let _numbers = (*packet, *pick);
        }
        Event::Junk { bytes, .. } => are_bytes(bytes.bytes()),
        Event::Handover { target } => {
            let _target = *target;
        }
        Event::Plan {
            promote_at,
            demote_below,
        } => {
            let _numbers = (*promote_at, *demote_below);
        }
        _ => {}
    }
}
