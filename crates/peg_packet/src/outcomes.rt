//! What a command came to, as the number and the value that spell it.

ghost use Rattle.std.specs.Prelude.{◌≡◌, ◌∷◌, MatchOption, IfNone, IfSome, unwrap_or};
ghost use Rattle.peg_event.specs.declared.Outcome.{Outcome as TheOutcome};
ghost use Rattle.peg_model.specs.Packet.{eight, outcome_bytes, CommandAck};
ghost use Rattle.peg_model.specs.Reading.{outcome_with};
ghost use Rattle.peg_packet.specs.Seen.{seen, outcome_seen, no_outcome};

use crate::Packet;
use crate::codes::results;
use peg_event::Outcome;

/// The number and the value of an outcome.
pub fn pair_of(outcome: Outcome) -> (u8, u64)
    ensures spelled { outcome_bytes outcome ≡ result.0 ∷ eight result.1 }
    ensures read { outcome_with result.0 result.1 ≡ Some outcome }
{
    match outcome {
        Outcome::Listed(listing) => (results::LISTED, listing),
        Outcome::Already(listing) => (results::ALREADY, listing),
        Outcome::Full(count) => (results::FULL, count),
        Outcome::Marked(mark) => (results::MARKED, mark),
        Outcome::NotListed => (results::NOT_LISTED, 0),
        Outcome::AlreadyMarked(mark) => (results::ALREADY_MARKED, mark),
        Outcome::Ordered(server) => (results::ORDERED, server),
        Outcome::Holds => (results::HOLDS, 0),
        Outcome::Activated(epoch) => (results::ACTIVATED, epoch),
        Outcome::Cleared => (results::CLEARED, 0),
        Outcome::Fenced(base) => (results::FENCED, base),
        Outcome::NoBase => (results::NO_BASE, 0),
        Outcome::NoVersion(next) => (results::NO_VERSION, next),
    }
}

/// The outcome with a number, whatever the value of one that has none.
fn with_number(number: u8, value: u64) -> Option<Outcome>
    ensures { MatchOption result ((o : TheOutcome) → outcome_with number value ≡ Some o
        → outcome_bytes o ≡ number ∷ eight value → ⊥) (λ o. outcome_with number value ≡ Some o) }
{
    let outcome = match number {
        results::LISTED => Outcome::Listed(value),
        results::ALREADY => Outcome::Already(value),
        results::FULL => Outcome::Full(value),
        results::MARKED => Outcome::Marked(value),
        results::NOT_LISTED => Outcome::NotListed,
        results::ALREADY_MARKED => Outcome::AlreadyMarked(value),
        results::ORDERED => Outcome::Ordered(value),
        results::HOLDS => Outcome::Holds,
        results::ACTIVATED => Outcome::Activated(value),
        results::CLEARED => Outcome::Cleared,
        results::FENCED => Outcome::Fenced(value),
        results::NO_BASE => Outcome::NoBase,
        results::NO_VERSION => Outcome::NoVersion(value),
        _ => return None,
    };
    Some(outcome)
}

/// The outcome that a number and a value spell.
pub fn spelled_by(number: u8, value: u64) -> Option<Outcome>
    ensures none { IfNone result ((o : TheOutcome) → outcome_with number value ≡ Some o
        → outcome_bytes o ≡ number ∷ eight value → ⊥) }
    ensures read { IfSome result (λ o. outcome_with number value ≡ Some o) }
    ensures spelled { IfSome result (λ o. outcome_bytes o ≡ number ∷ eight value) }
    ensures seen { unwrap_or result no_outcome ≡ outcome_seen number value }
{
    let outcome = with_number(number, value)?;
    let (code, held) = pair_of(outcome);
    if code == number && held == value {
        Some(outcome)
    } else {
        None
    }
}

/// The outcome that the number and the value of a `CommandAck` spell. Where they spell none it is
/// `Activated(0)`, which no packet in range has.
pub fn outcome_of(number: u8, value: u64) -> Outcome
    ensures { result ≡ outcome_seen number value }
{
    spelled_by(number, value).unwrap_or(Outcome::Activated(0))
}

/// The packet that tells the controller what a command came to.
pub fn acknowledge<'a>(number: u64, outcome: Outcome) -> Packet<'a>
    ensures { seen result ≡ CommandAck number outcome }
{
    let (code, value) = pair_of(outcome);
    Packet::CommandAck {
        number,
        outcome: code,
        value,
    }
}
