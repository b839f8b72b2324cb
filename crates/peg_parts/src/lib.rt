//! The state that one switch hands to the next: its bytes in parts, and how the parts that come in
//! are collected until they are whole.
#![tactic(auto)]

ghost use Rattle.std.specs.Prelude.{◌≡◌, ◌<◌, ◌++◌, ℕ, false, List, [], ◌∷◌, Some, length};
ghost use Rattle.std.specs.List.{Contains};
ghost use Rattle.peg_name.specs.Name.{Rack};
ghost use Rattle.peg_model.specs.Packet.{Part};
ghost use Rattle.peg_model.specs.Rules.{Stamps, Directory};
ghost use Rattle.peg_model.specs.Handover.{State, Collected, parts, held_count, none_collected};
ghost use Rattle.peg_model.specs.Switch.{Switch, is_active, is_misplaced, switch_step};
ghost use Rattle.peg_parts.specs.Sealed.{state_with};
ghost use Rattle.peg_parts.specs.Taking.{take_part, leaves, stamps_after, entries_after};
ghost use Rattle.peg_parts.specs.Arrivals.{Arrival, Sent, Other, came, takes_arrival};
ghost use Rattle.peg_parts.specs.Arrivals.{collected_after, IsCollecting};
ghost use Rattle.peg_parts.specs.Switching.{is_malformed, part_step};
ghost use Rattle.peg_parts.specs.declared.Taken.TheVariants.{Old, Repeated, More, Whole};

mod collector;
mod held;
mod parts;
mod read;
mod reader;
mod spell;

pub use collector::Collector;
pub use parts::Parts;
pub use peg_name::OutOfMemory;

/// What became of a part that came in.
#[derive(Clone, Copy, Debug, PartialEq, Eq)]
pub enum Taken {
    /// Its epoch is not above the switch's own, or is below the one that is collected.
    Old,
    /// It does not fit those that are held, or it completes bytes that are no state of the rack.
    Malformed,
    /// The part of its index is held.
    Repeated,
    /// It is held now, with this many in all.
    More { held: u8 },
    /// It was the last, and the state is taken, whose last command has this number.
    Whole { last: u64 },
}

/// For the switch that collects. While it isn't active a part is out of place exactly where its
/// collector calls it malformed, its step is the one that the answer names, and the state that
/// makes it active is that of the stamps and entries which the collector leaves, with the number
/// that it answers.
pub fn takes_parts_as_the_book_does()
    ensures misplaced { (s : Switch) (epoch index count : ℕ) (bytes : List ℕ)
        → is_active s.mode ≡ false → is_misplaced s (Part epoch index count bytes)
        ≡ is_malformed (take_part s.rack s.epoch s.collected epoch index count bytes).answer }
    ensures step { (s : Switch) (epoch index count : ℕ) (bytes : List ℕ) (pick : ℕ)
        → is_active s.mode ≡ false → switch_step s (Part epoch index count bytes) pick
        ≡ part_step (take_part s.rack s.epoch s.collected epoch index count bytes) s epoch index
        count }
    ensures state { (s : Switch) (epoch index count : ℕ) (bytes : List ℕ) (last : ℕ)
        (stamps : Stamps) (entries : Directory)
        → (take_part s.rack s.epoch s.collected epoch index count bytes).answer ≡ Whole last
        → (take_part s.rack s.epoch s.collected epoch index count bytes).state
        ≡ Some (state_with
        (stamps_after stamps
        (take_part s.rack s.epoch s.collected epoch index count bytes).state)
        last
        (entries_after entries
        (take_part s.rack s.epoch s.collected epoch index count bytes).state)) }
{}

/// For those who hand a state over: it arrives whole, in whatever order its parts come, however
/// often, and with parts of earlier epochs between them, as long as the switch's own epoch is an
/// earlier one at each. While some are missing, a part of an
/// earlier epoch is old, one that came before is repeated, and a new one is held. The part with
/// which each has come gives back the sealed state, whole, and nothing is collected then.
pub fn collects_a_sealed_state_in_any_order()
    ensures old { (rack : Rack) (own epoch : ℕ) (sealed : List ℕ) (s : State) (c : Collected)
        (arrivals : List Arrival) (other index count : ℕ) (bytes : List ℕ)
        → IsCollecting rack epoch sealed s c arrivals → 0 < length arrivals → other < epoch
        → take_part rack own (collected_after rack epoch sealed c arrivals) other index count
        bytes ≡ leaves Old (collected_after rack epoch sealed c arrivals) }
    ensures repeated { (rack : Rack) (own epoch : ℕ) (sealed : List ℕ) (s : State) (c : Collected)
        (arrivals : List Arrival) (index : ℕ) → IsCollecting rack epoch sealed s c arrivals
        → own < epoch → index < length (parts sealed) → Contains (came arrivals) index
        → takes_arrival rack epoch sealed (collected_after rack epoch sealed c arrivals)
        (Sent own index) ≡ leaves Repeated (collected_after rack epoch sealed c arrivals) }
    ensures more { (rack : Rack) (own epoch : ℕ) (sealed : List ℕ) (s : State) (c : Collected)
        (arrivals : List Arrival) (index missing : ℕ)
        → IsCollecting rack epoch sealed s c arrivals
        → own < epoch → index < length (parts sealed) → ¬ Contains (came arrivals) index
        → missing < length (parts sealed) → ¬ Contains (came arrivals ++ index ∷ []) missing
        → (takes_arrival rack epoch sealed (collected_after rack epoch sealed c arrivals)
        (Sent own index)).answer
        ≡ More (held_count
        (takes_arrival rack epoch sealed (collected_after rack epoch sealed c arrivals)
        (Sent own index)).collected) }
    ensures whole { (rack : Rack) (own epoch : ℕ) (sealed : List ℕ) (s : State) (c : Collected)
        (arrivals : List Arrival) (index : ℕ) → IsCollecting rack epoch sealed s c arrivals
        → own < epoch → index < length (parts sealed) → ¬ Contains (came arrivals) index
        → ((i : ℕ) → i < length (parts sealed) → Contains (came arrivals ++ index ∷ []) i)
        → takes_arrival rack epoch sealed (collected_after rack epoch sealed c arrivals)
        (Sent own index)
        ≡ record { answer = Whole s.last; collected = none_collected; state = Some s } }
{}
