//! The protocol of a rack as one machine over numbers: clients, switches with handover in parts,
//! servers, the controller, and every packet that was ever sent. Keys and contents are numbers, and
//! what is known of a node is a function of its number. Each law is a function that does nothing,
//! and its contract is the law. Another machine is tied to this one by a relation that its steps
//! keep with one event here.
#![tactic(auto)]

ghost use Rattle.std.specs.Prelude.{◌≡◌, ℕ, ◌+◌, ◌≤◌, List, length, Some};
ghost use Rattle.peg_protocol.specs.Core.{Rack};
ghost use Rattle.peg_protocol.specs.Machine.{Answer};
ghost use Rattle.peg_protocol.specs.System.{System, Event, run, start};
ghost use Rattle.peg_protocol.specs.FullRound.{delivers, FullRound};
ghost use Rattle.peg_protocol.specs.Told.{Told};
ghost use Rattle.peg_protocol.specs.RackLaw.{RackLaw, book_of};
ghost use Rattle.peg_protocol.specs.OutOfPlace.{NoRepeats, NothingRefused};
ghost use Rattle.peg_protocol.specs.Register.{IsRegisterHistory};
ghost use Rattle.peg_protocol.specs.Printed.{history, printed};

/// Whatever is issued, sent, repeated, lost, listed, copied or handed over, the law holds after
/// every event.
pub fn keeps_the_law()
    ensures { (rack : Rack) (events : List Event)
        → 1 ≤ rack.first → RackLaw (run events (start rack)) }
{}

/// The order that is printed for a key is a register history of it, at every moment.
pub fn prints_register_histories()
    ensures { (rack : Rack) (events : List Event) (key : ℕ)
        → 1 ≤ rack.first
        → IsRegisterHistory key (history (book_of (run events (start rack))))
        (printed key (book_of (run events (start rack)))) }
{}

/// No packet that was sent is ever refused as out of place, where the keys that are listed at the
/// start differ and are no more than may be listed.
pub fn refuses_nothing()
    ensures { (rack : Rack) (events : List Event)
        → 1 ≤ rack.first → NoRepeats rack.keys → length rack.keys ≤ rack.room
        → NothingRefused (run events (start rack)) }
{}

/// An operation with a full round is answered at its last delivery.
pub fn answers_full_rounds()
    ensures { (rack : Rack) (events : List Event) (s' s'' t : System)
        → (c n i i' i'' j pick : ℕ)
        → 1 ≤ rack.first → FullRound (run events (start rack)) s' s'' t c n i i' i'' j
        → (a : Answer) × ((delivers t j pick).answers c n ≡ Some a) × (a.place ≡ t.place + 1) }
{}

/// For those who tie another machine to this one: a write that was asked for is its operation's, a
/// row that isn't open has the last version of its operation, no Fence was applied twice, a Void of
/// a version is of its write, the parts of one epoch are of one state, and the numbers of an active
/// switch's core are in their ranges.
pub fn tells_what_was_asked()
    ensures { (rack : Rack) (events : List Event)
        → 1 ≤ rack.first → Told (run events (start rack)) }
{}
