//! The grammar of packets and of a switch's state bytes, as laws of the book: what is spelled is
//! read back, what is read is spelled by the bytes it was read from, no spelling is a proper
//! prefix of another, and a state that is cut into parts is joined again, in whatever order they
//! come. Each law is a function that does nothing, and its contract is the law.
#![tactic(auto)]

ghost use Rattle.std.specs.Prelude.{◌≡◌, ◌≤◌, ◌<◌, ◌+◌, ◌-◌, ◌*◌, ◌/◌, ◌^◌, ◌++◌, ◌↔◌, ℕ, IsTrue};
ghost use Rattle.std.specs.Prelude.{true, false, List, [], ◌∷◌, Some, length, slice_index_or};
ghost use Rattle.std.specs.List.{concat, Contains};
ghost use Rattle.peg_name.specs.Name.{Rack, InLimits, packet_most, parts_most};
ghost use Rattle.peg_name.specs.declared.Format.{Format};
ghost use Rattle.peg_model.specs.Packet.{Packet, Part, Spells, in_range, spelling};
ghost use Rattle.peg_model.specs.Reading.{packet_of};
ghost use Rattle.peg_model.specs.Handover.{State, state_of, part_of, parts, Collected, begun};
ghost use Rattle.peg_model.specs.Handover.{has_part, with_part, is_whole, bytes_of, fits};
ghost use Rattle.peg_model.specs.Switch.{Switch, is_active, is_old, on_part, activates};
ghost use Rattle.peg_model.specs.Switch.{switch_step};
ghost use Rattle.peg_grammar.specs.State.{SpellsState};
ghost use Rattle.peg_grammar.specs.Collecting.{HoldsParts, after_part, after_parts};
ghost use Rattle.peg_grammar.specs.Collecting.{switch_after};

/// For those who read packets: bytes that spell a packet, with more bytes behind them, spell none,
/// and no bytes spell two packets. So a datagram that is cut or padded is never taken for another.
pub fn spells_no_proper_prefix()
    ensures nothing_follows { (f g : Format) (p q : Packet) (rest : List ℕ)
        → IsTrue (in_range f p) → IsTrue (in_range g q)
        → spelling g q ≡ spelling f p ++ rest → rest ≡ [] }
    ensures one_packet { (bytes : List ℕ) (f g : Format) (p q : Packet)
        → Spells bytes f p → Spells bytes g q → (f ≡ g) × (p ≡ q) }
{}

/// For those who send: what is spelled is what the other side reads. Bytes are read as a packet
/// exactly where they spell it, and for a rack within its limits they are read as a switch's state
/// exactly where they spell that.
pub fn reads_back_what_is_spelled()
    ensures packet { (bytes : List ℕ) (format : Format) (p : Packet)
        → Spells bytes format p → packet_of bytes ≡ Some (format, p) }
    ensures only_packets { (bytes : List ℕ) (format : Format) (p : Packet)
        → packet_of bytes ≡ Some (format, p) → Spells bytes format p }
    ensures state { (rack : Rack) (bytes : List ℕ) (s : State)
        → InLimits rack → SpellsState rack bytes s → state_of rack bytes ≡ Some s }
    ensures only_states { (rack : Rack) (bytes : List ℕ) (s : State)
        → state_of rack bytes ≡ Some s → SpellsState rack bytes s }
{}

/// For those who set a buffer's size: a packet of the format has at most this many bytes.
pub fn fits_a_datagram()
    ensures { (format : Format) (p : Packet)
        → IsTrue (in_range format p) → length (spelling format p) ≤ packet_most format }
{}

/// For those who hand a state over. Its bytes are cut into parts of 512, of which only the last may
/// be shorter. For a rack within its limits they are no more than a packet can number, each of them
/// is in the ranges of a packet, and joined in their order they are read as the state.
pub fn cuts_and_joins_a_state()
    ensures count { (bytes : List ℕ) → length (parts bytes) ≡ (length bytes + 511) / 512 }
    ensures at { (bytes : List ℕ) (index : ℕ) → index < length (parts bytes)
        → slice_index_or (parts bytes) index [] ≡ part_of bytes index }
    ensures full { (bytes : List ℕ) (index : ℕ) → index + 1 < length (parts bytes)
        → length (part_of bytes index) ≡ 512 }
    ensures last { (bytes : List ℕ) (index : ℕ) → index + 1 ≡ length (parts bytes)
        → (1 ≤ length (part_of bytes index)) × (length (part_of bytes index) ≤ 512) }
    ensures joined { (bytes : List ℕ) → concat (parts bytes) ≡ bytes }
    ensures few { (rack : Rack) (bytes : List ℕ) (s : State)
        → InLimits rack → SpellsState rack bytes s
        → (1 ≤ length (parts bytes)) × (length (parts bytes) ≤ parts_most rack.format) }
    ensures packets { (rack : Rack) (bytes : List ℕ) (s : State) (epoch index : ℕ)
        → InLimits rack → SpellsState rack bytes s → 2 ≤ epoch → epoch < 2 ^ 64
        → index < length (parts bytes)
        → IsTrue (in_range rack.format
        (Part epoch index (length (parts bytes)) (slice_index_or (parts bytes) index []))) }
    ensures read_back { (rack : Rack) (bytes : List ℕ) (s : State)
        → InLimits rack → SpellsState rack bytes s
        → state_of rack (concat (parts bytes)) ≡ Some s }
{}

/// For those who collect the parts of a state. In whatever order they come and however often, what
/// is held are parts of these bytes, none of them is ever out of place, they are whole exactly when
/// each has come, and then they are read as the state. What was held of an earlier epoch is gone
/// with the first of them.
pub fn collects_parts_in_any_order()
    ensures held { (epoch : ℕ) (bytes : List ℕ) (c : Collected) (order : List ℕ)
        → c.epoch < epoch
        → HoldsParts bytes (begun (after_parts epoch bytes c order) epoch (length (parts bytes))) }
    ensures one_more { (bytes : List ℕ) (c : Collected) (index : ℕ)
        → HoldsParts bytes c → HoldsParts bytes (with_part c index (part_of bytes index)) }
    ensures whole { (bytes : List ℕ) (c : Collected)
        → HoldsParts bytes c → IsTrue (is_whole c) → bytes_of c ≡ bytes }
    ensures in_place { (rack : Rack) (bytes : List ℕ) (s : State) (c : Collected) (index : ℕ)
        → InLimits rack → SpellsState rack bytes s → HoldsParts bytes c
        → IsTrue (fits rack c index (length (parts bytes)) (part_of bytes index)) }
    ensures when_each_has_come { (epoch : ℕ) (bytes : List ℕ) (c : Collected) (first : ℕ)
        (order : List ℕ) → c.epoch < epoch
        → (IsTrue (is_whole (after_parts epoch bytes c (first ∷ order)))
        ↔ ((index : ℕ) → index < length (parts bytes) → Contains (first ∷ order) index)) }
    ensures read_back { (rack : Rack) (bytes : List ℕ) (s : State) (epoch : ℕ) (c : Collected)
        (order : List ℕ) → InLimits rack → SpellsState rack bytes s → c.epoch < epoch
        → ((index : ℕ) → index < length (parts bytes) → Contains order index)
        → state_of rack (bytes_of (after_parts epoch bytes c order)) ≡ Some s }
{}

/// For those who take a state over. An idle or sealed switch collects its parts, and the part that
/// completes them makes it active with that state, which further parts leave as it is. So it comes
/// to the same in whatever order they come and however often. A part asks for no pick.
pub fn takes_a_state_over()
    ensures any_pick { (s : Switch) (epoch index count : ℕ) (bytes : List ℕ) (pick : ℕ)
        → switch_step s (Part epoch index count bytes) pick
        ≡ switch_step s (Part epoch index count bytes) 0 }
    ensures one_more { (s : Switch) (bytes : List ℕ) (epoch index : ℕ) → is_old s epoch ≡ false
        → is_whole (after_part epoch bytes s.collected index) ≡ false
        → (on_part s epoch index (length (parts bytes)) (part_of bytes index)).state
        ≡ record s { collected = after_part epoch bytes s.collected index } }
    ensures last { (s : Switch) (bytes : List ℕ) (handed : State) (epoch index : ℕ)
        → InLimits s.rack → SpellsState s.rack bytes handed → is_old s epoch ≡ false
        → HoldsParts bytes (begun s.collected epoch (length (parts bytes)))
        → has_part (begun s.collected epoch (length (parts bytes))) index ≡ false
        → is_whole (after_part epoch bytes s.collected index) ≡ true
        → on_part s epoch index (length (parts bytes)) (part_of bytes index)
        ≡ activates (Some handed) s epoch }
    ensures in_any_order { (s : Switch) (bytes : List ℕ) (handed : State) (epoch : ℕ)
        (order : List ℕ) → InLimits s.rack → SpellsState s.rack bytes handed
        → is_active s.mode ≡ false → s.epoch < epoch → s.collected.epoch < epoch
        → ((index : ℕ) → index < length (parts bytes) → Contains order index)
        → switch_after epoch bytes s order ≡ (activates (Some handed) s epoch).state }
{}
