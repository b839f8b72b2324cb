// The loop that carries out a session.
ghost use Rattle.std.specs.Prelude.{◌≡◌, ◌≢◌, ◌⊎◌, ◌≤◌, ◌<◌, ◌^◌, ℕ, true, [], length, IsNone};
ghost use Rattle.std.specs.Prelude.{IfSome, Option, List};
ghost use Rattle.peg_io.specs.Outside.{Tells};
ghost use Rattle.peg_io.specs.Lines.{has_feed};
ghost use Rattle.peg_meaning.specs.Session.{Came, Inputs, Input, begun, IsLineOf};
ghost use Rattle.peg_session.specs.Took.{MayTake, Hands};
ghost use Rattle.peg_session.specs.Ends.{Told, told, Ended, HasCause, IsAccepted, IsComplete};
ghost use Rattle.peg_session.specs.Standing.{Stands, Steps, IsFit, HasLine, HasTaken};

use crate::desk::{Desk, carry_out, make_ready, settle, stop};
use crate::{End, Session, Taken, Want};
use peg_io::{Heard, NextLine, Sink, Source, Wire};

// Hands the line in place to the session.
fn take_line<T: Session, K: Sink, W: Wire>(
    session: &mut T,
    desk: &mut Desk,
    sink: &mut K,
    wire: &mut W,
) -> Option<End>
    requires holds { T.holds session.old }
    requires wanted { IsLineOf (T.meaning.want (T.state session.old)) (length desk.old.lines.line) }
    requires fit { IsFit 0 (T.ports session.old) (T.rank session.old)
        (W.slots wire.old) desk.old }
    ensures steps { (start : Came T.State) (before : Told) (left : Option (List ℕ))
        (inputs : Inputs T.Entry)
        → HasLine T.meaning start before
        (told left (K.held sink.old) (W.carried wire.old) (W.slots wire.old))
        inputs (T.state session.old) desk.old
        → Steps T.meaning start before
        (told left (K.held sink.new) (W.carried wire.new) (W.slots wire.new))
        (T.state session.new) desk.new result }
    ensures holds { IsNone result → T.holds session.new }
    ensures fit { IsNone result → IsFit 0 (T.ports session.new) (T.rank session.new)
        (W.slots wire.new) desk.new }
    ensures rank { IsNone result → T.rank session.new < T.rank session.old }
    ensures cause { IfSome result (λ e. (reads reads' : ℕ) → HasCause e reads reads'
        (K.faults sink.old) (K.faults sink.new) (W.faults wire.old) (W.faults wire.new)) }
    ensures later { K.faults sink.old ≤ K.faults sink.new }
    ensures later_wire { W.faults wire.old ≤ W.faults wire.new }
    ensures later_slots { W.slots wire.old ≤ W.slots wire.new }
{
    let stepped = session.take(Taken::Line(desk.lines.line()), &mut desk.page, sink);
    desk.place += 1;
    settle(session, desk, stepped, sink, wire)
}

// Reads the next line and takes it.
fn read_line<T: Session, S: Source, K: Sink, W: Wire>(
    session: &mut T,
    desk: &mut Desk,
    limit: usize,
    optional: bool,
    source: &mut S,
    sink: &mut K,
    wire: &mut W,
) -> Option<End>
    requires holds { T.holds session.old }
    requires fit { IsFit 0 (T.ports session.old) (T.rank session.old)
        (W.slots wire.old) desk.old }
    requires wanted { T.meaning.want (T.state session.old) ≡ Want.Line limit optional }
    requires short { limit ≤ 4096 }
    requires ready { (has_feed desk.old.lines.held ≡ true) ⊎ (desk.old.page ≡ []) }
    ensures steps { (start : Came T.State) (before : Told) (inputs : Inputs T.Entry)
        → Stands T.meaning start before
        (told (S.left source.old) (K.held sink.old) (W.carried wire.old) (W.slots wire.old))
        inputs (T.state session.old) desk.old
        → Steps T.meaning start before
        (told (S.left source.new) (K.held sink.new) (W.carried wire.new) (W.slots wire.new))
        (T.state session.new) desk.new result }
    ensures holds { IsNone result → T.holds session.new }
    ensures fit { IsNone result → IsFit 0 (T.ports session.new) (T.rank session.new)
        (W.slots wire.new) desk.new }
    ensures rank { IsNone result → T.rank session.new < T.rank session.old }
    ensures cause { IfSome result (λ e. HasCause e (S.faults source.old) (S.faults source.new)
        (K.faults sink.old) (K.faults sink.new) (W.faults wire.old) (W.faults wire.new)) }
    ensures later_source { S.faults source.old ≤ S.faults source.new }
    ensures later { K.faults sink.old ≤ K.faults sink.new }
    ensures later_wire { W.faults wire.old ≤ W.faults wire.new }
    ensures later_slots { W.slots wire.old ≤ W.slots wire.new }
{
    match desk.lines.next(limit, source) {
        NextLine::Line => take_line(session, desk, sink, wire),
        NextLine::End if optional => Some(stop(desk, End::Done, sink)),
        NextLine::Failed => Some(stop(desk, End::ReadFault, sink)),
        NextLine::End => {
            let line = desk.place + 1;
            Some(stop(desk, End::BadInput { line }, sink))
        }
        NextLine::TooLong => {
            let line = desk.place + 1;
            Some(stop(desk, End::BadInput { line }, sink))
        }
    }
}

// Reads the next line and takes it. The source is asked only where nothing is gathered.
fn line_step<T: Session, S: Source, K: Sink, W: Wire>(
    session: &mut T,
    desk: &mut Desk,
    limit: usize,
    optional: bool,
    source: &mut S,
    sink: &mut K,
    wire: &mut W,
) -> Option<End>
    requires holds { T.holds session.old }
    requires fit { IsFit 0 (T.ports session.old) (T.rank session.old)
        (W.slots wire.old) desk.old }
    requires wanted { T.meaning.want (T.state session.old) ≡ Want.Line limit optional }
    requires short { limit ≤ 4096 }
    ensures steps { (start : Came T.State) (before : Told) (inputs : Inputs T.Entry)
        → Stands T.meaning start before
        (told (S.left source.old) (K.held sink.old) (W.carried wire.old) (W.slots wire.old))
        inputs (T.state session.old) desk.old
        → Steps T.meaning start before
        (told (S.left source.new) (K.held sink.new) (W.carried wire.new) (W.slots wire.new))
        (T.state session.new) desk.new result }
    ensures holds { IsNone result → T.holds session.new }
    ensures fit { IsNone result → IsFit 0 (T.ports session.new) (T.rank session.new)
        (W.slots wire.new) desk.new }
    ensures rank { IsNone result → T.rank session.new < T.rank session.old }
    ensures cause { IfSome result (λ e. HasCause e (S.faults source.old) (S.faults source.new)
        (K.faults sink.old) (K.faults sink.new) (W.faults wire.old) (W.faults wire.new)) }
    ensures later_source { S.faults source.old ≤ S.faults source.new }
    ensures later { K.faults sink.old ≤ K.faults sink.new }
    ensures later_wire { W.faults wire.old ≤ W.faults wire.new }
    ensures later_slots { W.slots wire.old ≤ W.slots wire.new }
{
    if !make_ready(desk, sink) {
        return Some(End::WriteFault);
    }
    read_line(session, desk, limit, optional, source, sink, wire)
}

// Hands a turn to the session, or has it make a step of its own.
fn take_other<T: Session, K: Sink, W: Wire>(
    session: &mut T,
    desk: &mut Desk,
    taken: Taken<'_>,
    sink: &mut K,
    wire: &mut W,
) -> Option<End>
    requires holds { T.holds session.old }
    requires fit { IsFit 0 (T.ports session.old) (T.rank session.old)
        (W.slots wire.old) desk.old }
    requires wanted { MayTake (T.meaning.want (T.state session.old)) taken }
    ensures steps { (start : Came T.State) (before : Told) (left : Option (List ℕ))
        (inputs : Inputs T.Entry) (x : Input T.Entry) → Hands taken.entry x
        → HasTaken T.meaning start before
        (told left (K.held sink.old) (W.carried wire.old) (W.slots wire.old))
        inputs (T.state session.old) desk.old x
        → Steps T.meaning start before
        (told left (K.held sink.new) (W.carried wire.new) (W.slots wire.new))
        (T.state session.new) desk.new result }
    ensures holds { IsNone result → T.holds session.new }
    ensures fit { IsNone result → IsFit 0 (T.ports session.new) (T.rank session.new)
        (W.slots wire.new) desk.new }
    ensures rank { IsNone result → T.rank session.new < T.rank session.old }
    ensures cause { IfSome result (λ e. (reads reads' : ℕ) → HasCause e reads reads'
        (K.faults sink.old) (K.faults sink.new) (W.faults wire.old) (W.faults wire.new)) }
    ensures later { K.faults sink.old ≤ K.faults sink.new }
    ensures later_wire { W.faults wire.old ≤ W.faults wire.new }
    ensures later_slots { W.slots wire.old ≤ W.slots wire.new }
{
    let stepped = session.take(taken, &mut desk.page, sink);
    settle(session, desk, stepped, sink, wire)
}

// Receives a turn and takes it. The wire is asked only where nothing is gathered.
fn turn_step<T: Session, K: Sink, W: Wire>(
    session: &mut T,
    desk: &mut Desk,
    slot: u32,
    room: usize,
    buffer: &mut [u8; 1153],
    sink: &mut K,
    wire: &mut W,
) -> Option<End>
    requires holds { T.holds session.old }
    requires fit { IsFit 0 (T.ports session.old) (T.rank session.old)
        (W.slots wire.old) desk.old }
    requires wanted { T.meaning.want (T.state session.old) ≡ Want.Turn slot room }
    requires within { slot < T.ports session.old }
    requires some { 1 ≤ room }
    requires few { room ≤ 1153 }
    ensures steps { (start : Came T.State) (before : Told) (left : Option (List ℕ))
        (inputs : Inputs T.Entry)
        → Stands T.meaning start before
        (told left (K.held sink.old) (W.carried wire.old) (W.slots wire.old))
        inputs (T.state session.old) desk.old
        → Steps T.meaning start before
        (told left (K.held sink.new) (W.carried wire.new) (W.slots wire.new))
        (T.state session.new) desk.new result }
    ensures holds { IsNone result → T.holds session.new }
    ensures fit { IsNone result → IsFit 0 (T.ports session.new) (T.rank session.new)
        (W.slots wire.new) desk.new }
    ensures rank { IsNone result → T.rank session.new < T.rank session.old }
    ensures cause { IfSome result (λ e. (reads reads' : ℕ) → HasCause e reads reads'
        (K.faults sink.old) (K.faults sink.new) (W.faults wire.old) (W.faults wire.new)) }
    ensures later { K.faults sink.old ≤ K.faults sink.new }
    ensures later_wire { W.faults wire.old ≤ W.faults wire.new }
    ensures later_slots { W.slots wire.old ≤ W.slots wire.new }
{
    if !desk.page.flush(sink) {
        return Some(End::WriteFault);
    }
    let buf = &mut buffer[..room];
    match wire.receive(desk.base + slot, buf) {
        Heard::Bytes(count) => take_other(
            session,
            desk,
            Taken::Datagram(&buf[..count]),
            sink,
            wire,
        ),
        Heard::Nothing => take_other(session, desk, Taken::Pause, sink, wire),
        Heard::Failed => Some(End::WireFault),
    }
}

// One step, of whatever the session wants.
fn step<T: Session, S: Source, K: Sink, W: Wire>(
    session: &mut T,
    desk: &mut Desk,
    buffer: &mut [u8; 1153],
    source: &mut S,
    sink: &mut K,
    wire: &mut W,
) -> Option<End>
    requires holds { T.holds session.old }
    requires fit { IsFit 0 (T.ports session.old) (T.rank session.old)
        (W.slots wire.old) desk.old }
    ensures steps { (start : Came T.State) (before : Told) (inputs : Inputs T.Entry)
        → Stands T.meaning start before
        (told (S.left source.old) (K.held sink.old) (W.carried wire.old) (W.slots wire.old))
        inputs (T.state session.old) desk.old
        → Steps T.meaning start before
        (told (S.left source.new) (K.held sink.new) (W.carried wire.new) (W.slots wire.new))
        (T.state session.new) desk.new result }
    ensures holds { IsNone result → T.holds session.new }
    ensures fit { IsNone result → IsFit 0 (T.ports session.new) (T.rank session.new)
        (W.slots wire.new) desk.new }
    ensures rank { IsNone result → T.rank session.new < T.rank session.old }
    ensures cause { IfSome result (λ e. HasCause e (S.faults source.old) (S.faults source.new)
        (K.faults sink.old) (K.faults sink.new) (W.faults wire.old) (W.faults wire.new)) }
    ensures later_source { S.faults source.old ≤ S.faults source.new }
    ensures later { K.faults sink.old ≤ K.faults sink.new }
    ensures later_wire { W.faults wire.old ≤ W.faults wire.new }
    ensures later_slots { W.slots wire.old ≤ W.slots wire.new }
{
    match session.want() {
        Want::Line { limit, optional } => {
            line_step(session, desk, limit, optional, source, sink, wire)
        }
        Want::Turn { slot, room } => turn_step(session, desk, slot, room, buffer, sink, wire),
        Want::Step => take_other(session, desk, Taken::Step, sink, wire),
        Want::Over => Some(stop(desk, End::Done, sink)),
    }
}

/// Carries out a session: binds its ports, reads its lines, takes its turns, sends its datagrams
/// and writes its text, each when the session wants it, to the end. The text is written before the
/// source or the wire is asked for more, before a datagram is sent, and before each answer.
pub fn drive<T: Session, S: Source, K: Sink, W: Wire>(
    session: &mut T,
    source: &mut S,
    sink: &mut K,
    wire: &mut W,
) -> End
    requires holds { T.holds session.old }
    requires ports { T.ports session.old ≡ length (T.binds session.old) }
    requires rank { T.rank session.old < 2 ^ 63 }
    // All that holds at the end.
    ensures ended { Ended T.meaning
        (begun (T.state session.old) (T.binds session.old) (T.letters session.old))
        (told (S.left source.old) (K.held sink.old) (W.carried wire.old) (W.slots wire.old))
        (told (S.left source.new) (K.held sink.new) (W.carried wire.new) (W.slots wire.new))
        result }
    // Where no port was bound that is to be bound first, nothing was read or written.
    ensures unbound { T.binds session.old ≢ [] → W.slots wire.new ≡ W.slots wire.old
        → (source.new ≡ source.old) × (sink.new ≡ sink.old) }
    // Where the session accepts all of the input and nothing fails, it is done, or there was no
    // memory.
    ensures complete { Tells (S.left source.old) (S.left source.new)
        (λ input rest. IsAccepted T.meaning
        (begun (T.state session.old) (T.binds session.old) (T.letters session.old)) input
        → IsComplete result (S.faults source.old) (S.faults source.new)
        (K.faults sink.old) (K.faults sink.new) (W.faults wire.old) (W.faults wire.new)) }
    // A fault is answered only where its count rose.
    ensures cause { HasCause result (S.faults source.old) (S.faults source.new)
        (K.faults sink.old) (K.faults sink.new) (W.faults wire.old) (W.faults wire.new) }
{
    let mut desk = Desk::make();
    let mut buffer = [0; 1153];
    if let Some(end) = carry_out(session, &mut desk, sink, wire) {
        return end;
    }
    loop {
        if let Some(end) = step(session, &mut desk, &mut buffer, source, sink, wire) {
            return end;
        }
    }
}
