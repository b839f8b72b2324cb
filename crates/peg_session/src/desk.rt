// What the loop keeps beside its session, and how it carries out a step: it binds ports, sends
// datagrams and writes text.
ghost use Rattle.std.specs.Prelude.{◌≡◌, ◌≢◌, ◌⊎◌, ◌≤◌, ◌<◌, ◌+◌, ℕ, true, false, [], length};
ghost use Rattle.std.specs.Prelude.{IsNone, IfSome, MatchBool, Option, List};
ghost use Rattle.std.specs.Bool.{OnTrue, OnFalse};
ghost use Rattle.peg_io.specs.Outside.{Rose, Tells};
ghost use Rattle.peg_io.specs.Lines.{has_feed};
ghost use Rattle.peg_meaning.specs.Session.{Came, Inputs, bound_more, sent_more};
ghost use Rattle.peg_session.specs.Pages.{Passes};
ghost use Rattle.peg_session.specs.Ends.{Told, told, HasCause, BindsSome};
ghost use Rattle.peg_session.specs.Standing.{Waits, Steps, Stops, IsMoored, IsFit, Settles};

use crate::{End, Page, Session, Stepped};
use peg_io::{Lines, Sink, Wire};

// What is read ahead, what is gathered, how many lines were taken, and the ports: the first one's
// slot and how many are bound.
#[derive(Drop)]
pub(crate) struct Desk {
    pub(crate) lines: Lines,
    pub(crate) page: Page,
    pub(crate) place: u64,
    pub(crate) base: u32,
    pub(crate) bound: u64,
}

impl Desk {
    pub(crate) fn make() -> Desk
        ensures { result ≡ record { lines = record { held = []; line = []; ended = false }; page = []; place = 0; base = 0; bound = 0 } }
    {
        Desk {
            lines: Lines::make(),
            page: Page::make(),
            place: 0,
            base: 0,
            bound: 0,
        }
    }
}

// Writes what is gathered before the session ends.
pub(crate) fn stop<K: Sink>(desk: &mut Desk, end: End, sink: &mut K) -> End
    ensures content { Stops end result desk.old.page (K.held sink.old) (K.held sink.new) }
    ensures untouched { desk.old.page ≡ [] → sink.new ≡ sink.old }
    ensures cause { (result ≡ end) ⊎ ((result ≡ End.WriteFault)
        × Rose (K.faults sink.old) (K.faults sink.new)) }
    ensures later { K.faults sink.old ≤ K.faults sink.new }
{
    if desk.page.flush(sink) {
        end
    } else {
        End::WriteFault
    }
}

// Writes what is gathered, unless the next line is read ahead.
pub(crate) fn make_ready<K: Sink>(desk: &mut Desk, sink: &mut K) -> bool
    ensures content { Passes result []
        desk.old.page desk.new.page (K.held sink.old) (K.held sink.new) }
    ensures ready { result ≡ true → ((has_feed desk.old.lines.held ≡ true)
        × (desk.new.page ≡ desk.old.page)) ⊎ (desk.new.page ≡ []) }
    ensures nothing { desk.old.page ≡ [] → result ≡ true }
    ensures same { desk.new ≡ record desk.old { page = desk.new.page } }
    ensures cause { OnFalse result (Rose (K.faults sink.old) (K.faults sink.new)) }
    ensures later { K.faults sink.old ≤ K.faults sink.new }
{
    if desk.lines.holds_line() {
        return true;
    }
    desk.page.flush(sink)
}

// Binds the ports that the session wants; false where the wire failed.
fn bind_all<T: Session, W: Wire>(session: &T, desk: &mut Desk, wire: &mut W) -> bool
    requires holds { T.holds session.now }
    requires moored { IsMoored desk.old.base desk.old.bound (W.slots wire.old) }
    ensures content { MatchBool result
        (Tells (W.carried wire.old) (W.carried wire.new)
        (λ c n. n ≡ bound_more (T.binds session.now) c))
        (Tells (W.carried wire.old) (W.carried wire.new) (BindsSome (T.binds session.now))) }
    ensures bound { OnTrue result
        (desk.new.bound ≡ desk.old.bound + length (T.binds session.now)) }
    ensures some { OnFalse result (T.binds session.now ≢ []) }
    ensures slots { W.slots wire.new + desk.old.bound ≡ W.slots wire.old + desk.new.bound }
    ensures moored { IsMoored desk.new.base desk.new.bound (W.slots wire.new) }
    ensures same { desk.new
        ≡ record desk.old { base = desk.new.base; bound = desk.new.bound } }
    ensures cause { OnFalse result (Rose (W.faults wire.old) (W.faults wire.new)) }
    ensures later { W.faults wire.old ≤ W.faults wire.new }
    ensures later_slots { W.slots wire.old ≤ W.slots wire.new }
{
    for i in 0..session.bind_count() {
        let Some(slot) = wire.bind(session.bind_at(i)) else {
            return false;
        };
        if desk.bound == 0 {
            desk.base = slot;
        }
        desk.bound += 1;
    }
    true
}

// Sends the datagrams of the last step. One that is lost is no fault.
fn send_all<T: Session, W: Wire>(session: &T, base: u32, wire: &mut W)
    requires holds { T.holds session.now }
    requires moored { IsMoored base (T.ports session.now) (W.slots wire.old) }
    ensures content { (from : ℕ) → (0 < T.ports session.now → base ≡ from)
        → Tells (W.carried wire.old) (W.carried wire.new)
        (λ c n. n ≡ sent_more from (T.letters session.now) c) }
    ensures slots { W.slots wire.new ≡ W.slots wire.old }
    ensures later { W.faults wire.old ≤ W.faults wire.new }
{
    for i in 0..session.letter_count() {
        let (slot, port, bytes) = session.letter_at(i);
        wire.send(base + slot, port, bytes);
    }
}

// Sends the datagrams of the last step, once all text up to that step is written; false where the
// sink failed, and then none is sent.
fn post<T: Session, K: Sink, W: Wire>(
    session: &T,
    desk: &mut Desk,
    sink: &mut K,
    wire: &mut W,
) -> bool
    requires holds { T.holds session.now }
    requires moored { IsMoored desk.old.base (T.ports session.now) (W.slots wire.old) }
    ensures content { Passes result []
        desk.old.page desk.new.page (K.held sink.old) (K.held sink.new) }
    ensures sent { OnTrue result ((from : ℕ) → (0 < T.ports session.now → desk.old.base ≡ from)
        → Tells (W.carried wire.old) (W.carried wire.new)
        (λ c n. n ≡ sent_more from (T.letters session.now) c)) }
    ensures ready { OnTrue result (((T.letters session.now ≡ []) × (desk.new.page ≡ desk.old.page))
        ⊎ (desk.new.page ≡ [])) }
    ensures unsent { OnFalse result (wire.new ≡ wire.old) }
    ensures nothing { desk.old.page ≡ [] → result ≡ true }
    ensures untouched { desk.old.page ≡ [] → sink.new ≡ sink.old }
    ensures same { desk.new ≡ record desk.old { page = desk.new.page } }
    ensures slots { W.slots wire.new ≡ W.slots wire.old }
    ensures cause { OnFalse result (Rose (K.faults sink.old) (K.faults sink.new)) }
    ensures later { K.faults sink.old ≤ K.faults sink.new }
    ensures later_wire { W.faults wire.old ≤ W.faults wire.new }
{
    if session.letter_count() == 0 {
        return true;
    }
    if !desk.page.flush(sink) {
        return false;
    }
    send_all(session, desk.base, wire);
    true
}

// Binds and sends what the last step asks for, or says how the session ends.
pub(crate) fn carry_out<T: Session, K: Sink, W: Wire>(
    session: &T,
    desk: &mut Desk,
    sink: &mut K,
    wire: &mut W,
) -> Option<End>
    requires holds { T.holds session.now }
    requires fit { IsFit (length (T.binds session.now)) (T.ports session.now) (T.rank session.now)
        (W.slots wire.old) desk.old }
    ensures steps { (start : Came T.State) (before : Told) (inputs : Inputs T.Entry)
        (left : Option (List ℕ))
        → Waits T.meaning start before
        (told left (K.held sink.old) (W.carried wire.old) (W.slots wire.old))
        inputs (T.state session.now) desk.old (T.binds session.now) (T.letters session.now)
        → Steps T.meaning start before
        (told left (K.held sink.new) (W.carried wire.new) (W.slots wire.new))
        (T.state session.now) desk.new result }
    ensures fit { IsNone result → IsFit 0 (T.ports session.now) (T.rank session.now)
        (W.slots wire.new) desk.new }
    ensures bound { IsNone result → W.slots wire.new
        ≡ W.slots wire.old + length (T.binds session.now) }
    ensures untouched { desk.old.page ≡ [] → sink.new ≡ sink.old }
    ensures cause { IfSome result (λ e. (reads reads' : ℕ) → HasCause e reads reads'
        (K.faults sink.old) (K.faults sink.new) (W.faults wire.old) (W.faults wire.new)) }
    ensures later { K.faults sink.old ≤ K.faults sink.new }
    ensures later_wire { W.faults wire.old ≤ W.faults wire.new }
    ensures later_slots { W.slots wire.old ≤ W.slots wire.new }
{
    if !bind_all(session, desk, wire) {
        return Some(stop(desk, End::WireFault, sink));
    }
    if !post(session, desk, sink, wire) {
        return Some(End::WriteFault);
    }
    None
}

// Carries out the rest of a step, or ends the session by what the step came to. The line is that
// which was taken last.
pub(crate) fn settle<T: Session, K: Sink, W: Wire>(
    session: &T,
    desk: &mut Desk,
    stepped: Stepped,
    sink: &mut K,
    wire: &mut W,
) -> Option<End>
    requires holds { stepped ≡ Stepped.Goes → T.holds session.now }
    requires fit { stepped ≡ Stepped.Goes → IsFit (length (T.binds session.now))
        (T.ports session.now) (T.rank session.now) (W.slots wire.old) desk.old }
    ensures steps { (start : Came T.State) (before : Told) (left : Option (List ℕ))
        → Settles T.meaning start before
        (told left (K.held sink.old) (W.carried wire.old) (W.slots wire.old))
        (T.state session.now) desk.old (T.binds session.now) (T.letters session.now) stepped
        → Steps T.meaning start before
        (told left (K.held sink.new) (W.carried wire.new) (W.slots wire.new))
        (T.state session.now) desk.new result }
    ensures fit { IsNone result → IsFit 0 (T.ports session.now) (T.rank session.now)
        (W.slots wire.new) desk.new }
    ensures goes { IsNone result → stepped ≡ Stepped.Goes }
    ensures cause { IfSome result (λ e. (reads reads' writes : ℕ) → writes ≤ K.faults sink.old
        → (stepped ≡ Stepped.Unwritten → Rose writes (K.faults sink.old))
        → HasCause e reads reads' writes (K.faults sink.new)
        (W.faults wire.old) (W.faults wire.new)) }
    ensures later { K.faults sink.old ≤ K.faults sink.new }
    ensures later_wire { W.faults wire.old ≤ W.faults wire.new }
    ensures later_slots { W.slots wire.old ≤ W.slots wire.new }
{
    match stepped {
        Stepped::Goes => carry_out(session, desk, sink, wire),
        Stepped::Refused => {
            let line = desk.place;
            Some(stop(desk, End::BadInput { line }, sink))
        }
        Stepped::Past => {
            let line = desk.place;
            Some(stop(desk, End::TooMuch { line }, sink))
        }
        Stepped::OutOfMemory => Some(stop(desk, End::OutOfMemory, sink)),
        Stepped::Unwritten => Some(End::WriteFault),
    }
}
