//! Laws of the book that hold in every run of a rack, whatever is issued, delivered, repeated, lost
//! or reordered. Each law is a function that does nothing, and its contract is the law.
#![tactic(auto)]

ghost use Rattle.std.specs.Prelude.{◌≡◌, ◌≤◌, ◌<◌, ℕ, true, is_none, List, Contains};
ghost use Rattle.std.specs.List.{AllByRecursion};
ghost use Rattle.peg_name.specs.Name.{Rack};
ghost use Rattle.peg_event.specs.declared.answers.Ask.{Ask};
ghost use Rattle.peg_event.specs.declared.Command.{Command};
ghost use Rattle.peg_event.specs.declared.Event.{Event};
ghost use Rattle.peg_model.specs.Client.{Client, begin_operation, resend, give_up};
ghost use Rattle.peg_model.specs.Controller.{Controller, order_command, make_plan};
ghost use Rattle.peg_model.specs.Datagrams.{server_on_bytes, client_on_bytes, switch_on_bytes};
ghost use Rattle.peg_model.specs.Datagrams.{controller_on_bytes};
ghost use Rattle.peg_model.specs.Server.{Server};
ghost use Rattle.peg_model.specs.Switch.{Switch};
ghost use Rattle.peg_model.specs.World.{World, start, step, run};
ghost use Rattle.peg_model.specs.Schedule.{IsStart};
ghost use Rattle.peg_model.specs.Headline.{OrdersAreHistories};
ghost use Rattle.peg_model.specs.Once.{ActsOnce};
ghost use Rattle.peg_law.specs.Covered.{ReportsAreHeld, KeysAreCovered};
ghost use Rattle.peg_law.specs.Fenced.{KeysAreFenced};
ghost use Rattle.peg_law.specs.Guarded.{KeysAreGuarded};
ghost use Rattle.peg_law.specs.Agreed.{OneState, OneVoice};
ghost use Rattle.peg_law.specs.Below.{VersionsAreBelow};
ghost use Rattle.peg_law.specs.Given.{VersionsAreGiven};
ghost use Rattle.peg_law.specs.Settled.{CommandsSettle};
ghost use Rattle.peg_law.specs.Reached.{ReachesWhatWasAnswered};
ghost use Rattle.peg_law.specs.Lines.{IsLine};
ghost use Rattle.peg_law.specs.Places.{run_at, AreRising, filled, IsReached, IsEndOfRun};
ghost use Rattle.peg_law.specs.Places.{moment_at, moments_at};
ghost use Rattle.peg_law.specs.Refusals.{LeavesAll, server_refuses, switch_refuses, client_refuses};
ghost use Rattle.peg_law.specs.Refusals.{controller_refuses, issue_refuses, order_refuses};
ghost use Rattle.peg_law.specs.Refusals.{plan_refuses};
ghost use Rattle.peg_law.specs.OfRun.{IsWorldOfRun, KeepsLaws, ShowsRun};
ghost use Rattle.peg_model.specs.Moments.{Moment, moments, FullRound, IsAnsweredAt, IsInPlace};

/// For those who build on a rack: a client gets its answer where the network does its part. If a
/// request of an operation is delivered at an active switch, what the switch sends of it at a
/// server, the reply at an active switch again, and what that sends last at the client while the
/// operation is still pending, then the line of this last delivery says that it is answered.
/// Nothing is asked of the other events: they may be any, in any order, before, between and after.
pub fn answers_full_rounds()
    ensures { (rack : Rack) (keys : List (List ℕ)) (events : List Event) (client seq : ℕ)
        → (last : Moment)
        → FullRound (moments (start rack keys) 2 events) client seq last
        → IsAnsweredAt last client seq }
{}

/// For those who read a printed order: clients see one plain register for each key. Whatever is
/// issued, resent, given up, delivered late, twice or never, promoted, demoted, copied, fenced or
/// handed over, and whatever junk comes between, the printed orders are register histories at every
/// moment. Nothing is asked of the order, the number or the picks of the events.
pub fn prints_register_histories()
    ensures { (rack : Rack) (keys : List (List ℕ)) (events : List Event)
        → IsStart rack keys → AllByRecursion (IsLine rack) events
        → OrdersAreHistories (run (start rack keys) 2 events).0 }
{
    peg_protocol::prints_register_histories();
    peg_protocol::tells_what_was_asked();
    peg_grammar::reads_back_what_is_spelled();
}

/// For those who resend: a request acts once, however often it is sent and delivered. A version is
/// of one write; an operation gets a further version only after a void of the one before was sent;
/// and no answer and no copy carries a version of which a void was sent.
pub fn acts_once()
    ensures { (rack : Rack) (keys : List (List ℕ)) (events : List Event)
        → IsStart rack keys → AllByRecursion (IsLine rack) events
        → ActsOnce (run (start rack keys) 2 events).0.packets }
{
    peg_protocol::keeps_the_law();
    peg_protocol::tells_what_was_asked();
    peg_grammar::reads_back_what_is_spelled();
}

/// For those who watch a rack: a refusal tells of a fault outside it. No line says that a packet is
/// out of place, and a line says malformed exactly where junk was handed over that no packet
/// spells.
pub fn refuses_nothing()
    ensures { (rack : Rack) (keys : List (List ℕ)) (events : List Event)
        → IsStart rack keys → AllByRecursion (IsLine rack) events
        → (m : Moment) → Contains (moments (start rack keys) 2 events) m → IsInPlace m }
{
    peg_protocol::tells_what_was_asked();
    peg_protocol::refuses_nothing();
    peg_grammar::reads_back_what_is_spelled();
}

/// For those who change a server: it has at least each version that it ever reported, in a reply or
/// for a copy.
pub fn holds_what_it_reports()
    ensures { (rack : Rack) (keys : List (List ℕ)) (events : List Event)
        → IsStart rack keys → AllByRecursion (IsLine rack) events
        → ReportsAreHeld (run (start rack keys) 2 events).0 }
{
    peg_protocol::keeps_the_law();
    peg_protocol::tells_what_was_asked();
    peg_grammar::reads_back_what_is_spelled();
}

/// For those who change the directory: one switch holds the current state, and it covers each key.
/// Of an unlisted key nothing is newer than what its home has. Of a listed key each answer is
/// completed, each holder has what is completed, and what is held elsewhere or reported from there
/// and is newer than what its home has is above the base. Where it has a mark, that is below the
/// mark, and no other server was sent a write at or above it.
pub fn covers_each_key()
    ensures { (rack : Rack) (keys : List (List ℕ)) (events : List Event)
        → IsStart rack keys → AllByRecursion (IsLine rack) events
        → KeysAreCovered (run (start rack keys) 2 events).0 }
{
    peg_protocol::keeps_the_law();
    peg_protocol::tells_what_was_asked();
    peg_grammar::reads_back_what_is_spelled();
}

/// For those who fence a key: what a fence passed over is gone. No server holds such a version, and
/// none is written elsewhere, copied or reported; a version that was voided is one of them, and no
/// server holds it for any key. Each fence that was sent is at most the base of its key while the
/// key is listed.
pub fn fences_each_key()
    ensures { (rack : Rack) (keys : List (List ℕ)) (events : List Event)
        → IsStart rack keys → AllByRecursion (IsLine rack) events
        → KeysAreFenced (run (start rack keys) 2 events).0 }
{
    peg_protocol::keeps_the_law();
    peg_protocol::tells_what_was_asked();
    peg_grammar::reads_back_what_is_spelled();
}

/// For those who change what a fence leaves: the home of a key keeps of its last fence the version
/// and what it held before it, and the version of the fence before that, each 0 where there was
/// none. No fence that was sent has a version that one of them passed over.
pub fn keeps_the_last_fences()
    ensures { (rack : Rack) (keys : List (List ℕ)) (events : List Event)
        → IsStart rack keys → AllByRecursion (IsLine rack) events
        → KeysAreGuarded (run (start rack keys) 2 events).0 }
{
    peg_protocol::keeps_the_law();
    peg_protocol::tells_what_was_asked();
    peg_grammar::reads_back_what_is_spelled();
}

/// For those who change the handover: the parts of one epoch are of one state and went to one
/// switch, a part of a passed epoch went to a switch that has passed it too, and none is ahead of
/// the current epoch but those of the switch that is sealed now, which are of the current state.
pub fn hands_over_one_state()
    ensures { (rack : Rack) (keys : List (List ℕ)) (events : List Event)
        → IsStart rack keys → AllByRecursion (IsLine rack) events
        → OneState (run (start rack keys) 2 events).0 }
{
    peg_protocol::keeps_the_law();
    peg_protocol::tells_what_was_asked();
    peg_grammar::reads_back_what_is_spelled();
}

/// For those who change the controller: a command number has one command and one outcome, and but
/// for a pending command the controller and the current switch agree on the last number, and on
/// which switch is the current one.
pub fn gives_one_command()
    ensures { (rack : Rack) (keys : List (List ℕ)) (events : List Event)
        → IsStart rack keys → AllByRecursion (IsLine rack) events
        → OneVoice (run (start rack keys) 2 events).0 }
{
    peg_protocol::keeps_the_law();
    peg_protocol::tells_what_was_asked();
    peg_grammar::reads_back_what_is_spelled();
}

/// For those who command: what is acknowledged can belong to its command, and the controller knows
/// exactly the listed keys without a mark, but for the one that the pending command is about. A
/// command of the controller's last number is the pending one, at the controller's epoch: so a
/// pending seal has that epoch plus one. Where the current state is sealed, that handover is
/// pending. The pending command is acknowledged as activated only where its target holds the
/// current state.
pub fn settles_each_command()
    ensures { (rack : Rack) (keys : List (List ℕ)) (events : List Event)
        → IsStart rack keys → AllByRecursion (IsLine rack) events
        → CommandsSettle (run (start rack keys) 2 events).0 }
{
    peg_protocol::keeps_the_law();
    peg_protocol::tells_what_was_asked();
    peg_grammar::reads_back_what_is_spelled();
}

/// For those who stamp: each version that is held, sent, in a client's row or in an entry is below
/// the next one, and a mark is at most the next one.
pub fn keeps_versions_below_next()
    ensures { (rack : Rack) (keys : List (List ℕ)) (events : List Event)
        → IsStart rack keys → AllByRecursion (IsLine rack) events
        → VersionsAreBelow (run (start rack keys) 2 events).0 }
{
    peg_protocol::keeps_the_law();
    peg_protocol::tells_what_was_asked();
    peg_grammar::reads_back_what_is_spelled();
}

/// For those who stamp: each version from the first on was given to one write or to one promotion.
/// A pair that is held, answered, written or copied is of the key and the content of the write that
/// its version goes back to, and absent where that is 0. The row of a client is that of its last
/// stamp, with 0 for the version only where that version was voided.
pub fn gives_each_version_once()
    ensures { (rack : Rack) (keys : List (List ℕ)) (events : List Event)
        → IsStart rack keys → AllByRecursion (IsLine rack) events
        → VersionsAreGiven (run (start rack keys) 2 events).0 }
{
    peg_protocol::keeps_the_law();
    peg_protocol::tells_what_was_asked();
    peg_grammar::reads_back_what_is_spelled();
}

/// For those who read: a read reaches what was answered before it was issued. The server that it
/// is sent to has that version, and so has its answer; and a write is stamped above it.
pub fn reaches_what_was_answered()
    ensures { (rack : Rack) (keys : List (List ℕ)) (events : List Event)
        → IsStart rack keys → AllByRecursion (IsLine rack) events
        → ReachesWhatWasAnswered (run (start rack keys) 2 events).0 }
{
    peg_protocol::keeps_the_law();
    peg_protocol::tells_what_was_asked();
    peg_grammar::reads_back_what_is_spelled();
}

/// For those who number the events of a run with gaps between them: nothing is lost by it. A run at
/// rising places comes to what a schedule comes to that has the same events, and in the gaps some
/// that change nothing.
pub fn fills_gaps()
    ensures { (w : World) (place : ℕ) (placed : List (ℕ × Event)) → AreRising place placed
        → (run_at w placed).0 ≡ (run w place (filled place placed)).0 }
{}

/// For those who keep a world while its events come one by one: it is enough to keep that events
/// of the rack's lines led to it, at rising places up to one that is passed. So it is with a rack
/// as it begins, and again after one more event at a later place; and a later place may be named
/// though nothing happened there. Such a world is of its rack, and is the end of a schedule, so
/// that all that is said here of the ends of schedules holds of it.
pub fn reaches_ends_of_runs()
    ensures begins { (rack : Rack) (keys : List (List ℕ))
        → IsReached rack keys 1 (start rack keys) }
    ensures steps { (rack : Rack) (keys : List (List ℕ)) (place at : ℕ) (w : World) (e : Event)
        → IsReached rack keys place w → 2 ≤ at → place < at → IsLine rack e
        → IsReached rack keys at (step w at e).0 }
    ensures waits { (rack : Rack) (keys : List (List ℕ)) (place more : ℕ) (w : World)
        → place ≤ more → IsReached rack keys place w → IsReached rack keys more w }
    ensures of_rack { (rack : Rack) (keys : List (List ℕ)) (place : ℕ) (w : World)
        → IsReached rack keys place w → w.rack ≡ rack }
    ensures ends { (rack : Rack) (keys : List (List ℕ)) (place : ℕ) (w : World)
        → IsReached rack keys place w → IsEndOfRun rack keys w }
{}

/// For those who number the events of a run with gaps between them: a client gets its answer there
/// too, where the network does its part.
pub fn answers_full_rounds_at_places()
    ensures { (rack : Rack) (keys : List (List ℕ)) (placed : List (ℕ × Event)) (client seq : ℕ)
        → (last : Moment) → AreRising 2 placed
        → FullRound (moments_at (start rack keys) placed) client seq last
        → IsAnsweredAt last client seq }
{
    answers_full_rounds();
}

/// For those who number the events of a run with gaps between them: a refusal tells of a fault
/// outside it there too.
pub fn refuses_nothing_at_places()
    ensures { (rack : Rack) (keys : List (List ℕ)) (placed : List (ℕ × Event))
        → IsStart rack keys → AreRising 2 placed → AllByRecursion (λ p. IsLine rack p.1) placed
        → (m : Moment) → Contains (moments_at (start rack keys) placed) m → IsInPlace m }
{
    refuses_nothing();
}

/// For those who keep a world while its events come one by one, at rising places: it is enough to
/// keep that it is the world of a run, or that it shows one. So it is with a rack as it begins,
/// and again after one more event at a later place. Then all laws hold of it, whatever came; its
/// next line says nothing of out of place; and what has the packets and the operations of such a
/// world, whatever else became of it, has orders that are register histories.
pub fn keeps_worlds_of_runs()
    ensures begins { (rack : Rack) (keys : List (List ℕ)) → IsStart rack keys
        → IsWorldOfRun (start rack keys) }
    ensures steps { (w : World) (at : ℕ) (e : Event) → IsWorldOfRun w → w.place < at
        → IsLine w.rack e → IsWorldOfRun (step w at e).0 }
    ensures laws { (w : World) → IsWorldOfRun w → KeepsLaws w }
    ensures in_place { (w : World) (at : ℕ) (e : Event) → IsWorldOfRun w → w.place < at
        → IsLine w.rack e → IsInPlace (moment_at w at e) }
    ensures shown { (w : World) → ShowsRun w → OrdersAreHistories w × ActsOnce w.packets }
{
    prints_register_histories();
    acts_once();
    keeps_versions_below_next();
    gives_each_version_once();
    holds_what_it_reports();
    covers_each_key();
    fences_each_key();
    keeps_the_last_fences();
    reaches_what_was_answered();
    hands_over_one_state();
    gives_one_command();
    settles_each_command();
    refuses_nothing_at_places();
}

/// For those who hand bytes to a server: a refusal leaves it as it was and sends nothing, which is
/// the same as a lost packet. So does an order to copy what it hasn't, and a write that is barred.
pub fn refuses_at_a_server()
    ensures { (s : Server) (bytes : List ℕ)
        → server_refuses (server_on_bytes s bytes).did ≡ true
        → LeavesAll s (server_on_bytes s bytes) }
{}

/// For those who hand bytes to a switch: a refusal leaves it as it was and sends nothing.
pub fn refuses_at_a_switch()
    ensures { (s : Switch) (bytes : List ℕ) (pick : ℕ)
        → switch_refuses (switch_on_bytes s bytes pick).did ≡ true
        → LeavesAll s (switch_on_bytes s bytes pick) }
{}

/// For those who hand bytes to a client or ask something of it: what it ignores, and what it can't
/// do, leaves it as it was and sends nothing.
pub fn refuses_at_a_client()
    ensures takes { (c : Client) (bytes : List ℕ)
        → client_refuses (client_on_bytes c bytes).did ≡ true
        → LeavesAll c (client_on_bytes c bytes) }
    ensures issues { (c : Client) (key : List ℕ) (ask : Ask)
        → issue_refuses (begin_operation c key ask).did ≡ true
        → LeavesAll c (begin_operation c key ask) }
    ensures resends { (c : Client) → is_none (resend c).did ≡ true → LeavesAll c (resend c) }
    ensures gives_up { (c : Client) → is_none (give_up c).did ≡ true → LeavesAll c (give_up c) }
{}

/// For those who hand bytes to the controller or ask something of it: a refusal leaves it as it was
/// and sends nothing.
pub fn refuses_at_the_controller()
    ensures takes { (c : Controller) (bytes : List ℕ)
        → controller_refuses (controller_on_bytes c bytes).did ≡ true
        → LeavesAll c (controller_on_bytes c bytes) }
    ensures orders { (c : Controller) (command : Command)
        → order_refuses (order_command c command).did ≡ true
        → LeavesAll c (order_command c command) }
    ensures plans { (c : Controller) (promote_at demote_below : ℕ)
        → plan_refuses (make_plan c promote_at demote_below).did ≡ true
        → LeavesAll c (make_plan c promote_at demote_below) }
{}
