//! Laws of the book on what a run prints, whatever is issued, delivered, repeated, lost or
//! reordered. Each law is a function that does nothing, and its contract is the law.
#![tactic(auto)]

ghost use Rattle.std.specs.Prelude.{◌≡◌, ℕ, List, flat_map};
ghost use Rattle.std.specs.List.{AllByRecursion};
ghost use Rattle.peg_name.specs.Name.{Rack};
ghost use Rattle.peg_event.specs.declared.Event.{Event};
ghost use Rattle.peg_event.specs.declared.Line.{Line};
ghost use Rattle.peg_model.specs.World.{start, run, history};
ghost use Rattle.peg_model.specs.Schedule.{fed};
ghost use Rattle.peg_model.specs.Trace.{trace_text, replay_text};
ghost use Rattle.peg_model.specs.Headline.{StandsInTrace, IsLinearizable, OrdersAreHistories};
ghost use Rattle.peg_trace.specs.Lines.{trace_lines};
ghost use Rattle.peg_trace.specs.Answers.{AreAnswered, AreTold};

/// For those who read a trace, or show that its orders are register histories. Each operation of a
/// run stands in the trace of the run: it is issued at a line that says so, and where it is
/// answered, then at a line where its client says so. And each line that says so answers exactly one
/// operation, of that client, and gives a read its content. The lines are those of the text. So all
/// that is left of the text's being linearizable is that the printed orders are register histories.
pub fn shows_each_operation()
    ensures shown { (rack : Rack) (keys : List (List ℕ)) (events : List Event)
        → AllByRecursion (StandsInTrace (trace_lines (run (start rack keys) 2 events).1))
        (history (run (start rack keys) 2 events).0) }
    ensures lines { (lines : List Line) → flat_map fed (trace_lines lines) ≡ trace_text lines }
    ensures linearizable { (rack : Rack) (keys : List (List ℕ)) (events : List Event)
        → OrdersAreHistories (run (start rack keys) 2 events).0
        → IsLinearizable (replay_text rack keys events) }
    ensures answered { (rack : Rack) (keys : List (List ℕ)) (events : List Event)
        → let done = run (start rack keys) 2 events in AreAnswered done.1 (history done.0) }
    ensures told { (rack : Rack) (keys : List (List ℕ)) (events : List Event)
        → OrdersAreHistories (run (start rack keys) 2 events).0
        → (plain : IsLinearizable (replay_text rack keys events))
        × AreTold plain.trace plain.ops }
{}
