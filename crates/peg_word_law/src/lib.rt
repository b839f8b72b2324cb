//! Laws of the words of the program, proved of what each of them means. Each law is a function that
//! does nothing, and its contract is the law.
#![tactic(auto)]

ghost use Rattle.std.specs.Prelude.{◌≡◌, ◌≤◌, ℕ, Some, List, [], length, slice_get};
ghost use Rattle.peg_name.specs.Name.{Rack};
ghost use Rattle.peg_event.specs.declared.Event.{Event};
ghost use Rattle.peg_model.specs.World.{World, start};
ghost use Rattle.peg_model.specs.Headline.{OrdersAreHistories};
ghost use Rattle.peg_meaning.specs.Session.{Inputs, IsTaken, state_of, text_of, entries_of};
ghost use Rattle.peg_meaning.specs.RackWord.{RackEntry, serves_rack, rack_start};
ghost use Rattle.peg_meaning.specs.Racks.{RacksEntry, plays_racks, racks_start};
ghost use Rattle.peg_meaning.specs.Records.{AuditEntry, Yes, audits, audit_start, audit_text};
ghost use Rattle.peg_meaning.specs.Records.{run_end, recorded_entries};
ghost use Rattle.peg_meaning.specs.CheckWord.{CheckEntry, judges, check_start};
ghost use Rattle.peg_meaning.specs.Balance.{Loads, Balanced, balanced_turn};
ghost use Rattle.peg_word_law.specs.Runs.{IsRunOf, HasRun, HaveRuns, AuditsRun};
ghost use Rattle.peg_word_law.specs.Isolated.{Placed, IsIsolated};
ghost use Rattle.peg_word_law.specs.Divided.{PlaysRun};
ghost use Rattle.peg_word_law.specs.Homes.{HaveOwnKeys};
ghost use Rattle.peg_word_law.specs.Lightest.{SpreadsRequests};
ghost use Rattle.peg_word_law.specs.Recorded.{AreRecordable, IsRecord};
ghost use Rattle.peg_word_law.specs.Judged.{HasJudged};
ghost use Rattle.peg_word_law.specs.Fair.{rounds, AreEqual, IsFair, IsRising, IsBelowLast};

/// For those who serve a rack over a wire: whatever the wire gave, and in whatever order, the world
/// of the word `rack` is at each moment the end of a schedule of the rack that its first line
/// names. So the laws of runs hold of it.
pub fn serves_a_run()
    ensures { (base : ℕ) (inputs : Inputs RackEntry)
        → IsTaken serves_rack (rack_start base) inputs
        → HasRun (entries_of inputs) (state_of serves_rack (rack_start base) inputs) }
{
    peg_law::reaches_ends_of_runs();
}

/// For those who play several racks: each world of the word `racks` is at each moment the end of a
/// schedule of the rack that its rack line names.
pub fn plays_runs()
    ensures { (inputs : Inputs RacksEntry) → IsTaken plays_racks racks_start inputs
        → HaveRuns (entries_of inputs) (state_of plays_racks racks_start inputs) }
{
    peg_law::reaches_ends_of_runs();
}

/// For those who audit records: whatever lines were read, what was stepped of them is a schedule of
/// the rack that the first one names, and the world of the audit is its end.
pub fn audits_a_run()
    ensures { (inputs : Inputs AuditEntry) → IsTaken audits audit_start inputs
        → AuditsRun (entries_of inputs) (state_of audits audit_start inputs) }
{
    peg_law::reaches_ends_of_runs();
}

/// For those who print the orders of such a world: they are register histories, at each moment.
pub fn prints_register_histories()
    ensures { (rack : Rack) (keys : List (List ℕ)) (w : World) → IsRunOf rack keys w
        → OrdersAreHistories w }
{
    peg_law::prints_register_histories();
}

/// For those who play several racks: the word `racks` plays one run of all racks that its lines
/// name, each event at the place of its line, and writes the text of that run.
pub fn plays_its_lines()
    ensures { (inputs : Inputs RacksEntry) → IsTaken plays_racks racks_start inputs
        → PlaysRun (entries_of inputs) (state_of plays_racks racks_start inputs)
        (text_of plays_racks racks_start inputs) }
{}

/// For those who put keys on several racks: each rack runs as if it were alone. Its lines and its
/// world are those of its own run on the events that go to it, at the same places, whatever the
/// others are sent.
pub fn isolates_racks()
    ensures { (worlds : List World) (placed : Placed) (rack : ℕ) (w : World)
        → slice_get worlds rack ≡ Some w → IsIsolated worlds placed rack w }
{}

/// For those who look for a key on several racks: all operations on it stand in its one rack.
pub fn keeps_keys_apart()
    ensures { (inputs : Inputs RacksEntry) → IsTaken plays_racks racks_start inputs
        → HaveOwnKeys (state_of plays_racks racks_start inputs) }
{}

/// For those who spread requests: where a request may go to more servers than one, a balanced
/// switch sends it to one of these than which none has less load for its weight, and charges it.
pub fn goes_to_the_lightest()
    ensures { (b : Balanced) (bytes : List ℕ) (before : ℕ)
        → SpreadsRequests b bytes (balanced_turn b bytes before) }
{}

/// For those who spread requests: rounds of a choice and its charge are fair. Where servers had one
/// weight and one load, their loads differ by at most one after any number of rounds and add up to
/// as many more, and all other loads stay, as long as no load comes to the greatest number.
pub fn shares_rounds_fairly()
    ensures { (n weight load : ℕ) (loads : Loads) (servers : List ℕ) → 1 ≤ length servers
        → IsRising servers (length loads.loads) → AreEqual loads servers weight load
        → IsBelowLast (rounds n loads servers) servers → IsFair n loads servers }
{}

/// For those who record: the audit says yes of the record of each run without junk, each of whose
/// deliveries is of the least packet with its node and its bytes. What it writes then are the
/// operations and orders of that run.
pub fn takes_records()
    ensures { (rack : Rack) (events : List Event) (inputs : Inputs AuditEntry)
        → AreRecordable (start rack []) 2 events → IsTaken audits audit_start inputs
        → entries_of inputs ≡ recorded_entries rack events
        → text_of audits audit_start inputs
        ≡ audit_text Yes (run_end (start rack []) 2 events) }
{}

/// For those who read an audit: a yes, whatever it goes on to say, is said of nothing but the
/// record of such a run.
pub fn takes_no_others()
    ensures { (inputs : Inputs AuditEntry) (w : World) → IsTaken audits audit_start inputs
        → text_of audits audit_start inputs ≡ audit_text Yes w
        → IsRecord (entries_of inputs) }
{}

/// For those who read a verdict: it is of the history that stands in the lines, with the orders of
/// its keys, and it is all that the word `check` writes.
pub fn judges_histories()
    ensures { (inputs : Inputs CheckEntry) → IsTaken judges check_start inputs
        → HasJudged (entries_of inputs) (state_of judges check_start inputs).stage
        (text_of judges check_start inputs) }
{}
