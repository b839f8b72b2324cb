//! The top call: it carries out the words of a command over a source, a sink and a wire.
#![tactic(auto)]

ghost use Rattle.std.specs.Prelude.{◌≡◌, ◌≢◌, ◌⊎◌, ◌≤◌, ℕ, None, Some};
ghost use Rattle.peg_name.specs.Name.{Rack};
ghost use Rattle.peg_model.specs.Trace.{RunText};
ghost use Rattle.peg_io.specs.Outside.{Rose, Tells};
ghost use Rattle.peg_meaning.specs.CheckWord.{judges, check_start};
ghost use Rattle.peg_meaning.specs.RackWord.{serves_rack, rack_start};
ghost use Rattle.peg_meaning.specs.Racks.{plays_racks, racks_start};
ghost use Rattle.peg_session.specs.Alike.{WhereTold};
ghost use Rattle.peg_session.specs.Ends.{told};
ghost use Rattle.peg_run.specs.Verdicts.{EndsAs, IsVerdict};
ghost use Rattle.peg_run.specs.Soaks.{Soaks};
ghost use Rattle.peg_run.specs.Racked.{ShowsHistories};
ghost use Rattle.peg_run.specs.Divided.{ShowsRacks};
ghost use Rattle.peg_run.specs.Status.{code_of, status_text, status_of};
ghost use Rattle.peg_run.specs.Roles.{EndsNode, TakesTurns, ReadsLines, IsOffline};
ghost use Rattle.peg_run.specs.Front.{HasSchedule};
ghost use Rattle.peg_run.specs.Ends.{job_in, IsDone, IsBadAt, IsTooMuchAt, IsUnread};
ghost use Rattle.peg_run.specs.Ends.{IsUnwritten, IsOutOfMemory, IsAhead, ShowsRegisters, Ended, HasCause};

use nodes::run_node;
use peg_io::{Sink, Source, Wire};
use peg_judge::{check, says_yes_of_histories};
use peg_law::prints_register_histories;
use peg_replay::replay;
use peg_session::End;
use peg_soak::soak;
use peg_trace::shows_each_operation;
use peg_word_law::judges_histories;
use peg_words::{Job, Role, WordFault, read_words};
use racks::{run_rack, run_racks};
use std::alloc::Global;
use std::fmt;

mod nodes;
mod racks;

/// How a run ended.
#[derive(Clone, Copy, Debug, PartialEq, Eq)]
pub enum Status {
    /// The input was read to the line that ends it, or the events were made, and the whole text is
    /// written.
    Done,
    /// There was no memory for what was to be kept.
    OutOfMemory,
    /// The words are no command.
    Usage,
    /// The source failed.
    ReadFault,
    /// The sink failed.
    WriteFault,
    /// The wire failed to bind or to receive.
    WireFault,
    /// This line, from 1, is the first that is missing, too long or outside the grammar.
    BadInput { line: u64 },
    /// This line, from 1, or event of a made workload is the first past a limit.
    TooMuch { line: u64 },
}

impl Status {
    /// The exit code of the program.
    pub fn code(&self) -> u8
        ensures { result ≡ code_of self.now }
    {
        match self {
            Status::Done => 0,
            Status::OutOfMemory => 1,
            Status::Usage => 2,
            Status::ReadFault => 3,
            Status::WriteFault => 4,
            Status::WireFault => 5,
            Status::BadInput { .. } => 6,
            Status::TooMuch { .. } => 7,
        }
    }
}

/// What the program says of it on standard error: nothing for `Done`.
impl fmt::Display for Status {
    ghost output = { λ status. Some (status_text status) };

    fn fmt<W: fmt::Write>(&self, f: &mut fmt::Formatter<W>) -> fmt::Result {
        match self {
            Status::Done => Ok(()),
            Status::OutOfMemory => write!(f, "peg: out of memory"),
            Status::Usage => write!(f, "peg: usage"),
            Status::ReadFault => write!(f, "peg: read fault"),
            Status::WriteFault => write!(f, "peg: write fault"),
            Status::WireFault => write!(f, "peg: network fault"),
            Status::BadInput { line } => write!(f, "peg: line {line} is not accepted"),
            Status::TooMuch { line } => write!(f, "peg: line {line} is past the limit"),
        }
    }
}

fn status_of(end: End) -> Status
    ensures { result ≡ status_of end }
{
    match end {
        End::Done => Status::Done,
        End::OutOfMemory => Status::OutOfMemory,
        End::ReadFault => Status::ReadFault,
        End::WriteFault => Status::WriteFault,
        End::WireFault => Status::WireFault,
        End::BadInput { line } => Status::BadInput { line },
        End::TooMuch { line } => Status::TooMuch { line },
    }
}

fn replay_schedule<S: Source, K: Sink>(alloc: Global, source: &mut S, sink: &mut K) -> Status
    ensures ended { Ended result (S.left source.old) (S.left source.new)
        (K.held sink.old) (K.held sink.new) }
    ensures cause { HasCause result (S.faults source.old) (S.faults source.new)
        (K.faults sink.old) (K.faults sink.new) }
{
    status_of(replay(alloc, source, sink))
}

// The text of a verdict is that of the history in the lines.
fn judge_history<S: Source, K: Sink>(alloc: Global, source: &mut S, sink: &mut K) -> Status
    ensures ended { EndsAs judges check_start result
        (told (S.left source.old) (K.held sink.old) None 0)
        (told (S.left source.new) (K.held sink.new) None 0) }
    ensures verdict { result ≡ Status.Done → IsVerdict (S.left source.old) (S.left source.new)
        (K.held sink.old) (K.held sink.new) }
    ensures cause { HasCause result (S.faults source.old) (S.faults source.new)
        (K.faults sink.old) (K.faults sink.new) }
    ensures no_usage { result ≢ Status.Usage }
    ensures no_wire_fault { result ≢ Status.WireFault }
{
    judges_histories();
    says_yes_of_histories();
    status_of(check(alloc, source, sink))
}

fn soak_workload<K: Sink>(alloc: Global, events: u64, start: u64, sink: &mut K) -> Status
    requires { events ≤ 20000 }
    ensures soaks { Soaks events start result (K.held sink.old) (K.held sink.new) }
    ensures write_fault { result ≡ Status.WriteFault
        → Rose (K.faults sink.old) (K.faults sink.new) }
    ensures no_usage { result ≢ Status.Usage }
    ensures no_read_fault { result ≢ Status.ReadFault }
    ensures no_wire_fault { result ≢ Status.WireFault }
{
    status_of(soak(alloc, events, start, sink))
}

/// Carries out the words of a command. `replay` reads a schedule line by line and writes its trace,
/// its history and the order of each key. It takes every line of the grammar. `check` reads a
/// history and the orders of its keys, or a whole trace, and writes the verdict on them. `soak`
/// makes a workload, plays it and writes its numbers and the verdict on it, which is yes. `switch`,
/// `balanced`, `server`, `control` and `ask` run one node of a rack over the wire, and `rack` runs all of
/// them. `racks` plays a schedule on several racks, among which the keys are divided.
///
/// Whoever reads an order that it prints holds a register history in the hand: so the clause
/// `linearizable` says, by the definitions of the register alone. It asks of the sink that it tells
/// what it holds, and of the source nothing.
///
/// `Usage` where the words are no command; `BadInput` and `TooMuch` at the first line that is
/// outside the grammar or past a limit, and `TooMuch` also at the event at which a made workload has
/// too many packets; `ReadFault` and `WriteFault` where the source or the sink
/// failed, and `WireFault` where the wire did; `OutOfMemory` where there was none for what is kept. Before the source is asked for
/// more, and before each answer, the text of the lines so far is written; at `WriteFault` and
/// `OutOfMemory` maybe only a first part of it.
#[tactic(auto, using(crate::proofs::Answered::text_told, crate::proofs::Headline::histories_told, crate::proofs::Verdicts::begins_not, crate::proofs::Soaks::soaks_as, crate::proofs::RoleEnds::not_run, crate::proofs::RackEnds::rack_not_begun, crate::proofs::RacksEnds::racks_not_begun))]
pub fn run<S: Source, K: Sink, W: Wire>(
    alloc: Global,
    words: &[String],
    source: &mut S,
    sink: &mut K,
    wire: &mut W,
) -> Status
    // Usage is answered only where the words are no command.
    ensures usage { result ≡ Status.Usage → job_in words.now ≡ None }
    // Where the words are no command that is the answer, but for want of memory.
    ensures no_command { job_in words.now ≡ None
        → (result ≡ Status.Usage) ⊎ (result ≡ Status.OutOfMemory) }
    // Then nothing is read or written.
    ensures unused { job_in words.now ≡ None
        → (source.new ≡ source.old) × (sink.new ≡ sink.old) }
    // The wire stays as it was, unless a node is run.
    ensures wire { IsOffline (job_in words.now) → wire.new ≡ wire.old }
    // Nor is a fault of it answered.
    ensures no_wire_fault { IsOffline (job_in words.now) → result ≢ Status.WireFault }
    // A fault of the source is answered only where its count rose.
    ensures read_fault { result ≡ Status.ReadFault
        → Rose (S.faults source.old) (S.faults source.new) }
    // A fault of the sink is answered only where its count rose.
    ensures write_fault { result ≡ Status.WriteFault
        → Rose (K.faults sink.old) (K.faults sink.new) }
    // A fault of the wire is answered only where its count rose.
    ensures wire_fault { result ≡ Status.WireFault
        → Rose (W.faults wire.old) (W.faults wire.new) }
    // Of `replay`.
    // Done: the text of the run of the schedule that the input begins with was appended.
    ensures text { job_in words.now ≡ Some Job.Replay → result ≡ Status.Done
        → WhereTold (S.left source.old) (S.left source.new) (K.held sink.old) (K.held sink.new)
        RunText }
    // Done: clients saw one plain register for each key, whatever the source tells.
    ensures linearizable { job_in words.now ≡ Some Job.Replay → result ≡ Status.Done
        → Tells (K.held sink.old) (K.held sink.new) ShowsRegisters }
    // Done: the input was read to the line end, and the limits were kept.
    ensures done { job_in words.now ≡ Some Job.Replay → result ≡ Status.Done
        → IsDone (S.left source.old) (S.left source.new) (K.held sink.old) (K.held sink.new) }
    // The first line at fault is named, and the text of the lines before it was appended.
    ensures bad_input { (line : ℕ) → job_in words.now ≡ Some Job.Replay
        → result ≡ Status.BadInput line
        → IsBadAt line (S.left source.old) (S.left source.new) (K.held sink.old) (K.held sink.new) }
    // The first line past a limit is named, and the text of the lines before it was appended.
    ensures too_much { (line : ℕ) → job_in words.now ≡ Some Job.Replay
        → result ≡ Status.TooMuch line
        → IsTooMuchAt line (S.left source.old) (S.left source.new)
        (K.held sink.old) (K.held sink.new) }
    // ReadFault: the text of all whole lines that were read was appended, and each of them had its
    // line feed.
    ensures unread { job_in words.now ≡ Some Job.Replay → result ≡ Status.ReadFault
        → IsUnread (S.left source.old) (S.left source.new) (K.held sink.old) (K.held sink.new) }
    // WriteFault: fewer than all bytes of the text were appended.
    ensures unwritten { job_in words.now ≡ Some Job.Replay → result ≡ Status.WriteFault
        → IsUnwritten (S.left source.old) (S.left source.new) (K.held sink.old) (K.held sink.new) }
    // OutOfMemory: a first part of the text was appended.
    ensures no_memory { job_in words.now ≡ Some Job.Replay → result ≡ Status.OutOfMemory
        → IsOutOfMemory (S.left source.old) (S.left source.new)
        (K.held sink.old) (K.held sink.new) }
    // Little more was taken than the lines that the status speaks of.
    ensures ahead { job_in words.now ≡ Some Job.Replay → IsAhead result (S.left source.old) (S.left source.new)
        (K.held sink.old) (K.held sink.new) }
    // A schedule within the limits is done, where nothing fails and there is memory.
    ensures complete { job_in words.now ≡ Some Job.Replay
        → Tells (S.left source.old) (S.left source.new)
        (λ input rest. HasSchedule input → (Rose (S.faults source.old) (S.faults source.new) → ⊥)
        → (Rose (K.faults sink.old) (K.faults sink.new) → ⊥)
        → (result ≡ Status.Done) ⊎ (result ≡ Status.OutOfMemory)) }
    // Of `check`: its session ended as the status says.
    ensures checked { job_in words.now ≡ Some Job.Check → EndsAs judges check_start result
        (told (S.left source.old) (K.held sink.old) None 0)
        (told (S.left source.new) (K.held sink.new) None 0) }
    // Done: the verdict on the history in the lines was appended, and it says yes exactly where each
    // order in the lines is a register history of its key.
    ensures verdict { job_in words.now ≡ Some Job.Check → result ≡ Status.Done
        → IsVerdict (S.left source.old) (S.left source.new) (K.held sink.old) (K.held sink.new) }
    // Of `soak`.
    // The source stays as it was.
    ensures soak_unread { (events start : ℕ) → job_in words.now ≡ Some (Job.Soak events start)
        → source.new ≡ source.old }
    // Done: the summary of the run of so many events was appended, whose last line says yes. All
    // that holds at the other ends, of which there are three.
    ensures soaks { (events start : ℕ) → job_in words.now ≡ Some (Job.Soak events start)
        → Soaks events start result (K.held sink.old) (K.held sink.new) }
    // Of `switch`, `balanced`, `server`, `control` and `ask`: the node ended as the status says.
    ensures node { (base : ℕ) (rack : Rack) (role : Role)
        → job_in words.now ≡ Some (Job.Node base rack role) → EndsNode base rack role result
        (told (S.left source.old) (K.held sink.old) (W.carried wire.old) (W.slots wire.old))
        (told (S.left source.new) (K.held sink.new) (W.carried wire.new) (W.slots wire.new)) }
    // A switch and a server leave the source as it was.
    ensures node_unread { (base : ℕ) (rack : Rack) (role : Role)
        → job_in words.now ≡ Some (Job.Node base rack role) → TakesTurns role
        → source.new ≡ source.old }
    // Where their port was not bound, the controller and a client read and wrote nothing.
    ensures node_unbound { (base : ℕ) (rack : Rack) (role : Role)
        → job_in words.now ≡ Some (Job.Node base rack role) → ReadsLines role
        → W.slots wire.new ≡ W.slots wire.old
        → (source.new ≡ source.old) × (sink.new ≡ sink.old) }
    // Of `rack`: its session ended as the status says, over any source, sink and wire.
    ensures racked { (base : ℕ) → job_in words.now ≡ Some (Job.Rack base)
        → EndsAs serves_rack (rack_start base) result
        (told (S.left source.old) (K.held sink.old) (W.carried wire.old) (W.slots wire.old))
        (told (S.left source.new) (K.held sink.new) (W.carried wire.new) (W.slots wire.new)) }
    // Done: clients saw one plain register for each key, whatever the wire delivered. What was
    // appended ends with the operations and orders of a run, each a register history.
    ensures rack_histories { (base : ℕ) → job_in words.now ≡ Some (Job.Rack base)
        → result ≡ Status.Done → Tells (K.held sink.old) (K.held sink.new) ShowsHistories }
    // Of `racks`: its session ended as the status says.
    ensures several { job_in words.now ≡ Some Job.Racks → EndsAs plays_racks racks_start result
        (told (S.left source.old) (K.held sink.old) None 0)
        (told (S.left source.new) (K.held sink.new) None 0) }
    // Done: clients of each rack saw one plain register for each of its keys. The whole text was
    // appended, each order in it is a register history, and each rack ran as if it were alone.
    ensures divided { job_in words.now ≡ Some Job.Racks → result ≡ Status.Done
        → Tells (K.held sink.old) (K.held sink.new) ShowsRacks }
{
    prints_register_histories();
    shows_each_operation();
    let job = read_words(alloc, words);
    match &job {
        Ok(Job::Replay) => replay_schedule(alloc, source, sink),
        Ok(Job::Check) => judge_history(alloc, source, sink),
        Ok(Job::Soak { events, start }) => soak_workload(alloc, *events, *start, sink),
        Ok(Job::Node { base, config, role }) => {
            run_node(alloc, *base, config, role, source, sink, wire)
        }
        Ok(Job::Rack { base }) => run_rack(alloc, *base, source, sink, wire),
        Ok(Job::Racks) => run_racks(alloc, source, sink),
        Err(WordFault::Usage) => Status::Usage,
        Err(WordFault::OutOfMemory) => Status::OutOfMemory,
    }
}
