// The six lines that sum up a run.
ghost use Rattle.std.specs.Prelude.{◌≡◌, IfOk, count_by, is_some};
ghost use Rattle.std.specs.String.{string_bytes};
ghost use Rattle.peg_meaning.specs.Workload.{summary_text};
ghost use Rattle.peg_soak.specs.Soaked.{six_lines, SaysYes};

use peg_event::Verdict;
use peg_history::{History, check};
use peg_name::OutOfMemory;
use peg_world::World;
use std::alloc::{AllocError, Global};

#[tactic(auto, using(crate::proofs::Counted::counted_yes, crate::proofs::Counted::counted_no))]
fn answered_in(history: &History) -> u32
    ensures { result ≡ count_by (λ op. is_some op.answered) history.now.ops }
{
    let mut answered = 0;
    for place in 0..history.len() {
        if history.op(place).answered.is_some() {
            answered += 1;
        }
    }
    answered
}

// The lines that say these numbers, and a verdict of yes.
fn lines_of(
    alloc: Global,
    events: u64,
    packets: u32,
    operations: u32,
    answered: u32,
    keys: usize,
) -> Result<String, AllocError>
    ensures { IfOk result (λ text. string_bytes text
        ≡ six_lines events packets operations answered keys) }
{
    format!(in alloc;
        "events {events}\npackets {packets}\noperations {operations}\nanswered {answered}\nkeys {keys}\ncheck yes\n"
    )
}

// The lines of a world after so many events. The verdict on it is yes, since its orders are register
// histories.
pub(crate) fn summary_of(alloc: Global, events: u64, world: &World) -> Result<String, OutOfMemory>
    ensures text { IfOk result (λ text. string_bytes text ≡ summary_text events world.now.world) }
    ensures yes { IfOk result (λ _. SaysYes events world.now.world) }
{
    let history = world.history();
    let orders = world.orders(alloc)?;
    let Verdict::Yes = check(alloc, history, &orders)? else {
        unreachable!()
    };
    let answered = answered_in(history);
    Ok(lines_of(
        alloc,
        events,
        world.packets(),
        history.len(),
        answered,
        orders.len(),
    )?)
}
