//! The commands of a plan.

ghost use Rattle.std.specs.Prelude.{◌≡◌, ◌≤◌, ◌-◌, ◌+◌, ◌^◌, ◌++◌, [], length, take, filter};
ghost use Rattle.peg_model.specs.Controller.{demotions, promotions, is_worth, is_demotion};
ghost use Rattle.peg_control.specs.Plans.{commands_of};

use crate::known::Known;
use crate::orders::Orders;
use crate::report::Report;
use peg_event::Command;
use peg_name::{Key, Row};

/// Has at most 64 commands wait: demotions of the known keys that are cold, and then promotions of
/// the hot keys that are not known. It answers how many of each.
pub fn wait_all(
    orders: &mut Orders,
    known: &Known,
    report: &Report,
    promote_at: u64,
    demote_below: u64,
) -> (usize, usize)
    requires empty { orders.old.queue ≡ [] }
    requires few { length known.now ≤ 64 }
    requires numbers { orders.old.last + 64 ≤ 2 ^ 64 - 2 }
    ensures orders { orders.new ≡ record orders.old {
      queue = commands_of known.now report.now promote_at demote_below;
    } }
    ensures demotes { result.0 ≡ length (filter is_demotion
        (commands_of known.now report.now promote_at demote_below)) }
    ensures promotes { result.1 ≡ length (commands_of known.now report.now promote_at demote_below)
        - length (filter is_demotion
        (commands_of known.now report.now promote_at demote_below)) }
{
    wait_demotions(orders, known.keys(), report, demote_below);
    let demotes = orders.waiting();
    wait_promotions(orders, known, report, promote_at);
    (demotes, orders.waiting() - demotes)
}

// The known keys that are cold are to be demoted.
fn wait_demotions(orders: &mut Orders, known: &[Key], report: &Report, demote_below: u64)
    requires empty { orders.old.queue ≡ [] }
    requires few { length known.now ≤ 64 }
    requires numbers { orders.old.last + 64 ≤ 2 ^ 64 - 2 }
    ensures orders { orders.new
        ≡ record orders.old { queue = demotions known.now report.now demote_below } }
    ensures few { length orders.new.queue ≤ 64 }
{
    for key in known {
        if report.is_cold(key, demote_below) {
            orders.wait(&Command::Demote { key: *key });
        }
    }
}

// The hottest keys that are worth it are to be promoted, as far as 64 commands may wait.
fn wait_promotions(orders: &mut Orders, known: &Known, report: &Report, promote_at: u64)
    requires few { length orders.old.queue ≤ 64 }
    requires numbers { orders.old.last + 64 ≤ 2 ^ 64 - 2 }
    ensures orders { orders.new ≡ record orders.old {
      queue = take 64 (orders.old.queue ++ promotions known.now report.now promote_at);
    } }
{
    for row in report.hottest() {
        if is_worth(promote_at, known, row) {
            orders.wait_if_room(&Command::Promote { key: row.key });
        }
    }
}

// Whether the row is sure of this count, and its key isn't known yet.
fn is_worth(promote_at: u64, known: &Known, row: &Row) -> bool
    ensures { result ≡ is_worth promote_at known.now row.now }
{
    promote_at <= row.count.saturating_sub(row.error) && !known.has(&row.key)
}
