use crate::text::key_k;
use crate::text::printing::prints;
use peg_event::{Command, ControlDid, Outcome, Said};
use peg_name::{ServerId, SwitchId};
use std::process::Abort;
use std::test::Fail;

fn prints_outcome(rt: &impl Abort, outcome: Outcome, text: &[u8]) {
    let did = ControlDid::Took { number: 7, outcome };
    prints(rt, Said::Controller { did }, text);
}

#[test]
fn what_commands_came_to_is_printed(rt: HostRuntime) {
    prints_outcome(&rt, Outcome::Listed(7), b"controller takes 7 listed 7");
    prints_outcome(&rt, Outcome::Already(5), b"controller takes 7 already 5");
    prints_outcome(&rt, Outcome::Full(2), b"controller takes 7 full 2");
    prints_outcome(&rt, Outcome::Marked(5), b"controller takes 7 marked 5");
    prints_outcome(&rt, Outcome::NotListed, b"controller takes 7 not listed");
    prints_outcome(&rt, Outcome::Ordered(1), b"controller takes 7 ordered 1");
    prints_outcome(&rt, Outcome::Holds, b"controller takes 7 holds");
    prints_outcome(
        &rt,
        Outcome::Activated(2),
        b"controller takes 7 activated 2",
    );
    prints_outcome(&rt, Outcome::Cleared, b"controller takes 7 cleared");
    prints_outcome(&rt, Outcome::Fenced(3), b"controller takes 7 fenced 3");
    prints_outcome(&rt, Outcome::NoBase, b"controller takes 7 no base");
    prints_outcome(&rt, Outcome::NoVersion(9), b"controller takes 7 no version");
}

fn prints_order(rt: &impl Abort, command: Command, text: &[u8]) {
    prints(rt, Said::Orders { number: 7, command }, text);
}

#[test]
fn what_the_controller_ordered_is_printed(rt: HostRuntime) -> Result<(), Fail> {
    let key = key_k()?;
    prints_order(
        &rt,
        Command::Promote { key },
        b"controller orders 7 promote k",
    );
    prints_order(
        &rt,
        Command::Demote { key },
        b"controller orders 7 demote k",
    );
    prints_order(
        &rt,
        Command::Copy {
            key,
            target: ServerId(1),
        },
        b"controller orders 7 copy k to server 1",
    );
    prints_order(&rt, Command::Fence { key }, b"controller orders 7 fence k");
    prints_order(
        &rt,
        Command::Handover {
            target: SwitchId(1),
        },
        b"controller orders 7 handover to switch 1",
    );
    prints_order(&rt, Command::Clear, b"controller orders 7 clear");
    Ok(())
}

#[test]
fn what_the_controller_took_is_printed(rt: HostRuntime) {
    for (did, text) in [
        (
            ControlDid::HasReport { rows: 4 },
            b"controller has report of 4 rows".as_slice(),
        ),
        (ControlDid::Ignored, b"controller ignores".as_slice()),
        (ControlDid::Malformed, b"controller malformed".as_slice()),
        (
            ControlDid::OutOfPlace,
            b"controller out of place".as_slice(),
        ),
    ] {
        prints(&rt, Said::Controller { did }, text);
    }
}

#[test]
fn what_the_controller_answered_is_printed(rt: HostRuntime) {
    prints(&rt, Said::ControlBusy { pending: 7 }, b"controller busy 7");
    prints(&rt, Said::ControlSpent { last: 7 }, b"controller spent 7");
    prints(&rt, Said::NoSuch { target: 9 }, b"controller no such 9");
    prints(
        &rt,
        Said::SameSwitch {
            switch: SwitchId(0),
        },
        b"controller same switch 0",
    );
    prints(&rt, Said::Retries { number: 7 }, b"controller retries 7");
    prints(
        &rt,
        Said::Announces { epoch: 2 },
        b"controller announces epoch 2",
    );
    prints(&rt, Said::Surveys, b"controller surveys");
    prints(
        &rt,
        Said::Plans {
            demotes: 1,
            promotes: 2,
        },
        b"controller plans 1 demote 2 promote",
    );
    prints(&rt, Said::NoReport, b"controller has no report");
}
