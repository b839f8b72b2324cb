use crate::text::key_k;
use crate::text::printing::prints;
use peg_event::{Outcome, Said, SwitchDid};
use peg_name::{ClientId, Note, Seq, ServerId, SwitchId, Version};
use std::process::Abort;
use std::test::Fail;

fn prints_switch(rt: &impl Abort, did: SwitchDid, text: &[u8]) {
    prints(
        rt,
        Said::Switch {
            switch: SwitchId(1),
            did,
        },
        text,
    );
}

#[test]
fn what_a_switch_passed_on_is_printed(rt: HostRuntime) -> Result<(), Fail> {
    let key = key_k()?;
    let server = ServerId(2);
    let client = ClientId(3);
    let seq = Seq(9);
    let version = Version(4);
    let note = Note::Unlisted;
    prints_switch(
        &rt,
        SwitchDid::Read { server, key },
        b"switch 1 forwards read k to server 2",
    );
    prints_switch(
        &rt,
        SwitchDid::Wrote {
            server,
            key,
            version,
        },
        b"switch 1 forwards write k version 4 to server 2",
    );
    prints_switch(
        &rt,
        SwitchDid::Answered {
            client,
            seq,
            version,
            note,
        },
        b"switch 1 answers client 3 seq 9 version 4 unlisted",
    );
    Ok(())
}

#[test]
fn what_a_switch_noted_is_printed(rt: HostRuntime) {
    let server = ServerId(2);
    let version = Version(4);
    for (note, text) in [
        (
            Note::Removed { listing: 6 },
            b"switch 1 notes server 2 version 4 removed 6".as_slice(),
        ),
        (
            Note::Kept,
            b"switch 1 notes server 2 version 4 kept".as_slice(),
        ),
        (
            Note::Raised,
            b"switch 1 notes server 2 version 4 raised".as_slice(),
        ),
        (
            Note::Added,
            b"switch 1 notes server 2 version 4 added".as_slice(),
        ),
    ] {
        prints_switch(
            &rt,
            SwitchDid::Noted {
                server,
                version,
                note,
            },
            text,
        );
    }
}

#[test]
fn what_a_switch_voided_is_printed(rt: HostRuntime) {
    let client = ClientId(3);
    let seq = Seq(9);
    let version = Version(4);
    prints_switch(
        &rt,
        SwitchDid::Voided {
            client,
            seq,
            version,
        },
        b"switch 1 voids client 3 seq 9 version 4",
    );
    prints_switch(
        &rt,
        SwitchDid::VoidSkipped { client, seq },
        b"switch 1 skips void of client 3 seq 9",
    );
}

#[test]
fn what_a_switch_did_with_commands_is_printed(rt: HostRuntime) {
    let outcome = Outcome::AlreadyMarked(5);
    prints_switch(
        &rt,
        SwitchDid::Applied { number: 7, outcome },
        b"switch 1 applies 7 already marked 5",
    );
    prints_switch(
        &rt,
        SwitchDid::Repeated { number: 7 },
        b"switch 1 repeats 7",
    );
    prints_switch(
        &rt,
        SwitchDid::Skipped { number: 7, last: 8 },
        b"switch 1 skips 7 at 8",
    );
    prints_switch(
        &rt,
        SwitchDid::Sealed {
            epoch: 2,
            target: SwitchId(0),
        },
        b"switch 1 seals epoch 2 to switch 0",
    );
    prints_switch(
        &rt,
        SwitchDid::Activated { epoch: 2 },
        b"switch 1 active epoch 2",
    );
    prints_switch(
        &rt,
        SwitchDid::Reported { rows: 3 },
        b"switch 1 reports 3 rows",
    );
}

#[test]
fn what_a_switch_did_with_parts_and_refused_is_printed(rt: HostRuntime) {
    prints_switch(
        &rt,
        SwitchDid::Collected { held: 1, count: 2 },
        b"switch 1 collects 1 of 2",
    );
    prints_switch(&rt, SwitchDid::HasPart { index: 0 }, b"switch 1 has part 0");
    prints_switch(
        &rt,
        SwitchDid::OldPart { epoch: 2 },
        b"switch 1 old part of epoch 2",
    );
    prints_switch(
        &rt,
        SwitchDid::NotActive { epoch: 2 },
        b"switch 1 not active epoch 2",
    );
    prints_switch(&rt, SwitchDid::Stale { last: Seq(9) }, b"switch 1 stale 9");
    prints_switch(
        &rt,
        SwitchDid::Exhausted { next: Version(6) },
        b"switch 1 exhausted 6",
    );
    prints_switch(&rt, SwitchDid::Malformed, b"switch 1 malformed");
    prints_switch(&rt, SwitchDid::OutOfPlace, b"switch 1 out of place");
}
