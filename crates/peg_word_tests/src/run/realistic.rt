//! A longer run: 200 operations of eight clients, then a report, a plan, and a handover behind which
//! a read finds what was written before it.

ghost use Rattle.std.specs.Prelude.{◌<◌};

use super::{replayed, sink_of, source_of, words_of};
use peg_io::{MemorySink, NoWire};
use peg_run::{Status, run};
use std::alloc::Global;
use std::fmt::Write;
use std::test::Fail;

const COMMANDS: &str = "\
survey\ndeliver 800\ndeliver 801\nplan 50 1\ndeliver 802\ndeliver 803\n\
handover 1\ndeliver 804\ndeliver 805\ndeliver 806\ndeliver 807\n\
read 0 hot\ndeliver 815\ndeliver 816\ndeliver 817\ndeliver 818\nend\n";

// What the lines from 1002 on come to, and how many operations there were.
const COMMANDS_OUT: &[u8] = b"\
1002 controller surveys sends 800
1003 switch 0 reports 12 rows sends 801
1004 controller has report of 12 rows
1005 controller plans 0 demote 1 promote sends 802
1006 switch 0 applies 1 listed 1 sends 803
1007 controller takes 1 listed 1
1008 controller orders 2 handover to switch 1 sends 804
1009 switch 0 seals epoch 2 to switch 1 sends 805
1010 switch 1 active epoch 2 sends 806
1011 controller takes 2 activated 2 sends 807..814
1012 client 0 moves to switch 1 epoch 2
1013 read 0 seq 26 sends 815
1014 switch 1 forwards read hot to server 13 sends 816
1015 server 13 reads hot version 67 sends 817
1016 switch 1 answers client 0 seq 26 version 67 kept sends 818
1017 client 0 answered 26 version 67 =v198
1018 end
history 201
";

// Even operations are on one key, and each third is a write.
fn push_operation(text: &mut String, i: u64) -> Result<(), Fail>
    requires { i < 200 }
{
    let client = i % 8;
    let is_write = i % 3 == 0;
    text.push_str(if is_write { "write" } else { "read" })?;
    write!(text, " {client} ")?;
    if i % 2 == 0 {
        text.push_str("hot")?;
    } else {
        let key = i % 40;
        write!(text, "key{key}")?;
    }
    if is_write {
        write!(text, " =v{i}")?;
    }
    for packet in 4 * i..4 * i + 4 {
        write!(text, "\ndeliver {packet}")?;
    }
    text.push_str("\n")?;
    Ok(())
}

fn schedule(alloc: Global) -> Result<String, Fail> {
    let mut text = String::new(alloc);
    text.push_str("rack servers=16 clients=8 switches=2 listed=8 hot=12 first=1\n")?;
    for i in 0..200 {
        push_operation(&mut text, i)?;
    }
    text.push_str(COMMANDS)?;
    Ok(text)
}

#[test]
fn a_realistic_run_is_replayed_and_judged(rt: HostRuntime) -> Result<(), Fail> {
    let text = schedule(rt.alloc())?;
    let mut source = source_of(rt.alloc(), text.as_bytes(), 4096, 0)?;
    let mut sink = sink_of(rt.alloc(), 4096, 0)?;
    let status = replayed(rt.alloc(), &mut source, &mut sink)?;
    assert_eq!(rt; status, Status::Done);
    assert!(rt; sink.tells());
    let output = sink.written();
    let shown = output
        .windows(COMMANDS_OUT.len())
        .any(|part| part == COMMANDS_OUT);
    assert!(rt; shown);
    let mut trace = source_of(rt.alloc(), output, 4096, 0)?;
    let mut verdict: MemorySink = sink_of(rt.alloc(), 4096, 0)?;
    let words = words_of(rt.alloc(), &["check"])?;
    let status = run(
        rt.alloc(),
        &words,
        &mut trace,
        &mut verdict,
        &mut NoWire::make(),
    );
    assert_eq!(rt; status, Status::Done);
    assert!(rt; verdict.tells());
    assert_eq!(rt;
        verdict.written(),
        b"yes 201 operations 21 keys\n".as_slice()
    );
    Ok(())
}
