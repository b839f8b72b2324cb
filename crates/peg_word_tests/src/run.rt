ghost use Rattle.std.specs.Prelude.{◌<◌};
ghost use Rattle.peg_model.specs.Schedule.{EventInRack};

mod realistic;

use crate::worked::*;
use peg_event::Event;
use peg_io::{Got, MemorySink, MemorySource, NoWire, Source};
use peg_name::{ClientId, Config, Key, Node, SwitchId};
use peg_run::{Status, run};
use peg_world::World;
use std::alloc::{AllocError, Global};
use std::test::Fail;

mod nodes;
mod racks;
mod several;
mod soaks;

fn words_of(alloc: Global, texts: &[&str]) -> Result<Vec<String>, AllocError> {
    let mut words = Vec::new(alloc);
    for text in texts {
        words.push(String::from_str(alloc, text)?)?;
    }
    Ok(words)
}

// Fails at the call of that number, from 1; at none for 0.
fn source_of(
    alloc: Global,
    input: &[u8],
    step: usize,
    fail: u64,
) -> Result<MemorySource, AllocError> {
    let bytes = Vec::from_slice(alloc, input)?;
    let fails = Vec::from_slice(alloc, &[fail])?;
    Ok(MemorySource::make(bytes, step.max(1), fails))
}

fn sink_of(alloc: Global, step: usize, fail: u64) -> Result<MemorySink, AllocError> {
    let fails = Vec::from_slice(alloc, &[fail])?;
    Ok(MemorySink::make(alloc, step.max(1), fails))
}

fn replayed<S: Source>(
    alloc: Global,
    source: &mut S,
    sink: &mut MemorySink,
) -> Result<Status, AllocError> {
    let words = words_of(alloc, &["replay"])?;
    Ok(run(alloc, &words, source, sink, &mut NoWire::make()))
}

// The lines of a text up to its line feed of that number.
fn first_lines(text: &[u8], count: usize) -> &[u8] {
    let mut left = count;
    for (i, byte) in text.iter().enumerate() {
        if left == 0 {
            return &text[..i];
        }
        if *byte == b'\n' {
            left -= 1;
        }
    }
    text
}

fn feeds_in(bytes: &[u8]) -> usize {
    bytes.iter().filter(|byte| **byte == b'\n').count()
}

#[test]
fn schedules_are_replayed(rt: HostRuntime) -> Result<(), Fail> {
    let rows = [
        (FULL_ROUNDS_IN, FULL_ROUNDS_OUT),
        (NOTHING_IN, NOTHING_OUT),
        (ONE_READ_IN, ONE_READ_OUT),
        (TWO_SENDS_IN, TWO_SENDS_OUT),
        (TWO_WRITES_IN, TWO_WRITES_OUT),
        (LATE_IN, LATE_OUT),
        (SEEN_LATE_IN, SEEN_LATE_OUT),
        (EXHAUSTED_IN, EXHAUSTED_OUT),
        (NO_PACKET_IN, NO_PACKET_OUT),
        (LONG_KEY_IN, LONG_KEY_OUT),
        (BUSY_IN, BUSY_OUT),
        (LARGEST_IN, LARGEST_OUT),
    ];
    for (input, output) in rows {
        for step in [1, 16, 4096] {
            let mut source = source_of(rt.alloc(), input, step, 0)?;
            let mut sink = sink_of(rt.alloc(), 4096, 0)?;
            let status = replayed(rt.alloc(), &mut source, &mut sink)?;
            assert_eq!(rt; status, Status::Done, "at step {step}");
            assert!(rt; sink.tells() && sink.written() == output, "at step {step}");
        }
    }
    Ok(())
}

// Whether a schedule is done, with this text.
fn is_replayed(alloc: Global, input: &[u8], output: &[u8]) -> Result<bool, AllocError> {
    let mut source = source_of(alloc, input, 4096, 0)?;
    let mut sink = sink_of(alloc, 4096, 0)?;
    let status = replayed(alloc, &mut source, &mut sink)?;
    Ok(status == Status::Done && sink.tells() && sink.written() == output)
}

#[test]
fn listed_keys_are_replayed(rt: HostRuntime) -> Result<(), Fail> {
    assert!(rt; is_replayed(rt.alloc(), LISTED_IN, LISTED_OUT)?);
    assert!(rt; is_replayed(rt.alloc(), COPIED_IN, COPIED_OUT)?);
    assert!(rt; is_replayed(rt.alloc(), OLD_REPLY_IN, OLD_REPLY_OUT)?);
    assert!(rt; is_replayed(rt.alloc(), STAMPED_BEFORE_IN, STAMPED_BEFORE_OUT)?);
    assert!(rt; is_replayed(rt.alloc(), DEMOTED_IN, DEMOTED_OUT)?);
    assert!(rt; is_replayed(rt.alloc(), READ_ACROSS_IN, READ_ACROSS_OUT)?);
    Ok(())
}

#[test]
fn commands_are_replayed(rt: HostRuntime) -> Result<(), Fail> {
    assert!(rt; is_replayed(rt.alloc(), COMMANDS_REPEATED_IN, COMMANDS_REPEATED_OUT)?);
    assert!(rt; is_replayed(rt.alloc(), DIRECTORY_FULL_IN, DIRECTORY_FULL_OUT)?);
    assert!(rt; is_replayed(rt.alloc(), RETRIED_IN, RETRIED_OUT)?);
    assert!(rt; is_replayed(rt.alloc(), NOT_COPIED_IN, NOT_COPIED_OUT)?);
    assert!(rt; is_replayed(rt.alloc(), FENCED_IN, FENCED_OUT)?);
    assert!(rt; is_replayed(rt.alloc(), FENCED_AND_COPIED_IN, FENCED_AND_COPIED_OUT)?);
    Ok(())
}

#[test]
fn handovers_plans_and_junk_are_replayed(rt: HostRuntime) -> Result<(), Fail> {
    assert!(rt; is_replayed(rt.alloc(), HANDED_OVER_IN, HANDED_OVER_OUT)?);
    assert!(rt; is_replayed(rt.alloc(), HANDED_BACK_IN, HANDED_BACK_OUT)?);
    assert!(rt; is_replayed(rt.alloc(), PLANNED_IN, PLANNED_OUT)?);
    assert!(rt; is_replayed(rt.alloc(), JUNK_IN, JUNK_OUT)?);
    Ok(())
}

#[test]
fn the_first_line_at_fault_is_named(rt: HostRuntime) -> Result<(), Fail> {
    let rows = [
        (b"".as_slice(), 1, b"".as_slice()),
        (b"\n", 1, b""),
        (b"end\n", 1, b""),
        (LARGE_IN_FORMAT_1_IN, 1, b""),
        (LISTED_TWICE_IN, 1, b""),
        (TOO_MANY_LISTED_IN, 1, b""),
        (
            b"rack servers=1 clients=1 switches=1 listed=1 hot=1 first=1",
            2,
            b"1 rack\n",
        ),
        (TOO_LONG_KEY_IN, 2, b"1 rack\n"),
        (DELETE_IN_FORMAT_1_IN, 2, b"1 rack\n"),
        (NO_END_IN, 3, NO_END_OUT),
    ];
    for (input, line, output) in rows {
        let mut source = source_of(rt.alloc(), input, 4096, 0)?;
        let mut sink = sink_of(rt.alloc(), 4096, 0)?;
        let status = replayed(rt.alloc(), &mut source, &mut sink)?;
        assert_eq!(rt; status, Status::BadInput { line });
        assert!(rt; sink.tells() && sink.written() == output, "at line {line}");
    }
    Ok(())
}

// A write of 1,024 bytes, each of which is written as three.
#[test]
fn a_format_has_its_longest_line(rt: HostRuntime) -> Result<(), Fail> {
    for (format, status) in [
        (b"".as_slice(), Status::BadInput { line: 2 }),
        (b" format=2".as_slice(), Status::Done),
    ] {
        let mut input = Vec::new(rt.alloc());
        let rack = b"rack servers=1 clients=1 switches=1 listed=1 hot=1 first=1".as_slice();
        input.extend_from_slice(rack)?;
        input.extend_from_slice(format)?;
        input.extend_from_slice(b"\nwrite 0 k =")?;
        for _ in 0..1024 {
            input.extend_from_slice(b"%00")?;
        }
        input.extend_from_slice(b"\nend\n")?;
        let mut source = source_of(rt.alloc(), &input, 4096, 0)?;
        let mut sink = sink_of(rt.alloc(), 4096, 0)?;
        assert_eq!(rt; replayed(rt.alloc(), &mut source, &mut sink)?, status);
    }
    Ok(())
}

// Eleven reads of 16 bytes take the whole schedule.
#[test]
fn each_read_fails_in_turn(rt: HostRuntime) -> Result<(), Fail> {
    for fail in 1..12 {
        let mut source = source_of(rt.alloc(), FULL_ROUNDS_IN, 16, fail)?;
        let mut sink = sink_of(rt.alloc(), 4096, 0)?;
        let status = replayed(rt.alloc(), &mut source, &mut sink)?;
        assert_eq!(rt; status, Status::ReadFault, "at call {fail}");
        let taken = &FULL_ROUNDS_IN[..16 * (fail as usize - 1)];
        let output = first_lines(FULL_ROUNDS_OUT, feeds_in(taken));
        assert!(rt; sink.tells() && sink.written() == output, "at call {fail}");
    }
    Ok(())
}

// 35 writes of 16 bytes take the whole text.
#[test]
fn each_write_fails_in_turn(rt: HostRuntime) -> Result<(), Fail> {
    for fail in 1..37 {
        let mut source = source_of(rt.alloc(), FULL_ROUNDS_IN, 4096, 0)?;
        let mut sink = sink_of(rt.alloc(), 16, fail)?;
        let status = replayed(rt.alloc(), &mut source, &mut sink)?;
        let len = FULL_ROUNDS_OUT.len().min(16 * (fail as usize - 1));
        let want = if fail < 36 {
            Status::WriteFault
        } else {
            Status::Done
        };
        assert_eq!(rt; status, want, "at call {fail}");
        assert!(rt;
            sink.tells() && sink.written() == &FULL_ROUNDS_OUT[..len],
            "at call {fail}"
        );
    }
    Ok(())
}

#[test]
fn what_follows_the_end_is_left(rt: HostRuntime) -> Result<(), Fail> {
    let mut input = Vec::from_slice(rt.alloc(), FULL_ROUNDS_IN)?;
    for _ in 0..100000 {
        input.push(b'z')?;
    }
    let mut source = source_of(rt.alloc(), &input, 4096, 0)?;
    let mut sink = sink_of(rt.alloc(), 4096, 0)?;
    assert_eq!(rt; replayed(rt.alloc(), &mut source, &mut sink)?, Status::Done);
    assert!(rt; sink.written() == FULL_ROUNDS_OUT);
    let mut buf = [0; 4096];
    let mut left = 0usize;
    for _ in 0..30 {
        if let Got::Bytes(count) = source.read(&mut buf) {
            left = left.saturating_add(count);
        }
    }
    assert!(rt; left >= 95905, "{left} bytes are left");
    Ok(())
}

// The status of these words, where nothing was written.
fn answer_to(alloc: Global, texts: &[&str]) -> Result<Option<Status>, AllocError> {
    let words = words_of(alloc, texts)?;
    let mut source = source_of(alloc, NOTHING_IN, 4096, 0)?;
    let mut sink = sink_of(alloc, 4096, 0)?;
    let status = run(alloc, &words, &mut source, &mut sink, &mut NoWire::make());
    Ok(sink.written().is_empty().then_some(status))
}

// What `check` says of a write and a read of the key k, whose tail this is.
fn is_judged(alloc: Global, tail: &[u8], verdict: &[u8]) -> Result<bool, AllocError> {
    let mut input = Vec::from_slice(
        alloc,
        b"1 rack\n12 end\nhistory 2\nop 0 client 0 write k =x issued 2 answered 6\n",
    )?;
    input.extend_from_slice(tail)?;
    let words = words_of(alloc, &["check"])?;
    let mut source = source_of(alloc, &input, 7, 0)?;
    let mut sink = sink_of(alloc, 4096, 0)?;
    let status = run(alloc, &words, &mut source, &mut sink, &mut NoWire::make());
    Ok(status == Status::Done && sink.written() == verdict)
}

#[test]
fn histories_are_judged(rt: HostRuntime) -> Result<(), Fail> {
    let cases: [(&[u8], &[u8]); 8] = [
        (
            b"op 1 client 0 read k issued 7 answered 11 =x\norder k 2\nat 0\nat 1\ndone\n",
            b"yes 2 operations 1 keys\n",
        ),
        (
            b"op 1 client 0 read k issued 7 answered 11 -\norder k 2\nat 0\nat 1\ndone\n",
            b"no illegal 1\n",
        ),
        (
            b"op 1 client 0 read k issued 7 answered 11 -\norder k 2\nat 1\nat 0\ndone\n",
            b"no late 1 0\n",
        ),
        (
            b"op 1 client 0 read k issued 7 answered 11 -\norder k 1\nat 1\ndone\n",
            b"no missing 0\n",
        ),
        (
            b"op 1 client 0 read k issued 7 answered 11 =x\norder k 2\nat 0\nat 7\ndone\n",
            b"no strange 7\n",
        ),
        (
            b"op 1 client 0 read k issued 7 open\norder k 2\nat 0\nat 1\ndone\n",
            b"no strange 1\n",
        ),
        (
            b"op 1 client 0 read j issued 7 open\norder k 2\nat 0\nat 1\norder j 0\ndone\n",
            b"no strange 1\n",
        ),
        (
            b"op 1 client 0 read k issued 7 answered 11 =x\norder k 3\nat 0\nat 1\nat 1\ndone\n",
            b"no twice 1\n",
        ),
    ];
    for (tail, verdict) in cases {
        assert!(rt; is_judged(rt.alloc(), tail, verdict)?);
    }
    Ok(())
}

#[test]
fn other_words_are_no_command(rt: HostRuntime) -> Result<(), Fail> {
    assert_eq!(rt; answer_to(rt.alloc(), &[])?, Some(Status::Usage));
    assert_eq!(rt; answer_to(rt.alloc(), &["play"])?, Some(Status::Usage));
    assert_eq!(rt; answer_to(rt.alloc(), &["--help"])?, Some(Status::Usage));
    assert_eq!(rt;
        answer_to(rt.alloc(), &["replay", "x"])?,
        Some(Status::Usage)
    );
    let words: &[&str] = &["switch", "7000", "0:1:1:1:1:1", "0", "2"];
    assert_eq!(rt; answer_to(rt.alloc(), words)?, Some(Status::Usage));
    assert_eq!(rt; answer_to(rt.alloc(), &["replay"])?, None);
    Ok(())
}

#[test]
fn each_status_has_its_code_and_text(rt: HostRuntime) -> Result<(), Fail> {
    let rows = [
        (Status::Done, 0, ""),
        (Status::OutOfMemory, 1, "peg: out of memory"),
        (Status::Usage, 2, "peg: usage"),
        (Status::ReadFault, 3, "peg: read fault"),
        (Status::WriteFault, 4, "peg: write fault"),
        (Status::WireFault, 5, "peg: network fault"),
        (
            Status::BadInput { line: 2 },
            6,
            "peg: line 2 is not accepted",
        ),
        (
            Status::TooMuch { line: 3 },
            7,
            "peg: line 3 is past the limit",
        ),
    ];
    for (status, code, text) in rows {
        assert_eq!(rt; status.code(), code);
        assert_eq!(rt; status.to_string(rt.alloc())?.as_str(), text);
    }
    Ok(())
}

// Steps an event, and says whether it came.
fn comes(world: &mut World, place: u64, event: &Event<'_>) -> bool
    requires in_rack { EventInRack world.old.world.rack event.now }
    requires later { world.old.world.place < place }
{
    world.step(place, event).is_ok()
}

#[test]
fn a_packet_in_flight_is_shown(rt: HostRuntime) -> Result<(), Fail> {
    let config = Config::make(1, 1, 1, 1, 1, 1, 1)?;
    let keys: [Key; 0] = [];
    let mut world = World::make(rt.alloc(), &config, &keys)?;
    let (client, key) = (ClientId(0), Key::read(b"k")?);
    let event = Event::Read { client, key };
    assert!(rt; comes(&mut world, 2, &event));
    let soup = world.soup();
    assert!(rt; soup.len() == 1);
    let (to, bytes) = soup.get(0);
    assert_eq!(rt; to, Node::Switch(SwitchId(0)));
    let read = b"PG\x01\x01\0\0\0\0\0\0\0\0\0\x01\0\0\0\0\0\0\0\0\0\0\x01k";
    assert_eq!(rt; bytes, read.as_slice());
    Ok(())
}
