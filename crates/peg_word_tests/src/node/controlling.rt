// The controller.
use peg_io::{MemorySink, MemorySource, MemoryWire, Scripted};
use peg_name::Config;
use peg_node::serve_controller;
use peg_session::End;
use std::alloc::Global;
use std::test::Fail;

// The first command, to list the key k.
const PROMOTE: &[u8] = b"PG\x01\x07\0\0\0\0\0\0\0\x01\x01\x01k";

#[test]
fn a_command_is_tried_and_the_next_is_refused(rt: HostRuntime) -> Result<(), Fail> {
    let alloc: Global = rt.alloc();
    let config = Config::make(1, 1, 1, 1, 1, 1, 1)?;
    let input = Vec::from_slice(alloc, b"promote k\nhandover 1\n")?;
    let mut source = MemorySource::make(input, 4096, Vec::new(alloc));
    let mut sink = MemorySink::make(alloc, 4096, Vec::new(alloc));
    let mut wire = MemoryWire::make(alloc, Vec::new(alloc), Vec::new(alloc));
    let end = serve_controller(
        alloc,
        &config,
        7000,
        2,
        1,
        &mut source,
        &mut sink,
        &mut wire,
    );
    assert_eq!(rt; end, End::Done);
    let text = b"controller orders 1 promote k
controller retries 1
controller unanswered 1
controller busy 1
"
        .as_slice();
    assert!(rt; sink.written() == text);
    assert_eq!(rt; wire.port(0), Some(7000));
    assert_eq!(rt; wire.port(1), None);
    assert_eq!(rt; wire.sent(0), Some((0, 0, 7001, PROMOTE)));
    assert_eq!(rt; wire.sent(1), Some((1, 0, 7001, PROMOTE)));
    assert!(rt; wire.sent(2).is_none());
    Ok(())
}

const SETTLED: &[u8] = b"controller orders 1 promote k
controller malformed
controller takes 1 listed 1
controller announces epoch 1
controller surveys
controller surveys
controller has report of 0 rows
controller plans 1 demote 0 promote
controller retries 2
controller unanswered 2
";

// A promotion is acknowledged behind bytes that are no packet; a retry then announces to each
// client, and is settled at once; a survey gets its report at its second send.
#[test]
fn lines_are_settled(rt: HostRuntime) -> Result<(), Fail> {
    let alloc: Global = rt.alloc();
    let config = Config::make(1, 1, 2, 1, 1, 1, 1)?;
    let mut script = Vec::new(alloc);
    script.push(Scripted::Datagram(Vec::from_slice(alloc, b"PG")?))?;
    let listed = b"PG\x01\x08\0\0\0\0\0\0\0\x01\x01\0\0\0\0\0\0\0\x01".as_slice();
    script.push(Scripted::Datagram(Vec::from_slice(alloc, listed)?))?;
    script.push(Scripted::Pause)?;
    script.push(Scripted::Pause)?;
    let report = b"PG\x01\x0f\0\0\0\0\0\0\0\x01\0\0\0\0\0\0\0\0\0".as_slice();
    script.push(Scripted::Datagram(Vec::from_slice(alloc, report)?))?;
    let input = Vec::from_slice(alloc, b"promote k\nretry\nsurvey\nplan 1 1")?;
    let mut source = MemorySource::make(input, 4096, Vec::new(alloc));
    let mut sink = MemorySink::make(alloc, 4096, Vec::new(alloc));
    let mut wire = MemoryWire::make(alloc, script, Vec::new(alloc));
    let end = serve_controller(
        alloc,
        &config,
        7000,
        2,
        2,
        &mut source,
        &mut sink,
        &mut wire,
    );
    assert_eq!(rt; end, End::Done);
    assert!(rt; sink.written() == SETTLED);
    let announce = b"PG\x01\x0d\0\0\0\0\0\0\0\x01\0".as_slice();
    let demote = b"PG\x01\x07\0\0\0\0\0\0\0\x02\x02\x01k".as_slice();
    let survey = b"PG\x01\x0e".as_slice();
    assert_eq!(rt; wire.sent(0), Some((0, 0, 7001, PROMOTE)));
    assert_eq!(rt; wire.sent(1), Some((2, 0, 7128, announce)));
    assert_eq!(rt; wire.sent(2), Some((2, 0, 7129, announce)));
    assert_eq!(rt; wire.sent(3), Some((2, 0, 7001, survey)));
    assert_eq!(rt; wire.sent(4), Some((4, 0, 7001, survey)));
    assert_eq!(rt; wire.sent(5), Some((5, 0, 7001, demote)));
    assert_eq!(rt; wire.sent(6), Some((7, 0, 7001, demote)));
    assert!(rt; wire.sent(7).is_none());
    Ok(())
}

// Refused lines are settled at once, and a survey that nothing answers says so.
#[test]
fn nothing_waits_where_nothing_is_to_come(rt: HostRuntime) -> Result<(), Fail> {
    let alloc: Global = rt.alloc();
    let config = Config::make(1, 1, 1, 1, 1, 1, 1)?;
    let input = Vec::from_slice(alloc, b"plan 0 0\nhandover 0\ncopy k 7\nsurvey\nfence k\n")?;
    let mut source = MemorySource::make(input, 4096, Vec::new(alloc));
    let mut sink = MemorySink::make(alloc, 4096, Vec::new(alloc));
    let mut wire = MemoryWire::make(alloc, Vec::new(alloc), Vec::new(alloc));
    let end = serve_controller(
        alloc,
        &config,
        7000,
        1,
        0,
        &mut source,
        &mut sink,
        &mut wire,
    );
    assert_eq!(rt; end, End::Done);
    let text = b"controller has no report
controller same switch 0
controller no such 7
controller surveys
controller unanswered survey
controller orders 1 fence k
controller unanswered 1
"
        .as_slice();
    assert!(rt; sink.written() == text);
    let fence = b"PG\x01\x07\0\0\0\0\0\0\0\x01\x06\x01k".as_slice();
    assert_eq!(rt; wire.sent(0), Some((0, 0, 7001, b"PG\x01\x0e".as_slice())));
    assert_eq!(rt; wire.sent(1), Some((0, 0, 7001, fence)));
    assert!(rt; wire.sent(2).is_none());
    Ok(())
}

#[test]
fn lines_of_no_call_are_refused(rt: HostRuntime) -> Result<(), Fail> {
    let alloc: Global = rt.alloc();
    let config = Config::make(1, 1, 1, 1, 1, 1, 1)?;
    let refused = [
        b"promote".as_slice(),
        b"read 0 k".as_slice(),
        b"deliver 0".as_slice(),
        b"copy k 256".as_slice(),
        b"end".as_slice(),
        b"".as_slice(),
    ];
    for line in refused {
        let mut input = Vec::from_slice(alloc, b"clear\n")?;
        input.extend_from_slice(line)?;
        let mut source = MemorySource::make(input, 4096, Vec::new(alloc));
        let mut sink = MemorySink::make(alloc, 4096, Vec::new(alloc));
        let mut wire = MemoryWire::make(alloc, Vec::new(alloc), Vec::new(alloc));
        let end = serve_controller(
            alloc,
            &config,
            7000,
            1,
            1,
            &mut source,
            &mut sink,
            &mut wire,
        );
        let is_empty = line.is_empty();
        // An empty line at the end of the input is none.
        if is_empty {
            assert_eq!(rt; end, End::Done);
        } else {
            assert_eq!(rt; end, End::BadInput { line: 2 });
        }
        let text = b"controller orders 1 clear\ncontroller unanswered 1\n".as_slice();
        assert!(rt; sink.written() == text);
    }
    Ok(())
}
