use super::*;
use peg_io::{MemoryWire, Scripted};

// Client 0's write of x to the key k, its first operation: as it asks, as the switch stamps it, and
// its answer.
const WRITE: &[u8] = b"PG\x01\x02\0\0\0\0\0\0\0\0\0\x01\0\0\0\0\0\0\0\0\0\0\x01k\x01\0\x01x";

const STAMPED: &[u8] = b"PG\x01\x04\0\0\0\0\0\0\0\0\0\x01\0\0\0\0\0\0\0\x01\0\0\x01k\x01\0\x01x";

const WROTE: &[u8] = b"PG\x01\x06\0\0\0\0\0\0\0\0\0\x01\0\0\0\0\0\0\0\x01\0\0\x01k";

// Its read of that key, the second operation.
const READ: &[u8] = b"PG\x01\x01\0\0\0\0\0\0\0\0\0\x02\0\0\0\0\0\0\0\0\0\0\x01k";

const PROMOTE: &[u8] = b"PG\x01\x07\0\0\0\0\0\0\0\x01\x01\x01k";

const UNSETTLED: &[u8] = b"controller orders 1 promote k
controller retries 1
controller unanswered 1
controller busy 1
";

#[derive(Clone, Copy)]
struct Row<'a> {
    words: &'a [&'a str],
    input: &'a [u8],
    // What the wire gives first, where it gives something.
    heard: &'a [u8],
    output: &'a [u8],
    port: u16,
    sent: &'a [(u16, &'a [u8])],
}

fn wire_of(alloc: Global, heard: &[u8]) -> Result<MemoryWire, AllocError> {
    let mut script = Vec::new(alloc);
    if !heard.is_empty() {
        script.push(Scripted::Datagram(Vec::from_slice(alloc, heard)?))?;
    }
    Ok(MemoryWire::make(alloc, script, Vec::new(alloc)))
}

// Whether exactly these datagrams were sent, to these ports.
fn has_sent(wire: &MemoryWire, sent: &[(u16, &[u8])]) -> bool {
    for (i, (port, bytes)) in sent.iter().enumerate() {
        match wire.sent(i) {
            Some((_, slot, to, given)) => {
                if slot != 0 || to != *port || given != *bytes {
                    return false;
                }
            }
            None => return false,
        }
    }
    wire.sent(sent.len()).is_none()
}

// Whether the row is done as it says.
fn is_run(alloc: Global, row: &Row<'_>) -> Result<bool, AllocError> {
    let words = words_of(alloc, row.words)?;
    let mut source = source_of(alloc, row.input, 4096, 0)?;
    let mut sink = sink_of(alloc, 4096, 0)?;
    let mut wire = wire_of(alloc, row.heard)?;
    let status = run(alloc, &words, &mut source, &mut sink, &mut wire);
    let is_bound = wire.port(0) == Some(row.port) && wire.port(1).is_none();
    Ok(
        status == Status::Done
            && sink.tells()
            && sink.written() == row.output
            && is_bound
            && has_sent(&wire, row.sent),
    )
}

const ROWS: [Row<'static>; 5] = [
    Row {
        words: &["switch", "7000", "1:1:1:1:1:1", "0", "2"],
        input: b"",
        heard: WRITE,
        output: b"datagrams 1\n",
        port: 7001,
        sent: &[(7008, STAMPED)],
    },
    Row {
        words: &["balanced", "7000", "1:1:1:1:1:1", "0", "2", "1"],
        input: b"",
        heard: WRITE,
        output: b"datagrams 1\n",
        port: 7001,
        sent: &[(7008, STAMPED)],
    },
    Row {
        words: &["server", "7000", "1:1:1:1:1:1", "0", "1"],
        input: b"",
        heard: STAMPED,
        output: b"datagrams 1\n",
        port: 7008,
        sent: &[(7001, WROTE)],
    },
    Row {
        words: &["ask", "7000", "1:1:1:1:1:1", "0", "1", "2", "1"],
        input: b"write k =x\nread k\n",
        heard: WROTE,
        output: b"answered 1 version 1\nunanswered 2\n",
        port: 7128,
        sent: &[(7001, WRITE), (7001, READ), (7001, READ)],
    },
    Row {
        words: &["control", "7000", "1:1:1:1:1:1", "2", "1"],
        input: b"promote k\nhandover 1\n",
        heard: b"",
        output: UNSETTLED,
        port: 7000,
        sent: &[(7001, PROMOTE), (7001, PROMOTE)],
    },
];

#[test]
fn one_node_is_run(rt: HostRuntime) -> Result<(), Fail> {
    for (i, row) in ROWS.iter().enumerate() {
        assert!(rt; is_run(rt.alloc(), row)?, "row {i}");
    }
    Ok(())
}

// Nothing is read, written or sent.
#[test]
fn a_wire_that_fails_is_a_fault(rt: HostRuntime) -> Result<(), Fail> {
    let alloc = rt.alloc();
    let words = words_of(alloc, &["server", "7000", "1:1:1:1:1:1", "0", "1"])?;
    let mut source = source_of(alloc, b"x\n", 4096, 1)?;
    let mut sink = sink_of(alloc, 4096, 0)?;
    let mut script = Vec::new(alloc);
    script.push(Scripted::Fail)?;
    let mut wire = MemoryWire::make(alloc, script, Vec::new(alloc));
    let status = run(alloc, &words, &mut source, &mut sink, &mut wire);
    assert_eq!(rt; status, Status::WireFault);
    assert!(rt; sink.tells() && sink.written().is_empty());
    assert!(rt; wire.port(0) == Some(7008) && wire.sent(0).is_none());
    Ok(())
}
