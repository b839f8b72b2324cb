use peg_io::{MemorySink, MemorySource, MemoryWire, Scripted};
use peg_rack::serve_rack;
use peg_session::End;
use std::alloc::{AllocError, Global};
use std::test::Fail;

const RACK: &[u8] = b"rack servers=1 clients=1 switches=1 listed=1 hot=1 first=1\n";

// Client 0's write of x to the key k, its first operation: as it asks, and as the switch stamps it.
const WRITE: &[u8] = b"PG\x01\x02\0\0\0\0\0\0\0\0\0\x01\0\0\0\0\0\0\0\0\0\0\x01k\x01\0\x01x";

const STAMPED: &[u8] = b"PG\x01\x04\0\0\0\0\0\0\0\0\0\x01\0\0\0\0\0\0\0\x01\0\0\x01k\x01\0\x01x";

// A run on a wire that gives these datagrams, one at each receive.
struct Row<'a> {
    lines: &'a [u8],
    heard: &'a [&'a [u8]],
    output: &'a [u8],
    end: End,
    sent: &'a [(u32, u16, &'a [u8])],
}

const ROWS: [Row<'static>; 4] = [
    // One is the request of the client, and another is foreign.
    Row {
        lines: b"write 0 k =x\ntake switch 0\ntake switch 0\nend\n",
        heard: &[WRITE, b"\0"],
        output: b"1 rack
2 write 0 seq 1 sends 0
3 switch 0 forwards write k version 1 to server 0 sends 1
4 foreign switch 0
5 end foreign 1
history 1
op 0 client 0 write k =x issued 2 open
order k 0
done
",
        end: End::Done,
        sent: &[(3, 7001, WRITE), (1, 7008, STAMPED)],
    },
    // The same bytes are no packet to the server.
    Row {
        lines: b"write 0 k =x\ntake server 0\nend\n",
        heard: &[WRITE],
        output: b"1 rack
2 write 0 seq 1 sends 0
3 foreign server 0
4 end foreign 1
history 1
op 0 client 0 write k =x issued 2 open
order k 0
done
",
        end: End::Done,
        sent: &[(3, 7001, WRITE)],
    },
    // Nothing comes, and then a line is refused.
    Row {
        lines: b"round\ntake controller 7\ndeliver 0\n",
        heard: &[],
        output: b"1 rack\n",
        end: End::BadInput { line: 4 },
        sent: &[],
    },
    // A round takes from the controller first, and then from the switch.
    Row {
        lines: b"write 0 k =x\nround\n",
        heard: &[b"", WRITE],
        output: b"1 rack
2 write 0 seq 1 sends 0
3 foreign controller
4 switch 0 forwards write k version 1 to server 0 sends 1
",
        end: End::BadInput { line: 4 },
        sent: &[(3, 7001, WRITE), (1, 7008, STAMPED)],
    },
];

fn script_of(alloc: Global, heard: &[&[u8]]) -> Result<Vec<Scripted>, AllocError> {
    let mut script = Vec::new(alloc);
    for bytes in heard {
        script.push(Scripted::Datagram(Vec::from_slice(alloc, bytes)?))?;
    }
    Ok(script)
}

fn input_of(alloc: Global, lines: &[u8]) -> Result<MemorySource, AllocError> {
    let mut input = Vec::from_slice(alloc, RACK)?;
    input.extend_from_slice(lines)?;
    Ok(MemorySource::make(input, 4096, Vec::new(alloc)))
}

// Whether exactly these datagrams were sent, each from its slot to its port.
fn has_sent(wire: &MemoryWire, sent: &[(u32, u16, &[u8])]) -> bool {
    for (i, (from, port, bytes)) in sent.iter().enumerate() {
        match wire.sent(i) {
            Some((_, slot, to, given)) => {
                if slot != *from || to != *port || given != *bytes {
                    return false;
                }
            }
            None => return false,
        }
    }
    wire.sent(sent.len()).is_none()
}

fn is_run(alloc: Global, row: &Row<'_>) -> Result<bool, AllocError> {
    let mut source = input_of(alloc, row.lines)?;
    let mut sink = MemorySink::make(alloc, 4096, Vec::new(alloc));
    let mut wire = MemoryWire::make(alloc, script_of(alloc, row.heard)?, Vec::new(alloc));
    let end = serve_rack(alloc, 7000, &mut source, &mut sink, &mut wire);
    let is_bound = wire.port(0) == Some(7000)
        && wire.port(1) == Some(7001)
        && wire.port(2) == Some(7008)
        && wire.port(3) == Some(7128)
        && wire.port(4).is_none();
    Ok(
        end == row.end
            && sink.tells()
            && sink.written() == row.output
            && is_bound
            && has_sent(&wire, row.sent),
    )
}

#[test]
fn racks_are_run(rt: HostRuntime) -> Result<(), Fail> {
    for (i, row) in ROWS.iter().enumerate() {
        assert!(rt; is_run(rt.alloc(), row)?, "row {i}");
    }
    Ok(())
}
