use super::*;
use peg_io::{MemoryWire, Scripted, UdpWire};

const RACK: &[u8] = b"rack servers=1 clients=1 switches=1 listed=1 hot=1 first=1\n";

// Client 0's write of x to the key k, its first operation: as it asks, and as the switch stamps it.
const WRITE: &[u8] = b"PG\x01\x02\0\0\0\0\0\0\0\0\0\x01\0\0\0\0\0\0\0\0\0\0\x01k\x01\0\x01x";

const STAMPED: &[u8] = b"PG\x01\x04\0\0\0\0\0\0\0\0\0\x01\0\0\0\0\0\0\0\x01\0\0\x01k\x01\0\x01x";

const ONE_FOREIGN: &[u8] = b"1 rack
2 write 0 seq 1 sends 0
3 switch 0 forwards write k version 1 to server 0 sends 1
4 foreign switch 0
5 end foreign 1
history 1
op 0 client 0 write k =x issued 2 open
order k 0
done
";

// One datagram is the request of the client, and another was sent by no node.
#[test]
fn a_foreign_datagram_changes_nothing(rt: HostRuntime) -> Result<(), Fail> {
    let alloc = rt.alloc();
    let words = words_of(alloc, &["rack", "7000"])?;
    let mut input = Vec::from_slice(alloc, RACK)?;
    input.extend_from_slice(b"write 0 k =x\ntake switch 0\ntake switch 0\nend\n")?;
    let mut source = source_of(alloc, &input, 16, 0)?;
    let mut sink = sink_of(alloc, 4096, 0)?;
    let mut script = Vec::new(alloc);
    script.push(Scripted::Datagram(Vec::from_slice(alloc, WRITE)?))?;
    script.push(Scripted::Datagram(Vec::from_slice(alloc, b"\0")?))?;
    let mut wire = MemoryWire::make(alloc, script, Vec::new(alloc));
    let status = run(alloc, &words, &mut source, &mut sink, &mut wire);
    assert_eq!(rt; status, Status::Done);
    assert!(rt; sink.tells() && sink.written() == ONE_FOREIGN);
    let sent = [wire.sent(0), wire.sent(1), wire.sent(2)];
    assert!(rt; is_sent(sent[0], 3, 7001, WRITE));
    assert!(rt; is_sent(sent[1], 1, 7008, STAMPED));
    assert!(rt; sent[2].is_none());
    Ok(())
}

// Whether a datagram was sent from that slot to that port.
fn is_sent(sent: Option<(u64, u32, u16, &[u8])>, slot: u32, port: u16, bytes: &[u8]) -> bool {
    match sent {
        Some((_, from, to, given)) => from == slot && to == port && given == bytes,
        None => false,
    }
}

// A write and a read, each with rounds enough for its packets to go over real sockets.
fn full_rounds(alloc: Global) -> Result<Vec<u8>, AllocError> {
    let mut input = Vec::from_slice(alloc, RACK)?;
    for operation in [b"write 0 k =x\n".as_slice(), b"read 0 k\n"] {
        input.extend_from_slice(operation)?;
        for _ in 0..8 {
            input.extend_from_slice(b"round\n")?;
        }
    }
    input.extend_from_slice(b"end\n")?;
    Ok(input)
}

#[test]
fn a_rack_is_run_over_sockets(rt: HostRuntime) -> Result<(), Fail> {
    let alloc = rt.alloc();
    let words = words_of(alloc, &["rack", "41000"])?;
    let input = full_rounds(alloc)?;
    let mut source = source_of(alloc, &input, 4096, 0)?;
    let mut sink = sink_of(alloc, 4096, 0)?;
    let mut wire = UdpWire::make(alloc, &rt)?;
    let status = run(alloc, &words, &mut source, &mut sink, &mut wire);
    assert_eq!(rt; status, Status::Done);
    assert!(rt; sink.tells());
    let written = sink.written();
    assert!(rt; written.starts_with(b"1 rack\n2 write 0 seq 1 sends 0\n"));
    assert!(rt; written.ends_with(b"order k 2\nat 0\nat 1\ndone\n"));
    Ok(())
}
