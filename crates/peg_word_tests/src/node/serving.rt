use peg_io::{MemorySink, MemoryWire, Scripted};
use peg_name::{Config, ServerId, SwitchId};
use peg_node::{serve_balanced, serve_server, serve_switch};
use peg_session::End;
use std::alloc::Global;
use std::test::Fail;

// A read of the key k by client 0 with sequence number 1, as the client sends it and as switch 0
// sends it on to server 0.
const READ: &[u8] = b"PG\x01\x01\0\0\0\0\0\0\0\0\0\x01\0\0\0\0\0\0\0\0\0\0\x01k";

const READ_AT_SERVER: &[u8] = b"PG\x01\x03\0\0\0\0\0\0\0\0\0\x01\0\0\0\0\0\0\0\0\0\0\x01k";

#[test]
fn turns_are_served(rt: HostRuntime) -> Result<(), Fail> {
    let alloc: Global = rt.alloc();
    let config = Config::make(1, 1, 1, 1, 1, 1, 1)?;
    let mut script = Vec::new(alloc);
    script.push(Scripted::Pause)?;
    script.push(Scripted::Datagram(Vec::from_slice(alloc, b"\0")?))?;
    script.push(Scripted::Datagram(Vec::from_slice(alloc, READ_AT_SERVER)?))?;
    let mut wire = MemoryWire::make(alloc, script, Vec::new(alloc));
    let mut sink = MemorySink::make(alloc, 4096, Vec::new(alloc));
    let end = serve_server(alloc, &config, ServerId(0), 7000, 3, &mut sink, &mut wire);
    assert_eq!(rt; end, End::Done);
    assert!(rt; sink.written() == b"datagrams 2\n".as_slice());
    assert_eq!(rt; wire.port(0), Some(7008));
    assert_eq!(rt; wire.port(1), None);
    // Nothing is held of it: its version is 0, and its content is absent.
    let reply = b"PG\x01\x05\0\0\0\0\0\0\0\0\0\x01\0\0\0\0\0\0\0\0\0\0\x01k\0".as_slice();
    assert_eq!(rt; wire.sent(0), Some((3, 0, 7001, reply)));
    assert!(rt; wire.sent(1).is_none());
    Ok(())
}

#[test]
fn a_switch_sends_a_read_on(rt: HostRuntime) -> Result<(), Fail> {
    let alloc: Global = rt.alloc();
    let config = Config::make(1, 1, 1, 1, 1, 1, 1)?;
    let mut script = Vec::new(alloc);
    script.push(Scripted::Datagram(Vec::from_slice(alloc, READ)?))?;
    let mut wire = MemoryWire::make(alloc, script, Vec::new(alloc));
    let mut sink = MemorySink::make(alloc, 4096, Vec::new(alloc));
    let end = serve_switch(alloc, &config, SwitchId(0), 7000, 1, &mut sink, &mut wire);
    assert_eq!(rt; end, End::Done);
    assert!(rt; sink.written() == b"datagrams 1\n".as_slice());
    assert_eq!(rt; wire.port(0), Some(7001));
    assert_eq!(rt; wire.sent(0), Some((1, 0, 7008, READ_AT_SERVER)));
    Ok(())
}

#[test]
fn a_wire_that_fails_ends_it(rt: HostRuntime) -> Result<(), Fail> {
    let alloc: Global = rt.alloc();
    let config = Config::make(1, 1, 1, 1, 1, 1, 1)?;
    for failing in 0..3 {
        let mut script = Vec::new(alloc);
        for _ in 0..failing {
            script.push(Scripted::Datagram(Vec::from_slice(alloc, READ_AT_SERVER)?))?;
        }
        script.push(Scripted::Fail)?;
        let mut wire = MemoryWire::make(alloc, script, Vec::new(alloc));
        let mut sink = MemorySink::make(alloc, 4096, Vec::new(alloc));
        let end = serve_server(alloc, &config, ServerId(0), 7000, 3, &mut sink, &mut wire);
        assert_eq!(rt; end, End::WireFault);
        assert!(rt; sink.written().is_empty());
        for sent in 0..3 {
            assert_eq!(rt;
                wire.sent(sent).is_some(),
                sent < failing,
                "{sent} of {failing}"
            );
        }
    }
    Ok(())
}

// A write of the key k by client 0 with sequence number 1, as the client sends it and as switch 0
// sends it on to server 0.
const WRITE: &[u8] = b"PG\x01\x02\0\0\0\0\0\0\0\0\0\x01\0\0\0\0\0\0\0\0\0\0\x01k\x01\0\x01x";

const WRITE_AT_SERVER: &[u8] =
    b"PG\x01\x04\0\0\0\0\0\0\0\0\0\x01\0\0\0\0\0\0\0\x01\0\0\x01k\x01\0\x01x";

#[test]
fn a_balanced_switch_sends_a_write_on(rt: HostRuntime) -> Result<(), Fail> {
    let alloc: Global = rt.alloc();
    let config = Config::make(1, 1, 1, 1, 1, 1, 1)?;
    let mut script = Vec::new(alloc);
    script.push(Scripted::Datagram(Vec::from_slice(alloc, WRITE)?))?;
    script.push(Scripted::Pause)?;
    let mut wire = MemoryWire::make(alloc, script, Vec::new(alloc));
    let mut sink = MemorySink::make(alloc, 4096, Vec::new(alloc));
    let (id, weights) = (SwitchId(0), [1]);
    let end = serve_balanced(alloc, &config, id, 7000, 2, &weights, &mut sink, &mut wire);
    assert_eq!(rt; end, End::Done);
    assert!(rt; sink.written() == b"datagrams 1\n".as_slice());
    assert_eq!(rt; wire.port(0), Some(7001));
    assert_eq!(rt; wire.port(1), None);
    assert_eq!(rt; wire.sent(0), Some((1, 0, 7008, WRITE_AT_SERVER)));
    assert!(rt; wire.sent(1).is_none());
    Ok(())
}

// The key k, which is at home at server 2, is listed first: then its writes go to the lightest
// server, and its reads to those that hold it.
#[test]
fn a_balanced_switch_spreads_writes(rt: HostRuntime) -> Result<(), Fail> {
    let alloc: Global = rt.alloc();
    let config = Config::make(1, 3, 1, 1, 1, 1, 1)?;
    let datagrams: [&[u8]; 4] = [
        b"PG\x01\x07\0\0\0\0\0\0\0\x01\x01\x01k",
        WRITE,
        b"PG\x01\x02\0\0\0\0\0\0\0\0\0\x02\0\0\0\0\0\0\0\0\0\0\x01k\x01\0\x01x",
        b"PG\x01\x01\0\0\0\0\0\0\0\0\0\x03\0\0\0\0\0\0\0\0\0\0\x01k",
    ];
    let sent: [(u16, &[u8]); 4] = [
        (7000, b"PG\x01\x08\0\0\0\0\0\0\0\x01\x01\0\0\0\0\0\0\0\x01"),
        (
            7008,
            b"PG\x01\x04\0\0\0\0\0\0\0\0\0\x01\0\0\0\0\0\0\0\x02\0\0\x01k\x01\0\x01x",
        ),
        (
            7009,
            b"PG\x01\x04\0\0\0\0\0\0\0\0\0\x02\0\0\0\0\0\0\0\x03\x01\0\x01k\x01\0\x01x",
        ),
        (
            7010,
            b"PG\x01\x03\0\0\0\0\0\0\0\0\0\x03\0\0\0\0\0\0\0\0\x02\0\x01k",
        ),
    ];
    let mut script = Vec::new(alloc);
    for bytes in datagrams {
        script.push(Scripted::Datagram(Vec::from_slice(alloc, bytes)?))?;
    }
    let mut wire = MemoryWire::make(alloc, script, Vec::new(alloc));
    let mut sink = MemorySink::make(alloc, 4096, Vec::new(alloc));
    let (id, weights) = (SwitchId(0), [1, 1, 1]);
    let end = serve_balanced(alloc, &config, id, 7000, 4, &weights, &mut sink, &mut wire);
    assert_eq!(rt; end, End::Done);
    for i in 0..4 {
        let (port, bytes) = sent[i];
        assert_eq!(rt; wire.sent(i), Some((i as u64 + 1, 0, port, bytes)), "{i}");
    }
    Ok(())
}
