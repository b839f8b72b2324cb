// A client that asks.
use peg_io::{MemorySink, MemorySource, MemoryWire, Scripted};
use peg_name::{ClientId, Config, Seq};
use peg_node::ask;
use peg_session::End;
use std::alloc::Global;
use std::test::Fail;

// Client 0's write of x to the key k, its first operation, and the answer at version 1.
const WRITE: &[u8] = b"PG\x01\x02\0\0\0\0\0\0\0\0\0\x01\0\0\0\0\0\0\0\0\0\0\x01k\x01\0\x01x";

const WROTE: &[u8] = b"PG\x01\x06\0\0\0\0\0\0\0\0\0\x01\0\0\0\0\0\0\0\x01\0\0\x01k";

// Its read of that key, the second operation, and the answer.
const READ: &[u8] = b"PG\x01\x01\0\0\0\0\0\0\0\0\0\x02\0\0\0\0\0\0\0\0\0\0\x01k";

const GOT: &[u8] = b"PG\x01\x05\0\0\0\0\0\0\0\0\0\x02\0\0\0\0\0\0\0\x01\0\0\x01k\x01\0\x01x";

#[test]
fn a_write_is_answered_and_a_read_is_not(rt: HostRuntime) -> Result<(), Fail> {
    let alloc: Global = rt.alloc();
    let config = Config::make(1, 1, 1, 1, 1, 1, 1)?;
    let mut script = Vec::new(alloc);
    script.push(Scripted::Datagram(Vec::from_slice(alloc, WROTE)?))?;
    let input = Vec::from_slice(alloc, b"write k =x\nread k\n")?;
    let mut source = MemorySource::make(input, 4096, Vec::new(alloc));
    let mut sink = MemorySink::make(alloc, 4096, Vec::new(alloc));
    let mut wire = MemoryWire::make(alloc, script, Vec::new(alloc));
    let (client, first) = (ClientId(0), Seq(1));
    let end = ask(
        alloc,
        &config,
        7000,
        client,
        first,
        2,
        1,
        &mut source,
        &mut sink,
        &mut wire,
    );
    assert_eq!(rt; end, End::Done);
    assert!(rt; sink.written() == b"answered 1 version 1\nunanswered 2\n".as_slice());
    assert_eq!(rt; wire.port(0), Some(7128));
    assert_eq!(rt; wire.port(1), None);
    assert_eq!(rt; wire.sent(0), Some((0, 0, 7001, WRITE)));
    assert_eq!(rt; wire.sent(1), Some((1, 0, 7001, READ)));
    assert_eq!(rt; wire.sent(2), Some((2, 0, 7001, READ)));
    assert!(rt; wire.sent(3).is_none());
    Ok(())
}

// The answer of an earlier operation is passed over, and what was read is written.
#[test]
fn a_read_is_answered(rt: HostRuntime) -> Result<(), Fail> {
    let alloc: Global = rt.alloc();
    let config = Config::make(1, 1, 1, 1, 1, 1, 1)?;
    let mut script = Vec::new(alloc);
    script.push(Scripted::Datagram(Vec::from_slice(alloc, WROTE)?))?;
    script.push(Scripted::Datagram(Vec::from_slice(alloc, GOT)?))?;
    let input = Vec::from_slice(alloc, b"read k")?;
    let mut source = MemorySource::make(input, 1, Vec::new(alloc));
    let mut sink = MemorySink::make(alloc, 1, Vec::new(alloc));
    let mut wire = MemoryWire::make(alloc, script, Vec::new(alloc));
    let (client, first) = (ClientId(0), Seq(2));
    let end = ask(
        alloc,
        &config,
        7000,
        client,
        first,
        1,
        2,
        &mut source,
        &mut sink,
        &mut wire,
    );
    assert_eq!(rt; end, End::Done);
    assert!(rt; sink.written() == b"answered 2 version 1 =x\n".as_slice());
    assert_eq!(rt; wire.sent(0), Some((0, 0, 7001, READ)));
    assert!(rt; wire.sent(1).is_none());
    Ok(())
}

// Over pauses alone it sends as often as it may, two turns apart.
#[test]
fn it_tries_and_gives_up(rt: HostRuntime) -> Result<(), Fail> {
    let alloc: Global = rt.alloc();
    let config = Config::make(1, 1, 1, 1, 1, 1, 1)?;
    let input = Vec::from_slice(alloc, b"write k =x\n")?;
    let mut source = MemorySource::make(input, 4096, Vec::new(alloc));
    let mut sink = MemorySink::make(alloc, 4096, Vec::new(alloc));
    let mut wire = MemoryWire::make(alloc, Vec::new(alloc), Vec::new(alloc));
    let (client, first) = (ClientId(0), Seq(1));
    let end = ask(
        alloc,
        &config,
        7000,
        client,
        first,
        3,
        2,
        &mut source,
        &mut sink,
        &mut wire,
    );
    assert_eq!(rt; end, End::Done);
    assert!(rt; sink.written() == b"unanswered 1\n".as_slice());
    for tried in 0..3 {
        let turns = 2 * tried as u64;
        assert_eq!(rt; wire.sent(tried), Some((turns, 0, 7001, WRITE)));
    }
    assert!(rt; wire.sent(3).is_none());
    Ok(())
}

// With no turns to wait for, all sends are made at once; no number is left then.
#[test]
fn it_asks_without_waiting(rt: HostRuntime) -> Result<(), Fail> {
    let alloc: Global = rt.alloc();
    let config = Config::make(2, 1, 1, 1, 1, 1, 1)?;
    let input = Vec::from_slice(alloc, b"delete k\nread k\n")?;
    let mut source = MemorySource::make(input, 4096, Vec::new(alloc));
    let mut sink = MemorySink::make(alloc, 4096, Vec::new(alloc));
    let mut wire = MemoryWire::make(alloc, Vec::new(alloc), Vec::new(alloc));
    let (client, first) = (ClientId(0), Seq(u64::MAX - 1));
    let end = ask(
        alloc,
        &config,
        7000,
        client,
        first,
        2,
        0,
        &mut source,
        &mut sink,
        &mut wire,
    );
    assert_eq!(rt; end, End::Done);
    assert!(rt; sink.written() == b"unanswered 18446744073709551614\nspent\n".as_slice());
    let delete =
        b"PG\x02\x02\0\0\xff\xff\xff\xff\xff\xff\xff\xfe\0\0\0\0\0\0\0\0\0\0\x01k\0".as_slice();
    assert_eq!(rt; wire.sent(0), Some((0, 0, 7001, delete)));
    assert_eq!(rt; wire.sent(1), Some((0, 0, 7001, delete)));
    assert!(rt; wire.sent(2).is_none());
    Ok(())
}

// The second line is refused; the first one is carried out.
#[test]
fn lines_of_no_operation_are_refused(rt: HostRuntime) -> Result<(), Fail> {
    let alloc: Global = rt.alloc();
    let config = Config::make(1, 1, 1, 1, 1, 1, 1)?;
    let refused = [
        b"read 0 k".as_slice(),
        b"read".as_slice(),
        b"read ".as_slice(),
        b"write k x".as_slice(),
        b"delete k".as_slice(),
        b"resend".as_slice(),
        b"deliver 1".as_slice(),
        b"end".as_slice(),
        b"".as_slice(),
    ];
    for line in refused {
        let mut input = Vec::from_slice(alloc, b"read k\n")?;
        input.extend_from_slice(line)?;
        input.extend_from_slice(b"\nread k\n")?;
        let mut source = MemorySource::make(input, 4096, Vec::new(alloc));
        let mut sink = MemorySink::make(alloc, 4096, Vec::new(alloc));
        let mut wire = MemoryWire::make(alloc, Vec::new(alloc), Vec::new(alloc));
        let (client, first) = (ClientId(0), Seq(2));
        let end = ask(
            alloc,
            &config,
            7000,
            client,
            first,
            1,
            1,
            &mut source,
            &mut sink,
            &mut wire,
        );
        assert_eq!(rt; end, End::BadInput { line: 2 });
        assert!(rt; sink.written() == b"unanswered 2\n".as_slice());
        assert!(rt; wire.sent(1).is_none());
    }
    Ok(())
}
