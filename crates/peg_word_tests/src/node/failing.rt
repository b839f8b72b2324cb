// Sources, sinks and wires that fail.
use peg_io::{MemorySink, MemorySource, MemoryWire, Scripted};
use peg_name::{ClientId, Config, Seq};
use peg_node::{ask, serve_controller};
use peg_session::End;
use std::alloc::Global;
use std::test::Fail;

// A receive that fails ends it, with what was sent and written before.
#[test]
fn a_failed_receive_ends_a_client(rt: HostRuntime) -> Result<(), Fail> {
    let alloc: Global = rt.alloc();
    let config = Config::make(1, 1, 1, 1, 1, 1, 1)?;
    for failing in 0..4 {
        let mut script = Vec::new(alloc);
        for _ in 0..failing {
            script.push(Scripted::Pause)?;
        }
        script.push(Scripted::Fail)?;
        let input = Vec::from_slice(alloc, b"read k\nread k\n")?;
        let mut source = MemorySource::make(input, 4096, Vec::new(alloc));
        let mut sink = MemorySink::make(alloc, 4096, Vec::new(alloc));
        let mut wire = MemoryWire::make(alloc, script, Vec::new(alloc));
        let (client, first) = (ClientId(0), Seq(1));
        let end = ask(
            alloc,
            &config,
            7000,
            client,
            first,
            2,
            1,
            &mut source,
            &mut sink,
            &mut wire,
        );
        assert_eq!(rt; end, End::WireFault);
        let text = if failing < 2 {
            b"".as_slice()
        } else {
            b"unanswered 1\n".as_slice()
        };
        assert!(rt; sink.written() == text);
        assert!(rt; wire.sent(failing).is_some());
        assert!(rt; wire.sent(failing + 1).is_none());
    }
    Ok(())
}

// A send that fails loses that datagram alone.
#[test]
fn a_failed_send_is_passed_over(rt: HostRuntime) -> Result<(), Fail> {
    let alloc: Global = rt.alloc();
    let config = Config::make(1, 1, 1, 1, 1, 1, 1)?;
    for failing in 1..4 {
        let mut fails = Vec::new(alloc);
        fails.push(failing)?;
        let input = Vec::from_slice(alloc, b"clear\nretry\n")?;
        let mut source = MemorySource::make(input, 4096, Vec::new(alloc));
        let mut sink = MemorySink::make(alloc, 4096, Vec::new(alloc));
        let mut wire = MemoryWire::make(alloc, Vec::new(alloc), fails);
        let end = serve_controller(
            alloc,
            &config,
            7000,
            2,
            1,
            &mut source,
            &mut sink,
            &mut wire,
        );
        assert_eq!(rt; end, End::Done);
        let text = b"controller orders 1 clear
controller retries 1
controller unanswered 1
controller retries 1
controller retries 1
controller unanswered 1
"
            .as_slice();
        assert!(rt; sink.written() == text);
        let clear = b"PG\x01\x07\0\0\0\0\0\0\0\x01\x05".as_slice();
        for sent in 0..4 {
            assert_eq!(rt; wire.sent(sent), Some((sent as u64, 0, 7001, clear)));
        }
        assert!(rt; wire.sent(4).is_none());
    }
    Ok(())
}

// A source and a sink that fail in the middle.
#[test]
fn a_failed_read_or_write_ends_a_client(rt: HostRuntime) -> Result<(), Fail> {
    let alloc: Global = rt.alloc();
    let config = Config::make(1, 1, 1, 1, 1, 1, 1)?;
    for reads in 0..2 {
        // Only the call of that number fails, and none for 0.
        let (read, write) = if reads == 0 { (2, 0) } else { (0, 2) };
        let input = Vec::from_slice(alloc, b"read k\nread k\n")?;
        let mut source = MemorySource::make(input, 8, Vec::from_slice(alloc, &[read])?);
        let mut sink = MemorySink::make(alloc, 8, Vec::from_slice(alloc, &[write])?);
        let mut wire = MemoryWire::make(alloc, Vec::new(alloc), Vec::new(alloc));
        let (client, first) = (ClientId(0), Seq(1));
        let end = ask(
            alloc,
            &config,
            7000,
            client,
            first,
            1,
            1,
            &mut source,
            &mut sink,
            &mut wire,
        );
        if reads == 0 {
            assert_eq!(rt; end, End::ReadFault);
            assert!(rt; sink.written() == b"unanswered 1\n".as_slice());
        } else {
            assert_eq!(rt; end, End::WriteFault);
            assert!(rt; sink.written() == b"unanswer".as_slice());
        }
        assert!(rt; wire.sent(0).is_some());
        assert!(rt; wire.sent(1).is_none());
    }
    Ok(())
}
