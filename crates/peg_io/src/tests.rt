use crate::*;
use std::io;
use std::test::Fail;

fn read_once<S: Source>(source: &mut S, buf: &mut [u8; 4]) -> Got {
    source.read(buf)
}

#[test]
fn source_gives_in_steps(rt: HostRuntime) -> Result<(), Fail> {
    let bytes = Vec::from_slice(rt.alloc(), b"abcde")?;
    let fails = Vec::from_slice(rt.alloc(), &[2])?;
    let mut source = MemorySource::make(bytes, 2, fails);
    let wants = [
        (Got::Bytes(2), b"ab"),
        (Got::Failed, b"ab"),
        (Got::Bytes(2), b"cd"),
        (Got::Bytes(1), b"ed"),
        (Got::End, b"ed"),
    ];
    let mut buf = [0; 4];
    for (want, front) in wants {
        assert_eq!(rt; read_once(&mut source, &mut buf), want);
        assert_eq!(rt; buf[..2], front[..]);
    }
    Ok(())
}

#[test]
fn sink_tells_with_ample_memory(rt: HostRuntime) -> Result<(), Fail> {
    let fails = Vec::from_slice(rt.alloc(), &[4])?;
    let mut sink = MemorySink::make(rt.alloc(), 3, fails);
    assert!(rt; write_all(&mut sink, b"seven b"));
    assert!(rt; !write_all(&mut sink, b"no"));
    assert!(rt; write_all(&mut sink, b"ytes"));
    assert_eq!(rt; sink.written(), b"seven bytes".as_slice());
    assert!(rt; sink.tells());
    Ok(())
}

#[test]
fn wire_hears_its_script(rt: HostRuntime) -> Result<(), Fail> {
    let mut script = Vec::new(rt.alloc());
    script.push(Scripted::Datagram(Vec::from_slice(rt.alloc(), b"hello")?))?;
    script.push(Scripted::Fail)?;
    script.push(Scripted::Pause)?;
    script.push(Scripted::Datagram(Vec::from_slice(rt.alloc(), b"x")?))?;
    let fails = Vec::from_slice(rt.alloc(), &[2])?;
    let mut wire = MemoryWire::make(rt.alloc(), script, fails);
    assert_eq!(rt; wire.bind(4000), Some(0));
    assert_eq!(rt; wire.bind(4001), Some(1));
    let wants = [
        (Heard::Bytes(4), b"hell"),
        (Heard::Failed, b"hell"),
        (Heard::Nothing, b"hell"),
        (Heard::Bytes(1), b"xell"),
        (Heard::Nothing, b"xell"),
    ];
    let mut buf = [0; 4];
    for (want, front) in wants {
        assert_eq!(rt; wire.receive(1, &mut buf), want);
        assert_eq!(rt; buf, *front);
    }
    assert!(rt; wire.send(0, 5000, b"one"));
    assert!(rt; !wire.send(1, 5001, b"two"));
    assert_eq!(rt; wire.port(1), Some(4001));
    assert_eq!(rt; wire.port(2), None);
    assert_eq!(rt; wire.sent(1), Some((4, 1, 5001, b"two".as_slice())));
    assert!(rt; wire.sent(2).is_none());
    assert!(rt; wire.tells());
    Ok(())
}

#[test]
fn lines_of_a_source(rt: HostRuntime) -> Result<(), Fail> {
    let bytes = Vec::from_slice(rt.alloc(), b"ab\n\nlast")?;
    let fails = Vec::from_slice(rt.alloc(), &[2])?;
    let mut source = MemorySource::make(bytes, 3, fails);
    let mut lines = Lines::make();
    assert_eq!(rt; lines.next(4, &mut source), NextLine::Line);
    assert_eq!(rt; lines.line(), b"ab".as_slice());
    assert!(rt; !lines.holds_line());
    assert_eq!(rt; lines.next(4, &mut source), NextLine::Failed);
    assert_eq!(rt; lines.next(4, &mut source), NextLine::Line);
    assert_eq!(rt; lines.line(), b"".as_slice());
    assert_eq!(rt; lines.next(4, &mut source), NextLine::Line);
    assert_eq!(rt; lines.line(), b"last".as_slice());
    assert_eq!(rt; lines.next(4, &mut source), NextLine::End);
    Ok(())
}

// The source would fail if it was asked once more.
#[test]
fn end_after_a_line_without_its_feed(rt: HostRuntime) -> Result<(), Fail> {
    let bytes = Vec::from_slice(rt.alloc(), b"last")?;
    let fails = Vec::from_slice(rt.alloc(), &[3])?;
    let mut source = MemorySource::make(bytes, 9, fails);
    let mut lines = Lines::make();
    assert_eq!(rt; lines.next(4, &mut source), NextLine::Line);
    assert_eq!(rt; lines.line(), b"last".as_slice());
    assert_eq!(rt; lines.next(4, &mut source), NextLine::End);
    assert_eq!(rt; lines.next(4, &mut source), NextLine::End);
    Ok(())
}

#[test]
fn a_line_too_long(rt: HostRuntime) -> Result<(), Fail> {
    for (limit, want) in [(3, NextLine::TooLong), (4, NextLine::Line)] {
        let bytes = Vec::from_slice(rt.alloc(), b"four\n")?;
        let mut source = MemorySource::make(bytes, 9, Vec::new(rt.alloc()));
        assert_eq!(rt; Lines::make().next(limit, &mut source), want, "at {limit}");
    }
    Ok(())
}

#[test]
fn reader_is_a_source(rt: HostRuntime) -> Result<(), Fail> {
    let mut source = StdSource::make(b"abc".as_slice());
    let mut lines = Lines::make();
    assert_eq!(rt; lines.next(9, &mut source), NextLine::Line);
    assert_eq!(rt; lines.line(), b"abc".as_slice());
    assert_eq!(rt; lines.next(9, &mut source), NextLine::End);
    Ok(())
}

#[test]
fn writer_is_a_sink(rt: HostRuntime) -> Result<(), Fail> {
    let mut room = [0; 4];
    let mut sink = StdSink::make(io::Cursor::new(room.as_mut_slice()));
    assert!(rt; write_all(&mut sink, b"abcd"));
    assert_eq!(rt; sink.write(b"e"), Took::Failed);
    assert_eq!(rt; room, *b"abcd");
    Ok(())
}

#[test]
fn no_wire_binds_nothing(rt: HostRuntime) {
    let mut wire = NoWire::make();
    assert_eq!(rt; wire.bind(4000), None);
    assert_eq!(rt; wire.bind(4000), None);
}
