use super::*;

// What 20,000 events from the number 7 come to, by another program.
const OF_SEVEN: &[u8] =
    b"events 20000\npackets 8089\noperations 735\nanswered 215\nkeys 16\ncheck yes\n";

fn soaked(
    alloc: Global,
    events: &str,
    start: &str,
    sink: &mut MemorySink,
) -> Result<Status, AllocError> {
    let words = words_of(alloc, &["soak", events, start])?;
    let mut source = source_of(alloc, b"", 4096, 1)?;
    Ok(run(alloc, &words, &mut source, sink, &mut NoWire::make()))
}

// Whether so many events from 7 are done, with this text.
fn is_soaked(alloc: Global, events: &str, output: &[u8]) -> Result<bool, AllocError> {
    let mut sink = sink_of(alloc, 4096, 0)?;
    let status = soaked(alloc, events, "7", &mut sink)?;
    Ok(status == Status::Done && sink.tells() && sink.written() == output)
}

#[test]
fn a_workload_is_the_same_at_each_run(rt: HostRuntime) -> Result<(), Fail> {
    assert!(rt; is_soaked(rt.alloc(), "20000", OF_SEVEN)?);
    assert!(rt; is_soaked(rt.alloc(), "20000", OF_SEVEN)?);
    let short = b"events 300\npackets 128\noperations 19\nanswered 6\nkeys 7\ncheck yes\n";
    assert!(rt; is_soaked(rt.alloc(), "300", short)?);
    Ok(())
}

#[test]
fn a_summary_that_is_not_written_is_a_fault(rt: HostRuntime) -> Result<(), Fail> {
    let mut sink = sink_of(rt.alloc(), 16, 3)?;
    assert_eq!(rt;
        soaked(rt.alloc(), "20000", "7", &mut sink)?,
        Status::WriteFault
    );
    assert!(rt; sink.tells() && sink.written() == &OF_SEVEN[..32]);
    Ok(())
}

#[test]
fn numbers_out_of_their_ranges_are_no_command(rt: HostRuntime) -> Result<(), Fail> {
    for (events, start) in [
        ("0", "1"),
        ("20001", "1"),
        ("5", "18446744073709551616"),
        ("+5", "1"),
    ] {
        let mut sink = sink_of(rt.alloc(), 4096, 0)?;
        let status = soaked(rt.alloc(), events, start, &mut sink)?;
        assert!(rt;
            status == Status::Usage && sink.written().is_empty(),
            "{events} {start}"
        );
    }
    Ok(())
}
