use crate::soak;
use peg_io::MemorySink;
use peg_session::End;
use std::alloc::{AllocError, Global};
use std::test::Fail;

// What 300 events from the number 7 come to, by another program.
const OF_SEVEN: &[u8] = b"events 300\npackets 128\noperations 19\nanswered 6\nkeys 7\ncheck yes\n";

// A sink that fails at the call of that number, from 1; at none for 0.
fn sink_of(alloc: Global, step: usize, fail: u64) -> Result<MemorySink, AllocError> {
    let fails = Vec::from_slice(alloc, &[fail])?;
    Ok(MemorySink::make(alloc, step.max(1), fails))
}

#[test]
fn a_workload_is_summed_up(rt: HostRuntime) -> Result<(), Fail> {
    let mut sink = sink_of(rt.alloc(), 4096, 0)?;
    assert_eq!(rt; soak(rt.alloc(), 300, 7, &mut sink), End::Done);
    assert!(rt; sink.tells() && sink.written() == OF_SEVEN);
    Ok(())
}

// Seven writes of 10 bytes take the whole text.
#[test]
fn each_write_fails_in_turn(rt: HostRuntime) -> Result<(), Fail> {
    for fail in 1..8 {
        let mut sink = sink_of(rt.alloc(), 10, fail)?;
        let end = soak(rt.alloc(), 300, 7, &mut sink);
        assert_eq!(rt; end, End::WriteFault, "at call {fail}");
        let part = OF_SEVEN.get(..10 * (fail as usize - 1));
        assert!(rt;
            sink.tells() && Some(sink.written()) == part,
            "at call {fail}"
        );
    }
    Ok(())
}
