use crate::{WordFault, read_words};
use std::alloc::{AllocError, Global};
use std::process::Abort;
use std::test::Fail;

fn words_of(alloc: Global, texts: &[&str]) -> Result<Vec<String>, AllocError> {
    let mut words = Vec::new(alloc);
    for text in texts {
        words.push(String::from_str(alloc, text)?)?;
    }
    Ok(words)
}

// Words, and what their job is shown as.
const JOBS: [(&[&str], &str); 11] = [
    (&["replay"], "Ok(Replay)"),
    (&["check"], "Ok(Check)"),
    (&["rack", "7000"], "Ok(Rack { base: 7000 })"),
    (&["racks"], "Ok(Racks)"),
    (
        &["balanced", "7000", "2:1:1:1:1:1", "0", "5", "1000:1"],
        "Ok(Node { base: 7000, config: Config { format: One, servers: 2, clients: 1, switches: 1, \
        listed: 1, hot: 1, first: 1 }, role: Balanced { switch: SwitchId(0), turns: 5, \
        weights: [1000, 1] } })",
    ),
    (
        &["soak", "20000", "7"],
        "Ok(Soak { events: 20000, start: 7 })",
    ),
    (
        &["soak", "1", "18446744073709551615"],
        "Ok(Soak { events: 1, start: 18446744073709551615 })",
    ),
    (
        &["switch", "7000", "1:2:4:4:5:6", "3", "1000000000"],
        "Ok(Node { base: 7000, config: Config { format: One, servers: 1, clients: 2, switches: 4, \
        listed: 4, hot: 5, first: 6 }, role: Switch { switch: SwitchId(3), turns: 1000000000 } })",
    ),
    (
        &["server", "1024", "64:1:1:1:1:1:2", "63", "0"],
        "Ok(Node { base: 1024, config: Config { format: Two, servers: 64, clients: 1, switches: 1, \
        listed: 1, hot: 1, first: 1 }, role: Server { server: ServerId(63), turns: 0 } })",
    ),
    (
        &["control", "60000", "1:1:1:1:1:1", "100", "1000"],
        "Ok(Node { base: 60000, config: Config { format: One, servers: 1, clients: 1, \
        switches: 1, listed: 1, hot: 1, first: 1 }, role: Control { tries: 100, waits: 1000 } })",
    ),
    (
        &["ask", "7000", "1:256:1:1:1:1", "255", "1", "2", "0"],
        "Ok(Node { base: 7000, config: Config { format: One, servers: 1, clients: 256, \
        switches: 1, listed: 1, hot: 1, first: 1 }, role: Ask { client: ClientId(255), \
        first: Seq(1), tries: 2, waits: 0 } })",
    ),
];

#[test]
fn words_call_for_a_job(rt: HostRuntime) -> Result<(), Fail> {
    for (texts, job) in JOBS {
        let words = words_of(rt.alloc(), texts)?;
        let answer = read_words(rt.alloc(), words.as_slice());
        let text = format!(in rt.alloc(); "{answer:?}")?;
        assert_eq!(rt; text.as_str(), job);
    }
    Ok(())
}

fn refuses(rt: &impl Abort, alloc: Global, cases: &[&[&str]]) -> Result<(), Fail> {
    for texts in cases {
        let words = words_of(alloc, texts)?;
        let answer = read_words(alloc, words.as_slice());
        assert!(rt; matches!(answer, Err(WordFault::Usage)), "{words:?}");
    }
    Ok(())
}

#[test]
fn other_words_are_no_command(rt: HostRuntime) -> Result<(), Fail> {
    let cases: [&[&str]; 27] = [
        &[],
        &[""],
        &["Replay"],
        &["checks"],
        &["help"],
        &["--help"],
        &["-h"],
        &["replay", "x"],
        &["replay", ""],
        &["replay", "-"],
        &["replay", "--"],
        &["check", "replay"],
        &["rack"],
        &["rack", "1023"],
        &["rack", "7000", "1"],
        &["soak"],
        &["soak", "5"],
        &["soak", "5", "7", "7"],
        &["soak", "5", "7", "7", "7"],
        &["soak", "0", "1"],
        &["soak", "20001", "1"],
        &["soak", "+5", "1"],
        &["soak", "05", "1"],
        &["soak", "5", "-1"],
        &["soak", "5", ""],
        &["soak", "5", "18446744073709551616"],
        &["switch", "7000", "0:1:1:1:1:1", "0", "2"],
    ];
    refuses(&rt, rt.alloc(), &cases)
}

#[test]
fn other_arguments_are_no_node(rt: HostRuntime) -> Result<(), Fail> {
    let cases: [&[&str]; 32] = [
        &["switch"],
        &["switch", "7000", "1:1:1:1:1:1", "0"],
        &["switch", "7000", "1:1:1:1:1:1", "0", "2", "2"],
        &["switch", "1023", "1:1:1:1:1:1", "0", "2"],
        &["switch", "60001", "1:1:1:1:1:1", "0", "2"],
        &["switch", "7000", "1:1:1:1:1:1", "1", "2"],
        &["switch", "7000", "1:1:1:1:1:1", "0", "1000000001"],
        &["switch", "7000", "", "0", "2"],
        &["switch", "7000", "1:1:1:1:1", "0", "2"],
        &["switch", "7000", "1:1:1:1:1:1:1", "0", "2"],
        &["switch", "7000", "1:1:1:1:1:1:3", "0", "2"],
        &["switch", "7000", "1:1:1:1:1:1:2:2", "0", "2"],
        &["switch", "7000", "17:1:1:1:1:1", "0", "2"],
        &["switch", "7000", "1:257:1:1:1:1", "0", "2"],
        &["switch", "7000", "1:1:5:1:1:1", "0", "2"],
        &["switch", "7000", "1:1:1:1:1:0", "0", "2"],
        &["switch", "7000", "1:1:1:1:1:+1", "0", "2"],
        &["switch", "7000", "1:1:1: 1:1:1", "0", "2"],
        &["server", "7000", "1:1:1:1:1:1", "1", "2"],
        &["control", "7000", "1:1:1:1:1:1", "0", "1"],
        &["control", "7000", "1:1:1:1:1:1", "101", "1"],
        &["control", "7000", "1:1:1:1:1:1", "1", "1001"],
        &["ask", "7000", "1:1:1:1:1:1", "1", "1", "2", "1"],
        &["ask", "7000", "1:1:1:1:1:1", "0", "0", "2", "1"],
        &["ask", "7000", "1:1:1:1:1:1", "0", "1", "2"],
        &["balanced", "7000", "1:1:1:1:1:1", "0", "2"],
        &["balanced", "7000", "1:1:1:1:1:1", "0", "2", "0"],
        &["balanced", "7000", "1:1:1:1:1:1", "0", "2", "1:1"],
        &["balanced", "7000", "2:1:1:1:1:1", "0", "2", "1:1001"],
        &["balanced", "7000", "2:1:1:1:1:1", "1", "2", "1:1"],
        &["racks", "2"],
        &["audit"],
    ];
    refuses(&rt, rt.alloc(), &cases)
}

#[test]
fn faults_have_their_texts(rt: HostRuntime) -> Result<(), Fail> {
    let alloc = rt.alloc();
    let memory = format!(in alloc; "{}", WordFault::OutOfMemory)?;
    let usage = format!(in alloc; "{}", WordFault::Usage)?;
    assert_eq!(rt; memory.as_str(), "out of memory");
    assert_eq!(rt; usage.as_str(), "usage");
    Ok(())
}
