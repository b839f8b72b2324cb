//! The program `peg`: its words, its standard input and its standard output, and a wire of UDP
//! sockets, which a word binds where it needs them. On a terminal it says which words there are.
#![tactic(auto)]

use peg_io::{StdSink, StdSource, UdpWire};
use peg_run::{Status, run};
use std::alloc::Global;
use std::env::{self, Env};
use std::io::{self, IsTerminal};
use std::process::ExitCode;
use usage::WORDS;

mod usage;

fn main(rt: HostRuntime) -> ExitCode {
    let status = match words_given(&rt) {
        Ok(words) => match UdpWire::make(rt.alloc(), &rt) {
            Ok(mut wire) => run(
                rt.alloc(),
                words.as_slice(),
                &mut StdSource::make(rt.stdin()),
                &mut StdSink::make(io::writer(&rt)),
                &mut wire,
            ),
            Err(_) => Status::OutOfMemory,
        },
        Err(status) => status,
    };
    if status != Status::Done {
        // Where standard error is closed, the exit status alone says what happened.
        let _ = eprintln!(rt; "{status}");
    }
    if status == Status::Usage && rt.stderr().is_terminal() {
        let _ = eprintln!(rt; "{WORDS}");
    }
    ExitCode::from(status.code())
}

/// The words after the program's name. A word that is no text belongs to no command.
fn words_given<R: Env + AllocGlobal>(rt: &R) -> Result<Vec<String>, Status> {
    match env::args(rt) {
        Ok(words) => words
            .skip(1)
            .collect(rt.alloc())
            .map_err(|_| Status::OutOfMemory),
        Err(fault) if fault.kind() == io::ErrorKind::OutOfMemory => Err(Status::OutOfMemory),
        Err(_) => Err(Status::Usage),
    }
}
