//! From the words of a command line to the job that they call for.
#![tactic(auto)]

ghost use Rattle.std.specs.Prelude.{◌≡◌, IfOk, IfSome, Err, None, Some, ◌∷◌, map};
ghost use Rattle.std.specs.String.{string_bytes};
ghost use Rattle.std.specs.List.{list_any};
ghost use Rattle.peg_words.specs.Jobs.{job_of, count_of, IsInRange};
ghost use Rattle.peg_words.specs.Arguments.{is_dashed};

use arguments::exactly;
use jobs::{ask, balanced, control, plain, rack, server, soak, switch};
use peg_name::Config;
pub use role::Role;
use std::alloc::{AllocError, Global};
use thiserror::Error;

mod arguments;
mod jobs;
mod numbers;
mod racks;
mod role;
#[cfg(test)]
mod tests;

/// What the program is to do.
#[derive(Debug, Drop)]
pub enum Job {
    /// Read a schedule, and write its trace, its history and its orders.
    Replay,
    /// Read a history and the orders of its keys, and write the verdict on them.
    Check,
    /// Make a workload of 1 to 20,000 events from a number, play it, and write what it came to.
    Soak {
        events: u64,
        start: u64,
    },
    /// Run a whole rack over a wire. The ports of its nodes begin at `base`, from 1,024 to 60,000.
    Rack {
        base: u16,
    },
    /// Read a schedule of several racks, among which the keys are divided, and write the trace, and
    /// the history and the orders of each rack.
    Racks,
    /// Run one node of a rack over a wire. The ports of the nodes begin at `base`, from 1,024 to
    /// 60,000.
    Node {
        base: u16,
        config: Config,
        role: Role,
    },
}

/// Why the words call for no job.
#[derive(Clone, Copy, Debug, PartialEq, Eq, Error)]
pub enum WordFault {
    /// There was no memory to read them.
    #[error("out of memory")]
    OutOfMemory,
    /// They are no command with its arguments.
    #[error("usage")]
    Usage,
}

impl From<AllocError> for WordFault {
    ghost use Rattle.std.specs.Prelude.{◌≡◌};
    ghost use Rattle.peg_words.specs.declared.WordFault.TheVariants.{OutOfMemory};

    ghost from_gives = { λ _ fault. fault ≡ OutOfMemory };

    fn from(_error: AllocError) -> WordFault {
        WordFault::OutOfMemory
    }
}

/// The job of the words that follow the program's name: the first names a command, and the others
/// are exactly its arguments. A number is written in decimal without a sign or a leading zero, and a
/// rack as six numbers with colons between: servers, clients, switches, listed keys, rows of counts
/// and the first version; in format 2 `:2` stands behind them. Weights are written with colons between.
/// There are no options and there is no help. `Usage` says that the words are no command.
pub fn read_words(alloc: Global, words: &[String]) -> Result<Job, WordFault>
    ensures job { IfOk result (λ job. job_of (map string_bytes words.now) ≡ Some job) }
    ensures usage { result ≡ Err WordFault.Usage → job_of (map string_bytes words.now) ≡ None }
    ensures in_range { IfOk result IsInRange }
{
    if has_option(words) {
        return Err(WordFault::Usage);
    }
    let Some((name, arguments)) = words.split_first() else {
        return Err(WordFault::Usage);
    };
    let Some(count) = count_of(name.as_str()) else {
        return Err(WordFault::Usage);
    };
    exactly(alloc, count, arguments)?;
    match job_by(name.as_str(), arguments) {
        Some(job) => Ok(job),
        None => Err(WordFault::Usage),
    }
}

/// Whether a word begins with a hyphen.
fn has_option(words: &[String]) -> bool
    ensures { result ≡ list_any (λ word. is_dashed (string_bytes word)) words.now }
{
    words.iter().any(|word| is_option(word.as_str()))
}

fn is_option(word: &str) -> bool
    ensures { result ≡ is_dashed word.now }
{
    matches!(word.as_bytes(), [b'-', ..])
}

// How many arguments the command has.
fn count_of(name: &str) -> Option<usize>
    ensures { result ≡ count_of name.now }
{
    match name {
        "replay" => Some(0),
        "check" => Some(0),
        "soak" => Some(2),
        "switch" => Some(4),
        "server" => Some(4),
        "control" => Some(4),
        "ask" => Some(6),
        "rack" => Some(1),
        "racks" => Some(0),
        "balanced" => Some(5),
        _ => None,
    }
}

// The job of a command and its arguments.
fn job_by(name: &str, words: &[String]) -> Option<Job>
    ensures job { result ≡ job_of (name.now ∷ map string_bytes words.now) }
    ensures in_range { IfSome result IsInRange }
{
    match name {
        "replay" => plain(Job::Replay, words),
        "check" => plain(Job::Check, words),
        "soak" => soak(words),
        "switch" => switch(words),
        "server" => server(words),
        "control" => control(words),
        "ask" => ask(words),
        "rack" => rack(words),
        "racks" => plain(Job::Racks, words),
        "balanced" => balanced(words),
        _ => None,
    }
}
