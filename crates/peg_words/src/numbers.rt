// Numbers among the words.
ghost use Rattle.std.specs.Prelude.{◌≡◌, ◌≤◌, IfSome};
ghost use Rattle.peg_meaning.specs.Commands as commands;

use itoa::Buffer;

// The number from `low` to `high` that the word is the decimal of. `parse` would take a sign and
// leading zeros too.
pub(crate) fn number_within(low: u64, high: u64, word: &str) -> Option<u64>
    ensures number { result ≡ commands.number_within low high word.now }
    ensures least { IfSome result (λ n. low ≤ n) }
    ensures most { IfSome result (λ n. n ≤ high) }
{
    let number: u64 = word.parse().ok()?;
    let mut buffer = Buffer::new();
    if low <= number && number <= high && buffer.format(number) == word {
        Some(number)
    } else {
        None
    }
}

// The least port of a rack.
pub(crate) fn base_of(word: &str) -> Option<u16>
    ensures base { result ≡ commands.number_within 1024 60000 word.now }
    ensures most { IfSome result (λ base. base ≤ 60000) }
{
    let base = number_within(1024, 60_000, word)?;
    Some(base as u16)
}

// How many turns a node takes.
pub(crate) fn turns_of(word: &str) -> Option<u32>
    ensures { result ≡ commands.number_within 0 1000000000 word.now }
{
    let turns = number_within(0, 1_000_000_000, word)?;
    Some(turns as u32)
}

// How often a line is sent.
pub(crate) fn tries_of(word: &str) -> Option<u32>
    ensures tries { result ≡ commands.number_within 1 100 word.now }
    ensures least { IfSome result (λ tries. 1 ≤ tries) }
    ensures most { IfSome result (λ tries. tries ≤ 100) }
{
    let tries = number_within(1, 100, word)?;
    Some(tries as u32)
}

// How many turns are waited for after each time.
pub(crate) fn waits_of(word: &str) -> Option<u32>
    ensures waits { result ≡ commands.number_within 0 1000 word.now }
    ensures most { IfSome result (λ waits. waits ≤ 1000) }
{
    let waits = number_within(0, 1000, word)?;
    Some(waits as u32)
}
