// A rack among the words: `servers:clients:switches:listed:hot:first`, and `:2` behind it in
// format 2. What else is read of a node with the help of its rack.
ghost use Rattle.std.specs.Prelude.{◌≡◌, ◌-◌, ◌<◌, ◌≤◌, ℕ, List, IfSome, Some, None, length};
ghost use Rattle.std.specs.List.{AllByRecursion};
ghost use Rattle.peg_model.specs.Words.{last_number};
ghost use Rattle.peg_meaning.specs.Commands as commands;
ghost use Rattle.peg_words.specs.Jobs.{IsWeight};

use crate::numbers::number_within;
use arrayvec::ArrayVec;
use peg_name::{Config, SwitchId};

// The numbers between the colons, where each is one of these and they are at most so many.
fn numbers_of<const MOST: usize>(low: u64, high: u64, word: &str) -> Option<ArrayVec<u64, MOST>>
    ensures some { IfSome result (λ numbers.
        commands.numbers_within low high (commands.between_colons word.now) ≡ Some numbers.items) }
    ensures none { result ≡ None → (numbers : List ℕ)
        → commands.numbers_within low high (commands.between_colons word.now) ≡ Some numbers
        → MOST < length numbers }
{
    let mut numbers = ArrayVec::new();
    for part in word.split(':') {
        let number = number_within(low, high, part)?;
        numbers.try_push(number).ok()?;
    }
    Some(numbers)
}

fn rack_of_numbers(numbers: &[u64]) -> Option<Config>
    ensures { result ≡ commands.rack_of_numbers numbers.now }
{
    match *numbers {
        [servers, clients, switches, listed, hot, first] => {
            Config::make(1, servers, clients, switches, listed, hot, first).ok()
        }
        [servers, clients, switches, listed, hot, first, 2] => {
            Config::make(2, servers, clients, switches, listed, hot, first).ok()
        }
        _ => None,
    }
}

pub(crate) fn rack_of(word: &str) -> Option<Config>
    ensures { result ≡ commands.rack_of word.now }
{
    let numbers: ArrayVec<u64, 7> = numbers_of(0, u64::MAX, word)?;
    rack_of_numbers(numbers.as_slice())
}

pub(crate) fn switch_of(config: &Config, word: &str) -> Option<SwitchId>
    ensures switch { result ≡ commands.number_within 0 (config.now.switches - 1) word.now }
    ensures in_rack { IfSome result (λ switch. switch < config.now.switches) }
{
    let switch = number_within(0, config.switches() - 1, word)?;
    Some(SwitchId(switch as u8))
}

// A weight for each server.
pub(crate) fn weights_of(config: &Config, word: &str) -> Option<ArrayVec<u32, 64>>
    ensures some { IfSome result (λ weights.
        commands.weights_of config.now word.now ≡ Some weights.items) }
    ensures none { result ≡ None → commands.weights_of config.now word.now ≡ None }
    ensures each { IfSome result (λ weights. AllByRecursion IsWeight weights.items) }
    ensures count { IfSome result (λ weights. length weights.items ≡ config.now.servers) }
{
    let servers = config.servers();
    let numbers: ArrayVec<u64, 64> = numbers_of(1, 1000, word)?;
    if numbers.len() as u64 != servers {
        return None;
    }
    let mut weights = ArrayVec::new();
    for number in numbers.as_slice() {
        weights.push(*number as u32);
    }
    Some(weights)
}
