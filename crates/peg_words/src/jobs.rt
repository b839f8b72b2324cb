// The jobs of the commands, from their arguments.
ghost use Rattle.std.specs.Prelude.{◌≡◌, IfSome, map, option_and_then};
ghost use Rattle.std.specs.String.{string_bytes};
ghost use Rattle.peg_meaning.specs.Commands.{soak_job, switch_job, server_job, control_job};
ghost use Rattle.peg_meaning.specs.Commands.{ask_job, rack_job, balanced_job};
ghost use Rattle.peg_words.specs.Jobs.{given, IsInRange, if_none};

use crate::numbers::{base_of, number_within, tries_of, turns_of, waits_of};
use crate::racks::{rack_of, switch_of, weights_of};
use crate::{Job, Role};
use peg_name::{ClientId, Seq, ServerId};

// Of a command without arguments.
pub(crate) fn plain(job: Job, words: &[String]) -> Option<Job>
    ensures { result ≡ if_none job (map string_bytes words.now) }
{
    if words.is_empty() { Some(job) } else { None }
}

// A number of events, and one to make them from.
pub(crate) fn soak(words: &[String]) -> Option<Job>
    ensures job { result ≡ option_and_then given (soak_job (map string_bytes words.now)) }
    ensures in_range { IfSome result IsInRange }
{
    let [events, start] = words else {
        return None;
    };
    let events = number_within(1, 20_000, events.as_str())?;
    let start = number_within(0, u64::MAX, start.as_str())?;
    Some(Job::Soak { events, start })
}

pub(crate) fn switch(words: &[String]) -> Option<Job>
    ensures job { result ≡ option_and_then given (switch_job (map string_bytes words.now)) }
    ensures in_range { IfSome result IsInRange }
{
    let [base, rack, switch, turns] = words else {
        return None;
    };
    let base = base_of(base.as_str())?;
    let config = rack_of(rack.as_str())?;
    let switch = switch_of(&config, switch.as_str())?;
    let turns = turns_of(turns.as_str())?;
    let role = Role::Switch { switch, turns };
    Some(Job::Node { base, config, role })
}

pub(crate) fn balanced(words: &[String]) -> Option<Job>
    ensures job { result ≡ option_and_then given (balanced_job (map string_bytes words.now)) }
    ensures in_range { IfSome result IsInRange }
{
    let [base, rack, switch, turns, weights] = words else {
        return None;
    };
    let base = base_of(base.as_str())?;
    let config = rack_of(rack.as_str())?;
    let switch = switch_of(&config, switch.as_str())?;
    let turns = turns_of(turns.as_str())?;
    let weights = weights_of(&config, weights.as_str())?;
    let role = Role::Balanced {
        switch,
        turns,
        weights,
    };
    Some(Job::Node { base, config, role })
}

pub(crate) fn server(words: &[String]) -> Option<Job>
    ensures job { result ≡ option_and_then given (server_job (map string_bytes words.now)) }
    ensures in_range { IfSome result IsInRange }
{
    let [base, rack, server, turns] = words else {
        return None;
    };
    let base = base_of(base.as_str())?;
    let config = rack_of(rack.as_str())?;
    let server = number_within(0, config.servers() - 1, server.as_str())?;
    let turns = turns_of(turns.as_str())?;
    let role = Role::Server {
        server: ServerId(server as u8),
        turns,
    };
    Some(Job::Node { base, config, role })
}

pub(crate) fn control(words: &[String]) -> Option<Job>
    ensures job { result ≡ option_and_then given (control_job (map string_bytes words.now)) }
    ensures in_range { IfSome result IsInRange }
{
    let [base, rack, tries, waits] = words else {
        return None;
    };
    let base = base_of(base.as_str())?;
    let config = rack_of(rack.as_str())?;
    let tries = tries_of(tries.as_str())?;
    let waits = waits_of(waits.as_str())?;
    let role = Role::Control { tries, waits };
    Some(Job::Node { base, config, role })
}

pub(crate) fn ask(words: &[String]) -> Option<Job>
    ensures job { result ≡ option_and_then given (ask_job (map string_bytes words.now)) }
    ensures in_range { IfSome result IsInRange }
{
    let [base, rack, client, first, tries, waits] = words else {
        return None;
    };
    let base = base_of(base.as_str())?;
    let config = rack_of(rack.as_str())?;
    let client = number_within(0, config.clients() - 1, client.as_str())?;
    let first = number_within(1, u64::MAX, first.as_str())?;
    let tries = tries_of(tries.as_str())?;
    let waits = waits_of(waits.as_str())?;
    let role = Role::Ask {
        client: ClientId(client as u16),
        first: Seq(first),
        tries,
        waits,
    };
    Some(Job::Node { base, config, role })
}

pub(crate) fn rack(words: &[String]) -> Option<Job>
    ensures job { result ≡ option_and_then given (rack_job (map string_bytes words.now)) }
    ensures in_range { IfSome result IsInRange }
{
    let [base] = words else {
        return None;
    };
    let base = base_of(base.as_str())?;
    Some(Job::Rack { base })
}
