//! The nodes of a rack, as they are at the start.
ghost use Rattle.std.specs.Prelude.{◌≡◌, ◌≤◌, map, length, true, IfOk};
ghost use Rattle.peg_name.specs.Name.{InLimits};
ghost use Rattle.peg_model.specs.Words.{below};
ghost use Rattle.peg_model.specs.Packet.{are_distinct};
ghost use Rattle.peg_model.specs.Client.{new_client};
ghost use Rattle.peg_model.specs.Server.{new_server};
ghost use Rattle.peg_model.specs.Switch.{new_switch};

use peg_client::Client;
use peg_name::{ClientId, Config, Key, OutOfMemory, Seq, ServerId, SwitchId};
use peg_server::Server;
use peg_switch::Switch;
use std::alloc::Global;

#[tactic(auto, using(crate::proofs::Made::made_more))]
pub(crate) fn clients(alloc: Global, config: &Config) -> Result<Vec<Client>, OutOfMemory>
    ensures limits { InLimits config.now }
    ensures made { IfOk result (λ clients. clients.items
        ≡ map (λ id. new_client config.now.format id 1) (below config.now.clients)) }
{
    let mut clients = Vec::new(alloc);
    for id in 0..config.clients() {
        clients.push(Client::new(config.format(), ClientId(id as u16), Seq(1)))?;
    }
    Ok(clients)
}

#[tactic(auto, using(crate::proofs::Made::made_more))]
pub(crate) fn servers(alloc: Global, config: &Config) -> Result<Vec<Server>, OutOfMemory>
    ensures { IfOk result (λ servers. servers.items
        ≡ map (new_server config.now) (below config.now.servers)) }
{
    let mut servers = Vec::new(alloc);
    for id in 0..config.servers() {
        servers.push(Server::make(alloc, config, ServerId(id as u8)))?;
    }
    Ok(servers)
}

#[tactic(auto, using(crate::proofs::Made::made_more))]
pub(crate) fn switches(
    alloc: Global,
    config: &Config,
    keys: &[Key],
) -> Result<Vec<Switch>, OutOfMemory>
    requires distinct { are_distinct keys.now ≡ true }
    requires few { length keys.now ≤ config.now.listed }
    ensures { IfOk result (λ switches. switches.items
        ≡ map (new_switch config.now keys.now) (below config.now.switches)) }
{
    let mut switches = Vec::new(alloc);
    for id in 0..config.switches() {
        switches.push(Switch::make(alloc, config, SwitchId(id as u8), keys)?)?;
    }
    Ok(switches)
}
