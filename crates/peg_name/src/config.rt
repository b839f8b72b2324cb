//! The configuration of a rack, and where its keys live.

ghost use Rattle.std.specs.Prelude.{◌≡◌, ◌≤◌, nat_lt};
ghost use Rattle.peg_name.specs.Name.{home_of, InLimits};
ghost use Rattle.peg_name.specs.Limits.{config_of};

use crate::{ClientId, Format, Key, ServerId, SwitchId};
use std::marker::Model;
use thiserror::Error;

/// The format of a rack and its numbers, each within its limit.
#[derive(Clone, Copy, Debug)]
pub struct Config {
    format: Format,
    servers: u64,
    clients: u64,
    switches: u64,
    listed: u64,
    hot: u64,
    first: u64,
}

impl Model for Config {
    ghost use Rattle.peg_name.specs.Name.{Rack, InLimits};

    ghost Value = { Rack };

    ghost view = { λ c. record {
      format = c.format;
      servers = c.servers;
      clients = c.clients;
      switches = c.switches;
      listed = c.listed;
      hot = c.hot;
      first = c.first;
    } };

    ghost invariant = { λ c. InLimits (record {
      format = c.format;
      servers = c.servers;
      clients = c.clients;
      switches = c.switches;
      listed = c.listed;
      hot = c.hot;
      first = c.first;
    }) };

    ghost inverse = { λ r. record {
      format = r.format;
      servers = r.servers;
      clients = r.clients;
      switches = r.switches;
      listed = r.listed;
      hot = r.hot;
      first = r.first;
    } };
}

/// The first number of a rack that is out of its limit.
#[derive(Clone, Copy, Debug, PartialEq, Eq, Error)]
pub enum ConfigFault {
    #[error("the format is 1 or 2")]
    Format,
    #[error("a rack has 1 to 16 servers, and to 64 in format 2")]
    Servers,
    #[error("a rack has 1 to 256 clients, and to 1,024 in format 2")]
    Clients,
    #[error("a rack has 1 to 4 switches")]
    Switches,
    #[error("a rack lists 1 to 64 keys")]
    Listed,
    #[error("a table of counts has 1 to 12 rows")]
    Hot,
    #[error("the first version is at least 1")]
    First,
}

impl Config {
    /// The configuration of these numbers: format 1 or 2; 1 to 16 servers and 1 to 256 clients, or
    /// to 64 and 1,024 in format 2; 1 to 4 switches; 1 to 64 listed keys; 1 to 12 rows of counts; a
    /// first version of at least 1. The fault is the first number in this order that is out of its
    /// limit.
    pub fn make(
        format: u64,
        servers: u64,
        clients: u64,
        switches: u64,
        listed: u64,
        hot: u64,
        first: u64,
    ) -> Result<Config, ConfigFault>
        ensures { result ≡ config_of format (record {
          format = Format.One;
          servers = servers;
          clients = clients;
          switches = switches;
          listed = listed;
          hot = hot;
          first = first;
        }) }
    {
        let format = Format::of_number(format).ok_or(ConfigFault::Format)?;
        if servers < 1 || servers > format.most_servers() {
            return Err(ConfigFault::Servers);
        }
        if clients < 1 || clients > format.most_clients() {
            return Err(ConfigFault::Clients);
        }
        if switches < 1 || switches > 4 {
            return Err(ConfigFault::Switches);
        }
        if listed < 1 || listed > 64 {
            return Err(ConfigFault::Listed);
        }
        if hot < 1 || hot > 12 {
            return Err(ConfigFault::Hot);
        }
        if first < 1 {
            return Err(ConfigFault::First);
        }
        Ok(Config {
            format,
            servers,
            clients,
            switches,
            listed,
            hot,
            first,
        })
    }

    /// The format.
    pub fn format(&self) -> Format
        ensures { result ≡ self.now.format }
    {
        self.format
    }

    /// The number of servers.
    pub fn servers(&self) -> u64
        ensures servers { result ≡ self.now.servers }
        ensures limits { InLimits self.now }
        ensures few { result ≤ 64 }
    {
        prove!(self.format.most_servers() <= 64);
        self.servers
    }
}

impl Config {
    /// The number of clients.
    pub fn clients(&self) -> u64
        ensures clients { result ≡ self.now.clients }
        ensures limits { InLimits self.now }
    {
        self.clients
    }

    /// The number of switches.
    pub fn switches(&self) -> u64
        ensures switches { result ≡ self.now.switches }
        ensures limits { InLimits self.now }
    {
        self.switches
    }

    /// The most keys that a directory lists.
    pub fn listed(&self) -> u64
        ensures listed { result ≡ self.now.listed }
        ensures limits { InLimits self.now }
    {
        self.listed
    }

    /// The rows of a table of counts.
    pub fn hot(&self) -> u64
        ensures hot { result ≡ self.now.hot }
        ensures limits { InLimits self.now }
    {
        self.hot
    }

    /// The first version.
    pub fn first(&self) -> u64
        ensures first { result ≡ self.now.first }
        ensures limits { InLimits self.now }
    {
        self.first
    }
}

impl Config {
    /// Whether a client of this number is in the rack.
    pub fn has_client(&self, client: ClientId) -> bool
        ensures { result ≡ nat_lt client self.now.clients }
    {
        u64::from(client.0) < self.clients
    }

    /// Whether a server of this number is in the rack.
    pub fn has_server(&self, server: ServerId) -> bool
        ensures { result ≡ nat_lt server self.now.servers }
    {
        u64::from(server.0) < self.servers
    }

    /// Whether a switch of this number is in the rack.
    pub fn has_switch(&self, switch: SwitchId) -> bool
        ensures { result ≡ nat_lt switch self.now.switches }
    {
        u64::from(switch.0) < self.switches
    }
}

/// The server that a key lives at while no directory lists it: a polynomial hash of its bytes with
/// the multiplier 31, modulo 2^32 and then modulo the number of servers.
pub fn home(config: &Config, key: &Key) -> ServerId
    ensures { result ≡ home_of config.now.servers key.now }
{
    let mut hash: u64 = 0;
    for byte in key.bytes() {
        hash = (hash * 31 + u64::from(*byte)) % 4294967296;
    }
    ServerId((hash % config.servers()) as u8)
}
