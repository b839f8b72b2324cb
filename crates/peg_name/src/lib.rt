//! The names of things, each within its limits: keys and values, the numbers of nodes and versions,
//! sets of servers, and the configuration of a rack. What is made here is in range for good, so no
//! other crate judges a number again.
#![tactic(auto)]

ghost use Rattle.std.specs.Prelude.{ℕ};

use std::alloc::{AllocError, AllocFailed};
use std::marker::Model;
use thiserror::Error;

mod config;
mod holders;
mod key;
mod limits;
#[cfg(test)]
mod tests;
mod value;

pub use config::{Config, ConfigFault, home};
pub use holders::Holders;
pub use key::{Key, KeyFault};
pub use value::{Content, TooLong, Value};

/// There was no memory for what a call was to keep.
#[derive(Clone, Copy, Debug, PartialEq, Eq, Error)]
#[error("out of memory")]
pub struct OutOfMemory;

impl From<AllocError> for OutOfMemory {
    fn from(_error: AllocError) -> OutOfMemory {
        OutOfMemory
    }
}

impl<T: Drop> From<AllocFailed<T>> for OutOfMemory {
    fn from(_error: AllocFailed<T>) -> OutOfMemory {
        OutOfMemory
    }
}

/// A server, by its number: 0 to 15, and to 63 in format 2.
#[derive(Clone, Copy, Debug, PartialEq, Eq, PartialOrd, Ord)]
pub struct ServerId(pub u8);

impl Model for ServerId {
    ghost Value = { ℕ };

    ghost view = { λ id. id.0 };

    ghost inverse = { λ n. record { 0 = n } };
}

/// A client, by its number: 0 to 255, and to 1,023 in format 2.
#[derive(Clone, Copy, Debug, PartialEq, Eq, PartialOrd, Ord)]
pub struct ClientId(pub u16);

impl Model for ClientId {
    ghost Value = { ℕ };

    ghost view = { λ id. id.0 };

    ghost inverse = { λ n. record { 0 = n } };
}

/// A switch, by its number: 0 to 3.
#[derive(Clone, Copy, Debug, PartialEq, Eq, PartialOrd, Ord)]
pub struct SwitchId(pub u8);

impl Model for SwitchId {
    ghost Value = { ℕ };

    ghost view = { λ id. id.0 };

    ghost inverse = { λ n. record { 0 = n } };
}

/// A version of a key's content: its place in the order in which the switch stamped all writes.
/// Version 0 is that of a key that was never written.
#[derive(Clone, Copy, Debug, PartialEq, Eq, PartialOrd, Ord)]
pub struct Version(pub u64);

impl Model for Version {
    ghost Value = { ℕ };

    ghost view = { λ id. id.0 };

    ghost inverse = { λ n. record { 0 = n } };
}

/// A client's number for one of its operations, from 1 on.
#[derive(Clone, Copy, Debug, PartialEq, Eq, PartialOrd, Ord)]
pub struct Seq(pub u64);

impl Model for Seq {
    ghost Value = { ℕ };

    ghost view = { λ id. id.0 };

    ghost inverse = { λ n. record { 0 = n } };
}

/// A node of the rack.
#[derive(Clone, Copy, Debug, PartialEq, Eq)]
pub enum Node {
    Client(ClientId),
    Server(ServerId),
    Switch(SwitchId),
    Controller,
}

/// A row of the popularity table: how often the key was seen at most, and by how much less it may
/// have been.
#[derive(Clone, Copy, Debug, PartialEq, Eq)]
pub struct Row {
    pub key: Key,
    pub count: u64,
    pub error: u64,
}

/// What a reply did to the directory: the key is not listed; nothing changed; a newer version was
/// completed; a further server holds the completed version; the marked entry was removed.
#[derive(Clone, Copy, Debug, PartialEq, Eq)]
pub enum Note {
    Unlisted,
    Kept,
    Raised,
    Added,
    Removed { listing: u64 },
}

/// The form of a rack's packets, and with it its limits. Format 2 has larger racks and values, and
/// deletes.
#[derive(Clone, Copy, Debug, PartialEq, Eq)]
pub enum Format {
    One,
    Two,
}
