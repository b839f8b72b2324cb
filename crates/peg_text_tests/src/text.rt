mod auditing;
mod dividing;
mod operations;
mod printing;
mod printing_controllers;
mod printing_switches;
mod reading;
mod taking;

use peg_name::{Config, ConfigFault, Key, KeyFault};

pub fn config_in(format: u64) -> Result<Config, ConfigFault> {
    Config::make(format, 2, 2, 2, 2, 12, 1)
}

pub fn key_k() -> Result<Key, KeyFault> {
    Key::read(b"k")
}
