//! Schedules, and the texts that they come to.

mod clients;
mod commands;
mod faults;
mod handovers;
mod keys;

pub(crate) use clients::*;
pub(crate) use commands::*;
pub(crate) use faults::*;
pub(crate) use handovers::*;
pub(crate) use keys::*;
