//! The words that run one node over a wire, as sessions.
#![tactic(auto)]

mod asked;
mod asker;
mod asking;
mod balanced;
mod calls;
mod client;
mod console;
mod controller;
mod controlling;
mod outbox;
mod phase;
mod printing;
mod server;
mod serving;
mod switch;
mod turning;

pub use balanced::serve_balanced;
pub use calls::{Call, call_by};
pub use client::ask;
pub use controller::serve_controller;
pub use outbox::{port, room_of};
pub use server::serve_server;
pub use switch::serve_switch;
