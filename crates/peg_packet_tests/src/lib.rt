//! Tests of the public calls of `peg_packet` and `peg_server`: what their clauses leave open, and one
//! ordinary use of each call. They stand here, and not beside the code, so that a crate is not proved
//! once more for its tests.
#![tactic(auto)]

#[cfg(test)]
mod packet;
#[cfg(test)]
mod server;
