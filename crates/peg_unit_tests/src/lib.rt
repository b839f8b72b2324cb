//! Tests of the public calls of single crates: what their clauses leave open, and one ordinary use of
//! each call. They stand here, and not beside the code, so that a crate is not proved once more for
//! its tests.
#![tactic(auto)]

#[cfg(test)]
mod control;
#[cfg(test)]
mod history;
#[cfg(test)]
mod parts;
#[cfg(test)]
mod rules;
#[cfg(test)]
mod switch;
