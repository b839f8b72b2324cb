//! Tests of the public calls of `peg_text`: what their clauses leave open, and one ordinary use of each
//! call. They stand here, and not beside the code, so that the crate is not proved once more for its
//! tests.
#![tactic(auto)]

#[cfg(test)]
mod text;
