//! The book: every definition that a contract or a theorem of this repository cites. It has no code.
#![tactic(auto)]
