//! Tests of the words of the program: worked runs, over sources, sinks and wires in memory that fail
//! where a test says so.
#![tactic(auto)]

#[cfg(test)]
mod node;
#[cfg(test)]
mod rack;
#[cfg(test)]
mod run;
#[cfg(test)]
mod worked;
