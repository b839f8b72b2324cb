//! Worked and random runs of the words of the program, computed by their meanings: what each
//! writes, binds and sends. The texts come from outside the definitions. It has no code.
#![tactic(auto)]
