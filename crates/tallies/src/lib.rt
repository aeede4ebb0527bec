// Theorems about the tally of a list of recorded steps; this crate has no code.

#![tactic(auto)]
