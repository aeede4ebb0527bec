// Theorems about every list of calls; this crate has no code.

#![tactic(auto)]
