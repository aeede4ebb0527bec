// Theorems about recordings, tied to no function: their statements stand in `specs/`, their proofs in `proofs/`.
// This crate has no code.

#![tactic(auto)]
