// The two engines side by side. No code: statements in `specs/`, proofs in `proofs/`.

#![tactic(auto)]
