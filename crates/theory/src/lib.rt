// Theorems about the definitions of `model`, and no code: the statements stand in `specs/`, their proofs in `proofs/`.

#![tactic(auto)]
