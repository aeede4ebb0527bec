// What holds of every list of exported calls on a table or a board, or that tell a board, whoever makes them, by their contracts; this
// crate has no code.

#![tactic(auto)]
