// What holds of the calls on lent numbers, one by one and of every list of them; this crate has no code.

#![tactic(auto)]
