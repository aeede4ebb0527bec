// Texts in bytes: the fields of a line and lines of numbers are read at the start of a text, and put into a lent output.
#![tactic(auto)]

pub mod fields;
pub mod numbers;
pub mod puts;
pub mod words;
