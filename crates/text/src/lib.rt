// The words of a line.
#![tactic(auto)]

pub mod words;
