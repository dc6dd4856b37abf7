// A project being edited: its parts, which of them are apart, and its cut sets.
#![tactic(auto)]

// The parts, in the order of their numbers.
mod parts;

// Which parts are declared independent.
mod apart;

// What is asked of a set's members.
mod members;

// A minimal cut set.
pub mod cut_set;

// The draft, its edits and its reading calls.
pub mod draft;

// A draft worked by hand.
#[cfg(test)]
mod tests;
