// The two standards' scales as programs meet them: by their words, with letters for their levels, and with known answers.
#![tactic(auto)]

// The letters of the levels.
pub mod letters;

// The words that name the scales.
pub mod words;

// Questions with known answers.
pub mod reference;
