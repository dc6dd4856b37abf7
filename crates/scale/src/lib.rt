// What "met" means: whether the levels of a cut set's members meet the level that the set requires.
#![tactic(auto)]

// What a scale is asked, and which questions are well-formed.
pub mod question;

// What every scale is: a meaning, its laws, and the call that answers by it.
pub mod scale;

// Two kinds of scale as one.
pub mod one_of_two;
