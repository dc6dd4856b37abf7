// The automotive scale of integrity levels (ASIL), and the decomposition patterns that it agrees with.
#![tactic(auto)]

pub mod groups;
pub mod patterns;
