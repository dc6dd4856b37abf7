// The avionics scale of integrity levels (DAL).
#![tactic(auto)]

pub mod options;
