// What a project and its search mean, and why the search is exact: definitions and theorems, before any call of them.
#![tactic(auto)]

// A part, with its range and its quotes.
pub mod part;

// How much a project holds at most.
pub mod limits;

// Why a call is refused.
pub mod refusal;

// What a search tells of itself.
pub mod verdict;

// What is proved of the definitions.
pub mod theorems;

// Projects with known searches.
pub mod reference;
