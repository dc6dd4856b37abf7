// The search of a draft: the walk step by step, as code, for any scale and any cost rule.
#![tactic(auto)]

// The levels that the search is at.
mod path;

// How far the search is.
mod progress;

// Who is apart from whom in each cut set.
mod rows;

// Which cut set is not met.
mod asking;

// To come: one step of the walk, which stands in step.rt.txt until its proof is whole, and then opening, working, the plan
// and handing back.
