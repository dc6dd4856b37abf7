// How much a project holds at most.

// A project has at most this many parts.
pub const MOST_PARTS: usize = 64;

// A project has at most this many cut sets.
pub const MOST_SETS: usize = 128;
