// What a search tells of itself, in the amounts of its cost rule.

#[derive(Clone, Copy, PartialEq, Eq, Debug)]
pub enum Verdict<A> {
    Running,
    // With the amount of the best plan.
    Settled(A),
    // With the number of the first set that the ceilings do not meet.
    Blocked(u32),
}
