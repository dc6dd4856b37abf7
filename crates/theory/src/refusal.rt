// Why a call on a project or on its search is refused.

#[derive(Clone, Copy, PartialEq, Eq, Debug)]
pub enum Refusal {
    // 64 parts stand.
    TooManyParts,
    // The ceiling is above 4, or the floor above the ceiling.
    NoRange,
    // There is no such part.
    NoSuchPart,
    // The two parts of a pair are one.
    SamePart,
    // 128 sets stand.
    TooManySets,
    // The required level is 0, or above 4.
    NoRequiredLevel,
    // There is no member, or more than 8.
    NoMemberCount,
    // The members are not in strictly ascending order.
    NotAscending,
    // There is no such set.
    NoSuchSet,
    // The search is not settled.
    NotSettled,
    // The buffer is shorter than the parts.
    ShortBuffer,
}
