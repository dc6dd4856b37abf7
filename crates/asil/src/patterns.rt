// The decomposition patterns of the automotive standard, as a table.

ghost use Rattle.std.specs.Prelude.{◌≡◌};
ghost use Rattle.asil.specs.Patterns.{nine_rows, CoversBySum, MetByPatterns};

// Each row is a required level and the two levels that it may be split into, in either order. The last is a house row.
const PATTERNS: [(u8, u8, u8); 9] = [
    (4, 4, 0),
    (4, 3, 1),
    (4, 2, 2),
    (3, 3, 0),
    (3, 2, 1),
    (2, 2, 0),
    (2, 1, 1),
    (1, 1, 0),
    (0, 0, 0),
];

// The table, with what makes it the automotive scale's.
pub fn patterns() -> [(u8, u8, u8); 9]
    ensures rows { result ≡ nine_rows }
    ensures covers { CoversBySum result }
    ensures met { MetByPatterns result }
{
    PATTERNS
}
