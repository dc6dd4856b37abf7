// A question: a required level, the members' levels and one row of eight bits for each member.

ghost use Rattle.std.specs.Prelude.{◌≡◌, ◌↔◌, IsTrue, IsSome, IfSome};
ghost use Rattle.scale.specs.Question.{bit, apart, all_at_most, formed};

// Levels go from 0 to this; they are numbers and no enum, since every call answers for every number.
pub const HIGHEST: u8 = 4;

// How many levels there are.
pub const LEVELS: usize = 5;

// A cut set has one to this many members, a bit of a row for each.
pub const MOST_MEMBERS: usize = 8;

// A well-formed question, which a scale answers by its meaning.
#[derive(Clone, Copy, Debug)]
pub struct Question<'a> {
    pub required: u8,
    pub levels: &'a [u8],
    pub rows: &'a [u8],
    pub ghost formed: { IsTrue (formed required levels.now rows.now) },
}

impl<'a> Question<'a> {
    // The question, if it is well-formed.
    pub fn new(required: u8, levels: &'a [u8], rows: &'a [u8]) -> Option<Question<'a>>
        ensures formed { IsSome result ↔ IsTrue (formed required levels.now rows.now) }
        ensures required { IfSome result (λ question. question.required ≡ required) }
        ensures levels { IfSome result (λ question. question.levels.now ≡ levels.now) }
        ensures rows { IfSome result (λ question. question.rows.now ≡ rows.now) }
    {
        if well_formed(required, levels, rows) {
            Some(Question {
                required,
                levels,
                rows,
            })
        } else {
            None
        }
    }

    // Whether members i and j declare each other; there may be no such members.
    pub fn apart(&self, i: usize, j: usize) -> bool
        ensures { result ≡ apart self.now.rows.now i j }
    {
        apart(self.rows, i, j)
    }
}

// Whether a question is well-formed.
pub fn well_formed(required: u8, levels: &[u8], rows: &[u8]) -> bool
    ensures { result ≡ formed required levels.now rows.now }
{
    required <= HIGHEST
        && levels.len() == rows.len()
        && !levels.is_empty()
        && levels.len() <= MOST_MEMBERS
        && levels_fit(levels)
}

// A loop, since the compiler unrolls it for the few members that there are, and not `all` of an iterator.
fn levels_fit(levels: &[u8]) -> bool
    ensures { result ≡ all_at_most 4 levels.now }
{
    for level in levels {
        if *level > HIGHEST {
            return false;
        }
    }
    true
}

// Whether bit j of a row is set; a row has eight.
pub fn bit(row: u8, j: usize) -> bool
    ensures { result ≡ bit row j }
{
    j < MOST_MEMBERS && (row >> j) & 1 == 1
}

// Whether each of two members declares the other; one that has no row declares nobody.
pub fn apart(rows: &[u8], i: usize, j: usize) -> bool
    ensures { result ≡ apart rows.now i j }
{
    i < rows.len() && j < rows.len() && bit(rows[i], j) && bit(rows[j], i)
}
