// The avionics scale: one member at the full level, or two that are apart at the pair's, and no other too low.

ghost use Rattle.std.specs.Prelude.{◌≡◌, ℕ, ◌<◌, ◌≤◌, ◌↔◌, IsTrue, ◌⊎◌, All, length, slice_index};
ghost use Rattle.scale.specs.Question.{apart, formed, answer};
ghost use Rattle.dal.specs.Options.{dal_test, Full, Pair, DalMet};
ghost use Rattle.dal.specs.Laws.{dal_laws};

use scale::question::Question;
use scale::scale::Scale;

#[derive(Clone, Copy, PartialEq, Eq, Debug)]
pub struct Dal;

fn all_reach(levels: &[u8], low: u8) -> bool
    ensures { IsTrue result ↔ All (λ level. low ≤ level) levels.now }
{
    levels.iter().all(|level| *level >= low)
}

// Whether one member has at least the level `full`: the full option, where no other can be too low.
fn one_reaches(levels: &[u8], full: u8) -> bool
    ensures { IsTrue result ↔ Full levels.now full 0 }
{
    levels.iter().any(|level| *level >= full)
}

// Whether two members that are apart have at least the level `each`: the pair option, where no other can be too low.
fn two_reach(question: &Question, each: u8) -> bool
    ensures { IsTrue result ↔ Pair question.now.levels.now question.now.rows.now each 0 }
{
    let mut members = question.levels.iter().enumerate();
    members.any(|(j, level)| *level >= each && partnered(question, each, j))
}

// Whether a member before j that is apart from it has at least the level `each`.
fn partnered(question: &Question, each: u8, j: usize) -> bool
    ensures { IsTrue result
        ↔ ((i : ℕ) × (i < j) × (i < length question.now.levels.now)
        × IsTrue (apart question.now.rows.now i j) × (each ≤ slice_index question.now.levels.now i)) }
{
    let mut earlier = question.levels.iter().take(j).enumerate();
    earlier.any(|(i, level)| *level >= each && question.apart(i, j))
}

// Whether no member is below `low`, and one has `full` or two that are apart have `each`.
fn either_option(question: &Question, full: u8, each: u8, low: u8) -> bool
    requires low_full { low ≤ full }
    requires low_each { low ≤ each }
    ensures { IsTrue result
        ↔ (Full question.now.levels.now full low ⊎ Pair question.now.levels.now question.now.rows.now each low) }
{
    all_reach(question.levels, low)
        && (one_reaches(question.levels, full) || two_reach(question, each))
}

// Whether the options of the required level are met.
fn some_option(question: &Question) -> bool
    ensures { IsTrue result ↔ DalMet question.now.required question.now.levels.now question.now.rows.now }
{
    match question.required {
        0 => true,
        1 => one_reaches(question.levels, 1),
        2 => either_option(question, 2, 1, 0),
        3 => either_option(question, 3, 2, 1),
        _ => either_option(question, 4, 3, 2),
    }
}

impl Scale for Dal {
    ghost means = { λ _. dal_test };

    ghost laws = { λ s. dal_laws };

    fn met(&self, required: u8, levels: &[u8], rows: &[u8]) -> bool
        ensures answers { result ≡ answer dal_test required levels.now rows.now }
        ensures says { IsTrue result
            ↔ (IsTrue (formed required levels.now rows.now) × DalMet required levels.now rows.now) }
    {
        Question::new(required, levels, rows).is_some_and(|question| some_option(&question))
    }
}
