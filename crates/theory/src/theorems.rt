// The theorems, each on the contract of a small function, so that the check asks for its proof.

ghost use Rattle.scale.specs.Question.{Meaning};
ghost use Rattle.theory.specs.Allocations.{Rule, RowsRight};
ghost use Rattle.theory.specs.Calls.{CallsRight};
ghost use Rattle.theory.specs.Partials.{PartialsCounted};
ghost use Rattle.theory.specs.Promise.{SearchExact};
ghost use Rattle.theory.specs.Histories.{HistoriesRight};

// The rows of a set's members have just the bits of those that are apart.
pub fn rows_are_right()
    ensures { RowsRight }
{}

// The listing has exactly the partial allocations, each once, and their number is the formula's.
pub fn partials_are_counted()
    ensures { PartialsCounted }
{}

// Each call does what is told of it fault by fault, whatever the type of the amounts.
pub fn calls_are_right<A>()
    ensures { CallsRight A }
{}

// The search is exact, whatever the type of the amounts.
pub fn search_is_exact<A>()
    ensures { SearchExact A }
{}

// Scales of any kinds, by what each value of the type means.
pub trait Scales {
    ghost scale: { Self → Meaning };
}

// Cost rules of any kinds, each value with its own type of amounts.
pub trait Rules {
    ghost amount: { Self → Type 0 };

    ghost rule: { (r : Self) → Rule (amount r) };
}

// Every history is right, whose openings may each have a scale and a rule of its own kind.
pub fn histories_are_right<S: Scales, R: Rules>()
    ensures { HistoriesRight (record { Scales = S; Rules = R; Amount = R.Rules.amount; means = S.Scales.scale; rule = R.Rules.rule }) }
{}
