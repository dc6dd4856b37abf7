// The word of each rule in a sheet.
ghost use Rattle.std.specs.Prelude.{◌≡◌, ℕ, List, [], ◌∷◌, codes, Option, refl};
ghost use Rattle.cost.specs.Words.{Inverse, rule_if, first_of, rule_named, any_rules, any_word, any_named};
ghost use Rattle.cost.specs.Naming.{one_inverse, any_inverse, any_listed};

use crate::dearest::Dearest;
use crate::rule::CostRule;
use crate::staged::Staged;
use crate::sum::Sum;
use either::{Either, Left, Right};

// Rules that a sheet can name, no two by one word.
pub trait RuleWord: CostRule {
    // The word of a rule.
    ghost spelled: { Self → List ℕ };

    // The rule that a word names.
    ghost named: { List ℕ → Option Self };

    fn word(&self) -> &str
        ensures { result.now ≡ spelled self.now };

    fn read(word: &[u8]) -> Option<Self>
    where
        Self: Sized,
        ensures { result ≡ named word.now };

    ghost inverse: { Inverse spelled named };
}

// Rules of a type that can list them all; it asks more of the type than a word does, so it is a trait of its own.
pub trait RuleList: RuleWord + Copy + 'static {
    // Each rule of the type.
    ghost rules: { List Self };

    fn rules() -> &'static [Self]
        ensures { result.now ≡ rules };

    // A word is read as the first rule of the list whose word it is.
    ghost listed: { (word : List ℕ) → Self.RuleWord.named word ≡ rule_named Self.RuleWord.spelled rules word };
}

// Any of the three rules, so that one text of a program serves whichever a sheet names.
pub type AnyRule = Either<Sum, Either<Dearest, Staged>>;

// The rule, where the word is its own.
fn rule_if<C: Copy>(own: &str, rule: C, word: &[u8]) -> Option<C>
    ensures { result ≡ rule_if own.now rule word.now }
{
    (word == own.as_bytes()).then_some(rule)
}

// The first of two answers that is some.
fn first_of<A: Copy, B: Copy>(one: Option<A>, other: Option<B>) -> Option<Either<A, B>>
    ensures { result ≡ first_of one other }
{
    match (one, other) {
        (Some(a), _) => Some(Left(a)),
        (None, Some(b)) => Some(Right(b)),
        (None, None) => None,
    }
}

impl RuleWord for Sum {
    ghost spelled = { λ _. codes "sum" };

    ghost named = { rule_if (codes "sum") (record {}) };

    ghost inverse = { one_inverse (codes "sum") (record {}) (λ _. refl) };

    fn word(&self) -> &str {
        "sum"
    }

    fn read(word: &[u8]) -> Option<Sum> {
        rule_if(Sum.word(), Sum, word)
    }
}

impl RuleWord for Dearest {
    ghost spelled = { λ _. codes "dearest" };

    ghost named = { rule_if (codes "dearest") (record {}) };

    ghost inverse = { one_inverse (codes "dearest") (record {}) (λ _. refl) };

    fn word(&self) -> &str {
        "dearest"
    }

    fn read(word: &[u8]) -> Option<Dearest> {
        rule_if(Dearest.word(), Dearest, word)
    }
}

impl RuleWord for Staged {
    ghost spelled = { λ _. codes "staged" };

    ghost named = { rule_if (codes "staged") (record {}) };

    ghost inverse = { one_inverse (codes "staged") (record {}) (λ _. refl) };

    fn word(&self) -> &str {
        "staged"
    }

    fn read(word: &[u8]) -> Option<Staged> {
        rule_if(Staged.word(), Staged, word)
    }
}

impl RuleWord for AnyRule {
    ghost spelled = { any_word };

    ghost named = { any_named };

    ghost inverse = { any_inverse };

    fn word(&self) -> &str {
        match self {
            Left(rule) => rule.word(),
            Right(Left(rule)) => rule.word(),
            Right(Right(rule)) => rule.word(),
        }
    }

    fn read(word: &[u8]) -> Option<AnyRule> {
        first_of(
            Sum::read(word),
            first_of(Dearest::read(word), Staged::read(word)),
        )
    }
}

impl RuleList for Sum {
    ghost rules = { record {} ∷ [] };

    ghost listed = { λ word. refl };

    fn rules() -> &'static [Sum] {
        &[Sum]
    }
}

impl RuleList for Dearest {
    ghost rules = { record {} ∷ [] };

    ghost listed = { λ word. refl };

    fn rules() -> &'static [Dearest] {
        &[Dearest]
    }
}

impl RuleList for Staged {
    ghost rules = { record {} ∷ [] };

    ghost listed = { λ word. refl };

    fn rules() -> &'static [Staged] {
        &[Staged]
    }
}

impl RuleList for AnyRule {
    ghost rules = { any_rules };

    ghost listed = { any_listed };

    fn rules() -> &'static [AnyRule] {
        &[Left(Sum), Right(Left(Dearest)), Right(Right(Staged))]
    }
}
