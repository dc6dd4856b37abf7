// Each rule on a table worked by hand, its order and its stop, and the words and texts.
use crate::dearest::Dearest;
use crate::quote::Quote;
use crate::rule::CostRule;
use crate::staged::Staged;
use crate::sum::Sum;
use crate::text::AmountText;
use crate::total::{cost, total_price};
use crate::words::{AnyRule, RuleWord};
use either::Right;
use std::test::Fail;

// Two quotes, each a price and weeks; then their cost under `sum`, `dearest` and `staged`.
const TABLE: [([(u32, u32); 2], u64, u32, (u64, u64)); 4] = [
    ([(0, 0), (0, 0)], 0, 0, (0, 0)),
    ([(20, 2), (25, 2)], 45, 25, (45, 4)),
    ([(80, 8), (70, 9)], 150, 80, (150, 17)),
    (
        [(4294967295, 1), (1, 4)],
        4294967296,
        4294967295,
        (4294967296, 5),
    ),
];

// No `From`, which would be public for the tests alone.
fn made((price, weeks): (u32, u32)) -> Quote {
    Quote { price, weeks }
}

#[test]
fn costs(rt: HostRuntime) {
    for (pair, sum, dearest, staged) in TABLE {
        let quotes = pair.map(made);
        assert!(rt; cost(&Sum, &quotes) == sum);
        assert!(rt; cost(&Dearest, &quotes) == dearest);
        assert!(rt; cost(&Staged, &quotes) == staged);
        assert!(rt; total_price(&quotes) == sum);
    }
}

#[test]
fn orders(rt: HostRuntime) {
    assert!(rt; Sum.less(44, 45) && !Sum.less(45, 45));
    assert!(rt; Dearest.less(24, 25) && !Dearest.less(25, 25));
    assert!(rt; Staged.less((44, 9), (45, 0)) && !Staged.less((45, 0), (44, 9)));
    assert!(rt; Staged.less((45, 3), (45, 4)) && !Staged.less((45, 4), (45, 4)));
    assert!(rt; Sum.join(u64::MAX - 1, made((2, 0))) == u64::MAX);
}

// Whether the word names a rule that prints it again.
fn is_word(word: &[u8]) -> bool {
    AnyRule::read(word).is_some_and(|rule| rule.word().as_bytes() == word)
}

#[test]
fn words(rt: HostRuntime) {
    assert!(rt; is_word(b"sum") && is_word(b"dearest") && is_word(b"staged"));
    assert!(rt; !is_word(b"sums") && !is_word(b"Sum") && !is_word(b""));
}

#[test]
fn texts(rt: HostRuntime) -> Result<(), Fail> {
    let rule: AnyRule = Right(Right(Staged));
    let amount = cost(&rule, &[made((20, 2)), made((25, 2))]);
    let text = rule.text(rt.alloc(), amount)?;
    assert!(rt; text.as_str() == "45 4");
    let text = Sum.text(rt.alloc(), u64::MAX)?;
    assert!(rt; text.as_str() == "18446744073709551615");
    Ok(())
}
