// The rule `staged`: the total price, and among equal prices the total weeks.
ghost use Rattle.cost.specs.Rules.{staged_joined, staged_less};
ghost use Rattle.std.proofs.Common.{rules};

use crate::quote::Quote;
use crate::rule::CostRule;

#[derive(Clone, Copy, PartialEq, Eq, Debug)]
pub struct Staged;

impl CostRule for Staged {
    type Amount = (u64, u64);

    ghost begins = { λ _. (0, 0) };

    ghost joined = { λ _. staged_joined };

    ghost lesser = { λ _. staged_less };

    ghost laws = { Prim.search rules };

    fn start(&self) -> (u64, u64) {
        (0, 0)
    }

    fn join(&self, (price, weeks): (u64, u64), quote: Quote) -> (u64, u64) {
        (
            price.saturating_add(u64::from(quote.price)),
            weeks.saturating_add(u64::from(quote.weeks)),
        )
    }

    fn less(&self, a: (u64, u64), b: (u64, u64)) -> bool {
        a < b
    }
}
