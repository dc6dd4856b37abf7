// The rule `sum`: the total price.
ghost use Rattle.std.specs.Prelude.{nat_lt};
ghost use Rattle.cost.specs.Rules.{sum_joined};
ghost use Rattle.std.proofs.Common.{rules};

use crate::quote::Quote;
use crate::rule::CostRule;

#[derive(Clone, Copy, PartialEq, Eq, Debug)]
pub struct Sum;

impl CostRule for Sum {
    type Amount = u64;

    ghost begins = { λ _. 0 };

    ghost joined = { λ _. sum_joined };

    ghost lesser = { λ _. nat_lt };

    ghost laws = { Prim.search rules };

    fn start(&self) -> u64 {
        0
    }

    fn join(&self, amount: u64, quote: Quote) -> u64 {
        amount.saturating_add(u64::from(quote.price))
    }

    fn less(&self, a: u64, b: u64) -> bool {
        a < b
    }
}
