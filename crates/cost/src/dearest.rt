// The rule `dearest`: the greatest price.
ghost use Rattle.std.specs.Prelude.{nat_lt};
ghost use Rattle.cost.specs.Rules.{dearest_joined};
ghost use Rattle.std.proofs.Common.{rules};

use crate::quote::Quote;
use crate::rule::CostRule;

#[derive(Clone, Copy, PartialEq, Eq, Debug)]
pub struct Dearest;

impl CostRule for Dearest {
    type Amount = u32;

    ghost begins = { λ _. 0 };

    ghost joined = { λ _. dearest_joined };

    ghost lesser = { λ _. nat_lt };

    ghost laws = { Prim.search rules };

    fn start(&self) -> u32 {
        0
    }

    fn join(&self, amount: u32, quote: Quote) -> u32 {
        amount.max(quote.price)
    }

    fn less(&self, a: u32, b: u32) -> bool {
        a < b
    }
}
