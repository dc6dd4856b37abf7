// One rule made of two: a value follows the rule of its side, and so do its amounts.
ghost use Rattle.either.specs.Either.{map_either};
ghost use Rattle.cost.specs.OneOfTwo.{joined_of, lesser_of};
ghost use Rattle.cost.specs.Sides.{either_laws};

use crate::quote::Quote;
use crate::rule::CostRule;
use either::{Either, Left, Right};

impl<A: CostRule, B: CostRule> CostRule for Either<A, B> {
    type Amount = Either<A::Amount, B::Amount>;

    ghost begins = { map_either A.CostRule.begins B.CostRule.begins };

    ghost joined = { joined_of A.CostRule.joined B.CostRule.joined };

    ghost lesser = { lesser_of A.CostRule.lesser B.CostRule.lesser };

    ghost laws = { either_laws A.CostRule.joined B.CostRule.joined A.CostRule.lesser B.CostRule.lesser A.CostRule.laws B.CostRule.laws };

    fn start(&self) -> Either<A::Amount, B::Amount> {
        either::map_both!(self, rule => rule.start())
    }

    fn join(
        &self,
        amount: Either<A::Amount, B::Amount>,
        quote: Quote,
    ) -> Either<A::Amount, B::Amount> {
        match self {
            Left(a) => amount.map_left(|m| a.join(m, quote)),
            Right(b) => amount.map_right(|n| b.join(n, quote)),
        }
    }

    fn less(&self, a: Either<A::Amount, B::Amount>, b: Either<A::Amount, B::Amount>) -> bool {
        match (self, a, b) {
            (Left(rule), Left(x), Left(y)) => rule.less(x, y),
            (Right(rule), Right(x), Right(y)) => rule.less(x, y),
            (_, Left(_), Right(_)) => true,
            _ => false,
        }
    }
}
