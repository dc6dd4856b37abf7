// The text of an amount.
ghost use Rattle.std.specs.Prelude.{◌≡◌, ℕ, List, IfOk, string_bytes, decimal};
ghost use Rattle.cost.specs.Texts.{staged_text, text_of};

use crate::dearest::Dearest;
use crate::rule::CostRule;
use crate::staged::Staged;
use crate::sum::Sum;
use either::{Either, Left, Right};
use std::alloc::{AllocError, Global};

// Rules whose amounts can be printed; each prints its own kind, since one impl for all amounts with `Display` would meet that
// of `Staged`, whose amount is a pair.
pub trait AmountText: CostRule {
    // The bytes that are printed of an amount.
    ghost shown: { Self → Self.Amount → List ℕ };

    fn text(&self, heap: Global, amount: Self::Amount) -> Result<String, AllocError>
        ensures { IfOk result (λ text. string_bytes text ≡ shown self.now amount) };
}

impl AmountText for Sum {
    ghost shown = { λ _. decimal };

    fn text(&self, heap: Global, amount: u64) -> Result<String, AllocError> {
        format!(in heap; "{amount}")
    }
}

impl AmountText for Dearest {
    ghost shown = { λ _. decimal };

    fn text(&self, heap: Global, amount: u32) -> Result<String, AllocError> {
        format!(in heap; "{amount}")
    }
}

impl AmountText for Staged {
    ghost shown = { λ _. staged_text };

    fn text(&self, heap: Global, (price, weeks): (u64, u64)) -> Result<String, AllocError> {
        format!(in heap; "{price} {weeks}")
    }
}

impl<A: AmountText, B: AmountText> AmountText for Either<A, B> {
    ghost shown = { text_of A.AmountText.shown B.AmountText.shown };

    fn text(
        &self,
        heap: Global,
        amount: Either<A::Amount, B::Amount>,
    ) -> Result<String, AllocError> {
        match (self, amount) {
            (Left(a), Left(m)) => a.text(heap, m),
            (Right(b), Right(n)) => b.text(heap, n),
            _ => Ok(String::new(heap)),
        }
    }
}
