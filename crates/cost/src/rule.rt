// What a cost rule is: a start amount, the joining of a quote to an amount, and an order of amounts.
ghost use Rattle.std.specs.Prelude.{◌≡◌, Bool};
ghost use Rattle.cost.specs.declared.quote.Quote.{Quote};
ghost use Rattle.cost.specs.Laws.{CostLaws};

use crate::quote::Quote;

// A rule's meaning is fixed by its value, so that one type may hold several rules.
pub trait CostRule {
    // Each rule has its own kind of amount.
    type Amount: Copy;

    // The amount of no quote.
    ghost begins: { Self → Self.Amount };

    // An amount with one quote more.
    ghost joined: { Self → Self.Amount → Quote → Self.Amount };

    // Whether the first of two amounts is less.
    ghost lesser: { Self → Self.Amount → Self.Amount → Bool };

    fn start(&self) -> Self::Amount
        ensures { result ≡ begins self.now };

    fn join(&self, amount: Self::Amount, quote: Quote) -> Self::Amount
        ensures { result ≡ joined self.now amount quote };

    fn less(&self, a: Self::Amount, b: Self::Amount) -> bool
        ensures { result ≡ lesser self.now a b };

    // One record, handed on whole, so that a law can be added.
    ghost laws: { (c : Self) → CostLaws (joined c) (lesser c) };
}
