// Which parts are declared independent: a flag for each pair, in the row of its lower number and the column of its higher.

ghost use Rattle.std.specs.Prelude.{◌≡◌, ℕ, ◌<◌, false, ◌≢◌};
ghost use Rattle.theory.specs.Edits.{declared as pair-declared};
ghost use Rattle.draft.specs.Apart.{apart_at};

use theory::limits::MOST_PARTS;

#[derive(Clone, Copy)]
pub struct Apart {
    flags: [[bool; MOST_PARTS]; MOST_PARTS],
}

impl Apart {
    pub(crate) fn new() -> Apart
        ensures { (a b : ℕ) → apart_at result.flags a b ≡ false }
    {
        Apart {
            flags: [[false; MOST_PARTS]; MOST_PARTS],
        }
    }

    // Declares a pair of two parts, or takes its declaration back.
    pub(crate) fn declare(&mut self, a: usize, b: usize, value: bool)
        requires a_stands { a < MOST_PARTS }
        requires b_stands { b < MOST_PARTS }
        requires two { a ≢ b }
        ensures { (x y : ℕ) → apart_at self.new.flags x y ≡ pair-declared (apart_at self.old.flags) a b value x y }
    {
        let row = &mut self.flags[a.min(b)];
        row[a.max(b)] = value;
    }

    pub(crate) fn holds(&self, a: usize, b: usize) -> bool
        requires a_stands { a < MOST_PARTS }
        requires b_stands { b < MOST_PARTS }
        ensures { result ≡ apart_at self.now.flags a b }
    {
        a != b && self.flags[a.min(b)][a.max(b)]
    }
}
