// The trait that every integrity scale implements: a fixed meaning, its laws, and the call that answers by it.

ghost use Rattle.std.specs.Prelude.{◌≡◌};
ghost use Rattle.scale.specs.Question.{Meaning, Laws, ZeroMet, answer};

pub trait Scale {
    // A yes or no for each question.
    ghost means: { Self → Meaning };

    // Whether members at these levels, apart as the rows say, meet the required level; three values and no `Question`, since
    // anybody may ask anything.
    fn met(&self, required: u8, levels: &[u8], rows: &[u8]) -> bool
        ensures { result ≡ answer (means self.now) required levels.now rows.now };

    // Raise, Reach and Bottom.
    ghost laws: { (s : Self) → Laws (means s) };
}

// Under every scale a well-formed question that requires level 0 is met.
pub fn zero_is_met<S: Scale>(scale: &S)
    ensures { ZeroMet (S.Scale.means scale.now) }
{}
