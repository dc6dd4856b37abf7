// Questions with known answers, as theorems about what the scales answer.

ghost use Rattle.standard.specs.Reference.{Reference};

// The table of known answers holds.
pub fn reference_holds()
    ensures { Reference }
{}
