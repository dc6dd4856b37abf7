// Projects with known searches, as theorems about the definitions with the real scales and cost rules.

ghost use Rattle.theory.specs.Reference.{Reference};

// The table of known answers and searches holds.
pub fn reference_holds()
    ensures { Reference }
{}
