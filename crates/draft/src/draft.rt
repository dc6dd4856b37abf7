// A draft: a project while it is edited, with its laws in its type and all its memory taken once.

ghost use Rattle.std.specs.Prelude.{◌≤◌, vec_capacity};
ghost use Rattle.theory.specs.Model.{Sound};
ghost use Rattle.theory.specs.declared.limits.TheConstants.{MOST_PARTS, MOST_SETS};
ghost use Rattle.draft.specs.Views.{view};
ghost use Rattle.draft.specs.Props.{Sound-prop};

use crate::apart::Apart;
use crate::cut_set::CutSet;
use crate::parts::Parts;

// Making, emptying and letting go of a draft.
mod life;

// The five edits.
mod edits;

// What stands in a draft.
mod reading;

pub struct Draft {
    parts: Parts,
    apart: Apart,
    sets: Vec<CutSet>,
    // There is room for all parts and sets that may ever stand, so no edit allocates.
    ghost part_room: { MOST_PARTS ≤ vec_capacity parts.records },
    ghost set_room: { MOST_SETS ≤ vec_capacity sets },
    // The project is sound.
    ghost sound: { Sound (view parts.records.items apart.flags sets.items) } by { Sound-prop (view parts.records.items apart.flags sets.items) },
}
