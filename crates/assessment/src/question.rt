// A question that was read: the required level, the members' levels and the row of each member.

ghost use Rattle.std.specs.Prelude.{◌≡◌, take};
ghost use Rattle.arrayvec.specs.ArrayVec.{array_vec_len};
ghost use Rattle.scale.specs.Question.{answer};
ghost use Rattle.assessment.specs.Scales.{meaning_of};

use arrayvec::ArrayVec;
use scale::question::MOST_MEMBERS;
use scale::scale::Scale;
use standard::words::Standard;

// The levels of a cut set's members.
pub type Levels = ArrayVec<u8, MOST_MEMBERS>;

#[derive(Drop)]
pub struct Question {
    pub standard: Standard,
    pub required: u8,
    pub levels: Levels,
    // A scale asks for the rows as a slice of their own; those past the members are empty.
    pub rows: [u8; MOST_MEMBERS],
}

impl Question {
    // Whether the members meet the required level.
    pub fn met(&self) -> bool
        ensures { result ≡ answer (meaning_of self.now.standard) self.now.required self.now.levels.items (take (array_vec_len self.now.levels) self.now.rows) }
    {
        let levels = self.levels.as_slice();
        let rows = &self.rows[..levels.len()];
        self.standard.met(self.required, levels, rows)
    }
}
