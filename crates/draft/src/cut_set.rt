// A minimal cut set: the level that it requires, and its one to eight members by part number.

ghost use Rattle.std.specs.Prelude.{◌≡◌, ◌≤◌, length};

use scale::question::MOST_MEMBERS;
use std::marker::Model;

#[derive(Clone, Copy)]
pub struct CutSet {
    required: u8,
    // How many of the places below are members; the others hold 0.
    count: usize,
    members: [u32; MOST_MEMBERS],
}

// A clause sees the set of the model, which says what every place holds, so equal sets are equal in every place.
impl Model for CutSet {
    ghost use Rattle.std.specs.Prelude.{take};
    ghost use Rattle.theory.specs.Model.{CutSet as Set};

    ghost Value = { Set };

    ghost use Rattle.draft.specs.Stored.{Filled, stored_set, stored_view};

    ghost view = { λ set. record { required = set.required; members = take set.count set.members } };

    ghost invariant = { Filled };

    ghost inverse = { stored_set };

    ghost inverse_ok = { stored_view };
}

impl CutSet {
    pub(crate) fn new(required: u8, members: &[u32]) -> CutSet
        requires { length members.now ≤ MOST_MEMBERS }
        ensures { result ≡ record { required = required; members = members.now } }
    {
        let count = members.len();
        let mut places = [0; MOST_MEMBERS];
        places[..count].copy_from_slice(members);
        CutSet {
            required,
            count,
            members: places,
        }
    }

    // The level that the set requires.
    pub fn required(&self) -> u8
        ensures { result ≡ self.now.required }
    {
        self.required
    }

    // The numbers of the set's members, in ascending order.
    pub fn members(&self) -> &[u32]
        ensures value { result.now ≡ self.now.members }
        ensures few { length result.now ≤ MOST_MEMBERS }
    {
        &self.members[..self.count]
    }
}
