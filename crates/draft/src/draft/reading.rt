// What stands in a draft.

ghost use Rattle.std.specs.Prelude.{◌≡◌, length};
ghost use Rattle.std.specs.Option.{option_copied};
ghost use Rattle.std.specs.List.{slice_get};
ghost use Rattle.theory.specs.Model.{Sound};
ghost use Rattle.draft.specs.Drafts.{model, apart_answer};

use super::Draft;
use crate::cut_set::CutSet;
use theory::part::Part;

impl Draft {
    pub fn part_count(&self) -> u32
        ensures { result ≡ length (model self.now).parts }
    {
        self.parts.count() as u32
    }

    pub fn set_count(&self) -> u32
        ensures { result ≡ length (model self.now).sets }
    {
        self.sets.len() as u32
    }

    // The parts, in the order of their numbers.
    pub fn parts(&self) -> &[Part]
        ensures value { result.now ≡ (model self.now).parts }
        ensures sound { Sound (model self.now) }
    {
        self.parts.all()
    }

    // The cut sets, in the order of their numbers.
    pub fn sets(&self) -> &[CutSet]
        ensures value { result.now ≡ (model self.now).sets }
        ensures sound { Sound (model self.now) }
    {
        self.sets.as_slice()
    }

    // A part's record, or none where no such part stands.
    pub fn part_at(&self, number: u32) -> Option<Part>
        ensures { result ≡ slice_get (model self.now).parts number }
    {
        self.parts().get(number as usize).copied()
    }

    // A cut set, or none where no such set stands.
    pub fn set_at(&self, number: u32) -> Option<&CutSet>
        ensures { option_copied result ≡ slice_get (model self.now).sets number }
    {
        self.sets().get(number as usize)
    }

    // Whether two parts are declared independent, or none where one of them does not stand.
    pub fn are_apart(&self, a: u32, b: u32) -> Option<bool>
        ensures { result ≡ apart_answer (model self.now) a b }
    {
        let a = self.parts.place(a).ok()?;
        let b = self.parts.place(b).ok()?;
        Some(self.apart.holds(a, b))
    }
}
