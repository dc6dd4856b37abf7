// The five edits of a draft: each does what it names, or refuses and leaves the draft as it was.

ghost use Rattle.std.specs.Prelude.{◌≡◌, ℕ, ◌<◌, ◌≤◌, ◌⊎◌, false, IfOk, OnErr, MatchResult};
ghost use Rattle.theory.specs.Edits.{numbered, part_call, range_call, apart_call, cut_call, drop_call, part, range, pair, cut, drop_set};
ghost use Rattle.draft.specs.Drafts.{model, Brings};

use super::Draft;
use crate::cut_set::CutSet;
use crate::members::{all_stand, ascending};
use crate::parts::part_record;
use cost::quote::Quote;
use scale::question::{HIGHEST, LEVELS, MOST_MEMBERS};
use theory::limits::{MOST_PARTS, MOST_SETS};
use theory::refusal::Refusal;

// A range of levels goes from a floor up to a ceiling.
fn check_range(floor: u8, ceiling: u8) -> Result<(), Refusal>
    ensures { MatchResult result
        (λ _. (floor ≤ ceiling) × (ceiling ≤ HIGHEST))
        (λ refusal. (refusal ≡ Refusal.NoRange) × ((HIGHEST < ceiling) ⊎ (ceiling < floor))) }
{
    if floor <= ceiling && ceiling <= HIGHEST {
        Ok(())
    } else {
        Err(Refusal::NoRange)
    }
}

impl Draft {
    // Appends a part that is apart from none, and answers its number.
    pub fn part(&mut self, floor: u8, ceiling: u8, quotes: [Quote; LEVELS]) -> Result<u32, Refusal>
        ensures does { (numbered result, model self.new) ≡ part_call (model self.old) floor ceiling quotes }
        ensures kept { OnErr result (self.new ≡ self.old) }
        ensures history { Brings (model self.old) (part floor ceiling quotes) (model self.new) }
        ensures apart_from_none { IfOk result (λ n. (b : ℕ) → (model self.new).apart n b ≡ false) }
    {
        let number = self.parts.count();
        if number >= MOST_PARTS {
            return Err(Refusal::TooManyParts);
        }
        check_range(floor, ceiling)?;
        self.parts.add(part_record(floor, ceiling, quotes));
        Ok(number as u32)
    }

    // Gives one part another floor and ceiling, and changes no other record.
    pub fn range(&mut self, number: u32, floor: u8, ceiling: u8) -> Result<(), Refusal>
        ensures does { (numbered result, model self.new) ≡ range_call (model self.old) number floor ceiling }
        ensures kept { OnErr result (self.new ≡ self.old) }
        ensures history { Brings (model self.old) (range number floor ceiling) (model self.new) }
    {
        let place = self.parts.place(number)?;
        check_range(floor, ceiling)?;
        let lent = self.parts.record(place);
        lent.floor = floor;
        lent.ceiling = ceiling;
        Ok(())
    }

    // Declares two parts independent, or takes that back; doing either twice is accepted.
    pub fn apart(&mut self, a: u32, b: u32, value: bool) -> Result<(), Refusal>
        ensures does { (numbered result, model self.new) ≡ apart_call (model self.old) a b value }
        ensures kept { OnErr result (self.new ≡ self.old) }
        ensures history { Brings (model self.old) (pair a b value) (model self.new) }
    {
        let a = self.parts.place(a)?;
        let b = self.parts.place(b)?;
        if a == b {
            return Err(Refusal::SamePart);
        }
        self.apart.declare(a, b, value);
        Ok(())
    }

    // Appends a cut set, and answers its number.
    pub fn cut(&mut self, required: u8, members: &[u32]) -> Result<u32, Refusal>
        ensures does { (numbered result, model self.new) ≡ cut_call (model self.old) required members.now }
        ensures kept { OnErr result (self.new ≡ self.old) }
        ensures history { Brings (model self.old) (cut required members.now) (model self.new) }
    {
        let number = self.sets.len();
        if number >= MOST_SETS {
            return Err(Refusal::TooManySets);
        }
        if required == 0 || required > HIGHEST {
            return Err(Refusal::NoRequiredLevel);
        }
        if members.is_empty() || members.len() > MOST_MEMBERS {
            return Err(Refusal::NoMemberCount);
        }
        if !all_stand(members, self.parts.count()) {
            return Err(Refusal::NoSuchPart);
        }
        if !ascending(members) {
            return Err(Refusal::NotAscending);
        }
        self.sets.push_reserved(CutSet::new(required, members));
        Ok(number as u32)
    }

    // Removes a cut set; each later one moves down by one number.
    pub fn drop_set(&mut self, number: u32) -> Result<(), Refusal>
        ensures does { (numbered result, model self.new) ≡ drop_call (model self.old) number }
        ensures kept { OnErr result (self.new ≡ self.old) }
        ensures history { Brings (model self.old) (drop_set number) (model self.new) }
    {
        let number = number as usize;
        if number >= self.sets.len() {
            return Err(Refusal::NoSuchSet);
        }
        let _ = self.sets.remove(number);
        Ok(())
    }
}
