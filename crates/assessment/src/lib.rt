// What one line of input is answered with.
#![tactic(auto)]

mod question;
mod reading;

ghost use Rattle.std.specs.Prelude.{◌≡◌, ◌↔◌, true, false, Some};
ghost use Rattle.assessment.specs.Question.{Asks, AsksNothing};
ghost use Rattle.assessment.specs.Reading.{assessed};
ghost use Rattle.assessment.specs.Texts.{text_of};

use crate::reading::read_question;
use std::fmt;

#[derive(Clone, Copy, PartialEq, Eq, Debug)]
pub enum Assessment {
    Met,
    NotMet,
    Refused,
}

impl Assessment {
    // The text that is printed of it.
    pub fn text(&self) -> &str
        ensures { result.now ≡ text_of self.now }
    {
        match self {
            Assessment::Met => "met",
            Assessment::NotMet => "not met",
            Assessment::Refused => "refused",
        }
    }
}

impl fmt::Display for Assessment {
    ghost output = { λ a. Some (text_of a) };

    fn fmt<W: fmt::Write>(&self, f: &mut fmt::Formatter<W>) -> fmt::Result {
        f.pad(self.text())
    }
}

// Whether the members of the question that a line writes meet the level that it requires; a line that writes none is
// refused.
pub fn assess(line: &[u8]) -> Assessment
    ensures value { result ≡ assessed line.now }
    ensures met { (result ≡ Assessment.Met) ↔ Asks line.now true }
    ensures not_met { (result ≡ Assessment.NotMet) ↔ Asks line.now false }
    ensures refused { (result ≡ Assessment.Refused) ↔ AsksNothing line.now }
{
    let Some(question) = read_question(line) else {
        return Assessment::Refused;
    };
    if question.met() {
        Assessment::Met
    } else {
        Assessment::NotMet
    }
}
