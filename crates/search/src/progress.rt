// How far a search is: running, perhaps with a best plan, settled with it, or blocked by a set.

ghost use Rattle.std.specs.Prelude.{◌≡◌};
ghost use Rattle.search.specs.State.{is_running, verdict_of};

use crate::path::Path;
use theory::verdict::Verdict;

// A path that covers every part, with its amount.
#[derive(Clone, Copy)]
pub struct Best<A> {
    pub path: Path,
    pub amount: A,
}

#[derive(Clone, Copy)]
pub enum Progress<A> {
    Running(Option<Best<A>>),
    Settled(Best<A>),
    Blocked(u32),
}

impl<A: Copy> Progress<A> {
    pub(crate) fn is_running(&self) -> bool
        ensures { result ≡ is_running self.now }
    {
        matches!(self, Progress::Running(_))
    }

    pub(crate) fn verdict(&self) -> Verdict<A>
        ensures { result ≡ verdict_of self.now }
    {
        match self {
            Progress::Running(_) => Verdict::Running,
            Progress::Settled(best) => Verdict::Settled(best.amount),
            Progress::Blocked(set) => Verdict::Blocked(*set),
        }
    }
}
