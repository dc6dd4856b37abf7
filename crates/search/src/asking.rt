// Which cut set is first not met by the levels that the search is at.

ghost use Rattle.std.specs.Prelude.{◌≡◌, ◌<◌, All};
ghost use Rattle.scale.specs.Question.{answer};
ghost use Rattle.theory.specs.Allocations.{levels_of, meets};
ghost use Rattle.theory.specs.Walks.{filled};
ghost use Rattle.draft.specs.Drafts.{model};
ghost use Rattle.search.specs.State.{path_of, first_unmet};
ghost use Rattle.search.specs.Ties.{RowsTied, PathTied};

use crate::path::Path;
use crate::rows::Rows;
use draft::cut_set::CutSet;
use draft::draft::Draft;
use scale::question::MOST_MEMBERS;
use scale::scale::Scale;
use theory::limits::MOST_PARTS;

// Whether a set is met at the levels of all parts.
fn is_met<S: Scale>(scale: &S, set: &CutSet, rows: &[u8], levels: &[u8; MOST_PARTS]) -> bool
    requires { All (λ m. m < MOST_PARTS) set.now.members }
    ensures { result ≡ answer (S.Scale.means scale.now) set.now.required (levels_of levels.now set.now.members) rows.now }
{
    let members = set.members();
    let mut at = [0; MOST_MEMBERS];
    // An index, since an `ArrayVec` that is pushed to takes a third longer.
    for (i, member) in members.iter().enumerate() {
        at[i] = levels[*member as usize];
    }
    scale.met(set.required(), &at[..members.len()], rows)
}

// The first set that is not met by the path with the parts beyond it at their ceilings, or none.
pub(crate) fn first_unmet<S: Scale>(
    scale: &S,
    draft: &Draft,
    rows: &Rows,
    path: &Path,
) -> Option<u32>
    requires rows { RowsTied (model draft.now) rows.now }
    requires path { PathTied (model draft.now).parts path.now }
    ensures { result ≡ first_unmet (meets (S.Scale.means scale.now) (model draft.now) (filled (model draft.now).parts (path_of path.now))) (model draft.now).sets }
{
    for (i, set) in draft.sets().iter().enumerate() {
        if !is_met(scale, set, &rows[i], &path.levels) {
            return Some(i as u32);
        }
    }
    None
}
