// Who is apart from whom in each cut set, worked out once when a search is opened.

ghost use Rattle.std.specs.Prelude.{◌≡◌};
ghost use Rattle.theory.specs.Allocations.{row, rows};
ghost use Rattle.draft.specs.Drafts.{model};
ghost use Rattle.search.specs.Ties.{RowsTied};

use arrayvec::ArrayVec;
use draft::cut_set::CutSet;
use draft::draft::Draft;
use scale::question::MOST_MEMBERS;
use theory::limits::MOST_SETS;

// For each set, in their order, a row for each of its members.
pub(crate) type Rows = ArrayVec<ArrayVec<u8, MOST_MEMBERS>, MOST_SETS>;

// Whether two parts are apart.
fn apart(draft: &Draft, a: u32, b: u32) -> bool
    ensures { result ≡ (model draft.now).apart a b }
{
    draft.are_apart(a, b).unwrap_or(false)
}

// The row of a part in a set: bit j is set exactly when the part is apart from member j.
fn row_of(draft: &Draft, part: u32, set: &CutSet) -> u8
    ensures { result ≡ row (model draft.now).apart set.now.members part }
{
    let mut bits = 0;
    for (j, member) in set.members().iter().enumerate() {
        if apart(draft, part, *member) {
            bits += 1 << j;
        }
    }
    bits
}

// The rows of a set's members, in their order.
fn rows_of(draft: &Draft, set: &CutSet) -> ArrayVec<u8, MOST_MEMBERS>
    ensures { result.items ≡ rows (model draft.now).apart set.now.members }
{
    let mut rows = ArrayVec::new();
    for member in set.members() {
        rows.push(row_of(draft, *member, set));
    }
    rows
}

// The rows of every set.
pub(crate) fn all_rows(draft: &Draft) -> Rows
    ensures { RowsTied (model draft.now) result }
{
    let mut table = ArrayVec::new();
    for set in draft.sets() {
        table.push(rows_of(draft, set));
    }
    table
}
