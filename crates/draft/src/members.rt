// What is asked of the members of a cut set before it is stored.

ghost use Rattle.std.specs.Prelude.{◌≡◌};
ghost use Rattle.theory.specs.Edits.{all_stand, ascending as ascending-test};

// Whether every member is one of the parts.
pub(crate) fn all_stand(members: &[u32], count: usize) -> bool
    ensures { result ≡ all_stand count members.now }
{
    members.iter().all(|member| (*member as usize) < count)
}

// Whether each member is below the next.
pub(crate) fn ascending(members: &[u32]) -> bool
    ensures { result ≡ ascending-test members.now }
{
    members.is_sorted_by(|a, b| a < b)
}
