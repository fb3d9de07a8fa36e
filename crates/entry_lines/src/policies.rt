//! The policies of one incarnation's entries.
ghost use Rattle.std.specs.Prelude.{◌≡◌, ◌≤◌, ◌<◌, ◌+◌, ◌-◌, ◌++◌, ◌∷◌, [], ℕ, true, length, slice_index_or, vec_len, vec_capacity};
ghost use Rattle.entry_lines.specs.Rows.{no_policy};
ghost use Rattle.entry_lines.specs.Laid.{IsKept};

use sched_plain::Policy;

/// The place of a policy, which is added behind the others where it is not the last one.
pub fn place_of(policies: &mut Vec<Policy>, policy: Policy) -> usize
    requires { vec_len policies.old < vec_capacity policies.old }
    ensures { IsKept policies.old.items policies.new.items policy result }
{
    if ends_with(policies, policy) {
        policies.len() - 1
    } else {
        put_last(policies, policy)
    }
}

/// Adds a policy, and answers its place.
fn put_last(policies: &mut Vec<Policy>, policy: Policy) -> usize
    requires { vec_len policies.old < vec_capacity policies.old }
    ensures items { policies.new.items ≡ policies.old.items ++ policy ∷ [] }
    ensures place { result ≡ length policies.old.items }
{
    let place = policies.len();
    let _ = policies.push(policy);
    place
}

/// Whether a policy is the last one.
fn ends_with(policies: &[Policy], policy: Policy) -> bool
    ensures some { result ≡ true → 0 < length policies.now }
    ensures last { result ≡ true → slice_index_or policies.now (length policies.now - 1) no_policy ≡ policy }
{
    if policies.is_empty() {
        return false;
    }
    is_same(policies[policies.len() - 1], policy)
}

fn is_same(one: Policy, other: Policy) -> bool
    ensures { result ≡ true → one ≡ other }
{
    one.retries == other.retries && one.age == other.age
}
