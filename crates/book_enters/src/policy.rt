//! The policy of an Enter.
ghost use Rattle.std.specs.Prelude.{◌≡◌};
ghost use Rattle.std.specs.Option.{option_map};
ghost use Rattle.sched_plain.specs.Ledger.{policy_of, policy_or_none};
ghost use Rattle.sched_plain.specs.Rows.{content_at};

use sched_plain::{Pair, Policy};
use sched_rows::Rows;

/// The policy of no entry.
const NO_POLICY: Policy = Policy { retries: 0, age: 0 };

/// The policy of the content at an instant; that of no entry where there is none.
fn policy_at(rows: &Rows, inc: u32, instant: u64) -> Policy
    ensures { result ≡ policy_or_none (option_map (λ content. content.policy) (content_at rows.now.rows inc instant)) }
{
    match rows.revision_at(inc, instant) {
        Some(content) => content.policy,
        None => NO_POLICY,
    }
}

/// The policy of the content at the first of these pairs; that of no entry where there is none. In a legal history it is
/// the policy at each of them.
pub fn policy_of(rows: &Rows, inc: u32, pairs: &[Pair]) -> Policy
    ensures { result ≡ policy_of rows.now.rows inc pairs.now }
{
    match pairs.first() {
        Some(pair) => policy_at(rows, inc, pair.instant),
        None => NO_POLICY,
    }
}
