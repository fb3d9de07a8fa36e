//! The number that an entry is found by: the moment from which on something is to be done for it.
ghost use Rattle.std.specs.Prelude.{◌≡◌, ◌≤◌};
ghost use Rattle.ledger_rows.specs.Numbers.{bound_at, wants, wants_at};
ghost use Rattle.ledger_rows.specs.Rows.{IsSmallFiled};

use min_tree::ABOVE_ALL;
use policy_rules::standing;
use sched_plain::{Filed, Moment, Standing};

/// The number of an entry whose attempt is in the air. That of a decided one is `ABOVE_ALL`.
pub const IN_AIR: u64 = ABOVE_ALL - 1;

/// No moment of something to do is later.
const LAST_BOUND: u64 = ABOVE_ALL - 2;

/// The number of an entry.
#[tactic(auto, unfolding(crate::specs::Numbers::wants))]
pub fn wants(filed: &Filed) -> u64
    requires { IsSmallFiled filed.now }
    ensures { result ≡ wants filed.now }
{
    // At moment 0 no age is past, but for that of a wait that ends beyond it.
    let standing = standing(&filed.entry, filed.policy, Moment(0));
    wants_at(standing, filed.entry.chosen)
}

fn wants_at(standing: Standing, chosen: u64) -> u64
    ensures { result ≡ wants_at standing chosen }
{
    match standing {
        Standing::Decided(_) => ABOVE_ALL,
        Standing::Live => IN_AIR,
        Standing::Exhausted(_) | Standing::Due => chosen,
        Standing::Waiting { until } => chosen.max(until),
    }
}

/// The greatest number of an entry that something is to be done for at a moment.
pub fn bound_at(now: u64) -> u64
    ensures { result ≡ bound_at now }
{
    now.min(LAST_BOUND)
}
