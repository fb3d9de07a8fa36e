ghost use Rattle.std.specs.Prelude.{◌≡◌, ◌≤◌};
ghost use Rattle.sched_plain.specs.Standing.{earliest, is_past_age, is_used_up, standing};
ghost use Rattle.policy_rules.specs.LastAttempt.{last_at};

use crate::delays::delay;
use sched_plain::{Entry, LAST_MOMENT, LONGEST_WINDOW, Last, Moment, Policy, Reason, Standing};

/// The latest moment that a window can choose, in seconds since 1970 UTC: the longest window behind the last moment.
pub const LAST_CHOSEN: u64 = LAST_MOMENT + 60 * LONGEST_WINDOW as u64 - 1;

/// Where an entry stands under its policy at a moment: the first that holds of decided, live, exhausted by its attempts,
/// exhausted by its age, waiting for its next attempt, and due. Exactly at its age it is not past it.
pub fn standing(entry: &Entry, policy: Policy, now: Moment) -> Standing
    requires chosen { entry.now.chosen ≤ LAST_CHOSEN }
    requires last { last_at entry.now.last ≤ LAST_CHOSEN }
    ensures { result ≡ standing entry.now policy now.0 }
{
    if let Some(outcome) = entry.outcome {
        return Standing::Decided(outcome);
    }
    if let Last::Live { .. } = entry.last {
        return Standing::Live;
    }
    if is_used_up(*entry, policy) {
        return Standing::Exhausted(Reason::Attempts);
    }
    if is_past_age(*entry, policy, now.0) {
        return Standing::Exhausted(Reason::Age);
    }
    let until = earliest(*entry);
    if now.0 < until {
        Standing::Waiting { until }
    } else {
        Standing::Due
    }
}

/// As many attempts as the policy allows were begun: one, and its retries.
fn is_used_up(entry: Entry, policy: Policy) -> bool
    ensures { result ≡ is_used_up entry policy }
{
    1 + policy.retries as u16 <= entry.used
}

/// This moment, or the earliest of the next attempt, is later than the chosen moment and the age.
fn is_past_age(entry: Entry, policy: Policy, now: u64) -> bool
    requires chosen { entry.chosen ≤ LAST_CHOSEN }
    requires last { last_at entry.last ≤ LAST_CHOSEN }
    ensures { result ≡ is_past_age entry policy now }
{
    let last_moment = entry.chosen + policy.age as u64;
    last_moment < now || last_moment < earliest(entry)
}

/// The earliest moment of the next attempt, in seconds since 1970 UTC.
fn earliest(entry: Entry) -> u64
    requires { last_at entry.last ≤ LAST_CHOSEN }
    ensures { result ≡ earliest entry }
{
    match entry.last {
        Last::NoAttempt => entry.chosen,
        Last::Live { at } | Last::Lost { at } | Last::Ended { at } => at + delay(entry.used),
    }
}
