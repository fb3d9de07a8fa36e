//! The rules of attempts and closes, over what is filed for the occurrence.
ghost use Rattle.std.specs.Prelude.{◌≡◌};
ghost use Rattle.plain_words.specs.Lists.{first_some};
ghost use Rattle.sched_plain.specs.Attempts.{is_live_attempt};
ghost use Rattle.sched_plain.specs.Rules.{begin_table, end_table, close_table, unless_due, unless_exhausted, same_reason};
ghost use Rattle.step_rules.specs.Looked.{standing_at};

use sched_plain::{Filed, Holder, Last, Moment, Reason, Standing, Why};

fn unless_due(standing: Standing) -> Option<Why>
    ensures { result ≡ unless_due standing }
{
    match standing {
        Standing::Due => None,
        _ => Some(Why::Standing(standing)),
    }
}

/// A Begin of an occurrence: `Unentered` where nothing is filed for it, `Stale` where the epoch is not that of its shard,
/// the standing where it is not due, and `Number` where its number is not one more than those begun. `standing` is where
/// what is filed stands at the step's moment.
pub fn begin_broken(
    held: Holder,
    filed: Option<Filed>,
    standing: Option<Standing>,
    at: Moment,
    inc: u32,
    instant: u64,
    number: u16,
    epoch: u64,
) -> Option<Why>
    requires { standing ≡ standing_at at.0 filed }
    ensures { result ≡ first_some (begin_table held filed at.0 inc instant number epoch) }
{
    let _ = at;
    let (Some(filed), Some(standing)) = (filed, standing) else {
        return Some(Why::Unentered { inc, instant })
    };
    if epoch != held.epoch {
        return Some(Why::Stale { epoch: held.epoch });
    }
    if let Some(why) = unless_due(standing) {
        return Some(why);
    }
    if number as u32 != filed.entry.used as u32 + 1 {
        return Some(Why::Number {
            used: filed.entry.used,
        });
    }
    None
}

fn is_live_attempt(filed: Option<Filed>, number: u16) -> bool
    ensures { result ≡ is_live_attempt filed number }
{
    match filed {
        Some(filed) => number == filed.entry.used && matches!(filed.entry.last, Last::Live { .. }),
        None => false,
    }
}

/// An End is `NotLive` exactly where its attempt is not in the air.
pub fn end_broken(filed: Option<Filed>, number: u16) -> Option<Why>
    ensures { result ≡ first_some (end_table filed number) }
{
    if is_live_attempt(filed, number) {
        None
    } else {
        Some(Why::NotLive)
    }
}

fn same_reason(reason: Reason, other: Reason) -> bool
    ensures { result ≡ same_reason reason other }
{
    match (reason, other) {
        (Reason::Attempts, Reason::Attempts) | (Reason::Age, Reason::Age) => true,
        _ => false,
    }
}

fn unless_exhausted(reason: Reason, standing: Standing) -> Option<Why>
    ensures { result ≡ unless_exhausted reason standing }
{
    match standing {
        Standing::Exhausted(found) => if same_reason(reason, found) {
            None
        } else {
            Some(Why::Standing(standing))
        },
        _ => Some(Why::Standing(standing)),
    }
}

/// A Close of an occurrence: `Unentered` where nothing is filed for it, and the standing where it is not exhausted for
/// this reason. `standing` is where what is filed stands at the step's moment.
pub fn close_broken(
    filed: Option<Filed>,
    standing: Option<Standing>,
    at: Moment,
    inc: u32,
    instant: u64,
    reason: Reason,
) -> Option<Why>
    requires { standing ≡ standing_at at.0 filed }
    ensures { result ≡ first_some (close_table filed at.0 inc instant reason) }
{
    let _ = (filed, at);
    match standing {
        Some(standing) => unless_exhausted(reason, standing),
        None => Some(Why::Unentered { inc, instant }),
    }
}
