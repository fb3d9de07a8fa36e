//! The first occurrence whose attempt is waited for, found among the attempts in the air.
ghost use Rattle.std.specs.Prelude.{◌≡◌, ◌≤◌, IfSome, IfNone, Some, None};
ghost use Rattle.ledger_rows.specs.Rows.{IsSmallFiled};
ghost use Rattle.ledger_rows.specs.State.{AreFlown, filed_in, lane_of};
ghost use Rattle.ledger_rows.specs.Waiting.{earlier, first_with, is_waited};
ghost use Rattle.ledger_rows.specs.Wanting.{IsFirstOf, answers, asks};

use crate::lane::{Lane, filed_of};
use crate::question::Question;
use crate::row::Flight;
use policy_rules::standing;
use sched_plain::{Filed, Moment, Standing, shard_of};

/// The first occurrence of a shard, by incarnation and instant, whose entry is live.
pub fn first_live_of(lanes: &[Lane], flights: &[Flight], shard: u8) -> Option<(u32, u64)>
    requires { AreFlown lanes.now flights.now }
    ensures { IsFirstOf (λ i k. answers Question.ToWait (filed_in lanes.now i k)) shard result }
{
    let mut first = None;
    for flight in flights {
        first = first_with(lanes, shard, first, *flight);
    }
    first
}

/// The first one so far, with one more attempt in the air looked at.
fn first_with(
    lanes: &[Lane],
    shard: u8,
    first: Option<(u32, u64)>,
    flight: Flight,
) -> Option<(u32, u64)>
    ensures { result ≡ first_with lanes.now shard first flight }
{
    if shard_of(flight.inc) == shard && is_waited(lanes, flight) {
        Some(earlier(first, flight))
    } else {
        first
    }
}

fn is_waited(lanes: &[Lane], flight: Flight) -> bool
    ensures { result ≡ is_waited lanes.now flight.inc flight.instant }
{
    match filed_of(lanes, flight.inc, flight.instant) {
        Some(filed) => is_live(&filed),
        None => false,
    }
}

/// Whether an entry is live; no moment changes that.
fn is_live(filed: &Filed) -> bool
    requires { IsSmallFiled filed.now }
    ensures { result ≡ asks Question.ToWait filed.now }
{
    match standing(&filed.entry, filed.policy, Moment(0)) {
        Standing::Live => true,
        _ => false,
    }
}

/// The earlier of two occurrences, by incarnation and instant.
fn earlier(first: Option<(u32, u64)>, flight: Flight) -> (u32, u64)
    ensures { result ≡ earlier first flight }
{
    match first {
        Some(found) => earlier_of(found, flight),
        None => (flight.inc, flight.instant),
    }
}

fn earlier_of(found: (u32, u64), flight: Flight) -> (u32, u64)
    ensures { result ≡ earlier (Some found) flight }
{
    if flight.inc < found.0 || (flight.inc == found.0 && flight.instant < found.1) {
        (flight.inc, flight.instant)
    } else {
        found
    }
}
