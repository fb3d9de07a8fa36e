//! Why there is nothing to tell, and devices that fail.
ghost use Rattle.std.specs.Prelude.{◌≤◌};

use crate::asking::{NEW_YEAR, Question, check, check_over};
use next_command::NextEnd;
use std::test::Fail;

/// A question in this zone from the first of January 2026 on, for two instants.
const fn asked(expression: &'static str, zone: &'static str) -> Question
    ensures { 1 ≤ result.count }
{
    Question {
        expression,
        zone,
        from: NEW_YEAR,
        count: 2,
    }
}

/// The first fault is told, and the zone is not looked at.
#[test]
fn expressions_that_are_none(rt: HostRuntime) -> Result<(), Fail> {
    let alloc = rt.alloc();
    let both = "expression 5 at 13\n";
    check(
        &rt,
        alloc,
        asked("cron(0 9 * * * *)", "UTC"),
        NextEnd::Refused,
        both,
    )?;
    let none = "expression 6 at 13\n";
    check(
        &rt,
        alloc,
        asked("cron(0 9 ? * ? *)", "UTC"),
        NextEnd::Refused,
        none,
    )?;
    let range = "expression 3 at 13\n";
    check(
        &rt,
        alloc,
        asked("cron(0 9 ? * FRI-MON *)", "UTC"),
        NextEnd::Refused,
        range,
    )?;
    let shape = "expression 1 at 0\n";
    check(&rt, alloc, asked("", "UTC"), NextEnd::Refused, shape)?;
    check_over(
        &rt,
        alloc,
        asked("never", "Nowhere"),
        &[1],
        &[],
        NextEnd::Refused,
        shape,
    )
}

#[test]
fn zones_that_are_none(rt: HostRuntime) -> Result<(), Fail> {
    let alloc = rt.alloc();
    let hourly = "rate(1 hour)";
    let absent = "zone absent\n";
    check(
        &rt,
        alloc,
        asked(hourly, "Europe/Berlin"),
        NextEnd::Refused,
        absent,
    )?;
    let no_zone = "not a zone\n";
    check(
        &rt,
        alloc,
        asked(hourly, "Nowhere"),
        NextEnd::Refused,
        no_zone,
    )?;
    check(&rt, alloc, asked(hourly, "Long"), NextEnd::Refused, no_zone)
}

/// A source that fails is not asked for UTC, which is built in.
#[test]
fn a_source_that_fails(rt: HostRuntime) -> Result<(), Fail> {
    let alloc = rt.alloc();
    let elsewhere = asked("rate(1 hour)", "America/New_York");
    check_over(&rt, alloc, elsewhere, &[1], &[], NextEnd::ZonesFailed, "")?;
    let built_in = asked("rate(1 hour)", "UTC");
    let told = "rate(1 hour)\n2026-01-01T00:00:00Z\n2026-01-01T01:00:00Z\n";
    check_over(&rt, alloc, built_in, &[1], &[], NextEnd::Told, told)
}

#[test]
fn a_sink_that_fails(rt: HostRuntime) -> Result<(), Fail> {
    let alloc = rt.alloc();
    let hourly = asked("rate(1 hour)", "UTC");
    check_over(&rt, alloc, hourly, &[], &[1], NextEnd::SinkFailed, "")?;
    let never = asked("never", "UTC");
    check_over(&rt, alloc, never, &[], &[1], NextEnd::SinkFailed, "")
}
