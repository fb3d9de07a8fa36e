//! The instants that are told.
ghost use Rattle.std.specs.Prelude.{◌≤◌};

use crate::asking::{NEW_YEAR, Question, check};
use next_command::NextEnd;
use std::test::Fail;

/// The eighth of March 2026 has no half past two in New York.
#[test]
fn a_time_that_is_skipped_is_none(rt: HostRuntime) -> Result<(), Fail> {
    let question = Question {
        expression: "cron(30 2 * * ? *)",
        zone: "America/New_York",
        from: 1_772_841_600,
        count: 2,
    };
    let told = "cron(30 2 * * ? *)\n2026-03-07T07:30:00Z\n2026-03-09T06:30:00Z\n";
    check(&rt, rt.alloc(), question, NextEnd::Told, told)
}

/// The first of November has half past one twice, and runs once.
#[test]
fn a_time_that_comes_twice_is_one(rt: HostRuntime) -> Result<(), Fail> {
    let question = Question {
        expression: "cron(30 1 * * ? *)",
        zone: "America/New_York",
        from: 1_793_491_200,
        count: 2,
    };
    let told = "cron(30 1 * * ? *)\n2026-11-01T05:30:00Z\n2026-11-02T06:30:00Z\n";
    check(&rt, rt.alloc(), question, NextEnd::Told, told)
}

/// A question in UTC from the first of January 2026 on, for two instants.
const fn in_utc(expression: &'static str) -> Question
    ensures { 1 ≤ result.count }
{
    Question {
        expression,
        zone: "UTC",
        from: NEW_YEAR,
        count: 2,
    }
}

#[test]
fn weekdays_near_a_day_of_the_month(rt: HostRuntime) -> Result<(), Fail> {
    let alloc = rt.alloc();
    let first = "cron(0 9 1W 8 ? 2026)\n2026-08-03T09:00:00Z\n";
    check(
        &rt,
        alloc,
        in_utc("cron(0 9 1W AUG ? 2026)"),
        NextEnd::Told,
        first,
    )?;
    let last = "cron(0 9 31W 5 ? 2026)\n2026-05-29T09:00:00Z\n";
    check(
        &rt,
        alloc,
        in_utc("cron(0 9 31W MAY ? 2026)"),
        NextEnd::Told,
        last,
    )?;
    let never = "cron(0 9 30W 2 ? *)\n";
    check(
        &rt,
        alloc,
        in_utc("cron(0 9 30W FEB ? *)"),
        NextEnd::Told,
        never,
    )
}

/// A rate begins at the moment from which on is asked, whatever the zone.
#[test]
fn a_rate_begins_where_it_is_asked_for(rt: HostRuntime) -> Result<(), Fail> {
    let alloc = rt.alloc();
    let days = Question {
        expression: "rate(1 days)",
        zone: "America/New_York",
        from: 1_793_491_200,
        count: 3,
    };
    let told = "rate(1 day)\n2026-11-01T00:00:00Z\n2026-11-02T00:00:00Z\n2026-11-03T00:00:00Z\n";
    check(&rt, alloc, days, NextEnd::Told, told)?;
    let last = Question {
        expression: "rate(1 hour)",
        zone: "UTC",
        from: 7_258_118_399,
        count: 2,
    };
    check(
        &rt,
        alloc,
        last,
        NextEnd::Told,
        "rate(1 hour)\n2199-12-31T23:59:59Z\n",
    )?;
    let past = Question {
        from: 7_258_118_400,
        ..last
    };
    check(&rt, alloc, past, NextEnd::Told, "rate(1 hour)\n")
}

/// An `at` is told where it comes at or after the moment, and else not.
#[test]
fn an_at_comes_once(rt: HostRuntime) -> Result<(), Fail> {
    let alloc = rt.alloc();
    let here = Question {
        expression: "at(1970-01-01T00:16:40)",
        zone: "UTC",
        from: 1000,
        count: 1000,
    };
    let told = "at(1970-01-01T00:16:40)\n1970-01-01T00:16:40Z\n";
    check(&rt, alloc, here, NextEnd::Told, told)?;
    let past = Question { from: 1001, ..here };
    check(&rt, alloc, past, NextEnd::Told, "at(1970-01-01T00:16:40)\n")
}
