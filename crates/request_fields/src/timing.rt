//! When a schedule runs, as its body says.
ghost use Rattle.std.specs.Prelude.{◌≡◌, ◌++◌, IfOk, [], true, false, codes};
ghost use Rattle.serde_json.specs.View.{view};
ghost use Rattle.plain_words.specs.declared.limits.TheConstants.{LAST_MOMENT, LONGEST_WINDOW};
ghost use Rattle.expressions.specs.Spelling.{Spells};
ghost use Rattle.request_fields.specs.Contents.{earliest_finish, timing_of, window_of};
ghost use Rattle.request_fields.specs.Refusals.{Reads};
ghost use Rattle.request_fields.specs.Rows as row;
ghost use Rattle.request_fields.specs.Words as word;

use crate::fault::DecodeFault;
use crate::members::{expression_at, word_at, zone_at};
use crate::numbers::{minutes_at, whole_at};
use crate::objects::object_needed;
use crate::rows::{broken, or_default, or_none, required};
use sched_plain::{Expr, LAST_MOMENT, Text, ZoneName};
use serde_json::Value;
use std::alloc::{AllocError, Global};

/// When a schedule runs.
#[derive(Debug, Drop)]
pub struct Timing {
    /// The expression as it is written.
    pub text: Text,
    /// What that text spells.
    pub expr: Expr,
    /// The zone in which it is read.
    pub zone: ZoneName,
    /// The first moment at which it counts, where one is given.
    pub start: Option<u64>,
    /// The last moment at which it counts, where one is given.
    pub finish: Option<u64>,
    /// Whether the schedule has occurrences.
    pub enabled: bool,
    /// Whether it is deleted once it has nothing left to do.
    pub delete_after: bool,
    /// Minutes of the flexible window; 0 is OFF.
    pub window: u16,
}

/// Reads when a schedule runs: the rows of the table from ScheduleExpression to FlexibleTimeWindow, in their order.
pub(crate) fn read_timing(alloc: Global, body: &Value) -> Result<Timing, DecodeFault>
    ensures value { Reads result (timing_of (view body.now)) }
    ensures spells { IfOk result (λ timing. Spells timing.text timing.expr) }
{
    let (text, expr) = read_expression(alloc, body)?;
    let zone = read_zone(alloc, body)?;
    let start = read_moment(alloc, body, "StartDate", 0)?;
    let finish = read_moment(alloc, body, "EndDate", earliest_finish(expr, start))?;
    let enabled = read_choice(alloc, body, "State", "ENABLED", "DISABLED", true)?;
    let delete_after = read_choice(
        alloc,
        body,
        "ActionAfterCompletion",
        "DELETE",
        "NONE",
        false,
    )?;
    let window = object_needed(alloc, body, "", "FlexibleTimeWindow")?;
    let window = read_window(alloc, window)?;
    Ok(Timing {
        text,
        expr,
        zone,
        start,
        finish,
        enabled,
        delete_after,
        window,
    })
}

fn read_expression(alloc: Global, body: &Value) -> Result<(Text, Expr), DecodeFault>
    ensures value { Reads result
        (row.required [] (codes "ScheduleExpression") (row.in_text word.expression_word) (view body.now)) }
    ensures spells { IfOk result (λ expression. Spells expression.0 expression.1) }
{
    let name = "ScheduleExpression";
    match expression_at(alloc, body, name)? {
        Some(Some(expression)) => Ok(expression),
        Some(None) => Err(broken(alloc, "", name)?),
        None => Err(broken(alloc, "", name)?),
    }
}

fn read_zone(alloc: Global, body: &Value) -> Result<ZoneName, DecodeFault>
    ensures { Reads result (row.defaulted [] (codes "ScheduleExpressionTimezone") (row.in_text word.zone_word)
        (codes "UTC") (view body.now)) }
{
    let name = "ScheduleExpressionTimezone";
    let found = zone_at(alloc, body, name)?;
    let utc = utc(alloc)?;
    or_default(alloc, "", name, found, utc)
}

/// The zone of a schedule that names none.
fn utc(alloc: Global) -> Result<ZoneName, AllocError>
    ensures { IfOk result (λ zone. zone ≡ codes "UTC") }
{
    match ZoneName::read(alloc, b"UTC") {
        Ok(zone) => Ok(zone),
        Err(_) => Err(AllocError),
    }
}

/// A moment from this one on.
fn read_moment(
    alloc: Global,
    body: &Value,
    name: &str,
    least: u64,
) -> Result<Option<u64>, DecodeFault>
    ensures { Reads result (row.optional [] name.now (row.whole least LAST_MOMENT) (view body.now)) }
{
    or_none(alloc, "", name, whole_at(body, name, least, LAST_MOMENT))
}

/// The least EndDate: StartDate, but for an `at`.
fn earliest_finish(expr: Expr, start: Option<u64>) -> u64
    ensures { result ≡ earliest_finish expr start }
{
    match expr {
        Expr::At(_) => 0,
        Expr::Rate { .. } => start.unwrap_or(0),
        Expr::Cron(_) => start.unwrap_or(0),
    }
}

/// Whether the first of two words is given.
fn read_choice(
    alloc: Global,
    body: &Value,
    name: &str,
    first: &str,
    second: &str,
    default: bool,
) -> Result<bool, DecodeFault>
    ensures { Reads result
        (row.defaulted [] name.now (row.in_text (word.one_of first.now second.now)) default (view body.now)) }
{
    or_default(alloc, "", name, word_at(body, name, first, second), default)
}

/// The minutes of a flexible window, 0 for OFF. With OFF nothing else is looked at.
fn read_window(alloc: Global, window: &Value) -> Result<u16, DecodeFault>
    ensures { Reads result (window_of (view window.now)) }
{
    if read_is_off(alloc, window)? {
        return Ok(0);
    }
    read_minutes(alloc, window)
}

fn read_is_off(alloc: Global, window: &Value) -> Result<bool, DecodeFault>
    ensures { Reads result (row.required (codes "FlexibleTimeWindow.") (codes "Mode")
        (row.in_text (word.one_of (codes "OFF") (codes "FLEXIBLE"))) (view window.now)) }
{
    required(
        alloc,
        "FlexibleTimeWindow.",
        "Mode",
        word_at(window, "Mode", "OFF", "FLEXIBLE"),
    )
}

fn read_minutes(alloc: Global, window: &Value) -> Result<u16, DecodeFault>
    ensures { Reads result (row.required (codes "FlexibleTimeWindow.") (codes "MaximumWindowInMinutes")
        (row.whole 1 LONGEST_WINDOW) (view window.now)) }
{
    let name = "MaximumWindowInMinutes";
    required(alloc, "FlexibleTimeWindow.", name, minutes_at(window, name))
}
