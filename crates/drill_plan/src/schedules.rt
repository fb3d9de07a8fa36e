//! The schedules of a drill.
ghost use Rattle.std.specs.Prelude.{◌≡◌, ◌<◌, ◌++◌, decimal, IfOk};
ghost use Rattle.drill_plan.specs.Plan.{expression_of, leading_zeros, name_of, schedule_of, window_of};

use plain_words::Text;
use std::alloc::{AllocError, Global};

/// The least number that no schedule of a drill has.
pub const UPPER_NUMBER: u64 = 1000;

/// What is of its own in a schedule that a drill creates.
#[derive(Debug, Drop)]
pub struct Created {
    /// `s` and the schedule's number in five digits.
    pub name: Text,
    /// A rate of minutes, a cron, an `at` and a rate of an hour in turn.
    pub expression: Text,
    /// Minutes of the flexible window; 0 is OFF.
    pub window: u16,
}

/// What stands before the digits of a number of at most three digits, so that there are five.
fn leading_zeros(number: u64) -> &'static str
    requires { number < UPPER_NUMBER }
    ensures { result.now ≡ leading_zeros number }
{
    if number < 10 {
        "0000"
    } else if number < 100 {
        "000"
    } else {
        "00"
    }
}

fn name_of(alloc: Global, number: u64) -> Result<Text, AllocError>
    requires { number < UPPER_NUMBER }
    ensures { IfOk result (λ name. name ≡ name_of number) }
{
    let mut name = String::from_str(alloc, "s")?;
    name.push_str(leading_zeros(number))?;
    name.push_str(number.to_string(alloc)?.as_str())?;
    Ok(Text::from_string(name))
}

/// A text that has a number between two others.
fn text_around(alloc: Global, before: &str, number: u64, behind: &str) -> Result<Text, AllocError>
    ensures { IfOk result (λ text. text ≡ before.now ++ decimal number ++ behind.now) }
{
    let mut text = String::from_str(alloc, before)?;
    text.push_str(number.to_string(alloc)?.as_str())?;
    text.push_str(behind)?;
    Ok(Text::from_string(text))
}

fn text_of(alloc: Global, text: &str) -> Result<Text, AllocError>
    ensures { IfOk result (λ made. made ≡ text.now) }
{
    Ok(Text::from_string(String::from_str(alloc, text)?))
}

fn expression_of(alloc: Global, number: u64) -> Result<Text, AllocError>
    requires { number < UPPER_NUMBER }
    ensures { IfOk result (λ text. text ≡ expression_of number) }
{
    match number % 4 {
        0 => text_around(alloc, "rate(", number % 7 + 1, " minutes)"),
        1 => text_of(alloc, "cron(0/15 * * * ? *)"),
        2 => text_around(alloc, "at(1970-01-01T0", number % 10, ":00:00)"),
        _ => text_of(alloc, "rate(1 hours)"),
    }
}

fn window_of(number: u64) -> u16
    ensures { result ≡ window_of number }
{
    if number % 4 == 3 { 10 } else { 0 }
}

/// The schedule of a number, from 0 to 999. Fails for want of memory alone.
pub fn schedule_of(alloc: Global, number: u64) -> Result<Created, AllocError>
    requires { number < UPPER_NUMBER }
    ensures { IfOk result (λ schedule. schedule ≡ schedule_of number) }
{
    Ok(Created {
        name: name_of(alloc, number)?,
        expression: expression_of(alloc, number)?,
        window: window_of(number),
    })
}
