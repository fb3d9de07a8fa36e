//! The body of a request that puts a schedule, from settings in words.

use crate::words::cut;
use std::alloc::{AllocError, Global};

/// The most settings of a line.
const MOST_SETTINGS: usize = 64;

/// What is put: an expression and its settings, each as its member's value.
#[derive(Drop)]
pub(crate) struct Settings<'a> {
    pub expression: &'a str,
    pub group: &'a str,
    pub token: &'a str,
    pub zone: &'a str,
    pub start: &'a str,
    pub finish: &'a str,
    /// Minutes of the flexible window; empty is OFF.
    pub window: &'a str,
    pub retries: &'a str,
    pub age: &'a str,
    pub queue: &'a str,
    pub state: &'a str,
    pub completion: &'a str,
}

/// An expression without settings.
const fn plain<'a>(expression: &'a str) -> Settings<'a> {
    Settings {
        expression,
        group: "",
        token: "",
        zone: "",
        start: "",
        finish: "",
        window: "",
        retries: "185",
        age: "86400",
        queue: "",
        state: "ENABLED",
        completion: "NONE",
    }
}

/// Sets what a setting names. Whether it names something.
fn set<'a>(settings: &mut Settings<'a>, setting: &'a str) -> bool {
    let (name, value) = cut(setting, " ");
    match name {
        "group" => settings.group = value,
        "token" => settings.token = value,
        "zone" => settings.zone = value,
        "start" => settings.start = value,
        "end" => settings.finish = value,
        "window" => settings.window = value,
        "retries" => settings.retries = value,
        "age" => settings.age = value,
        "queue" => settings.queue = value,
        "disabled" => settings.state = "DISABLED",
        "delete" => settings.completion = "DELETE",
        _ => return false,
    }
    true
}

/// The settings of an expression with settings behind it, each behind `; `. None where one is not known.
pub(crate) fn settings_of<'a>(text: &'a str) -> Option<Settings<'a>> {
    let (expression, mut rest) = cut(text, "; ");
    let mut settings = plain(expression);
    for _ in 0..MOST_SETTINGS {
        if rest.is_empty() {
            return Some(settings);
        }
        let (setting, others) = cut(rest, "; ");
        if !set(&mut settings, setting) {
            return None;
        }
        rest = others;
    }
    None
}

/// Adds texts, one behind the other.
fn push_all(body: &mut String, texts: &[&str]) -> Result<(), AllocError> {
    for text in texts {
        body.push_str(*text)?;
    }
    Ok(())
}

/// Adds a member whose value is a text, where there is one.
fn push_text(body: &mut String, name: &str, value: &str) -> Result<(), AllocError> {
    if value.is_empty() {
        return Ok(());
    }
    push_all(body, &["\"", name, "\":\"", value, "\","])
}

/// The same of a value that is a number.
fn push_number(body: &mut String, name: &str, value: &str) -> Result<(), AllocError> {
    if value.is_empty() {
        return Ok(());
    }
    push_all(body, &["\"", name, "\":", value, ","])
}

fn push_window(body: &mut String, minutes: &str) -> Result<(), AllocError> {
    if minutes.is_empty() {
        return body.push_str("\"FlexibleTimeWindow\":{\"Mode\":\"OFF\"},");
    }
    push_all(
        body,
        &[
            "\"FlexibleTimeWindow\":{\"Mode\":\"FLEXIBLE\",\"MaximumWindowInMinutes\":",
            minutes,
            "},",
        ],
    )
}

fn push_queue(body: &mut String, queue: &str) -> Result<(), AllocError> {
    if queue.is_empty() {
        return Ok(());
    }
    push_all(body, &["\"DeadLetterConfig\":{\"Arn\":\"", queue, "\"},"])
}

fn push_target(body: &mut String, settings: &Settings) -> Result<(), AllocError> {
    body.push_str("\"Target\":{")?;
    push_queue(body, settings.queue)?;
    push_all(
        body,
        &[
            "\"RetryPolicy\":{\"MaximumRetryAttempts\":",
            settings.retries,
            ",\"MaximumEventAgeInSeconds\":",
            settings.age,
            "},\"Arn\":\"http://127.0.0.1:9000/hook\",\"RoleArn\":\"arn:aws:iam::1:role/r\"}",
        ],
    )
}

/// The body that puts a schedule.
pub(crate) fn schedule_body(alloc: Global, settings: &Settings) -> Result<String, AllocError> {
    let mut body = String::from_str(alloc, "{")?;
    push_text(&mut body, "GroupName", settings.group)?;
    push_text(&mut body, "ClientToken", settings.token)?;
    push_text(&mut body, "ScheduleExpression", settings.expression)?;
    push_text(&mut body, "ScheduleExpressionTimezone", settings.zone)?;
    push_number(&mut body, "StartDate", settings.start)?;
    push_number(&mut body, "EndDate", settings.finish)?;
    push_text(&mut body, "State", settings.state)?;
    push_text(&mut body, "ActionAfterCompletion", settings.completion)?;
    push_window(&mut body, settings.window)?;
    push_target(&mut body, settings)?;
    body.push_str("}")?;
    Ok(body)
}
