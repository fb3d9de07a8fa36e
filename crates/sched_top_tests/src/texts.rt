//! The texts of requests, of their answers, and of what targets are sent (RFC 9112), each from one line of a table.
//!
//! The columns of a line stand behind one blank each, and the last one is the rest of the line. Some long words stand
//! in short there, in angle brackets.
use std::alloc::{AllocError, Global};

/// The next column of a line, and what follows it.
fn column(line: &str) -> (&str, &str) {
    line.split_once(" ").unwrap_or((line, ""))
}

/// The short words of tables, and what each stands for.
const SHORT: [(&str, &str); 7] = [
    (
        "<once>",
        "{<off>,<at>,\"Target\":{\"Arn\":\"<hook>\",\"RetryPolicy\":{\"MaximumRetryAttempts\":0},\"RoleArn\":\"r\"}}",
    ),
    (
        "<target>",
        "\"Target\":{\"Arn\":\"<hook>\",\"RoleArn\":\"r\"}",
    ),
    ("<at>", "\"ScheduleExpression\":\"at(1970-01-01T00:16:40)\""),
    ("<off>", "\"FlexibleTimeWindow\":{\"Mode\":\"OFF\"}"),
    ("<hook>", "http://127.0.0.1:9000/hook"),
    ("<dead>", "arn:aws:sqs:local:000000000000:dead"),
    ("<arn>", "arn:aws:scheduler:local:000000000000"),
];

/// A table with its short words written out.
pub fn written_out(alloc: Global, table: &str) -> Result<String, AllocError> {
    let mut table = table.to_string(alloc)?;
    for (short, long) in SHORT {
        table = table.as_str().replace(alloc, short, long)?;
    }
    Ok(table)
}

/// The header line of a moment, or none for `-`.
fn moment_line(alloc: Global, moment: &str) -> Result<String, AllocError> {
    if moment == "-" {
        return Ok(String::new(alloc));
    }
    format!(in alloc; "X-Moment: {moment}\r\n")
}

/// The text of a request: of its moment, its method, its target and its body.
pub fn request_text(alloc: Global, line: &str) -> Result<String, AllocError> {
    let (moment, rest) = column(line);
    let (method, rest) = column(rest);
    let (target, body) = column(rest);
    let stated = moment_line(alloc, moment)?;
    let bytes = body.len();
    format!(in alloc; "{method} {target} HTTP/1.1\r\n{stated}Content-Length: {bytes}\r\n\r\n{body}")
}

/// The phrase of a status, and the name of its error, if it is one.
fn phrase_of(status: &str) -> (&'static str, &'static str) {
    match status {
        "200" => ("OK", ""),
        "400" => ("Bad Request", "ValidationException"),
        "402" => ("Payment Required", "ServiceQuotaExceededException"),
        "404" => ("Not Found", "ResourceNotFoundException"),
        "409" => ("Conflict", "ConflictException"),
        _ => ("Internal Server Error", "InternalServerException"),
    }
}

/// The header line of an error's name, or none.
fn error_line(alloc: Global, error: &str) -> Result<String, AllocError> {
    if error.is_empty() {
        return Ok(String::new(alloc));
    }
    format!(in alloc; "x-amzn-ErrorType: {error}\r\n")
}

/// The header line of a number of steps, or none for `-`.
fn history_line(alloc: Global, steps: &str) -> Result<String, AllocError> {
    if steps == "-" {
        return Ok(String::new(alloc));
    }
    format!(in alloc; "X-History: {steps}\r\n")
}

/// The text of an answer: of its status, the number of steps, and its body.
pub fn answer_text(alloc: Global, line: &str) -> Result<String, AllocError> {
    let (status, rest) = column(line);
    let (steps, body) = column(rest);
    let (phrase, error) = phrase_of(status);
    let error = error_line(alloc, error)?;
    let history = history_line(alloc, steps)?;
    let bytes = body.len();
    format!(in alloc;
        "HTTP/1.1 {status} {phrase}\r\nContent-Type: application/json\r\nContent-Length: {bytes}\r\n{error}{history}\r\n{body}"
    )
}

/// The texts of answers, one a line.
pub fn answers_text(alloc: Global, lines: &str) -> Result<String, AllocError> {
    let mut all = String::new(alloc);
    for line in written_out(alloc, lines)?.lines() {
        all.push_str(answer_text(alloc, line)?.as_str())?;
    }
    Ok(all)
}

/// The text that an attempt sends: of its execution, its number, its schedule with its group, its time and its body.
pub fn attempt_text(alloc: Global, line: &str) -> Result<String, AllocError> {
    let (execution, rest) = column(line);
    let (number, rest) = column(rest);
    let (schedule, rest) = column(rest);
    let (time, body) = column(rest);
    let bytes = body.len();
    format!(in alloc;
        "POST /hook HTTP/1.1\r\nHost: 127.0.0.1:9000\r\nContent-Type: application/json\r\nContent-Length: {bytes}\r\nX-Execution-Id: {execution}\r\nX-Attempt: {number}\r\nX-Schedule-Arn: arn:aws:scheduler:local:000000000000:schedule/{schedule}\r\nX-Scheduled-Time: {time}\r\nConnection: close\r\n\r\n{body}"
    )
}

/// The text of a target's reply of a status.
pub fn reply_text(alloc: Global, status: &str) -> Result<String, AllocError> {
    format!(in alloc; "HTTP/1.1 {status} -\r\n\r\n")
}
