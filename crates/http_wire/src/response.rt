//! The text of a response (RFC 9112).
ghost use Rattle.std.specs.Prelude.{◌≡◌, ◌++◌, [], codes, decimal, length, option_copied, unwrap_or, IfOk, OnOk};
ghost use Rattle.http.specs.StatusCode.{reason_phrase};
ghost use Rattle.http_wire.specs.Response.{response_text, error_line, history_line, status_line, body_lines, line_end};

use http::StatusCode;
use std::alloc::{AllocError, Global};

/// The standard phrase of a status, empty where there is none.
fn phrase(status: u16) -> &'static str
    ensures { result.now ≡ unwrap_or (reason_phrase status) [] }
{
    match StatusCode::from_u16(status) {
        Ok(code) => code.canonical_reason().unwrap_or(""),
        Err(_) => "",
    }
}

fn push_status(text: &mut Vec<u8>, alloc: Global, status: u16) -> Result<(), AllocError>
    ensures { OnOk result (text.new.items ≡ text.old.items ++ status_line status) }
{
    text.extend_from_slice(b"HTTP/1.1 ")?;
    text.extend_from_slice(status.to_string(alloc)?.as_bytes())?;
    text.extend_from_slice(b" ")?;
    text.extend_from_slice(phrase(status).as_bytes())?;
    text.extend_from_slice(b"\r\n")?;
    Ok(())
}

fn push_body_lines(text: &mut Vec<u8>, alloc: Global, bytes: usize) -> Result<(), AllocError>
    ensures { OnOk result (text.new.items ≡ text.old.items ++ body_lines bytes) }
{
    text.extend_from_slice(b"Content-Type: application/json\r\nContent-Length: ")?;
    text.extend_from_slice(bytes.to_string(alloc)?.as_bytes())?;
    text.extend_from_slice(b"\r\n")?;
    Ok(())
}

fn push_field(text: &mut Vec<u8>, name: &[u8], value: &[u8]) -> Result<(), AllocError>
    ensures { OnOk result (text.new.items ≡ text.old.items ++ (name.now ++ value.now ++ line_end)) }
{
    text.extend_from_slice(name)?;
    text.extend_from_slice(value)?;
    text.extend_from_slice(b"\r\n")?;
    Ok(())
}

fn push_error(text: &mut Vec<u8>, error: Option<&str>) -> Result<(), AllocError>
    ensures { OnOk result (text.new.items ≡ text.old.items ++ error_line (option_copied error.entry)) }
{
    match error {
        None => Ok(()),
        Some(name) => push_field(text, b"x-amzn-ErrorType: ", name.as_bytes()),
    }
}

fn push_history(text: &mut Vec<u8>, alloc: Global, history: Option<u64>) -> Result<(), AllocError>
    ensures { OnOk result (text.new.items ≡ text.old.items ++ history_line history) }
{
    match history {
        None => Ok(()),
        Some(steps) => push_field(text, b"X-History: ", steps.to_string(alloc)?.as_bytes()),
    }
}

/// The bytes of a response: its status, the name of its error where it is one, its body, and the number of steps
/// of the history where it tells that.
#[tactic(auto, unfolding(crate::specs::Response::response_text))]
pub fn write_response(
    alloc: Global,
    status: u16,
    error: Option<&str>,
    body: &[u8],
    history: Option<u64>,
) -> Result<Vec<u8>, AllocError>
    ensures { IfOk result (λ text. text.items
        ≡ response_text status (option_copied error.entry) body.now history) }
{
    let mut text = Vec::new(alloc);
    push_status(&mut text, alloc, status)?;
    push_body_lines(&mut text, alloc, body.len())?;
    push_error(&mut text, error)?;
    push_history(&mut text, alloc, history)?;
    text.extend_from_slice(b"\r\n")?;
    text.extend_from_slice(body)?;
    Ok(text)
}
