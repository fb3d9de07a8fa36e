ghost use Rattle.std.specs.Prelude.{◌≡◌, ◌≤◌, ◌++◌, IfOk, OnOk};
ghost use Rattle.target_link.specs.Attempt.{address_text, attempt_lines, body_text, content_lines, end_lines, head_text, header_line, host_line, host_name, length_line, request_line, request_text, with_body};
ghost use Rattle.std.specs.String.{string_bytes};
ghost use Rattle.target_link.specs.Known.{known};

use crate::address::{Address, LoopHost, Spot};
use crate::keyword::Values;
use crate::time::time_text;
use plain_words::{LAST_MOMENT, Text, TryCopy, copy_option, print_id};
use std::alloc::{AllocError, Global};

/// What the request of an attempt says.
#[derive(Debug, PartialEq, Eq, Drop)]
pub struct BeginFacts {
    /// The arn of the schedule.
    pub arn: Text,
    /// The incarnation of the schedule, from 1.
    pub inc: u32,
    /// The instant of the occurrence, in seconds since 1970 UTC.
    pub instant: u64,
    /// The number of the attempt, from 1.
    pub number: u16,
    /// Where the request goes.
    pub spot: Spot,
    /// The input of the target, if it has one.
    pub input: Option<Text>,
}

impl TryCopy for BeginFacts {
    fn copy(&self) -> Result<BeginFacts, AllocError> {
        Ok(BeginFacts {
            arn: self.arn.copy()?,
            inc: self.inc,
            instant: self.instant,
            number: self.number,
            spot: self.spot.copy()?,
            input: copy_option(&self.input)?,
        })
    }
}

/// The request of an attempt (HTTP/1.1, RFC 9112), byte for byte. Its body is the input with the keywords of the
/// EventBridge Scheduler User Guide replaced, and empty where there is no input.
pub fn request_of(alloc: Global, facts: &BeginFacts) -> Result<Vec<u8>, AllocError>
    requires { facts.now.instant ≤ LAST_MOMENT }
    ensures { IfOk result (λ request. request.items ≡ request_text facts.now) }
{
    let time = time_text(facts.instant);
    let id = print_id(facts.inc, facts.instant);
    let number = facts.number.to_string(alloc)?;
    let values = Values {
        arn: facts.arn.as_bytes(),
        time: &time,
        id: &id,
        number: number.as_bytes(),
    };
    request_with(alloc, &facts.spot, &values, &facts.input)
}

fn request_with(
    alloc: Global,
    spot: &Spot,
    values: &Values<'_>,
    input: &Option<Text>,
) -> Result<Vec<u8>, AllocError>
    ensures { IfOk result (λ request. request.items ≡ with_body spot.now (known values.now) (body_text (known values.now) input.now)) }
{
    let body = body_of(alloc, values, input)?;
    let mut request = head_of(alloc, spot, values, body.len())?;
    request.extend_from_slice(body.as_slice())?;
    Ok(request)
}

fn body_of(alloc: Global, values: &Values<'_>, input: &Option<Text>) -> Result<Vec<u8>, AllocError>
    ensures { IfOk result (λ body. body.items ≡ body_text (known values.now) input.now) }
{
    let mut body = Vec::new(alloc);
    match input {
        Some(input) => values.put_replaced(input.as_bytes(), &mut body)?,
        None => {}
    }
    Ok(body)
}

fn head_of(
    alloc: Global,
    spot: &Spot,
    values: &Values<'_>,
    length: usize,
) -> Result<Vec<u8>, AllocError>
    ensures { IfOk result (λ head. head.items ≡ head_text spot.now (known values.now) length) }
{
    let mut head = Vec::new(alloc);
    put_request_line(&mut head, spot.path.as_bytes())?;
    put_host(alloc, &mut head, spot.address)?;
    put_content(alloc, &mut head, length)?;
    put_attempt(&mut head, values)?;
    put_end(&mut head)?;
    Ok(head)
}

fn put_host(alloc: Global, head: &mut Vec<u8>, address: Address) -> Result<(), AllocError>
    ensures { OnOk result (head.new.items ≡ head.old.items ++ host_line address) }
{
    let text = address_text(alloc, address)?;
    put_header(head, b"Host", text.as_bytes())
}

/// The lines that describe a body of so many bytes.
fn put_content(alloc: Global, head: &mut Vec<u8>, length: usize) -> Result<(), AllocError>
    ensures { OnOk result (head.new.items ≡ head.old.items ++ content_lines length) }
{
    put_header(head, b"Content-Type", b"application/json")?;
    put_length(alloc, head, length)?;
    Ok(())
}

fn put_length(alloc: Global, head: &mut Vec<u8>, length: usize) -> Result<(), AllocError>
    ensures { OnOk result (head.new.items ≡ head.old.items ++ length_line length) }
{
    let length = length.to_string(alloc)?;
    put_header(head, b"Content-Length", length.as_bytes())
}

/// The last line of the head, and the empty line behind it.
fn put_end(head: &mut Vec<u8>) -> Result<(), AllocError>
    ensures { OnOk result (head.new.items ≡ head.old.items ++ end_lines) }
{
    put_header(head, b"Connection", b"close")?;
    head.extend_from_slice(b"\r\n")?;
    Ok(())
}

#[tactic(auto, unfolding(crate::specs::Attempt::request_line))]
fn put_request_line(head: &mut Vec<u8>, path: &[u8]) -> Result<(), AllocError>
    ensures { OnOk result (head.new.items ≡ head.old.items ++ request_line path.now) }
{
    put_between(head, b"POST ", path, b" HTTP/1.1\r\n")
}

fn put_between(
    head: &mut Vec<u8>,
    before: &[u8],
    text: &[u8],
    behind: &[u8],
) -> Result<(), AllocError>
    ensures { OnOk result (head.new.items ≡ head.old.items ++ (before.now ++ text.now ++ behind.now)) }
{
    head.extend_from_slice(before)?;
    head.extend_from_slice(text)?;
    head.extend_from_slice(behind)?;
    Ok(())
}

/// The lines that say which attempt this is.
fn put_attempt(head: &mut Vec<u8>, values: &Values<'_>) -> Result<(), AllocError>
    ensures { OnOk result (head.new.items ≡ head.old.items ++ attempt_lines (known values.now)) }
{
    put_header(head, b"X-Execution-Id", values.id)?;
    put_header(head, b"X-Attempt", values.number)?;
    put_header(head, b"X-Schedule-Arn", values.arn)?;
    put_header(head, b"X-Scheduled-Time", values.time)?;
    Ok(())
}

#[tactic(auto, unfolding(crate::specs::Attempt::header_line))]
fn put_header(head: &mut Vec<u8>, name: &[u8], value: &[u8]) -> Result<(), AllocError>
    ensures { OnOk result (head.new.items ≡ head.old.items ++ header_line name.now value.now) }
{
    head.extend_from_slice(name)?;
    head.extend_from_slice(b": ")?;
    head.extend_from_slice(value)?;
    head.extend_from_slice(b"\r\n")?;
    Ok(())
}

fn address_text(alloc: Global, address: Address) -> Result<String, AllocError>
    ensures { IfOk result (λ text. string_bytes text ≡ address_text address) }
{
    let mut text = String::from_str(alloc, host_name(address.host))?;
    text.push_str(":")?;
    text.push_str(address.port.to_string(alloc)?.as_str())?;
    Ok(text)
}

fn host_name(host: LoopHost) -> &'static str
    ensures { result.now ≡ host_name host }
{
    match host {
        LoopHost::V4 => "127.0.0.1",
        LoopHost::Name => "localhost",
        LoopHost::V6 => "[::1]",
    }
}
