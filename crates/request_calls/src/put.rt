//! What a creation or an update puts, and where.
ghost use Rattle.std.specs.Prelude.{◌≡◌, [], IfOk, codes};
ghost use Rattle.serde_json.specs.View.{view};
ghost use Rattle.sched_plain.specs.Groups.{default_name};
ghost use Rattle.request_fields.specs.Objects.{ReadsOwned};
ghost use Rattle.request_fields.specs.Refusals.{Reads};
ghost use Rattle.request_fields.specs.Rows as row;
ghost use Rattle.request_fields.specs.Words as word;
ghost use Rattle.request_calls.specs.Calls as spec;
ghost use Rattle.request_calls.specs.Validity.{IsSoundPut};

use request_fields::{
    DecodeFault, name_at, name_word, or_default, or_none, read_content, read_object,
    refuse_unknown_in_group, refuse_unknown_in_schedule, required, token_at,
};
use sched_plain::{Name, Schedule, Token};
use serde_json::Value;
use std::alloc::{AllocError, Global};

/// What is put, and where.
#[derive(Debug, Drop)]
pub(crate) struct Put {
    pub group: Name,
    pub name: Name,
    pub token: Option<Token>,
    pub content: Schedule,
}

/// The name that stands in a path.
pub(crate) fn path_name(alloc: Global, segment: &[u8]) -> Result<Name, DecodeFault>
    ensures { Reads result (spec.path_name segment.now) }
{
    let found = name_word(alloc, segment)?;
    required(alloc, "", "Name", Some(found))
}

/// The group of a schedule that names none.
pub(crate) fn default_group(alloc: Global) -> Result<Name, AllocError>
    ensures { IfOk result (λ group. group ≡ default_name) }
{
    match Name::read(alloc, b"default") {
        Ok(group) => Ok(group),
        Err(_) => Err(AllocError),
    }
}

/// The object of a schedule's body, without unknown members.
pub(crate) fn schedule_body(alloc: Global, body: &[u8]) -> Result<Value, DecodeFault>
    ensures { ReadsOwned result (spec.schedule_body body.now) }
{
    let object = read_object(alloc, body)?;
    refuse_unknown_in_schedule(alloc, &object)?;
    Ok(object)
}

/// The object of a group's body, without unknown members.
pub(crate) fn group_body(alloc: Global, body: &[u8]) -> Result<Value, DecodeFault>
    ensures { ReadsOwned result (spec.group_body body.now) }
{
    let object = read_object(alloc, body)?;
    refuse_unknown_in_group(alloc, &object)?;
    Ok(object)
}

fn read_group(alloc: Global, body: &Value) -> Result<Name, DecodeFault>
    ensures { Reads result
        (row.defaulted [] (codes "GroupName") (row.in_text word.name_word) default_name (view body.now)) }
{
    let found = name_at(alloc, body, "GroupName")?;
    let default = default_group(alloc)?;
    or_default(alloc, "", "GroupName", found, default)
}

pub(crate) fn read_token(alloc: Global, body: &Value) -> Result<Option<Token>, DecodeFault>
    ensures { Reads result (row.optional [] (codes "ClientToken") (row.in_text word.token_word) (view body.now)) }
{
    let found = token_at(alloc, body, "ClientToken")?;
    or_none(alloc, "", "ClientToken", found)
}

/// Reads what is put, and where.
pub(crate) fn read_put(alloc: Global, segment: &[u8], body: &Value) -> Result<Put, DecodeFault>
    ensures value { Reads result (spec.put_of segment.now (view body.now)) }
    ensures sound { IfOk result IsSoundPut }
{
    let name = path_name(alloc, segment)?;
    let group = read_group(alloc, body)?;
    let token = read_token(alloc, body)?;
    let content = read_content(alloc, body)?;
    Ok(Put {
        group,
        name,
        token,
        content,
    })
}
