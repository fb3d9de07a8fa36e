//! A write, read by its kind.
ghost use Rattle.std.specs.Prelude.{◌≡◌, ◌≤◌, IfOk};
ghost use Rattle.step_codec.specs.Cells.{Eight, Number};
ghost use Rattle.step_codec.specs.Faults.{Reads};
ghost use Rattle.step_codec.specs.Format as format;
ghost use Rattle.step_codec.specs.Payload.{IsExact, IsExactWrite, cells, code, write_cells};
ghost use Rattle.step_codec.specs.Tables.{in_front, walk};

use crate::content::content;
use crate::fault::FieldFault;
use crate::fields::code;
use crate::words::{name, no_name, token};
use sched_plain::{Moment, Step, Write};
use std::alloc::Global;

/// The kinds of a write, by their codes.
const CREATES_SCHEDULE: u8 = 1;

const UPDATES_SCHEDULE: u8 = 2;

const DELETES_SCHEDULE: u8 = 3;

const CREATES_GROUP: u8 = 4;

const LAST_KIND: u8 = 5;

pub(crate) fn change(alloc: Global, at: Moment, bytes: &[u8]) -> Result<(Step, &[u8]), FieldFault>
    ensures read { Reads (λ x. (cells x.0, x.1.now)) result (in_front (code 3) (in_front (Number Eight at.0) (walk format.change_table bytes.now))) }
    ensures exact { IfOk result (λ x. IsExact x.0) }
{
    let (kind, bytes) = code(bytes, LAST_KIND)?;
    let (write, bytes) = write_of_kind(alloc, kind, bytes)?;
    Ok((Step::Change { at, write }, bytes))
}

fn write_of_kind(alloc: Global, kind: u8, bytes: &[u8]) -> Result<(Write, &[u8]), FieldFault>
    requires least { 1 ≤ kind }
    requires most { kind ≤ LAST_KIND }
    ensures read { Reads (λ x. (write_cells x.0, x.1.now)) result (in_front (code kind) (walk (format.named_table kind) bytes.now)) }
    ensures exact { IfOk result (λ x. IsExactWrite x.0) }
{
    match kind {
        CREATES_SCHEDULE => creation(alloc, bytes),
        UPDATES_SCHEDULE => update(alloc, bytes),
        DELETES_SCHEDULE => deletion(alloc, bytes),
        CREATES_GROUP => group_creation(alloc, bytes),
        _ => group_deletion(alloc, bytes),
    }
}

fn creation(alloc: Global, bytes: &[u8]) -> Result<(Write, &[u8]), FieldFault>
    ensures read { Reads (λ x. (write_cells x.0, x.1.now)) result (in_front (code 1) (walk (format.named_table 1) bytes.now)) }
    ensures exact { IfOk result (λ x. IsExactWrite x.0) }
{
    let (token, bytes) = token(alloc, bytes)?;
    let (group, bytes) = name(alloc, bytes)?;
    let (name, bytes) = name(alloc, bytes)?;
    let (content, bytes) = content(alloc, bytes)?;
    let write = Write::CreateSchedule {
        group,
        name,
        token,
        content,
    };
    Ok((write, bytes))
}

fn update(alloc: Global, bytes: &[u8]) -> Result<(Write, &[u8]), FieldFault>
    ensures read { Reads (λ x. (write_cells x.0, x.1.now)) result (in_front (code 2) (walk (format.named_table 2) bytes.now)) }
    ensures exact { IfOk result (λ x. IsExactWrite x.0) }
{
    let (token, bytes) = token(alloc, bytes)?;
    let (group, bytes) = name(alloc, bytes)?;
    let (name, bytes) = name(alloc, bytes)?;
    let (content, bytes) = content(alloc, bytes)?;
    let write = Write::UpdateSchedule {
        group,
        name,
        token,
        content,
    };
    Ok((write, bytes))
}

fn deletion(alloc: Global, bytes: &[u8]) -> Result<(Write, &[u8]), FieldFault>
    ensures read { Reads (λ x. (write_cells x.0, x.1.now)) result (in_front (code 3) (walk (format.named_table 3) bytes.now)) }
    ensures exact { IfOk result (λ x. IsExactWrite x.0) }
{
    let (token, bytes) = token(alloc, bytes)?;
    let (group, bytes) = name(alloc, bytes)?;
    let (name, bytes) = name(alloc, bytes)?;
    Ok((Write::DeleteSchedule { group, name, token }, bytes))
}

fn group_creation(alloc: Global, bytes: &[u8]) -> Result<(Write, &[u8]), FieldFault>
    ensures read { Reads (λ x. (write_cells x.0, x.1.now)) result (in_front (code 4) (walk (format.named_table 4) bytes.now)) }
    ensures exact { IfOk result (λ x. IsExactWrite x.0) }
{
    let (token, bytes) = token(alloc, bytes)?;
    let (name, bytes) = name(alloc, bytes)?;
    let (_, bytes) = no_name(bytes)?;
    Ok((Write::CreateGroup { name, token }, bytes))
}

fn group_deletion(alloc: Global, bytes: &[u8]) -> Result<(Write, &[u8]), FieldFault>
    ensures read { Reads (λ x. (write_cells x.0, x.1.now)) result (in_front (code 5) (walk (format.named_table 5) bytes.now)) }
    ensures exact { IfOk result (λ x. IsExactWrite x.0) }
{
    let (token, bytes) = token(alloc, bytes)?;
    let (name, bytes) = name(alloc, bytes)?;
    let (_, bytes) = no_name(bytes)?;
    Ok((Write::DeleteGroup { name, token }, bytes))
}
