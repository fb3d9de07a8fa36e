//! The steps of a few numbers, read behind their tag and moment.
ghost use Rattle.std.specs.Prelude.{◌≡◌, ◌≤◌, IfOk};
ghost use Rattle.step_codec.specs.Cells.{Eight};
ghost use Rattle.step_codec.specs.Cells.{Number};
ghost use Rattle.step_codec.specs.Faults.{Reads};
ghost use Rattle.step_codec.specs.Format as format;
ghost use Rattle.step_codec.specs.Payload.{IsExact, cells, code};
ghost use Rattle.step_codec.specs.Tables.{in_front, walk};

use crate::fault::FieldFault;
use crate::fields::{
    attempt, epoch, incarnation, lease_end, moment, reason, shard, status, verdict, worker,
};
use crate::words::{zone_bytes, zone_name};
use sched_plain::{LAST_MOMENT, Moment, Step};
use std::alloc::Global;

pub(crate) fn zone(alloc: Global, at: Moment, bytes: &[u8]) -> Result<(Step, &[u8]), FieldFault>
    ensures read { Reads (λ x. (cells x.0, x.1.now)) result (in_front (code 2) (in_front (Number Eight at.0) (walk format.zone_table bytes.now))) }
    ensures exact { IfOk result (λ x. IsExact x.0) }
{
    let (name, bytes) = zone_name(alloc, bytes)?;
    let (zone, bytes) = zone_bytes(alloc, bytes)?;
    let step = Step::Zone {
        at,
        name,
        bytes: zone,
    };
    Ok((step, bytes))
}

pub(crate) fn lease(at: Moment, bytes: &[u8]) -> Result<(Step, &[u8]), FieldFault>
    requires { at.0 ≤ LAST_MOMENT }
    ensures read { Reads (λ x. (cells x.0, x.1.now)) result (in_front (code 5) (in_front (Number Eight at.0) (walk (format.lease_table at.0) bytes.now))) }
    ensures exact { IfOk result (λ x. IsExact x.0) }
{
    let (shard, bytes) = shard(bytes)?;
    let (worker, bytes) = worker(bytes)?;
    let (epoch, bytes) = epoch(bytes)?;
    let (until, bytes) = lease_end(at, bytes)?;
    let step = Step::Lease {
        at,
        shard,
        worker,
        epoch,
        until,
    };
    Ok((step, bytes))
}

pub(crate) fn release(at: Moment, bytes: &[u8]) -> Result<(Step, &[u8]), FieldFault>
    ensures read { Reads (λ x. (cells x.0, x.1.now)) result (in_front (code 6) (in_front (Number Eight at.0) (walk format.release_table bytes.now))) }
    ensures exact { IfOk result (λ x. IsExact x.0) }
{
    let (shard, bytes) = shard(bytes)?;
    let (worker, bytes) = worker(bytes)?;
    let (epoch, bytes) = epoch(bytes)?;
    let step = Step::Release {
        at,
        shard,
        worker,
        epoch,
    };
    Ok((step, bytes))
}

pub(crate) fn begin(at: Moment, bytes: &[u8]) -> Result<(Step, &[u8]), FieldFault>
    ensures read { Reads (λ x. (cells x.0, x.1.now)) result (in_front (code 7) (in_front (Number Eight at.0) (walk format.begin_table bytes.now))) }
    ensures exact { IfOk result (λ x. IsExact x.0) }
{
    let (inc, bytes) = incarnation(bytes)?;
    let (instant, bytes) = moment(bytes)?;
    let (number, bytes) = attempt(bytes)?;
    let (epoch, bytes) = epoch(bytes)?;
    let step = Step::Begin {
        at,
        inc,
        instant,
        number,
        epoch,
    };
    Ok((step, bytes))
}

pub(crate) fn end(at: Moment, bytes: &[u8]) -> Result<(Step, &[u8]), FieldFault>
    ensures read { Reads (λ x. (cells x.0, x.1.now)) result (in_front (code 8) (in_front (Number Eight at.0) (walk format.end_table bytes.now))) }
    ensures exact { IfOk result (λ x. IsExact x.0) }
{
    let (inc, bytes) = incarnation(bytes)?;
    let (instant, bytes) = moment(bytes)?;
    let (number, bytes) = attempt(bytes)?;
    let (verdict, bytes) = verdict(bytes)?;
    let (status, bytes) = status(bytes)?;
    let step = Step::End {
        at,
        inc,
        instant,
        number,
        verdict,
        status,
    };
    Ok((step, bytes))
}

pub(crate) fn close(at: Moment, bytes: &[u8]) -> Result<(Step, &[u8]), FieldFault>
    ensures read { Reads (λ x. (cells x.0, x.1.now)) result (in_front (code 9) (in_front (Number Eight at.0) (walk format.close_table bytes.now))) }
    ensures exact { IfOk result (λ x. IsExact x.0) }
{
    let (inc, bytes) = incarnation(bytes)?;
    let (instant, bytes) = moment(bytes)?;
    let (reason, bytes) = reason(bytes)?;
    let step = Step::Close {
        at,
        inc,
        instant,
        reason,
    };
    Ok((step, bytes))
}

pub(crate) fn complete(at: Moment, bytes: &[u8]) -> Result<(Step, &[u8]), FieldFault>
    ensures read { Reads (λ x. (cells x.0, x.1.now)) result (in_front (code 10) (in_front (Number Eight at.0) (walk format.complete_table bytes.now))) }
    ensures exact { IfOk result (λ x. IsExact x.0) }
{
    let (inc, bytes) = incarnation(bytes)?;
    Ok((Step::Complete { at, inc }, bytes))
}

pub(crate) fn swept(at: Moment, bytes: &[u8]) -> Result<(Step, &[u8]), FieldFault>
    ensures read { Reads (λ x. (cells x.0, x.1.now)) result (in_front (code 11) (in_front (Number Eight at.0) (walk format.swept_table bytes.now))) }
    ensures exact { IfOk result (λ x. IsExact x.0) }
{
    let (shard, bytes) = shard(bytes)?;
    Ok((Step::Swept { at, shard }, bytes))
}
