//! The batch run: requests are read one behind the other, and each is answered before the next is read.
ghost use Rattle.std.specs.Prelude.{◌≡◌, ◌≤◌, OnOk, IfOk};
ghost use Rattle.sched_plain.specs.History.{beginning};
ghost use Rattle.outside.specs.Faults.{Rose, HasCause};
ghost use Rattle.step_keeper.specs.Carrying.{CarriesWhere};
ghost use Rattle.sched_top.specs.Batch.{booted, tells, RunEnds, RefusalEnds, unframed, unframed_text};
ghost use Rattle.sched_top.specs.Running.{IsInMemory, IsAlone, LivesAlone, StandsFor, hears, Takes, Responds};

use crate::laws::legal_histories_hold;
use crate::service::answer;
use durable_book::{Denial, add};
use http_wire::{
    FrameFault, HttpRequest, Sink, SinkFailed, Source, read_request, send_all, write_error,
};
use policy_rules::Picker;
use reply_bodies::encode_refusal;
use sched_calls::Refusal;
use sched_plain::{LAST_MOMENT, Moment, Step, Text};
use std::alloc::{AllocError, Global};
use step_keeper::Keeper;
use step_machine::Machine;
use target_link::Link;
use zone_occ::ZoneFiles;

/// How a batch run ends.
#[derive(Clone, Copy, Debug, PartialEq, Eq)]
pub(crate) enum BatchEnd {
    /// The input was read to its end, and every request answered.
    Finished,
    /// A call of the source failed.
    SourceFailed,
    /// A call of the sink failed.
    SinkFailed,
    /// Memory was wanted outside a request.
    OutOfMemory,
    /// A request could not be framed, and that was answered.
    Unframed,
}

/// Starts the service upon an empty history.
fn start<K: Keeper>(keeper: &mut K) -> Result<(), AllocError>
    requires memory { IsInMemory K.held K.doubt K.full K.faults }
    requires empty { StandsFor (K.stands keeper.old) beginning }
    requires latest { K.latest keeper.old ≡ 0 }
    ensures started { OnOk result (StandsFor (K.held keeper.new) (booted beginning)) }
    ensures latest { OnOk result (K.latest keeper.new ≤ 0) }
{
    match add(keeper, Step::Boot { at: Moment(0) }) {
        Ok(()) => Ok(()),
        Err(Denial::OutOfMemory) => Err(AllocError),
        Err(Denial::Rule(_)) => unreachable!(),
        Err(Denial::Full { .. }) => unreachable!(),
        Err(Denial::DiskFault) => unreachable!(),
    }
}

/// Answers a framed request.
fn answer_request<K: Keeper, T: Sink, Z: ZoneFiles, P: Picker, L: Link>(
    alloc: Global,
    keeper: &mut K,
    now: &mut Moment,
    request: &HttpRequest,
    sink: &mut T,
    zones: &mut Z,
    picker: &mut P,
    link: &mut L,
) -> Result<(), SinkFailed>
    requires memory { IsInMemory K.held K.doubt K.full K.faults }
    requires now { now.old.0 ≤ LAST_MOMENT }
    requires latest { K.latest keeper.old ≤ now.old.0 }
    requires alone { LivesAlone now.old.0 (K.held keeper.old) }
    ensures answered { CarriesWhere (IsAlone now.old.0) (K.held keeper.old) (K.held keeper.new)
        (Responds (Takes result) (Z.told zones.old) now.old.0 request.now now.new.0
        (hears (T.got sink.old) (P.told picker.old) (L.told link.old) (Z.faults zones.old))
        (hears (T.got sink.new) (P.told picker.new) (L.told link.new) (Z.faults zones.new))) }
    ensures cause { HasCause (T.faults sink.old) (T.faults sink.new) result }
    ensures zones { Z.told zones.new ≡ Z.told zones.old }
    ensures now { now.new.0 ≤ LAST_MOMENT }
    ensures latest { K.latest keeper.new ≤ now.new.0 }
{
    let response = answer(alloc, keeper, now, request, zones, picker, link);
    send_all(sink, response.as_bytes())
}

/// What refuses a thing that is no request, the `number`th.
fn unframed_refusal(alloc: Global, number: u64) -> Result<Refusal, AllocError>
    ensures { IfOk result (λ it. it ≡ unframed number) }
{
    let mut subject = String::from_str(alloc, "request ")?;
    subject.push_str(&number.to_string(alloc)?)?;
    Ok(Refusal {
        rule: 1,
        status: 400,
        subject: Text::from_string(subject),
    })
}

/// The response of what is no request, the `number`th.
fn unframed_response(alloc: Global, number: u64, steps: u64) -> Result<Vec<u8>, AllocError>
    ensures { IfOk result (λ text. text.items ≡ unframed_text number steps) }
{
    let refusal = unframed_refusal(alloc, number)?;
    let body = encode_refusal(alloc, &refusal)?;
    let text = write_error(alloc, 400, &body, Some(steps))?;
    Ok(text)
}

/// Answers what is no request, the `number`th, which ends the run.
fn answer_unframed<T: Sink>(alloc: Global, number: u64, steps: u64, sink: &mut T) -> BatchEnd
    ensures ends { RefusalEnds result (T.got sink.old) (unframed_text number steps) (T.got sink.new) }
    ensures failed { result ≡ BatchEnd.SinkFailed → Rose (T.faults sink.old) (T.faults sink.new) }
    ensures later { T.faults sink.old ≤ T.faults sink.new }
{
    let Ok(text) = unframed_response(alloc, number, steps) else {
        return BatchEnd::OutOfMemory;
    };
    match send_all(sink, &text) {
        Ok(()) => BatchEnd::Unframed,
        Err(_) => BatchEnd::SinkFailed,
    }
}

/// Reads requests to the end of the source, and answers each before the next is read.
fn run_requests<K: Keeper, S: Source, T: Sink, Z: ZoneFiles, P: Picker, L: Link>(
    alloc: Global,
    keeper: &mut K,
    source: &mut S,
    sink: &mut T,
    zones: &mut Z,
    picker: &mut P,
    link: &mut L,
) -> BatchEnd
    requires memory { IsInMemory K.held K.doubt K.full K.faults }
    requires started { StandsFor (K.held keeper.old) (booted beginning) }
    requires latest { K.latest keeper.old ≤ 0 }
    ensures ends { RunEnds result (Z.told zones.old) beginning
        (tells (S.left source.old) (T.got sink.old) (P.told picker.old) (L.told link.old) (Z.faults zones.old))
        (tells (S.left source.new) (T.got sink.new) (P.told picker.new) (L.told link.new) (Z.faults zones.new)) }
    ensures source_rose { result ≡ BatchEnd.SourceFailed
        → Rose (S.faults source.old) (S.faults source.new) }
    ensures sink_rose { result ≡ BatchEnd.SinkFailed
        → Rose (T.faults sink.old) (T.faults sink.new) }
{
    legal_histories_hold();
    let mut number = 0;
    let mut now = Moment(0);
    'requests: loop {
        match read_request(alloc, source) {
            Ok(Some(request)) => match answer_request(
                alloc, keeper, &mut now, &request, sink, zones, picker, link,
            ) {
                Ok(()) => number += 1,
                Err(_) => return BatchEnd::SinkFailed,
            },
            Err(FrameFault::Unframed) => {
                return answer_unframed(alloc, number + 1, keeper.book().length(), sink);
            }
            Ok(None) => return BatchEnd::Finished,
            Err(FrameFault::SourceFailed) => return BatchEnd::SourceFailed,
            Err(FrameFault::OutOfMemory) => return BatchEnd::OutOfMemory,
        }
    }
}

/// Starts the service, then reads requests to the end of the source, and answers each before the next is read.
pub(crate) fn run_batch<K: Keeper, S: Source, T: Sink, Z: ZoneFiles, P: Picker, L: Link>(
    alloc: Global,
    keeper: &mut K,
    source: &mut S,
    sink: &mut T,
    zones: &mut Z,
    picker: &mut P,
    link: &mut L,
) -> BatchEnd
    requires memory { IsInMemory K.held K.doubt K.full K.faults }
    requires empty { StandsFor (K.stands keeper.old) beginning }
    requires latest { K.latest keeper.old ≡ 0 }
    ensures ends { RunEnds result (Z.told zones.old) beginning
        (tells (S.left source.old) (T.got sink.old) (P.told picker.old) (L.told link.old) (Z.faults zones.old))
        (tells (S.left source.new) (T.got sink.new) (P.told picker.new) (L.told link.new) (Z.faults zones.new)) }
    ensures source_rose { result ≡ BatchEnd.SourceFailed
        → Rose (S.faults source.old) (S.faults source.new) }
    ensures sink_rose { result ≡ BatchEnd.SinkFailed
        → Rose (T.faults sink.old) (T.faults sink.new) }
{
    match start(keeper) {
        Ok(()) => run_requests(alloc, keeper, source, sink, zones, picker, link),
        Err(_) => BatchEnd::OutOfMemory,
    }
}
