//! The request of an attempt, made before the attempt is begun, and sent behind its Begin.
ghost use Rattle.std.specs.Prelude.{◌≡◌, ◌<◌, ◌≤◌, length, IfOk, IfSome};
ghost use Rattle.sched_plain.specs.History.{History};
ghost use Rattle.sched_plain.specs.Validity.{IsStatus};
ghost use Rattle.sched_calls.specs.Replies.{schedule_arn};
ghost use Rattle.target_link.specs.declared.link.Heard.{Heard as Heard};
ghost use Rattle.target_link.specs.Told.{with_sent};
ghost use Rattle.timer_work.specs.Ready.{request_in, request_within, HasRoom};
ghost use Rattle.timer_work.specs.Sendings.{HeardSays, AttemptSent, facts_by, facts_of, request_by, request_for};

use plain_words::copy_option;
use sched_calls::arn_of;
use sched_plain::{LAST_MOMENT, Name, Schedule, Verdict};
use std::alloc::{AllocError, Global};
use step_machine::Machine;
use target_link::{
    Address, BeginFacts, LONGEST_REPLY, Link, SpotFault, address_of, request_of, verdict_of,
};

/// A request that is ready to be sent, with room for its reply.
#[derive(Debug, Drop)]
pub struct ReadyRequest {
    /// Where it goes.
    pub to: Address,
    /// Its bytes.
    pub text: Vec<u8>,
    /// The room for its reply.
    pub reply: Vec<u8>,
}

/// What the request of an attempt says, by the names and the content of its schedule.
fn facts_by(
    alloc: Global,
    group: &Name,
    name: &Name,
    content: &Schedule,
    inc: u32,
    instant: u64,
    number: u16,
) -> Result<Option<BeginFacts>, AllocError>
    ensures facts { IfOk result (λ facts. facts ≡ facts_by inc instant number (schedule_arn group.now name.now) content.now) }
    ensures instant { IfOk result (λ facts. IfSome facts (λ facts. facts.instant ≡ instant)) }
{
    let spot = match address_of(alloc, &content.target) {
        Ok(spot) => spot,
        Err(SpotFault::NotATarget) => return Ok(None),
        Err(SpotFault::OutOfMemory) => return Err(AllocError),
    };
    Ok(Some(BeginFacts {
        arn: arn_of(alloc, group, name)?,
        inc,
        instant,
        number,
        spot,
        input: copy_option(&content.input)?,
    }))
}

/// What the request of an attempt says; nothing where its target is no address.
fn facts_of<M: Machine>(
    alloc: Global,
    machine: &M,
    inc: u32,
    instant: u64,
    number: u16,
) -> Result<Option<BeginFacts>, AllocError>
    ensures facts { (h : History) → M.stands machine.now h → IfOk result (λ facts. facts ≡ facts_of h inc instant number) }
    ensures instant { IfOk result (λ facts. IfSome facts (λ facts. facts.instant ≡ instant)) }
{
    let Some((group, name)) = machine.named(inc) else {
        return Ok(None);
    };
    let Some(content) = machine.content(inc, instant) else {
        return Ok(None);
    };
    facts_by(alloc, group, name, content, inc, instant, number)
}

/// The request that says so, with room at the link for it.
fn made_ready<L: Link>(
    alloc: Global,
    link: &mut L,
    facts: &BeginFacts,
) -> Result<ReadyRequest, AllocError>
    requires { facts.now.instant ≤ LAST_MOMENT }
    ensures request { IfOk result (λ ready. request_in ready ≡ request_by facts.now) }
    ensures ready { IfOk result (λ ready. (0 < L.sends_left link.new) × (length ready.text.items ≤ L.most_bytes link.new)) }
    ensures told { L.told link.new ≡ L.told link.old }
    ensures losses { L.losses link.new ≡ L.losses link.old }
{
    let text = request_of(alloc, facts)?;
    let reply = vec![in alloc; 0; LONGEST_REPLY]?;
    link.ready(1, text.len())?;
    Ok(ReadyRequest {
        to: facts.spot.address,
        text,
        reply,
    })
}

/// Makes the request of an attempt and all the room that sending it wants; nothing where its target is no address.
pub(crate) fn prepare<M: Machine, L: Link>(
    alloc: Global,
    machine: &M,
    link: &mut L,
    inc: u32,
    instant: u64,
    number: u16,
) -> Result<Option<ReadyRequest>, AllocError>
    requires { instant ≤ LAST_MOMENT }
    ensures request { (h : History) → M.stands machine.now h → IfOk result (λ ready. request_within ready ≡ request_for h inc instant number) }
    ensures room { IfOk result (HasRoom (L.sends_left link.new) (L.most_bytes link.new)) }
    ensures told { L.told link.new ≡ L.told link.old }
    ensures losses { L.losses link.new ≡ L.losses link.old }
{
    match facts_of(alloc, machine, inc, instant, number)? {
        Some(facts) => Ok(Some(made_ready(alloc, link, &facts)?)),
        None => Ok(None),
    }
}

/// Sends a request that is ready, once; the answer is what its reply says. A lost link gives Retry and 0. It takes no memory.
pub fn post_one<L: Link>(link: &mut L, request: ReadyRequest) -> (Verdict, u16)
    requires sends { 0 < L.sends_left link.old }
    requires fits { length request.text.items ≤ L.most_bytes link.old }
    ensures sent { (answer : Heard) × (L.told link.new ≡ with_sent request.to request.text.items (length request.reply.items) answer (L.told link.old)) × HeardSays answer result.0 result.1 }
    ensures status { IsStatus result.1 }
    ensures losses { L.losses link.old ≤ L.losses link.new }
{
    let mut request = request;
    match link.send(request.to, &request.text, &mut request.reply) {
        Ok(length) => verdict_of(&request.reply[..length]),
        Err(_) => (Verdict::Retry, 0),
    }
}

/// Sends the request of an attempt, where it has one; the answer is what its reply says of the attempt.
pub(crate) fn send<L: Link>(link: &mut L, request: Option<ReadyRequest>) -> (Verdict, u16)
    requires { HasRoom (L.sends_left link.old) (L.most_bytes link.old) request }
    ensures sent { AttemptSent (request_within request) (L.told link.old) (L.told link.new) result.0 result.1 }
    ensures status { IsStatus result.1 }
    ensures losses { L.losses link.old ≤ L.losses link.new }
{
    match request {
        Some(request) => post_one(link, request),
        None => (Verdict::Retry, 0),
    }
}
