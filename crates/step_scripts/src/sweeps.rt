//! Sweeps: all that is to be done in a shard at a moment, as a service with one worker does it.
ghost use Rattle.std.specs.Prelude.{◌<◌, IfOk, IfSome};
ghost use Rattle.plain_words.specs.declared.limits.TheConstants.{SHARDS};
ghost use Rattle.sched_plain.specs.Validity.{IsValid};

use crate::offers::offered;
use crate::pairs::chosen_pairs;
use crate::steps::{checked, verdict_of};
use plain_words::{LEASE_SECONDS, Moment, SHARDS, shard_of};
use sched_plain::{Step, Work};
use std::alloc::{AllocError, Global};
use step_machine::{LegalFault, Machine};

/// The worker that sweeps.
const WORKER: u32 = 0;

/// What comes from outside in a sweep.
#[derive(Debug, Clone, Copy, PartialEq, Eq)]
pub struct Replies {
    /// The word that chooses each moment in its window.
    pub word: u64,
    /// The status of each reply, 0 where it is lost.
    pub status: u16,
}

/// What a sweep did.
#[derive(Debug, Clone, Copy, PartialEq, Eq)]
pub struct Swept {
    pub enters: u64,
    pub closes: u64,
    pub attempts: u64,
    pub completes: u64,
}

impl Swept {
    /// Nothing.
    pub const NONE: Swept = Swept {
        enters: 0,
        closes: 0,
        attempts: 0,
        completes: 0,
    };

    /// Counts a step.
    fn count(&mut self, step: &Step) {
        match step {
            Step::Enter { .. } => self.enters = self.enters.saturating_add(1),
            Step::Close { .. } => self.closes = self.closes.saturating_add(1),
            Step::Begin { .. } => self.attempts = self.attempts.saturating_add(1),
            Step::Complete { .. } => self.completes = self.completes.saturating_add(1),
            _ => {}
        }
    }
}

fn enter<M: Machine>(
    machine: &M,
    alloc: Global,
    at: Moment,
    inc: u32,
    word: u64,
) -> Result<Option<Step>, AllocError> {
    let instants = machine.wanted(inc, at)?;
    let Some(first) = instants.as_slice().first() else {
        return Ok(None);
    };
    let window = match machine.content(inc, *first) {
        Some(content) => content.window,
        None => 0,
    };
    let pairs = chosen_pairs(alloc, instants.as_slice(), window, word)?;
    Ok(Some(Step::Enter { at, inc, pairs }))
}

fn begin<M: Machine>(machine: &M, at: Moment, inc: u32, instant: u64) -> Option<Step> {
    let entry = machine.entry(inc, instant)?;
    Some(Step::Begin {
        at,
        inc,
        instant,
        number: entry.used.checked_add(1)?,
        epoch: machine.holder(shard_of(inc)).epoch,
    })
}

/// The End of an attempt that a step begins, with the status of its reply.
fn reply_to(step: &Step, status: u16) -> Option<Step>
    ensures { IfSome result IsValid }
{
    match step {
        Step::Begin {
            at,
            inc,
            instant,
            number,
            ..
        } => checked(Some(Step::End {
            at: *at,
            inc: *inc,
            instant: *instant,
            number: *number,
            verdict: verdict_of(status),
            status,
        })),
        _ => None,
    }
}

/// The step that does the next work of a shard. None where nothing is left to be done, or a reply is waited for.
pub fn next_step<M: Machine>(
    machine: &M,
    alloc: Global,
    shard: u8,
    at: Moment,
    word: u64,
) -> Result<Option<Step>, AllocError>
    requires { shard < SHARDS }
    ensures { IfOk result (λ step. IfSome step IsValid) }
{
    let step = match machine.next_work(shard, at) {
        Work::Enter { inc } => enter(machine, alloc, at, inc, word)?,
        Work::Close {
            inc,
            instant,
            reason,
        } => Some(Step::Close {
            at,
            inc,
            instant,
            reason,
        }),
        Work::Begin { inc, instant } => begin(machine, at, inc, instant),
        Work::Complete { inc } => Some(Step::Complete { at, inc }),
        Work::Live { .. } | Work::Settled => None,
    };
    Ok(checked(step))
}

/// Offers a step, if there is one.
fn offered_perhaps<M: Machine>(machine: &mut M, step: Option<Step>) -> Result<(), LegalFault>
    requires { IfSome step IsValid }
{
    match step {
        Some(step) => offered(machine, step),
        None => Ok(()),
    }
}

/// Offers a step, if it is valid.
fn offered_checked<M: Machine>(machine: &mut M, step: Step) -> Result<(), LegalFault> {
    offered_perhaps(machine, checked(Some(step)))
}

/// The step of the next work, where memory is there.
fn wanted_step<M: Machine>(
    machine: &M,
    alloc: Global,
    shard: u8,
    at: Moment,
    word: u64,
) -> Result<Option<Step>, LegalFault>
    requires { shard < SHARDS }
    ensures { IfOk result (λ step. IfSome step IsValid) }
{
    match next_step(machine, alloc, shard, at, word) {
        Ok(step) => Ok(step),
        Err(AllocError) => Err(LegalFault::OutOfMemory),
    }
}

/// Does the next work of a shard, and counts it. Whether there was some.
fn worked<M: Machine>(
    machine: &mut M,
    alloc: Global,
    shard: u8,
    at: Moment,
    replies: Replies,
    swept: &mut Swept,
) -> Result<bool, LegalFault>
    requires { shard < SHARDS }
{
    let Some(step) = wanted_step(machine, alloc, shard, at, replies.word)? else {
        return Ok(false);
    };
    swept.count(&step);
    let reply = reply_to(&step, replies.status);
    offered(machine, step)?;
    offered_perhaps(machine, reply)?;
    Ok(true)
}

/// Does all that is to be done in a shard, under a lease of its own, and counts it.
pub fn sweep_shard<M: Machine>(
    machine: &mut M,
    alloc: Global,
    shard: u8,
    at: Moment,
    replies: Replies,
    swept: &mut Swept,
) -> Result<(), LegalFault>
    requires { shard < SHARDS }
{
    let epoch = machine.holder(shard).epoch.saturating_add(1);
    let until = at.0.saturating_add(LEASE_SECONDS);
    let worker = WORKER;
    offered_checked(
        machine,
        Step::Lease {
            at,
            shard,
            worker,
            epoch,
            until,
        },
    )?;
    for _ in 0..u64::MAX {
        if !worked(machine, alloc, shard, at, replies, swept)? {
            break;
        }
    }
    offered_checked(machine, Step::Swept { at, shard })?;
    offered_checked(
        machine,
        Step::Release {
            at,
            shard,
            worker,
            epoch,
        },
    )
}

/// Does all that is to be done, shard by shard.
pub fn sweep<M: Machine>(
    machine: &mut M,
    alloc: Global,
    at: Moment,
    replies: Replies,
) -> Result<Swept, LegalFault> {
    let mut swept = Swept::NONE;
    for shard in 0..SHARDS {
        sweep_shard(machine, alloc, shard, at, replies, &mut swept)?;
    }
    Ok(swept)
}
