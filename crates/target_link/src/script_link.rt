ghost use Rattle.std.specs.Prelude.{◌≡◌, ℕ, ◌+◌, ◌<◌, ◌≤◌, length, take, [], Some, IfOk, OnOk, OnErr};
ghost use Rattle.target_link.specs.Script.{cut, next_heard, later_heard};
ghost use Rattle.target_link.specs.Told.{with_sent, heard_by};
ghost use Rattle.outside.specs.Faults.{Rose};

use crate::address::Address;
use crate::link::{Heard, Link, Lost, Sent};
use crate::spares::Spares;
use plain_words::Blob;
use std::alloc::{AllocError, Global};
use std::collections::VecDeque;
use std::marker::Model;

/// A link in memory that follows a script, one part a request, and loses what is sent after its end.
/// It tells what it was handed.
#[derive(Debug, Drop)]
pub struct ScriptLink {
    script: VecDeque<Heard>,
    sent: Vec<Sent>,
    spares: Spares,
    losses: u64,
}

impl Model for ScriptLink {
    ghost use Rattle.std.specs.Prelude.{◌+◌, ◌≤◌, vec_len, vec_capacity};
    ghost use Rattle.target_link.specs.Script.{Script};

    ghost Value = { Script };

    ghost view = { λ l. record {
      to_come = l.script.items;
      sent = l.sent.items;
      sends_left = l.spares.count;
      most_bytes = l.spares.most_bytes;
      losses = l.losses;
    } };

    ghost invariant = { λ l. vec_len l.sent + l.spares.count ≤ vec_capacity l.sent };
}

impl ScriptLink {
    /// A link that brings these back, the first for the first request.
    pub fn new(alloc: Global, answers: Vec<Heard>) -> ScriptLink
        ensures to_come { result.to_come ≡ answers.items }
        ensures sent { result.sent ≡ [] }
        ensures losses { result.losses ≡ 0 }
    {
        ScriptLink {
            script: VecDeque::from_vec(answers),
            sent: Vec::new(alloc),
            spares: Spares::new(alloc),
            losses: 0,
        }
    }

    /// What was sent, the first request first.
    pub fn sent(&self) -> &[Sent]
        ensures { result.now ≡ self.now.sent }
    {
        self.sent.as_slice()
    }

    /// How many requests were lost.
    pub fn losses(&self) -> u64
        ensures { result ≡ self.now.losses }
    {
        self.losses
    }
}

/// What a script gives next, a reply cut to so many bytes.
fn take_answer(script: &mut VecDeque<Heard>, most: usize) -> Heard
    ensures answer { result ≡ cut most (next_heard script.old.items) }
    ensures rest { script.new.items ≡ later_heard script.old.items }
{
    match script.pop_front() {
        Some(Heard::Reply(bytes)) => Heard::Reply(cut_to(bytes, most)),
        Some(Heard::Loss) => Heard::Loss,
        None => Heard::Loss,
    }
}

fn cut_to(bytes: Blob, most: usize) -> Blob
    ensures { result ≡ take most bytes }
{
    let mut bytes = bytes.into_vec();
    bytes.truncate(most);
    Blob::from_vec(bytes)
}

impl Link for ScriptLink {
    ghost told = { λ l. Some l.sent };

    ghost losses = { λ l. l.losses };

    ghost sends_left = { λ l. l.sends_left };

    ghost most_bytes = { λ l. l.most_bytes };

    fn ready(&mut self, sends: u8, longest: usize) -> Result<(), AllocError>
        ensures sends { OnOk result (self.new.sends_left ≡ sends) }
        ensures most_bytes { OnOk result (self.new.most_bytes ≡ longest) }
        ensures told { self.new.sent ≡ self.old.sent }
        ensures losses { self.new.losses ≡ self.old.losses }
        ensures to_come { self.new.to_come ≡ self.old.to_come }
    {
        let spares = Spares::filled(*self.sent.allocator(), sends, longest)?;
        self.sent.reserve(sends as usize)?;
        self.spares = spares;
        Ok(())
    }

    // What is heard is the next part of the script, a reply cut to the length of `reply`.
    fn send(&mut self, to: Address, request: &[u8], reply: &mut [u8]) -> Result<usize, Lost>
        requires sends { 0 < self.old.sends_left }
        requires fits { length request.now ≤ self.old.most_bytes }
        ensures used { self.old.sends_left ≡ self.new.sends_left + 1 }
        ensures most_bytes { self.new.most_bytes ≡ self.old.most_bytes }
        ensures within { IfOk result (λ n. n ≤ length reply.old) }
        ensures told { Some self.new.sent ≡ with_sent to request.now (length reply.old) (heard_by result reply.new) (Some self.old.sent) }
        ensures count { self.old.losses ≤ self.new.losses }
        ensures quiet { OnOk result (self.new.losses ≡ self.old.losses) }
        ensures loud { OnErr result (Rose self.old.losses self.new.losses) }
        ensures gives { heard_by result reply.new ≡ cut (length reply.old) (next_heard self.old.to_come) }
        ensures to_come { self.new.to_come ≡ later_heard self.old.to_come }
    {
        let request = self.spares.keep(request);
        let answer = take_answer(&mut self.script, reply.len());
        let heard = hand_over(&answer, reply);
        if heard.is_err() {
            self.losses = self.losses.saturating_add(1);
        }
        self.sent.push_reserved(Sent {
            to,
            request,
            room: reply.len(),
            heard: answer,
        });
        heard
    }
}

/// Puts a reply into the front of `reply`.
fn hand_over(answer: &Heard, reply: &mut [u8]) -> Result<usize, Lost>
    requires { cut (length reply.old) answer.now ≡ answer.now }
    ensures within { IfOk result (λ n. n ≤ length reply.old) }
    ensures heard { heard_by result reply.new ≡ answer.now }
{
    match answer {
        Heard::Reply(bytes) => {
            let bytes = bytes.as_bytes();
            reply[..bytes.len()].copy_from_slice(bytes);
            Ok(bytes.len())
        }
        Heard::Loss => Err(Lost),
    }
}
