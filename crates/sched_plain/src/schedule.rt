ghost use Rattle.std.specs.Prelude.{◌≡◌, ◌↔◌, IsTrue, IfOk};
ghost use Rattle.sched_plain.specs.Contents.{SameTexts, SameTiming};

use expressions::Expr;
use plain_words::{Text, TryCopy, ZoneName, copy_option};
use std::alloc::AllocError;

/// How often and for how long an occurrence is tried again (EventBridge Scheduler, `RetryPolicy`).
#[derive(Debug, Clone, Copy, PartialEq, Eq)]
pub struct Policy {
    /// The most retries after the first attempt, 0 to 185.
    pub retries: u8,
    /// Seconds after the chosen moment at which an occurrence is given up, 60 to 86400.
    pub age: u32,
}

/// What a schedule says, with all defaults filled in.
#[derive(Debug, Drop)]
pub struct Schedule {
    /// At most 512 characters; empty where there is none.
    pub description: Text,
    /// The expression as the caller wrote it.
    pub text: Text,
    /// What that text spells.
    pub expr: Expr,
    /// The zone in which `at` and `cron` are read.
    pub zone: ZoneName,
    /// The first moment at which a rate or a cron counts, where one is given.
    pub start: Option<u64>,
    /// The last moment at which a rate or a cron counts, where one is given.
    pub finish: Option<u64>,
    /// Whether the schedule has occurrences while this content stands.
    pub enabled: bool,
    /// Whether the schedule is deleted once it has nothing left to do.
    pub delete_after: bool,
    /// Minutes of the flexible window; 0 is OFF.
    pub window: u16,
    pub policy: Policy,
    /// The target's arn.
    pub target: Text,
    /// The role's arn, which is kept without meaning.
    pub role: Text,
    /// The arn of the dead-letter queue, where one is named.
    pub queue: Option<Text>,
    /// The input that the target gets, where one is given.
    pub input: Option<Text>,
}

fn is_same_option(one: &Option<Text>, other: &Option<Text>) -> bool
    ensures { IsTrue result ↔ (one.now ≡ other.now) }
{
    match (one, other) {
        (None, None) => true,
        (Some(one), Some(other)) => one == other,
        _ => false,
    }
}

fn has_same_texts(one: &Schedule, other: &Schedule) -> bool
    ensures { IsTrue result ↔ SameTexts one.now other.now }
{
    one.description == other.description
        && one.text == other.text
        && one.zone == other.zone
        && one.target == other.target
        && one.role == other.role
        && is_same_option(&one.queue, &other.queue)
        && is_same_option(&one.input, &other.input)
}

fn has_same_timing(one: &Schedule, other: &Schedule) -> bool
    ensures { IsTrue result ↔ SameTiming one.now other.now }
{
    one.expr == other.expr
        && one.start == other.start
        && one.finish == other.finish
        && one.enabled == other.enabled
        && one.delete_after == other.delete_after
        && one.window == other.window
        && one.policy == other.policy
}

impl Schedule {
    /// Whether the two contents are equal in all fields.
    pub fn is_same(&self, other: &Schedule) -> bool
        ensures { IsTrue result ↔ (self.now ≡ other.now) }
    {
        has_same_texts(self, other) && has_same_timing(self, other)
    }
}

impl TryCopy for Schedule {
    fn copy(&self) -> Result<Schedule, AllocError> {
        Ok(Schedule {
            description: self.description.copy()?,
            text: self.text.copy()?,
            expr: self.expr,
            zone: self.zone.copy()?,
            start: self.start,
            finish: self.finish,
            enabled: self.enabled,
            delete_after: self.delete_after,
            window: self.window,
            policy: self.policy,
            target: self.target.copy()?,
            role: self.role.copy()?,
            queue: copy_option(&self.queue)?,
            input: copy_option(&self.input)?,
        })
    }
}
