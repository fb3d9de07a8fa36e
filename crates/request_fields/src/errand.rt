//! What a schedule sends, and where, as its body says.
ghost use Rattle.std.specs.Prelude.{◌≡◌, ◌++◌, [], codes};
ghost use Rattle.serde_json.specs.View.{view};
ghost use Rattle.plain_words.specs.declared.limits.TheConstants.{LONGEST_ARN, MOST_RETRIES, LEAST_AGE, LONGEST_AGE};
ghost use Rattle.request_fields.specs.Contents.{errand_of, limits_of, policy_of, queue_of};
ghost use Rattle.request_fields.specs.Refusals.{Reads};
ghost use Rattle.request_fields.specs.Rows as row;
ghost use Rattle.request_fields.specs.Words as word;

use crate::fault::DecodeFault;
use crate::members::{input_at, queue_at, target_at, text_at};
use crate::numbers::{age_at, retries_at};
use crate::objects::{left_out, object_needed, object_or};
use crate::rows::{or_default, or_none, required};
use sched_plain::{LONGEST_AGE, LONGEST_ARN, MOST_RETRIES, Policy, Text};
use serde_json::Value;
use std::alloc::Global;

/// What a schedule sends, and where.
#[derive(Debug, Drop)]
pub struct Errand {
    /// The target's arn, the address of a target.
    pub target: Text,
    /// The role's arn, which is kept without meaning.
    pub role: Text,
    /// The arn of the queue of dead letters, where one is named.
    pub queue: Option<Text>,
    /// The input that the target gets, where one is given.
    pub input: Option<Text>,
    /// How often and for how long an occurrence is tried again.
    pub policy: Policy,
}

/// Reads what a schedule sends, and where: the rows of the table from Target on, in their order.
pub(crate) fn read_errand(alloc: Global, body: &Value) -> Result<Errand, DecodeFault>
    ensures { Reads result (errand_of (view body.now)) }
{
    let object = object_needed(alloc, body, "", "Target")?;
    let target = read_target(alloc, object)?;
    let role = read_role(alloc, object)?;
    let queue = read_queue(alloc, object)?;
    let input = read_input(alloc, object)?;
    let policy = read_policy(alloc, object)?;
    Ok(Errand {
        target,
        role,
        queue,
        input,
        policy,
    })
}

fn read_target(alloc: Global, object: &Value) -> Result<Text, DecodeFault>
    ensures { Reads result
        (row.required (codes "Target.") (codes "Arn") (row.in_text word.target_word) (view object.now)) }
{
    let found = target_at(alloc, object, "Arn")?;
    required(alloc, "Target.", "Arn", found)
}

fn read_role(alloc: Global, object: &Value) -> Result<Text, DecodeFault>
    ensures { Reads result (row.required (codes "Target.") (codes "RoleArn")
        (row.in_text (word.text_word 1 LONGEST_ARN)) (view object.now)) }
{
    let found = text_at(alloc, object, "RoleArn", 1, LONGEST_ARN)?;
    required(alloc, "Target.", "RoleArn", found)
}

fn read_queue(alloc: Global, object: &Value) -> Result<Option<Text>, DecodeFault>
    ensures { Reads result (queue_of (view object.now)) }
{
    let none = left_out();
    let letters = object_or(alloc, object, "Target.", "DeadLetterConfig", &none)?;
    read_queue_arn(alloc, letters)
}

fn read_queue_arn(alloc: Global, letters: &Value) -> Result<Option<Text>, DecodeFault>
    ensures { Reads result
        (row.optional (codes "Target.DeadLetterConfig.") (codes "Arn") (row.in_text word.queue_word) (view letters.now)) }
{
    let found = queue_at(alloc, letters, "Arn")?;
    or_none(alloc, "Target.DeadLetterConfig.", "Arn", found)
}

fn read_input(alloc: Global, object: &Value) -> Result<Option<Text>, DecodeFault>
    ensures { Reads result
        (row.optional (codes "Target.") (codes "Input") (row.in_text word.input_word) (view object.now)) }
{
    let found = input_at(alloc, object, "Input")?;
    or_none(alloc, "Target.", "Input", found)
}

fn read_policy(alloc: Global, object: &Value) -> Result<Policy, DecodeFault>
    ensures { Reads result (policy_of (view object.now)) }
{
    let none = left_out();
    let policy = object_or(alloc, object, "Target.", "RetryPolicy", &none)?;
    read_limits(alloc, policy)
}

fn read_limits(alloc: Global, policy: &Value) -> Result<Policy, DecodeFault>
    ensures { Reads result (limits_of (view policy.now)) }
{
    let retries = read_retries(alloc, policy)?;
    let age = read_age(alloc, policy)?;
    Ok(Policy { retries, age })
}

fn read_retries(alloc: Global, policy: &Value) -> Result<u8, DecodeFault>
    ensures { Reads result (row.defaulted (codes "Target.RetryPolicy.") (codes "MaximumRetryAttempts")
        (row.whole 0 MOST_RETRIES) MOST_RETRIES (view policy.now)) }
{
    let name = "MaximumRetryAttempts";
    or_default(
        alloc,
        "Target.RetryPolicy.",
        name,
        retries_at(policy, name),
        MOST_RETRIES,
    )
}

fn read_age(alloc: Global, policy: &Value) -> Result<u32, DecodeFault>
    ensures { Reads result (row.defaulted (codes "Target.RetryPolicy.") (codes "MaximumEventAgeInSeconds")
        (row.whole LEAST_AGE LONGEST_AGE) LONGEST_AGE (view policy.now)) }
{
    let name = "MaximumEventAgeInSeconds";
    or_default(
        alloc,
        "Target.RetryPolicy.",
        name,
        age_at(policy, name),
        LONGEST_AGE,
    )
}
