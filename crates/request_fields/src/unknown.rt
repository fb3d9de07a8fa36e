//! Members that no table has.
ghost use Rattle.std.specs.Prelude.{◌≡◌, Some, option_map, option_and_then, codes};
ghost use Rattle.serde_json.specs.Find.{get};
ghost use Rattle.serde_json.specs.View.{view, members_view};
ghost use Rattle.request_fields.specs.Members as spec;
ghost use Rattle.request_fields.specs.declared.part.Part.TheVariants.{Schedule, Target, Group};
ghost use Rattle.request_fields.specs.Refusals.{Reads};

use crate::fault::{BAD_REQUEST, DecodeFault, refused};
use crate::part::Part;
use serde_json::{Map, Value};
use std::alloc::Global;

/// The number of the rule that each member is one of its object's.
const MEMBER_RULE: u8 = 6;

/// Whether an object has a member of this name.
fn is_member(part: Part, name: &str) -> bool
    ensures { result ≡ spec.is_among name.now (spec.members_of part) }
{
    match part {
        Part::Schedule => is_of_schedule(name),
        Part::Window => name == "MaximumWindowInMinutes" || name == "Mode",
        Part::Target => is_of_target(name),
        Part::DeadLetters => name == "Arn",
        Part::Retries => name == "MaximumEventAgeInSeconds" || name == "MaximumRetryAttempts",
        Part::Group => name == "ClientToken",
    }
}

fn is_of_schedule(name: &str) -> bool
    ensures { result ≡ spec.is_among name.now (spec.members_of Schedule) }
{
    name == "ActionAfterCompletion"
        || name == "ClientToken"
        || name == "Description"
        || name == "EndDate"
        || name == "FlexibleTimeWindow"
        || name == "GroupName"
        || name == "ScheduleExpression"
        || name == "ScheduleExpressionTimezone"
        || name == "StartDate"
        || name == "State"
        || name == "Target"
}

fn is_of_target(name: &str) -> bool
    ensures { result ≡ spec.is_among name.now (spec.members_of Target) }
{
    name == "Arn"
        || name == "DeadLetterConfig"
        || name == "Input"
        || name == "RetryPolicy"
        || name == "RoleArn"
}

/// The path of an object.
fn prefix_of(part: Part) -> &'static str
    ensures { result.now ≡ spec.prefix_of part }
{
    match part {
        Part::Schedule => "",
        Part::Window => "FlexibleTimeWindow.",
        Part::Target => "Target.",
        Part::DeadLetters => "Target.DeadLetterConfig.",
        Part::Retries => "Target.RetryPolicy.",
        Part::Group => "",
    }
}

/// The first member that is not one of the object's.
fn first_unknown(part: Part, members: &Map<String, Value>) -> Option<(Part, &str)>
    ensures { option_map (λ it. (it.0, it.1.now)) result
        ≡ spec.first_unknown part (members_view members.entry.now.entries) }
{
    for (name, _) in members {
        if !is_member(part, name.as_str()) {
            return Some((part, name.as_str()));
        }
    }
    None
}

/// The same of what is given there. What is no object has none.
fn unknown_in(part: Part, here: Option<&Value>) -> Option<(Part, &str)>
    ensures { option_map (λ it. (it.0, it.1.now)) result
        ≡ spec.unknown_in part (option_map (λ it. view it.now) here.entry) }
{
    match here {
        Some(value) => match value.as_object() {
            Some(members) => first_unknown(part, members),
            None => None,
        },
        None => None,
    }
}

/// The member of what may be an object.
fn member_of<'a>(object: Option<&'a Value>, name: &str) -> Option<&'a Value>
    ensures { option_map (λ it. view it.now) result
        ≡ option_and_then (get name.now) (option_map (λ it. view it.now) object.entry) }
{
    match object {
        Some(object) => object.get(name),
        None => None,
    }
}

/// The first unknown member of the objects in a target.
fn unknown_below(target: Option<&Value>) -> Option<(Part, &str)>
    ensures { option_map (λ it. (it.0, it.1.now)) result
        ≡ spec.unknown_below (option_map (λ it. view it.now) target.entry) }
{
    if let Some(place) = unknown_in(Part::DeadLetters, member_of(target, "DeadLetterConfig")) {
        return Some(place);
    }
    unknown_in(Part::Retries, member_of(target, "RetryPolicy"))
}

/// The first unknown member of a schedule's body and the objects in it, outer ones before inner ones.
fn unknown_of_schedule(body: &Value) -> Option<(Part, &str)>
    ensures { option_map (λ it. (it.0, it.1.now)) result ≡ spec.unknown_of_schedule (view body.entry.now) }
{
    if let Some(place) = unknown_in(Part::Schedule, Some(body)) {
        return Some(place);
    }
    if let Some(place) = unknown_in(Part::Window, body.get("FlexibleTimeWindow")) {
        return Some(place);
    }
    let target = body.get("Target");
    if let Some(place) = unknown_in(Part::Target, target) {
        return Some(place);
    }
    unknown_below(target)
}

/// Refuses a member, called by its path.
fn refuse(alloc: Global, place: Option<(Part, &str)>) -> Result<(), DecodeFault>
    ensures { Reads result (spec.unless_unknown (option_map (λ it. (it.0, it.1.now)) place.entry)) }
{
    match place {
        Some((part, name)) => {
            let refusal = refused(alloc, MEMBER_RULE, BAD_REQUEST, prefix_of(part), name)?;
            Err(DecodeFault::Refused(refusal))
        }
        None => Ok(()),
    }
}

/// Refuses the first member of a schedule's body, or of an object in it, that is unknown.
pub fn refuse_unknown_in_schedule(alloc: Global, body: &Value) -> Result<(), DecodeFault>
    ensures { Reads result (spec.unless_unknown (spec.unknown_of_schedule (view body.now))) }
{
    refuse(alloc, unknown_of_schedule(body))
}

/// Refuses the first member of a group's body that is unknown.
pub fn refuse_unknown_in_group(alloc: Global, body: &Value) -> Result<(), DecodeFault>
    ensures { Reads result (spec.unless_unknown (spec.unknown_in Group (Some (view body.now)))) }
{
    refuse(alloc, unknown_in(Part::Group, Some(body)))
}
