//! Refusals of reads, with the names of what is not there.
ghost use Rattle.std.specs.Prelude.{◌≡◌, IfOk};
ghost use Rattle.plain_words.specs.Ids.{id_text};
ghost use Rattle.sched_calls.specs.Replies.{full_name, refusal};

use sched_calls::Refusal;
use sched_plain::{Name, Text, print_id};
use std::alloc::{AllocError, Global};

/// The number of the rule that a read breaks which names a group that is not there.
const GROUP_RULE: u8 = 9;
/// The number of the rule that a read breaks which names a schedule or an occurrence that is not there.
const ROW_RULE: u8 = 10;
/// The HTTP status of both.
const NOT_FOUND: u16 = 404;

/// The refusal that names a group that is not there. An `Err` is want of memory.
pub fn no_group(alloc: Global, group: &Name) -> Result<Refusal, AllocError>
    ensures { IfOk result (λ refused. refused ≡ refusal 9 404 group.now) }
{
    let subject = String::from_str(alloc, group.as_str())?;
    Ok(Refusal {
        rule: GROUP_RULE,
        status: NOT_FOUND,
        subject: Text::from_string(subject),
    })
}

/// The refusal that names a schedule that is not there. An `Err` is want of memory.
pub fn no_schedule(alloc: Global, group: &Name, name: &Name) -> Result<Refusal, AllocError>
    ensures { IfOk result (λ refused. refused ≡ refusal 10 404 (full_name group.now name.now)) }
{
    let mut subject = String::from_str(alloc, group.as_str())?;
    subject.push_str("/")?;
    subject.push_str(name.as_str())?;
    Ok(Refusal {
        rule: ROW_RULE,
        status: NOT_FOUND,
        subject: Text::from_string(subject),
    })
}

/// The id of an occurrence as text.
fn id_of(alloc: Global, inc: u32, instant: u64) -> Result<Text, AllocError>
    ensures { IfOk result (λ id. id ≡ id_text inc instant) }
{
    match Text::read(alloc, &print_id(inc, instant)) {
        Ok(id) => Ok(id),
        // An id is ASCII, so that only memory can be wanting.
        Err(_) => Err(AllocError),
    }
}

/// The refusal that names an occurrence which has no entry, by its id. An `Err` is want of memory.
pub fn no_execution(alloc: Global, inc: u32, instant: u64) -> Result<Refusal, AllocError>
    ensures { IfOk result (λ refused. refused ≡ refusal 10 404 (id_text inc instant)) }
{
    Ok(Refusal {
        rule: ROW_RULE,
        status: NOT_FOUND,
        subject: id_of(alloc, inc, instant)?,
    })
}
