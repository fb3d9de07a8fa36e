use crate::letter_row::LetterRows;
use crate::page::{GroupPage, Page};
use sched_plain::{Attempts, Entry, GroupRow, Moment, Name, Schedule, Text, TryCopy};
use std::alloc::AllocError;

/// Why a request is refused: the number of the rule that it breaks, the HTTP status of the answer,
/// and what the message names.
#[derive(Debug, Drop)]
pub struct Refusal {
    pub rule: u8,
    pub status: u16,
    pub subject: Text,
}

/// What a read answers.
#[derive(Debug, Drop)]
pub enum ReadReply {
    Schedule {
        group: Name,
        name: Name,
        created: Moment,
        changed: Moment,
        content: Schedule,
    },
    Group(GroupRow),
    Schedules(Page),
    Groups(GroupPage),
    Execution {
        group: Name,
        name: Name,
        inc: u32,
        instant: u64,
        entry: Entry,
        attempts: Attempts,
    },
    Letters(LetterRows),
}

/// What a call answers that is not refused.
#[derive(Debug, Drop)]
pub enum Reply {
    /// A schedule or a group was created or updated; its arn.
    Created { arn: Text },
    /// Something was deleted.
    Empty,
    Read(ReadReply),
    /// A sweep at this moment is settled.
    Settled { at: Moment },
}

impl TryCopy for Refusal {
    fn copy(&self) -> Result<Refusal, AllocError> {
        Ok(Refusal {
            rule: self.rule,
            status: self.status,
            subject: self.subject.copy()?,
        })
    }
}

impl TryCopy for ReadReply {
    fn copy(&self) -> Result<ReadReply, AllocError> {
        match self {
            ReadReply::Schedule {
                group,
                name,
                created,
                changed,
                content,
            } => {
                Ok(ReadReply::Schedule {
                    group: group.copy()?,
                    name: name.copy()?,
                    created: *created,
                    changed: *changed,
                    content: content.copy()?,
                })
            }
            ReadReply::Group(row) => Ok(ReadReply::Group(row.copy()?)),
            ReadReply::Schedules(page) => Ok(ReadReply::Schedules(page.copy()?)),
            ReadReply::Groups(page) => Ok(ReadReply::Groups(page.copy()?)),
            ReadReply::Execution {
                group,
                name,
                inc,
                instant,
                entry,
                attempts,
            } => {
                Ok(ReadReply::Execution {
                    group: group.copy()?,
                    name: name.copy()?,
                    inc: *inc,
                    instant: *instant,
                    entry: *entry,
                    attempts: attempts.copy()?,
                })
            }
            ReadReply::Letters(rows) => Ok(ReadReply::Letters(rows.copy()?)),
        }
    }
}

impl TryCopy for Reply {
    fn copy(&self) -> Result<Reply, AllocError> {
        match self {
            Reply::Created { arn } => Ok(Reply::Created { arn: arn.copy()? }),
            Reply::Empty => Ok(Reply::Empty),
            Reply::Read(reply) => Ok(Reply::Read(reply.copy()?)),
            Reply::Settled { at } => Ok(Reply::Settled { at: *at }),
        }
    }
}
