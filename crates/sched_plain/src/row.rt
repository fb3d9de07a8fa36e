use crate::schedule::Schedule;
use plain_words::{Items, Moment, Name, TryCopy};
use std::alloc::AllocError;

/// A content of an incarnation with the span of instants that it covers, both ends included.
#[derive(Debug, Drop)]
pub struct Revision {
    pub content: Schedule,
    pub from: u64,
    pub to: u64,
}

/// The revisions of an incarnation, the first one first.
pub type Revisions = Items<Revision>;

/// An incarnation of a schedule; it stays when the schedule is deleted.
#[derive(Debug, Drop)]
pub struct Row {
    pub group: Name,
    pub name: Name,
    pub created: Moment,
    /// The moment of the last accepted change.
    pub changed: Moment,
    pub lives: bool,
    pub revisions: Revisions,
}

/// A group of schedules.
#[derive(Debug, Drop)]
pub struct GroupRow {
    pub name: Name,
    pub created: Moment,
}

/// The rows of a list of groups, in order.
pub type GroupRows = Items<GroupRow>;

impl TryCopy for Revision {
    fn copy(&self) -> Result<Revision, AllocError> {
        Ok(Revision {
            content: self.content.copy()?,
            from: self.from,
            to: self.to,
        })
    }
}

impl TryCopy for Row {
    fn copy(&self) -> Result<Row, AllocError> {
        Ok(Row {
            group: self.group.copy()?,
            name: self.name.copy()?,
            created: self.created,
            changed: self.changed,
            lives: self.lives,
            revisions: self.revisions.copy()?,
        })
    }
}

impl TryCopy for GroupRow {
    fn copy(&self) -> Result<GroupRow, AllocError> {
        Ok(GroupRow {
            name: self.name.copy()?,
            created: self.created,
        })
    }
}
