use sched_plain::{GroupRows, Items, Moment, Name, Text, TryCopy};
use std::alloc::AllocError;

/// A schedule as a list of schedules shows it.
#[derive(Debug, Drop)]
pub struct ListRow {
    pub group: Name,
    pub name: Name,
    pub created: Moment,
    pub changed: Moment,
    pub enabled: bool,
    pub target: Text,
}

/// The rows of a list of schedules, in order.
pub type ListRows = Items<ListRow>;

/// A part of the list of schedules.
#[derive(Debug, Drop)]
pub struct Page {
    pub rows: ListRows,
    /// Whether further rows follow.
    pub more: bool,
}

/// A part of the list of groups.
#[derive(Debug, Drop)]
pub struct GroupPage {
    pub groups: GroupRows,
    /// Whether further groups follow.
    pub more: bool,
}

impl TryCopy for ListRow {
    fn copy(&self) -> Result<ListRow, AllocError> {
        Ok(ListRow {
            group: self.group.copy()?,
            name: self.name.copy()?,
            created: self.created,
            changed: self.changed,
            enabled: self.enabled,
            target: self.target.copy()?,
        })
    }
}

impl TryCopy for Page {
    fn copy(&self) -> Result<Page, AllocError> {
        Ok(Page {
            rows: self.rows.copy()?,
            more: self.more,
        })
    }
}

impl TryCopy for GroupPage {
    fn copy(&self) -> Result<GroupPage, AllocError> {
        Ok(GroupPage {
            groups: self.groups.copy()?,
            more: self.more,
        })
    }
}
