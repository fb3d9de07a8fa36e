//! Why a write may not be applied to the schedules and groups that are there.
ghost use Rattle.std.specs.Prelude.{◌≡◌};
ghost use Rattle.plain_words.specs.Lists.{same_text};
ghost use Rattle.sched_plain.specs.Groups.{default_name, has_group, row_fault};
ghost use Rattle.sched_rows.specs.State.{rows_in};
ghost use Rattle.sched_rows.specs.FaultParts.{creation_fault, too_many_schedules, named_fault, group_creation_fault, group_deletion_fault};

use crate::groups::Groups;
use crate::order::same_text;
use crate::schedules::Schedules;
use sched_plain::{MOST_GROUPS, MOST_INCARNATIONS, MOST_SCHEDULES, Name, RowFault, Write};

/// Whether a group of a name is there.
fn has_group(groups: &Groups, name: &Name) -> bool
    ensures { result ≡ has_group groups.now.groups name.now }
{
    match groups.get(name) {
        Some(_) => true,
        None => false,
    }
}

/// Whether a name is that of the group that is there from the start.
fn is_default(name: &Name) -> bool
    ensures { result ≡ same_text name.now default_name }
{
    same_text(name.as_bytes(), "default".as_bytes())
}

/// Why a schedule may not be created under a name: no such group, a schedule of that name, too many schedules at this
/// time, or too many ever.
fn creation_fault(
    schedules: &Schedules,
    groups: &Groups,
    group: &Name,
    name: &Name,
) -> Option<RowFault>
    ensures { result ≡ creation_fault (rows_in schedules.now.rows) groups.now.groups group.now name.now }
{
    if !has_group(groups, group) {
        return Some(RowFault::NoGroup);
    }
    if schedules.live(group, name).is_some() {
        return Some(RowFault::Exists);
    }
    too_many_schedules(schedules)
}

/// Why no further schedule may be created.
fn too_many_schedules(schedules: &Schedules) -> Option<RowFault>
    ensures { result ≡ too_many_schedules (rows_in schedules.now.rows) }
{
    let living = schedules.living_count();
    if living >= MOST_SCHEDULES {
        return Some(RowFault::TooMany { count: living });
    }
    let created = schedules.created_count();
    if created >= MOST_INCARNATIONS {
        return Some(RowFault::TooMany { count: created });
    }
    None
}

/// Why the schedule of a name may not be updated or deleted: no such group, or no such schedule.
fn named_fault(
    schedules: &Schedules,
    groups: &Groups,
    group: &Name,
    name: &Name,
) -> Option<RowFault>
    ensures { result ≡ named_fault (rows_in schedules.now.rows) groups.now.groups group.now name.now }
{
    if !has_group(groups, group) {
        return Some(RowFault::NoGroup);
    }
    if schedules.live(group, name).is_none() {
        return Some(RowFault::Missing);
    }
    None
}

/// Why a group may not be created: it is there, or there are too many.
fn group_creation_fault(groups: &Groups, name: &Name) -> Option<RowFault>
    ensures { result ≡ group_creation_fault groups.now.groups name.now }
{
    if has_group(groups, name) {
        return Some(RowFault::GroupExists);
    }
    let count = groups.count();
    if count >= MOST_GROUPS {
        return Some(RowFault::TooMany { count });
    }
    None
}

/// Why a group may not be deleted: it is the one that is always there, or it is not there.
fn group_deletion_fault(groups: &Groups, name: &Name) -> Option<RowFault>
    ensures { result ≡ group_deletion_fault groups.now.groups name.now }
{
    if is_default(name) {
        return Some(RowFault::DefaultGroup);
    }
    if !has_group(groups, name) {
        return Some(RowFault::NoGroup);
    }
    None
}

/// The first fault of a write over the schedules and groups that are there.
pub fn fault_of(schedules: &Schedules, groups: &Groups, write: &Write) -> Option<RowFault>
    ensures { result ≡ row_fault (rows_in schedules.now.rows) groups.now.groups write.now }
{
    match write {
        Write::CreateSchedule { group, name, .. } => creation_fault(schedules, groups, group, name),
        Write::UpdateSchedule { group, name, .. } => named_fault(schedules, groups, group, name),
        Write::DeleteSchedule { group, name, .. } => named_fault(schedules, groups, group, name),
        Write::CreateGroup { name, .. } => group_creation_fault(groups, name),
        Write::DeleteGroup { name, .. } => group_deletion_fault(groups, name),
    }
}
