ghost use Rattle.std.specs.Prelude.{◌≡◌, ◌≤◌, true, None, List, ℕ, [], ◌∷◌, length, OnOk, IfOk};
ghost use Rattle.std.specs.List.{filter};
ghost use Rattle.std.specs.Option.{option_copied, option_map};
ghost use Rattle.plain_words.specs.Lists.{nth};
ghost use Rattle.sched_plain.specs.Changes.{Accepted, Written, Removed};
ghost use Rattle.sched_plain.specs.Rows.{content_at, incs_where, is_at, living, rows_after};
ghost use Rattle.sched_calls.specs.Replies.{group_page_of, is_listed, list_rows, listed_groups, page_of};
ghost use Rattle.sched_plain.specs.Groups.{default_name, groups_after, living_count, row_fault};
ghost use Rattle.sched_plain.specs.declared.write.Write.TheVariants.{CreateSchedule, UpdateSchedule, DeleteSchedule, CreateGroup, DeleteGroup};
ghost use Rattle.sched_rows.specs.FaultParts.{creation_fault, group_creation_fault};
ghost use Rattle.sched_rows.specs.Answers.{created_at, least_above, next_living, next_touched, unless_faulty};
ghost use Rattle.sched_rows.specs.State.{HasRoom, Stands, lives_at};

use crate::faults::fault_of;
use crate::groups::Groups;
use crate::row::KeptRow;
use crate::schedules::Schedules;
use sched_calls::{GroupPage, Page};
use sched_plain::{LAST_MOMENT, Moment, Name, NameFault, RowFault, Schedule, Text, Token, Write};
use std::alloc::{AllocError, Global};
use std::marker::Model;

/// The schedules and groups that a list of accepted changes makes.
#[derive(Drop)]
pub struct Rows {
    schedules: Schedules,
    groups: Groups,
}

impl Model for Rows {
    ghost use Rattle.sched_rows.specs.State.{State, rows_in, rooms_in};

    ghost Value = { State };

    ghost view = { λ r. record {
      rows = rows_in r.schedules.rows;
      groups = r.groups.groups;
      latest = r.schedules.latest;
      room = record { rows = r.schedules.room; revisions = rooms_in r.schedules.rows; groups = r.groups.room };
    } };
}

/// The name of the group that is there from the start.
fn default_name(alloc: Global) -> Result<Name, AllocError>
    ensures { IfOk result (λ name. name ≡ default_name) }
{
    match Name::read(alloc, "default".as_bytes()) {
        Ok(name) => Ok(name),
        Err(NameFault::OutOfMemory) => Err(AllocError),
        Err(_) => unreachable!(),
    }
}

impl Rows {
    /// No schedules, and the group `default`, as of moment 0. An `Err` is want of memory.
    pub fn new(alloc: Global) -> Result<Rows, AllocError>
        ensures { IfOk result (λ rows. Stands rows []) }
    {
        let name = default_name(alloc)?;
        let mut groups = Groups::new(alloc);
        groups.reserve()?;
        groups.create(name, Moment(0));
        Ok(Rows {
            schedules: Schedules::new(alloc),
            groups,
        })
    }

    /// Why a write may not be applied, where it may not.
    fn fault(&self, write: &Write) -> Option<RowFault>
        ensures { result ≡ row_fault self.now.rows self.now.groups write.now }
    {
        fault_of(&self.schedules, &self.groups, write)
    }

    /// Whether a write may be applied: `Err` is its first fault over the schedules and groups that are there.
    pub fn check(&self, write: &Write) -> Result<(), RowFault>
        ensures { result ≡ unless_faulty (row_fault self.now.rows self.now.groups write.now) }
    {
        match self.fault(write) {
            Some(fault) => Err(fault),
            None => Ok(()),
        }
    }

    /// The incarnation that lives under a group and a name.
    pub fn live(&self, group: &Name, name: &Name) -> Option<u32>
        ensures { result ≡ living self.now.rows group.now name.now }
    {
        self.schedules.live(group, name)
    }

    /// The row of an incarnation, also of one that has ended; `None` where none was created with this number.
    pub fn row(&self, inc: u32) -> Option<&KeptRow>
        ensures { option_map (λ k. k.row) (option_copied result) ≡ nth self.now.rows inc }
    {
        self.schedules.row(inc)
    }

    /// The content of an incarnation at an instant, in seconds since 1970 UTC: that of the revision whose span has it.
    pub fn revision_at(&self, inc: u32, instant: u64) -> Option<&Schedule>
        ensures { option_copied result ≡ content_at self.now.rows inc instant }
    {
        match self.row(inc) {
            Some(row) => row.content_at(instant),
            None => None,
        }
    }

    /// When a group was created, where it is there.
    pub fn group(&self, name: &Name) -> Option<Moment>
        ensures { result ≡ created_at self.now.groups name.now }
    {
        match self.groups.get(name) {
            Some(group) => Some(group.created),
            None => None,
        }
    }

    /// The least living incarnation above one, of a group where one is named.
    pub fn next_living(&self, group: Option<&Name>, after: u32) -> Option<u32>
        ensures { result ≡ next_living self.now.rows (option_map (λ g. g.now) group.entry) after }
    {
        self.schedules.next_living(group, after)
    }

    /// The least incarnation above one that a write touches. It makes no list.
    pub fn next_touched(&self, write: &Write, after: u32) -> Option<u32>
        ensures { result ≡ next_touched self.now.rows write.now after }
    {
        match write {
            Write::UpdateSchedule { group, name, .. } => self.live_above(group, name, after),
            Write::DeleteSchedule { group, name, .. } => self.live_above(group, name, after),
            Write::DeleteGroup { name, .. } => self.next_living(Some(name), after),
            Write::CreateSchedule { .. } => None,
            Write::CreateGroup { .. } => None,
        }
    }

    /// The incarnation that lives under a name, where it is above one.
    fn live_above(&self, group: &Name, name: &Name, after: u32) -> Option<u32>
        ensures { result ≡ least_above after (incs_where (is_at group.now name.now) self.now.rows) }
    {
        match self.schedules.live(group, name) {
            Some(inc) => if inc > after { Some(inc) } else { None },
            None => None,
        }
    }

    /// The first schedules of a list, at most `max`, by group, then by name, both by their bytes: those of a group, where
    /// one is named, whose names begin with the prefix, that are enabled or not, where that is asked for, and that come
    /// behind the last one of an earlier page, where it is given; it need not be there still. The page says whether more
    /// follow. An `Err` is want of memory.
    pub fn list(
        &self,
        alloc: Global,
        group: Option<&Name>,
        prefix: &Text,
        enabled: Option<bool>,
        after: Option<(&Name, &Name)>,
        max: u8,
    ) -> Result<Page, AllocError>
        ensures { IfOk result (λ page. page ≡ page_of max (filter (is_listed (option_map (λ g. g.now) group.entry) prefix.now enabled (option_map {U = List ℕ × List ℕ} (λ names. (names.0.now, names.1.now)) after.entry)) (list_rows self.now.rows))) }
    {
        self.schedules
            .list(alloc, group, prefix, enabled, after, max)
    }

    /// The same for groups, by their names.
    pub fn groups(
        &self,
        alloc: Global,
        prefix: &Text,
        after: Option<&Name>,
        max: u8,
    ) -> Result<GroupPage, AllocError>
        ensures { IfOk result (λ page. page ≡ group_page_of max (listed_groups prefix.now (option_map (λ n. n.now) after.entry) self.now.groups)) }
    {
        self.groups.list(alloc, prefix, after, max)
    }

    /// How many schedules live.
    pub fn living_count(&self) -> u64
        ensures { result ≡ living_count self.now.rows }
    {
        self.schedules.living_count()
    }

    /// Whether an incarnation lives.
    pub fn lives(&self, inc: u32) -> bool
        ensures { result ≡ lives_at self.now.rows inc }
    {
        self.schedules.lives(inc)
    }

    /// The moment of the latest change that was applied, in seconds since 1970 UTC, or 0 where none was. No later change
    /// may come before it.
    pub fn latest(&self) -> u64
        ensures { result ≡ self.now.latest }
    {
        self.schedules.latest()
    }

    /// How many incarnations were created.
    pub fn created_count(&self) -> u64
        ensures { result ≡ length self.now.rows }
    {
        self.schedules.created_count()
    }

    /// How many groups are there, `default` among them.
    pub fn group_count(&self) -> u64
        ensures { result ≡ length self.now.groups }
    {
        self.groups.count()
    }

    /// Makes room for a write, so that to apply it takes no memory. After an `Err`, which is want of memory, there are
    /// the same schedules and groups.
    pub fn reserve(&mut self, write: &Write) -> Result<(), AllocError>
        ensures rows { self.new.rows ≡ self.old.rows }
        ensures groups { self.new.groups ≡ self.old.groups }
        ensures latest { self.new.latest ≡ self.old.latest }
        ensures room { OnOk result (HasRoom self.new write.now) }
    {
        match write {
            Write::CreateSchedule { .. } => self.schedules.reserve_row(),
            Write::UpdateSchedule { group, name, .. } => self.schedules.reserve_update(group, name),
            Write::CreateGroup { .. } => self.groups.reserve(),
            Write::DeleteSchedule { .. } => Ok(()),
            Write::DeleteGroup { .. } => Ok(()),
        }
    }

    /// Applies a write at a moment, in seconds since 1970 UTC. It takes no memory.
    pub fn apply(&mut self, write: Write, at: Moment)
        requires allowed { row_fault self.old.rows self.old.groups write ≡ None }
        requires room { HasRoom self.old write }
        requires moment { self.old.latest ≤ at.0 }
        requires last { at.0 ≤ LAST_MOMENT }
        ensures rows { self.new.rows ≡ rows_after (Written at.0 write) self.old.rows }
        ensures groups { self.new.groups ≡ groups_after at.0 write self.old.groups }
        ensures latest { self.new.latest ≡ at.0 }
        ensures stands { (changes : List Accepted) → Stands self.old changes → Stands self.new (Written at.0 write ∷ changes) }
    {
        match write {
            Write::CreateSchedule {
                group,
                name,
                token,
                content,
            } => self.create_schedule(at, group, name, token, content),
            Write::UpdateSchedule {
                group,
                name,
                token,
                content,
            } => self.update_schedule(at, group, name, token, content),
            Write::DeleteSchedule { group, name, token } => {
                self.delete_schedule(at, group, name, token)
            }
            Write::CreateGroup { name, token } => self.create_group(at, name, token),
            Write::DeleteGroup { name, token } => self.delete_group(at, name, token),
        }
    }

    fn create_schedule(
        &mut self,
        at: Moment,
        group: Name,
        name: Name,
        token: Option<Token>,
        content: Schedule,
    )
        requires allowed { creation_fault self.old.rows self.old.groups group name ≡ None }
        requires room { 1 ≤ self.old.room.rows }
        requires moment { self.old.latest ≤ at.0 }
        ensures rows { self.new.rows ≡ rows_after (Written at.0 (CreateSchedule group name token content)) self.old.rows }
        ensures groups { self.new.groups ≡ self.old.groups }
        ensures latest { self.new.latest ≡ at.0 }
    {
        let _ = token;
        self.schedules.create(at, group, name, content)
    }

    fn update_schedule(
        &mut self,
        at: Moment,
        group: Name,
        name: Name,
        token: Option<Token>,
        content: Schedule,
    )
        requires room { HasRoom self.old (UpdateSchedule group name token content) }
        requires moment { self.old.latest ≤ at.0 }
        requires last { at.0 ≤ LAST_MOMENT }
        ensures rows { self.new.rows ≡ rows_after (Written at.0 (UpdateSchedule group name token content)) self.old.rows }
        ensures groups { self.new.groups ≡ self.old.groups }
        ensures latest { self.new.latest ≡ at.0 }
    {
        let _ = token;
        self.schedules.update(&group, &name, at, content)
    }

    fn delete_schedule(&mut self, at: Moment, group: Name, name: Name, token: Option<Token>)
        requires { self.old.latest ≤ at.0 }
        ensures rows { self.new.rows ≡ rows_after (Written at.0 (DeleteSchedule group name token)) self.old.rows }
        ensures groups { self.new.groups ≡ self.old.groups }
        ensures latest { self.new.latest ≡ at.0 }
    {
        let _ = token;
        self.schedules.delete(&group, &name, at)
    }

    fn create_group(&mut self, at: Moment, name: Name, token: Option<Token>)
        requires allowed { group_creation_fault self.old.groups name ≡ None }
        requires room { 1 ≤ self.old.room.groups }
        requires moment { self.old.latest ≤ at.0 }
        ensures rows { self.new.rows ≡ rows_after (Written at.0 (CreateGroup name token)) self.old.rows }
        ensures groups { self.new.groups ≡ groups_after at.0 (CreateGroup name token) self.old.groups }
        ensures latest { self.new.latest ≡ at.0 }
    {
        let _ = token;
        self.schedules.pass(at);
        self.groups.create(name, at);
    }

    fn delete_group(&mut self, at: Moment, name: Name, token: Option<Token>)
        requires { self.old.latest ≤ at.0 }
        ensures rows { self.new.rows ≡ rows_after (Written at.0 (DeleteGroup name token)) self.old.rows }
        ensures groups { self.new.groups ≡ groups_after at.0 (DeleteGroup name token) self.old.groups }
        ensures latest { self.new.latest ≡ at.0 }
    {
        let _ = token;
        self.schedules.end_group(&name, at);
        self.groups.delete(&name);
    }

    /// Removes a living schedule that is finished, at a moment. It takes no memory.
    pub fn remove(&mut self, inc: u32, at: Moment)
        requires lives { lives_at self.old.rows inc ≡ true }
        requires moment { self.old.latest ≤ at.0 }
        ensures rows { self.new.rows ≡ rows_after (Removed at.0 inc) self.old.rows }
        ensures groups { self.new.groups ≡ self.old.groups }
        ensures latest { self.new.latest ≡ at.0 }
        ensures stands { (changes : List Accepted) → Stands self.old changes → Stands self.new (Removed at.0 inc ∷ changes) }
    {
        self.schedules.remove(inc, at)
    }
}
