//! Schedules and groups over a few changes.
use crate::book::Book;
use crate::writes::Plan::{self, Create, CreateGroup, Delete, DeleteGroup, Update};
use sched_plain::LAST_MOMENT;
use std::test::Fail;

/// Two groups with schedules of one name, and one in the group that is there from the start.
const TWO_GROUPS: [(u64, Plan); 7] = [
    (10, CreateGroup("g")),
    (10, CreateGroup("h")),
    (11, Create("g", "a", 2)),
    (12, Create("g", "b", 4)),
    (13, Create("h", "a", 6)),
    (14, Create("g", "c", 8)),
    (15, Create("default", "a", 10)),
];

/// A group is deleted: what that touches, and what is left.
fn a_group_goes(book: &mut Book) -> Result<(), Fail> {
    book.change_all(&TWO_GROUPS)?;
    book.tell_totals()?;
    book.tell_living_in("g")?;
    book.tell_touched(DeleteGroup("g"))?;
    book.change(20, DeleteGroup("g"))?;
    book.tell_totals()?;
    book.tell_living()?;
    book.tell_living_in("g")?;
    book.tell_row(2)?;
    book.tell_window(4, 20)?;
    book.tell_window(4, 21)?;
    book.tell_row(3)?;
    book.tell_live("g", "a")?;
    book.tell_live("h", "a")?;
    book.tell_group("g")?;
    book.tell_group("h")?;
    book.tell_fault(Create("g", "a", 2))?;
    book.tell_fault(DeleteGroup("g"))
}

const A_GROUP_GONE: &str = "\
     5 of 5 in 3 at 15\n\
     living in g [1, 2, 4]\n\
     touched [1, 2, 4]\n\
     2 of 5 in 2 at 20\n\
     living [3, 5]\n\
     living in g []\n\
     row 2 Some(Seen { created: 12, changed: 20, lives: false, contents: 1, window: None })\n\
     window 4 at 20 Some(8)\n\
     window 4 at 21 None\n\
     row 3 Some(Seen { created: 13, changed: 13, lives: true, contents: 1, window: Some(6) })\n\
     live g/a None\n\
     live h/a Some(3)\n\
     group g None\n\
     group h Some(Moment(10))\n\
     fault Some(NoGroup)\n\
     fault Some(NoGroup)\n\
     ";

#[test]
fn a_deleted_group_ends_its_schedules(rt: HostRuntime) -> Result<(), Fail> {
    let mut book = Book::new(rt.alloc())?;
    a_group_goes(&mut book)?;
    assert_eq!(rt; book.told.as_str(), A_GROUP_GONE);
    Ok(())
}

/// A schedule is deleted, created again under its name at that moment, updated, and removed.
fn a_name_is_used_again(book: &mut Book) -> Result<(), Fail> {
    book.change(10, Create("default", "a", 2))?;
    book.tell_fault(Create("default", "a", 4))?;
    book.tell_touched(Delete("default", "a"))?;
    book.change(20, Delete("default", "a"))?;
    book.tell_fault(Update("default", "a", 4))?;
    book.tell_live("default", "a")?;
    book.change(20, Create("default", "a", 4))?;
    book.change(30, Update("default", "a", 6))?;
    book.tell_live("default", "a")?;
    book.tell_row(1)?;
    book.tell_row(2)?;
    book.tell_window(1, 20)?;
    book.tell_window(1, 21)?;
    book.tell_window(2, 20)?;
    book.tell_window(2, 30)?;
    book.tell_window(2, 31)?;
    book.tell_window(3, 31)?;
    book.remove(40, 2)?;
    book.tell_live("default", "a")?;
    book.tell_row(2)?;
    book.tell_row(3)?;
    book.tell_totals()
}

const A_NAME_USED_AGAIN: &str = "\
     fault Some(Exists)\n\
     touched [1]\n\
     fault Some(Missing)\n\
     live default/a None\n\
     live default/a Some(2)\n\
     row 1 Some(Seen { created: 10, changed: 20, lives: false, contents: 1, window: None })\n\
     row 2 Some(Seen { created: 20, changed: 30, lives: true, contents: 2, window: Some(6) })\n\
     window 1 at 20 Some(2)\n\
     window 1 at 21 None\n\
     window 2 at 20 Some(4)\n\
     window 2 at 30 Some(4)\n\
     window 2 at 31 Some(6)\n\
     window 3 at 31 None\n\
     live default/a None\n\
     row 2 Some(Seen { created: 20, changed: 30, lives: false, contents: 2, window: None })\n\
     row 3 None\n\
     0 of 2 in 1 at 40\n\
     ";

#[test]
fn a_schedule_created_again_is_another(rt: HostRuntime) -> Result<(), Fail> {
    let mut book = Book::new(rt.alloc())?;
    a_name_is_used_again(&mut book)?;
    assert_eq!(rt; book.told.as_str(), A_NAME_USED_AGAIN);
    Ok(())
}

/// An update at the moment of the creation.
fn an_update_comes_at_once(book: &mut Book) -> Result<(), Fail> {
    book.change(10, Create("default", "a", 2))?;
    book.change(10, Update("default", "a", 4))?;
    book.tell_window(1, 9)?;
    book.tell_window(1, 10)?;
    book.tell_window(1, 11)?;
    book.tell_window(1, LAST_MOMENT)?;
    book.tell_window(1, LAST_MOMENT + 1)?;
    book.tell_row(1)
}

const AN_UPDATE_AT_ONCE: &str = "\
     window 1 at 9 None\n\
     window 1 at 10 Some(2)\n\
     window 1 at 11 Some(4)\n\
     window 1 at 7258118399 Some(4)\n\
     window 1 at 7258118400 None\n\
     row 1 Some(Seen { created: 10, changed: 10, lives: true, contents: 2, window: Some(4) })\n\
     ";

#[test]
fn an_update_at_the_creation_covers_from_the_moment_after(rt: HostRuntime) -> Result<(), Fail> {
    let mut book = Book::new(rt.alloc())?;
    an_update_comes_at_once(&mut book)?;
    assert_eq!(rt; book.told.as_str(), AN_UPDATE_AT_ONCE);
    Ok(())
}

/// What speaks against writes of groups and schedules.
fn refusals(book: &mut Book) -> Result<(), Fail> {
    book.change_all(&TWO_GROUPS)?;
    book.tell_fault(CreateGroup("default"))?;
    book.tell_fault(CreateGroup("g"))?;
    book.tell_fault(DeleteGroup("default"))?;
    book.tell_fault(DeleteGroup("x"))?;
    book.tell_fault(Create("x", "a", 2))?;
    book.tell_fault(Update("x", "a", 2))?;
    book.tell_fault(Update("h", "b", 2))?;
    book.tell_fault(Delete("x", "a"))?;
    book.tell_fault(Delete("h", "b"))?;
    book.tell_fault(Delete("h", "a"))
}

const REFUSALS: &str = "\
     fault Some(GroupExists)\n\
     fault Some(GroupExists)\n\
     fault Some(DefaultGroup)\n\
     fault Some(NoGroup)\n\
     fault Some(NoGroup)\n\
     fault Some(NoGroup)\n\
     fault Some(Missing)\n\
     fault Some(NoGroup)\n\
     fault Some(Missing)\n\
     fault None\n\
     ";

#[test]
fn a_write_has_its_first_fault(rt: HostRuntime) -> Result<(), Fail> {
    let mut book = Book::new(rt.alloc())?;
    refusals(&mut book)?;
    assert_eq!(rt; book.told.as_str(), REFUSALS);
    Ok(())
}
