//! As many schedules and groups as there may be, and one more.
use crate::book::Book;
use crate::lists::Asked;
use crate::writes::Plan::{Create, CreateGroup, Delete, DeleteGroup};
use std::test::Fail;

/// So many schedules of the group that is there from the start, each at a moment of its own.
fn create_many(book: &mut Book, count: u64) -> Result<(), Fail> {
    for at in 0..count {
        let name = format!(in book.alloc; "s{at}")?;
        book.change(at, Create("default", name.as_str(), 2))?;
    }
    Ok(())
}

/// So many groups.
fn create_groups(book: &mut Book, count: u64) -> Result<(), Fail> {
    for at in 0..count {
        let name = format!(in book.alloc; "g{at}")?;
        book.change(at, CreateGroup(name.as_str()))?;
    }
    Ok(())
}

/// The first page behind a schedule.
fn page_behind(name: &str) -> Asked<'_> {
    Asked {
        group: Some("default"),
        prefix: "s",
        enabled: Some(true),
        after: Some(("default", name)),
        max: 100,
    }
}

/// As many schedules as may live, and no more until one of them ends.
fn schedules_to_the_limit(book: &mut Book) -> Result<(), Fail> {
    create_many(book, 9_999)?;
    book.tell_fault(Create("default", "t", 2))?;
    book.change(10_000, Create("default", "t", 2))?;
    book.tell_fault(Create("default", "u", 2))?;
    book.tell_fault(Create("default", "t", 2))?;
    book.tell_page_size(page_behind("s2"))?;
    book.tell_page_size(page_behind("s99"))?;
    book.tell_page_size(page_behind("s9907"))?;
    book.tell_page_size(page_behind("s998"))?;
    book.change(10_001, Delete("default", "s5000"))?;
    book.tell_live("default", "s5000")?;
    book.tell_live("default", "s5001")?;
    book.change(10_002, Create("default", "s5000", 2))?;
    book.tell_live("default", "s5000")?;
    book.tell_fault(Create("default", "u", 2))?;
    book.tell_totals()
}

const SCHEDULES_AT_THE_LIMIT: &str = "\
     fault None\n\
     fault Some(TooMany { count: 10000 })\n\
     fault Some(Exists)\n\
     100 rows, more true\n\
     100 rows, more true\n\
     100 rows, more false\n\
     20 rows, more false\n\
     live default/s5000 None\n\
     live default/s5001 Some(5002)\n\
     live default/s5000 Some(10001)\n\
     fault Some(TooMany { count: 10000 })\n\
     10000 of 10001 in 1 at 10002\n\
     ";

#[test]
fn ten_thousand_schedules_live_and_no_more(rt: HostRuntime) -> Result<(), Fail> {
    let mut book = Book::new(rt.alloc())?;
    schedules_to_the_limit(&mut book)?;
    assert_eq!(rt; book.told.as_str(), SCHEDULES_AT_THE_LIMIT);
    Ok(())
}

/// As many groups as may be there, and no more until one of them goes.
fn groups_to_the_limit(book: &mut Book) -> Result<(), Fail> {
    create_groups(book, 498)?;
    book.tell_fault(CreateGroup("h"))?;
    book.change(498, CreateGroup("h"))?;
    book.tell_fault(CreateGroup("i"))?;
    book.tell_fault(CreateGroup("h"))?;
    book.tell_groups("g49", None, 3)?;
    book.change(499, DeleteGroup("g7"))?;
    book.tell_fault(CreateGroup("i"))?;
    book.tell_group("g7")?;
    book.tell_group("g8")?;
    book.tell_totals()
}

const GROUPS_AT_THE_LIMIT: &str = "\
     fault None\n\
     fault Some(TooMany { count: 500 })\n\
     fault Some(GroupExists)\n\
     g49 g490 g491 and more\n\
     fault None\n\
     group g7 None\n\
     group g8 Some(Moment(8))\n\
     0 of 0 in 499 at 499\n\
     ";

#[test]
fn five_hundred_groups_are_there_and_no_more(rt: HostRuntime) -> Result<(), Fail> {
    let mut book = Book::new(rt.alloc())?;
    groups_to_the_limit(&mut book)?;
    assert_eq!(rt; book.told.as_str(), GROUPS_AT_THE_LIMIT);
    Ok(())
}
