//! Pages of lists: their ends, and what they begin behind.
use crate::book::Book;
use crate::lists::Asked;
use crate::writes::Plan::{self, Create, CreateGroup, Delete, Update};
use std::test::Fail;

/// Schedules of three groups, not created in the order of their names; two are disabled and one is deleted.
const THREE_GROUPS: [(u64, Plan); 11] = [
    (1, CreateGroup("z")),
    (1, CreateGroup("Z")),
    (2, Create("z", "b", 2)),
    (2, Create("z", "a-1", 2)),
    (2, Create("default", "a.2", 3)),
    (2, Create("Z", "a", 2)),
    (2, Create("z", "a", 2)),
    (2, Create("z", "a_", 2)),
    (3, Update("z", "a_", 5)),
    (3, Create("z", "aB", 2)),
    (4, Delete("z", "aB")),
];

/// A list of everything.
const ALL: Asked = Asked {
    group: None,
    prefix: "",
    enabled: None,
    after: None,
    max: 100,
};

/// A list behind a name.
fn behind<'a>(group: &'a str, name: &'a str, max: u8) -> Asked<'a> {
    Asked {
        group: None,
        prefix: "",
        enabled: None,
        after: Some((group, name)),
        max,
    }
}

/// A list of what begins so, of a group where one is named.
fn beginning<'a>(group: Option<&'a str>, prefix: &'a str, enabled: Option<bool>) -> Asked<'a> {
    Asked {
        group,
        prefix,
        enabled,
        after: None,
        max: 100,
    }
}

/// Pages of each length, up to the end and past it.
fn pages_of_schedules(book: &mut Book) -> Result<(), Fail> {
    book.change_all(&THREE_GROUPS)?;
    book.tell_page(ALL)?;
    book.tell_page(behind("default", "a.2", 2))?;
    book.tell_page(behind("z", "a-1", 2))?;
    book.tell_page(behind("z", "a", 1))?;
    book.tell_page(behind("z", "a_", 1))?;
    book.tell_page(behind("z", "b", 1))?;
    book.tell_page(behind("z", "aB", 100))?;
    book.tell_page(behind("a", "none", 1))?;
    book.tell_page(behind("zz", "a", 100))?;
    book.tell_page(behind("z", "a", 0))?;
    book.tell_page(behind("z", "b", 0))
}

const PAGES: &str = "\
     Z/a default/a.2 z/a z/a-1 z/a_ z/b \n\
     z/a z/a-1 and more\n\
     z/a_ z/b \n\
     z/a-1 and more\n\
     z/b \n\
     \n\
     z/a_ z/b \n\
     default/a.2 and more\n\
     \n\
     and more\n\
     \n\
     ";

#[test]
fn a_page_begins_behind_a_name_that_may_be_gone(rt: HostRuntime) -> Result<(), Fail> {
    let mut book = Book::new(rt.alloc())?;
    pages_of_schedules(&mut book)?;
    assert_eq!(rt; book.told.as_str(), PAGES);
    Ok(())
}

/// Parts of the list, by group, prefix and switch.
fn parts_of_the_list(book: &mut Book) -> Result<(), Fail> {
    book.change_all(&THREE_GROUPS)?;
    book.tell_page(beginning(Some("z"), "", None))?;
    book.tell_page(beginning(Some("z"), "a", None))?;
    book.tell_page(beginning(None, "a", None))?;
    book.tell_page(beginning(None, "aa", None))?;
    book.tell_page(beginning(None, "", Some(true)))?;
    book.tell_page(beginning(None, "", Some(false)))?;
    book.tell_page(beginning(Some("z"), "a", Some(false)))?;
    book.tell_page(beginning(Some("x"), "", None))
}

const PARTS: &str = "\
     z/a z/a-1 z/a_ z/b \n\
     z/a z/a-1 z/a_ \n\
     Z/a default/a.2 z/a z/a-1 z/a_ \n\
     \n\
     Z/a z/a z/a-1 z/b \n\
     default/a.2 z/a_ \n\
     z/a_ \n\
     \n\
     ";

#[test]
fn a_list_is_of_what_is_asked_for(rt: HostRuntime) -> Result<(), Fail> {
    let mut book = Book::new(rt.alloc())?;
    parts_of_the_list(&mut book)?;
    assert_eq!(rt; book.told.as_str(), PARTS);
    Ok(())
}

/// Pages of groups.
fn pages_of_groups(book: &mut Book) -> Result<(), Fail> {
    book.change_all(&THREE_GROUPS)?;
    book.tell_groups("", None, 100)?;
    book.tell_groups("", None, 1)?;
    book.tell_groups("", Some("Z"), 2)?;
    book.tell_groups("", Some("e"), 1)?;
    book.tell_groups("", Some("z"), 100)?;
    book.tell_groups("z", None, 100)?;
    book.tell_groups("", None, 0)
}

const GROUPS: &str = "\
     Z default z \n\
     Z and more\n\
     default z \n\
     z \n\
     \n\
     z \n\
     and more\n\
     ";

#[test]
fn groups_are_listed_by_their_names(rt: HostRuntime) -> Result<(), Fail> {
    let mut book = Book::new(rt.alloc())?;
    pages_of_groups(&mut book)?;
    assert_eq!(rt; book.told.as_str(), GROUPS);
    Ok(())
}
