//! Pages of lists, as lines.
use crate::book::Book;
use crate::writes::{name_of, text_of};
use sched_calls::{GroupPage, Page};
use sched_plain::Name;
use sched_rows::Rows;
use std::alloc::{AllocError, Global};
use std::test::Fail;

/// A list that is asked for.
#[derive(Debug, Clone, Copy)]
pub struct Asked<'a> {
    pub group: Option<&'a str>,
    pub prefix: &'a str,
    pub enabled: Option<bool>,
    pub after: Option<(&'a str, &'a str)>,
    pub max: u8,
}

fn name_where(alloc: Global, text: Option<&str>) -> Result<Option<Name>, Fail> {
    match text {
        Some(text) => Ok(Some(name_of(alloc, text)?)),
        None => Ok(None),
    }
}

fn names_where(alloc: Global, texts: Option<(&str, &str)>) -> Result<Option<(Name, Name)>, Fail> {
    let Some((group, name)) = texts else {
        return Ok(None);
    };
    let group = name_of(alloc, group)?;
    let name = name_of(alloc, name)?;
    Ok(Some((group, name)))
}

/// The page behind names, where some are given.
fn page_behind(
    alloc: Global,
    rows: &Rows,
    asked: Asked,
    group: Option<&Name>,
    after: Option<(&Name, &Name)>,
) -> Result<Page, AllocError> {
    let prefix = text_of(alloc, asked.prefix)?;
    rows.list(alloc, group, &prefix, asked.enabled, after, asked.max)
}

fn page_of(alloc: Global, rows: &Rows, asked: Asked) -> Result<Page, Fail> {
    let group = name_where(alloc, asked.group)?;
    let after = names_where(alloc, asked.after)?;
    let behind = match &after {
        Some((group, name)) => Some((group, name)),
        None => None,
    };
    let page = page_behind(alloc, rows, asked, group.as_ref(), behind)?;
    Ok(page)
}

fn group_page_of(
    alloc: Global,
    rows: &Rows,
    prefix: &str,
    after: Option<&str>,
    max: u8,
) -> Result<GroupPage, Fail> {
    let prefix = text_of(alloc, prefix)?;
    let after = name_where(alloc, after)?;
    let page = rows.groups(alloc, &prefix, after.as_ref(), max)?;
    Ok(page)
}

/// Whether further rows follow, as the end of a line.
fn end(more: bool) -> &'static str {
    if more { "and more\n" } else { "\n" }
}

impl Book {
    /// The names of a page, each with its group.
    pub fn tell_page(&mut self, asked: Asked) -> Result<(), Fail> {
        let page = page_of(self.alloc, &self.rows, asked)?;
        for row in page.rows.as_slice() {
            self.told.push_str(row.group.as_str())?;
            self.told.push_str("/")?;
            self.told.push_str(row.name.as_str())?;
            self.told.push_str(" ")?;
        }
        self.told.push_str(end(page.more))?;
        Ok(())
    }

    /// How many rows a page has, and whether more follow.
    pub fn tell_page_size(&mut self, asked: Asked) -> Result<(), Fail> {
        let page = page_of(self.alloc, &self.rows, asked)?;
        let count = page.rows.len();
        let more = page.more;
        writeln!(self.told, "{count} rows, more {more}")?;
        Ok(())
    }

    /// The names of a page of groups.
    pub fn tell_groups(&mut self, prefix: &str, after: Option<&str>, max: u8) -> Result<(), Fail> {
        let page = group_page_of(self.alloc, &self.rows, prefix, after, max)?;
        for group in page.groups.as_slice() {
            self.told.push_str(group.name.as_str())?;
            self.told.push_str(" ")?;
        }
        self.told.push_str(end(page.more))?;
        Ok(())
    }
}
