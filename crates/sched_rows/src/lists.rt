//! Pages of the list of schedules, by group, then by name.
ghost use Rattle.std.specs.Prelude.{◌≡◌, ◌≤◌, nat_eq, Bool, Option, None, List, ℕ, length, ◌++◌, IfOk, OnOk};
ghost use Rattle.std.specs.List.{filter, starts_with};
ghost use Rattle.std.specs.Option.{option_map, option_to_list};
ghost use Rattle.sched_calls.specs.Replies.{is_listed, list_row, list_rows, name_before, page_of, same_state, where_asked};
ghost use Rattle.sched_rows.specs.Filing.{IsByName, IsEdge, IsStart};
ghost use Rattle.sched_rows.specs.Spans.{HasContents};
ghost use Rattle.sched_rows.specs.Answers.{is_of};
ghost use Rattle.sched_rows.specs.Pages.{shown, shown_at, shown_of};
ghost use Rattle.sched_rows.specs.State.{Kept, rows_in};

use crate::by_name::{place_of, row_at};
use crate::by_number::is_of;
use crate::edge::Edge;
use crate::order::name_before;
use crate::row::KeptRow;
use sched_calls::{ListRow, ListRows, Page};
use sched_plain::{Items, Name, Schedule, Text, TryCopy};
use std::alloc::{AllocError, Global};

/// Whether a name begins with a prefix.
pub fn begins_with(name: &Name, prefix: &Text) -> bool
    ensures { result ≡ starts_with nat_eq name.now prefix.now }
{
    name.as_bytes().starts_with(prefix.as_bytes())
}

/// Whether a state is the one that is asked for, if one is.
fn is_state(asked: Option<bool>, enabled: bool) -> bool
    ensures { result ≡ where_asked (λ state. same_state state enabled) asked }
{
    match asked {
        Some(true) => enabled,
        Some(false) => !enabled,
        None => true,
    }
}

/// Whether a row comes behind the name that a list begins behind, if it does.
fn is_behind(row: &KeptRow, after: Option<(&Name, &Name)>) -> bool
    ensures { result ≡ where_asked (λ last. name_before last.0 last.1 row.now.row.group row.now.row.name) (option_map {U = List ℕ × List ℕ} (λ names. (names.0.now, names.1.now)) after.entry) }
{
    match after {
        Some((group, name)) => {
            name_before(
                group.as_bytes(),
                name.as_bytes(),
                row.group().as_bytes(),
                row.name().as_bytes(),
            )
        }
        None => true,
    }
}

/// Whether a list asks for a row with its current content.
fn is_listed(
    row: &KeptRow,
    content: &Schedule,
    group: Option<&Name>,
    prefix: &Text,
    enabled: Option<bool>,
    after: Option<(&Name, &Name)>,
) -> bool
    ensures { result ≡ is_listed (option_map (λ g. g.now) group.entry) prefix.now enabled (option_map {U = List ℕ × List ℕ} (λ names. (names.0.now, names.1.now)) after.entry) (list_row row.now.row content.now) }
{
    is_of(row, group)
        && begins_with(row.name(), prefix)
        && is_state(enabled, content.enabled)
        && is_behind(row, after)
}

/// The row of a list, copied.
fn copied(row: &KeptRow, content: &Schedule) -> Result<ListRow, AllocError>
    ensures { IfOk result (λ copy. copy ≡ list_row row.now.row content.now) }
{
    Ok(ListRow {
        group: row.group().copy()?,
        name: row.name().copy()?,
        created: row.created(),
        changed: row.changed(),
        enabled: content.enabled,
        target: content.target.copy()?,
    })
}

/// The row of a list for a schedule, where it lives and the list asks for it.
fn shown(
    row: &KeptRow,
    group: Option<&Name>,
    prefix: &Text,
    enabled: Option<bool>,
    after: Option<(&Name, &Name)>,
) -> Result<Option<ListRow>, AllocError>
    ensures { IfOk result (λ row'. row' ≡ shown (is_listed (option_map (λ g. g.now) group.entry) prefix.now enabled (option_map {U = List ℕ × List ℕ} (λ names. (names.0.now, names.1.now)) after.entry)) row.now.row) }
{
    match row.current() {
        Some(content) => {
            if !is_listed(row, content, group, prefix, enabled, after) {
                return Ok(None);
            }
            Ok(Some(copied(row, content)?))
        }
        None => Ok(None),
    }
}

/// The same for the incarnation of a number.
fn shown_at(
    rows: &[KeptRow],
    number: u32,
    group: Option<&Name>,
    prefix: &Text,
    enabled: Option<bool>,
    after: Option<(&Name, &Name)>,
) -> Result<Option<ListRow>, AllocError>
    ensures { IfOk result (λ row'. row' ≡ shown_at (is_listed (option_map (λ g. g.now) group.entry) prefix.now enabled (option_map {U = List ℕ × List ℕ} (λ names. (names.0.now, names.1.now)) after.entry)) rows.now number) }
{
    match row_at(rows, number) {
        Some(row) => shown(row, group, prefix, enabled, after),
        None => Ok(None),
    }
}

/// Adds a row to a page, where there is one to add.
fn put_shown(page: &mut ListRows, row: Option<ListRow>) -> Result<(), AllocError>
    ensures { OnOk result (page.new ≡ page.old ++ option_to_list row) }
{
    match row {
        Some(row) => page.push(row),
        None => Ok(()),
    }
}

/// The page of the rows that a list asks for among those of some numbers.
fn page_from(
    alloc: Global,
    rows: &[KeptRow],
    numbers: &[u32],
    group: Option<&Name>,
    prefix: &Text,
    enabled: Option<bool>,
    after: Option<(&Name, &Name)>,
    max: u8,
) -> Result<Page, AllocError>
    ensures { IfOk result (λ page. page ≡ page_of max (shown_of (is_listed (option_map (λ g. g.now) group.entry) prefix.now enabled (option_map {U = List ℕ × List ℕ} (λ names. (names.0.now, names.1.now)) after.entry)) rows.now numbers.now)) }
{
    let mut page = Items::new(alloc);
    for i in 0..numbers.len() {
        let row = shown_at(rows, numbers[i], group, prefix, enabled, after)?;
        if page.len() == max as usize && row.is_some() {
            return Ok(Page {
                rows: page,
                more: true,
            });
        }
        put_shown(&mut page, row)?;
    }
    Ok(Page {
        rows: page,
        more: false,
    })
}

/// The place in the index from which on a list behind a name goes.
fn start_of(rows: &[KeptRow], numbers: &[u32], after: Option<(&Name, &Name)>) -> usize
    ensures place { IsStart rows.now numbers.now (option_map {U = List ℕ × List ℕ} (λ names. (names.0.now, names.1.now)) after.entry) result }
    ensures within { result ≤ length numbers.now }
{
    match after {
        Some((group, name)) => place_of(
            rows,
            numbers,
            group.as_bytes(),
            name.as_bytes(),
            Edge::Before,
        ),
        None => 0,
    }
}

/// The place in the index at which the names that a list asks for begin, or end: those of a group, where one is named, that
/// begin with the prefix.
fn edge_of(
    rows: &[KeptRow],
    numbers: &[u32],
    group: Option<&Name>,
    prefix: &Text,
    edge: Edge,
) -> usize
    ensures place { IsEdge rows.now numbers.now (option_map (λ g. g.now) group.entry) prefix.now edge result }
    ensures within { result ≤ length numbers.now }
{
    match group {
        Some(group) => place_of(rows, numbers, group.as_bytes(), prefix.as_bytes(), edge),
        None => end_of(numbers, edge),
    }
}

/// The first place of an index, or the one behind its last.
fn end_of(numbers: &[u32], edge: Edge) -> usize
    ensures place { (rows : List Kept) (prefix : List ℕ) → IsEdge rows numbers.now None prefix edge result }
    ensures within { result ≤ length numbers.now }
{
    match edge {
        Edge::Before => 0,
        Edge::Behind => numbers.len(),
    }
}

/// The part of the index in which the rows stand that a list asks for: behind a name, and within a group and a prefix.
fn span_of<'a>(
    rows: &[KeptRow],
    numbers: &'a [u32],
    group: Option<&Name>,
    prefix: &Text,
    after: Option<(&Name, &Name)>,
) -> &'a [u32]
    requires { IsByName (rows_in rows.now) numbers.now }
    ensures { (enabled : Option Bool) → shown_of (is_listed (option_map (λ g. g.now) group.entry) prefix.now enabled (option_map {U = List ℕ × List ℕ} (λ names. (names.0.now, names.1.now)) after.entry)) rows.now result.now ≡ shown_of (is_listed (option_map (λ g. g.now) group.entry) prefix.now enabled (option_map {U = List ℕ × List ℕ} (λ names. (names.0.now, names.1.now)) after.entry)) rows.now numbers.now }
{
    let behind = start_of(rows, numbers, after);
    let from = edge_of(rows, numbers, group, prefix, Edge::Before);
    let to = edge_of(rows, numbers, group, prefix, Edge::Behind);
    let start = behind.max(from);
    let end = to.max(start);
    &numbers[start..end]
}

/// The first rows of a list of schedules behind a name, at most so many, and whether more follow.
pub fn page_of(
    alloc: Global,
    rows: &[KeptRow],
    numbers: &[u32],
    group: Option<&Name>,
    prefix: &Text,
    enabled: Option<bool>,
    after: Option<(&Name, &Name)>,
    max: u8,
) -> Result<Page, AllocError>
    requires index { IsByName (rows_in rows.now) numbers.now }
    requires spans { HasContents (rows_in rows.now) }
    ensures { IfOk result (λ page. page ≡ page_of max (filter (is_listed (option_map (λ g. g.now) group.entry) prefix.now enabled (option_map {U = List ℕ × List ℕ} (λ names. (names.0.now, names.1.now)) after.entry)) (list_rows (rows_in rows.now)))) }
{
    let span = span_of(rows, numbers, group, prefix, after);
    page_from(alloc, rows, span, group, prefix, enabled, after, max)
}
