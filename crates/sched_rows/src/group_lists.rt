//! Pages of the list of groups, by name.
ghost use Rattle.std.specs.Prelude.{◌≡◌, ◌≤◌, ◌++◌, length, IfOk, OnOk};
ghost use Rattle.std.specs.Option.{option_map, option_to_list};
ghost use Rattle.plain_words.specs.Lists.{when};
ghost use Rattle.sched_calls.specs.Replies.{group_page_of, listed_groups, text_before, where_asked};
ghost use Rattle.sched_rows.specs.GroupIndex.{IsGrouped, IsGroupStart};
ghost use Rattle.sched_rows.specs.Pages.{group_shown_at, groups_shown_of, is_listed_group};

use crate::edge::Edge;
use crate::groups::{group_at, place_of};
use crate::lists::begins_with;
use crate::order::text_before;
use sched_calls::GroupPage;
use sched_plain::{GroupRow, GroupRows, Items, Name, Text, TryCopy};
use std::alloc::{AllocError, Global};

/// Whether a group comes behind the name that a list begins behind, if it does.
fn is_behind(group: &GroupRow, after: Option<&Name>) -> bool
    ensures { result ≡ where_asked (λ last. text_before last group.now.name) (option_map (λ n. n.now) after.entry) }
{
    match after {
        Some(last) => text_before(last.as_bytes(), group.name.as_bytes()),
        None => true,
    }
}

/// Whether a list asks for a group.
fn is_listed(group: &GroupRow, prefix: &Text, after: Option<&Name>) -> bool
    ensures { result ≡ is_listed_group prefix.now (option_map (λ n. n.now) after.entry) group.now }
{
    begins_with(&group.name, prefix) && is_behind(group, after)
}

/// A group, copied where a list asks for it.
fn shown(
    group: &GroupRow,
    prefix: &Text,
    after: Option<&Name>,
) -> Result<Option<GroupRow>, AllocError>
    ensures { IfOk result (λ shown. shown ≡ when (is_listed_group prefix.now (option_map (λ n. n.now) after.entry) group.now) group.now) }
{
    if !is_listed(group, prefix, after) {
        return Ok(None);
    }
    Ok(Some(group.copy()?))
}

/// The same for the group at a place.
fn shown_at(
    groups: &[GroupRow],
    place: u32,
    prefix: &Text,
    after: Option<&Name>,
) -> Result<Option<GroupRow>, AllocError>
    ensures { IfOk result (λ shown. shown ≡ group_shown_at (is_listed_group prefix.now (option_map (λ n. n.now) after.entry)) groups.now place) }
{
    match group_at(groups, place) {
        Some(group) => shown(group, prefix, after),
        None => Ok(None),
    }
}

/// Adds a group to a page, where there is one to add.
fn put_shown(page: &mut GroupRows, group: Option<GroupRow>) -> Result<(), AllocError>
    ensures { OnOk result (page.new ≡ page.old ++ option_to_list group) }
{
    match group {
        Some(group) => page.push(group),
        None => Ok(()),
    }
}

/// The page of the groups that a list asks for among those at some places.
fn page_from(
    alloc: Global,
    groups: &[GroupRow],
    places: &[u32],
    prefix: &Text,
    after: Option<&Name>,
    max: u8,
) -> Result<GroupPage, AllocError>
    ensures { IfOk result (λ page. page ≡ group_page_of max (groups_shown_of (is_listed_group prefix.now (option_map (λ n. n.now) after.entry)) groups.now places.now)) }
{
    let mut page = Items::new(alloc);
    for i in 0..places.len() {
        let group = shown_at(groups, places[i], prefix, after)?;
        if page.len() == max as usize && group.is_some() {
            return Ok(GroupPage {
                groups: page,
                more: true,
            });
        }
        put_shown(&mut page, group)?;
    }
    Ok(GroupPage {
        groups: page,
        more: false,
    })
}

/// The index from which on a list behind a name goes.
fn start_of(groups: &[GroupRow], places: &[u32], after: Option<&Name>) -> usize
    ensures place { IsGroupStart groups.now places.now (option_map (λ n. n.now) after.entry) result }
    ensures within { result ≤ length places.now }
{
    match after {
        Some(name) => place_of(groups, places, name.as_bytes(), Edge::Before),
        None => 0,
    }
}

/// The part of the index in which the groups stand that a list asks for: behind a name, and within a prefix.
fn span_of<'a>(
    groups: &[GroupRow],
    places: &'a [u32],
    prefix: &Text,
    after: Option<&Name>,
) -> &'a [u32]
    requires { IsGrouped groups.now places.now }
    ensures { groups_shown_of (is_listed_group prefix.now (option_map (λ n. n.now) after.entry)) groups.now result.now ≡ listed_groups prefix.now (option_map (λ n. n.now) after.entry) groups.now }
{
    let behind = start_of(groups, places, after);
    let from = place_of(groups, places, prefix.as_bytes(), Edge::Before);
    let to = place_of(groups, places, prefix.as_bytes(), Edge::Behind);
    let start = behind.max(from);
    let end = to.max(start);
    &places[start..end]
}

/// The first groups behind a name, at most so many, and whether more follow.
pub fn page_of(
    alloc: Global,
    groups: &[GroupRow],
    places: &[u32],
    prefix: &Text,
    after: Option<&Name>,
    max: u8,
) -> Result<GroupPage, AllocError>
    requires { IsGrouped groups.now places.now }
    ensures { IfOk result (λ page. page ≡ group_page_of max (listed_groups prefix.now (option_map (λ n. n.now) after.entry) groups.now)) }
{
    let span = span_of(groups, places, prefix, after);
    page_from(alloc, groups, span, prefix, after, max)
}
