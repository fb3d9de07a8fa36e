//! The order of names by their bytes.
ghost use Rattle.std.specs.Prelude.{◌≡◌};
ghost use Rattle.sched_calls.specs.Replies.{text_before, name_before};
ghost use Rattle.plain_words.specs.Lists.{same_text};
ghost use Rattle.sched_plain.specs.Rows.{is_in};
ghost use Rattle.sched_rows.specs.Filing.{has_names, is_short_of, is_within};

use crate::edge::Edge;
use crate::row::KeptRow;
use sched_plain::Name;

/// Whether one text comes before another, by their bytes.
pub fn text_before(one: &[u8], other: &[u8]) -> bool
    ensures { result ≡ text_before one.now other.now }
{
    one < other
}

/// Whether two texts are the same.
pub fn same_text(one: &[u8], other: &[u8]) -> bool
    ensures { result ≡ same_text one.now other.now }
{
    one == other
}

/// Whether one name of two parts comes before another: by the first parts, then by the second.
pub fn name_before(group: &[u8], name: &[u8], other_group: &[u8], other_name: &[u8]) -> bool
    ensures { result ≡ name_before group.now name.now other_group.now other_name.now }
{
    text_before(group, other_group)
        || same_text(group, other_group) && text_before(name, other_name)
}

/// Whether a row is one of a group, with a name that begins with a prefix.
fn is_within(row: &KeptRow, group: &[u8], prefix: &[u8]) -> bool
    ensures { result ≡ is_within group.now prefix.now row.now.row }
{
    same_text(group, row.group().as_bytes()) && row.name().as_bytes().starts_with(prefix)
}

/// Whether a row comes before a name in a group, or is not behind the names that begin with it.
pub fn is_short_of(row: &KeptRow, group: &[u8], name: &[u8], edge: Edge) -> bool
    ensures { result ≡ is_short_of group.now name.now edge row.now.row }
{
    let before = name_before(row.group().as_bytes(), row.name().as_bytes(), group, name);
    match edge {
        Edge::Before => before,
        Edge::Behind => before || is_within(row, group, name),
    }
}

/// Whether a row has a group and a name.
pub fn has_names(row: &KeptRow, group: &Name, name: &Name) -> bool
    ensures { result ≡ has_names group.now name.now row.now.row }
{
    group == row.group() && name == row.name()
}

/// Whether a row is a living one of a group.
pub fn is_in(row: &KeptRow, group: &Name) -> bool
    ensures { result ≡ is_in group.now row.now.row }
{
    row.lives() && group == row.group()
}
