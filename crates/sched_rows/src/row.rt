ghost use Rattle.std.specs.Prelude.{◌≡◌, ℕ, ◌≤◌, ◌<◌, ◌-◌, ◌+◌, true, [], ◌∷◌, ◌++◌, vec_len, vec_capacity, OnOk};
ghost use Rattle.std.specs.List.{find};
ghost use Rattle.std.specs.Option.{option_copied, option_map};
ghost use Rattle.plain_words.specs.Lists.{last};
ghost use Rattle.sched_plain.specs.Rows.{covers, current_of, cut_at, done_to, removed_at, revision_from, Renews, Ends};
ghost use Rattle.sched_rows.specs.Spans.{FrontEnded};

use sched_plain::{LAST_MOMENT, Moment, Name, Revision, Schedule};
use std::alloc::AllocError;
use std::marker::Model;

/// An incarnation of a schedule as it is kept; it stays when the schedule is deleted. Contracts see the row, and room
/// for further revisions of it.
#[derive(Debug, Drop)]
pub struct KeptRow {
    group: Name,
    name: Name,
    created: Moment,
    changed: Moment,
    lives: bool,
    revisions: Vec<Revision>,
}

impl Model for KeptRow {
    ghost use Rattle.std.specs.Prelude.{◌-◌, vec_len, vec_capacity};
    ghost use Rattle.sched_rows.specs.State.{Kept};

    ghost Value = { Kept };

    ghost view = { λ k. record {
      row = record {
        group = k.group;
        name = k.name;
        created = k.created;
        changed = k.changed;
        lives = k.lives;
        revisions = k.revisions.items;
      };
      room = vec_capacity k.revisions - vec_len k.revisions;
    } };
}

/// Ends the span of the last revision at a moment, where it ends no earlier. The spans before it have ended.
fn cut_last(revisions: &mut Vec<Revision>, at: u64)
    requires { FrontEnded at revisions.old.items }
    ensures items { revisions.new.items ≡ cut_at at revisions.old.items }
    ensures len { vec_len revisions.new ≡ vec_len revisions.old }
    ensures capacity { vec_capacity revisions.new ≡ vec_capacity revisions.old }
{
    let count = revisions.len();
    if count > 0 {
        let last = &mut revisions[count - 1];
        last.to = at.min(last.to);
    }
}

/// Adds a revision at the end, where there is room for it.
fn put_last(revisions: &mut Vec<Revision>, revision: Revision)
    requires { vec_len revisions.old < vec_capacity revisions.old }
    ensures { revisions.new.items ≡ revisions.old.items ++ revision ∷ [] }
{
    let _ = revisions.push(revision);
}

/// A content from a moment on.
fn revision_from(from: u64, content: Schedule) -> Revision
    ensures { result ≡ revision_from from content }
{
    Revision {
        content,
        from,
        to: LAST_MOMENT,
    }
}

/// The last of the revisions.
fn last_of(revisions: &[Revision]) -> Option<&Revision>
    ensures { option_copied result ≡ last revisions.now }
{
    revisions.last()
}

/// The first revision whose span has an instant.
fn covering(revisions: &[Revision], instant: u64) -> Option<&Revision>
    ensures { option_copied result ≡ find (covers instant) revisions.now }
{
    for revision in revisions {
        if revision.from <= instant && instant <= revision.to {
            return Some(revision);
        }
    }
    None
}

impl KeptRow {
    /// The row that a creation makes, in a list that has room for its revision.
    pub fn born(
        at: Moment,
        group: Name,
        name: Name,
        content: Schedule,
        mut revisions: Vec<Revision>,
    ) -> KeptRow
        requires empty { revisions.items ≡ [] }
        requires room { vec_len revisions < vec_capacity revisions }
        ensures { result.row ≡ record { group = group; name = name; created = at; changed = at; lives = true; revisions = revision_from at.0 content ∷ [] } }
    {
        put_last(&mut revisions, revision_from(at.0, content));
        KeptRow {
            group,
            name,
            created: at,
            changed: at,
            lives: true,
            revisions,
        }
    }
    /// Gives the schedule a content from the moment after this one on, where there is room for the revision.
    pub fn renew(&mut self, at: Moment, content: Schedule)
        requires moment { at.0 ≤ LAST_MOMENT }
        requires front { FrontEnded at.0 self.old.row.revisions }
        requires room { 1 ≤ self.old.room }
        ensures { self.new.row ≡ done_to at.0 (Renews content) self.old.row }
    {
        cut_last(&mut self.revisions, at.0);
        put_last(&mut self.revisions, revision_from(at.0 + 1, content));
        self.changed = at;
    }

    /// Removes the schedule where it is finished, which is no change of it.
    pub fn remove(&mut self, at: Moment)
        requires { FrontEnded at.0 self.old.row.revisions }
        ensures row { self.new.row ≡ removed_at at.0 self.old.row }
        ensures room { self.new.room ≡ self.old.room }
    {
        cut_last(&mut self.revisions, at.0);
        self.lives = false;
    }

    /// Ends the schedule by a change that deletes it or its group.
    pub fn end(&mut self, at: Moment)
        requires { FrontEnded at.0 self.old.row.revisions }
        ensures row { self.new.row ≡ done_to at.0 Ends self.old.row }
        ensures room { self.new.room ≡ self.old.room }
    {
        self.remove(at);
        self.changed = at;
    }

    /// Makes room for one more revision.
    pub fn reserve(&mut self) -> Result<(), AllocError>
        ensures row { self.new.row ≡ self.old.row }
        ensures room { OnOk result (1 ≤ self.new.room) }
        ensures kept { self.old.room ≤ self.new.room }
    {
        self.revisions.reserve(1)
    }

    /// The group that the schedule was created in.
    pub fn group(&self) -> &Name
        ensures { result.now ≡ self.now.row.group }
    {
        &self.group
    }

    /// The name that the schedule was created under.
    pub fn name(&self) -> &Name
        ensures { result.now ≡ self.now.row.name }
    {
        &self.name
    }

    /// The moment of its creation.
    pub fn created(&self) -> Moment
        ensures { result ≡ self.now.row.created }
    {
        self.created
    }

    /// The moment of the last accepted change of it: its creation, an update or its deletion.
    pub fn changed(&self) -> Moment
        ensures { result ≡ self.now.row.changed }
    {
        self.changed
    }

    /// Whether it lives.
    pub fn lives(&self) -> bool
        ensures { result ≡ self.now.row.lives }
    {
        self.lives
    }

    /// Its contents with the spans of instants that they cover, the first one first.
    pub fn revisions(&self) -> &[Revision]
        ensures { result.now ≡ self.now.row.revisions }
    {
        self.revisions.as_slice()
    }

    /// Its current content, where it lives.
    pub fn current(&self) -> Option<&Schedule>
        ensures { option_copied result ≡ current_of self.now.row }
    {
        if !self.lives {
            return None;
        }
        match last_of(&self.revisions) {
            Some(revision) => Some(&revision.content),
            None => None,
        }
    }

    /// Its content at an instant: that of the first revision whose span has it.
    pub fn content_at(&self, instant: u64) -> Option<&Schedule>
        ensures { option_copied result ≡ option_map (λ revision. revision.content) (find (covers instant) self.now.row.revisions) }
    {
        match covering(&self.revisions, instant) {
            Some(revision) => Some(&revision.content),
            None => None,
        }
    }
}
