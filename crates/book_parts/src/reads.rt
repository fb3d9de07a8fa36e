//! What is told of a history at the parts.
ghost use Rattle.std.specs.Prelude.{◌≡◌, ◌<◌, ◌≤◌, ℕ, None, List, IfOk, take};
ghost use Rattle.std.specs.Option.{option_map, option_copied};
ghost use Rattle.plain_words.specs.Lists.{nth};
ghost use Rattle.plain_words.specs.declared.limits.TheConstants.{MOST_PAIRS};
ghost use Rattle.sched_plain.specs.declared.entry.Filed.{Filed};
ghost use Rattle.sched_plain.specs.declared.row.Row.{Row};
ghost use Rattle.sched_plain.specs.History.{History, count};
ghost use Rattle.sched_plain.specs.Moments.{moment};
ghost use Rattle.sched_plain.specs.Changes.{changes_of};
ghost use Rattle.sched_plain.specs.Rows.{rows_of, content_at};
ghost use Rattle.sched_plain.specs.Ledger.{ledger_of};
ghost use Rattle.sched_plain.specs.Entries.{filed};
ghost use Rattle.sched_plain.specs.Leases.{holder};
ghost use Rattle.sched_plain.specs.Report.{last_swept};
ghost use Rattle.sched_calls.specs.Serves.{wanted};
ghost use Rattle.ledger_rows.specs.Air.{live_in, airborne};
ghost use Rattle.book_parts.specs.Stands.{Stands, calendar};

use crate::enters::first_unentered;
use crate::parts::Parts;
use plain_words::{Items, MOST_PAIRS};
use sched_plain::{Entry, Holder, Moment, SHARDS, Schedule};
use std::alloc::{AllocError, Global};

impl Parts {
    /// The moment of the last step, 0 where there is none.
    pub fn moment(&self) -> Moment
        ensures { (h : History) → Stands self.now h → result.0 ≡ moment h }
    {
        self.moment
    }

    /// How many steps the history has.
    pub fn length(&self) -> u64
        ensures { (h : History) → Stands self.now h → result ≡ count h }
    {
        self.steps
    }

    /// When a shard was last swept since the last Boot.
    pub fn last_swept(&self, shard: u8) -> Option<Moment>
        requires { shard < SHARDS }
        ensures { (h : History) → Stands self.now h → result ≡ last_swept h shard }
    {
        self.swept[shard as usize]
    }

    /// Who last took a shard, its epoch, and until when it is held, 0 where it is free.
    pub fn holder(&self, shard: u8) -> Holder
        requires { shard < SHARDS }
        ensures { (h : History) → Stands self.now h → result ≡ holder h shard }
    {
        self.leases.holder(shard)
    }

    /// The entry of an occurrence, its instant in seconds since 1970 UTC; None where it has none.
    pub fn entry(&self, inc: u32, instant: u64) -> Option<Entry>
        ensures { (h : History) → Stands self.now h → result ≡ option_map {T = Filed} (λ filed. filed.entry) (filed (ledger_of h) inc instant) }
    {
        match self.ledger.filed(inc, instant) {
            Some(filed) => Some(filed.entry),
            None => None,
        }
    }

    /// How many attempts are in the air, of a shard where one is named.
    pub fn live(&self, shard: Option<u8>) -> u64
        ensures { (h : History) → Stands self.now h → result ≡ live_in shard (airborne (ledger_of h)) }
    {
        self.ledger.live(shard)
    }

    /// The content of an incarnation at an instant, in seconds since 1970 UTC; None where its spans have not the instant,
    /// or none was created with this number.
    pub fn content(&self, inc: u32, instant: u64) -> Option<&Schedule>
        ensures { (h : History) → Stands self.now h → option_copied result ≡ content_at (rows_of (changes_of h)) inc instant }
    {
        self.rows.revision_at(inc, instant)
    }

    /// The instants of the Enter that is wanted for an incarnation at a moment: the first that have no entry, at most 256.
    /// It fails only for want of memory.
    pub fn wanted(&self, alloc: Global, inc: u32, now: Moment) -> Result<Items<u64>, AllocError>
        ensures { (h : History) → Stands self.now h → IfOk result (λ instants. instants ≡ wanted calendar h inc now.0) }
    {
        first_unentered(self, alloc, inc, now, MOST_PAIRS as u16)
    }
}
