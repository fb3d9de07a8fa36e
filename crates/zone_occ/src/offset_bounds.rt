//! The least and the greatest offset of a zone's own, found once when it is read.
ghost use Rattle.std.specs.Prelude.{◌≡◌, map, option_map};
ghost use Rattle.jiff_tz.specs.PosixText.{dst_view, tz_view};
ghost use Rattle.jiff_tz.specs.Tzif.{tzif_view};
ghost use Rattle.jiff_tz.specs.TzifText.{transition_text};
ghost use Rattle.zone_occ.specs.Offsets as offsets;
ghost use Rattle.zone_occ.specs.Kind.{kind_text};

use crate::zone::Kind;
use jiff_tz::posix;
use jiff_tz::tzif::{Transition, Tzif};

/// The least and the greatest of some offsets, in seconds ahead of UTC.
#[derive(Debug, Clone, Copy, PartialEq, Eq)]
pub struct OffsetBounds {
    pub least: i32,
    pub greatest: i32,
}

impl OffsetBounds {
    fn only(offset: i32) -> OffsetBounds
        ensures { result ≡ offsets.only offset }
    {
        OffsetBounds {
            least: offset,
            greatest: offset,
        }
    }

    fn widened(self, offset: i32) -> OffsetBounds
        ensures { result ≡ offsets.widened self offset }
    {
        OffsetBounds {
            least: self.least.min(offset),
            greatest: self.greatest.max(offset),
        }
    }

    fn with_dst(self, dst: Option<posix::Dst>) -> OffsetBounds
        ensures { result ≡ offsets.with_dst self (option_map dst_view dst) }
    {
        match dst {
            Some(dst) => self.widened(dst.offset.seconds),
            None => self,
        }
    }

    fn with_rule(self, rule: &posix::TimeZone) -> OffsetBounds
        ensures { result ≡ offsets.with_rule self (tz_view rule.now) }
    {
        self.widened(rule.std_offset.seconds).with_dst(rule.dst)
    }

    fn with_row(self, row: &Transition) -> OffsetBounds
        ensures { result ≡ offsets.with_row self (transition_text row.now) }
    {
        self.widened(row.before.seconds)
            .widened(row.after.offset.seconds)
    }

    fn with_rows(self, rows: &[Transition]) -> OffsetBounds
        ensures { result ≡ offsets.with_rows self (map transition_text rows.now) }
    {
        let mut bounds = self;
        for row in rows {
            bounds = bounds.with_row(row);
        }
        bounds
    }

    fn of_rule(rule: &posix::TimeZone) -> OffsetBounds
        ensures { result ≡ offsets.with_dst (offsets.only rule.now.std_offset.seconds) (option_map dst_view rule.now.dst) }
    {
        OffsetBounds::only(rule.std_offset.seconds).with_dst(rule.dst)
    }

    fn of_table(table: &Tzif) -> OffsetBounds
        ensures { result ≡ offsets.table_bounds (tzif_view table.now) }
    {
        let rows = OffsetBounds::only(table.first().offset.seconds).with_rows(table.transitions());
        match table.posix_tz() {
            Some(rule) => rows.with_rule(&rule),
            None => rows,
        }
    }

    /// The least and the greatest offset of a zone of this kind.
    #[tactic(auto, unfolding(crate::specs::Offsets::bounds))]
    pub(crate) fn of_kind(kind: &Kind) -> OffsetBounds
        ensures { result ≡ offsets.bounds (kind_text kind.now) }
    {
        match kind {
            Kind::Utc => OffsetBounds::only(0),
            Kind::Rule(rule) => OffsetBounds::of_rule(rule),
            Kind::Table(table) => OffsetBounds::of_table(table),
        }
    }
}
