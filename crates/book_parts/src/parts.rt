use date_table::DateTable;
use dead_letters::DeadLetters;
use ledger_rows::Ledger;
use policy_rules::Leases;
use sched_plain::{Moment, SHARDS};
use sched_rows::Rows;
use std::marker::Model;
use token_shelf::Shelf;
use zone_occ::Zone;
use zone_shelf::ZoneShelf;

/// How many shards there are.
const SHARD_COUNT: usize = SHARDS as usize;

/// The parts of a book, each of which stands for what it reads of a history.
#[derive(Drop)]
pub struct Parts {
    /// The moment of the last step, 0 where there is none.
    pub moment: Moment,
    /// How many steps there are.
    pub steps: u64,
    /// When each shard was last swept since the last Boot.
    pub swept: [Option<Moment>; SHARD_COUNT],
    /// Who holds each shard.
    pub leases: Leases,
    /// The zone that is built in.
    pub utc: Zone,
    /// The zones by name.
    pub zones: ZoneShelf,
    /// The schedules and groups.
    pub rows: Rows,
    /// The entries and their attempts.
    pub ledger: Ledger,
    /// The kept tokens.
    pub shelf: Shelf,
    /// The dead letters, with room for the letter of each attempt in the air.
    pub letters: DeadLetters,
    /// The next instant of each incarnation that has no entry yet.
    pub next: DateTable,
    /// Since when each incarnation is finished.
    pub finished: DateTable,
}

impl Model for Parts {
    ghost use Rattle.std.specs.Prelude.{◌≡◌};
    ghost use Rattle.zone_occ.specs.ZoneText.{utc as built_in};
    ghost use Rattle.book_parts.specs.Told.{Told};
    ghost use Rattle.book_parts.specs.Sound.{IsSound};

    ghost Value = { Told };

    ghost view = { λ p. record {
      moment = p.moment.0;
      steps = p.steps;
      swept = p.swept;
      holders = p.leases;
      zones = p.zones;
      rows = p.rows;
      ledger = p.ledger;
      shelf = p.shelf;
      letters = p.letters;
      next = p.next;
      finished = p.finished;
    } };

    ghost invariant = { λ p. (p.utc ≡ built_in) × IsSound (record {
      moment = p.moment.0;
      steps = p.steps;
      swept = p.swept;
      holders = p.leases;
      zones = p.zones;
      rows = p.rows;
      ledger = p.ledger;
      shelf = p.shelf;
      letters = p.letters;
      next = p.next;
      finished = p.finished;
    }) };
}
