//! Which number is kept for a date, and where.
ghost use Rattle.std.specs.Prelude.{◌≡◌, ℕ, ◌<◌, ◌≤◌, ◌*◌, ◌+◌, ◌-◌, min};
ghost use Rattle.plain_words.specs.declared.limits.TheConstants.{MOST_INCARNATIONS};
ghost use Rattle.plain_words.specs.Ids.{shard_of};
ghost use Rattle.date_table.specs.Dates.{IsDate, never};
ghost use Rattle.date_table.specs.Shards.{as_date, as_number, inc_at, place_of};

use plain_words::SHARDS;

/// The greatest number, which stands for never.
const NEVER: u64 = u64::MAX;

/// The number that is kept for a date.
pub fn number_of(date: Option<u64>) -> u64
    ensures { result ≡ as_number date }
{
    match date {
        None => NEVER,
        Some(date) => date,
    }
}

/// The date that a number is kept for.
pub fn date_of(number: u64) -> Option<u64>
    ensures { result ≡ as_date number }
{
    if number < NEVER { Some(number) } else { None }
}

/// The latest date that may have come at a moment: `NEVER` is no date, whatever the moment.
pub fn latest_date(now: u64) -> u64
    ensures { result ≡ min now (never - 1) }
{
    now.min(NEVER - 1)
}

/// The place of an incarnation in its shard's tree, from 0.
pub fn place_in_shard(inc: u64) -> usize
    requires { 1 ≤ inc }
    ensures { result ≡ place_of inc }
{
    ((inc - 1) / u64::from(SHARDS)) as usize
}

/// The shard of an incarnation.
pub fn shard_of_inc(inc: u64) -> usize
    ensures is { result ≡ shard_of inc }
    ensures below { result < SHARDS }
{
    (inc % u64::from(SHARDS)) as usize
}

/// The incarnation at a place of a shard's tree.
pub fn inc_in_shard(shard: u8, place: usize) -> u32
    requires shard { shard < SHARDS }
    requires place { inc_at shard place ≤ MOST_INCARNATIONS }
    ensures { result ≡ inc_at shard place }
{
    u32::from(SHARDS) * place as u32 + u32::from((shard + SHARDS - 1) % SHARDS) + 1
}
