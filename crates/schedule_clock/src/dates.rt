//! What the dates of a content let through.
ghost use Rattle.std.specs.Prelude.{◌≡◌, ◌≤◌, ◌&&◌, ℕ, nat_le};
ghost use Rattle.sched_plain.specs.Occurrences.{is_within_dates};
ghost use Rattle.sched_plain.specs.Occurrences as words;
ghost use Rattle.schedule_clock.specs.Acting.{anchor_of};

use expressions::Expr;
use plain_words::Moment;
use sched_plain::Schedule;

/// A span of moments, both ends in it. It is empty where it ends before it begins.
#[derive(Debug, Clone, Copy, PartialEq, Eq)]
pub struct Span {
    pub from: u64,
    pub to: u64,
}

/// The moment from which a rate counts.
pub fn anchor_of(content: &Schedule, created: Moment) -> u64
    ensures { result ≡ anchor_of content.now created.0 }
{
    content.start.unwrap_or(created.0)
}

/// The moments of a span that the dates of a content let through: all of them for an `at`.
pub fn within_dates(content: &Schedule, span: Span) -> Span
    ensures moments { (i : ℕ) → (nat_le result.from i && nat_le i result.to) ≡ (nat_le span.from i && nat_le i span.to && is_within_dates content.now.expr content.now i) }
    ensures end { result.to ≤ span.to }
{
    match content.expr {
        Expr::At(_) => span,
        _ => Span {
            from: not_before(content.start, span.from),
            to: not_after(content.finish, span.to),
        },
    }
}

/// The later of a moment and a date, if there is one.
fn not_before(date: Option<u64>, from: u64) -> u64
    ensures { (i : ℕ) → nat_le result i ≡ (nat_le from i && words.not_before date i) }
{
    match date {
        Some(date) => from.max(date),
        None => from,
    }
}

/// The earlier of a moment and a date, if there is one.
fn not_after(date: Option<u64>, to: u64) -> u64
    ensures moments { (i : ℕ) → nat_le i result ≡ (nat_le i to && words.not_after date i) }
    ensures end { result ≤ to }
{
    match date {
        Some(date) => to.min(date),
        None => to,
    }
}
