//! The attempts of one incarnation, those of an entry side by side.
ghost use Rattle.std.specs.Prelude.{◌≡◌, ◌≤◌, ◌<◌, ◌+◌, length, map, vec_len, vec_capacity};
ghost use Rattle.std.specs.List.{insert};
ghost use Rattle.sched_plain.specs.Attempts.{end_attempt, lose_attempt};
ghost use Rattle.entry_lines.specs.Laid.{IsMapped};

use sched_plain::{Attempt, Fate, Verdict};

/// Puts an attempt between others, where there is room for it.
pub fn put(attempts: &mut Vec<Attempt>, place: usize, attempt: Attempt)
    requires within { place ≤ vec_len attempts.old }
    requires room { vec_len attempts.old < vec_capacity attempts.old }
    ensures items { attempts.new.items ≡ insert attempts.old.items place attempt }
    ensures len { vec_len attempts.new ≡ vec_len attempts.old + 1 }
    ensures capacity { vec_capacity attempts.old ≤ vec_capacity attempts.new }
{
    let _ = attempts.insert(place, attempt);
}

/// Of the attempts from a place up to another that of this number ends.
pub fn end_among(
    attempts: &mut Vec<Attempt>,
    from: usize,
    to: usize,
    number: u16,
    verdict: Verdict,
    status: u16,
)
    requires from { from ≤ to }
    requires to { to ≤ vec_len attempts.old }
    ensures mapped { IsMapped (end_attempt number verdict status) attempts.old.items attempts.new.items from to }
    ensures size { (vec_len attempts.new ≡ vec_len attempts.old) × (vec_capacity attempts.new ≡ vec_capacity attempts.old) }
{
    for place in from..to {
        attempts[place] = ended(attempts[place], number, verdict, status);
    }
}

/// Of the attempts from a place up to another those that are live are lost.
pub fn lose_among(attempts: &mut Vec<Attempt>, from: usize, to: usize)
    requires from { from ≤ to }
    requires to { to ≤ vec_len attempts.old }
    ensures mapped { IsMapped lose_attempt attempts.old.items attempts.new.items from to }
    ensures size { (vec_len attempts.new ≡ vec_len attempts.old) × (vec_capacity attempts.new ≡ vec_capacity attempts.old) }
{
    for place in from..to {
        attempts[place] = lost(attempts[place]);
    }
}

fn ended(attempt: Attempt, number: u16, verdict: Verdict, status: u16) -> Attempt
    ensures { result ≡ end_attempt number verdict status attempt }
{
    if number == attempt.number {
        Attempt {
            fate: Fate::Ended { verdict, status },
            ..attempt
        }
    } else {
        attempt
    }
}

fn lost(attempt: Attempt) -> Attempt
    ensures { result ≡ lose_attempt attempt }
{
    match attempt.fate {
        Fate::Live => Attempt {
            fate: Fate::Lost,
            ..attempt
        },
        _ => attempt,
    }
}
