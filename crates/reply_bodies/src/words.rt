//! The words by which bodies show states, actions, verdicts and outcomes.
ghost use Rattle.std.specs.Prelude.{◌≡◌};
ghost use Rattle.reply_bodies.specs.Words.{action_word, decided_word, fate_word, outcome_word, state_word, verdict_word};

use sched_plain::{Fate, Outcome, Verdict};

/// Whether a schedule has occurrences.
pub fn state_word(enabled: bool) -> &'static str
    ensures { result.now ≡ state_word enabled }
{
    if enabled { "ENABLED" } else { "DISABLED" }
}

/// Whether a schedule is deleted once it has nothing left to do.
pub fn action_word(delete_after: bool) -> &'static str
    ensures { result.now ≡ action_word delete_after }
{
    if delete_after { "DELETE" } else { "NONE" }
}

fn verdict_word(verdict: Verdict) -> &'static str
    ensures { result.now ≡ verdict_word verdict }
{
    match verdict {
        Verdict::Done => "Done",
        Verdict::Retry => "Retry",
        Verdict::Final => "Final",
    }
}

/// What became of an attempt.
pub fn fate_word(fate: Fate) -> &'static str
    ensures { result.now ≡ fate_word fate }
{
    match fate {
        Fate::Live => "Live",
        Fate::Lost => "Lost",
        Fate::Ended { verdict, .. } => verdict_word(verdict),
    }
}

/// How an entry was decided.
pub fn outcome_word(outcome: Outcome) -> &'static str
    ensures { result.now ≡ outcome_word outcome }
{
    match outcome {
        Outcome::Done => "Done",
        Outcome::Final => "Final",
        Outcome::Attempts => "Attempts",
        Outcome::Age => "Age",
        Outcome::Cancelled => "Cancelled",
    }
}

/// How an entry was decided, if it was.
pub fn decided_word(outcome: Option<Outcome>) -> &'static str
    ensures { result.now ≡ decided_word outcome }
{
    match outcome {
        Some(outcome) => outcome_word(outcome),
        None => "Undecided",
    }
}
