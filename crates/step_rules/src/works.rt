//! The rules of a schedule's completion and of a sweep's end.
ghost use Rattle.std.specs.Prelude.{◌≡◌, not, [], ◌∷◌};
ghost use Rattle.plain_words.specs.Lists.{first_some, when};
ghost use Rattle.sched_plain.specs.Rules.{unless_settled};

use sched_plain::{Why, Work};

/// A Complete is `NotComplete` exactly where its schedule is not finished.
pub fn complete_broken(finished: bool) -> Option<Why>
    ensures { result ≡ first_some (when (not finished) Why.NotComplete ∷ []) }
{
    if finished {
        None
    } else {
        Some(Why::NotComplete)
    }
}

/// A Swept has the next work of its shard, where there is one.
pub fn swept_broken(work: Work) -> Option<Why>
    ensures { result ≡ first_some (unless_settled work ∷ []) }
{
    match work {
        Work::Settled => None,
        _ => Some(Why::Work(work)),
    }
}
