//! The letter of an occurrence that failed.
ghost use Rattle.std.specs.Prelude.{◌≡◌, ◌+◌, ◌≤◌, ◌++◌, ℕ, List, Some, if◌then◌else◌};
ghost use Rattle.std.specs.Option.{option_map};
ghost use Rattle.plain_words.specs.Lists.{same_text, some_pass};
ghost use Rattle.sched_plain.specs.Queues.{Posted, letter_in, queue_of};
ghost use Rattle.sched_plain.specs.Rows.{content_at};
ghost use Rattle.dead_letters.specs.Piles.{room_in};
ghost use Rattle.dead_letters.specs.Posts.{Holds};

use dead_letters::DeadLetters;
use sched_plain::{Letter, Outcome, Text};
use sched_rows::Rows;

/// The queue that the content of an occurrence names.
pub fn queue_at(rows: &Rows, inc: u32, instant: u64) -> Option<&Text>
    ensures { option_map (λ queue. queue.now) result ≡ queue_of (content_at rows.now.rows inc instant) }
{
    match rows.revision_at(inc, instant) {
        Some(content) => content.queue.as_ref(),
        None => None,
    }
}

/// Adds the letter of an occurrence to the queue that its content names, if it names one.
pub fn post(rows: &Rows, letters: &mut DeadLetters, inc: u32, instant: u64, reason: Outcome)
    requires { (queue : List ℕ) → queue_of (content_at rows.now.rows inc instant) ≡ Some queue → 1 ≤ room_in letters.old queue }
    ensures stands { (posted : List Posted) → Holds letters.old posted → Holds letters.new (posted ++ letter_in (queue_of (content_at rows.now.rows inc instant)) inc instant reason) }
    ensures room { (q : List ℕ) → room_in letters.old q ≤ room_in letters.new q + (if some_pass (λ queue. same_text queue q) (queue_of (content_at rows.now.rows inc instant)) then 1 else 0) }
{
    if let Some(queue) = queue_at(rows, inc, instant) {
        letters.add(
            queue,
            Letter {
                inc,
                instant,
                reason,
            },
        );
    }
}
