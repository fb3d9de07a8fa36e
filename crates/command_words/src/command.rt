use plain_words::{Moment, Text, ZoneName};

/// What the program is asked to do.
#[derive(Debug, Drop)]
pub enum Command {
    /// Make an empty journal.
    Init,
    /// Serve the requests of the input.
    Batch,
    /// Tell the first `count` instants, 1 to 1000, at or after a moment, which is the anchor of a rate too.
    Next {
        expression: Text,
        zone: ZoneName,
        from: Moment,
        count: u64,
    },
    /// Tell the counts of what the journal stands for.
    Report,
    /// Tell whether the journal is whole.
    Check,
    /// Work off so many schedules, 1 to 1000, over memory.
    Drill {
        schedules: u64,
    },
}
