//! The objects of a body whose members are known.

/// An object of a body, with members of its own.
#[derive(Debug, Clone, Copy, PartialEq, Eq)]
pub enum Part {
    /// The body of a creation or an update of a schedule.
    Schedule,
    /// Its FlexibleTimeWindow.
    Window,
    /// Its Target.
    Target,
    /// The target's DeadLetterConfig.
    DeadLetters,
    /// The target's RetryPolicy.
    Retries,
    /// The body of a creation of a group.
    Group,
}
