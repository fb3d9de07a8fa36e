/// What a target's reply means for its attempt.
#[derive(Debug, Clone, Copy, PartialEq, Eq)]
pub enum Verdict {
    /// The target has acted.
    Done,
    /// The occurrence may be tried again.
    Retry,
    /// The target refuses for good.
    Final,
}
