/// What is known of a write's token.
#[derive(Debug, Clone, Copy, PartialEq, Eq)]
pub enum TokenAnswer {
    /// No write kept it.
    New,
    /// The same write kept it: the same operation, names, token and content.
    Same,
    /// Another write kept it, by the step at this place, counted from 1.
    Other { step: u64 },
}
