//! Why bytes are no step.

/// Why a payload is no step: the first of these from its first byte on. Places count from 0.
#[derive(Debug, Clone, Copy, PartialEq, Eq)]
pub enum StepFault {
    /// The payload ends inside a field.
    Short,
    /// The tag is none of a step's.
    BadTag { at: usize },
    /// The field that begins at `at` breaks its rule.
    BadField { at: usize },
    /// Bytes follow the last field, the first of them at `at`.
    Long { at: usize },
    /// There was no memory for the texts or the list of the step.
    OutOfMemory,
}

/// Why a field was not read.
#[derive(Debug, Clone, Copy, PartialEq, Eq)]
pub(crate) enum FieldFault {
    /// The bytes end inside the field.
    Cut,
    /// The field breaks its rule; at its first byte so many bytes were left.
    Broken { left: usize },
    /// There was no memory for what the field says.
    NoMemory,
}
