/// Which end of the names that begin with a text is meant, in the order of names by their bytes.
#[derive(Debug, Clone, Copy, PartialEq, Eq)]
pub enum Edge {
    /// Before the first of them, where the text itself stands or would stand.
    Before,
    /// Behind the last of them.
    Behind,
}
