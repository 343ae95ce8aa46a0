//! A run of instances of one value.

/// Where a run ends and what it holds; a map keeps it by the instance where it begins.
#[derive(Drop)]
pub struct Run<T> {
    /// The first instance past the run.
    pub end: u64,
    pub value: T,
}
