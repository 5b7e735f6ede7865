//! The axioms that are held so far.

/// The numbers of axioms, and how many kids different trees among these have together,
/// which are no more than 2^24.
#[derive(Debug, Drop)]
pub(crate) struct StatedAxioms<N> {
    pub(crate) numbers: Vec<N>,
    pub(crate) kids: u64,
}
