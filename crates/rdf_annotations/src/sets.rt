//! The sets of annotations of nodes.

/// The numbers in a store of the sets of annotations of reifications, by the
/// numbers of these nodes, and that of the empty set.
#[derive(Debug, Drop)]
pub struct Sets<N> {
    pub of_nodes: Vec<Option<N>>,
    pub empty: N,
}
