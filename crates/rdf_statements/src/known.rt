//! What the axioms of a graph are held with.

use rdf_annotations::{Annotated, Sets};

/// A graph that is read, the numbers in a store of the sets of annotations of its
/// reifications, and those of what its nodes denote.
#[derive(Clone, Copy)]
pub struct Known<'a, N> {
    pub annotated: Annotated<'a>,
    pub sets: &'a Sets<N>,
    pub ids: &'a [Option<N>],
}
