//! What annotations are read from.

use crate::noters::Noters;
use rdf_scans::Reading;
use std::alloc::Global;

/// A graph that is read, and by which nodes each of its triples is annotated.
#[derive(Clone, Copy)]
pub struct Annotated<'a> {
    pub alloc: Global,
    pub reading: Reading<'a>,
    pub noters: &'a Noters,
}
