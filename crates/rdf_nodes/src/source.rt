//! What nodes are read from.

use owl_kind::Kinds;
use rdf_graph::Graph;
use rdf_roles::Roles;
use std::alloc::Global;

/// A graph, with the roles of its nodes and the kinds of its IRIs.
#[derive(Clone, Copy)]
pub struct Source<'a> {
    pub alloc: Global,
    pub graph: &'a Graph,
    pub roles: &'a Roles,
    pub kinds: &'a Kinds,
}
