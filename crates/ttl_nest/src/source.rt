//! What is written.

use owl_atom::Prefixes;
use rdf_graph::Graph;
use rdf_roles::Roles;
use ttl_levels::Nests;

/// A graph, the prefixes by which its IRIs are abbreviated, and the roles of its nodes with those that are nested.
#[derive(Clone, Copy)]
pub struct Source<'a> {
    pub prefixes: &'a Prefixes,
    pub graph: &'a Graph,
    pub roles: &'a Roles,
    pub nests: &'a Nests,
}
