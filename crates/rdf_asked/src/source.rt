//! What terms are asked with.

use crate::listed::Listed;
use owl_kind::Kinds;
use rdf_graph::Graph;
use rdf_roles::Roles;

/// A graph, with the roles of its nodes, the kinds of its IRIs, and what is known of
/// the lists that begin at its nodes, by the numbers of these.
#[derive(Clone, Copy)]
pub struct Source<'a> {
    pub graph: &'a Graph,
    pub roles: &'a Roles,
    pub kinds: &'a Kinds,
    pub lists: &'a [Option<Listed>],
}
