//! What the triples of a graph are read with.

use owl_kind::Kinds;
use rdf_asked::Listed;
use rdf_graph::{Graph, Term};
use rdf_roles::Roles;

/// A graph, the roles of its nodes, the kinds of IRIs, what is known of the lists that
/// begin at its nodes, by the numbers of these, and its one header.
#[derive(Clone, Copy)]
pub struct Reading<'a> {
    pub graph: &'a Graph,
    pub roles: &'a Roles,
    pub kinds: &'a Kinds,
    pub lists: &'a [Option<Listed>],
    pub header: &'a Term,
}
