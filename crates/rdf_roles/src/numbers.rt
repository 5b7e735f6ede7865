//! The numbers of the nodes of a graph.

ghost use Rattle.std.specs.Prelude.{◌≡◌, option_map};
ghost use Rattle.rdf_roles.specs.Tables.{HasNumber, StandsAt};

use crate::roles::Roles;
use rdf_terms::Label;

impl Roles {
    /// The number of the node, none where it is none of these. Takes no memory.
    pub fn number(&self, node: &Label) -> Option<usize>
        ensures { HasNumber self.now.nodes node.now result }
    {
        self.table.get_index_of(node)
    }

    /// The node with the number, none where there are not so many. Takes no memory.
    pub fn node(&self, number: usize) -> Option<&Label>
        ensures { StandsAt self.now.nodes number (option_map (λ node. node.now) result) }
    {
        let (node, _) = self.table.get_index(number)?;
        Some(node)
    }

    /// The numbers of the nodes, each behind those of the nodes to which it leads.
    /// Takes no memory.
    pub fn order(&self) -> &[usize]
        ensures { result.now ≡ self.now.order }
    {
        &self.order
    }
}
