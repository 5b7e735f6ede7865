//! How deep the trees of the nodes are.

ghost use Rattle.std.specs.Prelude.{IfOk, IsFalse, IsTrue};
ghost use Rattle.rdf_meaning.specs.Kinds.{HaveNoClash};
ghost use Rattle.rdf_roles.specs.Tables.{IsTableOf};
ghost use Rattle.rdf_nodes.specs.Numbers.{AreShallow, DenoteTrees, HasNode};
ghost use Rattle.tree_stores.specs.Stores.{IsDeep};

use crate::source::Source;
use owl_characters::NoMemory;
use tree_stores::{Depths, TreeFault};

impl<'a> Source<'a> {
    /// Whether no node denotes a tree of more than 128 levels. Builds no tree.
    pub(crate) fn are_shallow(&self) -> Result<bool, NoMemory>
        requires table { IsTableOf self.now.graph.now self.now.roles.now }
        requires trees { DenoteTrees self.now.graph.now self.now.kinds.now }
        requires kinds { HaveNoClash self.now.kinds.now }
        ensures shallow { IfOk result (λ shallow. IsTrue shallow →
            AreShallow self.now.graph.now self.now.kinds.now) }
        ensures deep { IfOk result (λ shallow. IsFalse shallow →
            HasNode self.now.graph.now self.now.kinds.now IsDeep) }
    {
        match self.numbers(&mut Depths, false) {
            Ok(_) => Ok(true),
            Err(TreeFault::TooDeep) => Ok(false),
            Err(TreeFault::Memory) => Err(NoMemory),
        }
    }
}
