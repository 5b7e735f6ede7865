//! The numbers of what nodes stand for, by their labels.

ghost use Rattle.std.specs.Prelude.{◌+◌, ◌<◌, List, IfOk, OnOk, length};
ghost use Rattle.owl_tree.specs.Trees.{Tree};
ghost use Rattle.rdf_roles.specs.Tables.{IsTableOf};
ghost use Rattle.rdf_nodes.specs.Nodes.{HoldNumbers, HoldNumbersUpTo};
ghost use Rattle.rdf_nodes.specs.Numbers.{AreKnown, AreNumbered, IsKnown};
ghost use Rattle.tree_stores.specs.Stores.{HasNumber};

use crate::build::is_expression;
use crate::source::Source;
use indexmap::IndexMap;
use owl_arena::ExprId;
use owl_characters::NoMemory;
use rdf_terms::Label;

impl<'a> Source<'a> {
    /// The numbers of what the nodes stand for, by their labels.
    pub fn by_label(&self, ids: &[Option<ExprId>]) -> Result<IndexMap<Label, ExprId>, NoMemory>
        requires table { IsTableOf self.now.graph.now self.now.roles.now }
        requires known { AreKnown self.now.graph.now self.now.roles.now ids.now }
        ensures { (trees : List Tree)
            → AreNumbered self.now.graph.now self.now.kinds.now self.now.roles.now
            (HasNumber trees) ids.now →
            IfOk result (λ table.
            HoldNumbers self.now.graph.now self.now.kinds.now trees table.entries) }
    {
        let mut table = IndexMap::new(self.alloc);
        for number in 0..self.roles.len() {
            self.add_label(ids, &mut table, number)?;
        }
        Ok(table)
    }

    /// Adds the node with this number, where it is an expression.
    fn add_label(
        &self,
        ids: &[Option<ExprId>],
        table: &mut IndexMap<Label, ExprId>,
        number: usize,
    ) -> Result<(), NoMemory>
        requires table { IsTableOf self.now.graph.now self.now.roles.now }
        requires number { number < length self.now.roles.now.nodes }
        requires known { IsKnown self.now.graph.now self.now.roles.now ids.now number }
        ensures { (trees : List Tree)
            → AreNumbered self.now.graph.now self.now.kinds.now self.now.roles.now
            (HasNumber trees) ids.now
            → HoldNumbersUpTo self.now.graph.now self.now.kinds.now self.now.roles.now trees number
            table.old.entries →
            OnOk result (HoldNumbersUpTo self.now.graph.now self.now.kinds.now self.now.roles.now
            trees (number + 1) table.new.entries) }
    {
        let Some(label) = self.roles.node(number) else {
            unreachable!();
        };
        if !is_expression(self.roles.role(label)) {
            return Ok(());
        }
        let Some(Some(id)) = ids.get(number) else {
            unreachable!();
        };
        match table.insert(label.copy(self.alloc)?, *id) {
            Ok(_) => Ok(()),
            Err(_) => Err(NoMemory),
        }
    }
}
