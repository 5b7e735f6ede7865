//! The sets of annotations of all reifications.

ghost use Rattle.std.specs.Prelude.{◌<◌, ◌++◌, ◌∷◌, [], IfErr, IfOk, IsTrue, List, OnOk, ℕ, length};
ghost use Rattle.rdf_meaning.specs.Nodes.{role_of};
ghost use Rattle.rdf_meaning.specs.Statements.{notes, IsNotedTree, is_noted};
ghost use Rattle.rdf_annotations.specs.Annotations.{AreSets, AreSetsSoFar, AreSomeSets, HaveSetsAt, HaveSetsBelow, IsFaultOfSome, IsSetOf};
ghost use Rattle.rdf_annotations.specs.Held.{IsAnnotated};
ghost use Rattle.tree_stores.specs.Stores.{Keeps};

use crate::annotated::Annotated;
use crate::places::is_note;
use crate::sets::Sets;
use owl_characters::NoMemory;
use owl_tree::Tag;
use rdf_graph::Term;
use std::alloc::Global;
use tree_stores::{TreeFault, TreeStore};

impl<'a> Annotated<'a> {
    /// The number of the set of the annotations that stand at a reification, or at
    /// a node that stands for an axiom (Mapping to RDF Graphs, section 2.3).
    ///
    /// `TooDeep` and `TooHeavy` where it, or one of them, is.
    pub fn hold_set<S: TreeStore>(
        &self,
        store: &mut S,
        sets: &Sets<S::Number>,
        node: &Term,
    ) -> Result<S::Number, TreeFault<S::Heavy>>
        requires annotated { IsAnnotated self.now }
        requires sets { AreSomeSets (S.stands store.old) self.now.reading.graph.now
            self.now.reading.kinds.now self.now.reading.roles.now sets.now.of_nodes.items
            sets.now.empty }
        requires known { HaveSetsAt self.now.reading.graph.now self.now.reading.kinds.now
            self.now.reading.header.now self.now.reading.roles.now sets.now.of_nodes.items
            node.now }
        requires noted { IsTrue (is_noted (role_of self.now.reading.graph.now node.now)) }
        ensures set { IfOk result (IsSetOf (S.stands store.new) self.now.reading.graph.now
            self.now.reading.kinds.now node.now) }
        ensures fault { IfErr result (IsFaultOfSome (IsNotedTree self.now.reading.graph.now
            self.now.reading.kinds.now self.now.reading.header.now)) }
        ensures kept { Keeps (S.stands store.old) (S.stands store.new) }
    {
        let annotations = self.hold_annotations(store, sets, node)?;
        store.hold_node(Tag::Notes, annotations)
    }

    /// The numbers of the sets of annotations of all reifications.
    ///
    /// `TooDeep` and `TooHeavy` where one of these, or an annotation in them, is.
    pub fn hold_sets<S: TreeStore>(
        &self,
        store: &mut S,
    ) -> Result<Sets<S::Number>, TreeFault<S::Heavy>>
        requires { IsAnnotated self.now }
        ensures sets { IfOk result (λ sets. AreSets (S.stands store.new)
            self.now.reading.graph.now self.now.reading.kinds.now self.now.reading.roles.now
            sets.of_nodes.items sets.empty) }
        ensures fault { IfErr result (IsFaultOfSome (IsNotedTree self.now.reading.graph.now
            self.now.reading.kinds.now self.now.reading.header.now)) }
        ensures kept { Keeps (S.stands store.old) (S.stands store.new) }
    {
        let mut sets = self.no_sets(store)?;
        self.add_sets(store, &mut sets)?;
        Ok(sets)
    }

    /// The number of the empty set, and no others.
    fn no_sets<S: TreeStore>(&self, store: &mut S) -> Result<Sets<S::Number>, NoMemory>
        ensures sets { IfOk result (λ sets. AreSetsSoFar (S.stands store.new)
            self.now.reading.graph.now self.now.reading.kinds.now self.now.reading.roles.now
            [] sets.of_nodes.items sets.empty) }
        ensures kept { Keeps (S.stands store.old) (S.stands store.new) }
    {
        let empty = hold_empty(self.alloc, store)?;
        let of_nodes = vec![in self.alloc; None; self.reading.roles.len()]?;
        Ok(Sets { of_nodes, empty })
    }

    /// Adds the sets of all reifications, each behind those of the reifications of
    /// its annotations.
    fn add_sets<S: TreeStore>(
        &self,
        store: &mut S,
        sets: &mut Sets<S::Number>,
    ) -> Result<(), TreeFault<S::Heavy>>
        requires annotated { IsAnnotated self.now }
        requires sets { AreSetsSoFar (S.stands store.old) self.now.reading.graph.now
            self.now.reading.kinds.now self.now.reading.roles.now [] sets.old.of_nodes.items
            sets.old.empty }
        ensures sets { OnOk result (AreSets (S.stands store.new) self.now.reading.graph.now
            self.now.reading.kinds.now self.now.reading.roles.now sets.new.of_nodes.items
            sets.new.empty) }
        ensures fault { IfErr result (IsFaultOfSome (IsNotedTree self.now.reading.graph.now
            self.now.reading.kinds.now self.now.reading.header.now)) }
        ensures kept { Keeps (S.stands store.old) (S.stands store.new) }
    {
        for number in self.reading.roles.order() {
            self.add_set(store, sets, *number)?;
        }
        Ok(())
    }

    /// Adds the set of the node with this number, where it is a reification.
    fn add_set<S: TreeStore>(
        &self,
        store: &mut S,
        sets: &mut Sets<S::Number>,
        number: usize,
    ) -> Result<(), TreeFault<S::Heavy>>
        requires annotated { IsAnnotated self.now }
        requires number { number < length self.now.reading.roles.now.nodes }
        requires sets { AreSetsSoFar (S.stands store.old) self.now.reading.graph.now
            self.now.reading.kinds.now self.now.reading.roles.now [] sets.old.of_nodes.items
            sets.old.empty }
        requires known { HaveSetsBelow self.now.reading.graph.now self.now.reading.kinds.now
            self.now.reading.header.now self.now.reading.roles.now sets.old.of_nodes.items
            number }
        ensures sets { (passed : List ℕ) → AreSetsSoFar (S.stands store.old)
            self.now.reading.graph.now self.now.reading.kinds.now self.now.reading.roles.now
            passed sets.old.of_nodes.items sets.old.empty
            → OnOk result (AreSetsSoFar (S.stands store.new) self.now.reading.graph.now
            self.now.reading.kinds.now self.now.reading.roles.now (passed ++ number ∷ [])
            sets.new.of_nodes.items sets.new.empty) }
        ensures fault { IfErr result (IsFaultOfSome (IsNotedTree self.now.reading.graph.now
            self.now.reading.kinds.now self.now.reading.header.now)) }
        ensures kept { Keeps (S.stands store.old) (S.stands store.new) }
    {
        let Some(label) = self.reading.roles.node(number) else {
            unreachable!();
        };
        if !is_note(self.reading.roles.role(label)) {
            return Ok(());
        }
        let node = Term::Blank(label.copy(self.alloc)?);
        let set = self.hold_set(store, sets, &node)?;
        sets.of_nodes[number] = Some(set);
        Ok(())
    }
}

/// The number of the empty set.
fn hold_empty<S: TreeStore>(alloc: Global, store: &mut S) -> Result<S::Number, NoMemory>
    ensures held { IfOk result (S.stands store.new (notes [])) }
    ensures kept { Keeps (S.stands store.old) (S.stands store.new) }
{
    match store.hold_node(Tag::Notes, Vec::new(alloc)) {
        Ok(empty) => Ok(empty),
        Err(TreeFault::TooDeep) => unreachable!(),
        Err(TreeFault::TooHeavy(_)) => unreachable!(),
        Err(TreeFault::Memory) => Err(NoMemory),
    }
}
