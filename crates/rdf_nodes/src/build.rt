//! The numbers of forms in a store of trees.

ghost use Rattle.std.specs.Prelude.{◌≡◌, IfErr, IfOk, IfSome, IsNone, None, Some, is_some};
ghost use Rattle.std.specs.List.{AllByRecursion};
ghost use Rattle.owl_tree.specs.Trees.{Tree};
ghost use Rattle.rdf_graph.specs.declared.term.Term.{Term};
ghost use Rattle.rdf_graph.specs.declared.term.Term.TheVariants as held;
ghost use Rattle.rdf_meaning.specs.Nodes.{role_of};
ghost use Rattle.rdf_roles.specs.Tables.{IsTableOf};
ghost use Rattle.rdf_nodes.specs.Numbers.{AllStand, AreKnownBelow, AreNumbered, DenoteTrees, HasItsNumber, IsDenotedAs, IsExpression, IsNodeFault, StandsFor};
ghost use Rattle.rdf_nodes.specs.Operands.{own_tree};
ghost use Rattle.rdf_meaning.specs.Denotation.{sort_of};
ghost use Rattle.rdf_nodes.specs.declared.form.Operand.TheVariants as operand;
ghost use Rattle.tree_stores.specs.Stores.{Keeps};

use crate::form::{Form, Operand};
use crate::source::Source;
use owl_characters::NoMemory;
use owl_tree::{Atom, Tag};
use rdf_meaning::Role;
use rdf_terms::{Iri, Label, Literal};
use std::alloc::{AllocError, Global};
use tree_stores::{TreeFault, TreeStore};

/// The number of the facet and its value.
fn hold_facet<S: TreeStore>(
    alloc: Global,
    store: &mut S,
    facet: Iri,
    value: Literal,
) -> Result<S::Number, NoMemory>
    ensures held { IfOk result (λ n. (t : Tree) → own_tree (operand.Facet facet value) ≡ Some t →
        S.stands store.new t n) }
    ensures kept { Keeps (S.stands store.old) (S.stands store.new) }
{
    let facet = store.hold_leaf(Tag::Facet, Atom::Iri(facet))?;
    let value = store.hold_leaf(Tag::Literal, Atom::Literal(value))?;
    let mut kids = Vec::new(alloc);
    kids.push(facet).map_err(AllocError::from)?;
    kids.push(value).map_err(AllocError::from)?;
    match store.hold_node(Tag::FacetPair, kids) {
        Ok(number) => Ok(number),
        Err(TreeFault::TooDeep) => unreachable!(),
        Err(TreeFault::TooHeavy(_)) => unreachable!(),
        Err(TreeFault::Memory) => Err(NoMemory),
    }
}

impl<'a> Source<'a> {
    /// The number of the tree that the operand stands for, where the numbers of the
    /// nodes below it are known.
    pub fn hold_operand<S: TreeStore>(
        &self,
        store: &mut S,
        ids: &[Option<S::Number>],
        operand: &Operand,
    ) -> Result<S::Number, NoMemory>
        requires numbered { AreNumbered self.now.graph.now self.now.kinds.now self.now.roles.now
            (S.stands store.old) ids.now }
        requires known { HasItsNumber ids.now operand.now }
        ensures held { IfOk result (
            StandsFor self.now.graph.now self.now.kinds.now self.now.roles.now
            (S.stands store.new) operand.now) }
        ensures kept { Keeps (S.stands store.old) (S.stands store.new) }
    {
        let _graph = self.graph;
        match operand {
            Operand::Leaf(tag, atom) => store.hold_leaf(*tag, atom.copy(self.alloc)?),
            Operand::Facet(facet, value) => {
                let facet = facet.copy(self.alloc)?;
                hold_facet(self.alloc, store, facet, value.copy(self.alloc)?)
            }
            Operand::Node(number) => {
                let Some(Some(id)) = ids.get(*number) else {
                    unreachable!();
                };
                Ok(*id)
            }
        }
    }

    /// The numbers of the trees that the operands stand for, where those of the
    /// nodes below them are known.
    pub fn hold_operands<S: TreeStore>(
        &self,
        store: &mut S,
        ids: &[Option<S::Number>],
        operands: &[Operand],
    ) -> Result<Vec<S::Number>, NoMemory>
        requires numbered { AreNumbered self.now.graph.now self.now.kinds.now self.now.roles.now
            (S.stands store.old) ids.now }
        requires known { AllByRecursion (HasItsNumber ids.now) operands.now }
        ensures held { IfOk result (λ kids. AllStand self.now.graph.now self.now.kinds.now
            self.now.roles.now (S.stands store.new) operands.now kids.items) }
        ensures kept { Keeps (S.stands store.old) (S.stands store.new) }
    {
        let mut kids = Vec::new(self.alloc);
        let mut rest = operands;
        while let Some((operand, behind)) = rest.split_first() {
            let kid = self.hold_operand(store, ids, operand)?;
            kids.push(kid).map_err(AllocError::from)?;
            rest = behind;
        }
        Ok(kids)
    }

    /// The number of the tree that a node with this form denotes, where the
    /// numbers of the nodes below it are known.
    fn tree<S: TreeStore>(
        &self,
        store: &mut S,
        ids: &[Option<S::Number>],
        form: &Form,
    ) -> Result<S::Number, TreeFault<S::Heavy>>
        requires numbered { AreNumbered self.now.graph.now self.now.kinds.now self.now.roles.now
            (S.stands store.old) ids.now }
        requires known { AllByRecursion (HasItsNumber ids.now) form.now.operands.items }
        ensures held { (x : Term)
            → IsExpression self.now.graph.now self.now.kinds.now self.now.roles.now x form.now →
            IfOk result (IsDenotedAs self.now.graph.now self.now.kinds.now (S.stands store.new)
            x) }
        ensures fault { (x : Term)
            → IsExpression self.now.graph.now self.now.kinds.now self.now.roles.now x form.now →
            IfErr result (IsNodeFault self.now.graph.now self.now.kinds.now x) }
        ensures kept { Keeps (S.stands store.old) (S.stands store.new) }
    {
        let kids = self.hold_operands(store, ids, &form.operands)?;
        store.hold_node(form.tag, kids)
    }

    /// The number of the tree that the node denotes, where those of the nodes
    /// below it are known; none where the node is no expression.
    pub(crate) fn denoted<S: TreeStore>(
        &self,
        store: &mut S,
        ids: &[Option<S::Number>],
        label: &Label,
    ) -> Result<Option<S::Number>, TreeFault<S::Heavy>>
        requires table { IsTableOf self.now.graph.now self.now.roles.now }
        requires trees { DenoteTrees self.now.graph.now self.now.kinds.now }
        requires numbered { AreNumbered self.now.graph.now self.now.kinds.now self.now.roles.now
            (S.stands store.old) ids.now }
        requires below { AreKnownBelow self.now.graph.now self.now.roles.now ids.now
            (held.Blank label.now) }
        ensures held { IfOk result (λ found. IfSome found (
            IsDenotedAs self.now.graph.now self.now.kinds.now (S.stands store.new)
            (held.Blank label.now))) }
        ensures none { IfOk result (λ found. IsNone found →
            sort_of (role_of self.now.graph.now (held.Blank label.now)) ≡ None) }
        ensures fault { IfErr result (
            IsNodeFault self.now.graph.now self.now.kinds.now (held.Blank label.now)) }
        ensures kept { Keeps (S.stands store.old) (S.stands store.new) }
    {
        if !is_expression(self.roles.role(label)) {
            return Ok(None);
        }
        let Some(form) = self.form(label)? else {
            unreachable!();
        };
        match self.tree(store, ids, &form) {
            Ok(id) => Ok(Some(id)),
            Err(fault) => Err(fault),
        }
    }
}

/// Whether nodes of the role are expressions.
pub(crate) fn is_expression(role: Role) -> bool
    ensures { result ≡ is_some (sort_of role) }
{
    match role {
        Role::Property | Role::Class | Role::Range => true,
        _ => false,
    }
}
