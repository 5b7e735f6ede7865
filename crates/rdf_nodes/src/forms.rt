//! What the triples of a node make it.

ghost use Rattle.std.specs.Prelude.{◌≡◌, IfOk, IfSome, IsNone};
ghost use Rattle.std.specs.List.{AllByRecursion};
ghost use Rattle.owl_tree.specs.Trees.{Tree};
ghost use Rattle.rdf_graph.specs.declared.term.Term.TheVariants as held;
ghost use Rattle.rdf_meaning.specs.declared.row.Want.TheVariants.{Many, One};
ghost use Rattle.rdf_meaning.specs.Nodes.{of_subject, role_of};
ghost use Rattle.rdf_roles.specs.Tables.{IsTableOf};
ghost use Rattle.rdf_nodes.specs.Large.{HasLargeNumber};
ghost use Rattle.rdf_meaning.specs.Denotation.{DenotesOwn};
ghost use Rattle.rdf_nodes.specs.Operands.{AreOperands, DenotesNone, Gives, IsForm, IsHeldAt, IsWantedOfNode, StandAt};

use crate::form::{Form, Operand};
use crate::source::Source;
use owl_characters::NoMemory;
use owl_tree::Sort;
use rdf_graph::{Term, Triple};
use rdf_meaning::{Part, Place, Role, Want, node_rows};
use rdf_rows::{NodeWords, is_true, only_object};
use rdf_terms::Label;
use std::alloc::AllocError;

impl<'a> Source<'a> {
    /// The form of the node by the row that it fits and whose parts stand for
    /// something.
    pub fn form(&self, label: &Label) -> Result<Option<Form>, NoMemory>
        requires { IsTableOf self.now.graph.now self.now.roles.now }
        ensures form { IfOk result (λ found. IfSome found (
            IsForm self.now.graph.now self.now.kinds.now self.now.roles.now
            (held.Blank label.now))) }
        ensures none { (HasLargeNumber self.now.graph.now → ⊥) → (t : Tree)
            → DenotesOwn self.now.graph.now self.now.kinds.now (held.Blank label.now) t →
            IfOk result (λ found. IsNone found → ⊥) }
    {
        let node = Term::Blank(label.copy(self.alloc)?);
        self.form_of(&node, self.roles.role(label))
    }

    /// The form of a node of the role.
    fn form_of(&self, node: &Term, role: Role) -> Result<Option<Form>, NoMemory>
        requires table { IsTableOf self.now.graph.now self.now.roles.now }
        requires role { role ≡ role_of self.now.graph.now node.now }
        ensures form { IfOk result (λ found. IfSome found (
            IsForm self.now.graph.now self.now.kinds.now self.now.roles.now node.now)) }
        ensures none { (HasLargeNumber self.now.graph.now → ⊥) → (t : Tree)
            → DenotesOwn self.now.graph.now self.now.kinds.now node.now t →
            IfOk result (λ found. IsNone found → ⊥) }
    {
        let triples = self.graph.about(node);
        let words = NodeWords::of(triples);
        for row in node_rows() {
            if words.fit(role, row) {
                if let Some(operands) = self.operands(node, triples, row.parts)? {
                    return Ok(Some(Form {
                        tag: row.tag,
                        operands,
                    }));
                }
            }
        }
        Ok(None)
    }

    /// What stands at the parts of a row of the node with these triples.
    fn operands(
        &self,
        node: &Term,
        triples: &[Triple],
        parts: &[Part],
    ) -> Result<Option<Vec<Operand>>, NoMemory>
        requires table { IsTableOf self.now.graph.now self.now.roles.now }
        requires triples { triples.now ≡ of_subject self.now.graph.now node.now }
        ensures operands { IfOk result (λ found. IfSome found (λ operands.
            AreOperands self.now.graph.now self.now.kinds.now self.now.roles.now node.now parts.now
            operands.items)) }
        ensures none { IfOk result (λ found. IsNone found → AllByRecursion (
            IsHeldAt self.now.graph.now self.now.kinds.now node.now) parts.now → ⊥) }
    {
        let mut operands = Vec::new(self.alloc);
        let mut rest = parts;
        while let Some((part, behind)) = rest.split_first() {
            let Some(mut more) = self.standing(node, triples, part)? else {
                return Ok(None);
            };
            operands.append(&mut more)?;
            rest = behind;
        }
        Ok(Some(operands))
    }

    /// What stands at the part.
    fn standing(
        &self,
        node: &Term,
        triples: &[Triple],
        part: &Part,
    ) -> Result<Option<Vec<Operand>>, NoMemory>
        requires table { IsTableOf self.now.graph.now self.now.roles.now }
        requires triples { triples.now ≡ of_subject self.now.graph.now node.now }
        ensures operands { IfOk result (λ found. IfSome found (λ operands.
            StandAt self.now.graph.now self.now.kinds.now self.now.roles.now node.now part.now
            operands.items)) }
        ensures none { IfOk result (λ found. IsNone found →
            IsHeldAt self.now.graph.now self.now.kinds.now node.now part.now → ⊥) }
    {
        let _node = node;
        let Place::At(word) = part.place else {
            return Ok(None);
        };
        match only_object(triples, word) {
            Some(term) => self.given(part.want, term),
            None => Ok(None),
        }
    }

    /// What the term gives where this is wanted.
    fn given(&self, want: Want, term: &Term) -> Result<Option<Vec<Operand>>, NoMemory>
        requires { IsTableOf self.now.graph.now self.now.roles.now }
        ensures operands { IfOk result (λ found. IfSome found (λ operands.
            Gives self.now.graph.now self.now.kinds.now self.now.roles.now term.now want
            operands.items)) }
        ensures none { IfOk result (λ found. IsNone found → IsWantedOfNode want term.now →
            DenotesNone self.now.graph.now self.now.kinds.now want term.now) }
    {
        match want {
            Want::One(sort) => self.one(sort, term),
            Want::Many(sort, least) => self.many(sort, least, term),
            Want::Mark => Ok(Some(Vec::new(self.alloc))),
            Want::True => {
                if !is_true(term) {
                    return Ok(None);
                }
                Ok(Some(Vec::new(self.alloc)))
            }
            Want::Whole(..) | Want::Keys | Want::Declared(_) => Ok(None),
        }
    }

    /// What the term gives where one tree of the sort is wanted.
    fn one(&self, sort: Sort, term: &Term) -> Result<Option<Vec<Operand>>, NoMemory>
        requires { IsTableOf self.now.graph.now self.now.roles.now }
        ensures operands { IfOk result (λ found. IfSome found (λ operands.
            Gives self.now.graph.now self.now.kinds.now self.now.roles.now term.now (One sort)
            operands.items)) }
        ensures none { IfOk result (λ found. IsNone found →
            IsWantedOfNode (One sort) term.now →
            DenotesNone self.now.graph.now self.now.kinds.now (One sort) term.now) }
    {
        let Some(operand) = self.operand(sort, term)? else {
            return Ok(None);
        };
        let mut operands = Vec::new(self.alloc);
        operands.push(operand).map_err(AllocError::from)?;
        Ok(Some(operands))
    }

    /// What the term gives where a list of so many is wanted.
    fn many(&self, sort: Sort, least: usize, list: &Term) -> Result<Option<Vec<Operand>>, NoMemory>
        requires { IsTableOf self.now.graph.now self.now.roles.now }
        ensures operands { IfOk result (λ found. IfSome found (λ operands.
            Gives self.now.graph.now self.now.kinds.now self.now.roles.now list.now
            (Many sort least) operands.items)) }
        ensures none { IfOk result (λ found. IsNone found →
            IsWantedOfNode (Many sort least) list.now →
            DenotesNone self.now.graph.now self.now.kinds.now (Many sort least) list.now) }
    {
        let Some(elements) = self.elements(sort, list)? else {
            return Ok(None);
        };
        if elements.len() < least {
            return Ok(None);
        }
        Ok(Some(elements))
    }
}
