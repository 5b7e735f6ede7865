//! The elements of lists.

ghost use Rattle.std.specs.Prelude.{◌≡◌, IfOk, IfSome, IsNone, true};
ghost use Rattle.rdf_graph.specs.declared.term.Term as held;
ghost use Rattle.rdf_meaning.specs.declared.row.Want.TheVariants.{Many};
ghost use Rattle.rdf_meaning.specs.Nodes.{role_of};
ghost use Rattle.rdf_meaning.specs.declared.role.Role.TheVariants as role;
ghost use Rattle.rdf_faults.specs.Asked.{IsListOf, is_of_sort};
ghost use Rattle.rdf_roles.specs.Refusals.{AreNodesFormed};
ghost use Rattle.rdf_roles.specs.Tables.{IsTableOf};
ghost use Rattle.rdf_nodes.specs.Operands.{AreElements, DenotesNone, IsCellWith, IsWantedOfNode, is_told_by_kind};

use crate::form::Operand;
use crate::source::Source;
use owl_characters::NoMemory;
use owl_tree::Sort;
use rdf_graph::Term;
use rdf_meaning::Role;
use rdf_rows::{cell, is_nil};
use std::alloc::AllocError;

impl<'a> Source<'a> {
    /// The elements of the list, where each stands for a tree of the sort. A list
    /// has no more cells than the graph has triples.
    pub fn elements(&self, sort: Sort, list: &Term) -> Result<Option<Vec<Operand>>, NoMemory>
        requires { IsTableOf self.now.graph.now self.now.roles.now }
        ensures elements { IfOk result (λ found. IfSome found (λ operands.
            AreElements self.now.graph.now self.now.kinds.now self.now.roles.now sort list.now
            operands.items)) }
        ensures none { AreNodesFormed self.now.graph.now → is_told_by_kind sort ≡ true →
            IfOk result (λ found. IsNone found → IsListOf self.now.graph.now
            (is_of_sort self.now.graph.now self.now.kinds.now sort) 0 list.now → ⊥) }
        ensures no_list { IfOk result (λ found. IsNone found →
            IsWantedOfNode (Many sort 0) list.now →
            DenotesNone self.now.graph.now self.now.kinds.now (Many sort 0) list.now) }
    {
        let mut operands = Vec::new(self.alloc);
        let mut rest = list;
        for count in 0..self.graph.len() + 1 {
            let Some((first, behind)) = self.cell(rest) else {
                return if is_nil(rest) {
                    Ok(Some(operands))
                } else {
                    Ok(None)
                };
            };
            let Some(operand) = self.operand(sort, first)? else {
                return Ok(None);
            };
            operands.push(operand).map_err(AllocError::from)?;
            rest = behind;
        }
        Ok(None)
    }

    /// The first element and the rest of the cell that the term is.
    pub fn cell(&self, term: &Term) -> Option<(&'a Term, &'a Term)>
        requires { IsTableOf self.now.graph.now self.now.roles.now }
        ensures cell { IfSome result (λ cell.
            IsCellWith self.now.graph.now term.now cell.0.now cell.1.now) }
        ensures none { AreNodesFormed self.now.graph.now → IsNone result →
            role_of self.now.graph.now term.now ≡ role.List → ⊥ }
        ensures no_cell { IsNone result → (first rest : held.Term) →
            IsCellWith self.now.graph.now term.now first rest → ⊥ }
    {
        let Term::Blank(label) = term else {
            return None;
        };
        if self.roles.role(label) == Role::List {
            cell(self.graph.about(term))
        } else {
            None
        }
    }
}
