//! Nodes of no axiom.

ghost use Rattle.std.specs.Prelude.{◌↔◌, IfOk, IfSome, IsNone, IsTrue};
ghost use Rattle.rdf_faults.specs.Firsts.{HoldsForNone};
ghost use Rattle.rdf_meaning.specs.Statements.{IsPartOfAxiom};
ghost use Rattle.rdf_roles.specs.Refusals.{IsFirstNode};
ghost use Rattle.rdf_roles.specs.Tables.{blank_nodes};
ghost use Rattle.rdf_scans.specs.Reach.{AreMarked, IsOrphanIn, IsReachedIn};
ghost use Rattle.rdf_scans.specs.Sorts.{IsReading};

use crate::reach::{has_mark, reached};
use crate::reading::Reading;
use owl_characters::NoMemory;
use rdf_meaning::Role;
use rdf_terms::Label;
use std::alloc::Global;

/// The first node, by its label, that would be a part of an axiom and that no axiom
/// reaches (Mapping to RDF Graphs, section 3).
pub fn first_orphan<'a>(alloc: Global, reading: &Reading<'a>) -> Result<Option<&'a Label>, NoMemory>
    requires { IsReading reading.now }
    ensures some { IfOk result (λ found. IfSome found (λ node.
        IsFirstNode reading.now.graph.now (IsOrphanIn reading.now) node.now)) }
    ensures none { IfOk result (λ found. IsNone found →
        HoldsForNone (IsOrphanIn reading.now) (blank_nodes reading.now.graph.now)) }
{
    let marks = reached(alloc, reading)?;
    Ok(first_unreached(reading, &marks))
}

/// The first node that would be a part of an axiom and that has no mark.
fn first_unreached<'a>(reading: &Reading<'a>, marks: &[bool]) -> Option<&'a Label>
    requires reading { IsReading reading.now }
    requires marks { AreMarked reading.now.graph.now (IsReachedIn reading.now) marks.now }
    ensures some { IfSome result (λ node.
        IsFirstNode reading.now.graph.now (IsOrphanIn reading.now) node.now) }
    ensures none { IsNone result →
        HoldsForNone (IsOrphanIn reading.now) (blank_nodes reading.now.graph.now) }
{
    for number in 0..reading.roles.len() {
        let Some(label) = reading.roles.node(number) else {
            unreachable!();
        };
        if is_part_of_axiom(reading.roles.role(label)) && !has_mark(marks, number) {
            return Some(label);
        }
    }
    None
}

/// Whether a node of the role is a part of an axiom.
fn is_part_of_axiom(role: Role) -> bool
    ensures { IsTrue result ↔ IsPartOfAxiom role }
{
    match role {
        Role::List | Role::Property | Role::Class | Role::Range | Role::Facet => true,
        Role::Main | Role::Note | Role::Header | Role::Individual => false,
    }
}
