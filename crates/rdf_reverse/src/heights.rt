//! Heights of nodes, by which it is known of most graphs that they say no tree that is
//! too deep, before any is made.

ghost use Rattle.std.specs.Prelude.{◌≡◌, ◌≤◌, IfOk, IsTrue, List};
ghost use Rattle.std.specs.List.{AllByRecursion};
ghost use Rattle.rdf_graph.specs.declared.triple.Triple.{Triple};
ghost use Rattle.rdf_roles.specs.Tables.{IsTableOf};
ghost use Rattle.rdf_scans.specs.Sorts.{IsReading};
ghost use Rattle.rdf_reverse.specs.Heights.{AllRise, Rises, height_in, rise};
ghost use Rattle.rdf_reverse.specs.Reverse.{HasDeepTree};

use indexmap::IndexMap;
use owl_characters::NoMemory;
use rdf_graph::{Term, Triple};
use rdf_meaning::Role;
use rdf_roles::Roles;
use rdf_scans::Reading;
use rdf_terms::Label;
use std::alloc::{AllocError, Global};

/// The greatest height that is told apart: twice as many levels and a few more are as
/// deep as a tree may be.
const GREATEST_HEIGHT: usize = 60;

/// Whether heights of the nodes show that no tree is too deep. Where they don't, one
/// may be.
pub fn is_low(alloc: Global, reading: &Reading) -> Result<bool, NoMemory>
    requires { IsReading reading.now }
    ensures { IfOk result (λ low. IsTrue low → HasDeepTree reading.now.graph.now
        reading.now.kinds.now reading.now.header.now → ⊥) }
{
    let heights = find_heights(alloc, reading)?;
    Ok(all_rise(reading, &heights))
}

/// The heights of all nodes, each behind those that it leads to.
fn find_heights(alloc: Global, reading: &Reading) -> Result<IndexMap<Label, usize>, NoMemory> {
    let mut heights = IndexMap::new(alloc);
    for number in reading.roles.order() {
        if let Some(label) = reading.roles.node(*number) {
            let node = Term::Blank(label.copy(alloc)?);
            let below = highest_object(&heights, reading.graph.about(&node));
            let height = below.saturating_add(rise(reading.roles.role(label)));
            heights
                .insert(label.copy(alloc)?, height)
                .map_err(AllocError::from)?;
        }
    }
    Ok(heights)
}

/// The height of the highest object of the triples, or 1.
fn highest_object(heights: &IndexMap<Label, usize>, triples: &[Triple]) -> usize {
    let mut highest = 1;
    for triple in triples {
        highest = highest.max(height_in(heights, &triple.object));
    }
    highest
}

/// The height of the term, at most the greatest.
fn height_in(heights: &IndexMap<Label, usize>, term: &Term) -> usize
    ensures height { result ≡ height_in heights.now.entries term.now }
    ensures most { result ≤ 60 }
{
    match term {
        Term::Blank(label) => match heights.get(label) {
            Some(height) => (*height).max(1).min(GREATEST_HEIGHT),
            None => 1,
        },
        Term::Iri(_) | Term::Literal(_) => 1,
    }
}

/// How much higher a node of the role is than what its triples name.
fn rise(role: Role) -> usize
    ensures rise { result ≡ rise role }
    ensures most { result ≤ 1 }
{
    match role {
        Role::List => 0,
        _ => 1,
    }
}

/// Whether each blank node is as much higher than the objects of its triples.
fn all_rise(reading: &Reading, heights: &IndexMap<Label, usize>) -> bool
    requires { IsReading reading.now }
    ensures { IsTrue result → AllRise reading.now.graph.now (height_in heights.now.entries) }
{
    let mut rest = reading.graph.triples();
    while let Some((triple, behind)) = rest.split_first() {
        if !rises(reading.roles, heights, triple) {
            return false;
        }
        rest = behind;
    }
    true
}

/// Whether the subject, if it is a blank node, is as much higher than the object.
fn rises(roles: &Roles, heights: &IndexMap<Label, usize>, triple: &Triple) -> bool
    ensures { (g : List Triple) → IsTableOf g roles.now → IsTrue result →
        Rises g (height_in heights.now.entries) triple.now }
{
    match &triple.subject {
        Term::Blank(label) => {
            let least = height_in(heights, &triple.object) + rise(roles.role(label));
            least <= height_in(heights, &triple.subject)
        }
        Term::Iri(_) | Term::Literal(_) => true,
    }
}
