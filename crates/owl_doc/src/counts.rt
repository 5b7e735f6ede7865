//! What a document counts.

ghost use Rattle.std.specs.Prelude.{◌≡◌, ◌↔◌, ◌⊎◌, ◌≤◌, ◌<◌, ℕ, Contains, IfOk, count_by, length};
ghost use Rattle.std.specs.List.{AllByRecursion};
ghost use Rattle.owl_doc.specs.Counts.{axiom_count, distinct_count};
ghost use Rattle.owl_doc.specs.Documents.{ontology_of};
ghost use Rattle.owl_arena.specs.Held.{AreHeld, tree_at};
ghost use Rattle.owl_doc.specs.Marks.{AddsParts, HasMark, IsClosedFrom, IsMarked};
ghost use Rattle.owl_arena.specs.Shared.{HaveOneNumber};
ghost use Rattle.owl_tree.specs.Ontologies.{ontology_weight};
ghost use Rattle.owl_tree.specs.Trees.{kids_in};

use crate::document::Doc;
use owl_arena::{Arena, ExprId};
use owl_characters::NoMemory;
use std::alloc::{AllocError, Global};

/// How large a document is.
#[derive(Clone, Copy, Debug, PartialEq, Eq)]
pub struct Counts {
    /// How many axioms there are.
    pub axioms: u64,
    /// How many distinct trees its annotations and axioms are made of, them
    /// included.
    pub distinct: u64,
    /// How many nodes and leaves its annotations and axioms have.
    pub weight: u64,
}

impl Doc {
    /// How large the document is.
    pub fn counts(&self, alloc: Global) -> Result<Counts, NoMemory>
        ensures axioms { IfOk result (λ counts. counts.axioms ≡ axiom_count (ontology_of self.now)) }
        ensures distinct { IfOk result (λ counts. counts.distinct ≡ distinct_count (ontology_of self.now)) }
        ensures weight { IfOk result (λ counts. counts.weight ≡ ontology_weight (ontology_of self.now)) }
    {
        let distinct = self.count_distinct(alloc)?;
        Ok(Counts {
            axioms: self.axioms().len() as u64,
            distinct,
            weight: self.weight,
        })
    }

    /// How many distinct trees the annotations and axioms are made of.
    fn count_distinct(&self, alloc: Global) -> Result<u64, NoMemory>
        ensures { IfOk result (λ count. count ≡ distinct_count (ontology_of self.now)) }
    {
        let mut marks: Vec<bool> = vec![in alloc; false; self.arena().distinct()]?;
        self.mark_parts(&mut marks);
        Ok(count(&marks))
    }

    /// Marks the places in the arena of the trees that the annotations and
    /// axioms are made of.
    fn mark_parts(&self, marks: &mut [bool])
        requires long { length marks.old ≡ length self.now.arena.trees }
        requires none { (place : ℕ) → IsMarked marks.old place → ⊥ }
        ensures long { length marks.new ≡ length marks.old }
        ensures count { count_by (λ mark. mark) marks.new ≡ distinct_count (ontology_of self.now) }
    {
        mark(marks, self.notes());
        mark(marks, self.axioms());
        mark_below(self.arena(), marks);
    }
}

/// Marks these places.
fn mark(marks: &mut [bool], ids: &[ExprId])
    requires { AllByRecursion (λ id. id < length marks.old) ids.now }
    ensures long { length marks.new ≡ length marks.old }
    ensures marked { (place : ℕ) → IsMarked marks.new place ↔ (IsMarked marks.old place ⊎ Contains ids.now place) }
{
    'ids: for id in ids {
        marks[id.place()] = true;
    }
}

/// Marks the kids of what has a mark, and theirs, down to the leaves.
fn mark_below(arena: &Arena, marks: &mut [bool])
    requires { length marks.old ≡ length arena.now.trees }
    ensures added { AddsParts arena.now.trees marks.old marks.new }
    ensures closed { IsClosedFrom 0 arena.now.trees marks.new }
    ensures one_number { HaveOneNumber arena.now.trees }
{
    let mut place = arena.distinct();
    'places: while 0 < place {
        place -= 1;
        mark_kids(arena, marks, arena.at(place));
    }
}

/// Marks the kids of the tree, where it has a mark.
fn mark_kids(arena: &Arena, marks: &mut [bool], id: ExprId)
    requires long { length marks.old ≡ length arena.now.trees }
    requires id { id < length arena.now.trees }
    ensures added { AddsParts arena.now.trees marks.old marks.new }
    ensures above { (place : ℕ) → id ≤ place → IsMarked marks.new place → IsMarked marks.old place }
    ensures kids { IsMarked marks.new id → AllByRecursion (HasMark arena.now.trees marks.new) (kids_in (tree_at arena.now.trees id)) }
{
    if marks[id.place()] {
        mark(marks, arena.kids(id));
    }
}

/// How many marks are set.
fn count(marks: &[bool]) -> u64
    ensures { result ≡ count_by (λ mark. mark) marks.now }
{
    marks.iter().filter(|mark| **mark).count() as u64
}
