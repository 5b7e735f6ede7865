//! The sets of annotations of a triple.

ghost use Rattle.std.specs.Prelude.{◌≡◌, ◌∷◌, ◌<◌, [], IfOk, List, Some, length, slice_get};
ghost use Rattle.std.specs.List.{AllByRecursion};
ghost use Rattle.owl_tree.specs.Trees.{Tree};
ghost use Rattle.rdf_graph.specs.declared.term.Term.{Term};
ghost use Rattle.rdf_graph.specs.declared.triple.Triple.{Triple};
ghost use Rattle.rdf_annotations.specs.Annotations.{AreSomeSets, AreVariants, HasSet, HaveSetsOf};
ghost use Rattle.rdf_annotations.specs.Held.{AreSetsOf, IsAnnotated};
ghost use Rattle.rdf_annotations.specs.Noters.{AreNumbersOf};

use crate::annotated::Annotated;
use crate::sets::Sets;
use owl_characters::NoMemory;
use std::alloc::{AllocError, Global};
use tree_stores::TreeStore;

impl<'a> Annotated<'a> {
    /// The numbers of the sets of annotations that the triple at this place has:
    /// one for each reification of it that has annotations, or that of the empty
    /// set, where there is none (Mapping to RDF Graphs, section 2.3).
    pub fn variants<S: TreeStore>(
        &self,
        store: &S,
        sets: &Sets<S::Number>,
        place: usize,
    ) -> Result<Vec<S::Number>, NoMemory>
        requires annotated { IsAnnotated self.now }
        requires sets { AreSomeSets (S.stands store.now) self.now.reading.graph.now
            self.now.reading.kinds.now self.now.reading.roles.now sets.now.of_nodes.items
            sets.now.empty }
        requires known { (t : Triple) → slice_get self.now.reading.graph.now place ≡ Some t →
            HaveSetsOf self.now.reading.graph.now self.now.reading.roles.now
            sets.now.of_nodes.items t }
        requires place { place < length self.now.reading.graph.now }
        ensures { (t : Triple) → slice_get self.now.reading.graph.now place ≡ Some t →
            IfOk result (λ ns. AreVariants (S.stands store.now) self.now.reading.graph.now
            self.now.reading.kinds.now t ns.items) }
    {
        let numbers = self.noters.at(place);
        if numbers.is_empty() {
            only(self.alloc, sets.empty)
        } else {
            self.sets_of(store, sets, numbers)
        }
    }

    /// The numbers of the sets of annotations of the nodes with these numbers.
    fn sets_of<S: TreeStore>(
        &self,
        _store: &S,
        sets: &Sets<S::Number>,
        numbers: &[usize],
    ) -> Result<Vec<S::Number>, NoMemory>
        requires sets { AreSomeSets (S.stands _store.now) self.now.reading.graph.now
            self.now.reading.kinds.now self.now.reading.roles.now sets.now.of_nodes.items
            sets.now.empty }
        requires known { AllByRecursion (HasSet sets.now.of_nodes.items) numbers.now }
        ensures { (terms : List Term)
            → AreNumbersOf self.now.reading.roles.now terms numbers.now →
            IfOk result (λ ns. AreSetsOf (S.stands _store.now) self.now.reading.graph.now
            self.now.reading.kinds.now terms ns.items) }
    {
        let mut found = Vec::new(self.alloc);
        let mut rest = numbers;
        while let Some((number, behind)) = rest.split_first() {
            let set = set_at(sets, *number);
            found.push(set).map_err(AllocError::from)?;
            rest = behind;
        }
        Ok(found)
    }
}

/// The number alone.
fn only<N: Copy>(alloc: Global, number: N) -> Result<Vec<N>, NoMemory>
    ensures { IfOk result (λ numbers. numbers.items ≡ number ∷ []) }
{
    let mut numbers = Vec::new(alloc);
    numbers.push(number).map_err(AllocError::from)?;
    Ok(numbers)
}

/// The number of the set of annotations of the node with this number.
fn set_at<N: Copy>(sets: &Sets<N>, number: usize) -> N
    requires { HasSet sets.now.of_nodes.items number }
    ensures { slice_get sets.now.of_nodes.items number ≡ Some (Some result) }
{
    let Some(Some(set)) = sets.of_nodes.get(number) else {
        unreachable!();
    };
    *set
}
