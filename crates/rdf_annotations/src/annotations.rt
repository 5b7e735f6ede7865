//! The annotations that stand at a term.

ghost use Rattle.std.specs.Prelude.{◌≡◌, ◌<◌, ◌∷◌, [], Contains, IfErr, IfOk, IsTrue, OnOk, Some, length, slice_get};
ghost use Rattle.std.specs.List.{filter};
ghost use Rattle.owl_tree.specs.declared.tag.Tag.TheVariants as tag;
ghost use Rattle.owl_tree.specs.Trees.{Tree, kids_of, node};
ghost use Rattle.rdf_graph.specs.declared.triple.Triple.{Triple};
ghost use Rattle.rdf_meaning.specs.Statements.{is_annotation_triple, IsNotedTree};
ghost use Rattle.rdf_faults.specs.Asked.{IsTypedNote};
ghost use Rattle.rdf_annotations.specs.Annotations.{AreAnnotations, AreSomeSets, HaveSetsAt, HaveSetsOf, IsFaultOfSome};
ghost use Rattle.rdf_annotations.specs.Held.{AddsAnnotations, IsAnnotated, IsSaid};
ghost use Rattle.tree_stores.specs.Stores.{AreStanding, IsTreeFault, Keeps, StandFor};

use crate::annotated::Annotated;
use crate::sets::Sets;
use owl_characters::NoMemory;
use owl_tree::Tag;
use rdf_graph::{Term, Triple};
use rdf_scans::is_annotation;
use std::alloc::{AllocError, Global};
use tree_stores::{TreeFault, TreeStore};

/// What a triple says as an annotation: the numbers of its property, its value,
/// and the sets of annotations of its own.
#[derive(Drop)]
struct Said<N> {
    property: N,
    value: N,
    variants: Vec<N>,
}

impl<'a> Annotated<'a> {
    /// The numbers of the annotations that stand at the term: at the header, at a
    /// reification, or at a node that stands for an axiom (Mapping to RDF Graphs,
    /// sections 2.3 and 3.3).
    ///
    /// `TooDeep` and `TooHeavy` where one of them is.
    pub fn hold_annotations<S: TreeStore>(
        &self,
        store: &mut S,
        sets: &Sets<S::Number>,
        node: &Term,
    ) -> Result<Vec<S::Number>, TreeFault<S::Heavy>>
        requires annotated { IsAnnotated self.now }
        requires sets { AreSomeSets (S.stands store.old) self.now.reading.graph.now
            self.now.reading.kinds.now self.now.reading.roles.now sets.now.of_nodes.items
            sets.now.empty }
        requires known { HaveSetsAt self.now.reading.graph.now self.now.reading.kinds.now
            self.now.reading.header.now self.now.reading.roles.now sets.now.of_nodes.items
            node.now }
        ensures annotations { IfOk result (λ ns. AreAnnotations (S.stands store.new)
            self.now.reading.graph.now self.now.reading.kinds.now self.now.reading.header.now
            node.now ns.items) }
        ensures fault { IfErr result (IsFaultOfSome (IsNotedTree self.now.reading.graph.now
            self.now.reading.kinds.now self.now.reading.header.now)) }
        ensures kept { Keeps (S.stands store.old) (S.stands store.new) }
    {
        let mut annotations = Vec::new(self.alloc);
        let (start, end) = self.reading.graph.of_subject(node);
        for place in start..end {
            self.add_at(store, sets, place, &mut annotations)?;
        }
        Ok(annotations)
    }

    /// Adds the annotations that the triple at this place says, where it says any.
    fn add_at<S: TreeStore>(
        &self,
        store: &mut S,
        sets: &Sets<S::Number>,
        place: usize,
        annotations: &mut Vec<S::Number>,
    ) -> Result<(), TreeFault<S::Heavy>>
        requires annotated { IsAnnotated self.now }
        requires sets { AreSomeSets (S.stands store.old) self.now.reading.graph.now
            self.now.reading.kinds.now self.now.reading.roles.now sets.now.of_nodes.items
            sets.now.empty }
        requires known { (t : Triple) → slice_get self.now.reading.graph.now place ≡ Some t
            → IsTrue (is_annotation_triple self.now.reading.graph.now self.now.reading.kinds.now
            self.now.reading.header.now t) →
            HaveSetsOf self.now.reading.graph.now self.now.reading.roles.now
            sets.now.of_nodes.items t }
        requires place { place < length self.now.reading.graph.now }
        ensures added { (t : Triple) → slice_get self.now.reading.graph.now place ≡ Some t →
            OnOk result (AddsAnnotations (S.stands store.old) (S.stands store.new)
            self.now.reading.graph.now self.now.reading.kinds.now
            (filter (is_annotation_triple self.now.reading.graph.now self.now.reading.kinds.now
            self.now.reading.header.now) (t ∷ [])) annotations.old.items annotations.new.items) }
        ensures fault { IfErr result (IsFaultOfSome (IsNotedTree self.now.reading.graph.now
            self.now.reading.kinds.now self.now.reading.header.now)) }
        ensures kept { Keeps (S.stands store.old) (S.stands store.new) }
    {
        let triple = self.reading.graph.at(place);
        if !is_annotation(&self.reading, triple) {
            return Ok(());
        }
        let said = self.said(store, sets, place)?;
        self.add_said(store, triple, &said, annotations)
    }

    /// What the triple at this place says.
    fn said<S: TreeStore>(
        &self,
        store: &mut S,
        sets: &Sets<S::Number>,
        place: usize,
    ) -> Result<Said<S::Number>, NoMemory>
        requires annotated { IsAnnotated self.now }
        requires sets { AreSomeSets (S.stands store.old) self.now.reading.graph.now
            self.now.reading.kinds.now self.now.reading.roles.now sets.now.of_nodes.items
            sets.now.empty }
        requires known { (t : Triple) → slice_get self.now.reading.graph.now place ≡ Some t →
            HaveSetsOf self.now.reading.graph.now self.now.reading.roles.now
            sets.now.of_nodes.items t }
        requires typed { (t : Triple) → slice_get self.now.reading.graph.now place ≡ Some t →
            IsTypedNote self.now.reading.graph.now self.now.reading.kinds.now t }
        requires place { place < length self.now.reading.graph.now }
        ensures said { (t : Triple) → slice_get self.now.reading.graph.now place ≡ Some t →
            IfOk result (IsSaid (S.stands store.new) self.now.reading.graph.now
            self.now.reading.kinds.now t) }
        ensures kept { Keeps (S.stands store.old) (S.stands store.new) }
    {
        let triple = self.reading.graph.at(place);
        let property = self.hold_property(store, &triple.predicate)?;
        let value = self.hold_value(store, &triple.object)?;
        let variants = self.variants(store, sets, place)?;
        Ok(Said {
            property,
            value,
            variants,
        })
    }

    /// Adds the annotations that the triple says.
    fn add_said<S: TreeStore>(
        &self,
        store: &mut S,
        _triple: &Triple,
        said: &Said<S::Number>,
        annotations: &mut Vec<S::Number>,
    ) -> Result<(), TreeFault<S::Heavy>>
        requires said { IsSaid (S.stands store.old) self.now.reading.graph.now
            self.now.reading.kinds.now _triple.now said.now }
        requires annotation { Contains self.now.reading.graph.now _triple.now
            × IsTrue (is_annotation_triple self.now.reading.graph.now self.now.reading.kinds.now
            self.now.reading.header.now _triple.now) }
        ensures added { OnOk result (AddsAnnotations (S.stands store.old) (S.stands store.new)
            self.now.reading.graph.now self.now.reading.kinds.now (_triple.now ∷ [])
            annotations.old.items annotations.new.items) }
        ensures fault { IfErr result (IsFaultOfSome (IsNotedTree self.now.reading.graph.now
            self.now.reading.kinds.now self.now.reading.header.now)) }
        ensures kept { Keeps (S.stands store.old) (S.stands store.new) }
    {
        let mut rest = said.variants.as_slice();
        while let Some((variant, behind)) = rest.split_first() {
            let annotation = hold_annotation(
                self.alloc,
                store,
                *variant,
                said.property,
                said.value,
            )?;
            annotations.push(annotation).map_err(AllocError::from)?;
            rest = behind;
        }
        Ok(())
    }
}

/// The number of the annotation with this set of annotations of its own.
fn hold_annotation<S: TreeStore>(
    alloc: Global,
    store: &mut S,
    variant: S::Number,
    property: S::Number,
    value: S::Number,
) -> Result<S::Number, TreeFault<S::Heavy>>
    requires { AreStanding (S.stands store.old) (variant ∷ property ∷ value ∷ []) }
    ensures held { (s p v : Tree)
        → StandFor (S.stands store.old) (s ∷ p ∷ v ∷ []) (variant ∷ property ∷ value ∷ []) →
        IfOk result (S.stands store.new (node tag.Annotation (kids_of (s ∷ p ∷ v ∷ [])))) }
    ensures fault { (s p v : Tree)
        → StandFor (S.stands store.old) (s ∷ p ∷ v ∷ []) (variant ∷ property ∷ value ∷ []) →
        IfErr result (IsTreeFault (node tag.Annotation (kids_of (s ∷ p ∷ v ∷ [])))) }
    ensures kept { Keeps (S.stands store.old) (S.stands store.new) }
{
    let mut kids = Vec::new(alloc);
    kids.push(variant).map_err(AllocError::from)?;
    kids.push(property).map_err(AllocError::from)?;
    kids.push(value).map_err(AllocError::from)?;
    store.hold_node(Tag::Annotation, kids)
}
