//! The properties and values of annotations.

ghost use Rattle.std.specs.Prelude.{◌≡◌, IfOk, IsSome, Some};
ghost use Rattle.owl_tree.specs.declared.row.Sort.TheVariants as sort;
ghost use Rattle.owl_tree.specs.Trees.{leaf};
ghost use Rattle.rdf_graph.specs.declared.term.Term.TheVariants as held;
ghost use Rattle.rdf_meaning.specs.Denotation.{simple};
ghost use Rattle.rdf_annotations.specs.Held.{IsHeldAs, IsLeafOf};
ghost use Rattle.tree_stores.specs.Stores.{Keeps};

use crate::annotated::Annotated;
use owl_characters::NoMemory;
use owl_tree::{Atom, Tag};
use rdf_graph::Term;
use rdf_terms::Iri;
use tree_stores::TreeStore;

/// A leaf of a tree.
#[derive(Drop)]
struct Leaf {
    tag: Tag,
    atom: Atom,
}

impl<'a> Annotated<'a> {
    /// The number of the annotation property with this name.
    pub(crate) fn hold_property<S: TreeStore>(
        &self,
        store: &mut S,
        iri: &Iri,
    ) -> Result<S::Number, NoMemory>
        requires { IsSome (simple self.now.reading.graph.now self.now.reading.kinds.now
            sort.AnnotationProperty (held.Iri iri.now)) }
        ensures held { IfOk result (IsHeldAs (S.stands store.new) self.now.reading.graph.now
            self.now.reading.kinds.now sort.AnnotationProperty (held.Iri iri.now)) }
        ensures kept { Keeps (S.stands store.old) (S.stands store.new) }
    {
        let Leaf { tag, atom } = self.property(iri)?;
        store.hold_leaf(tag, atom)
    }

    /// The number of the value of an annotation.
    pub(crate) fn hold_value<S: TreeStore>(
        &self,
        store: &mut S,
        term: &Term,
    ) -> Result<S::Number, NoMemory>
        requires { IsSome (simple self.now.reading.graph.now self.now.reading.kinds.now
            sort.AnnotationValue term.now) }
        ensures held { IfOk result (IsHeldAs (S.stands store.new) self.now.reading.graph.now
            self.now.reading.kinds.now sort.AnnotationValue term.now) }
        ensures kept { Keeps (S.stands store.old) (S.stands store.new) }
    {
        let Leaf { tag, atom } = self.value(term)?;
        store.hold_leaf(tag, atom)
    }

    /// The annotation property with this name.
    fn property(&self, iri: &Iri) -> Result<Leaf, NoMemory>
        requires { IsSome (simple self.now.reading.graph.now self.now.reading.kinds.now
            sort.AnnotationProperty (held.Iri iri.now)) }
        ensures { IfOk result (IsLeafOf self.now.reading.graph.now self.now.reading.kinds.now
            sort.AnnotationProperty (held.Iri iri.now)) }
    {
        let atom = Atom::Iri(iri.copy(self.alloc)?);
        Ok(Leaf {
            tag: Tag::AnnotationProperty,
            atom,
        })
    }

    /// The value of an annotation.
    #[tactic(auto, unfolding(rdf_meaning::specs::Denotation::simple))]
    fn value(&self, term: &Term) -> Result<Leaf, NoMemory>
        requires { IsSome (simple self.now.reading.graph.now self.now.reading.kinds.now
            sort.AnnotationValue term.now) }
        ensures { IfOk result (IsLeafOf self.now.reading.graph.now self.now.reading.kinds.now
            sort.AnnotationValue term.now) }
    {
        match term {
            Term::Iri(iri) => {
                let atom = Atom::Iri(iri.copy(self.alloc)?);
                Ok(Leaf {
                    tag: Tag::PlainIri,
                    atom,
                })
            }
            Term::Blank(label) => {
                let atom = Atom::Label(label.copy(self.alloc)?);
                Ok(Leaf {
                    tag: Tag::Anonymous,
                    atom,
                })
            }
            Term::Literal(literal) => {
                let atom = Atom::Literal(literal.copy(self.alloc)?);
                Ok(Leaf {
                    tag: Tag::Literal,
                    atom,
                })
            }
        }
    }
}
