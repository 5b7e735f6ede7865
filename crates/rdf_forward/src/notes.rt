//! The triples of annotations.

ghost use Rattle.std.specs.Prelude.{◌≡◌, ◌<◌, [], IfOk, IfSome, IsNone, OnOk, length};
ghost use Rattle.owl_arena.specs.Held.{AreHeld, tree_at};
ghost use Rattle.rdf_meaning.specs.declared.word.Word.TheVariants as word_of;
ghost use Rattle.rdf_mapping.specs.Forms.{link};
ghost use Rattle.rdf_mapping.specs.Drawing.{atom_term};
ghost use Rattle.rdf_mapping.specs.Notes.{annotation_in, no_notes, reified, reified_nodes};
ghost use Rattle.rdf_mapping.specs.Notes.{reifying};
ghost use Rattle.rdf_forward.specs.NoteWalks.{IsNoNote, IsNote, WritesNotes, are_some};
ghost use Rattle.rdf_forward.specs.NoteWalks.{notes_at};
ghost use Rattle.rdf_forward.specs.Walks.{Writes, WritesLink, holder_term, link_triple, names};
ghost use Rattle.rdf_forward.specs.Walks.{node_term};

use crate::ends::{End, Holder, Link, Name, holder_end};
use crate::writer::Writer;
use owl_arena::{Arena, ExprId};
use owl_characters::NoMemory;
use owl_tree::Atom;
use rdf_meaning::Word;
use rdf_terms::Iri;

/// An annotation: its property, its value, and the tree of its own annotations.
#[derive(Clone, Copy)]
pub struct Annotation<'a> {
    pub property: &'a Iri,
    pub value: &'a Atom,
    pub notes: ExprId,
}

/// The annotation that a tree is.
fn annotation_of(arena: &Arena, id: ExprId) -> Option<Annotation>
    requires { id < length arena.now.trees }
    ensures some { IfSome result (λ note.
        IsNote arena.now.trees (tree_at arena.now.trees id) note) }
    ensures none { IsNone result → IsNoNote (tree_at arena.now.trees id) }
    ensures below { IfSome result (λ note. note.notes < id) }
{
    let [notes, property, value] = arena.kids(id) else {
        return None;
    };
    let Some(Atom::Iri(property)) = arena.atom(*property) else {
        return None;
    };
    let value = arena.atom(*value)?;
    Some(Annotation {
        property,
        value,
        notes: *notes,
    })
}

/// Whether some of the trees are annotations.
fn has_notes(arena: &Arena, ids: &[ExprId]) -> bool
    requires { AreHeld arena.now.trees ids.now }
    ensures { result ≡ are_some (notes_at arena.now.trees ids.now) }
{
    match ids {
        [id, others @ ..] => annotation_of(arena, *id).is_some() || has_notes(arena, others),
        [] => false,
    }
}

impl Writer {
    /// Adds a node that reifies the triple (Mapping to RDF Graphs, section 2.2).
    pub fn reify(&mut self, word: Word, link: &Link) -> Result<u64, NoMemory>
        ensures number { IfOk result (λ number. number ≡ self.old.next) }
        ensures writes { OnOk result (Writes self.old self.new 1 (reifying word
            (node_term self.old self.old.next) (link_triple (names self.old) link.now))) }
    {
        let node = self.fresh()?;
        let holder = Holder::Node(node);
        self.link(&holder, &Name::Type, &End::Named(Name::Word(word)))?;
        self.link(&holder, &Name::Word(Word::AnnotatedSource), &link.subject)?;
        self.link(
            &holder,
            &Name::Word(Word::AnnotatedProperty),
            &End::Named(link.predicate),
        )?;
        self.link(&holder, &Name::Word(Word::AnnotatedTarget), &link.object)?;
        Ok(node)
    }

    /// Adds the triple of an annotation.
    fn link_annotation(&mut self, holder: &Holder, annotation: &Annotation) -> Result<(), NoMemory>
        ensures { OnOk result (WritesLink self.old self.new
            (holder_term (names self.old) holder.now) annotation.now.property.now
            (atom_term annotation.now.value.now)) }
    {
        let property = Name::Given(annotation.property);
        self.link(holder, &property, &End::Leaf(annotation.value))
    }

    /// Adds a node that reifies the triple of an annotation.
    fn reify_annotation(
        &mut self,
        holder: &Holder,
        annotation: &Annotation,
    ) -> Result<u64, NoMemory>
        ensures number { IfOk result (λ number. number ≡ self.old.next) }
        ensures writes { OnOk result (Writes self.old self.new 1 (reifying word_of.Annotation
            (node_term self.old self.old.next) (link (holder_term (names self.old) holder.now)
            annotation.now.property.now (atom_term annotation.now.value.now)))) }
    {
        let link = Link {
            subject: holder_end(holder),
            predicate: Name::Given(annotation.property),
            object: End::Leaf(annotation.value),
        };
        self.reify(Word::Annotation, &link)
    }

    /// Adds the annotations that these trees are, with what reifies those that have
    /// annotations (Mapping to RDF Graphs, section 2.3).
    #[cycle(notes)]
    pub fn write_notes(
        &mut self,
        arena: &Arena,
        holder: &Holder,
        ids: &[ExprId],
    ) -> Result<(), NoMemory>
        requires { AreHeld arena.now.trees ids.now }
        ensures { OnOk result (WritesNotes self.old self.new holder.now
            (notes_at arena.now.trees ids.now)) }
    {
        let mut left = ids;
        while let [id, others @ ..] = left {
            self.write_note(arena, holder, *id)?;
            left = others;
        }
        Ok(())
    }

    /// Adds the annotation that a tree is.
    #[cycle(notes)]
    fn write_note(&mut self, arena: &Arena, holder: &Holder, id: ExprId) -> Result<(), NoMemory>
        requires { id < length arena.now.trees }
        ensures { OnOk result (WritesNotes self.old self.new holder.now
            (annotation_in (tree_at arena.now.trees id) no_notes)) }
    {
        let Some(annotation) = annotation_of(arena, id) else {
            return Ok(());
        };
        self.link_annotation(holder, &annotation)?;
        let inside = arena.kids(annotation.notes);
        if !has_notes(arena, inside) {
            return Ok(());
        }
        let node = self.reify_annotation(holder, &annotation)?;
        self.write_notes(arena, &Holder::Node(node), inside)
    }

    /// Adds what reifies a triple that has annotations.
    pub fn write_reified(
        &mut self,
        arena: &Arena,
        link: &Link,
        inside: &[ExprId],
    ) -> Result<(), NoMemory>
        requires { AreHeld arena.now.trees inside.now }
        ensures { OnOk result (Writes self.old self.new
            (reified_nodes (notes_at arena.now.trees inside.now))
            (reified (names self.old) word_of.Axiom (link_triple (names self.old) link.now)
            (notes_at arena.now.trees inside.now) self.old.next)) }
    {
        if !has_notes(arena, inside) {
            return Ok(());
        }
        let node = self.reify(Word::Axiom, link)?;
        self.write_notes(arena, &Holder::Node(node), inside)
    }
}
