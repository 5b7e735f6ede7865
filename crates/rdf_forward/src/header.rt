//! The triples of an ontology's header.

ghost use Rattle.std.specs.Prelude.{◌≡◌, OnOk};
ghost use Rattle.owl_doc.specs.Documents.{ontology_of};
ghost use Rattle.rdf_graph.specs.declared.term.Term.TheVariants as held;
ghost use Rattle.rdf_meaning.specs.declared.word.Word.TheVariants as word_of;
ghost use Rattle.rdf_meaning.specs.Nodes.{type_iri};
ghost use Rattle.rdf_meaning.specs.Words.{word_iri};
ghost use Rattle.rdf_mapping.specs.Graphs.{import_triples, version_triples};
ghost use Rattle.rdf_forward.specs.HeaderWalks.{WritesBelow, WritesHeader};
ghost use Rattle.rdf_forward.specs.Walks.{Writes, WritesLink, holder_term, names};

use crate::ends::{End, Holder, Name};
use crate::writer::Writer;
use owl_characters::NoMemory;
use owl_doc::Doc;
use rdf_meaning::Word;
use rdf_terms::Iri;

impl Writer {
    /// Adds the triples of the header, for which no node has a number yet.
    pub fn write_header(&mut self, doc: &Doc) -> Result<(), NoMemory>
        requires { self.old.next ≡ 0 }
        ensures { OnOk result (WritesHeader self.old self.new (ontology_of doc.now)) }
    {
        match &doc.head().iri {
            Some(iri) => self.write_ontology(doc, &Holder::Named(iri)),
            None => {
                let node = self.fresh()?;
                self.write_ontology(doc, &Holder::Node(node))
            }
        }
    }

    /// Adds the triples of the ontology that the holder is.
    fn write_ontology(&mut self, doc: &Doc, holder: &Holder) -> Result<(), NoMemory>
        ensures { OnOk result (WritesBelow self.old self.new
            (holder_term (names self.old) holder.now) (ontology_of doc.now)) }
    {
        self.link_ontology(holder)?;
        self.write_version(holder, &doc.head().version)?;
        self.write_imports(holder, &doc.head().imports)?;
        self.write_notes(doc.arena(), holder, doc.notes())
    }

    /// Adds the triple that the holder is an ontology.
    fn link_ontology(&mut self, holder: &Holder) -> Result<(), NoMemory>
        ensures { OnOk result (WritesLink self.old self.new
            (holder_term (names self.old) holder.now) type_iri
            (held.Iri (word_iri word_of.Ontology))) }
    {
        let class = End::Named(Name::Word(Word::Ontology));
        self.link(holder, &Name::Type, &class)
    }

    /// Adds the triple of a word that leads from the holder to the IRI.
    fn link_iri(&mut self, holder: &Holder, word: Word, iri: &Iri) -> Result<(), NoMemory>
        ensures { OnOk result (WritesLink self.old self.new
            (holder_term (names self.old) holder.now) (word_iri word) (held.Iri iri.now)) }
    {
        let object = End::Named(Name::Given(iri));
        self.link(holder, &Name::Word(word), &object)
    }

    /// Adds the triple of the version, where there is one.
    fn write_version(&mut self, holder: &Holder, version: &Option<Iri>) -> Result<(), NoMemory>
        ensures { OnOk result (Writes self.old self.new 0
            (version_triples (holder_term (names self.old) holder.now) version.now)) }
    {
        match version {
            Some(iri) => self.link_iri(holder, Word::VersionIri, iri),
            None => Ok(()),
        }
    }

    /// Adds the triples of what is imported.
    fn write_imports(&mut self, holder: &Holder, imports: &[Iri]) -> Result<(), NoMemory>
        ensures { OnOk result (Writes self.old self.new 0
            (import_triples (holder_term (names self.old) holder.now) imports.now)) }
    {
        let mut left = imports;
        while let [iri, others @ ..] = left {
            self.link_iri(holder, Word::Imports, iri)?;
            left = others;
        }
        Ok(())
    }
}
