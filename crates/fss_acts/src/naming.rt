//! The head of an ontology.

ghost use Rattle.fss_grammar.specs.Ready.{IsReady};
ghost use Rattle.fss_acts.specs.Assembling.{Answers, IsComing, May};

use crate::assembler::Assembler;
use crate::tokens::iri_behind;
use fss_grammar::Act;
use owl_atom::Iri;
use owl_reader::TokenFault;
use owl_tokens::Token;

impl Assembler {
    /// The IRI of the ontology comes.
    pub(crate) fn name_ontology(
        &mut self,
        next: &Option<Token>,
        made: &mut Option<Iri>,
    ) -> Result<(), TokenFault>
        requires may { May (IsReady Act.OntologyIri next.now) self.old }
        requires coming { IsComing self.old.prefixes next.now made.old }
        ensures { Answers Act.OntologyIri next.now self.old result self.new }
    {
        let iri = iri_behind(self.alloc, &self.prefixes, next, made)?;
        let name = iri.copy(self.alloc)?;
        self.maker.head(Some(iri), None);
        self.name = Some(name);
        Ok(())
    }

    /// The version IRI of the ontology comes.
    pub(crate) fn name_version(
        &mut self,
        next: &Option<Token>,
        made: &mut Option<Iri>,
    ) -> Result<(), TokenFault>
        requires may { May (IsReady Act.VersionIri next.now) self.old }
        requires coming { IsComing self.old.prefixes next.now made.old }
        ensures { Answers Act.VersionIri next.now self.old result self.new }
    {
        let version = iri_behind(self.alloc, &self.prefixes, next, made)?;
        let name = self.name.take();
        self.maker.head(name, Some(version));
        Ok(())
    }

    /// The IRI of an import comes.
    pub(crate) fn import(
        &mut self,
        next: &Option<Token>,
        made: &mut Option<Iri>,
    ) -> Result<(), TokenFault>
        requires may { May (IsReady Act.ImportIri next.now) self.old }
        requires coming { IsComing self.old.prefixes next.now made.old }
        ensures { Answers Act.ImportIri next.now self.old result self.new }
    {
        let iri = iri_behind(self.alloc, &self.prefixes, next, made)?;
        self.maker.import(iri)?;
        Ok(())
    }
}
