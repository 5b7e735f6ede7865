//! An act.

ghost use Rattle.std.specs.Prelude.{Option};
ghost use Rattle.owl_tokens.specs.declared.token.Token.{Token};
ghost use Rattle.fss_grammar.specs.Ready.{IsReady};
ghost use Rattle.fss_acts.specs.Assembling.{Answers, IsComing, May};

use crate::assembler::Assembler;
use fss_grammar::Act;
use owl_atom::Iri;
use owl_reader::TokenFault;
use owl_tokens::Token;
use owl_tree::Tag;

impl Assembler {
    /// Does an act in front of the token that comes, of which an IRI may have
    /// been made before.
    pub(crate) fn perform(
        &mut self,
        act: Act,
        next: &Option<Token>,
        made: &mut Option<Iri>,
    ) -> Result<(), TokenFault>
        requires may { May (IsReady act next.now) self.old }
        requires coming { IsComing self.old.prefixes next.now made.old }
        ensures { Answers act next.now self.old result self.new }
    {
        match act {
            Act::Begin(tag) => self.begin(tag, next, made),
            Act::Shut => self.shut(),
            Act::Plain => self.plain(),
            Act::Tagged => self.tagged(next),
            Act::Typed => self.typed(next, made),
            Act::Hold => self.hold(next, made),
            Act::HeldProperty => self.held(Tag::DataProperty),
            Act::HeldDatatype => self.held(Tag::Datatype),
            Act::DeclareName => self.name_prefix(next),
            Act::DeclareIri => self.declare(next, made),
            Act::OntologyIri => self.name_ontology(next, made),
            Act::VersionIri => self.name_version(next, made),
            Act::ImportIri => self.import(next, made),
            Act::AddAnnotation => self.add_annotation(),
            Act::AddAxiom => self.add_axiom(),
            Act::EndItem => Ok(()),
        }
    }
}
