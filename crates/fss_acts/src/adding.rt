//! Constructs that end, and items of the document.

ghost use Rattle.std.specs.Prelude.{None, Option};
ghost use Rattle.owl_tokens.specs.declared.token.Token.{Token};
ghost use Rattle.fss_grammar.specs.Ready.{IsReady, MayShut};
ghost use Rattle.fss_acts.specs.Assembling.{Answers, May};

use crate::assembler::Assembler;
use crate::refusals::of_making;
use fss_grammar::Act;
use owl_reader::TokenFault;

impl Assembler {
    /// The innermost construct ends.
    pub(crate) fn shut(&mut self) -> Result<(), TokenFault>
        requires { May MayShut self.old }
        ensures { (next : Option Token) → Answers Act.Shut next self.old result self.new }
    {
        self.maker.made();
        match self.maker.shut() {
            Ok(()) => Ok(()),
            Err(fault) => Err(of_making(fault)),
        }
    }

    /// The construct that ended last is an annotation of the ontology.
    pub(crate) fn add_annotation(&mut self) -> Result<(), TokenFault>
        requires { May (IsReady Act.AddAnnotation None) self.old }
        ensures { (next : Option Token) → Answers Act.AddAnnotation next self.old result self.new }
    {
        self.maker.made();
        match self.maker.add_annotation() {
            Ok(()) => Ok(()),
            Err(fault) => Err(of_making(fault)),
        }
    }

    /// The construct that ended last is an axiom.
    pub(crate) fn add_axiom(&mut self) -> Result<(), TokenFault>
        requires { May (IsReady Act.AddAxiom None) self.old }
        ensures { (next : Option Token) → Answers Act.AddAxiom next self.old result self.new }
    {
        self.maker.made();
        match self.maker.add_axiom() {
            Ok(()) => Ok(()),
            Err(fault) => Err(of_making(fault)),
        }
    }
}
