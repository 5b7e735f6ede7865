//! Declarations of prefixes.

ghost use Rattle.std.specs.Prelude.{IfSome};
ghost use Rattle.owl_tokens.specs.Tokens.{IsToken};
ghost use Rattle.fss_grammar.specs.Ready.{IsReady};
ghost use Rattle.fss_acts.specs.Assembling.{Answers, IsComing, May};

use crate::assembler::Assembler;
use crate::kept::{Kept, take_prefix};
use crate::refusals::of_declaring;
use crate::tokens::{iri_behind, prefix_in};
use fss_grammar::Act;
use owl_atom::Iri;
use owl_characters::Text;
use owl_reader::{Reason, TokenFault};
use owl_tokens::Token;

impl Assembler {
    /// The name of a prefix comes.
    pub(crate) fn name_prefix(&mut self, next: &Option<Token>) -> Result<(), TokenFault>
        requires may { May (IsReady Act.DeclareName next.now) self.old }
        requires token { IfSome next.now IsToken }
        ensures { Answers Act.DeclareName next.now self.old result self.new }
    {
        let name = prefix_in(next);
        if self.prefixes.is_declared(name.as_str()) {
            return Err(TokenFault::Defect(Reason::PrefixTwice));
        }
        let name = Text::of(self.alloc, name.as_str())?;
        self.kept = Kept::Prefix(name);
        Ok(())
    }

    /// The IRI of the prefix comes.
    pub(crate) fn declare(
        &mut self,
        next: &Option<Token>,
        made: &mut Option<Iri>,
    ) -> Result<(), TokenFault>
        requires may { May (IsReady Act.DeclareIri next.now) self.old }
        requires coming { IsComing self.old.prefixes next.now made.old }
        ensures { Answers Act.DeclareIri next.now self.old result self.new }
    {
        let iri = iri_behind(self.alloc, &self.prefixes, next, made)?;
        let name = take_prefix(&mut self.kept);
        match self.prefixes.declare(name.as_str(), iri) {
            Ok(()) => {
                // What is looked up in a table tells that it is one.
                self.prefixes.len();
                Ok(())
            }
            Err(fault) => Err(of_declaring(fault)),
        }
    }
}
