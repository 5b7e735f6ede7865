//! The acts in front of a token.

ghost use Rattle.std.specs.Prelude.{◌≡◌, ◌↔◌, [], ◌∷◌, IfSome, IsTrue};
ghost use Rattle.owl_tokens.specs.Tokens.{IsToken};
ghost use Rattle.fss_grammar.specs.Acts.{act_number};
ghost use Rattle.fss_grammar.specs.Ready.{IsReady};
ghost use Rattle.fss_grammar.specs.declared.acts.Act.{Act};
ghost use Rattle.fss_acts.specs.Assembling.{Answers, IsComing, May};
ghost use Rattle.fss_acts.specs.Turns.{AnswersAll, AnswersToken, AreReady};

use crate::assembler::Assembler;
use crate::tokens::iri_ahead;
use fss_grammar::Act;
use owl_atom::Iri;
use owl_reader::TokenFault;
use owl_tokens::Token;
use owl_tree::Tag;

impl Assembler {
    /// Does the acts in front of this token or of the end. That a prefix is
    /// unknown is told before all else.
    pub(crate) fn do_all(&mut self, acts: &[u8], next: &mut Option<Token>) -> Result<(), TokenFault>
        requires ready { May (AreReady acts.now next.old) self.old }
        requires token { IfSome next.old IsToken }
        ensures { AnswersToken acts.now next.old self.old result self.new }
    {
        if is_naming(acts) {
            self.name_prefix(next)
        } else {
            self.do_known(acts, next)
        }
    }

    /// The same where the token is not the name that a declaration gives.
    fn do_known(&mut self, acts: &[u8], next: &mut Option<Token>) -> Result<(), TokenFault>
        requires other { acts.now ≡ act_number Act.DeclareName ∷ [] → ⊥ }
        requires ready { May (AreReady acts.now next.old) self.old }
        requires token { IfSome next.old IsToken }
        ensures { AnswersToken acts.now next.old self.old result self.new }
    {
        let mut made = iri_ahead(self.alloc, &self.prefixes, next)?;
        self.perform_all(acts, next, &mut made)
    }

    /// Does acts in turn, of which the last may take what the token holds.
    fn perform_all(
        &mut self,
        acts: &[u8],
        next: &mut Option<Token>,
        made: &mut Option<Iri>,
    ) -> Result<(), TokenFault>
        requires ready { May (AreReady acts.now next.old) self.old }
        requires coming { IsComing self.old.prefixes next.old made.old }
        ensures { AnswersAll acts.now next.old self.old result self.new }
    {
        match acts {
            [] => Ok(()),
            [last] => self.perform_last(act_of(*last), next, made),
            [first, others @ ..] => {
                self.perform(act_of(*first), next, &mut None)?;
                self.perform_all(others, next, made)
            }
        }
    }

    /// Does the last act.
    fn perform_last(
        &mut self,
        act: Act,
        next: &mut Option<Token>,
        made: &mut Option<Iri>,
    ) -> Result<(), TokenFault>
        requires ready { May (IsReady act next.old) self.old }
        requires coming { IsComing self.old.prefixes next.old made.old }
        ensures { Answers act next.old self.old result self.new }
    {
        match act {
            Act::Begin(Tag::Literal) => self.keep_literal(next),
            _ => self.perform(act, next, made),
        }
    }
}

/// The act of this number.
fn act_of(number: u8) -> Act
    requires { (act : Act) × (act_number act ≡ number) }
    ensures { act_number result ≡ number }
{
    Act::numbered(number).unwrap()
}

/// Whether these are the acts before the name of a prefix that is declared.
fn is_naming(acts: &[u8]) -> bool
    ensures { IsTrue result ↔ (acts.now ≡ act_number Act.DeclareName ∷ []) }
{
    acts == [Act::DeclareName.number()].as_slice()
}
