//! Syntaxes of documents.

ghost use Rattle.std.specs.Prelude.{◌≡◌, ◌≢◌, ℕ, List, Option, None, Some, IfErr, OnOk, true};
ghost use Rattle.grammar.specs.Grammars.{has_rule};
ghost use Rattle.owl_lexer.specs.Languages.{IsPrompt};
ghost use Rattle.owl_reader.specs.Following.{GoesOn, MayFollow, MayTake};
ghost use Rattle.owl_reader.specs.Steps.{Step, events_of, token_in};
ghost use Rattle.owl_reader.specs.declared.fault.TokenFault.{TokenFault};
ghost use Rattle.owl_reader.specs.declared.fault.TokenFault.TheVariants.{Memory};
ghost use Rattle.owl_reader.specs.Syntaxes.{Rules};

use crate::fault::TokenFault;
use crate::item::Mark;
use grammar::Table;
use owl_lexer::{Placed, TokenLanguage};

/// A syntax of documents: its tokens, its grammar, and what is made of a
/// document while its tokens come.
pub trait Syntax: Drop {
    type Language: TokenLanguage;

    type Grammar: Table;

    /// What a document is read in, which its bytes don't say: as its base IRI.
    ghost Context: { Type 0 };

    /// What the syntax tells of its tokens.
    ghost rules: { Context → Rules Self.Language.Token };

    /// This was made by these steps.
    ghost Made: { Context → List (Step Self.Language.Token) → Self → Type 0 };

    /// This was made by the steps of a whole document, and the acts behind the
    /// last token.
    ghost Whole: { Context → List (Step Self.Language.Token) → List ℕ → Self → Type 0 };

    /// The rule of documents.
    fn document() -> u16
        ensures { (context : Context) → result ≡ (rules context).document };

    /// The class of a token, by which the grammar tells it.
    fn class_of(token: &<Self::Language as TokenLanguage>::Token) -> u8
        ensures { (context : Context) → result ≡ (rules context).class token.now };

    /// What an act says of the token behind it.
    fn mark_of(act: u8) -> Mark
        ensures { (context : Context) → result ≡ (rules context).mark act };

    /// Whether a token begins an item.
    fn begins_item(token: &<Self::Language as TokenLanguage>::Token) -> bool
        ensures { (context : Context) → result ≡ (rules context).begins (Some token.now) };

    /// Whether the end does, behind a whole item.
    fn end_begins_item() -> bool
        ensures { (context : Context) → result ≡ (rules context).begins None };

    /// The classes of tokens of which one may stand behind each whole item,
    /// where items begin at tokens.
    fn behind_items() -> &'static [u8]
        ensures { (context : Context) → result.now ≡ (rules context).behind };

    /// Does the acts that stand in front of this token or of the end, in turn.
    ///
    /// Refuses exactly where the rules of the syntax bar them, with the fault
    /// that they tell, and where memory runs out. After a refusal nothing is
    /// known of what was made.
    fn take(
        &mut self,
        acts: &[u8],
        next: Option<Placed<<Self::Language as TokenLanguage>::Token>>,
    ) -> Result<(), TokenFault>
        requires { (context : Context) × MayTake Self.Language.spells Self.Grammar.grammar
            (rules context) (Made context) self.old acts.now next }
        ensures takes { OnOk result ((context : Context) (steps : List (Step Self.Language.Token))
            → Made context steps self.old
            → MayFollow Self.Grammar.grammar
            (rules context) (events_of steps) acts.now (token_in next)
            → GoesOn (Made context) (Whole context) steps acts.now next self.new) }
        ensures free { OnOk result ((context : Context) (steps : List (Step Self.Language.Token))
            → Made context steps self.old
            → MayFollow Self.Grammar.grammar
            (rules context) (events_of steps) acts.now (token_in next)
            → (fault : TokenFault) → (rules context).Bars steps acts.now next fault → ⊥) }
        ensures barred { IfErr result (λ fault. fault ≢ Memory
            → (context : Context) (steps : List (Step Self.Language.Token))
            → Made context steps self.old
            → MayFollow Self.Grammar.grammar
            (rules context) (events_of steps) acts.now (token_in next)
            → (rules context).Bars steps acts.now next fault) };

    ghost has_document: { (context : Context)
        → has_rule Self.Grammar.grammar (rules context).document ≡ true };

    ghost is_prompt: { (context : Context)
        → IsPrompt Self.Language.automaton Self.Language.spells (rules context).long_quotes };
}
