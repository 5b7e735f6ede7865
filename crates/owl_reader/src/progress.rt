//! What was made of tokens.

ghost use Rattle.std.specs.Prelude.{◌≡◌, ◌≢◌, ◌∷◌, ◌++◌, [], List, Option, IfErr, IfOk, OnOk, None, Some};
ghost use Rattle.owl_lexer.specs.Languages.{AreSpelled};
ghost use Rattle.owl_reader.specs.Defects.{IsRefused};
ghost use Rattle.owl_reader.specs.Faults.{parse_refusal};
ghost use Rattle.owl_reader.specs.Items.{BeginsItem};
ghost use Rattle.owl_reader.specs.Standing.{CanStand, Ends, IsRefusedAmong, Stands, StandsWith};
ghost use Rattle.owl_reader.specs.Steps.{Step};
ghost use Rattle.owl_reader.specs.declared.fault.ReadFault.TheVariants.{Memory};

use crate::fault::{ReadFault, Reason};
use crate::item::{Item, ends_item, item_start, resumes_item};
use crate::syntax::Syntax;
use grammar::{ParseFault, Parser};
use owl_lexer::{Placed, TokenLanguage};
use std::alloc::{AllocError, Global};

/// What a parser and a syntax made of the tokens so far, and the last item.
#[derive(Drop)]
pub struct Progress<S: Syntax> {
    pub parser: Parser<S::Grammar>,
    pub syntax: S,
    pub last: Option<Item>,
    /// The acts in front of the token that was taken last.
    pub acts: Vec<u8>,
}

impl<S: Syntax> Progress<S> {
    /// Whether a token, or the end, which may begin an item or not, begins one if
    /// no document goes on with it.
    fn is_anew(&self, alloc: Global, begins: bool) -> Result<bool, AllocError>
        ensures { IfOk result (λ anew. (context : S.Context) (steps : List (Step S.Language.Token))
            → Stands S.Grammar.grammar (S.rules context) (S.Made context)
            self.now.parser self.now.syntax self.now.last steps
            → (next : Option S.Language.Token) → begins ≡ (S.rules context).begins next
            → BeginsItem S.Grammar.grammar (S.rules context) steps next anew) }
    {
        if !begins {
            return Ok(false);
        }
        self.parser.takes_one_of(alloc, S::behind_items())
    }

    /// The refusal of what no document goes on with.
    fn refusal_of(&self, fault: ParseFault, begins: bool, at: u64) -> ReadFault
        ensures { result ≡ parse_refusal fault begins self.now.last at }
    {
        match fault {
            ParseFault::Unexpected => ReadFault::Refused {
                item_at: item_start(begins, false, self.last, at),
                at,
                reason: Reason::NotHere,
            },
            ParseFault::Memory => ReadFault::Memory,
        }
    }

    /// Takes the next token.
    fn take(
        &mut self,
        alloc: Global,
        placed: Placed<<S::Language as TokenLanguage>::Token>,
    ) -> Result<(), ReadFault>
        requires stands { (context : S.Context) × CanStand S.Grammar.grammar (S.rules context)
            (S.Made context)
            self.old.parser self.old.syntax self.old.last }
        requires spelled { AreSpelled S.Language.spells (placed ∷ []) }
        ensures takes { OnOk result ((context : S.Context) (steps : List (Step S.Language.Token))
            → Stands S.Grammar.grammar (S.rules context) (S.Made context)
            self.old.parser self.old.syntax self.old.last steps
            → StandsWith S.Grammar.grammar (S.rules context) (S.Made context)
            self.new.parser self.new.syntax self.new.last steps (placed ∷ [])) }
        ensures refuses { IfErr result (λ fault. fault ≢ Memory
            → (context : S.Context) (steps : List (Step S.Language.Token))
            → Stands S.Grammar.grammar (S.rules context) (S.Made context)
            self.old.parser self.old.syntax self.old.last steps
            → IsRefused S.Grammar.grammar (S.rules context) steps placed.at (Some placed) fault) }
    {
        let at = placed.at;
        let begins = S::begins_item(&placed.token);
        let anew = self.is_anew(alloc, begins)?;
        self.acts.clear();
        if let Err(fault) = self.parser.feed(S::class_of(&placed.token), &mut self.acts) {
            return Err(self.refusal_of(fault, anew, at));
        }
        let start = item_start(begins, resumes_item::<S>(&self.acts), self.last, at);
        let is_whole = ends_item::<S>(&self.acts);
        if let Err(fault) = self.syntax.take(&self.acts, Some(placed)) {
            return Err(fault.at(start, at));
        }
        self.last = Some(Item {
            at: start,
            is_whole,
        });
        Ok(())
    }

    /// Takes tokens in turn.
    pub fn take_all(
        &mut self,
        alloc: Global,
        tokens: Vec<Placed<<S::Language as TokenLanguage>::Token>>,
    ) -> Result<(), ReadFault>
        requires stands { (context : S.Context) × CanStand S.Grammar.grammar (S.rules context)
            (S.Made context)
            self.old.parser self.old.syntax self.old.last }
        requires spelled { AreSpelled S.Language.spells tokens.items }
        ensures takes { OnOk result ((context : S.Context) (steps : List (Step S.Language.Token))
            → Stands S.Grammar.grammar (S.rules context) (S.Made context)
            self.old.parser self.old.syntax self.old.last steps
            → StandsWith S.Grammar.grammar (S.rules context) (S.Made context)
            self.new.parser self.new.syntax self.new.last steps tokens.items) }
        ensures refuses { IfErr result (λ fault. fault ≢ Memory
            → (context : S.Context) (steps : List (Step S.Language.Token))
            → Stands S.Grammar.grammar (S.rules context) (S.Made context)
            self.old.parser self.old.syntax self.old.last steps
            → IsRefusedAmong S.Grammar.grammar (S.rules context) steps tokens.items fault) }
    {
        for placed in tokens {
            self.take(alloc, placed)?;
        }
        Ok(())
    }

    /// Takes the end, at this byte.
    pub fn end(&mut self, alloc: Global, at: u64) -> Result<(), ReadFault>
        requires stands { (context : S.Context) × CanStand S.Grammar.grammar (S.rules context)
            (S.Made context)
            self.old.parser self.old.syntax self.old.last }
        ensures ends { OnOk result ((context : S.Context) (steps : List (Step S.Language.Token))
            → Stands S.Grammar.grammar (S.rules context) (S.Made context)
            self.old.parser self.old.syntax self.old.last steps
            → Ends S.Grammar.grammar (S.rules context) (S.Whole context) self.new.syntax steps) }
        ensures refuses { IfErr result (λ fault. fault ≢ Memory
            → (context : S.Context) (steps : List (Step S.Language.Token))
            → Stands S.Grammar.grammar (S.rules context) (S.Made context)
            self.old.parser self.old.syntax self.old.last steps
            → IsRefused S.Grammar.grammar (S.rules context) steps at None fault) }
    {
        let begins = S::end_begins_item();
        let anew = self.is_anew(alloc, begins)?;
        self.acts.clear();
        if let Err(fault) = self.parser.finish(&mut self.acts) {
            return Err(self.refusal_of(fault, anew, at));
        }
        let start = item_start(begins, resumes_item::<S>(&self.acts), self.last, at);
        match self.syntax.take(&self.acts, None) {
            Ok(()) => Ok(()),
            Err(fault) => Err(fault.at(start, at)),
        }
    }
}
