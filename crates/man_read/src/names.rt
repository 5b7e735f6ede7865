//! The prefixes.

ghost use Rattle.std.specs.Prelude.{◌≡◌, ℕ, List, [], IfOk, IfSome, IsNone, Some};
ghost use Rattle.std.specs.Option.{option_map};
ghost use Rattle.owl_characters.specs.Names.{IsPrefixName};
ghost use Rattle.owl_characters.specs.Iri.{AllAre, is_iri_character};
ghost use Rattle.owl_atom.specs.Prefixes.{expansion};
ghost use Rattle.std.specs.Str.{chars};
ghost use Rattle.owl_tokens.specs.declared.token.Token.TheVariants as token;
ghost use Rattle.owl_reader.specs.Computing.{Computes, TurnsTo};
ghost use Rattle.owl_reader.specs.Steps.{token_in};
ghost use Rattle.man_grammar.specs.States as stated;
ghost use Rattle.man_grammar.specs.States.{iri_in, known_iri, name_declared, nothing_here, prefix_declared, start};
ghost use Rattle.man_read.specs.Forms.{ComesFormed};
ghost use Rattle.man_read.specs.NameTables.{AreNames};

use crate::refusals::{of_declaring, of_expanding};
use owl_atom::{Iri, Prefixes};
use owl_characters::{NoMemory, Text};
use owl_lexer::Placed;
use owl_reader::{Reason, TokenFault};
use owl_tokens::Token;
use std::alloc::Global;
use std::marker::Model;

/// The prefixes (Manchester Syntax, section 2.1), and the name that is being
/// declared.
#[derive(Debug, Drop)]
pub struct Names {
    prefixes: Prefixes,
    declaring: Text,
}

impl Model for Names {
    ghost use Rattle.owl_characters.specs.Names.{IsPrefixName};
    ghost use Rattle.man_read.specs.NameTables.{NameTable};

    ghost Value = { NameTable };

    ghost view = { λ n. record { prefixes = n.prefixes; declaring = n.declaring } };

    ghost invariant = { λ n. IsPrefixName n.declaring };
}

impl Names {
    /// The four prefixes that are there beforehand.
    pub fn new(alloc: Global) -> Result<Names, NoMemory>
        ensures { IfOk result (λ names. AreNames names start.names) }
    {
        Ok(Names {
            prefixes: Prefixes::fixed(alloc)?,
            declaring: Text::new(alloc),
        })
    }

    /// The prefixes.
    pub fn into_prefixes(self) -> Prefixes
        ensures { result ≡ self.prefixes }
    {
        self.prefixes
    }

    /// The IRI of a token.
    pub fn iri_in(&self, alloc: Global, next: &Option<Placed<Token>>) -> Result<Iri, TokenFault>
        requires { ComesFormed next.now }
        ensures { (names : stated.Names) → AreNames self.now names
            → Computes result (iri_in names (token_in next.now)) }
    {
        match next {
            Some(
                Placed {
                    token: Token::Iri(iri),
                    ..
                },
            ) => Ok(Iri::known(alloc, iri.as_str())?),
            Some(
                Placed {
                    token: Token::Name(prefix, local),
                    ..
                },
            ) => self.expand(alloc, prefix.as_str(), local),
            Some(
                Placed {
                    token: Token::Word(word),
                    ..
                },
            ) => self.expand_word(alloc, word),
            _ => Err(TokenFault::Defect(Reason::NotHere)),
        }
    }

    /// The IRI of a prefix with a local part behind it.
    fn expand(&self, alloc: Global, prefix: &str, local: &Text) -> Result<Iri, TokenFault>
        requires { AllAre is_iri_character local.now }
        ensures { (names : stated.Names) → AreNames self.now names →
            Computes result (known_iri (expansion names.prefixes (chars prefix.now) local.now)) }
    {
        match self.prefixes.expand(alloc, prefix, local.as_str()) {
            Ok(iri) => Ok(iri),
            Err(fault) => Err(of_expanding(fault)),
        }
    }

    /// The IRI of a word, which stands behind the empty prefix.
    fn expand_word(&self, alloc: Global, word: &Text) -> Result<Iri, TokenFault>
        requires { AllAre is_iri_character word.now }
        ensures { (names : stated.Names) → AreNames self.now names →
            Computes result (known_iri (expansion names.prefixes [] word.now)) }
    {
        self.expand(alloc, "", word)
    }

    /// Keeps the name that is being declared.
    pub fn name_prefix(
        &mut self,
        alloc: Global,
        next: &Option<Placed<Token>>,
    ) -> Result<(), TokenFault>
        requires { ComesFormed next.now }
        ensures { (names : stated.Names) → AreNames self.old names →
            TurnsTo AreNames result self.new (name_declared names (token_in next.now)) }
    {
        match prefix_in(next) {
            Some(name) => self.keep_name(alloc, name),
            None => Err(TokenFault::Defect(Reason::NotHere)),
        }
    }

    /// Keeps a name that was not declared before.
    fn keep_name(&mut self, alloc: Global, name: &Text) -> Result<(), TokenFault>
        requires { IsPrefixName name.now }
        ensures { (names : stated.Names) (local : List ℕ) → AreNames self.old names →
            TurnsTo AreNames result self.new
            (name_declared names (Some (token.Name name.now local))) }
    {
        if self.prefixes.is_declared(name.as_str()) {
            return Err(TokenFault::Defect(Reason::PrefixTwice));
        }
        self.declaring = Text::of(alloc, name.as_str())?;
        Ok(())
    }

    /// Declares the IRI of the prefix.
    pub fn declare_prefix(
        &mut self,
        alloc: Global,
        next: &Option<Placed<Token>>,
    ) -> Result<(), TokenFault>
        requires { ComesFormed next.now }
        ensures { (names : stated.Names) → AreNames self.old names →
            TurnsTo AreNames result self.new (prefix_declared names (token_in next.now)) }
    {
        match next {
            Some(
                Placed {
                    token: Token::Iri(iri),
                    ..
                },
            ) => self.declare(Iri::known(alloc, iri.as_str())?),
            _ => Err(TokenFault::Defect(Reason::NotHere)),
        }
    }

    /// Declares an IRI of the prefix.
    fn declare(&mut self, iri: Iri) -> Result<(), TokenFault>
        ensures { (names : stated.Names) → AreNames self.old names →
            TurnsTo AreNames result self.new (prefix_declared names (Some (token.Iri iri))) }
    {
        if let Err(fault) = self.prefixes.declare(self.declaring.as_str(), iri) {
            return Err(of_declaring(fault));
        }
        Ok(())
    }
}

/// The prefix of a name.
fn prefix_in(next: &Option<Placed<Token>>) -> Option<&Text>
    requires { ComesFormed next.now }
    ensures some { IfSome result (λ prefix. (local : List ℕ) × (token_in next.now
        ≡ Some (token.Name prefix.now local)) × IsPrefixName prefix.now) }
    ensures none { IsNone result → (names : stated.Names)
        → name_declared names (token_in next.now) ≡ nothing_here }
{
    match next {
        Some(
            Placed {
                token: Token::Name(prefix, _),
                ..
            },
        ) => Some(prefix),
        _ => None,
    }
}
