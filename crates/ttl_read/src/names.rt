//! The base IRI and the prefixes.

ghost use Rattle.std.specs.Prelude.{◌≡◌, IfSome, None};
ghost use Rattle.std.specs.Str.{chars};
ghost use Rattle.std.specs.Option.{option_map};
ghost use Rattle.owl_characters.specs.Names.{IsPrefixName};
ghost use Rattle.owl_characters.specs.Iri.{AllAre, is_iri_character};
ghost use Rattle.ttl_tokens.specs.TokenForms.{IsFormed};
ghost use Rattle.ttl_grammar.specs.States as stated;
ghost use Rattle.ttl_grammar.specs.States.{against, iri_of, known_iri, namespace_in, prefix_in, prefixed_iri, reference_iri, start, with_base, with_namespace, with_prefix};
ghost use Rattle.owl_reader.specs.Computing.{Computes, TurnsTo};
ghost use Rattle.ttl_read.specs.NameTables.{AreNames};

use crate::refusals::{of_expanding, of_resolving};
use iri_references::{Base, absolute, are_iri_characters};
use owl_atom::{Iri, Prefixes};
use owl_characters::Text;
use owl_reader::{Reason, TokenFault};
use std::alloc::Global;
use std::marker::Model;
use ttl_tokens::Token;

/// What a parser knows of IRIs (RDF 1.1 Turtle, section 7.1): the base IRI, the
/// prefixes, and the prefix that is being declared.
#[derive(Debug, Drop)]
pub struct Names {
    base: Option<Base>,
    prefixes: Prefixes,
    declaring: Text,
}

impl Model for Names {
    ghost use Rattle.owl_characters.specs.Names.{IsPrefixName};
    ghost use Rattle.ttl_read.specs.NameTables.{NameTable};

    ghost Value = { NameTable };

    ghost view = { λ n. record { base = n.base; prefixes = n.prefixes; declaring = n.declaring } };

    ghost invariant = { λ n. IsPrefixName n.declaring };
}

impl Names {
    /// This base IRI, if there is one, and no prefixes. Takes no memory.
    pub fn new(alloc: Global, base: Option<Base>) -> Names
        ensures { AreNames result (start base).names }
    {
        Names {
            base,
            prefixes: Prefixes::empty(alloc),
            declaring: Text::new(alloc),
        }
    }

    /// The prefixes.
    pub fn into_prefixes(self) -> Prefixes
        ensures { result ≡ self.prefixes }
    {
        self.prefixes
    }

    /// The IRI of a token.
    pub fn iri_of(&self, alloc: Global, next: &Option<Token>) -> Result<Iri, TokenFault>
        requires { IfSome next.now IsFormed }
        ensures { (names : stated.Names) → AreNames self.now names
            → Computes result (iri_of names next.now) }
    {
        match next {
            Some(Token::Iri(reference)) => self.reference_iri(alloc, reference),
            Some(Token::Name(prefix, local)) => self.prefixed_iri(alloc, prefix, local),
            _ => Err(TokenFault::Defect(Reason::NotHere)),
        }
    }

    /// The IRI of a reference, which is nothing where one of its escapes is of
    /// no character.
    fn reference_iri(&self, alloc: Global, reference: &Option<Text>) -> Result<Iri, TokenFault>
        ensures { (names : stated.Names) → AreNames self.now names
            → Computes result (reference_iri names reference.now) }
    {
        match reference {
            Some(reference) => known_iri(alloc, &self.base, reference.as_str()),
            None => Err(TokenFault::Defect(Reason::BadIri)),
        }
    }

    /// The IRI of a prefix with a local part behind it.
    fn prefixed_iri(&self, alloc: Global, prefix: &Text, local: &Text) -> Result<Iri, TokenFault>
        requires { AllAre is_iri_character local.now }
        ensures { (names : stated.Names) → AreNames self.now names →
            Computes result (prefixed_iri (namespace_in names.namespaces prefix.now) local.now) }
    {
        match self.prefixes.expand(alloc, prefix.as_str(), local.as_str()) {
            Ok(iri) => Ok(iri),
            Err(fault) => Err(of_expanding(fault)),
        }
    }

    /// Keeps the prefix that is being declared.
    pub fn name_prefix(&mut self, alloc: Global, next: &Option<Token>) -> Result<(), TokenFault>
        requires { IfSome next.now IsFormed }
        ensures { (names : stated.Names) → AreNames self.old names →
            TurnsTo AreNames result self.new (with_prefix names (prefix_in next.now)) }
    {
        match prefix_in(next) {
            Some(prefix) => {
                self.declaring = Text::of(alloc, prefix.as_str())?;
                Ok(())
            }
            None => Err(TokenFault::Defect(Reason::NotHere)),
        }
    }

    /// Declares the IRI of the prefix.
    pub fn declare_prefix(&mut self, alloc: Global, next: &Option<Token>) -> Result<(), TokenFault>
        requires { IfSome next.now IsFormed }
        ensures { (names : stated.Names) → AreNames self.old names →
            TurnsTo AreNames result self.new (with_namespace names (iri_of names next.now)) }
    {
        let iri = self.iri_of(alloc, next)?;
        self.prefixes.set(self.declaring.as_str(), iri)?;
        Ok(())
    }

    /// Declares the base IRI.
    pub fn declare_base(&mut self, alloc: Global, next: &Option<Token>) -> Result<(), TokenFault>
        requires { IfSome next.now IsFormed }
        ensures { (names : stated.Names) → AreNames self.old names →
            TurnsTo AreNames result self.new (with_base names (iri_of names next.now)) }
    {
        if let Some(reference) = reference_in(next) {
            return self.move_base(alloc, reference);
        }
        let iri = self.iri_of(alloc, next)?;
        self.base = Some(Base::of(alloc, &iri)?);
        Ok(())
    }

    /// Declares what a reference stands for as the base IRI.
    fn move_base(&mut self, alloc: Global, reference: &str) -> Result<(), TokenFault>
        ensures { (names : stated.Names) → AreNames self.old names →
            TurnsTo AreNames result self.new
            (with_base names (known_iri names.base (chars reference.now))) }
    {
        let base = moved(alloc, self.base.take(), reference)?;
        self.base = Some(base);
        Ok(())
    }
}

/// The reference in a token.
fn reference_in(next: &Option<Token>) -> Option<&str>
    ensures { IfSome result (λ reference. (names : stated.Names)
        → iri_of names next.now ≡ known_iri names.base (chars reference.now)) }
{
    match next {
        Some(Token::Iri(Some(reference))) => Some(reference.as_str()),
        _ => None,
    }
}

/// The base that a reference stands for.
fn moved(alloc: Global, base: Option<Base>, reference: &str) -> Result<Base, TokenFault>
    ensures { Computes result (known_iri base (chars reference.now)) }
{
    if are_iri_characters(reference) {
        moved_against(alloc, base, reference)
    } else {
        Err(TokenFault::Defect(Reason::BadIri))
    }
}

/// The base that a reference of characters that an IRI may have stands for.
fn moved_against(alloc: Global, base: Option<Base>, reference: &str) -> Result<Base, TokenFault>
    requires { AllAre is_iri_character (chars reference.now) }
    ensures { Computes result (against base (chars reference.now)) }
{
    match base {
        Some(base) => base.moved(alloc, reference).map_err(of_resolving),
        None => {
            let iri = alone(alloc, reference)?;
            Ok(Base::of(alloc, &iri)?)
        }
    }
}

/// The prefix of a name.
fn prefix_in(next: &Option<Token>) -> Option<&Text>
    requires { IfSome next.now IsFormed }
    ensures prefix { option_map (λ prefix. prefix.now) result ≡ prefix_in next.now }
    ensures formed { IfSome result (λ prefix. IsPrefixName prefix.now) }
{
    match next {
        Some(Token::Name(prefix, _)) => Some(prefix),
        _ => None,
    }
}

/// The IRI of a reference.
fn known_iri(alloc: Global, base: &Option<Base>, reference: &str) -> Result<Iri, TokenFault>
    ensures { Computes result (known_iri base.now (chars reference.now)) }
{
    if are_iri_characters(reference) {
        against(alloc, base, reference)
    } else {
        Err(TokenFault::Defect(Reason::BadIri))
    }
}

/// The IRI of a reference of characters that an IRI may have.
fn against(alloc: Global, base: &Option<Base>, reference: &str) -> Result<Iri, TokenFault>
    requires { AllAre is_iri_character (chars reference.now) }
    ensures { Computes result (against base.now (chars reference.now)) }
{
    match base {
        Some(base) => base.resolve(alloc, reference).map_err(of_resolving),
        None => alone(alloc, reference),
    }
}

/// The IRI of a reference that stands alone.
fn alone(alloc: Global, reference: &str) -> Result<Iri, TokenFault>
    requires { AllAre is_iri_character (chars reference.now) }
    ensures { Computes result (against None (chars reference.now)) }
{
    match absolute(alloc, reference)? {
        Some(iri) => Ok(iri),
        None => Err(TokenFault::Defect(Reason::RelativeWithoutBase)),
    }
}
