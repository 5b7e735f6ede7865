//! What tokens stand for.

ghost use Rattle.std.specs.Prelude.{◌≡◌, ◌≢◌, List, [], ℕ, IfErr, IfOk, IfSome, OnOk, None, Some};
ghost use Rattle.std.specs.Char.{is_ascii_digit};
ghost use Rattle.owl_characters.specs.Iri.{IsIri};
ghost use Rattle.owl_characters.specs.Names.{IsLabel, IsRunOf};
ghost use Rattle.owl_atom.specs.Prefixes.{expansion};
ghost use Rattle.owl_reader.specs.declared.fault.Reason.{Reason};
ghost use Rattle.owl_reader.specs.declared.fault.TokenFault.{TokenFault};
ghost use Rattle.owl_tokens.specs.Tokens.{IsToken};
ghost use Rattle.owl_tokens.specs.declared.token.Token.TheVariants as token;
ghost use Rattle.owl_tree.specs.declared.row.AtomSort.TheVariants as atom;
ghost use Rattle.fss_terms.specs.Terms.{iri_of_token};
ghost use Rattle.fss_grammar.specs.Ready.{ComesFor};
ghost use Rattle.fss_grammar.specs.Making.{Comes};
ghost use Rattle.fss_acts.specs.Assembling.{IsComing, IsUnknown, Stands};

use owl_atom::{ExpandFault, Iri, Label, LabelFault, Prefixes};
use owl_characters::{NoMemory, Text};
use owl_reader::{Reason, TokenFault};
use owl_tokens::Token;
use std::alloc::Global;

/// The IRI with these characters.
fn iri_of(alloc: Global, text: &Text) -> Result<Iri, NoMemory>
    requires { IsIri text.now }
    ensures { IfOk result (λ iri. iri ≡ text.now) }
{
    Iri::known(alloc, text.as_str())
}

/// The label with these characters.
pub fn label_of(alloc: Global, text: &Text) -> Result<Label, NoMemory>
    requires { IsLabel text.now }
    ensures { IfOk result (λ label. label ≡ text.now) }
{
    match Label::of(alloc, text.as_str()) {
        Ok(label) => Ok(label),
        Err(LabelFault::BadLabel) => unreachable!(),
        Err(LabelFault::Memory) => Err(NoMemory),
    }
}

/// The IRI that a name stands for, where its prefix is known.
fn expand(
    alloc: Global,
    prefixes: &Prefixes,
    name: &Text,
    local: &Text,
) -> Result<Option<Iri>, NoMemory>
    requires { IsToken (token.Name name.now local.now) }
    ensures { IfOk result (λ iri. iri ≡ expansion prefixes.now name.now local.now) }
{
    match prefixes.expand(alloc, name.as_str(), local.as_str()) {
        Ok(iri) => Ok(Some(iri)),
        Err(ExpandFault::UnknownPrefix) => Ok(None),
        Err(ExpandFault::Memory) => Err(NoMemory),
    }
}

/// The IRI that a token stands for, if it stands for one (Structural
/// Specification, section 2.4).
fn iri_of_token(alloc: Global, prefixes: &Prefixes, token: &Token) -> Result<Option<Iri>, NoMemory>
    requires { IsToken token.now }
    ensures { IfOk result (λ iri. iri ≡ iri_of_token prefixes.now token.now) }
{
    match token {
        Token::Iri(iri) => Ok(Some(iri_of(alloc, iri)?)),
        Token::Name(name, local) => expand(alloc, prefixes, name, local),
        _ => Ok(None),
    }
}

/// The IRI that the token which comes stands for, which may have been made
/// before, and is taken then.
pub fn iri_behind(
    alloc: Global,
    prefixes: &Prefixes,
    next: &Option<Token>,
    made: &mut Option<Iri>,
) -> Result<Iri, NoMemory>
    requires coming { IsComing prefixes.now next.now made.old }
    requires stands { Stands prefixes.now next.now }
    ensures comes { IfOk result (Comes prefixes.now next.now) }
    ensures iri { IfOk result IsIri }
{
    let iri = match made.take() {
        Some(iri) => iri,
        None => {
            let token = next.as_ref().unwrap();
            iri_of_token(alloc, prefixes, token)?.unwrap()
        }
    };
    // What was made an IRI is one.
    iri.text();
    Ok(iri)
}

/// The IRI that the token which comes stands for, if it stands for one. It is
/// made once for all acts.
pub fn iri_ahead(
    alloc: Global,
    prefixes: &Prefixes,
    next: &Option<Token>,
) -> Result<Option<Iri>, TokenFault>
    requires { IfSome next.now IsToken }
    ensures coming { IfOk result (IsComing prefixes.now next.now) }
    ensures unknown { IfErr result (λ f. f ≢ TokenFault.Memory
        → (f ≡ TokenFault.Defect Reason.UnknownPrefix) × IsUnknown prefixes.now next.now) }
{
    match next {
        Some(Token::Name(name, local)) => match expand(alloc, prefixes, name, local)? {
            Some(iri) => Ok(Some(iri)),
            None => Err(TokenFault::Defect(Reason::UnknownPrefix)),
        },
        Some(Token::Iri(iri)) => Ok(Some(iri_of(alloc, iri)?)),
        _ => Ok(None),
    }
}

/// The label that comes.
pub fn label_in(next: &Option<Token>) -> &Text
    requires { ComesFor atom.Label next.now }
    ensures { next.now ≡ Some (token.Blank result.now) }
{
    match next {
        Some(Token::Blank(label)) => label,
        _ => unreachable!(),
    }
}

/// The digits that come.
pub fn digits_in(next: &Option<Token>) -> &Text
    requires { ComesFor atom.Number next.now }
    ensures { next.now ≡ Some (token.Int result.now) }
{
    match next {
        Some(Token::Int(digits)) => digits,
        _ => unreachable!(),
    }
}

/// The string that comes, after which no token does.
pub fn take_form(next: &mut Option<Token>) -> Text
    requires { ComesFor atom.Literal next.old }
    ensures { next.old ≡ Some (token.Str result) }
{
    match next.take() {
        Some(Token::Str(form)) => form,
        _ => unreachable!(),
    }
}

/// The string that comes.
pub fn form_in(next: &Option<Token>) -> &Text
    requires { ComesFor atom.Literal next.now }
    ensures { next.now ≡ Some (token.Str result.now) }
{
    match next {
        Some(Token::Str(form)) => form,
        _ => unreachable!(),
    }
}

/// The language tag that comes.
pub fn language_in(next: &Option<Token>) -> &Text
    requires { (language : List ℕ) × (next.now ≡ Some (token.At language)) }
    ensures { next.now ≡ Some (token.At result.now) }
{
    match next {
        Some(Token::At(language)) => language,
        _ => unreachable!(),
    }
}

/// The name of a prefix that comes.
pub fn prefix_in(next: &Option<Token>) -> &Text
    requires { (name : List ℕ) × (next.now ≡ Some (token.Name name [])) }
    ensures { next.now ≡ Some (token.Name result.now []) }
{
    match next {
        Some(Token::Name(name, _)) => name,
        _ => unreachable!(),
    }
}
