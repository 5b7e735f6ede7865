//! Atoms of tokens.

ghost use Rattle.std.specs.Prelude.{◌≡◌, IfSome, IsNone, Ok, Some, true};
ghost use Rattle.std.specs.Char.{is_ascii_digit};
ghost use Rattle.std.specs.List.{list_all};
ghost use Rattle.owl_tokens.specs.declared.token.Token.TheVariants as token;
ghost use Rattle.std.specs.Str.{chars};
ghost use Rattle.lexical_values.specs.TypedLiterals.{typed_literal};
ghost use Rattle.man_grammar.specs.States as stated;
ghost use Rattle.man_grammar.specs.States.{and_then, form_in, iri_in, known_literal, label_in, nothing_here, number_in, shorthand_in, tagged_in, type_in, typed_in, with_iri, with_literal};
ghost use Rattle.owl_characters.specs.Iri.{AllAre, is_iri_character};
ghost use Rattle.owl_reader.specs.Computing.{Computes};
ghost use Rattle.owl_reader.specs.Steps.{token_in};
ghost use Rattle.owl_tokens.specs.ManchesterSpellings.{IsInteger};
ghost use Rattle.owl_tree.specs.declared.atom.Atom.TheVariants as atom;
ghost use Rattle.rdf_terms.specs.Literals.{of_datatype, string};
ghost use Rattle.rdf_terms.specs.Tables.{is_ascii_iri};
ghost use Rattle.rdf_terms.specs.Vocabulary.{xsd};
ghost use Rattle.man_read.specs.Forms.{ComesFormed};
ghost use Rattle.man_read.specs.NameTables.{AreNames};

use crate::names::Names;
use lexical_values::{number_of, plain_literal, tagged_literal, typed_literal};
use owl_characters::Text;
use owl_lexer::Placed;
use owl_reader::{Reason, TokenFault};
use owl_tokens::Token;
use owl_tree::Atom;
use rdf_terms::{Iri, Label, LabelFault, XSD, xsd};
use std::alloc::Global;

/// The byte of the token that comes, or 0.
pub fn place_in(next: &Option<Placed<Token>>) -> u64
    ensures { result ≡ stated.place_in next.now }
{
    match next {
        Some(placed) => placed.at,
        None => 0,
    }
}

/// The form of a string.
pub fn form_in(next: &Option<Placed<Token>>) -> Option<&Text>
    ensures some { IfSome result (λ form. form_in (token_in next.now) ≡ Ok form.now) }
    ensures none { IsNone result → form_in (token_in next.now) ≡ nothing_here }
{
    match next {
        Some(
            Placed {
                token: Token::Str(form),
                ..
            },
        ) => Some(form),
        _ => None,
    }
}

/// The IRI of a name.
pub fn name_atom(
    alloc: Global,
    names: &Names,
    next: &Option<Placed<Token>>,
) -> Result<Atom, TokenFault>
    requires { ComesFormed next.now }
    ensures { (known : stated.Names) → AreNames names.now known
        → Computes result (with_iri (iri_in known (token_in next.now))) }
{
    let iri = names.iri_in(alloc, next)?;
    Ok(Atom::Iri(iri))
}

/// The IRI of a datatype of XML Schema that is named by a word.
pub fn type_atom(alloc: Global, next: &Option<Placed<Token>>) -> Result<Atom, TokenFault>
    requires { ComesFormed next.now }
    ensures { Computes result (with_iri (type_in (token_in next.now))) }
{
    match next {
        Some(
            Placed {
                token: Token::Word(word),
                ..
            },
        ) => {
            let namespace = Iri::of_ascii(alloc, XSD)?;
            Ok(Atom::Iri(namespace.followed_by(alloc, word.as_str())?))
        }
        _ => Err(TokenFault::Defect(Reason::NotHere)),
    }
}

/// The label of an anonymous individual.
pub fn label_atom(alloc: Global, next: &Option<Placed<Token>>) -> Result<Atom, TokenFault>
    requires { ComesFormed next.now }
    ensures { Computes result
        (and_then (label_in (token_in next.now)) (λ label. Ok (atom.Label label))) }
{
    match next {
        Some(
            Placed {
                token: Token::Blank(label),
                ..
            },
        ) => match Label::of(alloc, label.as_str()) {
            Ok(label) => Ok(Atom::Label(label)),
            Err(LabelFault::BadLabel) => unreachable!(),
            Err(LabelFault::Memory) => Err(TokenFault::Memory),
        },
        _ => Err(TokenFault::Defect(Reason::NotHere)),
    }
}

/// The number of digits.
pub fn number_atom(next: &Option<Placed<Token>>) -> Result<Atom, TokenFault>
    requires { ComesFormed next.now }
    ensures { Computes result
        (and_then (number_in (token_in next.now)) (λ number. Ok (atom.Number number))) }
{
    match next {
        Some(
            Placed {
                token: Token::Int(digits),
                ..
            },
        ) => Ok(Atom::Number(value_of(digits)?)),
        _ => Err(TokenFault::Defect(Reason::NotHere)),
    }
}

/// The number that an integer without a sign is.
fn value_of(digits: &Text) -> Result<u64, TokenFault>
    requires { IsInteger digits.now }
    ensures { Computes result (number_in (Some (token.Int digits.now))) }
{
    if !are_digits(digits.as_str()) {
        return Err(TokenFault::Defect(Reason::NotHere));
    }
    match number_of(digits) {
        Some(number) => Ok(number),
        None => Err(TokenFault::NumberTooLarge),
    }
}

fn are_digits(text: &str) -> bool
    ensures { result ≡ list_all is_ascii_digit (chars text.now) }
{
    text.chars().all(|c| c.is_ascii_digit())
}

/// The literal of a form alone.
pub fn plain_atom(alloc: Global, form: &Text) -> Result<Atom, TokenFault>
    ensures { Computes result (Ok (atom.Literal (of_datatype form.now string))) }
{
    Ok(Atom::Literal(plain_literal(alloc, form.as_str())?))
}

/// The literal of a form with a language tag.
pub fn tagged_atom(
    alloc: Global,
    form: &Text,
    next: &Option<Placed<Token>>,
) -> Result<Atom, TokenFault>
    requires { ComesFormed next.now }
    ensures { Computes result (with_literal (tagged_in form.now (token_in next.now))) }
{
    match next {
        Some(
            Placed {
                token: Token::At(tag),
                ..
            },
        ) => Ok(Atom::Literal(tagged_literal(alloc, form.as_str(), tag.as_str())?)),
        _ => Err(TokenFault::Defect(Reason::NotHere)),
    }
}

/// The literal of a form with the datatype that a token is.
pub fn typed_atom(
    alloc: Global,
    names: &Names,
    form: &Text,
    next: &Option<Placed<Token>>,
) -> Result<Atom, TokenFault>
    requires { ComesFormed next.now }
    ensures { (known : stated.Names) → AreNames names.now known → Computes result
        (with_literal (typed_in form.now (iri_in known (token_in next.now)))) }
{
    let datatype = names.iri_in(alloc, next)?;
    literal_atom(alloc, form, datatype)
}

/// The literal of a form with a datatype.
fn literal_atom(alloc: Global, form: &Text, datatype: Iri) -> Result<Atom, TokenFault>
    ensures { Computes result (with_literal (known_literal (typed_literal form.now datatype))) }
{
    match typed_literal(alloc, form.as_str(), datatype)? {
        Some(literal) => Ok(Atom::Literal(literal)),
        None => Err(TokenFault::Defect(Reason::BadLiteral)),
    }
}

/// The literal of a form with a datatype of XML Schema.
fn of_xsd(alloc: Global, form: &Text, datatype: &str) -> Result<Atom, TokenFault>
    requires { is_ascii_iri datatype.now ≡ true }
    ensures { Computes result
        (with_literal (known_literal (typed_literal form.now datatype.now))) }
{
    let datatype = Iri::of_ascii(alloc, datatype)?;
    literal_atom(alloc, form, datatype)
}

/// The literal that a number or a word is short for.
pub fn shorthand_atom(alloc: Global, next: &Option<Placed<Token>>) -> Result<Atom, TokenFault>
    ensures { Computes result (with_literal (shorthand_in (token_in next.now))) }
{
    match next {
        Some(
            Placed {
                token: Token::Int(form),
                ..
            },
        ) => of_xsd(alloc, form, xsd!("integer")),
        Some(
            Placed {
                token: Token::Dec(form),
                ..
            },
        ) => of_xsd(alloc, form, xsd!("decimal")),
        Some(
            Placed {
                token: Token::Word(form),
                ..
            },
        ) => of_xsd(alloc, form, xsd!("boolean")),
        _ => Err(TokenFault::Defect(Reason::NotHere)),
    }
}
