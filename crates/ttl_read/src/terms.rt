//! Terms of tokens.

ghost use Rattle.std.specs.Prelude.{◌≡◌, codes, IfSome, Ok, true};
ghost use Rattle.std.specs.Option.{option_map};
ghost use Rattle.std.specs.Str.{chars};
ghost use Rattle.rdf_terms.specs.Literals.{of_datatype, string};
ghost use Rattle.rdf_terms.specs.Tables.{is_ascii_iri};
ghost use Rattle.rdf_terms.specs.Vocabulary.{rdf};
ghost use Rattle.ttl_tokens.specs.TokenForms.{IsFormed};
ghost use Rattle.ttl_grammar.specs.States as stated;
ghost use Rattle.ttl_grammar.specs.States.{form_in, iri_of, iri_term, label_term, literal_term, of_xsd, shorthand_term, tagged_term, typed_term};
ghost use Rattle.ttl_grammar.specs.declared.node.Node.TheVariants as node;
ghost use Rattle.ttl_grammar.specs.declared.node.Object.TheVariants as object;
ghost use Rattle.lexical_values.specs.TypedLiterals.{typed_literal};
ghost use Rattle.owl_reader.specs.Computing.{Computes};
ghost use Rattle.ttl_read.specs.NameTables.{AreNames};

use crate::names::Names;
use crate::refusals::{of_label, of_literal};
use owl_atom::{Iri, Label, Literal};
use owl_characters::Text;
use owl_reader::{Reason, TokenFault};
use rdf_terms::{rdf, xsd};
use std::alloc::Global;
use ttl_grammar::{Node, Object};
use ttl_tokens::{Symbol, Token};

/// The IRI of a token.
pub fn iri_term(alloc: Global, names: &Names, next: &Option<Token>) -> Result<Object, TokenFault>
    requires { IfSome next.now IsFormed }
    ensures { (known : stated.Names) → AreNames names.now known
        → Computes result (iri_term (iri_of known next.now)) }
{
    let iri = names.iri_of(alloc, next)?;
    Ok(Object::Node(Node::Iri(iri)))
}

/// The form of a string.
pub fn form_in(next: &Option<Token>) -> Option<&Text>
    ensures { option_map (λ form. form.now) result ≡ form_in next.now }
{
    match next {
        Some(Token::Str(form)) => Some(form),
        _ => None,
    }
}

/// rdf:type
pub fn type_term(alloc: Global) -> Result<Object, TokenFault>
    ensures { Computes result (Ok (object.Node (node.Iri (rdf (codes "type"))))) }
{
    Ok(Object::Node(Node::Iri(Iri::of_ascii(alloc, rdf!("type"))?)))
}

/// The blank node of a label.
pub fn label_term(alloc: Global, next: &Option<Token>) -> Result<Object, TokenFault>
    requires { IfSome next.now IsFormed }
    ensures { Computes result (label_term next.now) }
{
    match next {
        Some(Token::Label(label)) => {
            let label = Label::of(alloc, label.as_str()).map_err(of_label)?;
            Ok(Object::Node(Node::Label(label)))
        }
        _ => Err(TokenFault::Defect(Reason::NotHere)),
    }
}

/// The literal of a form alone.
pub fn plain_term(alloc: Global, form: &Text) -> Result<Object, TokenFault>
    ensures { Computes result (Ok (object.Literal (of_datatype form.now string))) }
{
    let literal = Literal::of(alloc, form.as_str(), None, None).map_err(of_literal)?;
    Ok(Object::Literal(literal))
}

/// The literal of a form with a language tag.
pub fn tagged_term(alloc: Global, form: &Text, next: &Option<Token>) -> Result<Object, TokenFault>
    requires { IfSome next.now IsFormed }
    ensures { Computes result (tagged_term form.now next.now) }
{
    match next {
        Some(Token::At(tag)) => {
            let tag = Some(tag.as_str());
            let literal = Literal::of(alloc, form.as_str(), None, tag).map_err(of_literal)?;
            Ok(Object::Literal(literal))
        }
        _ => Err(TokenFault::Defect(Reason::NotHere)),
    }
}

/// The literal of a form with the datatype that a token is.
pub fn typed_term(
    alloc: Global,
    names: &Names,
    form: &Text,
    next: &Option<Token>,
) -> Result<Object, TokenFault>
    requires { IfSome next.now IsFormed }
    ensures { (known : stated.Names) → AreNames names.now known
        → Computes result (typed_term form.now (iri_of known next.now)) }
{
    let datatype = names.iri_of(alloc, next)?;
    typed(alloc, form.as_str(), datatype)
}

/// The literal of a form with a datatype.
fn typed(alloc: Global, form: &str, datatype: Iri) -> Result<Object, TokenFault>
    ensures { Computes result (literal_term (typed_literal (chars form.now) datatype)) }
{
    match Literal::of(alloc, form, Some(datatype), None) {
        Ok(literal) => Ok(Object::Literal(literal)),
        Err(fault) => Err(of_literal(fault)),
    }
}

/// The literal of a form with a datatype of XML Schema.
fn of_xsd(alloc: Global, form: &str, datatype: &str) -> Result<Object, TokenFault>
    requires { is_ascii_iri datatype.now ≡ true }
    ensures { Computes result (literal_term (typed_literal (chars form.now) datatype.now)) }
{
    let datatype = Iri::of_ascii(alloc, datatype)?;
    typed(alloc, form, datatype)
}

/// The literal that a number or a word is short for.
pub fn shorthand_term(alloc: Global, next: &Option<Token>) -> Result<Object, TokenFault>
    ensures { Computes result (shorthand_term next.now) }
{
    match next {
        Some(Token::Integer(form)) => of_xsd(alloc, form.as_str(), xsd!("integer")),
        Some(Token::Decimal(form)) => of_xsd(alloc, form.as_str(), xsd!("decimal")),
        Some(Token::Double(form)) => of_xsd(alloc, form.as_str(), xsd!("double")),
        Some(Token::Symbol(Symbol::True)) => true_term(alloc),
        Some(Token::Symbol(Symbol::False)) => false_term(alloc),
        _ => Err(TokenFault::Defect(Reason::NotHere)),
    }
}

fn true_term(alloc: Global) -> Result<Object, TokenFault>
    ensures { Computes result (of_xsd (codes "true") (codes "boolean")) }
{
    of_xsd(alloc, "true", xsd!("boolean"))
}

fn false_term(alloc: Global) -> Result<Object, TokenFault>
    ensures { Computes result (of_xsd (codes "false") (codes "boolean")) }
{
    of_xsd(alloc, "false", xsd!("boolean"))
}
