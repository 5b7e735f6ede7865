//! The classes of tokens.

ghost use Rattle.std.specs.Prelude.{◌≡◌};
ghost use Rattle.fss_grammar.specs.Classes.{class_number, class_of, head_class, name_class, named_class, sign_class, tag_named};

use owl_characters::Text;
use owl_tokens::{Sign, Token};
use owl_tree::Tag;

/// A word that is neither a keyword of a tag nor one of the next three. The
/// class of a keyword is the number of its tag.
pub const OTHER_WORD: u8 = 0;
/// The word that begins the declaration of a prefix.
pub const PREFIX: u8 = 78;
/// The word that begins an ontology.
pub const ONTOLOGY: u8 = 79;
/// The word that begins an import.
pub const IMPORT: u8 = 80;
/// A full IRI.
pub const IRI: u8 = 81;
/// An abbreviated IRI with a local part.
pub const NAME: u8 = 82;
/// An abbreviated IRI without a local part, or the name of a prefix.
pub const ALONE: u8 = 83;
/// The label of a blank node.
pub const LABEL: u8 = 84;
/// A string.
pub const TEXT: u8 = 85;
/// A language tag.
pub const LANGUAGE: u8 = 86;
/// Digits.
pub const DIGITS: u8 = 87;
/// `(`
pub const OPENING: u8 = 88;
/// `)`
pub const CLOSING: u8 = 89;
/// `=`
pub const EQUALS: u8 = 90;
/// `^^`
pub const CARETS: u8 = 91;
/// Any other token.
pub const OTHER: u8 = 92;

/// The class of a word that is the keyword of no tag.
fn head_class(word: &Text) -> u8
    ensures { result ≡ class_number (head_class word.now) }
{
    if word.is("Prefix") {
        PREFIX
    } else if word.is("Ontology") {
        ONTOLOGY
    } else if word.is("Import") {
        IMPORT
    } else {
        OTHER_WORD
    }
}

/// The class of a word.
fn word_class(word: &Text) -> u8
    ensures { result ≡ class_number (named_class (tag_named word.now) word.now) }
{
    match Tag::named(word.as_str()) {
        Some(tag) => tag.number(),
        None => head_class(word),
    }
}

/// The class of a name with this local part.
fn name_class(local: &Text) -> u8
    ensures { result ≡ class_number (name_class local.now) }
{
    if local.is("") { ALONE } else { NAME }
}

/// The class of a punctuation mark.
fn sign_class(sign: Sign) -> u8
    ensures { result ≡ class_number (sign_class sign) }
{
    match sign {
        Sign::Open => OPENING,
        Sign::Close => CLOSING,
        Sign::Equals => EQUALS,
        Sign::Carets => CARETS,
        _ => OTHER,
    }
}

/// The class of a token, which is all that the grammar tells of it.
#[tactic(auto, unfolding(crate::specs::Classes::class_of))]
pub fn class_of(token: &Token) -> u8
    ensures { result ≡ class_of token.now }
{
    match token {
        Token::Iri(_) => IRI,
        Token::Name(_, local) => name_class(local),
        Token::Blank(_) => LABEL,
        Token::Str(_) => TEXT,
        Token::At(_) => LANGUAGE,
        Token::Word(word) => word_class(word),
        Token::Int(_) => DIGITS,
        Token::Dec(_) => OTHER,
        Token::Sign(sign) => sign_class(*sign),
    }
}
