//! Literals.

ghost use Rattle.std.specs.Prelude.{◌≡◌, ◌↔◌, ◌⊎◌, ◌++◌, IsTrue, IfOk, IfSome, IsNone, IsErrOf, None, Some, true};
ghost use Rattle.std.specs.Cmp.{partial_order_from_own_ties, partial_order_from_total};
ghost use Rattle.std.specs.Option.{option_map};
ghost use Rattle.std.specs.Cmp.Rules.{hashing};
ghost use Rattle.std.specs.Hash as fed;
ghost use Rattle.std.specs.Ordering.{as_partial_cmp};
ghost use Rattle.std.specs.Str.{chars, encode_utf8_all};
ghost use Rattle.std.proofs.Common.{refl, rules};
ghost use Rattle.owl_characters.specs.Names.{IsLanguageTag};
ghost use Rattle.rdf_terms.specs.Literals.{DenotesLiteral, DenotesTyped, FitsTag, IsLiteral, LiteralParts, PlainForm, PlainParts, lang_string, literal_cmp, literal_eq, of_datatype, plain_literal, string, with_tag};
ghost use Rattle.rdf_terms.specs.LiteralLaws.{equivalence, only_equals_tie, partial_equivalence, total_order};
ghost use Rattle.rdf_terms.specs.declared.fault.LiteralFault.{LiteralFault};

use crate::fault::LiteralFault;
use crate::iri::Iri;
use crate::language::is_language_tag;
use crate::vocabulary::{LANG_STRING, PLAIN_LITERAL, STRING};
use owl_characters::{NoMemory, Text};
use std::alloc::{AllocError, Global};
use std::cmp::Ordering;
use std::hash::{Hash, Hasher};
use std::marker::Model;

/// A literal, which contracts see as its lexical form, datatype and language
/// tag (Structural Specification, section 5.7). One with a tag has the
/// datatype rdf:PlainLiteral.
///
/// Literals are equal where these three are, and ordered by them, each by its
/// bytes, and no tag before each tag.
#[derive(Debug, Drop)]
pub struct Literal {
    // Behind a pointer, since most terms and atoms are no literals.
    parts: Box<Parts>,
}

/// What a literal has.
#[derive(Debug, Drop)]
struct Parts {
    lexical: Text,
    datatype: Iri,
    tag: Option<Text>,
}

impl Model for Literal {
    ghost use Rattle.rdf_terms.specs.Literals.{IsLiteral, LiteralParts};

    ghost Value = { LiteralParts };

    ghost view = { λ l. record { lexical = l.parts.value.lexical; datatype = l.parts.value.datatype; tag = l.parts.value.tag } };

    ghost invariant = { λ l. IsLiteral (record { lexical = l.parts.value.lexical; datatype = l.parts.value.datatype; tag = l.parts.value.tag }) };
}

impl Literal {
    /// The literal of these parts.
    fn new(
        alloc: Global,
        lexical: Text,
        datatype: Iri,
        tag: Option<Text>,
    ) -> Result<Literal, NoMemory>
        requires { IsLiteral (record { lexical = lexical; datatype = datatype; tag = tag }) }
        ensures { IfOk result (λ literal. literal ≡
            record { lexical = lexical; datatype = datatype; tag = tag }) }
    {
        let parts = Parts {
            lexical,
            datatype,
            tag,
        };
        let parts = Box::new(alloc, parts).map_err(AllocError::from)?;
        Ok(Literal { parts })
    }

    /// The literal that is written as this form with a datatype, with a
    /// language tag, or with neither (Structural Specification, section 5.7,
    /// and rdf:PlainLiteral, section 3).
    ///
    /// A form of rdf:PlainLiteral is a text, an `@`, and then nothing or a
    /// language tag; without a tag it is a string. `BadLiteral` exactly where
    /// it is no such form, and for rdf:langString.
    pub fn of(
        alloc: Global,
        lexical: &str,
        datatype: Option<Iri>,
        tag: Option<&str>,
    ) -> Result<Literal, LiteralFault>
        requires apart { IsNone datatype ⊎ IsNone tag }
        requires tag { IfSome tag (λ tag. IsLanguageTag (chars tag.now)) }
        ensures ok { IfOk result (λ literal.
            DenotesLiteral (chars lexical.now) datatype (option_map (λ tag. chars tag.now) tag.entry) literal) }
        ensures only { IfOk result (λ literal. (other : LiteralParts) →
            DenotesLiteral (chars lexical.now) datatype (option_map (λ tag. chars tag.now) tag.entry) other → other ≡ literal) }
        ensures bad { IsErrOf result LiteralFault.BadLiteral ↔ ((literal : LiteralParts) →
            DenotesLiteral (chars lexical.now) datatype (option_map (λ tag. chars tag.now) tag.entry) literal → ⊥) }
    {
        match datatype {
            Some(datatype) => of_form(alloc, lexical, datatype),
            None => of_tag(alloc, lexical, tag),
        }
    }

    /// The lexical form. Takes no memory.
    pub fn lexical(&self) -> &str
        ensures chars { chars result.now ≡ self.now.lexical }
        ensures bytes { result.now ≡ encode_utf8_all self.now.lexical }
    {
        self.parts.lexical.as_str()
    }

    /// The datatype. Takes no memory.
    pub fn datatype(&self) -> &Iri
        ensures datatype { result.now ≡ self.now.datatype }
        ensures literal { IsLiteral self.now }
    {
        &self.parts.datatype
    }

    /// The language tag, where there is one. Takes no memory.
    pub fn tag(&self) -> Option<&str>
        ensures { option_map (λ tag. chars tag.now) result ≡ self.now.tag }
    {
        self.parts.tag.as_ref().map(|tag| tag.as_str())
    }

    /// An equal literal.
    pub fn copy(&self, alloc: Global) -> Result<Literal, NoMemory>
        ensures { IfOk result (λ literal. literal ≡ self.now) }
    {
        let lexical = Text::of(alloc, self.parts.lexical.as_str())?;
        let datatype = self.parts.datatype.copy(alloc)?;
        let tag = copy_of(alloc, &self.parts.tag)?;
        Ok(Literal::new(alloc, lexical, datatype, tag)?)
    }
}

impl PartialEq for Literal {
    ghost eq = { literal_eq };

    ghost laws = { partial_equivalence };

    fn eq(&self, other: &Literal) -> bool
        ensures value { result ≡ literal_eq self.now other.now }
        ensures same { IsTrue result ↔ (self.now ≡ other.now) }
    {
        self.parts.lexical == other.parts.lexical
            && self.parts.datatype == other.parts.datatype
            && self.parts.tag == other.parts.tag
    }
}

impl Eq for Literal {
    ghost laws = { equivalence };
}

impl PartialOrd for Literal {
    ghost partial_cmp = { as_partial_cmp literal_cmp };

    ghost laws = { partial_order_from_own_ties (partial_order_from_total total_order) only_equals_tie };

    fn partial_cmp(&self, other: &Literal) -> Option<Ordering> {
        Some(self.cmp(other))
    }
}

impl Ord for Literal {
    ghost cmp = { literal_cmp };

    ghost total = { total_order };

    ghost matches_partial_cmp = { λ a b. refl };

    ghost matches_eq = { only_equals_tie };

    fn cmp(&self, other: &Literal) -> Ordering {
        self.parts
            .lexical
            .cmp(&other.parts.lexical)
            .then(self.parts.datatype.cmp(&other.parts.datatype))
            .then(self.parts.tag.cmp(&other.parts.tag))
    }
}

impl Hash for Literal {
    ghost hash_input = { λ l. fed.str (encode_utf8_all l.lexical)
        ++ (fed.str (encode_utf8_all l.datatype)
        ++ fed.option (λ tag. fed.str (encode_utf8_all tag)) l.tag) };

    ghost respects_eq = { Prim.search (hashing, rules) };

    fn hash<H: Hasher>(&self, state: &mut H) {
        self.parts.lexical.hash(state);
        self.parts.datatype.hash(state);
        self.parts.tag.hash(state);
    }
}

/// An equal text, where there is one.
fn copy_of(alloc: Global, text: &Option<Text>) -> Result<Option<Text>, NoMemory>
    ensures { IfOk result (λ copy. copy ≡ text.now) }
{
    match text {
        Some(text) => Ok(Some(Text::of(alloc, text.as_str())?)),
        None => Ok(None),
    }
}

/// The literal of a form with a language tag, or of a string.
fn of_tag(alloc: Global, lexical: &str, tag: Option<&str>) -> Result<Literal, LiteralFault>
    requires { IfSome tag (λ tag. IsLanguageTag (chars tag.now)) }
    ensures ok { IfOk result (λ literal.
        DenotesLiteral (chars lexical.now) None (option_map (λ tag. chars tag.now) tag.entry) literal) }
    ensures memory { IsErrOf result LiteralFault.BadLiteral → ⊥ }
{
    match tag {
        Some(tag) => tagged(alloc, lexical, tag),
        None => string_of(alloc, lexical),
    }
}

/// The literal of a form with a datatype.
fn of_form(alloc: Global, form: &str, datatype: Iri) -> Result<Literal, LiteralFault>
    ensures ok { IfOk result (λ literal. DenotesTyped (chars form.now) datatype literal) }
    ensures bad { IsErrOf result LiteralFault.BadLiteral ↔ ((literal : LiteralParts) →
        DenotesTyped (chars form.now) datatype literal → ⊥) }
{
    if is_plain_literal(&datatype) {
        plain(alloc, form)
    } else if is_lang_string(&datatype) {
        Err(LiteralFault::BadLiteral)
    } else {
        typed(alloc, form, datatype)
    }
}

fn is_plain_literal(datatype: &Iri) -> bool
    ensures { IsTrue result ↔ (datatype.now ≡ plain_literal) }
{
    datatype.is(PLAIN_LITERAL)
}

fn is_lang_string(datatype: &Iri) -> bool
    ensures { IsTrue result ↔ (datatype.now ≡ lang_string) }
{
    datatype.is(LANG_STRING)
}

/// The literal of a form of rdf:PlainLiteral.
fn plain(alloc: Global, form: &str) -> Result<Literal, LiteralFault>
    ensures ok { IfOk result (λ literal. PlainForm (chars form.now) literal) }
    ensures bad { IsErrOf result LiteralFault.BadLiteral ↔ ((literal : LiteralParts) →
        PlainForm (chars form.now) literal → ⊥) }
{
    match form.rsplit_once('@') {
        Some((text, rest)) => plain_of_parts(alloc, text, rest),
        None => Err(LiteralFault::BadLiteral),
    }
}

/// The literal of what stands before the last `@` and behind it.
fn plain_of_parts(alloc: Global, text: &str, rest: &str) -> Result<Literal, LiteralFault>
    ensures ok { IfOk result (λ literal. PlainParts (chars text.now) (chars rest.now) literal) }
    ensures bad { IsErrOf result LiteralFault.BadLiteral ↔ ((literal : LiteralParts) →
        PlainParts (chars text.now) (chars rest.now) literal → ⊥) }
{
    if rest.is_empty() {
        string_of(alloc, text)
    } else if is_language_tag(rest) {
        tagged(alloc, text, rest)
    } else {
        Err(LiteralFault::BadLiteral)
    }
}

/// A literal with a language tag.
fn tagged(alloc: Global, lexical: &str, tag: &str) -> Result<Literal, LiteralFault>
    requires { IsLanguageTag (chars tag.now) }
    ensures ok { IfOk result (λ literal. literal ≡ with_tag (chars lexical.now) (chars tag.now)) }
    ensures memory { IsErrOf result LiteralFault.BadLiteral → ⊥ }
{
    let datatype = plain_literal(alloc)?;
    let lexical = Text::of(alloc, lexical)?;
    let tag = Text::of(alloc, tag)?;
    Ok(Literal::new(alloc, lexical, datatype, Some(tag))?)
}

fn plain_literal(alloc: Global) -> Result<Iri, NoMemory>
    ensures { IfOk result (λ iri. iri ≡ plain_literal) }
{
    Iri::of_ascii(alloc, PLAIN_LITERAL)
}

/// A literal of xsd:string.
fn string_of(alloc: Global, lexical: &str) -> Result<Literal, LiteralFault>
    ensures ok { IfOk result (λ literal. literal ≡ of_datatype (chars lexical.now) string) }
    ensures memory { IsErrOf result LiteralFault.BadLiteral → ⊥ }
{
    let datatype = string(alloc)?;
    typed(alloc, lexical, datatype)
}

fn string(alloc: Global) -> Result<Iri, NoMemory>
    ensures { IfOk result (λ iri. iri ≡ string) }
{
    Iri::of_ascii(alloc, STRING)
}

/// A literal of a datatype that has no tags.
fn typed(alloc: Global, lexical: &str, datatype: Iri) -> Result<Literal, LiteralFault>
    requires { FitsTag None datatype }
    ensures ok { IfOk result (λ literal. literal ≡ of_datatype (chars lexical.now) datatype) }
    ensures memory { IsErrOf result LiteralFault.BadLiteral → ⊥ }
{
    let lexical = Text::of(alloc, lexical)?;
    Ok(Literal::new(alloc, lexical, datatype, None)?)
}
