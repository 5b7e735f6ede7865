//! IRIs.

ghost use Rattle.std.specs.Prelude.{◌≡◌, ◌↔◌, ◌++◌, IsTrue, IfOk, IsErrOf, true};
ghost use Rattle.std.specs.Str.{chars, encode_utf8_all, all_scalars};
ghost use Rattle.std.specs.Char.{is_ascii_alphabetic};
ghost use Rattle.owl_characters.specs.Iri.{AllAre, IsIri, IsScheme, is_iri_character};
ghost use Rattle.owl_characters.specs.Order.{text_eq};
ghost use Rattle.owl_characters.specs.Names.{begins_with};
ghost use Rattle.std.specs.Cmp.Rules.{comparing};
ghost use Rattle.std.proofs.Common.{rules};
ghost use Rattle.rdf_terms.specs.Tables.{is_ascii_iri};
ghost use Rattle.rdf_terms.specs.declared.fault.IriFault.{IriFault};

use crate::fault::IriFault;
use crate::scan::{are_iri_characters, are_scheme_characters};
use owl_characters::{NoMemory, Text};
use std::alloc::Global;
use std::marker::Model;

/// An IRI with a scheme, which contracts see as the list of its characters
/// (Structural Specification, section 2.4, and RFC 3987).
///
/// IRIs are equal where they have the same characters, and they are ordered by
/// their bytes.
#[derive(Debug, Drop, Eq, PartialOrd, Ord, Hash)]
pub struct Iri {
    text: Text,
}

impl Model for Iri {
    ghost use Rattle.std.specs.Prelude.{List, ℕ};
    ghost use Rattle.owl_characters.specs.Iri.{IsIri};

    ghost Value = { List ℕ };

    ghost view = { λ i. i.text };

    ghost invariant = { λ i. IsIri i.text };

    ghost inverse = { λ cs. record { text = cs } };
}

impl Iri {
    /// The IRI with these characters. `BadIri` exactly where they are none.
    pub fn of(alloc: Global, text: &str) -> Result<Iri, IriFault>
        ensures ok { IfOk result (λ iri. iri ≡ chars text.now) }
        ensures bad { IsErrOf result IriFault.BadIri ↔ (IsIri (chars text.now) → ⊥) }
    {
        if !is_iri(text) {
            return Err(IriFault::BadIri);
        }
        Ok(Iri::known(alloc, text)?)
    }

    /// The IRI with these characters, of which it is known that they are one.
    pub fn known(alloc: Global, text: &str) -> Result<Iri, NoMemory>
        requires { IsIri (chars text.now) }
        ensures { IfOk result (λ iri. iri ≡ chars text.now) }
    {
        let text = Text::of(alloc, text)?;
        Ok(Iri { text })
    }

    /// The IRI with these characters of ASCII, as of a name in one of the namespaces.
    pub fn of_ascii(alloc: Global, text: &str) -> Result<Iri, NoMemory>
        requires { is_ascii_iri text.now ≡ true }
        ensures { IfOk result (λ iri. iri ≡ text.now) }
    {
        Iri::known(alloc, text)
    }

    /// The same characters. Takes no memory.
    pub fn text(&self) -> &str
        ensures chars { chars result.now ≡ self.now }
        ensures bytes { result.now ≡ encode_utf8_all self.now }
        ensures scalars { all_scalars self.now ≡ true }
        ensures iri { IsIri self.now }
    {
        self.text.as_str()
    }

    /// Whether these are its characters. Takes no memory.
    pub fn is(&self, text: &str) -> bool
        ensures { IsTrue result ↔ (self.now ≡ chars text.now) }
    {
        self.text.is(text)
    }

    /// This IRI, and then characters that an IRI may have.
    pub fn followed_by(&self, alloc: Global, more: &str) -> Result<Iri, NoMemory>
        requires { AllAre is_iri_character (chars more.now) }
        ensures { IfOk result (λ iri. iri ≡ self.now ++ chars more.now) }
    {
        let front = self.text.as_str();
        let mut text = Text::with_capacity(alloc, front.len().saturating_add(more.len()))?;
        text.push_str(front)?;
        text.push_str(more)?;
        Ok(Iri { text })
    }

    /// An equal IRI.
    pub fn copy(&self, alloc: Global) -> Result<Iri, NoMemory>
        ensures { IfOk result (λ iri. iri ≡ self.now) }
    {
        Iri::known(alloc, self.text())
    }
}

impl PartialEq for Iri {
    ghost eq = { text_eq };

    ghost laws = { Prim.search (comparing, rules) };

    fn eq(&self, other: &Iri) -> bool
        ensures value { result ≡ text_eq self.now other.now }
        ensures same { IsTrue result ↔ (self.now ≡ other.now) }
    {
        self.text == other.text
    }
}

/// Whether the text is a scheme, a colon, and characters that may follow.
fn is_iri(text: &str) -> bool
    ensures { IsTrue result ↔ IsIri (chars text.now) }
{
    match text.split_once(':') {
        Some((scheme, rest)) => is_scheme(scheme) && are_iri_characters(rest),
        None => false,
    }
}

/// Whether the text is a letter, and then letters, digits, `+`, `-` and `.`.
fn is_scheme(text: &str) -> bool
    ensures { IsTrue result ↔ IsScheme (chars text.now) }
{
    begins_with_letter(text) && are_scheme_characters(text)
}

fn begins_with_letter(text: &str) -> bool
    ensures { result ≡ begins_with is_ascii_alphabetic (chars text.now) }
{
    match text.chars().next() {
        Some(c) => c.is_ascii_alphabetic(),
        None => false,
    }
}
