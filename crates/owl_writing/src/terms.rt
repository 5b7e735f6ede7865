//! How IRIs, labels and the ends of literals are written.

ghost use Rattle.std.specs.Prelude.{◌≡◌, ◌++◌, ℕ, List, codes, length, None, OnOk, IsErrOf};
ghost use Rattle.std.specs.Io.{StartsWith};
ghost use Rattle.std.specs.Str.{IsCharBoundary, chars, encode_utf8_all};
ghost use Rattle.owl_atom.specs.Prefixes.{Shortens};
ghost use Rattle.rdf_terms.specs.Literals.{string};
ghost use Rattle.owl_characters.specs.Order.{text_eq};
ghost use Rattle.owl_writing.specs.Limits.{IsTooLong};
ghost use Rattle.owl_writing.specs.Terms.{full_iri, iri_text, label_text, literal_end};
ghost use Rattle.owl_writing.specs.declared.fault.WriteFault.{WriteFault};

use crate::draft::Draft;
use crate::fault::WriteFault;
use owl_atom::{Iri, Label, Literal, Prefixes};
use rdf_terms::xsd;

/// The IRI of xsd:string.
const STRING: &str = xsd!("string");

impl Draft {
    /// Adds an IRI in full, between `<` and `>` (Structural Specification, section 2.4; RDF 1.1 Turtle, section 2.4).
    #[tactic(auto, using(owl_characters::proofs::Utf8Laws::size_append))]
    pub fn add_full_iri(&mut self, iri: &Iri) -> Result<(), WriteFault>
        ensures ok { OnOk result (self.new ≡ self.old ++ full_iri iri.now) }
        ensures too_long { IsErrOf result WriteFault.TooLong → IsTooLong (self.old ++ full_iri iri.now) }
        ensures kept { StartsWith self.new self.old }
    {
        self.add_ascii("<")?;
        self.add(iri.text())?;
        self.add_ascii(">")
    }

    /// Adds an IRI, abbreviated where one of the prefixes leaves a plain local part (the same sections).
    pub fn add_iri(&mut self, prefixes: &Prefixes, iri: &Iri) -> Result<(), WriteFault>
        ensures ok { OnOk result (self.new ≡ self.old ++ iri_text prefixes.now iri.now) }
        ensures too_long { IsErrOf result WriteFault.TooLong → IsTooLong (self.old ++ iri_text prefixes.now iri.now) }
        ensures kept { StartsWith self.new self.old }
    {
        // The names of a table ascend.
        prefixes.len();
        match prefixes.shorten(iri) {
            Some((place, begin)) => self.add_short_iri(prefixes, iri, place, begin),
            None => self.add_full_iri(iri),
        }
    }

    /// Adds an IRI by the prefix at this place, with the local part that begins at this byte.
    #[tactic(auto, using(owl_characters::proofs::Utf8Laws::size_append))]
    fn add_short_iri(
        &mut self,
        prefixes: &Prefixes,
        iri: &Iri,
        place: usize,
        begin: usize,
    ) -> Result<(), WriteFault>
        requires shortens { Shortens prefixes.now iri.now place begin }
        requires boundary { IsCharBoundary (encode_utf8_all iri.now) begin }
        ensures ok { OnOk result (self.new ≡ self.old ++ iri_text prefixes.now iri.now) }
        ensures too_long { IsErrOf result WriteFault.TooLong → IsTooLong (self.old ++ iri_text prefixes.now iri.now) }
        ensures kept { StartsWith self.new self.old }
    {
        prefixes.len();
        let (name, _) = prefixes.at(place);
        self.add_name(name, local_part(iri, begin))
    }

    /// Adds an abbreviated IRI.
    #[tactic(auto, using(owl_characters::proofs::Utf8Laws::size_append))]
    fn add_name(&mut self, prefix: &str, local: &str) -> Result<(), WriteFault>
        ensures ok { OnOk result (self.new ≡ self.old ++ (chars prefix.now ++ (codes ":" ++ chars local.now))) }
        ensures too_long { IsErrOf result WriteFault.TooLong → IsTooLong (self.old ++ (chars prefix.now ++ (codes ":" ++ chars local.now))) }
        ensures kept { StartsWith self.new self.old }
    {
        self.add(prefix)?;
        self.add_ascii(":")?;
        self.add(local)
    }

    /// Adds the label of a blank node, behind `_:` (Structural Specification, section 5.6.2; RDF 1.1 Turtle, section 2.6).
    #[tactic(auto, using(owl_characters::proofs::Utf8Laws::size_append))]
    pub fn add_label(&mut self, label: &Label) -> Result<(), WriteFault>
        ensures ok { OnOk result (self.new ≡ self.old ++ label_text label.now) }
        ensures too_long { IsErrOf result WriteFault.TooLong → IsTooLong (self.old ++ label_text label.now) }
        ensures kept { StartsWith self.new self.old }
    {
        self.add_ascii("_:")?;
        self.add(label.text())
    }

    /// Adds what stands behind the string of a literal: its language tag, or its datatype unless that is xsd:string
    /// (Structural Specification, section 5.7; RDF 1.1 Turtle, section 2.5).
    pub fn add_literal_end(
        &mut self,
        prefixes: &Prefixes,
        literal: &Literal,
    ) -> Result<(), WriteFault>
        ensures ok { OnOk result (self.new ≡ self.old ++ literal_end prefixes.now literal.now.datatype literal.now.tag) }
        ensures too_long { IsErrOf result WriteFault.TooLong → IsTooLong (self.old ++ literal_end prefixes.now literal.now.datatype literal.now.tag) }
        ensures kept { StartsWith self.new self.old }
    {
        match literal.tag() {
            Some(tag) => self.add_tag(tag),
            None => self.add_datatype(prefixes, literal.datatype()),
        }
    }

    /// Adds a language tag.
    #[tactic(auto, using(owl_characters::proofs::Utf8Laws::size_append))]
    fn add_tag(&mut self, tag: &str) -> Result<(), WriteFault>
        ensures ok { OnOk result (self.new ≡ self.old ++ (codes "@" ++ chars tag.now)) }
        ensures too_long { IsErrOf result WriteFault.TooLong → IsTooLong (self.old ++ (codes "@" ++ chars tag.now)) }
        ensures kept { StartsWith self.new self.old }
    {
        self.add_ascii("@")?;
        self.add(tag)
    }

    /// Adds the datatype of a literal without a tag, unless it is xsd:string.
    #[tactic(auto, using(owl_characters::proofs::Utf8Laws::size_append))]
    fn add_datatype(&mut self, prefixes: &Prefixes, datatype: &Iri) -> Result<(), WriteFault>
        ensures ok { OnOk result (self.new ≡ self.old ++ literal_end prefixes.now datatype.now None) }
        ensures too_long { IsErrOf result WriteFault.TooLong → IsTooLong (self.old ++ literal_end prefixes.now datatype.now None) }
        ensures kept { StartsWith self.new self.old }
    {
        if is_string(datatype) {
            return Ok(());
        }
        self.add_ascii("^^")?;
        self.add_iri(prefixes, datatype)
    }
}

/// The part of an IRI from this byte on.
fn local_part(iri: &Iri, begin: usize) -> &str
    requires { IsCharBoundary (encode_utf8_all iri.now) begin }
    ensures { (front local : List ℕ) → iri.now ≡ front ++ local → begin ≡ length (encode_utf8_all front) → chars result.now ≡ local }
{
    &iri.text()[begin..]
}

fn is_string(datatype: &Iri) -> bool
    ensures { result ≡ text_eq datatype.now string }
{
    datatype.text() == STRING
}
