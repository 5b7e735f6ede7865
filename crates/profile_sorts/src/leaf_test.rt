//! What single leaves are tested for.

ghost use Rattle.std.specs.Prelude.{◌≡◌, true};
ghost use Rattle.profile_sorts.specs.LeafTests.{name_passes, number_passes, passes, shared_datatypes};
ghost use Rattle.rdf_terms.specs.Datatypes.{has};
ghost use Rattle.rdf_terms.specs.Tables.{are_ascii, shown};

use owl_kind::{Kind, built_in};
use owl_tree::Atom;
use rdf_terms::{Iri, in_map, owl, rdf, rdfs, xsd};

/// What a leaf is tested for.
#[derive(Clone, Copy, Debug)]
pub enum LeafTest {
    /// The class is `owl:Thing`.
    Thing,
    /// The class is another one.
    NotThing,
    /// The datatype is one of EL and QL, or outside the datatype map.
    SharedDatatype,
    /// The datatype is neither `owl:real` nor `owl:rational`.
    RlDatatype,
    /// The object property is neither the top nor the bottom one.
    OrdinaryObjectProperty,
    /// The data property is neither the top nor the bottom one.
    OrdinaryDataProperty,
    /// The number is 0 or 1.
    ZeroOrOne,
}

/// The class of all individuals.
const THING: [&str; 1] = [owl!("Thing")];

/// The datatypes of numbers that RL doesn't have (OWL 2 Profiles, section 4.2.1).
const REALS: [&str; 2] = [owl!("real"), owl!("rational")];

/// The datatypes of EL and QL (OWL 2 Profiles, sections 2.2.1 and 3.2.1).
const SHARED_DATATYPES: [&str; 19] = [
    rdf!("PlainLiteral"),
    rdf!("XMLLiteral"),
    rdfs!("Literal"),
    owl!("real"),
    owl!("rational"),
    xsd!("decimal"),
    xsd!("integer"),
    xsd!("nonNegativeInteger"),
    xsd!("string"),
    xsd!("normalizedString"),
    xsd!("token"),
    xsd!("Name"),
    xsd!("NCName"),
    xsd!("NMTOKEN"),
    xsd!("hexBinary"),
    xsd!("base64Binary"),
    xsd!("anyURI"),
    xsd!("dateTime"),
    xsd!("dateTimeStamp"),
];

impl LeafTest {
    /// Whether what a leaf holds passes. Of a literal the datatype is looked at.
    pub(crate) fn passes(self, atom: &Atom) -> bool
        ensures { result ≡ passes self atom.now }
    {
        match atom {
            Atom::Iri(iri) => self.passes_name(iri),
            Atom::Label(_) => false,
            Atom::Literal(literal) => self.passes_name(literal.datatype()),
            Atom::Number(number) => self.passes_number(*number),
        }
    }

    /// Whether the IRI of an entity passes.
    fn passes_name(self, iri: &Iri) -> bool
        ensures { result ≡ name_passes self iri.now }
    {
        match self {
            LeafTest::Thing => is_named(iri, &THING),
            LeafTest::NotThing => !is_named(iri, &THING),
            LeafTest::SharedDatatype => !in_map(iri) || is_shared(iri),
            LeafTest::RlDatatype => !is_named(iri, &REALS),
            LeafTest::OrdinaryObjectProperty => !built_in(Kind::ObjectProperty, iri),
            LeafTest::OrdinaryDataProperty => !built_in(Kind::DataProperty, iri),
            LeafTest::ZeroOrOne => false,
        }
    }

    /// Whether the number passes.
    fn passes_number(self, number: u64) -> bool
        ensures { result ≡ number_passes self number }
    {
        match self {
            LeafTest::ZeroOrOne => number <= 1,
            LeafTest::Thing
            | LeafTest::NotThing
            | LeafTest::SharedDatatype
            | LeafTest::RlDatatype
            | LeafTest::OrdinaryObjectProperty
            | LeafTest::OrdinaryDataProperty => false,
        }
    }
}

/// Whether the datatype is one of EL and QL.
fn is_shared(datatype: &Iri) -> bool
    ensures { result ≡ has shared_datatypes datatype.now }
{
    is_named(datatype, &SHARED_DATATYPES)
}

/// Whether the IRI is one of the names, which are ASCII.
fn is_named(iri: &Iri, names: &[&str]) -> bool
    requires { are_ascii names.now ≡ true }
    ensures { result ≡ has (shown names.now) iri.now }
{
    let text = iri.text();
    names.iter().any(|name| *name == text)
}
