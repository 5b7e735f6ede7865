//! What is kept between tokens.

ghost use Rattle.std.specs.Prelude.{◌≡◌};
ghost use Rattle.fss_acts.specs.Holding.{HoldsIri, HoldsPrefix, HoldsText};
ghost use Rattle.fss_acts.specs.declared.kept.Kept.TheVariants as keeps;

use owl_atom::Iri;
use owl_characters::Text;
use owl_tree::Tag;
use std::mem;

/// What is kept until more comes.
#[derive(Debug, Drop)]
pub enum Kept {
    Nothing,
    /// A string, for a leaf with this tag.
    Text(Tag, Text),
    /// An IRI, for a leaf whose tag is not known yet.
    Iri(Iri),
    /// The name of a prefix that is declared.
    Prefix(Text),
}

/// The string that is kept, after which nothing is.
pub fn take_text(kept: &mut Kept) -> (Tag, Text)
    requires { HoldsText kept.old }
    ensures was { kept.old ≡ keeps.Text result.0 result.1 }
    ensures now { kept.new ≡ keeps.Nothing }
{
    match mem::replace(kept, Kept::Nothing) {
        Kept::Text(tag, form) => (tag, form),
        _ => unreachable!(),
    }
}

/// The IRI that is kept, after which nothing is.
pub fn take_iri(kept: &mut Kept) -> Iri
    requires { HoldsIri kept.old }
    ensures was { kept.old ≡ keeps.Iri result }
    ensures now { kept.new ≡ keeps.Nothing }
{
    match mem::replace(kept, Kept::Nothing) {
        Kept::Iri(iri) => iri,
        _ => unreachable!(),
    }
}

/// The name of a prefix that is kept, after which nothing is.
pub fn take_prefix(kept: &mut Kept) -> Text
    requires { HoldsPrefix kept.old }
    ensures was { kept.old ≡ keeps.Prefix result }
    ensures now { kept.new ≡ keeps.Nothing }
{
    match mem::replace(kept, Kept::Nothing) {
        Kept::Prefix(name) => name,
        _ => unreachable!(),
    }
}
