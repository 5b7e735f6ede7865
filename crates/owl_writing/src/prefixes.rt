//! The table of prefixes that stands in a text.

ghost use Rattle.std.specs.Prelude.{◌≡◌, IfOk, OnOk};
ghost use Rattle.std.specs.Str.{chars};
ghost use Rattle.owl_characters.specs.Names.{IsPrefixName};
ghost use Rattle.owl_writing.specs.Tables.{with_prefix, written_prefixes};

use owl_atom::{Iri, Prefixes};
use owl_characters::NoMemory;
use std::alloc::Global;

/// The prefixes that are written: those of a table, where `owl`, `rdf`, `rdfs` and `xsd` stand for their own IRIs.
///
/// It shortens IRIs by their index (`Prefixes::order_by_iri`). Refused only where memory runs out.
pub fn written_prefixes(alloc: Global, prefixes: &Prefixes) -> Result<Prefixes, NoMemory>
    ensures { IfOk result (λ written. written ≡ written_prefixes prefixes.now) }
{
    let fixed = Prefixes::fixed(alloc)?;
    let mut written = prefixes.copy(alloc)?;
    for place in 0..fixed.len() {
        let (name, iri) = fixed.at(place);
        set_iri(&mut written, name, iri.copy(alloc)?)?;
    }
    // Each name of the document is shortened by this table.
    written.order_by_iri()?;
    Ok(written)
}

/// Gives a name this IRI.
fn set_iri(prefixes: &mut Prefixes, name: &str, iri: Iri) -> Result<(), NoMemory>
    requires { IsPrefixName (chars name.now) }
    ensures { OnOk result (prefixes.new ≡ with_prefix (chars name.now) iri prefixes.old) }
{
    // The names of a table ascend, before and after.
    prefixes.len();
    prefixes.set(name, iri)?;
    prefixes.len();
    Ok(())
}
