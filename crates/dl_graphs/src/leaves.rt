//! What the leaves of an arena hold.

ghost use Rattle.std.specs.Prelude.{◌≡◌, ◌<◌, length};
ghost use Rattle.std.specs.Option.{option_map};
ghost use Rattle.dl_rules.specs.Definitions.{datatype_in};
ghost use Rattle.dl_rules.specs.Local.{literal_in};
ghost use Rattle.owl_arena.specs.Held.{tree_at};
ghost use Rattle.dl_graphs.specs.Ranges.{datatype_of, used_in};

use dl_rules::iri_at;
use owl_arena::{Arena, ExprId};
use owl_tree::{Atom, Tag};
use rdf_terms::Iri;

/// The datatype that the leaf names, if it names one.
pub fn datatype_at<'a>(arena: &'a Arena, id: ExprId) -> Option<&'a Iri>
    requires { id < length arena.now.trees }
    ensures { option_map (λ iri. iri.now) result ≡ datatype_in (tree_at arena.now.trees id) }
{
    if arena.tag(id) == Tag::Datatype {
        iri_at(arena, id)
    } else {
        None
    }
}

/// The datatype that the leaf names, or that of the literal that it holds, if
/// there is one.
pub fn used_datatype<'a>(arena: &'a Arena, id: ExprId) -> Option<&'a Iri>
    requires { id < length arena.now.trees }
    ensures { option_map (λ iri. iri.now) result ≡ used_in (tree_at arena.now.trees id) }
{
    match datatype_at(arena, id) {
        Some(iri) => Some(iri),
        None => literal_datatype(arena, id),
    }
}

/// The datatype of the literal that the leaf holds, if it holds one.
fn literal_datatype<'a>(arena: &'a Arena, id: ExprId) -> Option<&'a Iri>
    requires { id < length arena.now.trees }
    ensures { option_map (λ iri. iri.now) result
        ≡ datatype_of (literal_in (tree_at arena.now.trees id)) }
{
    match arena.atom(id) {
        Some(Atom::Literal(literal)) => Some(literal.datatype()),
        _ => None,
    }
}
