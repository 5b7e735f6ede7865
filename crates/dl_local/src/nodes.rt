//! The faults of single nodes.

ghost use Rattle.std.specs.Prelude.{◌≡◌, ◌<◌, ◌∷◌, ◌↔◌, [], None, Some, IsTrue, false, length, slice_index_or};
ghost use Rattle.std.specs.List.{list_any};
ghost use Rattle.std.specs.Option.{option_map};
ghost use Rattle.dl_local.specs.Faults.{AreCompositeMarks, AreOwnFaults};
ghost use Rattle.dl_rules.specs.Local.{AsksSimple, HasAnonymousKid, asks_named, facet_in, is_off, restricts_wrongly};
ghost use Rattle.dl_rules.specs.Logical.{iri_in};
ghost use Rattle.dl_rules.specs.Properties.{asks_simple};
ghost use Rattle.owl_arena.specs.Held.{AreHeld, tree_at, trees_at};
ghost use Rattle.owl_breaches.specs.Sites.{Ontologies, axiom_closure};
ghost use Rattle.owl_tree.specs.declared.tag.Tag.TheVariants as tag;
ghost use Rattle.owl_tree.specs.Rows.{is_tag};
ghost use Rattle.owl_tree.specs.Trees.{atom_in, tag_of};

use crate::faults::LocalFaults;
use dl_rules::iri_at;
use graph_walks::has_mark;
use owl_arena::{Arena, ExprId};
use owl_tree::Tag;
use rdf_terms::{Iri, facet_ok};

/// The faults of a node itself, where the properties that are not simple are marked by
/// their places.
pub fn node_faults(arena: &Arena, id: ExprId, composite: &[bool]) -> LocalFaults
    requires id { id < length arena.now.trees }
    requires node { None ≡ atom_in (tree_at arena.now.trees id) }
    ensures { (c : Ontologies) → AreCompositeMarks c arena.now.trees composite.now
        → AreOwnFaults c (tree_at arena.now.trees id) result }
{
    LocalFaults {
        undeclared: false,
        misnamed: false,
        datatype: false,
        form: false,
        range: restricts_wrongly(arena, arena.tag(id), arena.kids(id)),
        top_data: false,
        not_simple: has_composite_kid(arena, id, composite),
        anonymous: has_anonymous_kid(arena, id),
    }
}

/// Whether a tree with this tag and these kids is a restriction with a facet that its
/// datatype doesn't have, or over more than one data property.
#[tactic(auto, unfolding(dl_rules::specs::Local::restricts_wrongly), using(crate::proofs::OwnLaws::other_restriction))]
fn restricts_wrongly(arena: &Arena, tag: Tag, kids: &[ExprId]) -> bool
    requires { AreHeld arena.now.trees kids.now }
    ensures { result ≡ restricts_wrongly tag (trees_at arena.now.trees kids.now) }
{
    match tag {
        Tag::DatatypeRestriction => has_wrong_facet(arena, kids),
        Tag::DataSomeValuesFrom | Tag::DataAllValuesFrom => 3 <= kids.len(),
        _ => false,
    }
}

/// Whether a restriction of a datatype with these kids has a facet that the datatype
/// doesn't have.
fn has_wrong_facet(arena: &Arena, kids: &[ExprId]) -> bool
    requires { AreHeld arena.now.trees kids.now }
    ensures { result
        ≡ restricts_wrongly tag.DatatypeRestriction (trees_at arena.now.trees kids.now) }
{
    match kids {
        [datatype, facets @ ..] => is_off(arena, *datatype, facets),
        [] => false,
    }
}

/// Whether some of these facets is none of the datatype.
fn is_off(arena: &Arena, datatype: ExprId, facets: &[ExprId]) -> bool
    requires datatype { datatype < length arena.now.trees }
    requires facets { AreHeld arena.now.trees facets.now }
    ensures { result ≡ is_off (iri_in (tree_at arena.now.trees datatype))
        (trees_at arena.now.trees facets.now) }
{
    match iri_at(arena, datatype) {
        Some(datatype) => lacks_one(arena, datatype, facets),
        None => false,
    }
}

/// Whether the datatype lacks some of these facets.
fn lacks_one(arena: &Arena, datatype: &Iri, facets: &[ExprId]) -> bool
    requires { AreHeld arena.now.trees facets.now }
    ensures { result ≡ list_any
        (λ pair. is_off (Some datatype.now) (tree_at arena.now.trees pair ∷ [])) facets.now }
{
    'facets: for pair in facets {
        if lacks(arena, datatype, *pair) {
            return true;
        }
    }
    false
}

/// Whether the datatype lacks the facet of this pair.
fn lacks(arena: &Arena, datatype: &Iri, pair: ExprId) -> bool
    requires { pair < length arena.now.trees }
    ensures { result ≡ is_off (Some datatype.now) (tree_at arena.now.trees pair ∷ []) }
{
    match facet_at(arena, pair) {
        Some(facet) => !facet_ok(datatype, facet),
        None => false,
    }
}

/// The facet of this pair.
fn facet_at(arena: &Arena, pair: ExprId) -> Option<&Iri>
    requires { pair < length arena.now.trees }
    ensures { option_map (λ iri. iri.now) result ≡ facet_in (tree_at arena.now.trees pair) }
{
    match arena.kids(pair) {
        [facet, ..] => iri_at(arena, *facet),
        [] => None,
    }
}

/// Whether a property that is not simple is a kid of the tree, where it has to be
/// simple (Structural Specification, section 11.2).
fn has_composite_kid(arena: &Arena, id: ExprId, composite: &[bool]) -> bool
    requires { id < length arena.now.trees }
    ensures { (c : Ontologies) → AreCompositeMarks c arena.now.trees composite.now
        → IsTrue result ↔ AsksSimple (axiom_closure c) (tree_at arena.now.trees id) }
{
    asks_simple(arena.tag(id)) && some_marked(composite, arena.kids(id))
}

/// Whether some of these places has a mark.
fn some_marked(marks: &[bool], ids: &[ExprId]) -> bool
    ensures { result ≡ list_any (λ id. slice_index_or marks.now id false) ids.now }
{
    ids.iter().any(|id| has_mark(marks, id.place()))
}

/// Whether properties have to be simple as kids of a tree with this tag.
#[tactic(auto, unfolding(dl_rules::specs::Properties::asks_simple))]
fn asks_simple(tag: Tag) -> bool
    ensures { result ≡ asks_simple tag }
{
    matches!(
        tag,
        Tag::ObjectMinCardinality
            | Tag::ObjectMaxCardinality
            | Tag::ObjectExactCardinality
            | Tag::ObjectHasSelf
            | Tag::FunctionalObjectProperty
            | Tag::InverseFunctionalObjectProperty
            | Tag::IrreflexiveObjectProperty
            | Tag::AsymmetricObjectProperty
            | Tag::DisjointObjectProperties
    )
}

/// Whether an anonymous individual is a kid of the tree, where it has to be named
/// (Structural Specification, section 11.2).
fn has_anonymous_kid(arena: &Arena, id: ExprId) -> bool
    requires { id < length arena.now.trees }
    ensures { IsTrue result ↔ HasAnonymousKid (tree_at arena.now.trees id) }
{
    asks_named(arena.tag(id)) && some_anonymous(arena, arena.kids(id))
}

/// Whether some of these trees is an anonymous individual.
fn some_anonymous(arena: &Arena, ids: &[ExprId]) -> bool
    requires { AreHeld arena.now.trees ids.now }
    ensures { result ≡ list_any
        (λ id. is_tag tag.Anonymous (tag_of (tree_at arena.now.trees id))) ids.now }
{
    'ids: for id in ids {
        if arena.tag(*id) == Tag::Anonymous {
            return true;
        }
    }
    false
}

/// Whether individuals have to be named as kids of a tree with this tag.
#[tactic(auto, unfolding(dl_rules::specs::Local::asks_named))]
fn asks_named(tag: Tag) -> bool
    ensures { result ≡ asks_named tag }
{
    matches!(
        tag,
        Tag::SameIndividual
            | Tag::DifferentIndividuals
            | Tag::NegativeObjectPropertyAssertion
            | Tag::NegativeDataPropertyAssertion
            | Tag::ObjectOneOf
            | Tag::ObjectHasValue
    )
}
