//! How many triples are drawn of an axiom, counted before any is made.

ghost use Rattle.std.specs.Prelude.{◌≡◌, ◌<◌, ◌+◌, ◌-◌, ◌*◌, ◌∷◌, [], None, length};
ghost use Rattle.std.specs.List.{AllByRecursion};
ghost use Rattle.owl_arena.specs.Held.{tree_at};
ghost use Rattle.owl_tree.specs.Trees.{atom_in};
ghost use Rattle.rdf_meaning.specs.Rows.{axiom_rows};
ghost use Rattle.rdf_mapping.specs.Arenas.{kids_at, tags_at};
ghost use Rattle.rdf_mapping.specs.Drawing.{by_kids, form_of, is_pair, loop_by, row_for, singles};
ghost use Rattle.rdf_mapping.specs.Drawing.{statement_of};
ghost use Rattle.rdf_counts.specs.Counts.{Takes, drawn, is_left_out, kids_drawn, statement_drawn};

use owl_arena::{Arena, ExprId};
use owl_tree::Tag;
use rdf_mapping::{row_for, singles};
use rdf_meaning::{Part, Site, axiom_rows, node_rows};

/// Takes from `left` at most as many as there are triples of the nodes that are drawn
/// of the axiom, whatever its annotations are. None is left only where there are not
/// so many. Keys and chains of properties are not counted.
pub fn count_axiom(arena: &Arena, id: ExprId, left: u64) -> Option<u64>
    requires { id < length arena.now.trees }
    ensures { Takes left result (statement_drawn (statement_of (tree_at arena.now.trees id))) }
{
    match arena.kids(id) {
        [_notes, kids @ ..] => count_statement(arena, arena.tag(id), kids, id, left),
        [] => Some(left),
    }
}

/// So of an axiom with these kids behind its annotations.
fn count_statement(
    arena: &Arena,
    tag: Tag,
    kids: &[ExprId],
    above: ExprId,
    left: u64,
) -> Option<u64>
    requires held { above < length arena.now.trees }
    requires below { AllByRecursion (λ kid. kid < above) kids.now }
    ensures { Takes left result (statement_drawn
        (by_kids tag (kids_at arena.now.trees kids.now))) }
{
    match kids {
        [] => return Some(left),
        [kid] if is_pair(tag) => return count_loop(arena, tag, *kid, left),
        [_] => return Some(left),
        [_, _, ..] => {}
    }
    if is_left_out(tag) {
        return Some(left);
    }
    let Some(row) = row_for(axiom_rows(), tag, arena, kids) else {
        return Some(left);
    };
    let left = take_cells(row.parts, kids, left)?;
    count_kids(arena, kids, above, left)
}

/// So of an axiom whose set has one member.
fn count_loop(arena: &Arena, tag: Tag, kid: ExprId, left: u64) -> Option<u64>
    requires { kid < length arena.now.trees }
    ensures { Takes left result (statement_drawn (loop_by
        (row_for axiom_rows tag (tags_at arena.now.trees (kid ∷ kid ∷ [])))
        (form_of (tree_at arena.now.trees kid)))) }
{
    let Some(row) = row_for(axiom_rows(), tag, arena, &[kid, kid]) else {
        return Some(left);
    };
    let Site::LinkedBy(_) = row.site else {
        return Some(left);
    };
    count_tree(arena, kid, left)
}

/// Takes two for each cell of the list that a part takes, where one does.
fn take_cells(parts: &[Part], kids: &[ExprId], left: u64) -> Option<u64>
    ensures { Takes left result (2 * (length kids.now - singles parts.now)) }
{
    let cells = kids.len().saturating_sub(singles(parts)) as u64;
    left.checked_sub(cells)?.checked_sub(cells)
}

/// Takes one for each part of a node as well.
fn take_node(parts: &[Part], kids: &[ExprId], left: u64) -> Option<u64>
    ensures { Takes left result (length parts.now + 2 * (length kids.now - singles parts.now)) }
{
    take_cells(parts, kids, left.checked_sub(parts.len() as u64)?)
}

/// Takes what is drawn of a tree.
#[cycle(trees)]
fn count_tree(arena: &Arena, id: ExprId, left: u64) -> Option<u64>
    requires { id < length arena.now.trees }
    ensures { Takes left result (drawn (form_of (tree_at arena.now.trees id))) }
{
    match arena.atom(id) {
        Some(_) => Some(left),
        None => count_node(arena, id, left),
    }
}

/// Takes what is drawn of a tree that is no leaf.
#[cycle(trees)]
fn count_node(arena: &Arena, id: ExprId, left: u64) -> Option<u64>
    requires held { id < length arena.now.trees }
    requires node { atom_in (tree_at arena.now.trees id) ≡ None }
    ensures { Takes left result (drawn (form_of (tree_at arena.now.trees id))) }
{
    let tag = arena.tag(id);
    let kids = arena.kids(id);
    if tag == Tag::FacetPair {
        return Some(left);
    }
    let Some(row) = row_for(node_rows(), tag, arena, kids) else {
        return Some(left);
    };
    let left = take_node(row.parts, kids, left)?;
    count_kids(arena, kids, id, left)
}

/// Takes what is drawn of the kids of a tree.
#[cycle(trees)]
fn count_kids(arena: &Arena, kids: &[ExprId], above: ExprId, left: u64) -> Option<u64>
    requires held { above < length arena.now.trees }
    requires below { AllByRecursion (λ kid. kid < above) kids.now }
    ensures { Takes left result (kids_drawn (kids_at arena.now.trees kids.now)) }
{
    let mut remaining = left;
    let mut rest = kids;
    while let [kid, others @ ..] = rest {
        remaining = count_tree(arena, *kid, remaining)?;
        rest = others;
    }
    Some(remaining)
}

/// Whether the axiom is of properties and individuals alone, or has keys.
#[tactic(auto, unfolding(crate::specs::Counts::is_left_out))]
fn is_left_out(tag: Tag) -> bool
    ensures { result ≡ is_left_out tag }
{
    tag == Tag::HasKey
        || tag == Tag::SubObjectPropertyOf
        || tag == Tag::ObjectPropertyAssertion
        || tag == Tag::DataPropertyAssertion
        || tag == Tag::AnnotationAssertion
}

/// Whether the axiom is of a set of which two members make a triple.
#[tactic(auto, unfolding(rdf_mapping::specs::Drawing::is_pair))]
pub fn is_pair(tag: Tag) -> bool
    ensures { result ≡ is_pair tag }
{
    tag == Tag::EquivalentClasses
        || tag == Tag::DisjointClasses
        || tag == Tag::EquivalentObjectProperties
        || tag == Tag::DisjointObjectProperties
        || tag == Tag::InverseObjectProperties
        || tag == Tag::EquivalentDataProperties
        || tag == Tag::DisjointDataProperties
        || tag == Tag::SameIndividual
        || tag == Tag::DifferentIndividuals
}
