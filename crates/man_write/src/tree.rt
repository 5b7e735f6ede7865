//! How trees are written.

ghost use Rattle.std.specs.Prelude.{◌≡◌, ◌<◌, ◌++◌, codes, IsErrOf, OnOk, length};
ghost use Rattle.man_text.specs.Text.{leaf_text};
ghost use Rattle.man_text.specs.Undecided.{leaf_what};
ghost use Rattle.man_text.specs.Words.{facet_text};
ghost use Rattle.owl_arena.specs.Held.{tree_at};
ghost use Rattle.owl_tree.specs.Trees.{tag_of};
ghost use Rattle.owl_writing.specs.Limits.{IsTooLong};
ghost use Rattle.owl_writing.specs.declared.fault.WriteFault.{WriteFault};
ghost use Rattle.man_write.specs.Parts.{around_at, gap, is_operand_bracketed, joined_from, node_at, operand_at, operands_at, said_at, words_seen};

use crate::listed::written;
use crate::words::{Around, add_gap, facet_word, form_of, is_bracketed, is_counted, words_of};
use man_sayable::facet_named;
use owl_arena::{Arena, ExprId};
use owl_atom::Prefixes;
use owl_tree::{Atom, Tag};
use owl_writing::{Draft, WriteFault};
use written_trees::add_atom;

/// Adds a leaf: a facet by its word or sign, and all else by what it holds.
#[tactic(auto, unfolding(man_text::specs::Undecided::leaf_what))]
fn add_leaf(draft: &mut Draft, prefixes: &Prefixes, tag: Tag, atom: &Atom) -> Result<(), WriteFault>
    ensures ok { OnOk result (draft.new ≡ draft.old ++ leaf_text prefixes.now
        (leaf_what tag atom.now)) }
    ensures too_long { IsErrOf result WriteFault.TooLong
        → IsTooLong (draft.old ++ leaf_text prefixes.now (leaf_what tag atom.now)) }
{
    match (tag, atom) {
        (Tag::Facet, Atom::Iri(iri)) => match facet_named(iri) {
            Some(facet) => draft.add(facet_word(facet)),
            None => add_atom(draft, prefixes, atom),
        },
        _ => add_atom(draft, prefixes, atom),
    }
}

/// Adds a tree.
#[cycle(tree)]
pub fn add_tree(
    draft: &mut Draft,
    arena: &Arena,
    prefixes: &Prefixes,
    id: ExprId,
) -> Result<(), WriteFault>
    requires { id < length arena.now.trees }
    ensures ok { OnOk result (draft.new ≡ draft.old ++ said_at prefixes.now arena.now.trees id) }
    ensures too_long { IsErrOf result WriteFault.TooLong
        → IsTooLong (draft.old ++ said_at prefixes.now arena.now.trees id) }
{
    match arena.atom(id) {
        Some(atom) => add_leaf(draft, prefixes, arena.tag(id), atom),
        None => add_node(draft, arena, prefixes, id),
    }
}

/// Adds an operand, in brackets where it needs them.
#[cycle(tree)]
fn add_operand(
    draft: &mut Draft,
    arena: &Arena,
    prefixes: &Prefixes,
    id: ExprId,
) -> Result<(), WriteFault>
    requires { id < length arena.now.trees }
    ensures ok { OnOk result (draft.new ≡ draft.old ++ operand_at prefixes.now arena.now.trees id) }
    ensures too_long { IsErrOf result WriteFault.TooLong
        → IsTooLong (draft.old ++ operand_at prefixes.now arena.now.trees id) }
{
    if is_operand_bracketed(arena, id) {
        add_bracketed(draft, arena, prefixes, id)
    } else {
        add_tree(draft, arena, prefixes, id)
    }
}

/// Adds a tree in brackets.
#[cycle(tree)]
#[tactic(auto, using(owl_characters::proofs::Utf8Laws::size_append))]
fn add_bracketed(
    draft: &mut Draft,
    arena: &Arena,
    prefixes: &Prefixes,
    id: ExprId,
) -> Result<(), WriteFault>
    requires { id < length arena.now.trees }
    ensures ok { OnOk result (draft.new ≡ draft.old
        ++ (codes "(" ++ (said_at prefixes.now arena.now.trees id ++ codes ")"))) }
    ensures too_long { IsErrOf result WriteFault.TooLong → IsTooLong (draft.old
        ++ (codes "(" ++ (said_at prefixes.now arena.now.trees id ++ codes ")"))) }
{
    draft.add_ascii("(")?;
    add_tree(draft, arena, prefixes, id)?;
    draft.add_ascii(")")
}

/// Whether a tree stands in brackets where it is an operand.
fn is_operand_bracketed(arena: &Arena, id: ExprId) -> bool
    requires { id < length arena.now.trees }
    ensures { result ≡ is_operand_bracketed (tree_at arena.now.trees id) }
{
    arena.atom(id).is_none() && is_bracketed(form_of(arena.tag(id)))
}

/// Adds a node: the operands, with words around them. Of none nothing is added.
#[cycle(tree)]
fn add_node(
    draft: &mut Draft,
    arena: &Arena,
    prefixes: &Prefixes,
    id: ExprId,
) -> Result<(), WriteFault>
    requires { id < length arena.now.trees }
    ensures ok { OnOk result (draft.new ≡ draft.old ++ node_at prefixes.now arena.now.trees id) }
    ensures too_long { IsErrOf result WriteFault.TooLong
        → IsTooLong (draft.old ++ node_at prefixes.now arena.now.trees id) }
{
    if written(arena, id).len() == 0 {
        Ok(())
    } else {
        add_words_around(draft, arena, prefixes, id)
    }
}

/// Adds the operands of a node, with words around them.
#[cycle(tree)]
#[tactic(auto, using(owl_characters::proofs::Utf8Laws::size_append))]
fn add_words_around(
    draft: &mut Draft,
    arena: &Arena,
    prefixes: &Prefixes,
    id: ExprId,
) -> Result<(), WriteFault>
    requires { id < length arena.now.trees }
    ensures ok { OnOk result (draft.new ≡ draft.old ++ around_at prefixes.now arena.now.trees id) }
    ensures too_long { IsErrOf result WriteFault.TooLong
        → IsTooLong (draft.old ++ around_at prefixes.now arena.now.trees id) }
{
    let words = words_of(form_of(arena.tag(id)));
    draft.add(words.front)?;
    add_operands(draft, arena, prefixes, words, id)?;
    draft.add(words.last)
}

/// Adds the operands of a node, with these words between them.
#[cycle(tree)]
pub fn add_operands(
    draft: &mut Draft,
    arena: &Arena,
    prefixes: &Prefixes,
    words: Around,
    id: ExprId,
) -> Result<(), WriteFault>
    requires { id < length arena.now.trees }
    ensures ok { OnOk result (draft.new ≡ draft.old
        ++ joined_from (words_seen words) 0 (operands_at prefixes.now arena.now.trees id)) }
    ensures too_long { IsErrOf result WriteFault.TooLong → IsTooLong (draft.old
        ++ joined_from (words_seen words) 0 (operands_at prefixes.now arena.now.trees id)) }
{
    let counted = is_counted(form_of(arena.tag(id)));
    let list = written(arena, id);
    for place in 0..list.len() {
        add_part(
            draft,
            arena,
            prefixes,
            words,
            place,
            list.turned_at(counted, place),
        )?;
    }
    Ok(())
}

/// Adds the operand at this place, and what stands in front of it.
#[cycle(tree)]
#[tactic(auto, using(owl_characters::proofs::Utf8Laws::size_append))]
fn add_part(
    draft: &mut Draft,
    arena: &Arena,
    prefixes: &Prefixes,
    words: Around,
    place: usize,
    id: ExprId,
) -> Result<(), WriteFault>
    requires { id < length arena.now.trees }
    ensures ok { OnOk result (draft.new ≡ draft.old
        ++ (gap (words_seen words) place ++ operand_at prefixes.now arena.now.trees id)) }
    ensures too_long { IsErrOf result WriteFault.TooLong → IsTooLong (draft.old
        ++ (gap (words_seen words) place ++ operand_at prefixes.now arena.now.trees id)) }
{
    add_gap(draft, words, place)?;
    add_operand(draft, arena, prefixes, id)
}
