//! How trees are written.

ghost use Rattle.std.specs.Prelude.{◌≡◌, ◌<◌, ◌++◌, codes, IfOk, IsErrOf, OnOk, length};
ghost use Rattle.std.specs.Str.{chars};
ghost use Rattle.owl_arena.specs.Held.{tree_at};
ghost use Rattle.owl_tree.specs.Rows.{row_of};
ghost use Rattle.owl_tree.specs.Tags.{keyword_of};
ghost use Rattle.owl_writing.specs.Limits.{IsTooLong};
ghost use Rattle.owl_writing.specs.declared.fault.WriteFault.{WriteFault};
ghost use Rattle.fss_write.specs.Parts.{behind, has_parts, kids_parts_at, node_parts_at, node_text_at, parts_at, spacing};
ghost use Rattle.written_trees.specs.Written.{only_behind, repeated};
ghost use Rattle.fss_write.specs.Text.{bracketed, leaf_text, node_name, written_text};
ghost use Rattle.written_trees.specs.Atoms.{atom_text};

use owl_arena::{Arena, ExprId};
use owl_atom::Prefixes;
use owl_tree::{Atom, Tag};
use owl_writing::{Draft, WriteFault};
use written_trees::{add_atom, repeated};

/// What stands before the bracket of a node.
fn node_name(tag: Tag) -> &'static str
    ensures { chars result.now ≡ node_name tag }
{
    if tag.is_group() { "" } else { tag.keyword() }
}

/// Adds a space where some part stands before.
fn add_space(draft: &mut Draft, after_part: bool) -> Result<(), WriteFault>
    ensures ok { OnOk result (draft.new ≡ draft.old ++ spacing after_part) }
    ensures too_long { IsErrOf result WriteFault.TooLong → IsTooLong (draft.old ++ spacing after_part) }
{
    if after_part {
        draft.add_ascii(" ")
    } else {
        Ok(())
    }
}

/// Adds a leaf that stands in a node with the tag `within`.
#[tactic(auto, using(owl_characters::proofs::Utf8Laws::size_append))]
fn add_leaf(
    draft: &mut Draft,
    prefixes: &Prefixes,
    within: Tag,
    tag: Tag,
    atom: &Atom,
) -> Result<(), WriteFault>
    ensures ok { OnOk result (draft.new ≡ draft.old ++ leaf_text prefixes.now within tag atom.now) }
    ensures too_long { IsErrOf result WriteFault.TooLong → IsTooLong (draft.old ++ leaf_text prefixes.now within tag atom.now) }
{
    if within == Tag::Declaration {
        add_entity(draft, prefixes, tag, atom)
    } else {
        add_atom(draft, prefixes, atom)
    }
}

/// Adds an entity of a declaration, in the brackets of its keyword.
#[tactic(auto, using(owl_characters::proofs::Utf8Laws::size_append))]
fn add_entity(
    draft: &mut Draft,
    prefixes: &Prefixes,
    tag: Tag,
    atom: &Atom,
) -> Result<(), WriteFault>
    ensures ok { OnOk result (draft.new ≡ draft.old ++ bracketed (keyword_of tag) (atom_text prefixes.now atom.now)) }
    ensures too_long { IsErrOf result WriteFault.TooLong → IsTooLong (draft.old ++ bracketed (keyword_of tag) (atom_text prefixes.now atom.now)) }
{
    draft.add(tag.keyword())?;
    draft.add_ascii("(")?;
    add_atom(draft, prefixes, atom)?;
    draft.add_ascii(")")
}

/// Adds an annotation or an axiom.
pub fn add_item(
    draft: &mut Draft,
    arena: &Arena,
    prefixes: &Prefixes,
    id: ExprId,
) -> Result<(), WriteFault>
    requires { id < length arena.now.trees }
    ensures ok { OnOk result (draft.new ≡ draft.old ++ written_text prefixes.now (tree_at arena.now.trees id)) }
    ensures too_long { IsErrOf result WriteFault.TooLong → IsTooLong (draft.old ++ written_text prefixes.now (tree_at arena.now.trees id)) }
{
    add_parts(draft, arena, prefixes, arena.tag(id), false, id)?;
    Ok(())
}

/// Adds what stands before the kids of a node.
#[tactic(auto, using(owl_characters::proofs::Utf8Laws::size_append))]
fn open_node(draft: &mut Draft, tag: Tag) -> Result<(), WriteFault>
    ensures ok { OnOk result (draft.new ≡ draft.old ++ (node_name tag ++ codes "(")) }
    ensures too_long { IsErrOf result WriteFault.TooLong → IsTooLong (draft.old ++ (node_name tag ++ codes "(")) }
{
    draft.add(node_name(tag))?;
    draft.add_ascii("(")
}

/// Adds the parts of a tree that stands in a node with the tag `within`, behind some part or behind none, and tells
/// whether some part stands there now.
#[cycle(tree)]
#[tactic(auto, using(owl_characters::proofs::Utf8Laws::size_append))]
fn add_parts(
    draft: &mut Draft,
    arena: &Arena,
    prefixes: &Prefixes,
    within: Tag,
    after_part: bool,
    id: ExprId,
) -> Result<bool, WriteFault>
    requires { id < length arena.now.trees }
    ensures some { IfOk result (λ some. some ≡ has_parts after_part (parts_at prefixes.now arena.now.trees within id)) }
    ensures ok { OnOk result (draft.new ≡ draft.old ++ behind after_part (parts_at prefixes.now arena.now.trees within id)) }
    ensures too_long { IsErrOf result WriteFault.TooLong → IsTooLong (draft.old ++ behind after_part (parts_at prefixes.now arena.now.trees within id)) }
{
    let tag = arena.tag(id);
    match arena.atom(id) {
        Some(atom) => {
            add_space(draft, after_part)?;
            add_leaf(draft, prefixes, within, tag, atom)?;
            Ok(true)
        }
        None => add_node_parts(draft, arena, prefixes, after_part, id),
    }
}

/// The same of a node.
#[cycle(tree)]
#[tactic(auto, using(owl_characters::proofs::Utf8Laws::size_append))]
fn add_node_parts(
    draft: &mut Draft,
    arena: &Arena,
    prefixes: &Prefixes,
    after_part: bool,
    id: ExprId,
) -> Result<bool, WriteFault>
    requires { id < length arena.now.trees }
    ensures some { IfOk result (λ some. some ≡ has_parts after_part (node_parts_at prefixes.now arena.now.trees id)) }
    ensures ok { OnOk result (draft.new ≡ draft.old ++ behind after_part (node_parts_at prefixes.now arena.now.trees id)) }
    ensures too_long { IsErrOf result WriteFault.TooLong → IsTooLong (draft.old ++ behind after_part (node_parts_at prefixes.now arena.now.trees id)) }
{
    if arena.tag(id).is_bare() {
        return add_kids(draft, arena, prefixes, after_part, id);
    }
    add_space(draft, after_part)?;
    add_node(draft, arena, prefixes, id)?;
    Ok(true)
}

/// Adds a node with its brackets.
#[cycle(tree)]
#[tactic(auto, using(owl_characters::proofs::Utf8Laws::size_append))]
fn add_node(
    draft: &mut Draft,
    arena: &Arena,
    prefixes: &Prefixes,
    id: ExprId,
) -> Result<(), WriteFault>
    requires { id < length arena.now.trees }
    ensures ok { OnOk result (draft.new ≡ draft.old ++ node_text_at prefixes.now arena.now.trees id) }
    ensures too_long { IsErrOf result WriteFault.TooLong → IsTooLong (draft.old ++ node_text_at prefixes.now arena.now.trees id) }
{
    open_node(draft, arena.tag(id))?;
    add_kids(draft, arena, prefixes, false, id)?;
    draft.add_ascii(")")
}

/// Adds the parts of the kids of a node.
#[cycle(tree)]
fn add_kids(
    draft: &mut Draft,
    arena: &Arena,
    prefixes: &Prefixes,
    after_part: bool,
    id: ExprId,
) -> Result<bool, WriteFault>
    requires { id < length arena.now.trees }
    ensures some { IfOk result (λ some. some ≡ has_parts after_part (kids_parts_at prefixes.now arena.now.trees id)) }
    ensures ok { OnOk result (draft.new ≡ draft.old ++ behind after_part (kids_parts_at prefixes.now arena.now.trees id)) }
    ensures too_long { IsErrOf result WriteFault.TooLong → IsTooLong (draft.old ++ behind after_part (kids_parts_at prefixes.now arena.now.trees id)) }
{
    let tag = arena.tag(id);
    let kids = arena.kids(id);
    let mut after_part = after_part;
    for kid in kids {
        after_part = add_parts(draft, arena, prefixes, tag, after_part, *kid)?;
    }
    match repeated(tag, kids) {
        Some(kid) => add_parts(draft, arena, prefixes, tag, after_part, kid),
        None => Ok(after_part),
    }
}
