//! Declarations that are made in an arena.

ghost use Rattle.std.specs.Prelude.{◌≡◌, ◌<◌, ◌∷◌, [], ◌++◌, IfErr, IfOk, OnOk, length};
ghost use Rattle.man_resolve.specs.Expressions.{knows};
ghost use Rattle.man_sayable.specs.FrameKinds.{frame_kind};
ghost use Rattle.man_text.specs.Blocks.{declared_name, kind_tag, subject_as};
ghost use Rattle.owl_arena.specs.Held.{AreHeld, tree_at, trees_at};
ghost use Rattle.owl_tree.specs.declared.atom.Atom.TheVariants as atom;
ghost use Rattle.owl_tree.specs.declared.tag.Tag.TheVariants as tag;
ghost use Rattle.owl_tree.specs.Shape.{IsShaped};
ghost use Rattle.owl_tree.specs.Trees.{kids_of, leaf, no_kids, node};
ghost use Rattle.rdf_normal.specs.declared.fault.NormFault.{NormFault};
ghost use Rattle.rdf_normal.specs.Makings.{AreMade, IsMade};

use man_sayable::frame_kind;
use owl_arena::{Arena, ExprId, Grow};
use owl_atom::Iri;
use owl_kind::{Kind, Kinds};
use owl_tree::{Atom, Sort, Tag};
use rdf_normal::{NormFault, make};
use std::alloc::{AllocError, Global};

/// Puts the declaration of the tree behind the others, where it is the name of an
/// entity.
pub fn declare(
    alloc: Global,
    arena: &mut Arena,
    name: ExprId,
    made: &mut Vec<ExprId>,
) -> Result<(), NormFault>
    requires name { name < length arena.old.trees }
    requires held { AreHeld arena.old.trees made.old.items }
    ensures made { OnOk result (AreMade arena.old.trees arena.new.trees made.new.items
        (trees_at arena.old.trees made.old.items
        ++ declared_name (tree_at arena.old.trees name))) }
    ensures memory { IfErr result (λ fault. fault ≡ NormFault.Memory) }
{
    // What every arena holds is shaped.
    let _trees = arena.distinct();
    if !Sort::Entity.admits(arena.tag(name)) {
        return Ok(());
    }
    let id = declaration(alloc, arena, name)?;
    Ok(made.push(id).map_err(AllocError::from)?)
}

/// The number of the declaration of the name.
fn declaration(alloc: Global, arena: &mut Arena, name: ExprId) -> Result<ExprId, NormFault>
    requires { name < length arena.old.trees }
    ensures made { IfOk result (λ id. IsMade arena.old.trees arena.new.trees id (node
        tag.Declaration (kids_of (node tag.Notes no_kids ∷ tree_at arena.old.trees name ∷ [])))) }
    ensures memory { IfErr result (λ fault. fault ≡ NormFault.Memory) }
{
    // What every arena holds is canonical.
    let _trees = arena.distinct();
    let notes = make(arena, Tag::Notes, Vec::new(alloc))?;
    let kids = Vec::from_slice(alloc, &[notes, name])?;
    make(arena, Tag::Declaration, kids)
}

/// Puts the declaration of the IRI behind the others, as the first of the kinds of
/// frames that it has.
pub fn declare_iri(
    alloc: Global,
    arena: &mut Arena,
    kinds: &Kinds,
    iri: Iri,
    made: &mut Vec<ExprId>,
) -> Result<(), NormFault>
    requires { AreHeld arena.old.trees made.old.items }
    ensures made { OnOk result (AreMade arena.old.trees arena.new.trees made.new.items
        (trees_at arena.old.trees made.old.items
        ++ declared_name (subject_as (frame_kind (knows kinds.now) iri) iri))) }
    ensures memory { IfErr result (λ fault. fault ≡ NormFault.Memory) }
{
    match frame_kind(kinds, &iri) {
        Some(kind) => {
            let name = name(arena, kind, iri)?;
            declare(alloc, arena, name, made)
        }
        None => Ok(()),
    }
}

/// The number of the name that an entity of this kind has by the IRI.
fn name(arena: &mut Arena, kind: Kind, iri: Iri) -> Result<ExprId, NormFault>
    ensures made { IfOk result (λ id. IsMade arena.old.trees arena.new.trees id
        (leaf (kind_tag kind) (atom.Iri iri))) }
    ensures memory { IfErr result (λ fault. fault ≡ NormFault.Memory) }
{
    let atom = Atom::Iri(iri);
    // What it holds is an IRI.
    atom.made();
    add_leaf(arena, kind_tag(kind), atom)
}

/// The number of the leaf.
fn add_leaf(arena: &mut Arena, tag: Tag, atom: Atom) -> Result<ExprId, NormFault>
    requires { IsShaped (leaf tag atom) }
    ensures made { IfOk result (λ id. IsMade arena.old.trees arena.new.trees id (leaf tag atom)) }
    ensures memory { IfErr result (λ fault. fault ≡ NormFault.Memory) }
{
    match arena.leaf(tag, atom) {
        Ok(id) => Ok(id),
        Err(Grow::Memory) => Err(NormFault::Memory),
        Err(Grow::TooMany) => Err(NormFault::Memory),
        Err(Grow::BadShape) => unreachable!(),
        Err(Grow::TooDeep) => unreachable!(),
        Err(Grow::TooHeavy) => unreachable!(),
    }
}

/// The tag of the name of an entity of this kind.
fn kind_tag(kind: Kind) -> Tag
    ensures { result ≡ kind_tag kind }
{
    match kind {
        Kind::Class => Tag::Class,
        Kind::Datatype => Tag::Datatype,
        Kind::ObjectProperty => Tag::ObjectProperty,
        Kind::DataProperty => Tag::DataProperty,
        Kind::AnnotationProperty => Tag::AnnotationProperty,
        Kind::Individual => Tag::NamedIndividual,
    }
}
