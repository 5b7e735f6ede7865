//! Declarations that are made in an arena.

ghost use Rattle.std.specs.Prelude.{◌≡◌, ◌++◌, IfErr, IfOk, OnOk, map};
ghost use Rattle.owl_arena.specs.Held.{AreHeld, trees_at};
ghost use Rattle.owl_declarations.specs.Declarations.{declaration, name_tag};
ghost use Rattle.owl_tree.specs.declared.atom.Atom.TheVariants as atom;
ghost use Rattle.owl_tree.specs.Shape.{IsShaped};
ghost use Rattle.owl_tree.specs.Trees.{leaf};
ghost use Rattle.rdf_normal.specs.declared.fault.NormFault.{NormFault};
ghost use Rattle.rdf_normal.specs.Makings.{AreMade, IsMade};

use owl_arena::{Arena, ExprId, Grow};
use owl_atom::Iri;
use owl_kind::Kind;
use owl_tree::{Atom, Tag};
use rdf_normal::{NormFault, make};
use std::alloc::{AllocError, Global};

/// The axioms, and behind them the declarations of the IRIs as this kind.
pub fn declare_all(
    alloc: Global,
    arena: &mut Arena,
    kind: Kind,
    iris: &[Iri],
    axioms: &[ExprId],
) -> Result<Vec<ExprId>, NormFault>
    requires { AreHeld arena.old.trees axioms.now }
    ensures made { IfOk result (λ made. AreMade arena.old.trees arena.new.trees made.items
        (trees_at arena.old.trees axioms.now ++ map (declaration kind) iris.now)) }
    ensures memory { IfErr result (λ fault. fault ≡ NormFault.Memory) }
{
    let mut made = Vec::from_slice(alloc, axioms)?;
    'iris: for iri in iris {
        let id = declaration(alloc, arena, kind, iri.copy(alloc)?)?;
        made.push(id).map_err(AllocError::from)?;
    }
    Ok(made)
}

/// The number of the declaration of the IRI as this kind, without annotations.
pub fn declaration(
    alloc: Global,
    arena: &mut Arena,
    kind: Kind,
    iri: Iri,
) -> Result<ExprId, NormFault>
    ensures made { IfOk result (λ id.
        IsMade arena.old.trees arena.new.trees id (declaration kind iri)) }
    ensures memory { IfErr result (λ fault. fault ≡ NormFault.Memory) }
{
    let name = name(arena, kind, iri)?;
    // What every arena holds is canonical.
    let _trees = arena.distinct();
    let notes = make(arena, Tag::Notes, Vec::new(alloc))?;
    let kids = Vec::from_slice(alloc, &[notes, name])?;
    make(arena, Tag::Declaration, kids)
}

/// The number of the name that an entity of this kind has by the IRI.
fn name(arena: &mut Arena, kind: Kind, iri: Iri) -> Result<ExprId, NormFault>
    ensures made { IfOk result (λ id. IsMade arena.old.trees arena.new.trees id
        (leaf (name_tag kind) (atom.Iri iri))) }
    ensures memory { IfErr result (λ fault. fault ≡ NormFault.Memory) }
{
    let atom = Atom::Iri(iri);
    // What it holds is an IRI.
    atom.made();
    add_leaf(arena, name_tag(kind), atom)
}

/// The number of the leaf.
fn add_leaf(arena: &mut Arena, tag: Tag, atom: Atom) -> Result<ExprId, NormFault>
    requires { IsShaped (leaf tag atom) }
    ensures made { IfOk result (λ id. IsMade arena.old.trees arena.new.trees id (leaf tag atom)) }
    ensures memory { IfErr result (λ fault. fault ≡ NormFault.Memory) }
{
    match arena.leaf(tag, atom) {
        Ok(id) => Ok(id),
        Err(Grow::Memory) => Err(NormFault::Memory),
        Err(Grow::TooMany) => Err(NormFault::Memory),
        Err(Grow::BadShape) => unreachable!(),
        Err(Grow::TooDeep) => unreachable!(),
        Err(Grow::TooHeavy) => unreachable!(),
    }
}

/// The tag of the name of an entity of this kind.
fn name_tag(kind: Kind) -> Tag
    ensures { result ≡ name_tag kind }
{
    match kind {
        Kind::Class => Tag::Class,
        Kind::Datatype => Tag::Datatype,
        Kind::ObjectProperty => Tag::ObjectProperty,
        Kind::DataProperty => Tag::DataProperty,
        Kind::AnnotationProperty => Tag::AnnotationProperty,
        Kind::Individual => Tag::NamedIndividual,
    }
}
