//! What is told of axioms and imports that are added, and what they count.

use owl_arena::{Arena, ExprId};
use owl_atom::{Iri, Prefixes};
use owl_doc::{AddFault, Builder, Counts, Doc};
use owl_tree::{Atom, Tag};
use std::alloc::Global;
use std::test::Fail;

/// Nothing yet, and no prefixes.
fn begun(alloc: Global) -> Builder {
    Builder::new(alloc, Prefixes::empty(alloc), Arena::new(alloc))
}

fn iri(alloc: Global) -> Result<Iri, Fail> {
    Ok(Iri::of(alloc, "http://e/A")?)
}

fn class(alloc: Global, builder: &mut Builder) -> Result<ExprId, Fail> {
    let iri = iri(alloc)?;
    Ok(builder.leaf(Tag::Class, Atom::Iri(iri))?)
}

/// A node over numbers of the arena.
fn node(alloc: Global, builder: &mut Builder, tag: Tag, ids: &[ExprId]) -> Result<ExprId, Fail> {
    let mut kids = Vec::new(alloc);
    for id in ids {
        if !builder.arena().holds(*id) {
            return Err(Fail::new("a number of another arena"));
        }
        kids.push(*id)?;
    }
    Ok(builder.node(tag, kids)?)
}

/// The declaration of a class, for whose three trees memory is taken.
fn declaration(alloc: Global, builder: &mut Builder) -> Result<ExprId, Fail> {
    builder.reserve(3)?;
    let notes = node(alloc, builder, Tag::Notes, &[])?;
    let class = class(alloc, builder)?;
    node(alloc, builder, Tag::Declaration, &[notes, class])
}

/// What comes of an axiom with a number of the arena.
fn add(builder: &mut Builder, id: ExprId) -> Result<Result<bool, AddFault>, Fail> {
    if !builder.arena().holds(id) {
        return Err(Fail::new("a number of another arena"));
    }
    Ok(builder.add(id))
}

/// What comes of an axiom, of the same axiom, and of a class.
fn add_axioms(alloc: Global, builder: &mut Builder) -> Result<[Result<bool, AddFault>; 3], Fail> {
    let axiom = declaration(alloc, builder)?;
    let first = add(builder, axiom)?;
    let second = add(builder, axiom)?;
    let class = class(alloc, builder)?;
    Ok([first, second, add(builder, class)?])
}

fn axioms_added(alloc: Global) -> Result<[Result<bool, AddFault>; 3], Fail> {
    let mut builder = begun(alloc);
    add_axioms(alloc, &mut builder)
}

#[test]
fn an_axiom_is_new_once_and_a_class_is_none(rt: HostRuntime) -> Result<(), Fail> {
    assert_eq!(rt;
        axioms_added(rt.alloc())?,
        [Ok(true), Ok(false), Err(AddFault::WrongTag)]
    );
    Ok(())
}

/// Adds a declaration, and an import twice.
fn fill(alloc: Global, builder: &mut Builder) -> Result<(), Fail> {
    let axiom = declaration(alloc, builder)?;
    let _added = add(builder, axiom)?;
    builder.import(iri(alloc)?)?;
    Ok(builder.import(iri(alloc)?)?)
}

/// How many imports a document has, and what it counts.
fn told(alloc: Global, doc: &Doc) -> Result<(usize, Counts), Fail> {
    Ok((doc.head().imports.len(), doc.counts(alloc)?))
}

fn document_told(alloc: Global) -> Result<(usize, Counts), Fail> {
    let mut builder = begun(alloc);
    fill(alloc, &mut builder)?;
    told(alloc, &builder.finish())
}

#[test]
fn a_declaration_is_counted_and_an_import_is_one(rt: HostRuntime) -> Result<(), Fail> {
    let counts = Counts {
        axioms: 1,
        distinct: 3,
        weight: 3,
    };
    assert_eq!(rt; document_told(rt.alloc())?, (1, counts));
    Ok(())
}
