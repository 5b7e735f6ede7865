//! What is written of small ontologies.

use owl_arena::{Arena, ExprId};
use owl_atom::{Iri, Prefixes};
use owl_canon::{digest_text, write};
use owl_doc::{Builder, Doc};
use owl_tree::{Atom, Tag};
use std::alloc::Global;
use std::test::Fail;

/// The bytes of Ontology(Declaration(Class(<a:b>))).
const DECLARED: &[u8] =
    b"OWL2C1\n\0\0\0\0\0\0\0\0\0\0\0\0\0\0\0\0\0\0\0\0\0\0\0\0\0\x01\x29\0\0\0\0\0\0\0\x02\x28\0\0\0\0\0\0\0\0\x01\0\0\0\0\0\0\0\x03a:b";

/// Its digest, as another program computes it.
const DIGEST: &str = "895e97c9e8a666db008eee6fa82ab5920c49b95abc08d67a28c809861b5d5e3c";

/// A node over numbers of the arena.
fn node(alloc: Global, builder: &mut Builder, tag: Tag, ids: &[ExprId]) -> Result<ExprId, Fail> {
    let mut kids = Vec::new(alloc);
    for id in ids {
        if !builder.arena().holds(*id) {
            return Err(Fail::new("a number of another arena"));
        }
        kids.push(*id)?;
    }
    Ok(builder.node(tag, kids)?)
}

/// Adds the declaration of the class a:b.
fn declare(alloc: Global, builder: &mut Builder) -> Result<(), Fail> {
    let iri = Iri::of(alloc, "a:b")?;
    let class = builder.leaf(Tag::Class, Atom::Iri(iri))?;
    let notes = node(alloc, builder, Tag::Notes, &[])?;
    let declaration = node(alloc, builder, Tag::Declaration, &[notes, class])?;
    if !builder.arena().holds(declaration) {
        return Err(Fail::new("a number of another arena"));
    }
    builder.add(declaration)?;
    Ok(())
}

fn declared(alloc: Global) -> Result<Doc, Fail> {
    let mut builder = Builder::new(alloc, Prefixes::empty(alloc), Arena::new(alloc));
    let added = declare(alloc, &mut builder);
    let doc = builder.finish();
    added?;
    Ok(doc)
}

#[test]
fn a_declaration_is_written(rt: HostRuntime) -> Result<(), Fail> {
    let doc = declared(rt.alloc())?;
    let bytes = write(rt.alloc(), &doc)?;
    assert_eq!(rt; bytes.as_slice(), DECLARED);
    Ok(())
}

#[test]
fn a_declaration_is_hashed(rt: HostRuntime) -> Result<(), Fail> {
    let doc = declared(rt.alloc())?;
    let digits = digest_text(rt.alloc(), &doc)?;
    assert_eq!(rt; digits.as_str(), DIGEST);
    Ok(())
}
