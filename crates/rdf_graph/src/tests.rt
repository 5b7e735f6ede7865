//! That calls can succeed: a triple is copied, added twice, and found once.

ghost use Rattle.std.specs.Prelude.{IfOk};
ghost use Rattle.rdf_graph.specs.Terms.{IsSubject};

use crate::{Gather, Graph, Term, Triple};
use rdf_terms::Iri;
use std::alloc::Global;
use std::test::Fail;

/// The triple `<e:a> <e:p> <e:b>`.
fn triple(alloc: Global) -> Result<Triple, Fail>
    ensures { IfOk result (λ triple. IsSubject triple.subject) }
{
    let subject = Term::Iri(Iri::of(alloc, "e:a")?);
    let predicate = Iri::of(alloc, "e:p")?;
    let object = Term::Iri(Iri::of(alloc, "e:b")?);
    Ok(Triple {
        subject,
        predicate,
        object,
    })
}

fn add_twice(alloc: Global, gather: &mut Gather) -> Result<(), Fail> {
    let triple = triple(alloc)?;
    gather.add(triple.copy(alloc)?)?;
    gather.add(triple)?;
    Ok(())
}

fn graph(alloc: Global) -> Result<Graph, Fail> {
    let mut gather = Gather::new(alloc);
    add_twice(alloc, &mut gather)?;
    Ok(gather.finish()?)
}

/// Whether this is the only triple.
fn is_all(graph: &Graph, triple: &Triple) -> bool {
    graph.len() == 1 && graph.at(0) == triple
}

/// The places of the triples with the subject of this one, and the first place
/// of one with its object, from the first place on and from the second.
fn places(graph: &Graph, triple: &Triple) -> ((usize, usize), [Option<usize>; 2]) {
    let subjects = graph.of_subject(&triple.subject);
    let first = graph.with_object(&triple.object, 0);
    (subjects, [first, graph.with_object(&triple.object, 1)])
}

#[test]
fn a_triple_that_is_added_twice_is_one(rt: HostRuntime) -> Result<(), Fail> {
    let graph = graph(rt.alloc())?;
    let triple = triple(rt.alloc())?;
    assert!(rt; is_all(&graph, &triple));
    assert_eq!(rt; places(&graph, &triple), ((0, 1), [Some(0), None]));
    Ok(())
}
