//! Tables of prefixes.

use owl_atom::{DeclareFault, ExpandFault, Iri, Prefixes};
use std::alloc::Global;
use std::test::Fail;

const OWL: &str = "http://www.w3.org/2002/07/owl#";

/// Why the names are not declared so: owl as what it stands for, the same again,
/// and rdf as another IRI.
fn declare_names(
    alloc: Global,
    prefixes: &mut Prefixes,
) -> Result<[Option<DeclareFault>; 3], Fail> {
    let first = prefixes.declare("owl", Iri::of(alloc, OWL)?).err();
    let second = prefixes.declare("owl", Iri::of(alloc, OWL)?).err();
    let other = prefixes.declare("rdf", Iri::of(alloc, "http://e/")?).err();
    Ok([first, second, other])
}

fn names_declared(alloc: Global) -> Result<[Option<DeclareFault>; 3], Fail> {
    let mut prefixes = Prefixes::fixed(alloc)?;
    declare_names(alloc, &mut prefixes)
}

#[test]
fn a_prefix_is_declared_once_and_as_what_it_stands_for(rt: HostRuntime) -> Result<(), Fail> {
    assert_eq!(rt;
        names_declared(rt.alloc())?,
        [
            None,
            Some(DeclareFault::PrefixTwice),
            Some(DeclareFault::PrefixFixed)
        ]
    );
    Ok(())
}

/// Why a name with the prefix `x` is not expanded.
fn expanding(alloc: Global) -> Result<Option<ExpandFault>, Fail> {
    let prefixes = Prefixes::fixed(alloc)?;
    Ok(prefixes.expand(alloc, "x", "a").err())
}

#[test]
fn an_unknown_prefix_is_not_expanded(rt: HostRuntime) -> Result<(), Fail> {
    assert_eq!(rt; expanding(rt.alloc())?, Some(ExpandFault::UnknownPrefix));
    Ok(())
}

/// Sets the empty prefix, and `e` to a longer IRI.
fn set_names(alloc: Global, prefixes: &mut Prefixes) -> Result<(), Fail> {
    prefixes.set("", Iri::of(alloc, "http://e/")?)?;
    prefixes.set("e", Iri::of(alloc, "http://e/x/")?)?;
    Ok(())
}

/// Whether the table cuts the IRI into a prefix of this name and this local part.
fn is_cut_as(prefixes: &Prefixes, iri: &Iri, name: &str, local: &str) -> bool {
    match prefixes.shorten(iri) {
        Some((place, begin)) => {
            place < prefixes.len()
                && prefixes.at(place).0 == name
                && iri.text().get(begin..) == Some(local)
        }
        None => false,
    }
}

/// Whether `http://e/x/a` is cut as `e:a`, and `http://e/9` not.
fn cuts(alloc: Global, prefixes: &mut Prefixes) -> Result<(bool, bool), Fail> {
    set_names(alloc, prefixes)?;
    let longest = Iri::of(alloc, "http://e/x/a")?;
    let none = Iri::of(alloc, "http://e/9")?;
    Ok((
        is_cut_as(prefixes, &longest, "e", "a"),
        prefixes.shorten(&none).is_none(),
    ))
}

fn cuts_of_fixed(alloc: Global) -> Result<(bool, bool), Fail> {
    let mut prefixes = Prefixes::fixed(alloc)?;
    cuts(alloc, &mut prefixes)
}

#[test]
fn an_iri_is_cut_at_its_longest_prefix_or_not(rt: HostRuntime) -> Result<(), Fail> {
    assert_eq!(rt; cuts_of_fixed(rt.alloc())?, (true, true));
    Ok(())
}

/// Whether two tables have the same name, IRI and mark at this place.
fn are_same_at(prefixes: &Prefixes, others: &Prefixes, place: usize) -> bool {
    if prefixes.len() <= place || others.len() <= place {
        return false;
    }
    let (name, iri) = prefixes.at(place);
    let (other, copy) = others.at(place);
    name == other && iri == copy && prefixes.is_declared(name) == others.is_declared(other)
}

fn fixed_is_its_copy(alloc: Global) -> Result<bool, Fail> {
    let prefixes = Prefixes::fixed(alloc)?;
    let copy = prefixes.copy(alloc)?;
    Ok(
        prefixes.len() == 4
            && copy.len() == 4
            && (0..4).all(|place| are_same_at(&prefixes, &copy, place)),
    )
}

#[test]
fn a_copy_has_the_same_names_and_iris(rt: HostRuntime) -> Result<(), Fail> {
    assert!(rt; fixed_is_its_copy(rt.alloc())?);
    Ok(())
}
