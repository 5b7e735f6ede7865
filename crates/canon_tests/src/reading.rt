//! What is read of bytes, and what is not.

use owl_canon::{CanonFault, read, write};
use std::alloc::Global;
use std::test::Fail;

/// An ontology that says nothing.
const NOTHING: &[u8] = b"OWL2C1\n\0\0\0\0\0\0\0\0\0\0\0\0\0\0\0\0\0\0\0\0\0\0\0\0\0\0";

/// A byte more.
const MORE: &[u8] = b"OWL2C1\n\0\0\0\0\0\0\0\0\0\0\0\0\0\0\0\0\0\0\0\0\0\0\0\0\0\0\0";

/// An ontology IRI that is said to have 2^63 bytes.
const LONG: &[u8] = b"OWL2C1\n\x01\x80\0\0\0\0\0\0\0a:b";

/// Imports b:c and a:b, which are out of order.
const OUT_OF_ORDER: &[u8] =
    b"OWL2C1\n\0\0\0\0\0\0\0\0\0\x02\0\0\0\0\0\0\0\x03b:c\0\0\0\0\0\0\0\x03a:b\0\0\0\0\0\0\0\0\0\0\0\0\0\0\0\0";

/// Imports a:b and b:c.
const IN_ORDER: &[u8] =
    b"OWL2C1\n\0\0\0\0\0\0\0\0\0\x02\0\0\0\0\0\0\0\x03a:b\0\0\0\0\0\0\0\x03b:c\0\0\0\0\0\0\0\0\0\0\0\0\0\0\0\0";

/// What the bytes are written as again, or why they are not read.
fn again(alloc: Global, bytes: &[u8]) -> Result<Vec<u8>, CanonFault> {
    let doc = read(alloc, bytes)?;
    match write(alloc, &doc) {
        Ok(bytes) => Ok(bytes),
        Err(_) => Err(CanonFault::Memory),
    }
}

#[test]
fn canonical_bytes_are_read(rt: HostRuntime) -> Result<(), Fail> {
    let nothing = again(rt.alloc(), NOTHING)?;
    assert_eq!(rt; nothing.as_slice(), NOTHING);
    let imports = again(rt.alloc(), IN_ORDER)?;
    assert_eq!(rt; imports.as_slice(), IN_ORDER);
    Ok(())
}

/// Whether the bytes are refused.
fn is_refused(alloc: Global, bytes: &[u8]) -> bool {
    matches!(again(alloc, bytes), Err(CanonFault::NotCanon))
}

#[test]
fn other_bytes_are_not_read(rt: HostRuntime) {
    assert!(rt; is_refused(rt.alloc(), MORE));
    assert!(rt; is_refused(rt.alloc(), LONG));
    assert!(rt; is_refused(rt.alloc(), OUT_OF_ORDER));
    assert!(rt; is_refused(rt.alloc(), b""));
}
