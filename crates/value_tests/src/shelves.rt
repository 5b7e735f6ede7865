//! Documents that are read whole.

use owl_characters::Text;
use owl_port::{MemShelf, ReadFault, read_all};
use std::alloc::Global;
use std::test::Fail;

/// Puts a document under the name `a`.
fn put(alloc: Global, shelf: &mut MemShelf, bytes: &[u8]) -> Result<(), Fail> {
    let name = Text::of(alloc, "a")?;
    let bytes = Vec::from_slice(alloc, bytes)?;
    Ok(shelf.add(name, bytes)?)
}

/// Whether the document is these bytes, read with a limit of 3.
fn is_read(alloc: Global, shelf: &mut MemShelf, bytes: &[u8]) -> Result<bool, ReadFault> {
    let read = read_all(alloc, shelf, "a", 3)?;
    Ok(read.as_slice() == bytes)
}

fn put_and_read(
    alloc: Global,
    shelf: &mut MemShelf,
    bytes: &[u8],
) -> Result<Result<bool, ReadFault>, Fail> {
    put(alloc, shelf, bytes)?;
    Ok(is_read(alloc, shelf, bytes))
}

fn read_of(alloc: Global, bytes: &[u8]) -> Result<Result<bool, ReadFault>, Fail> {
    let mut shelf = MemShelf::new(alloc);
    put_and_read(alloc, &mut shelf, bytes)
}

#[test]
fn a_document_is_as_long_as_its_limit_and_not_longer(rt: HostRuntime) -> Result<(), Fail> {
    assert_eq!(rt; read_of(rt.alloc(), b"abc")?, Ok(true));
    assert_eq!(rt; read_of(rt.alloc(), b"abcd")?, Err(ReadFault::TooLong));
    Ok(())
}
