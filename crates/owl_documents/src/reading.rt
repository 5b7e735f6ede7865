//! Reads one document.

ghost use Rattle.std.specs.Prelude.{◌≡◌, ◌≢◌, ◌≤◌, ◌+◌, ℕ, List, Option, Some, Err, [], IsTrue, IfOk, IfErr, OnOk};
ghost use Rattle.std.specs.Option.{option_copied};
ghost use Rattle.owl_port.specs.Outside.{Rose};
ghost use Rattle.owl_documents.specs.Documents.{most_bytes_of_all, parsed_of, syntax_of};
ghost use Rattle.owl_documents.specs.Reading.{AreReadUnder, IsDefectUnder, IsFed, IsLonger, IsProper, IsReadAs, IsTakenAlone, IsTroubleOf, IsTroubleOfShelf};
ghost use Rattle.owl_characters.specs.Limit.{most_bytes};

use crate::canonical::BytesReader;
use crate::document::{Document, Syntax};
use crate::limits::{limit_behind, room_behind};
use crate::readers::DocumentReader;
use crate::trouble::Trouble;
use owl_atom::Iri;
use owl_port::{ReadFault, Shelf};
use std::alloc::Global;

/// How many bytes are read at a time.
const PIECE: usize = 4096;

/// A document, and of how many bytes it was read.
#[derive(Drop)]
pub struct Read {
    pub document: Document,
    pub size: u64,
}

/// Feeds a reader with all the bytes under the name, piece by piece; returns how many
/// they are. A reader that refuses drops what comes behind, and answers its refusal
/// when it is finished.
///
/// `TooLong` where there are more than `room` bytes, once `room + 1` of them were
/// taken.
fn feed_document<R: DocumentReader, S: Shelf>(
    reader: &mut R,
    name: &str,
    room: u64,
    shelf: &mut S,
) -> Result<u64, ReadFault>
    requires { room ≤ most_bytes }
    ensures told { S.tells shelf.new ≡ S.tells shelf.old }
    ensures fed { (base : Option (List ℕ)) → R.Fed base reader.old [] → IsTrue (S.tells shelf.old)
        → IfOk result (IsFed (R.Fed base reader.new) (S.left shelf.old name.now)) }
    ensures within { IfOk result (λ size. size ≤ room) }
    ensures ended { IsTrue (S.tells shelf.old) → OnOk result (S.left shelf.new name.now ≡ Some []) }
    ensures longer { IsTrue (S.tells shelf.old) → result ≡ Err ReadFault.TooLong → IsLonger (S.left shelf.old name.now) room }
    ensures alone { IsTakenAlone name.now
        (record { tells = S.tells shelf.old; old = S.left shelf.old; new = S.left shelf.new; faults = S.faults shelf.old; later = S.faults shelf.new }) }
    ensures failed { result ≡ Err ReadFault.Failed → Rose (S.faults shelf.old name.now) (S.faults shelf.new name.now) }
{
    let most = room as usize + 1;
    let mut buffer = [0u8; PIECE];
    let mut size = 0;
    while size < most {
        let wanted = (most - size).min(PIECE);
        let count = shelf.read(name, &mut buffer[..wanted])?;
        if count == 0 {
            return Ok(size as u64);
        }
        reader.take(&buffer[..count]);
        size += count;
    }
    Err(ReadFault::TooLong)
}

/// Why a document is not fed whole, behind so many bytes of other documents.
fn trouble_of_shelf(fault: ReadFault, before: u64) -> Trouble
    requires { before ≤ most_bytes_of_all }
    ensures { IsTroubleOfShelf before fault result }
{
    match fault {
        ReadFault::Failed => Trouble::ReadFailed,
        ReadFault::TooLong => Trouble::Refused(limit_behind(before)),
        ReadFault::Memory => Trouble::Memory,
    }
}

/// Reads the document under this name, in the reader's syntax, to its end, against
/// this base IRI, if any, and behind so many bytes of other documents.
fn read_in<R: DocumentReader, S: Shelf>(
    alloc: Global,
    name: &str,
    base: Option<&Iri>,
    before: u64,
    shelf: &mut S,
) -> Result<Read, Trouble>
    requires syntax { syntax_of name.now ≡ R.syntax }
    requires before { before ≤ most_bytes_of_all }
    ensures told { S.tells shelf.new ≡ S.tells shelf.old }
    ensures read { IsTrue (S.tells shelf.old) → IfOk result (IsReadAs (S.left shelf.old) before
        (record { name = name.now; base = option_copied base.entry })) }
    ensures within { IfOk result (λ read. before + read.size ≤ most_bytes_of_all) }
    ensures ended { IsTrue (S.tells shelf.old) → OnOk result (S.left shelf.new name.now ≡ Some []) }
    ensures trouble { IsTrue (S.tells shelf.old) → IfErr result (IsTroubleOf (S.left shelf.old)
        before (record { name = name.now; base = option_copied base.entry })) }
    ensures proper { IfErr result IsProper }
    ensures alone { IsTakenAlone name.now
        (record { tells = S.tells shelf.old; old = S.left shelf.old; new = S.left shelf.new; faults = S.faults shelf.old; later = S.faults shelf.new }) }
    ensures failed { result ≡ Err Trouble.ReadFailed → Rose (S.faults shelf.old name.now) (S.faults shelf.new name.now) }
{
    let Ok(mut reader) = R::begin(alloc, base) else {
        return Err(Trouble::Memory);
    };
    let fed = feed_document(&mut reader, name, room_behind(before), shelf);
    let document = reader.document(alloc);
    match fed {
        Ok(size) => Ok(Read {
            document: document?,
            size,
        }),
        Err(fault) => Err(trouble_of_shelf(fault, before)),
    }
}

/// The syntax that the suffix of a name tells.
fn syntax_of(name: &str) -> Syntax
    ensures { result ≡ syntax_of name.now }
{
    if name.ends_with(".ttl") {
        Syntax::Turtle
    } else if name.ends_with(".omn") {
        Syntax::Manchester
    } else if name.ends_with(".owc") {
        Syntax::Canonical
    } else {
        Syntax::Functional
    }
}

/// Reads the document under this name to its end, in the syntax that its suffix
/// tells, against this base IRI, if any, and behind so many bytes of other documents.
pub fn read_document<S: Shelf>(
    alloc: Global,
    name: &str,
    base: Option<&Iri>,
    before: u64,
    shelf: &mut S,
) -> Result<Read, Trouble>
    requires { before ≤ most_bytes_of_all }
    ensures told { S.tells shelf.new ≡ S.tells shelf.old }
    ensures read { IsTrue (S.tells shelf.old) → IfOk result (IsReadAs (S.left shelf.old) before
        (record { name = name.now; base = option_copied base.entry })) }
    ensures within { IfOk result (λ read. before + read.size ≤ most_bytes_of_all) }
    ensures ended { IsTrue (S.tells shelf.old) → OnOk result (S.left shelf.new name.now ≡ Some []) }
    ensures trouble { IsTrue (S.tells shelf.old) → IfErr result (IsTroubleOf (S.left shelf.old)
        before (record { name = name.now; base = option_copied base.entry })) }
    ensures proper { IfErr result IsProper }
    ensures alone { IsTakenAlone name.now
        (record { tells = S.tells shelf.old; old = S.left shelf.old; new = S.left shelf.new; faults = S.faults shelf.old; later = S.faults shelf.new }) }
    ensures failed { result ≡ Err Trouble.ReadFailed → Rose (S.faults shelf.old name.now) (S.faults shelf.new name.now) }
{
    match syntax_of(name) {
        Syntax::Functional => read_in::<fss_read::Reader, S>(alloc, name, base, before, shelf),
        Syntax::Turtle => read_in::<ttl_read::Reader, S>(alloc, name, base, before, shelf),
        Syntax::Manchester => read_in::<man_read::Reader, S>(alloc, name, base, before, shelf),
        Syntax::Canonical => read_in::<BytesReader, S>(alloc, name, base, before, shelf),
    }
}

/// The document that these bytes are in the reader's syntax, or why they are none.
/// The reader takes them piece by piece.
fn read_pieces<R: DocumentReader>(alloc: Global, bytes: &[u8]) -> Result<Document, Trouble>
    ensures reads { IfOk result (λ document. AreReadUnder R.syntax bytes.now (parsed_of document)) }
    ensures refuses { IfErr result (IsDefectUnder R.syntax bytes.now) }
    ensures proper { IfErr result IsProper }
    ensures read { result ≢ Err Trouble.ReadFailed }
{
    let Ok(mut reader) = R::begin(alloc, None) else {
        return Err(Trouble::Memory);
    };
    let mut rest = bytes;
    while !rest.is_empty() {
        let (piece, others) = rest.split_at(rest.len().min(PIECE));
        reader.take(piece);
        rest = others;
    }
    reader.document(alloc)
}

/// The document that these bytes are in this syntax, or why they are none: the first
/// defect by its grammar, or what is wrong with the header of a graph. They are read
/// as a document on a shelf without a base IRI is, in pieces of at most 4,096 bytes.
pub fn read_text(alloc: Global, syntax: Syntax, bytes: &[u8]) -> Result<Document, Trouble>
    ensures reads { IfOk result (λ document. AreReadUnder syntax bytes.now (parsed_of document)) }
    ensures refuses { IfErr result (IsDefectUnder syntax bytes.now) }
    ensures proper { IfErr result IsProper }
    ensures read { result ≢ Err Trouble.ReadFailed }
{
    match syntax {
        Syntax::Functional => read_pieces::<fss_read::Reader>(alloc, bytes),
        Syntax::Turtle => read_pieces::<ttl_read::Reader>(alloc, bytes),
        Syntax::Manchester => read_pieces::<man_read::Reader>(alloc, bytes),
        Syntax::Canonical => read_pieces::<BytesReader>(alloc, bytes),
    }
}
