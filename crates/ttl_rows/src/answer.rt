//! What comes of a document.

use owl_reader::ReadFault;
use row_files::RowFault;
use std::alloc::{AllocError, Global};
use ttl_read::{Reader, TtlDoc};
use ttl_write::WriteFault;

/// What comes of a document: what its graph is written as, or why it is refused.
#[derive(Drop)]
pub struct Answer {
    pub output: String,
    pub note: String,
}

/// What comes of a document whose bytes come in two pieces. Refuses for want of
/// memory alone.
pub fn answer_to(alloc: Global, first: &[u8], second: &[u8]) -> Result<Answer, RowFault> {
    match read(alloc, first, second) {
        Ok(doc) => written(alloc, &doc),
        Err(ReadFault::Memory) => Err(RowFault::Memory),
        Err(fault) => refused(alloc, fault),
    }
}

fn read(alloc: Global, first: &[u8], second: &[u8]) -> Result<TtlDoc, ReadFault> {
    let Ok(mut reader) = Reader::new(alloc) else {
        return Err(ReadFault::Memory);
    };
    reader.feed(first)?;
    reader.feed(second)?;
    reader.finish()
}

fn written(alloc: Global, doc: &TtlDoc) -> Result<Answer, RowFault> {
    match ttl_write::write(alloc, &doc.graph, &doc.prefixes) {
        Ok(text) => Ok(Answer {
            output: String::from_str(alloc, text.as_str())?,
            note: String::new(alloc),
        }),
        Err(WriteFault::Memory) => Err(RowFault::Memory),
        Err(WriteFault::TooLong) => Err(RowFault::TooLong),
    }
}

fn refused(alloc: Global, fault: ReadFault) -> Result<Answer, RowFault> {
    Ok(Answer {
        output: String::new(alloc),
        note: line_of(alloc, fault)?,
    })
}

/// The line that tells why a document is refused: the places and the reason of
/// its first defect, or the name of a limit.
fn line_of(alloc: Global, fault: ReadFault) -> Result<String, AllocError> {
    match fault {
        ReadFault::Refused {
            item_at,
            at,
            reason,
        } => format!(in alloc; "item at {item_at}: {reason:?} at {at}\n"),
        limit => format!(in alloc; "{limit:?}\n"),
    }
}
