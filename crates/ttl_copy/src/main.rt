//! Copies a Turtle document from standard input to standard output: what is
//! written is the text of its graph, with the prefixes that it leaves. Where it
//! is refused, its first defect is told on standard error, and the status is 1.
#![tactic(auto)]

use anyhow::Result;
use std::io::{Read, Write};
use std::mem;
use ttl_read::Reader;

/// How many bytes are read at a time.
const PIECE: usize = 4096;

fn main(rt: HostRuntime) -> Result<()> {
    let mut reader = Reader::new(rt.alloc())?;
    feed_all(&mut rt.stdin(), &mut reader)?;
    let doc = reader.finish()?;
    let text = ttl_write::write(rt.alloc(), &doc.graph, &doc.prefixes)?;
    rt.stdout().write_all(text.as_str().as_bytes())?;
    // The process ends here, so its many small texts need not be given back one by one.
    mem::forget(doc);
    Ok(())
}

/// Feeds all bytes of an input to a reader of Turtle.
fn feed_all<R: Read>(input: &mut R, reader: &mut Reader) -> Result<()> {
    let mut piece = [0; PIECE];
    for _ in 0..u64::MAX {
        let count = input.read(&mut piece)?;
        if count == 0 {
            break;
        }
        reader.feed(&piece[..count])?;
    }
    Ok(())
}
