//! The program `owl`. What is asked of it comes from its words, documents come
//! from files, and what it says goes to standard output and standard error.
#![tactic(auto)]

mod file_shelf;
mod named_file;
mod std_sink;

use file_shelf::FileShelf;
use owl_characters::NoMemory;
use owl_port::put_all;
use owl_top::Status;
use std::env;
use std::io::ErrorKind;
use std::process::ExitCode;
use std_sink::StdSink;

/// The words behind the program's name. Where one is not in UTF-8 there are
/// none, since such words ask for nothing.
fn words(rt: HostRuntime) -> Result<Vec<String>, NoMemory> {
    match env::args(&rt) {
        Ok(args) => args.skip(1).collect(rt.alloc()).map_err(|_| NoMemory),
        Err(error) if error.kind() == ErrorKind::InvalidData => Ok(Vec::new(rt.alloc())),
        Err(_) => Err(NoMemory),
    }
}

/// Runs the program over its words, its files and its standard streams.
fn status(rt: HostRuntime) -> Result<Status, NoMemory> {
    let words = words(rt)?;
    let mut shelf = FileShelf::new(rt.alloc(), rt, &words)?;
    let mut out = StdSink::new(rt.stdout());
    let mut note = StdSink::new(rt.stderr());
    Ok(owl_top::run(rt.alloc(), &words, &mut shelf, &mut out, &mut note))
}

fn main(rt: HostRuntime) -> ExitCode {
    let status = match status(rt) {
        Ok(status) => status,
        Err(NoMemory) => {
            // Where the note can't be written, the status is the same.
            let _ = put_all(&mut StdSink::new(rt.stderr()), b"memory\n");
            Status::Memory
        }
    };
    ExitCode::from(status.number())
}
