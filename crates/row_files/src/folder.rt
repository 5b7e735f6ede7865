//! The folders that rows stand in.

use std::alloc::Global;
use std::fs::{self, DirEntry};
use std::io;
use std::rt::Files;

/// The names of the folders in the folder that the program runs in, in order.
pub fn folders<R: Files + AllocGlobal + Clone + Drop>(rt: &R) -> io::Result<Vec<String>> {
    let mut names = Vec::new(rt.alloc());
    add_folders(rt, &mut names)?;
    names.sort()?;
    Ok(names)
}

fn add_folders<R: Files + AllocGlobal + Clone + Drop>(
    rt: &R,
    names: &mut Vec<String>,
) -> io::Result<()> {
    for entry in fs::read_dir(rt, ".")? {
        add_folder(rt.alloc(), entry, names)?;
    }
    Ok(())
}

fn add_folder<R: Files + Drop>(
    alloc: Global,
    entry: io::Result<DirEntry<R>>,
    names: &mut Vec<String>,
) -> io::Result<()> {
    let entry = entry?;
    if entry.file_type()?.is_dir() {
        names.push(String::from_str(alloc, entry.file_name())?)?;
    }
    Ok(())
}
