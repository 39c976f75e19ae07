//! The files of a folder.

use std::alloc::Global;
use std::fs::{self, metadata};
use std::io;

/// The names of the files in a folder, in their order.
fn files_of(rt: &HostRuntime, folder: &str) -> io::Result<Vec<String>> {
    let mut names = Vec::new(rt.alloc());
    for entry in fs::read_dir(rt, folder)? {
        let entry = entry?;
        names.push(String::from_str(rt.alloc(), entry.path().to_string_lossy())?)?;
    }
    names.sort()?;
    Ok(names)
}

/// The names of the files in a folder, in their order, or this name alone if it is a file's.
pub fn files_below(rt: &HostRuntime, name: &str) -> io::Result<Vec<String>> {
    if metadata(rt, name)?.is_dir() {
        return files_of(rt, name);
    }
    let mut names = Vec::new(rt.alloc());
    names.push(String::from_str(rt.alloc(), name)?)?;
    Ok(names)
}
