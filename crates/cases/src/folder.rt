//! The folder of the cases.

use std::alloc::{AllocError, Global};
use std::{fs, io};

/// How the name of a case's file ends.
const ENDING: &str = ".json";

/// The names of a folder's cases, in their order.
pub fn names(rt: &HostRuntime, folder: &str) -> io::Result<Vec<String>> {
    let mut names = Vec::new(rt.alloc());
    for entry in fs::read_dir(rt, folder)? {
        let entry = entry?;
        if let Some(name) = entry.file_name().strip_suffix(ENDING) {
            names.push(String::from_str(rt.alloc(), name)?)?;
        }
    }
    names.sort()?;
    Ok(names)
}

/// Where the case of that name lies.
pub fn path(alloc: Global, folder: &str, name: &str) -> Result<String, AllocError> {
    format!(in alloc; "{folder}/{name}{ENDING}")
}
