//! Files in memory.

use cp_outside::MemFiles;
use std::alloc::{AllocError, Global};

/// Files where `a` has these bytes. It is refused for want of memory alone.
pub fn one_file(alloc: Global, bytes: &[u8]) -> Result<MemFiles, AllocError> {
    let mut files = MemFiles::new(alloc);
    files.add("a", bytes)?;
    Ok(files)
}

/// Files where `a` has the bytes of a matrix text and `b` those of a proof text. It is refused for want of memory alone.
pub fn two_files(alloc: Global, matrix: &[u8], proof: &[u8]) -> Result<MemFiles, AllocError> {
    let mut files = one_file(alloc, matrix)?;
    files.add("b", proof)?;
    Ok(files)
}
