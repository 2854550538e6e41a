//! How a run is made and compared.

use std::alloc::{AllocError, Global};
use std::test::Fail;
use std::thread::Threads;
use std::time::Clock;
use syn_commit::{CommitHook, NoHook};
use syn_io::{MemFiles, MemLines, MemSink};

/// Reads the file `a`, prints its line, and writes the file `o`.
pub const SCRIPT: &str = "read_blif a; ps; write_blif o";

/// The NAND of two inputs, by the row of its off-set.
pub const NAND: &str = ".model m\n.inputs a b\n.outputs y\n.names a b y\n11 0\n.end\n";

/// The line of that netlist.
pub const NAND_LINE: &str = "m : i/o = 2/1 lat = 0 and = 1 lev = 1\n";

/// That netlist as it is written.
pub const NAND_WRITTEN: &str =
    ".model m\n.inputs a b\n.outputs y\n.names a b n1\n11 1\n.names n1 y\n0 1\n.end\n";

/// What a run leaves: its status, what it printed, and what it wrote to the file `o`, if it wrote one.
#[derive(Clone, Copy)]
pub struct Outcome<'a> {
    pub status: u8,
    pub printed: &'a str,
    pub written: Option<&'a str>,
}

fn words_of(alloc: Global, words: &[&str]) -> Result<Vec<String>, Fail> {
    let mut owned = Vec::new(alloc);
    for word in words {
        owned.push(String::from_str(alloc, word)?)?;
    }
    Ok(owned)
}

/// The file `a` with these bytes, and no other.
pub fn file_of(alloc: Global, bytes: &[u8]) -> Result<MemFiles, AllocError> {
    let mut files = MemFiles::new(alloc);
    files.add(alloc, "a", bytes)?;
    Ok(files)
}

/// A sink with room for a few lines, of which no call fails.
pub fn sink(alloc: Global) -> Result<MemSink, AllocError> {
    MemSink::new(alloc, 999, Vec::new(alloc))
}

/// The lines of a text, of which no call fails.
pub fn lines_of(alloc: Global, text: &str) -> Result<MemLines, AllocError> {
    let bytes = text.as_bytes().to_vec(alloc)?;
    Ok(MemLines::new(bytes, Vec::new(alloc)))
}

/// The status of a run whose commits the hook is told.
pub fn status<R: Threads + Sync + Clock, G: CommitHook>(
    rt: &R,
    alloc: Global,
    words: &[&str],
    files: &mut MemFiles,
    lines: &mut MemLines,
    out: &mut MemSink,
    hook: &G,
) -> Result<u8, Fail> {
    let words = words_of(alloc, words)?;
    Ok(syn_shell::run(rt, alloc, words.as_slice(), files, lines, out, hook))
}

fn is_text(bytes: &[u8], text: &str) -> bool {
    bytes == text.as_bytes()
}

// Whether a file has the bytes of a text, or neither is there.
fn is_file(bytes: Option<&[u8]>, text: Option<&str>) -> bool {
    match bytes {
        Some(bytes) => match text {
            Some(text) => is_text(bytes, text),
            None => false,
        },
        None => text.is_none(),
    }
}

/// Whether a run leaves this.
pub fn leaves<R: Threads + Sync + Clock>(
    rt: &R,
    alloc: Global,
    words: &[&str],
    mut files: MemFiles,
    mut lines: MemLines,
    mut out: MemSink,
    wanted: Outcome,
) -> Result<bool, Fail> {
    let status = status(rt, alloc, words, &mut files, &mut lines, &mut out, &NoHook)?;
    Ok(
        status == wanted.status
            && is_text(out.bytes(), wanted.printed)
            && is_file(files.bytes_of("o"), wanted.written),
    )
}
