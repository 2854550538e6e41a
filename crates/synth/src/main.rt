//! `synth`, a logic-synthesis shell: runs the script of its words, or each line of standard input, over the system's
//! files and standard output.
#![tactic(auto)]

use std::alloc::{AllocError, Global};
use std::process::ExitCode;
use std::{env, io};
use syn_commit::NoHook;
use syn_io::{RealFiles, RealLines, RealSink};

const NO_MEMORY: u8 = 8;

// Words that are refused, in place of such as aren't UTF-8: a faulty command line.
fn faulty_words(alloc: Global) -> Result<Vec<String>, AllocError> {
    let mut words = Vec::new(alloc);
    for word in ["synth", "words", "not UTF-8"] {
        words.push(String::from_str(alloc, word)?)?;
    }
    Ok(words)
}

// The words of the command line.
fn words(rt: &HostRuntime, alloc: Global) -> Result<Vec<String>, u8> {
    match env::args(rt) {
        Ok(words) => words.collect(alloc).map_err(|_| NO_MEMORY),
        Err(error) => match error.kind() {
            io::ErrorKind::OutOfMemory => Err(NO_MEMORY),
            _ => faulty_words(alloc).map_err(|_| NO_MEMORY),
        },
    }
}

fn main(rt: HostRuntime) -> ExitCode {
    let alloc = rt.alloc();
    let words = match words(&rt, alloc) {
        Ok(words) => words,
        Err(status) => return ExitCode::from(status),
    };
    let mut lines = RealLines::new(alloc, rt.reader());
    let mut files = RealFiles::new(&rt);
    let mut out = RealSink::new(&rt);
    ExitCode::from(syn_shell::run(
        &rt,
        alloc,
        words.as_slice(),
        &mut files,
        &mut lines,
        &mut out,
        &NoHook,
    ))
}
