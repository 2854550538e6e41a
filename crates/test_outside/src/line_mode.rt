//! Runs of lines over calls that fail.

use crate::harness::{NAND, NAND_WRITTEN, Outcome, file_of, leaves, lines_of, sink};
use std::alloc::Global;
use std::test::Fail;
use std::thread::Threads;
use std::time::Clock;
use syn_io::{MemFiles, MemLines, MemSink};

// Whether lines leave this over the files.
fn lines_leave<R: Threads + Sync + Clock>(
    rt: &R,
    alloc: Global,
    lines: &str,
    files: MemFiles,
    out: MemSink,
    wanted: Outcome,
) -> Result<bool, Fail> {
    let lines = lines_of(alloc, lines)?;
    leaves(rt, alloc, &["synth"], files, lines, out, wanted)
}

#[test]
fn writes_after_a_failed_write(rt: HostRuntime) -> Result<(), Fail> {
    let alloc = rt.alloc();
    let mut files = MemFiles::failing(alloc, Vec::new(alloc), [1].to_vec(alloc)?);
    files.add(alloc, "a", NAND.as_bytes())?;
    let wanted = Outcome {
        status: 7,
        printed: "refused: cannot write o\n",
        written: Some(NAND_WRITTEN),
    };
    let lines = "read_blif a\nwrite_blif o\nwrite_blif o\n";
    let out = sink(alloc)?;
    assert!(rt; lines_leave(&rt, alloc, lines, files, out, wanted)?);
    Ok(())
}

// The second call for a line fails: the run ends, and the third line is not run.
#[test]
fn ends_where_a_line_fails(rt: HostRuntime) -> Result<(), Fail> {
    let alloc = rt.alloc();
    let bytes = b"read_blif a\nps\nwrite_blif o\n".to_vec(alloc)?;
    let lines = MemLines::new(bytes, [2].to_vec(alloc)?);
    let wanted = Outcome {
        status: 7,
        printed: "refused: cannot read a line\n",
        written: None,
    };
    let files = file_of(alloc, NAND.as_bytes())?;
    let out = sink(alloc)?;
    assert!(rt; leaves(&rt, alloc, &["synth"], files, lines, out, wanted)?);
    Ok(())
}

// A sink that fails ends the run, also while a refusal's line is put; the status is that of the first refusal.
#[test]
fn ends_where_the_sink_fails(rt: HostRuntime) -> Result<(), Fail> {
    let alloc = rt.alloc();
    let rows = [
        ("read_blif a\nps\nwrite_blif o\n", 0, 7, ""),
        ("ps\nread_blif a\nwrite_blif o\n", 5, 6, "refus"),
    ];
    for (lines, room, status, printed) in rows {
        let wanted = Outcome {
            status,
            printed,
            written: None,
        };
        let files = file_of(alloc, NAND.as_bytes())?;
        let out = MemSink::new(alloc, room, Vec::new(alloc))?;
        assert!(rt;
            lines_leave(&rt, alloc, lines, files, out, wanted)?,
            "{lines}"
        );
    }
    Ok(())
}
