//! Runs over files and a sink in memory, whose calls fail or don't.

use crate::harness::{
    NAND, NAND_LINE, NAND_WRITTEN, Outcome, SCRIPT, file_of, leaves, lines_of, sink,
};
use std::test::Fail;
use syn_io::{MemFiles, MemSink};

// f is ab or ac, and so a(b + c): one of three ANDs goes, whatever the number of workers, where memory is ample.
#[test]
fn rewrites_a_cone(rt: HostRuntime) -> Result<(), Fail> {
    let alloc = rt.alloc();
    let cone = ".model m\n.inputs a b c\n.outputs f\n.names a b c f\n11- 1\n1-1 1\n.end\n";
    let written =
        ".model m\n.inputs a b c\n.outputs f\n.names b c n1\n00 1\n.names a n1 n2\n10 1\n.names n2 f\n1 1\n.end\n";
    let wanted = Outcome {
        status: 0,
        printed: "m : i/o = 3/1 lat = 0 and = 3 lev = 2\nm : i/o = 3/1 lat = 0 and = 2 lev = 2\n",
        written: Some(written),
    };
    for script in [
        "read_blif a; ps; rw; ps; write_blif o",
        "read_blif a; ps; rewrite -w 4 -z; ps; write_blif o",
    ] {
        let words = ["synth", "-c", script];
        let files = file_of(alloc, cone.as_bytes())?;
        let lines = lines_of(alloc, "")?;
        let out = sink(alloc)?;
        assert!(rt;
            leaves(&rt, alloc, &words, files, lines, out, wanted)?,
            "{script}"
        );
    }
    Ok(())
}

#[test]
fn refuses_where_the_outside_fails(rt: HostRuntime) -> Result<(), Fail> {
    let alloc = rt.alloc();
    let rows: [(&[u64], &[u64], &[u64], usize, &str); 5] = [
        (&[1], &[], &[], 999, "refused: cannot read a\n"),
        (
            &[],
            &[1],
            &[],
            999,
            "m : i/o = 2/1 lat = 0 and = 1 lev = 1\nrefused: cannot write o\n",
        ),
        (&[], &[], &[1], 999, ""),
        (&[], &[], &[], 5, "m : i"),
        (&[1], &[], &[], 5, "refus"),
    ];
    for (gets, puts, pieces, room, printed) in rows {
        let mut files = MemFiles::failing(alloc, gets.to_vec(alloc)?, puts.to_vec(alloc)?);
        files.add(alloc, "a", NAND.as_bytes())?;
        let lines = lines_of(alloc, "")?;
        let out = MemSink::new(alloc, room, pieces.to_vec(alloc)?)?;
        let wanted = Outcome {
            status: 7,
            printed,
            written: None,
        };
        let words = ["synth", "-c", SCRIPT];
        assert!(rt;
            leaves(&rt, alloc, &words, files, lines, out, wanted)?,
            "{printed}"
        );
    }
    Ok(())
}

// The second line of statistics is put in one piece: where that call fails, none of it is there.
#[test]
fn puts_a_line_of_statistics_in_one_piece(rt: HostRuntime) -> Result<(), Fail> {
    let alloc = rt.alloc();
    let files = file_of(alloc, NAND.as_bytes())?;
    let lines = lines_of(alloc, "")?;
    let out = MemSink::new(alloc, 999, [2].to_vec(alloc)?)?;
    let wanted = Outcome {
        status: 7,
        printed: NAND_LINE,
        written: None,
    };
    let words = ["synth", "-c", "read_blif a; ps; ps"];
    assert!(rt; leaves(&rt, alloc, &words, files, lines, out, wanted)?);
    Ok(())
}

// Lines over a file `a`: what is refused leaves the network and the file `o` of the line before, and the run goes on where
// the sink holds.
#[test]
fn runs_lines_where_the_outside_fails(rt: HostRuntime) -> Result<(), Fail> {
    let alloc = rt.alloc();
    let missing = "read_blif q\nread_blif a\nwrite_blif o\n";
    let again = "read_blif a\nread_blif a; write_blif o\nwrite_blif o\n";
    let written = Some(NAND_WRITTEN);
    let rows: [(&str, &[u64], &[u64], &[u64], u8, &str, Option<&str>); 4] = [
        (
            missing,
            &[],
            &[],
            &[],
            7,
            "refused: cannot read q\n",
            written,
        ),
        (
            "rewrit\nread_blif a\nwrite_blif o\n",
            &[],
            &[],
            &[1],
            3,
            "",
            None,
        ),
        (
            again,
            &[2],
            &[],
            &[],
            7,
            "refused: cannot read a\n",
            written,
        ),
        (missing, &[], &[], &[1], 7, "", None),
    ];
    for (lines, gets, puts, pieces, status, printed, written) in rows {
        let mut files = MemFiles::failing(alloc, gets.to_vec(alloc)?, puts.to_vec(alloc)?);
        files.add(alloc, "a", NAND.as_bytes())?;
        let out = MemSink::new(alloc, 999, pieces.to_vec(alloc)?)?;
        let wanted = Outcome {
            status,
            printed,
            written,
        };
        let lines = lines_of(alloc, lines)?;
        assert!(rt;
            leaves(&rt, alloc, &["synth"], files, lines, out, wanted)?,
            "{printed}"
        );
    }
    Ok(())
}
