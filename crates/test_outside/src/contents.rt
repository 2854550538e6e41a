//! Files, lines and sinks, in memory and of the system.

ghost use Rattle.std.specs.Prelude.{◌≡◌, ◌<◌, ◌≤◌, ◌^◌, ◌-◌, ℕ, List, length, IfErr, IsOk, Some};
ghost use Rattle.syn_io.specs.Outside.{file_at, next_line};

use std::alloc::Global;
use std::test::Fail;
use syn_io::{
    Files, GetFault, LineFault, Lines, MemFiles, MemLines, MemSink, PutFault, RealFiles, RealLines,
    RealSink, Sink, SinkFailed,
};

// Callers that know the bounds alone: where contents are told and no fault was counted, only want of
// memory refuses what is there and within the limit.

fn got<F: Files>(alloc: Global, files: &mut F, name: &str, limit: u64) -> Result<Vec<u8>, GetFault>
    ensures given { (list : List (List ℕ × List ℕ)) (bytes : List ℕ) → (F.disk files.old).told ≡ Some list → file_at name.now list ≡ Some bytes → length bytes ≤ limit →
        (F.disk files.new).faults ≡ (F.disk files.old).faults → (F.disk files.old).faults < 2 ^ 64 - 1 → IfErr result (λ fault. fault ≡ GetFault.NoMemory) }
    ensures within { (list : List (List ℕ × List ℕ)) (bytes : List ℕ) → (F.disk files.old).told ≡ Some list → file_at name.now list ≡ Some bytes →
        IsOk result → length bytes ≤ limit }
{
    files.get(alloc, name, limit)
}

fn stored<F: Files>(alloc: Global, files: &mut F, name: &str, bytes: &[u8]) -> Result<(), PutFault>
    ensures { (F.disk files.new).faults ≡ (F.disk files.old).faults → (F.disk files.old).faults < 2 ^ 64 - 1 → IfErr result (λ fault. fault ≡ PutFault.NoMemory) }
{
    files.put(alloc, name, bytes)
}

fn line_of<L: Lines>(alloc: Global, lines: &mut L, limit: u64) -> Result<Option<Vec<u8>>, LineFault>
    ensures given { (left line : List ℕ) → (L.input lines.old).told ≡ Some left → next_line left ≡ Some line → length line ≤ limit →
        (L.input lines.new).faults ≡ (L.input lines.old).faults → (L.input lines.old).faults < 2 ^ 64 - 1 → IfErr result (λ fault. fault ≡ LineFault.NoMemory) }
    ensures within { (left line : List ℕ) → (L.input lines.old).told ≡ Some left → next_line left ≡ Some line → IsOk result → length line ≤ limit }
{
    lines.next(alloc, limit)
}

fn taken<O: Sink>(out: &mut O, piece: &[u8]) -> Result<(), SinkFailed>
    ensures { (O.screen out.new).faults ≡ (O.screen out.old).faults → (O.screen out.old).faults < 2 ^ 64 - 1 → IsOk result }
{
    out.put(piece)
}

// Whether `get` gives these bytes, or refuses so.
fn gets<F: Files>(
    alloc: Global,
    files: &mut F,
    name: &str,
    limit: u64,
    wanted: Result<&[u8], GetFault>,
) -> bool {
    match (got(alloc, files, name, limit), wanted) {
        (Ok(bytes), Ok(wanted)) => bytes.as_slice() == wanted,
        (Err(fault), Err(wanted)) => fault == wanted,
        _ => false,
    }
}

// Whether `next` gives this line, the end as `None`, or refuses so.
fn takes<L: Lines>(
    alloc: Global,
    lines: &mut L,
    limit: u64,
    wanted: Result<Option<&[u8]>, LineFault>,
) -> bool {
    match (line_of(alloc, lines, limit), wanted) {
        (Ok(Some(line)), Ok(Some(wanted))) => line.as_slice() == wanted,
        (Ok(None), Ok(None)) => true,
        (Err(fault), Err(wanted)) => fault == wanted,
        _ => false,
    }
}

#[test]
fn files_in_memory(rt: HostRuntime) -> Result<(), Fail> {
    let alloc = rt.alloc();
    let mut files = MemFiles::failing(alloc, vec![in alloc; 2]?, vec![in alloc; 1]?);
    files.add(alloc, "a", b"abc")?;
    assert_eq!(rt; stored(alloc, &mut files, "a", b""), Err(PutFault::Failed));
    stored(alloc, &mut files, "b", b"xy")?;
    let wanted: [(&str, u64, Result<&[u8], GetFault>); 5] = [
        ("a", 3, Ok(b"abc")),
        ("a", 3, Err(GetFault::Failed)),
        ("a", 2, Err(GetFault::TooLong)),
        ("b", 2, Ok(b"xy")),
        ("q", 2, Err(GetFault::Failed)),
    ];
    for (name, limit, wanted) in wanted {
        assert!(rt; gets(alloc, &mut files, name, limit, wanted), "{name}");
    }
    assert_eq!(rt; files.bytes_of("b"), Some(b"xy".as_slice()));
    Ok(())
}

#[test]
fn lines_in_memory(rt: HostRuntime) -> Result<(), Fail> {
    let alloc = rt.alloc();
    let mut lines = MemLines::new(b"ab\n\ncde".to_vec(alloc)?, vec![in alloc; 3]?);
    let wanted: [(u64, Result<Option<&[u8]>, LineFault>); 6] = [
        (2, Ok(Some(b"ab"))),
        (0, Ok(Some(b""))),
        (3, Err(LineFault::Failed)),
        (2, Err(LineFault::TooLong)),
        (3, Ok(Some(b"cde"))),
        (3, Ok(None)),
    ];
    for (limit, wanted) in wanted {
        assert!(rt; takes(alloc, &mut lines, limit, wanted), "{limit}");
    }
    assert_eq!(rt; lines.left(), b"".as_slice());
    Ok(())
}

#[test]
fn sink_in_memory(rt: HostRuntime) -> Result<(), Fail> {
    let alloc = rt.alloc();
    let mut sink = MemSink::new(alloc, 4, vec![in alloc; 2]?)?;
    let wanted: [(&[u8], Result<(), SinkFailed>); 3] = [
        (b"abc", Ok(())),
        (b"d", Err(SinkFailed)),
        (b"ef", Err(SinkFailed)),
    ];
    for (piece, wanted) in wanted {
        assert_eq!(rt; taken(&mut sink, piece), wanted);
    }
    assert_eq!(rt; sink.bytes(), b"abce".as_slice());
    Ok(())
}

#[test]
fn files_of_the_system(rt: HostRuntime) -> Result<(), Fail> {
    let alloc = rt.alloc();
    let mut files = RealFiles::new(&rt);
    stored(alloc, &mut files, "a", b"longer than what follows")?;
    stored(alloc, &mut files, "a", b"abc")?;
    let wanted: [(&str, u64, Result<&[u8], GetFault>); 4] = [
        ("a", 3, Ok(b"abc")),
        ("a", 2, Err(GetFault::TooLong)),
        ("missing", 3, Err(GetFault::Failed)),
        (".", 3, Err(GetFault::Failed)),
    ];
    for (name, limit, wanted) in wanted {
        assert!(rt; gets(alloc, &mut files, name, limit, wanted), "{name}");
    }
    assert_eq!(rt;
        stored(alloc, &mut files, "no/folder", b"x"),
        Err(PutFault::Failed)
    );
    Ok(())
}

#[test]
fn lines_of_a_reader(rt: HostRuntime) -> Result<(), Fail> {
    let alloc = rt.alloc();
    let mut lines = RealLines::new(alloc, b"ab\ncd".as_slice());
    let wanted: [(u64, Result<Option<&[u8]>, LineFault>); 3] = [
        (2, Ok(Some(b"ab"))),
        (2, Ok(Some(b"cd"))),
        (2, Ok(None)),
    ];
    for (limit, wanted) in wanted {
        assert!(rt; takes(alloc, &mut lines, limit, wanted));
    }
    Ok(())
}

#[test]
fn output_of_the_system(rt: HostRuntime) -> Result<(), SinkFailed> {
    taken(&mut RealSink::new(&rt), b"a line\n")
}
