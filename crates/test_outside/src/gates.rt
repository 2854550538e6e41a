//! Runs of commands whose workers wait for each other.

use crate::harness::{file_of, lines_of, sink, status};
use std::alloc::{AllocError, Global};
use std::sync::atomic::{AtomicU64, Ordering};
use std::test::Fail;
use std::thread::{Threads, yield_now};
use std::time::Clock;
use syn_commit::{CommitHook, Moment};
use syn_io::MemFiles;

// How often a worker looks for the others at most.
const MAX_LOOKS: u32 = 1_000_000;

// Half of the cones that are rewritten.
const HALF: u64 = 48;

// A hook that holds a worker after each of its first commits until all workers have done as many.
#[derive(Drop)]
struct Gates {
    // How many commits each worker has done.
    done: Vec<AtomicU64>,
    // How many commits of each worker are waited for.
    commits: u64,
    // 1 once a worker has waited for the others in vain, or one came that isn't among them.
    given_up: AtomicU64,
}

impl Gates {
    // Gates for so many workers, each of which is to do so many commits.
    fn new(alloc: Global, workers: u8, commits: u64) -> Result<Gates, AllocError> {
        let mut done = Vec::new(alloc);
        for _ in 0..workers {
            done.push(AtomicU64::new(0))?;
        }
        Ok(Gates {
            done,
            commits,
            given_up: AtomicU64::new(0),
        })
    }

    // Whether each worker has done so many commits.
    fn have_all(&self, commits: u64) -> bool {
        for done in self.done.as_slice() {
            if done.load(Ordering::SeqCst) < commits {
                return false;
            }
        }
        true
    }

    // Whether a worker has waited in vain, or was one too many.
    fn is_given_up(&self) -> bool {
        self.given_up.load(Ordering::SeqCst) == 1
    }

    // Returns once each worker has done so many commits, or after so many looks.
    fn wait(&self, commits: u64) {
        for _ in 0..MAX_LOOKS {
            if self.have_all(commits) || self.is_given_up() {
                return;
            }
            yield_now();
        }
        self.given_up.store(1, Ordering::SeqCst);
    }

    // How many commits all workers have done.
    fn count(&self) -> u64 {
        let mut count = 0u64;
        for done in self.done.as_slice() {
            count = count.saturating_add(done.load(Ordering::SeqCst));
        }
        count
    }

    // Whether all workers came through each gate together, and did a commit for half of the cones at least.
    fn are_passed(&self) -> bool {
        !self.is_given_up() && self.have_all(self.commits) && self.count() >= HALF
    }
}

impl CommitHook for Gates {
    fn at(&self, worker: u8, moment: Moment) {
        if moment != Moment::Answered(true) {
            return;
        }
        let Some(done) = self.done.as_slice().get(worker as usize) else {
            self.given_up.store(1, Ordering::SeqCst);
            return;
        };
        let commits = done.fetch_add(1, Ordering::SeqCst).saturating_add(1);
        if commits <= self.commits {
            self.wait(commits);
        }
    }
}

// The text of 96 cones, each over three inputs of its own: z is ab, and y is a(bc), for which (ab)c saves an AND.
fn cones(alloc: Global) -> Result<String, AllocError> {
    let mut text = String::from_str(alloc, ".model m\n")?;
    for i in 0u8..96 {
        write!(text, ".inputs a{i} b{i} c{i}\n.outputs z{i} y{i}\n")?;
        write!(
            text,
            ".names a{i} b{i} z{i}\n11 1\n.names b{i} c{i} t{i}\n11 1\n"
        )?;
        write!(text, ".names a{i} t{i} y{i}\n11 1\n")?;
    }
    text.push_str(".end\n")?;
    Ok(text)
}

// The cones as the file `a`.
fn cones_as_file(alloc: Global) -> Result<MemFiles, AllocError> {
    let text = cones(alloc)?;
    file_of(alloc, text.as_str().as_bytes())
}

// The status of a run of these words on the cones whose commits the gates are told, and whether two of each three ANDs are left.
fn run_through<R: Threads + Sync + Clock>(
    rt: &R,
    alloc: Global,
    words: &[&str],
    gates: &Gates,
) -> Result<(u8, bool), Fail> {
    let mut files = cones_as_file(alloc)?;
    let mut lines = lines_of(alloc, "")?;
    let mut out = sink(alloc)?;
    let status = status(rt, alloc, words, &mut files, &mut lines, &mut out, gates)?;
    let printed = b"m : i/o = 288/192 lat = 0 and = 192 lev = 2\n";
    Ok((status, out.bytes() == printed.as_slice()))
}

// The same, and whether so many workers each do so many commits while the others do.
fn shared<R: Threads + Sync + Clock>(
    rt: &R,
    alloc: Global,
    words: &[&str],
    workers: u8,
    commits: u64,
) -> Result<(u8, bool, bool), Fail> {
    let gates = Gates::new(alloc, workers, commits)?;
    let (status, is_saved) = run_through(rt, alloc, words, &gates)?;
    Ok((status, is_saved, gates.are_passed()))
}

// By the option of a command.
#[test]
fn workers_rewrite_at_the_same_time(rt: HostRuntime) -> Result<(), Fail> {
    let runs = [
        ("read_blif a; rewrite -w 2; ps", 2, 6),
        ("read_blif a; rewrite -w 4; ps", 4, 6),
        ("read_blif a; rewrite -w 16; ps", 16, 3),
        ("read_blif a; rewrite -w 4 -z; ps", 4, 2),
        ("read_blif a; rewrite -w 4 -L; ps", 4, 2),
    ];
    for (script, workers, commits) in runs {
        let words = ["synth", "-c", script];
        let found = shared(&rt, rt.alloc(), &words, workers, commits)?;
        assert_eq!(rt; found, (0, true, true), "{script}");
    }
    Ok(())
}

#[test]
fn workers_refactor_at_the_same_time(rt: HostRuntime) -> Result<(), Fail> {
    let runs = [
        ("read_blif a; refactor -w 2; ps", 2, 2),
        ("read_blif a; refactor -w 4; ps", 4, 2),
        ("read_blif a; refactor -w 16; ps", 16, 2),
        ("read_blif a; refactor -w 4 -L; ps", 4, 2),
    ];
    for (script, workers, commits) in runs {
        let words = ["synth", "-c", script];
        let found = shared(&rt, rt.alloc(), &words, workers, commits)?;
        assert_eq!(rt; found, (0, true, true), "{script}");
    }
    Ok(())
}

#[test]
fn workers_substitute_at_the_same_time(rt: HostRuntime) -> Result<(), Fail> {
    let runs = [
        ("read_blif a; resub -w 2; ps", 2, 2),
        ("read_blif a; resub -w 4; ps", 4, 2),
        ("read_blif a; resub -w 16; ps", 16, 2),
        ("read_blif a; resub -w 4 -L; ps", 4, 2),
    ];
    for (script, workers, commits) in runs {
        let words = ["synth", "-c", script];
        let found = shared(&rt, rt.alloc(), &words, workers, commits)?;
        assert_eq!(rt; found, (0, true, true), "{script}");
    }
    Ok(())
}

// By the option of the command line.
#[test]
fn commands_have_the_workers_of_the_command_line(rt: HostRuntime) -> Result<(), Fail> {
    for script in [
        "read_blif a; rw; ps",
        "read_blif a; rf; ps",
        "read_blif a; rs; ps",
    ] {
        let words = ["synth", "-w", "4", "-c", script];
        let found = shared(&rt, rt.alloc(), &words, 4, 2)?;
        assert_eq!(rt; found, (0, true, true), "{script}");
    }
    Ok(())
}
