//! Standard output as a sink.
ghost use Rattle.std.specs.Prelude.{◌≡◌};
ghost use Rattle.syn_io.specs.RealFiles.{untold_screen};

use crate::pieces::write_whole;
use crate::{Sink, SinkFailed};
use std::io;

/// Standard output of the system `R`. It tells nothing of what it took.
#[derive(Drop)]
pub struct RealSink<'a, R> {
    rt: &'a R,
    faults: u64,
}

impl<'a, R: Print> RealSink<'a, R> {
    /// No call has failed yet.
    pub fn new(rt: &'a R) -> RealSink<'a, R>
        ensures { (⟦<RealSink<'a, R> as Sink>⟧.screen result).faults ≡ 0 }
    {
        RealSink { rt, faults: 0 }
    }
}

impl<'a, R: Print> Sink for RealSink<'a, R> {
    ghost screen = { λ sink. untold_screen sink.faults };

    fn put(&mut self, piece: &[u8]) -> Result<(), SinkFailed> {
        let answer = write_whole(&mut io::writer(self.rt), piece);
        if answer.is_err() {
            self.faults = self.faults.saturating_add(1);
        }
        answer
    }
}
