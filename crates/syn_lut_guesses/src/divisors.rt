//! Which signals are looked at in place of an input of a LUT: its divisors. Nothing is promised of them.

use crate::luts::lut_of;
use crate::references::References;
use crate::slack::Slack;
use std::alloc::{AllocError, Global};
use syn_lutnet::Lut;
use syn_sat::{at, put};

/// The inputs of at most so many signals of the cone are taken.
const CONE: usize = 100;

/// At most so many signals of the cone, and so many more that are made of these.
const MOST: usize = 300;

const MADE: usize = 60;

/// At most so many readers of a signal are looked at.
const MANY: u32 = 30;

/// The divisors of a LUT.
#[derive(Debug, Drop)]
pub(crate) struct Divisors {
    sources: u32,
    /// The signals, the nearest of the cone first, then those that are made of these.
    pub(crate) signals: Vec<u32>,
    // By signal: the last search that has seen it.
    seen: Vec<u32>,
    search: u32,
}

impl Divisors {
    /// No divisors, of so many signals. The only error of this call and of those below is want of memory.
    pub(crate) fn new(alloc: Global, sources: u32, signals: usize) -> Result<Divisors, AllocError> {
        let seen = vec![in alloc; 0; signals]?;
        Ok(Divisors {
            sources,
            signals: Vec::new(alloc),
            seen,
            search: 0,
        })
    }

    #[inline]
    fn is_seen(&self, signal: u32) -> bool {
        at(self.seen.as_slice(), signal as usize, 0) == self.search
    }

    // Takes a signal, if it wasn't seen.
    fn take(&mut self, signal: u32) -> Result<(), AllocError> {
        if !self.is_seen(signal) {
            put(self.seen.as_mut_slice(), signal as usize, self.search);
            self.signals.push(signal)?;
        }
        Ok(())
    }

    // Takes the inputs of a signal.
    fn take_inputs(&mut self, luts: &[Lut], signal: u32) -> Result<(), AllocError> {
        if let Some(lut) = lut_of(luts, self.sources, signal) {
            for input in lut.inputs.as_slice() {
                self.take(*input)?;
            }
        }
        Ok(())
    }

    // Whether all inputs of a LUT are taken.
    fn is_made(&self, luts: &[Lut], signal: u32) -> bool {
        let Some(lut) = lut_of(luts, self.sources, signal) else {
            return false;
        };
        for input in lut.inputs.as_slice() {
            if !self.is_seen(*input) {
                return false;
            }
        }
        true
    }

    // Takes the LUTs that fit a signal and read a divisor, and nothing that isn't one.
    fn take_readers(
        &mut self,
        luts: &[Lut],
        references: &References,
        slack: &Slack,
        divisor: u32,
        signal: u32,
    ) -> Result<(), AllocError> {
        let mut edge = references.first_edge(divisor);
        for _ in 0..MANY {
            let reader = references.reader(edge);
            if reader as usize >= self.seen.len() {
                break;
            }
            if slack.fits(reader, signal) && !self.is_seen(reader) && self.is_made(luts, reader) {
                self.take(reader)?;
            }
            edge = references.next_edge(edge);
        }
        Ok(())
    }

    /// Finds the divisors of a LUT, its inputs first.
    pub(crate) fn find(
        &mut self,
        luts: &[Lut],
        references: &References,
        slack: &Slack,
        signal: u32,
    ) -> Result<(), AllocError> {
        self.search = self.search.wrapping_add(1);
        self.signals.clear();
        self.take_inputs(luts, signal)?;
        for i in 0..CONE {
            if i >= self.signals.len() || self.signals.len() >= MOST {
                break;
            }
            let divisor = at(self.signals.as_slice(), i, 0);
            self.take_inputs(luts, divisor)?;
        }
        let end = self.signals.len().saturating_add(MADE);
        for i in 0..MOST + MADE {
            if i >= self.signals.len() || self.signals.len() >= end {
                break;
            }
            let divisor = at(self.signals.as_slice(), i, 0);
            self.take_readers(luts, references, slack, divisor, signal)?;
        }
        Ok(())
    }
}
