//! Which LUTs are still needed, and which read a signal. Nothing is promised of this.

use crate::luts::lut_of;
use std::alloc::{AllocError, Global};
use syn_lutnet::{Lut, LutNet};
use syn_sat::{at, put};

/// No edge.
pub(crate) const NONE: u32 = u32::MAX;

/// At most so many LUTs of a cone are counted.
const MOST: usize = 32;

/// Counts of references by signal. A LUT without references is dead: it refers to nothing.
#[derive(Debug, Drop)]
pub(crate) struct References {
    sources: u32,
    counts: Vec<u32>,
    // Each edge has a LUT that reads a signal, or did so once, and the next edge of the same signal; and the first edges.
    readers: Vec<u32>,
    next: Vec<u32>,
    first: Vec<u32>,
    // Signals whose counts came to 0.
    stack: Vec<u32>,
}

impl References {
    /// The references of a net. The only error of this call and of those below is want of memory.
    pub(crate) fn new(alloc: Global, net: &LutNet) -> Result<References, AllocError> {
        let luts = net.luts.as_slice();
        let signals = luts
            .len()
            .saturating_add(net.source_count as usize)
            .saturating_add(1);
        let mut references = References {
            sources: net.source_count,
            counts: vec![in alloc; 0; signals]?,
            readers: Vec::new(alloc),
            next: Vec::new(alloc),
            first: vec![in alloc; NONE; signals]?,
            stack: Vec::new(alloc),
        };
        let mut signal = net.source_count;
        for lut in luts {
            signal = signal.saturating_add(1);
            for input in lut.inputs.as_slice() {
                references.link(signal, *input)?;
                references.raise(*input);
            }
        }
        for lit in net.observed.as_slice() {
            references.raise(lit.node());
        }
        Ok(references)
    }

    /// How often a signal is referred to.
    #[inline]
    pub(crate) fn count(&self, signal: u32) -> u32 {
        at(self.counts.as_slice(), signal as usize, 0)
    }

    // One reference more.
    fn raise(&mut self, signal: u32) {
        let count = self.count(signal);
        put(
            self.counts.as_mut_slice(),
            signal as usize,
            count.saturating_add(1),
        );
    }

    // One reference less: whether it was the last.
    fn lower(&mut self, signal: u32) -> bool {
        let count = self.count(signal);
        put(
            self.counts.as_mut_slice(),
            signal as usize,
            count.saturating_sub(1),
        );
        count == 1
    }

    // A signal has a reader more.
    fn link(&mut self, reader: u32, signal: u32) -> Result<(), AllocError> {
        let edge = u32::try_from(self.readers.len()).unwrap_or(NONE);
        let head = at(self.first.as_slice(), signal as usize, NONE);
        self.readers.push(reader)?;
        self.next.push(head)?;
        put(self.first.as_mut_slice(), signal as usize, edge);
        Ok(())
    }

    /// The first edge of a signal, past the last one where there is none.
    #[inline]
    pub(crate) fn first_edge(&self, signal: u32) -> u32 {
        at(self.first.as_slice(), signal as usize, NONE)
    }

    /// The next edge of the same signal.
    #[inline]
    pub(crate) fn next_edge(&self, edge: u32) -> u32 {
        at(self.next.as_slice(), edge as usize, NONE)
    }

    /// The LUT that reads by an edge, or did so once.
    #[inline]
    pub(crate) fn reader(&self, edge: u32) -> u32 {
        at(self.readers.as_slice(), edge as usize, NONE)
    }

    /// A LUT's inputs were replaced: what it alone referred to is dead.
    pub(crate) fn replace(
        &mut self,
        luts: &[Lut],
        signal: u32,
        old: &[u32],
        new: &[u32],
    ) -> Result<(), AllocError> {
        for input in new {
            self.raise(*input);
            self.link(signal, *input)?;
        }
        self.stack.clear();
        for input in old {
            if self.lower(*input) {
                self.stack.push(*input)?;
            }
        }
        self.fall(luts)
    }

    // The LUTs of the stack refer to nothing any more, nor do those whose last reference falls so.
    fn fall(&mut self, luts: &[Lut]) -> Result<(), AllocError> {
        for _ in 0..u64::MAX {
            let Some(top) = self.stack.pop() else {
                break;
            };
            let Some(lut) = lut_of(luts, self.sources, top) else {
                continue;
            };
            for input in lut.inputs.as_slice() {
                if self.lower(*input) {
                    self.stack.push(*input)?;
                }
            }
        }
        Ok(())
    }

    // One reference less to each input of a LUT; those that had no other are pushed, as far as there is room.
    fn lower_inputs(&mut self, luts: &[Lut], lut: &Lut) -> Result<(), AllocError> {
        for input in lut.inputs.as_slice() {
            let is_lut = lut_of(luts, self.sources, *input).is_some();
            if self.lower(*input) && is_lut && self.stack.len() < MOST {
                self.stack.push(*input)?;
            }
        }
        Ok(())
    }

    // Puts the references of the LUTs of the stack back.
    fn restore(&mut self, luts: &[Lut]) {
        for i in 0..self.stack.len() {
            let signal = at(self.stack.as_slice(), i, 0);
            if let Some(lut) = lut_of(luts, self.sources, signal) {
                for input in lut.inputs.as_slice() {
                    self.raise(*input);
                }
            }
        }
    }

    /// How many LUTs would be dead if a signal lost a reference, up to some: 0 where it has others.
    pub(crate) fn dying(&mut self, luts: &[Lut], signal: u32) -> Result<usize, AllocError> {
        if self.count(signal) != 1 || lut_of(luts, self.sources, signal).is_none() {
            return Ok(0);
        }
        self.stack.clear();
        self.stack.push(signal)?;
        for i in 0..MOST {
            if i >= self.stack.len() {
                break;
            }
            let top = at(self.stack.as_slice(), i, 0);
            if let Some(lut) = lut_of(luts, self.sources, top) {
                self.lower_inputs(luts, lut)?;
            }
        }
        self.restore(luts);
        Ok(self.stack.len())
    }
}
