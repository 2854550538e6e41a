//! LUTs by their signals.

use syn_lutnet::Lut;

/// The LUT of a signal, if it has one: after the constant come so many sources, then the LUTs.
#[inline]
pub(crate) fn lut_of(luts: &[Lut], sources: u32, signal: u32) -> Option<&Lut> {
    let place = (signal as usize)
        .saturating_sub(sources as usize)
        .saturating_sub(1);
    if signal > sources && place < luts.len() {
        Some(&luts[place])
    } else {
        None
    }
}
