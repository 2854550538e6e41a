//! What is told of a comparison of two networks.

ghost use Rattle.std.specs.Prelude.{◌≡◌, ◌++◌, codes, length, true, IfOk, OnOk};
ghost use Rattle.syn_netlist.specs.Frames.{frame_in};
ghost use Rattle.syn_netlist.specs.Lists.{sources};
ghost use Rattle.syn_netlist.specs.Numbers.{all_below, words_at};
ghost use Rattle.syn_report.specs.Comparisons.{comparison_text, digit_of, setting, settings};

use crate::pieces::{push_counted, push_text};
use std::alloc::{AllocError, Global};
use syn_compare::Comparison;
use syn_netlist::{Frame, Names};

// A value as a digit.
fn digit_of(value: bool) -> &'static [u8]
    ensures { result.now ≡ digit_of value }
{
    if value { b"1" } else { b"0" }
}

// Puts a source with its value behind a text.
fn push_setting(text: &mut Vec<u8>, name: &[u8], value: bool) -> Result<(), AllocError>
    ensures { OnOk result (text.new.items ≡ text.old.items ++ setting name.now value) }
{
    push_text(text, b" ")?;
    push_text(text, name)?;
    push_text(text, b"=")?;
    push_text(text, digit_of(value))
}

// Puts the sources of these numbers with their values behind a text, as many as both lists have.
fn push_settings(
    text: &mut Vec<u8>,
    names: &Names,
    sources: &[u32],
    values: &[bool],
) -> Result<(), AllocError>
    requires { all_below (length names.now) sources.now ≡ true }
    ensures { OnOk result (text.new.items ≡ text.old.items ++ settings (words_at names.now sources.now) values.now) }
{
    for (place, source) in sources.iter().enumerate() {
        if place < values.len() {
            push_setting(text, names.word(*source), values[place])?;
        }
    }
    Ok(())
}

/// What is told of a comparison: of a difference the signal's name, and in a second line the values of the sources, whose
/// names are those of the frame. The only error is want of memory.
pub fn comparison_text(
    alloc: Global,
    frame: &Frame,
    comparison: &Comparison,
) -> Result<Vec<u8>, AllocError>
    ensures { IfOk result (λ text. text.items ≡ comparison_text (sources (frame_in frame.now)) comparison.now) }
{
    let mut text = Vec::new(alloc);
    match comparison {
        Comparison::Equivalent => push_text(&mut text, b"equivalent")?,
        Comparison::Different { signal, values } => {
            push_text(&mut text, b"different: ")?;
            push_text(&mut text, signal.as_slice())?;
            push_text(&mut text, b"\nat")?;
            let sources = frame.sources(alloc)?;
            push_settings(
                &mut text,
                &frame.names,
                sources.as_slice(),
                values.as_slice(),
            )?;
        }
        Comparison::Undecided { signals, of } => {
            push_counted(&mut text, b"undecided: ", *signals as u64)?;
            push_counted(&mut text, b" of ", *of as u64)?;
            push_text(&mut text, b" signals")?;
        }
    }
    text.push(b'\n')?;
    Ok(text)
}
