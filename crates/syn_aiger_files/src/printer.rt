//! From what a file says to its bytes.

ghost use Rattle.std.specs.Prelude.{◌≡◌, ◌<◌, ◌^◌, ◌++◌, ◌∷◌, [], decimal, false, flat_map, length, true, IfOk, OnOk};
ghost use Rattle.syn_aiger_files.specs.Literals.{literals_from};
ghost use Rattle.syn_aiger_files.specs.Printed.{ascii_and, ascii_latch, binary_and, binary_latch, body_of, decimals, first_line_of, format_word, grouped, number_line, printed, reset_of, single, symbol_line};
ghost use Rattle.syn_aiger_files.specs.Symbols.{letter_of};
ghost use Rattle.syn_netlist.specs.Words.{is_word_byte};
ghost use Rattle.syn_netlist.specs.TextLines.{blanked, line};

use crate::files::{Aig, AigAnd, AigLatch, Inputs, Place, Symbol};
use itoa::Buffer;
use std::alloc::{AllocError, Global};

fn push_bytes(out: &mut Vec<u8>, bytes: &[u8]) -> Result<(), AllocError>
    ensures { OnOk result (out.new.items ≡ out.old.items ++ bytes.now) }
{
    out.extend_from_slice(bytes)?;
    Ok(())
}

fn push_number(out: &mut Vec<u8>, number: u64) -> Result<(), AllocError>
    ensures { OnOk result (out.new.items ≡ out.old.items ++ decimal number) }
{
    let mut buffer = Buffer::new();
    push_bytes(out, buffer.format(number).as_bytes())
}

// A blank before each number, then the end of the line.
fn push_more(out: &mut Vec<u8>, numbers: &[u64]) -> Result<(), AllocError>
    ensures { OnOk result (out.new.items ≡ out.old.items ++ (blanked (decimals numbers.now) ++ 10 ∷ [])) }
{
    for number in numbers {
        out.push(b' ')?;
        push_number(out, *number)?;
    }
    out.push(b'\n')?;
    Ok(())
}

fn push_line(out: &mut Vec<u8>, first: u64, more: &[u64]) -> Result<(), AllocError>
    ensures { OnOk result (out.new.items ≡ out.old.items ++ number_line first more.now) }
{
    push_number(out, first)?;
    push_more(out, more)
}

// A number in groups of seven bits, so many at most.
fn push_groups(out: &mut Vec<u8>, groups: u8, number: u32) -> Result<(), AllocError>
    ensures { OnOk result (out.new.items ≡ out.old.items ++ grouped groups number) }
{
    if groups == 0 {
        return Ok(());
    }
    if number < 128 {
        out.push(number as u8)?;
        return Ok(());
    }
    out.push((128 + number % 128) as u8)?;
    push_groups(out, groups - 1, number / 128)
}

fn push_heading(out: &mut Vec<u8>, g: &Aig, ascii: bool) -> Result<(), AllocError>
    ensures { OnOk result (out.new.items ≡ out.old.items ++ first_line_of ascii g.now) }
{
    push_bytes(out, if ascii { b"aag" } else { b"aig" })?;
    let counts = [
        g.variables as u64,
        g.inputs.len() as u64,
        g.latches.as_slice().len() as u64,
        g.outputs.as_slice().len() as u64,
        g.ands.as_slice().len() as u64,
    ];
    push_more(out, &counts)
}

fn push_singles(out: &mut Vec<u8>, literals: &[u32]) -> Result<(), AllocError>
    ensures { OnOk result (out.new.items ≡ out.old.items ++ flat_map single literals.now) }
{
    for literal in literals {
        push_line(out, *literal as u64, &[])?;
    }
    Ok(())
}

// The lines of the literals 2, 4, 6 and so on, so many.
fn push_first(out: &mut Vec<u8>, count: usize) -> Result<(), AllocError>
    requires { count < 2 ^ 32 }
    ensures { OnOk result (out.new.items ≡ out.old.items ++ flat_map single (literals_from 1 count)) }
{
    for k in 0..count {
        push_line(out, 2 * (k as u64 + 1), &[])?;
    }
    Ok(())
}

fn push_inputs(out: &mut Vec<u8>, inputs: &Inputs) -> Result<(), AllocError>
    ensures { OnOk result (out.new.items ≡ out.old.items ++ flat_map single inputs.now) }
{
    match inputs.as_listed() {
        Some(literals) => push_singles(out, literals),
        None => push_first(out, inputs.len()),
    }
}

fn push_ascii_latch(out: &mut Vec<u8>, latch: AigLatch) -> Result<(), AllocError>
    ensures { OnOk result (out.new.items ≡ out.old.items ++ ascii_latch latch) }
{
    let own = latch.literal as u64;
    let next = latch.next as u64;
    if latch.reset == 0 {
        return push_line(out, own, &[next]);
    }
    push_line(out, own, &[next, latch.reset as u64])
}

fn push_binary_latch(out: &mut Vec<u8>, latch: AigLatch) -> Result<(), AllocError>
    ensures { OnOk result (out.new.items ≡ out.old.items ++ binary_latch latch) }
{
    let next = latch.next as u64;
    if latch.reset == 0 {
        return push_line(out, next, &[]);
    }
    push_line(out, next, &[latch.reset as u64])
}

fn push_ascii_and(out: &mut Vec<u8>, gate: AigAnd) -> Result<(), AllocError>
    ensures { OnOk result (out.new.items ≡ out.old.items ++ ascii_and gate) }
{
    push_line(
        out,
        gate.literal as u64,
        &[gate.first as u64, gate.second as u64],
    )
}

fn push_binary_and(out: &mut Vec<u8>, gate: AigAnd) -> Result<(), AllocError>
    ensures { OnOk result (out.new.items ≡ out.old.items ++ binary_and gate) }
{
    push_groups(out, 5, gate.literal.saturating_sub(gate.first))?;
    push_groups(out, 5, gate.first.saturating_sub(gate.second))
}

fn push_ascii_latches(out: &mut Vec<u8>, latches: &[AigLatch]) -> Result<(), AllocError>
    ensures { OnOk result (out.new.items ≡ out.old.items ++ flat_map ascii_latch latches.now) }
{
    for latch in latches {
        push_ascii_latch(out, *latch)?;
    }
    Ok(())
}

fn push_binary_latches(out: &mut Vec<u8>, latches: &[AigLatch]) -> Result<(), AllocError>
    ensures { OnOk result (out.new.items ≡ out.old.items ++ flat_map binary_latch latches.now) }
{
    for latch in latches {
        push_binary_latch(out, *latch)?;
    }
    Ok(())
}

fn push_ascii_ands(out: &mut Vec<u8>, gates: &[AigAnd]) -> Result<(), AllocError>
    ensures { OnOk result (out.new.items ≡ out.old.items ++ flat_map ascii_and gates.now) }
{
    for gate in gates {
        push_ascii_and(out, *gate)?;
    }
    Ok(())
}

fn push_binary_ands(out: &mut Vec<u8>, gates: &[AigAnd]) -> Result<(), AllocError>
    ensures { OnOk result (out.new.items ≡ out.old.items ++ flat_map binary_and gates.now) }
{
    for gate in gates {
        push_binary_and(out, *gate)?;
    }
    Ok(())
}

fn push_ascii_body(out: &mut Vec<u8>, g: &Aig) -> Result<(), AllocError>
    ensures { OnOk result (out.new.items ≡ out.old.items ++ body_of true g.now) }
{
    push_inputs(out, &g.inputs)?;
    push_ascii_latches(out, g.latches.as_slice())?;
    push_singles(out, g.outputs.as_slice())?;
    push_ascii_ands(out, g.ands.as_slice())
}

fn push_binary_body(out: &mut Vec<u8>, g: &Aig) -> Result<(), AllocError>
    ensures { OnOk result (out.new.items ≡ out.old.items ++ body_of false g.now) }
{
    push_binary_latches(out, g.latches.as_slice())?;
    push_singles(out, g.outputs.as_slice())?;
    push_binary_ands(out, g.ands.as_slice())
}

/// The letter of a place in a symbol table.
pub fn letter_of(place: Place) -> u8
    ensures letter { result ≡ letter_of place }
    ensures byte { is_word_byte result ≡ true }
{
    match place {
        Place::Input => b'i',
        Place::Latch => b'l',
        Place::Output => b'o',
        Place::Bad => b'b',
        Place::Constraint => b'c',
    }
}

fn push_symbol(out: &mut Vec<u8>, symbol: &Symbol) -> Result<(), AllocError>
    ensures { OnOk result (out.new.items ≡ out.old.items ++ symbol_line symbol.now) }
{
    out.push(letter_of(symbol.place))?;
    push_number(out, symbol.index as u64)?;
    out.push(b' ')?;
    push_bytes(out, symbol.name.as_slice())?;
    out.push(b'\n')?;
    Ok(())
}

fn push_symbols(out: &mut Vec<u8>, symbols: &[Symbol]) -> Result<(), AllocError>
    ensures { OnOk result (out.new.items ≡ out.old.items ++ flat_map symbol_line symbols.now) }
{
    for symbol in symbols {
        push_symbol(out, symbol)?;
    }
    Ok(())
}

/// The bytes of the file that says this, in the ASCII or in the binary format.
pub fn print(alloc: Global, g: &Aig, ascii: bool) -> Result<Vec<u8>, AllocError>
    ensures { IfOk result (λ bytes. bytes.items ≡ printed ascii g.now) }
{
    let mut out = Vec::new(alloc);
    push_heading(&mut out, g, ascii)?;
    if ascii {
        push_ascii_body(&mut out, g)?;
    } else {
        push_binary_body(&mut out, g)?;
    }
    push_symbols(&mut out, g.symbols.as_slice())?;
    Ok(out)
}
