//! The bytes of a written netlist, line by line.

ghost use Rattle.std.specs.Prelude.{◌≡◌, ◌<◌, List, [], ◌∷◌, ◌++◌, codes, flat_map, length, map, true, IfOk, OnOk};
ghost use Rattle.syn_netlist.specs.Faults.{IsChecked};
ghost use Rattle.syn_netlist.specs.Kept.{control_number, latch_numbers, latches_below};
ghost use Rattle.syn_netlist.specs.Numbers.{all_below, kind_at, word_at, words_at};
ghost use Rattle.syn_netlist.specs.Tables.{tables_below};
ghost use Rattle.syn_netlist.specs.Views.{frame_in, latch_in, netlist_in, table_in};
ghost use Rattle.syn_reader.specs.Reading.{Reads};
ghost use Rattle.syn_netlist.specs.TextLines.{blanked, line};
ghost use Rattle.syn_text.specs.Printed.{clock_line, digit, frame_lines, kind_word, kind_words, latch_line, output_word, printed, row_line, table_lines};

use crate::laws::{printed_reads, well_formed};
use std::alloc::{AllocError, Global};
use syn_netlist::{Frame, Latch, LatchKind, Names, Netlist, Table, Word};

fn push_bytes(out: &mut Vec<u8>, bytes: &[u8]) -> Result<(), AllocError>
    ensures { OnOk result (out.new.items ≡ out.old.items ++ bytes.now) }
{
    out.extend_from_slice(bytes)?;
    Ok(())
}

// A blank and a word.
fn push_word(out: &mut Vec<u8>, word: &[u8]) -> Result<(), AllocError>
    ensures { OnOk result (out.new.items ≡ out.old.items ++ (32 ∷ word.now)) }
{
    out.push(b' ')?;
    push_bytes(out, word)
}

fn push_words(out: &mut Vec<u8>, names: &Names, numbers: &[u32]) -> Result<(), AllocError>
    requires { all_below (length names.now) numbers.now ≡ true }
    ensures { OnOk result (out.new.items ≡ out.old.items ++ blanked (words_at names.now numbers.now)) }
{
    for n in numbers {
        push_word(out, names.word(*n))?;
    }
    Ok(())
}

fn push_line(
    out: &mut Vec<u8>,
    first: &[u8],
    names: &Names,
    numbers: &[u32],
) -> Result<(), AllocError>
    requires { all_below (length names.now) numbers.now ≡ true }
    ensures { OnOk result (out.new.items ≡ out.old.items ++ line first.now (words_at names.now numbers.now)) }
{
    push_bytes(out, first)?;
    push_words(out, names, numbers)?;
    out.push(b'\n')?;
    Ok(())
}

fn push_row(out: &mut Vec<u8>, row: &[u8], on: bool) -> Result<(), AllocError>
    ensures { OnOk result (out.new.items ≡ out.old.items ++ row_line on row.now) }
{
    if !row.is_empty() {
        push_bytes(out, row)?;
        out.push(b' ')?;
    }
    out.push(if on { b'1' } else { b'0' })?;
    out.push(b'\n')?;
    Ok(())
}

fn push_rows(out: &mut Vec<u8>, rows: &[Word], on: bool) -> Result<(), AllocError>
    ensures { OnOk result (out.new.items ≡ out.old.items ++ flat_map (row_line on) rows.now) }
{
    for row in rows {
        push_row(out, row.as_slice(), on)?;
    }
    Ok(())
}

fn push_last(out: &mut Vec<u8>, names: &Names, numbers: &[u32], last: u32) -> Result<(), AllocError>
    requires numbers { all_below (length names.now) numbers.now ≡ true }
    requires last { last < length names.now }
    ensures { OnOk result (out.new.items ≡ out.old.items ++ blanked (words_at names.now numbers.now ++ word_at names.now last ∷ [])) }
{
    push_words(out, names, numbers)?;
    push_word(out, names.word(last))?;
    Ok(())
}

fn push_heading(
    out: &mut Vec<u8>,
    names: &Names,
    inputs: &[u32],
    output: u32,
) -> Result<(), AllocError>
    requires inputs { all_below (length names.now) inputs.now ≡ true }
    requires output { output < length names.now }
    ensures { OnOk result (out.new.items ≡ out.old.items ++ line (codes ".names") (words_at names.now inputs.now ++ word_at names.now output ∷ [])) }
{
    push_bytes(out, b".names")?;
    push_last(out, names, inputs, output)?;
    out.push(b'\n')?;
    Ok(())
}

fn push_table(out: &mut Vec<u8>, names: &Names, table: &Table) -> Result<(), AllocError>
    requires inputs { all_below (length names.now) table.now.inputs ≡ true }
    requires output { table.now.output < length names.now }
    ensures { OnOk result (out.new.items ≡ out.old.items ++ table_lines (table_in names.now table.now)) }
{
    push_heading(out, names, table.inputs.as_slice(), table.output)?;
    push_rows(out, table.rows.as_slice(), table.on)
}

fn kind_text(kind: LatchKind) -> &'static [u8]
    ensures { result.now ≡ kind_word kind }
{
    match kind {
        LatchKind::Fe => b"fe",
        LatchKind::Re => b"re",
        LatchKind::Ah => b"ah",
        LatchKind::Al => b"al",
        LatchKind::As => b"as",
    }
}

fn push_kind(
    out: &mut Vec<u8>,
    names: &Names,
    kind: Option<(LatchKind, Option<u32>)>,
) -> Result<(), AllocError>
    requires { all_below (length names.now) (control_number kind) ≡ true }
    ensures { OnOk result (out.new.items ≡ out.old.items ++ blanked (kind_words (kind_at names.now kind))) }
{
    match kind {
        None => Ok(()),
        Some((kind, None)) => {
            push_word(out, kind_text(kind))?;
            push_word(out, b"NIL")
        }
        Some((kind, Some(control))) => {
            push_word(out, kind_text(kind))?;
            push_word(out, names.word(control))
        }
    }
}

fn push_digit(out: &mut Vec<u8>, number: u8) -> Result<(), AllocError>
    requires { number < 10 }
    ensures { OnOk result (out.new.items ≡ out.old.items ++ (32 ∷ digit number)) }
{
    out.push(b' ')?;
    out.push(b'0' + number)?;
    Ok(())
}

#[tactic(auto, using(crate::proofs::Blanks::blanked_push))]
fn push_kind_and_init(
    out: &mut Vec<u8>,
    names: &Names,
    kind: Option<(LatchKind, Option<u32>)>,
    init: u8,
) -> Result<(), AllocError>
    requires control { all_below (length names.now) (control_number kind) ≡ true }
    requires init { init < 10 }
    ensures { OnOk result (out.new.items ≡ out.old.items ++ blanked (kind_words (kind_at names.now kind) ++ digit init ∷ [])) }
{
    push_kind(out, names, kind)?;
    push_digit(out, init)
}

fn push_latch(out: &mut Vec<u8>, names: &Names, latch: Latch) -> Result<(), AllocError>
    requires { all_below (length names.now) (latch_numbers latch) ≡ true }
    ensures { OnOk result (out.new.items ≡ out.old.items ++ latch_line (latch_in names.now latch)) }
{
    push_bytes(out, b".latch")?;
    push_word(out, names.word(latch.feed))?;
    push_word(out, names.word(latch.output))?;
    push_kind_and_init(out, names, latch.kind, latch.init)?;
    out.push(b'\n')?;
    Ok(())
}

fn push_latches(out: &mut Vec<u8>, names: &Names, latches: &[Latch]) -> Result<(), AllocError>
    requires { latches_below (length names.now) latches.now ≡ true }
    ensures { OnOk result (out.new.items ≡ out.old.items ++ flat_map latch_line (map (latch_in names.now) latches.now)) }
{
    for latch in latches {
        push_latch(out, names, *latch)?;
    }
    Ok(())
}

fn push_tables(out: &mut Vec<u8>, names: &Names, tables: &[Table]) -> Result<(), AllocError>
    requires { tables_below (length names.now) tables.now ≡ true }
    ensures { OnOk result (out.new.items ≡ out.old.items ++ flat_map table_lines (map (table_in names.now) tables.now)) }
{
    for table in tables {
        push_table(out, names, table)?;
    }
    Ok(())
}

fn push_clocks(out: &mut Vec<u8>, names: &Names, clocks: &[u32]) -> Result<(), AllocError>
    requires { all_below (length names.now) clocks.now ≡ true }
    ensures { OnOk result (out.new.items ≡ out.old.items ++ clock_line (words_at names.now clocks.now)) }
{
    if clocks.is_empty() {
        Ok(())
    } else {
        push_line(out, b".clock", names, clocks)
    }
}

fn push_model(out: &mut Vec<u8>, model: &[u8]) -> Result<(), AllocError>
    ensures { OnOk result (out.new.items ≡ out.old.items ++ line (codes ".model") (model.now ∷ [])) }
{
    push_bytes(out, b".model")?;
    push_word(out, model)?;
    out.push(b'\n')?;
    Ok(())
}

fn push_frame(out: &mut Vec<u8>, frame: &Frame) -> Result<(), AllocError>
    ensures { OnOk result (out.new.items ≡ out.old.items ++ frame_lines (frame_in frame.now)) }
{
    push_model(out, frame.model.as_slice())?;
    push_line(out, b".inputs", &frame.names, frame.inputs.as_slice())?;
    push_line(out, b".outputs", &frame.names, frame.outputs.as_slice())?;
    push_clocks(out, &frame.names, frame.clocks.as_slice())?;
    push_latches(out, &frame.names, frame.latches.as_slice())
}

// The lines of its frame, its tables in order, the end.
fn print_lines(alloc: Global, netlist: &Netlist) -> Result<Vec<u8>, AllocError>
    ensures { IfOk result (λ bytes. bytes.items ≡ printed (netlist_in netlist.now)) }
{
    let mut out = Vec::new(alloc);
    push_frame(&mut out, &netlist.frame)?;
    push_tables(&mut out, &netlist.frame.names, netlist.tables.as_slice())?;
    push_bytes(&mut out, b".end\n")?;
    Ok(out)
}

/// The bytes of a netlist as it is written: the lines of its frame, its tables in order, the end. Those of a netlist without a fault read as that netlist, and as no other. The only error is want of memory.
pub fn print(alloc: Global, netlist: &Netlist) -> Result<Vec<u8>, AllocError>
    ensures printed { IfOk result (λ bytes. bytes.items ≡ printed (netlist_in netlist.now)) }
    ensures reads_back { IsChecked (netlist_in netlist.now) → IfOk result (λ bytes. Reads bytes.items (netlist_in netlist.now)) }
{
    well_formed(netlist);
    printed_reads();
    print_lines(alloc, netlist)
}
