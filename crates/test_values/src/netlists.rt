//! Calls on netlists of one model that are read, built, generated and printed.

ghost use Rattle.std.specs.Prelude.{◌<◌, ◌^◌, length, IfOk};
ghost use Rattle.syn_netlist.specs.Views.{netlist_in};
ghost use Rattle.syn_reader.specs.Limits.{NetWithin};

use crate::answers::put;
use std::alloc::{AllocError, Global};
use syn_build::{build, build_checked};
use syn_gen::generate;
use syn_netlist::{CheckedNetlist, Names, Netlist, cost, marks_of, table_order};
use syn_reader::{ReadFault, read, read_checked};
use syn_text::print;

// The most bytes of a text.
const MAX_BYTES: usize = 1 << 24;

// The text of lines that `;` parts.
fn text_of(alloc: Global, lines: &str) -> Result<String, AllocError> {
    let mut text = String::new(alloc);
    for line in lines.split(';') {
        let line = line.trim();
        if !line.is_empty() {
            text.push_str(line)?;
            text.push('\n')?;
        }
    }
    Ok(text)
}

/// The netlist of a text of at most so many bytes.
pub fn read_text(alloc: Global, text: &str) -> Result<CheckedNetlist, ReadFault>
    ensures within { IfOk result (λ checked. NetWithin (netlist_in checked.netlist)) }
    ensures names { IfOk result (λ checked. length checked.netlist.frame.names < 2 ^ 31) }
{
    let bytes = text.as_bytes();
    if bytes.len() > MAX_BYTES {
        return Err(ReadFault::NoMemory);
    }
    let checked = read_checked(alloc, bytes)?;
    Ok(checked)
}

// The lines of what a netlist is printed as.
fn put_printed(out: &mut String, printed: Result<Vec<u8>, AllocError>) -> Result<(), AllocError> {
    let bytes = printed?;
    for line in str::from_utf8(bytes.as_slice())
        .unwrap_or("not UTF-8")
        .lines()
    {
        out.push_str(line)?;
        out.push(';')?;
    }
    Ok(())
}

// The netlist that is generated of a seed and a size, printed.
fn generated(alloc: Global, seed: u64, size: u32) -> Result<Vec<u8>, AllocError>
    requires { size < 2 ^ 31 }
{
    let netlist = generate(alloc, seed, size)?;
    print(alloc, &netlist)
}

// The numbers of a netlist's sources and observed signals, the order of its tables twice, and its cost.
fn put_lists(alloc: Global, out: &mut String, checked: &CheckedNetlist) -> Result<(), AllocError>
    requires { NetWithin (netlist_in checked.now.netlist) }
{
    put(out, checked.netlist.frame.sources(alloc))?;
    put(out, checked.netlist.frame.observed(alloc))?;
    put(out, Ok(table_order(&checked.netlist, alloc).ok()))?;
    put(out, Ok(checked.order.as_slice()))?;
    put(out, Ok(cost(&checked.netlist)))
}

// The graph of a borrowed netlist.
fn put_graph(alloc: Global, out: &mut String, checked: &CheckedNetlist) -> Result<(), AllocError>
    requires within { NetWithin (netlist_in checked.now.netlist) }
    requires names { length checked.now.netlist.frame.names < 2 ^ 31 }
{
    checked.is_checked();
    let network = build(alloc, &checked.netlist)?;
    put(out, Ok(&network.body))
}

// The graph of a netlist that is handed over.
fn put_built(alloc: Global, out: &mut String, checked: CheckedNetlist) -> Result<(), AllocError>
    requires within { NetWithin (netlist_in checked.netlist) }
    requires names { length checked.netlist.frame.names < 2 ^ 31 }
{
    let network = build_checked(alloc, checked)?;
    put(out, Ok(&network.body))
}

// The answer to a call on a netlist that was read, or the fault.
fn answer_on(alloc: Global, out: &mut String, call: &str, text: &str) -> Result<(), AllocError> {
    match (call, read_text(alloc, text)) {
        (_, Err(fault)) => put(out, Ok(fault)),
        ("lists", Ok(checked)) => put_lists(alloc, out, &checked),
        ("printed", Ok(checked)) => put_printed(out, print(alloc, &checked.netlist)),
        ("borrowed", Ok(checked)) => put_graph(alloc, out, &checked),
        (_, Ok(checked)) => put_built(alloc, out, checked),
    }
}

// The model, the inputs, clocks, outputs and latches of a text that is read alone, and the order of its tables.
fn put_frame(alloc: Global, out: &mut String, netlist: &Netlist) -> Result<(), AllocError> {
    let frame = &netlist.frame;
    out.push_str(str::from_utf8(frame.model.as_slice()).unwrap_or("not UTF-8"))?;
    put(out, Ok(frame.inputs.as_slice()))?;
    put(out, Ok(frame.clocks.as_slice()))?;
    put(out, Ok(frame.outputs.as_slice()))?;
    put(out, Ok(frame.latches.as_slice()))?;
    put(out, Ok(table_order(netlist, alloc).ok()))
}

// The same of a text, or its fault.
fn put_alone(alloc: Global, out: &mut String, text: &str) -> Result<(), AllocError> {
    if text.len() > MAX_BYTES {
        return Ok(());
    }
    match read(alloc, text.as_bytes()) {
        Ok(netlist) => put_frame(alloc, out, &netlist),
        Err(fault) => put(out, Ok(fault)),
    }
}

// The numbers of names that are added, how many there are, and which are found then.
fn put_names(alloc: Global, out: &mut String) -> Result<(), AllocError> {
    let mut names = Names::new(alloc);
    put(out, names.add(alloc, b"a"))?;
    put(out, names.add(alloc, b"bc"))?;
    put(out, names.add(alloc, b"a"))?;
    put(out, Ok(names.len()))?;
    put(out, Ok((names.find(b"bc"), names.find(b"b"))))
}

/// The answer to a call on the lines of a text: the fault where it has one.
pub fn answer(alloc: Global, out: &mut String, call: &str, lines: &str) -> Result<(), AllocError> {
    let text = text_of(alloc, lines)?;
    match call {
        "names" => put_names(alloc, out),
        "marks" => put(out, marks_of(alloc, 4, &[2, 0, 2])),
        "generated" => put_printed(out, generated(alloc, 1, 1)),
        "alone" => put_alone(alloc, out, text.as_str()),
        _ => answer_on(alloc, out, call, text.as_str()),
    }
}
