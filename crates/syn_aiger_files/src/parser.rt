//! From the bytes of a file to what it says.

ghost use Rattle.std.specs.Prelude.{◌≡◌, ◌⊎◌, ◌<◌, ◌^◌, List, length, IfErr, IfOk, Ok, Err};
ghost use Rattle.syn_aiger_files.specs.declared.fault.AigFault.TheVariants.{NoMemory};
ghost use Rattle.syn_aiger_files.specs.Files.{Symbol};
ghost use Rattle.syn_aiger_files.specs.FirstNames.{with_properties};
ghost use Rattle.syn_aiger_files.specs.Gathered.{aig_with, lists_of};
ghost use Rattle.syn_aiger_files.specs.Spelling.{spelled};

use crate::bodies::{Body, read_body};
use crate::cuts::cut_line;
use crate::fault::AigFault;
use crate::files::{Aig, Header, Inputs, Symbol};
use crate::first_names::with_properties;
use crate::header::read_header;
use crate::symbols::read_symbols;
use std::alloc::Global;
use syn_lists::Items;

// What a first line and a body say together, with these symbols, also of bad states and constraints.
fn aig_by(h: &Header, body: Body, symbols: Vec<Symbol>) -> Aig
    ensures { (ss : List Symbol) → symbols.items ≡ with_properties h.now ss → result ≡ aig_with h.now (lists_of body) ss }
{
    let Body {
        inputs,
        latches,
        outputs,
        ands,
    } = body;
    let inputs = if h.ascii {
        Inputs::listed(inputs)
    } else {
        Inputs::first(h.inputs)
    };
    Aig {
        variables: h.variables,
        inputs,
        latches: Items::of(latches),
        outputs: Items::of(outputs),
        ands: Items::of(ands),
        symbols: Items::of(symbols),
    }
}

/// What the file of these bytes says; or its first fault, which is one of its first line, a line, a pair or a symbol. By the mark `properties` bad states and constraints are outputs; else they are a fault. `NoMemory` may come for any bytes.
pub fn parse(alloc: Global, bytes: &[u8], properties: bool) -> Result<Aig, AigFault>
    requires { length bytes.now < 2 ^ 32 }
    ensures says { IfOk result (λ g. spelled properties bytes.now ≡ Ok g) }
    ensures fault { IfErr result (λ f. (f ≡ NoMemory) ⊎ (spelled properties bytes.now ≡ Err f)) }
{
    let (line, below) = cut_line(bytes);
    let header = read_header(properties, line)?;
    let (body, rest) = read_body(alloc, &header, bytes.len(), below)?;
    let symbols = read_symbols(alloc, &header, bytes.len(), rest)?;
    let all = with_properties(alloc, &header, symbols)?;
    Ok(aig_by(&header, body, all))
}
