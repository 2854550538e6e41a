//! From a checked netlist to rows with observed literals.

ghost use Rattle.std.specs.Prelude.{◌≡◌, ◌≢◌, ℕ, ◌+◌, ◌^◌, ◌<◌, ◌≤◌, ◌&&◌, not, All, Bool, false, true, length, map, count_by, if◌then◌else◌, slice_index, IfOk, OnOk};
ghost use Rattle.std.specs.List.{sum_by};
ghost use Rattle.syn_rows.specs.declared.TheConstants.{NODE_LIMIT};
ghost use Rattle.syn_rows.specs.Joining.{complement};
ghost use Rattle.syn_rows.specs.Rows.{node_of};
ghost use Rattle.syn_rows.specs.Values.{lit_value, rows_function};
ghost use Rattle.syn_netlist.specs.Covers.{fits_bit};
ghost use Rattle.syn_netlist.specs.Costs.{cost_of, is_sign, row_cost};
ghost use Rattle.syn_netlist.specs.Lists.{observed, sources};
ghost use Rattle.syn_netlist.specs.Numbers.{all_below, words_at};
ghost use Rattle.syn_netlist.specs.Faults.{PutsInOrder};
ghost use Rattle.syn_netlist.specs.Order.{defined};
ghost use Rattle.syn_netlist.specs.Values.{HasFunction};
ghost use Rattle.syn_netlist.specs.Views.{frame_in, netlist_in};
ghost use Rattle.syn_netlist.specs.Words.{distinct};
ghost use Rattle.syn_network.specs.NamedGraphs.{source_lit};
ghost use Rattle.syn_hashed.specs.Hashed.{IsHashed, lit_at};
ghost use Rattle.syn_hashed.specs.Growing.{Extends};
ghost use Rattle.syn_lut_rows.specs.LutLiterals.{AllThere};
ghost use Rattle.syn_build.specs.Covering.{IsCover, IsFit, IsMatch, IsOrMatch};
ghost use Rattle.syn_network.specs.Networks.{HasOwnSources};
ghost use Rattle.syn_build.specs.Naming.{in_order, IsNamed};

use std::alloc::{AllocError, Global};
use syn_hashed::HashedRows;
use syn_netlist::{Netlist, Table, Word};
use syn_rows::{FALSE, Lit, Row, TRUE};

/// Rows with a literal for each observed signal.
#[derive(Debug, Drop)]
pub struct Built {
    /// The rows: node 0, the sources, then ANDs, each made once.
    pub hashed: HashedRows,
    /// The literals of the observed signals, in their order.
    pub observed: Vec<Lit>,
}

/// The rows and observed literals that the tables give, made in this order.
pub fn build_tables(alloc: Global, netlist: &Netlist, order: &[u32]) -> Result<Built, AllocError>
    requires order { PutsInOrder (netlist_in netlist.now) order.now }
    requires room { length (sources (frame_in netlist.now.frame)) + cost_of (netlist_in netlist.now) + 1 < NODE_LIMIT }
    ensures sources { IfOk result (λ b. b.hashed.source_count ≡ length (sources (frame_in netlist.now.frame))) }
    ensures few { IfOk result (λ b. length b.hashed.rows.items ≤ length (sources (frame_in netlist.now.frame)) + 1 + cost_of (netlist_in netlist.now)) }
    ensures count { IfOk result (λ b. length b.observed.items ≡ length (observed (frame_in netlist.now.frame))) }
    ensures within { IfOk result (λ b. AllThere b.hashed.rows.items b.observed.items) }
    ensures own { IfOk result (λ b. HasOwnSources (frame_in netlist.now.frame) b.observed.items) }
    ensures function { IfOk result (λ b. HasFunction (netlist_in netlist.now) (rows_function b.hashed.rows.items b.observed.items)) }
{
    syn_netlist::ordered_has_one();
    syn_netlist::order_keeps_function();
    let sources = netlist.frame.sources(alloc)?;
    let mut hashed = HashedRows::new(alloc, sources.len())?;
    let literals = named_literals(alloc, netlist, order, &mut hashed, sources.as_slice())?;
    let signals = netlist.frame.observed(alloc)?;
    let observed = literals_of(alloc, literals.as_slice(), signals.as_slice())?;
    Ok(Built { hashed, observed })
}

// The literals of all names that are defined, over rows that have the sources alone.
fn named_literals(
    alloc: Global,
    netlist: &Netlist,
    order: &[u32],
    hashed: &mut HashedRows,
    numbers: &[u32],
) -> Result<Vec<Lit>, AllocError>
    requires order { PutsInOrder (netlist_in netlist.now) order.now }
    requires words { words_at netlist.now.frame.names numbers.now ≡ sources (frame_in netlist.now.frame) }
    requires below { all_below (length netlist.now.frame.names) numbers.now ≡ true }
    requires few { length numbers.now + 1 < NODE_LIMIT }
    requires count { hashed.old.source_count ≡ length numbers.now }
    requires rows { length hashed.old.rows.items ≡ length numbers.now + 1 }
    requires room { length hashed.old.rows.items + cost_of (netlist_in netlist.now) < NODE_LIMIT }
    ensures sources { hashed.new.source_count ≡ hashed.old.source_count }
    ensures few { length hashed.new.rows.items ≤ length hashed.old.rows.items + cost_of (netlist_in netlist.now) }
    ensures named { IfOk result (λ v. IsNamed (in_order (netlist_in netlist.now) order.now) netlist.now.frame.names (defined (in_order (netlist_in netlist.now) order.now)) hashed.new.rows.items v.items) }
{
    let count = netlist.frame.names.len();
    let mut literals = source_literals(alloc, count, numbers)?;
    name_tables(alloc, netlist, order, hashed, literals.as_mut_slice())?;
    Ok(literals)
}

// So many literals, constant 0 but for the sources, whose numbers are given: the first has the literal of node 1, and so on.
fn source_literals(alloc: Global, count: u32, numbers: &[u32]) -> Result<Vec<Lit>, AllocError>
    requires below { all_below count numbers.now ≡ true }
    requires once { (i j : ℕ) → i < j → j < length numbers.now → slice_index numbers.now i ≢ slice_index numbers.now j }
    requires few { length numbers.now + 1 < NODE_LIMIT }
    ensures count { IfOk result (λ v. length v.items ≡ count) }
    ensures there { IfOk result (λ v. All (λ l. node_of l ≤ length numbers.now) v.items) }
    ensures own { IfOk result (λ v. (i : ℕ) → i < length numbers.now → lit_at v.items (slice_index numbers.now i) ≡ source_lit i) }
{
    let mut literals = constants(alloc, count)?;
    give_sources(literals.as_mut_slice(), numbers);
    Ok(literals)
}

// So many times constant 0.
fn constants(alloc: Global, count: u32) -> Result<Vec<Lit>, AllocError>
    ensures count { IfOk result (λ v. length v.items ≡ count) }
    ensures there { IfOk result (λ v. All (λ l. node_of l ≡ 0) v.items) }
{
    vec![in alloc; FALSE; count as usize]
}

// Gives each source's number the literal of its node.
fn give_sources(literals: &mut [Lit], numbers: &[u32])
    requires below { all_below (length literals.old) numbers.now ≡ true }
    requires once { (i j : ℕ) → i < j → j < length numbers.now → slice_index numbers.now i ≢ slice_index numbers.now j }
    requires few { length numbers.now + 1 < NODE_LIMIT }
    requires none { All (λ l. node_of l ≡ 0) literals.old }
    ensures there { All (λ l. node_of l ≤ length numbers.now) literals.new }
    ensures own { (i : ℕ) → i < length numbers.now → lit_at literals.new (slice_index numbers.now i) ≡ source_lit i }
{
    for (i, number) in numbers.iter().enumerate() {
        literals[*number as usize] = Lit::of(i as u32 + 1, false);
    }
}

// The literals of names by their numbers.
fn literals_of(alloc: Global, literals: &[Lit], numbers: &[u32]) -> Result<Vec<Lit>, AllocError>
    requires { all_below (length literals.now) numbers.now ≡ true }
    ensures { IfOk result (λ v. v.items ≡ map (lit_at literals.now) numbers.now) }
{
    let mut found = Vec::new(alloc);
    for number in numbers {
        found.push(literals[*number as usize])?;
    }
    Ok(found)
}

// Gives each table's output its literal, table by table in the given order, where the sources have theirs.
fn name_tables(
    alloc: Global,
    netlist: &Netlist,
    order: &[u32],
    hashed: &mut HashedRows,
    literals: &mut [Lit],
) -> Result<(), AllocError>
    requires order { PutsInOrder (netlist_in netlist.now) order.now }
    requires names { distinct netlist.now.frame.names ≡ true }
    requires named { IsNamed (in_order (netlist_in netlist.now) order.now) netlist.now.frame.names (sources (frame_in netlist.now.frame)) hashed.old.rows.items literals.old }
    requires room { length hashed.old.rows.items + cost_of (netlist_in netlist.now) < NODE_LIMIT }
    ensures sources { hashed.new.source_count ≡ hashed.old.source_count }
    ensures few { length hashed.new.rows.items ≤ length hashed.old.rows.items + cost_of (netlist_in netlist.now) }
    ensures named { OnOk result (IsNamed (in_order (netlist_in netlist.now) order.now) netlist.now.frame.names (defined (in_order (netlist_in netlist.now) order.now)) hashed.new.rows.items literals.new) }
{
    let tables = netlist.tables.as_slice();
    for number in order {
        let table = &tables[*number as usize];
        let literal = literal_of(alloc, hashed, literals, table)?;
        literals[table.output as usize] = literal;
    }
    Ok(())
}

// A table's literal, from the literals of its inputs.
fn literal_of(
    alloc: Global,
    hashed: &mut HashedRows,
    literals: &[Lit],
    table: &Table,
) -> Result<Lit, AllocError>
    requires inputs { all_below (length literals.now) table.now.inputs ≡ true }
    requires there { AllThere hashed.old.rows.items literals.now }
    requires room { length hashed.old.rows.items + sum_by row_cost table.now.rows < NODE_LIMIT }
    ensures sources { hashed.new.source_count ≡ hashed.old.source_count }
    ensures grows { Extends hashed.old.rows.items hashed.new.rows.items }
    ensures few { length hashed.new.rows.items ≤ length hashed.old.rows.items + sum_by row_cost table.now.rows }
    ensures there { IfOk result (λ l. node_of l < length hashed.new.rows.items) }
    ensures value { IfOk result (λ l. IsCover hashed.old.rows.items table.now.rows table.now.on (map (lit_at literals.now) table.now.inputs) hashed.new.rows.items l) }
{
    let inputs = literals_of(alloc, literals, table.inputs.as_slice())?;
    let literal = table_literal(hashed, inputs.as_slice(), table.rows.as_slice(), table.on)?;
    Ok(literal)
}

// The literal that says whether a character fits an input: `1` the input, `0` its complement, `-` constant 1, any other constant 0.
fn fitting(character: u8, input: Lit) -> Lit
    ensures value { (v : ℕ → Bool) → v 0 ≡ false → lit_value v result ≡ fits_bit character (lit_value v input) }
    ensures node { node_of result ≤ node_of input }
    ensures constant { is_sign character ≡ false → result.0 < 2 }
{
    match character {
        b'-' => TRUE,
        b'1' => input,
        b'0' => input.not(),
        _ => FALSE,
    }
}

// The AND of a literal and of a character's fit to an input.
fn and_character(
    hashed: &mut HashedRows,
    all: Lit,
    character: u8,
    input: Lit,
) -> Result<Lit, AllocError>
    requires all { node_of all < length hashed.old.rows.items }
    requires input { node_of input < length hashed.old.rows.items }
    requires room { length hashed.old.rows.items + 1 < NODE_LIMIT }
    ensures sources { hashed.new.source_count ≡ hashed.old.source_count }
    ensures grows { Extends hashed.old.rows.items hashed.new.rows.items }
    ensures few { length hashed.new.rows.items ≤ length hashed.old.rows.items + (if is_sign character then 1 else 0) }
    ensures there { IfOk result (λ l. node_of l < length hashed.new.rows.items) }
    ensures value { IfOk result (λ l. IsFit hashed.old.rows.items all character input hashed.new.rows.items l) }
{
    hashed.and(all, fitting(character, input))
}

// The AND of the fits of a row's characters, from constant 1, in the order of the inputs.
fn cube_literal(hashed: &mut HashedRows, inputs: &[Lit], row: &[u8]) -> Result<Lit, AllocError>
    requires inputs { AllThere hashed.old.rows.items inputs.now }
    requires room { length hashed.old.rows.items + row_cost row.now < NODE_LIMIT }
    ensures sources { hashed.new.source_count ≡ hashed.old.source_count }
    ensures grows { Extends hashed.old.rows.items hashed.new.rows.items }
    ensures few { length hashed.new.rows.items + 1 ≤ length hashed.old.rows.items + row_cost row.now }
    ensures there { IfOk result (λ l. node_of l < length hashed.new.rows.items) }
    ensures value { IfOk result (λ l. IsMatch hashed.old.rows.items row.now inputs.now hashed.new.rows.items l) }
{
    let mut all = TRUE;
    for (i, character) in row.iter().enumerate() {
        if i >= inputs.len() {
            return Ok(FALSE);
        }
        all = and_character(hashed, all, *character, inputs[i])?;
    }
    Ok(all)
}

// The OR of a literal and of a row's match.
fn or_row(hashed: &mut HashedRows, any: Lit, inputs: &[Lit], row: &[u8]) -> Result<Lit, AllocError>
    requires any { node_of any < length hashed.old.rows.items }
    requires inputs { AllThere hashed.old.rows.items inputs.now }
    requires room { length hashed.old.rows.items + row_cost row.now < NODE_LIMIT }
    ensures sources { hashed.new.source_count ≡ hashed.old.source_count }
    ensures grows { Extends hashed.old.rows.items hashed.new.rows.items }
    ensures few { length hashed.new.rows.items ≤ length hashed.old.rows.items + row_cost row.now }
    ensures there { IfOk result (λ l. node_of l < length hashed.new.rows.items) }
    ensures value { IfOk result (λ l. IsOrMatch hashed.old.rows.items any row.now inputs.now hashed.new.rows.items l) }
{
    let literal = cube_literal(hashed, inputs, row)?;
    Ok(hashed.or(any, literal)?)
}

// The OR of the rows' matches, from constant 0, complemented where the rows list the zeros.
fn table_literal(
    hashed: &mut HashedRows,
    inputs: &[Lit],
    rows: &[Word],
    on: bool,
) -> Result<Lit, AllocError>
    requires inputs { AllThere hashed.old.rows.items inputs.now }
    requires room { length hashed.old.rows.items + sum_by row_cost rows.now < NODE_LIMIT }
    ensures sources { hashed.new.source_count ≡ hashed.old.source_count }
    ensures grows { Extends hashed.old.rows.items hashed.new.rows.items }
    ensures few { length hashed.new.rows.items ≤ length hashed.old.rows.items + sum_by row_cost rows.now }
    ensures there { IfOk result (λ l. node_of l < length hashed.new.rows.items) }
    ensures value { IfOk result (λ l. IsCover hashed.old.rows.items rows.now on inputs.now hashed.new.rows.items l) }
{
    let mut any = FALSE;
    for row in rows {
        any = or_row(hashed, any, inputs, row.as_slice())?;
    }
    Ok(signed(any, on))
}

/// A literal, or its complement.
#[inline]
pub(crate) fn signed(literal: Lit, plain: bool) -> Lit
    ensures literal { result ≡ (if plain then literal else complement literal) }
    ensures value { (v : ℕ → Bool) → lit_value v result ≡ (if plain then lit_value v literal else not (lit_value v literal)) }
    ensures node { node_of result ≡ node_of literal }
{
    if plain { literal } else { literal.not() }
}
