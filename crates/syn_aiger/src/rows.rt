//! The rows of a file.

ghost use Rattle.std.specs.Prelude.{◌≡◌, ◌++◌, length, map, replicate, IfOk};
ghost use Rattle.syn_rows.specs.declared.Row.{Row};
ghost use Rattle.syn_aiger.specs.Placing.{ReadsDefined, and_row, rows_in};

use crate::file_numbers::Numbered;
use std::alloc::{AllocError, Global};
use syn_rows::Row;

// So many sources.
fn sources(alloc: Global, count: usize) -> Result<Vec<Row>, AllocError>
    ensures { IfOk result (λ v. v.items ≡ replicate count Row.Source) }
{
    vec![in alloc; Row::Source; count]
}

/// The rows of a file: the constant, the sources, and its ANDs in their order. The only error is want of memory.
pub fn rows(alloc: Global, file: &Numbered) -> Result<Vec<Row>, AllocError>
    requires { ReadsDefined file.now.aig }
    ensures { IfOk result (λ v. v.items ≡ rows_in file.now.aig) }
{
    let mut rows = sources(alloc, file.source_count() + 1)?;
    for a in file.aig.ands.as_slice() {
        rows.push(Row::And(file.lit(a.second), file.lit(a.first)))?;
    }
    Ok(rows)
}
