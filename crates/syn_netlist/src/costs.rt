//! What a netlist costs.

ghost use Rattle.std.specs.Prelude.{◌≡◌, ◌<◌, ◌^◌};
ghost use Rattle.std.specs.List.{sum_by};
ghost use Rattle.syn_netlist.specs.Costs.{cost_of, is_sign, row_cost};
ghost use Rattle.syn_netlist.specs.Views.{netlist_in};

use crate::netlists::Netlist;
use crate::words::Word;

fn is_sign(c: u8) -> bool
    ensures { result ≡ is_sign c }
{
    c == b'0' || c == b'1'
}

fn row_cost(row: &[u8]) -> u64
    ensures { result ≡ row_cost row.now }
{
    let mut signs: u64 = 0;
    for c in row {
        if is_sign(*c) {
            signs += 1;
        }
    }
    signs + 1
}

fn table_cost(rows: &[Word]) -> u64
    requires { sum_by row_cost rows.now < 2 ^ 64 }
    ensures { result ≡ sum_by row_cost rows.now }
{
    let mut total = 0;
    for row in rows {
        total += row_cost(row.as_slice());
    }
    total
}

/// What a netlist costs: the characters `0` and `1` in its rows, and the rows.
pub fn cost(n: &Netlist) -> u64
    requires { cost_of (netlist_in n.now) < 2 ^ 64 }
    ensures { result ≡ cost_of (netlist_in n.now) }
{
    let mut total = 0;
    for table in n.tables.as_slice() {
        total += table_cost(table.rows.as_slice());
    }
    total
}
