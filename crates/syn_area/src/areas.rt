//! What LUTs cost.

ghost use Rattle.std.specs.Prelude.{◌≡◌, ◌-◌, ◌<◌, ◌≤◌, ◌^◌, length, min};
ghost use Rattle.syn_rows.specs.declared.TheConstants.{NODE_LIMIT};
ghost use Rattle.syn_lutnet.specs.Data.{luts_data};
ghost use Rattle.syn_area.specs.Areas.{cost_of, least_area, luts_cost};

use syn_lutnet::Lut;

// The lesser of two areas.
fn lesser(a: u32, b: u32) -> u32
    ensures { result ≡ min a b }
{
    if a < b { a } else { b }
}

// The least of areas, the greatest number where there is none.
fn least_area(areas: &[u32]) -> u32
    ensures { result ≡ least_area areas.now }
{
    let mut least = u32::MAX;
    for area in areas {
        least = lesser(least, *area);
    }
    least
}

// Where the areas of LUTs of at least so many inputs begin.
fn place_of(inputs: usize, count: usize) -> usize
    ensures value { result ≡ min (inputs - 1) count }
    ensures few { result ≤ count }
{
    let place = inputs.saturating_sub(1);
    if place < count { place } else { count }
}

/// What a LUT of so many inputs costs: the least area of those of as many inputs or more.
pub(crate) fn cost_of(areas: &[u32], inputs: usize) -> u32
    ensures { result ≡ cost_of areas.now inputs }
{
    let (_, rest) = areas.split_at(place_of(inputs, areas.len()));
    least_area(rest)
}

// What a LUT costs.
fn cost_of_lut(areas: &[u32], lut: &Lut) -> u32
    ensures { result ≡ cost_of areas.now (length lut.now.inputs.items) }
{
    cost_of(areas, lut.inputs.len())
}

/// What LUTs cost together.
pub(crate) fn luts_cost(areas: &[u32], luts: &[Lut]) -> u64
    requires { length luts.now < NODE_LIMIT }
    ensures { result ≡ luts_cost areas.now (luts_data luts.now) }
{
    let mut cost = 0;
    for lut in luts {
        let more = cost_of_lut(areas, lut);
        cost += u64::from(more);
    }
    cost
}
