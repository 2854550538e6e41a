//! Prices of LUTs: their costs in the units of the estimates.

use crate::areas::cost_of;
use crate::figures::UNIT;

/// The price of a LUT by how many inputs it has. The cheapest has the price of one unit.
#[derive(Clone, Copy, Debug)]
pub(crate) struct Prices {
    prices: [u32; PRICES],
}

// There are prices of LUTs of fewer inputs than this.
const PRICES: usize = 16;

// A price is at most this: that of 256 of the cheapest LUTs.
const MOST: u64 = 65_536;

// The cost of the cheapest LUT of 2 to k inputs that costs anything, 0 where none does.
fn base_of(areas: &[u32], k: u8) -> u32 {
    for inputs in 2..k as usize + 1 {
        let cost = cost_of(areas, inputs);
        if cost > 0 {
            return cost;
        }
    }
    0
}

// A cost as a price, where the cheapest LUT costs so much; at least 1.
fn price_of(cost: u32, base: u32) -> u32 {
    if base == 0 {
        return UNIT;
    }
    let price = cost as u64 * UNIT as u64 / base as u64;
    price.max(1).min(MOST) as u32
}

impl Prices {
    /// Of LUTs that all cost the same.
    pub(crate) fn equal() -> Prices {
        Prices {
            prices: [UNIT; PRICES],
        }
    }

    /// By these areas, of LUTs of at most k inputs.
    pub(crate) fn of(areas: &[u32], k: u8) -> Prices {
        let most = k as usize;
        let base = base_of(areas, k);
        let mut prices = [UNIT; PRICES];
        for (inputs, price) in prices.iter_mut().enumerate() {
            let cost = cost_of(areas, inputs.max(2).min(most));
            *price = price_of(cost, base);
        }
        Prices { prices }
    }

    /// Whether all LUTs cost the same.
    pub(crate) fn are_equal(&self) -> bool {
        for price in &self.prices {
            if *price != UNIT {
                return false;
            }
        }
        true
    }

    /// The price of a LUT of so many inputs.
    #[inline(always)]
    pub(crate) fn at(&self, inputs: u32) -> u32 {
        self.prices[inputs as usize % PRICES]
    }
}
