//! The LUTs that mapping may use: how many inputs they have, and what area they take.

ghost use Rattle.std.specs.Prelude.{◌≡◌, ◌≤◌};
ghost use Rattle.syn_words.specs.Commands.{inputs_of, luts_alike};

use std::marker::Model;

// So many inputs at least.
const FEWEST_INPUTS: u8 = 2;

// So many inputs at most.
const MAX_INPUTS: u8 = 8;

// So many inputs where no number is given, and no file of LUTs was read.
const USUAL_INPUTS: u8 = 6;

// The area of each LUT where all cost the same, in thousandths.
const EQUAL_AREA: u32 = 1000;

/// How many inputs a LUT may have: a number from 2 to 8. Contracts see it.
#[derive(Clone, Copy, Debug)]
pub struct LutInputs {
    number: u8,
}

impl Model for LutInputs {
    ghost use Rattle.std.specs.Prelude.{◌≤◌, ℕ};

    ghost Value = { ℕ };

    ghost view = { λ inputs. inputs.number };

    ghost inverse = { λ number. record { number = number } };

    ghost invariant = { λ inputs. (2 ≤ inputs.number) × (inputs.number ≤ 8) };
}

// A number of inputs, at least the fewest and at most the most.
fn inputs_of(number: u64) -> u8
    ensures { result ≡ inputs_of number }
{
    if number < FEWEST_INPUTS as u64 {
        FEWEST_INPUTS
    } else if number < MAX_INPUTS as u64 {
        number as u8
    } else {
        MAX_INPUTS
    }
}

impl LutInputs {
    /// So many inputs as are usual, which are 6.
    pub fn usual() -> LutInputs
        ensures { result ≡ 6 }
    {
        LutInputs {
            number: USUAL_INPUTS,
        }
    }

    /// So many inputs. A number out of range gives the nearest in it.
    pub fn of(number: u64) -> LutInputs
        ensures { result ≡ inputs_of number }
    {
        LutInputs {
            number: inputs_of(number),
        }
    }

    /// The number.
    pub fn number(&self) -> u8
        ensures number { result ≡ self.now }
        ensures many { 2 ≤ result }
        ensures few { result ≤ 8 }
    {
        self.number
    }
}

/// The LUTs that mapping may use.
#[derive(Clone, Copy, Debug)]
pub struct LutSizes {
    /// How many inputs they have at most.
    pub most: LutInputs,
    /// The areas of those of 1 to 8 inputs, in thousandths.
    pub areas: [u32; 8],
}

impl LutSizes {
    /// LUTs of so many inputs at most that all cost the same. A number out of range gives the nearest in it.
    pub fn alike(number: u64) -> LutSizes
        ensures { result ≡ luts_alike (inputs_of number) }
    {
        LutSizes {
            most: LutInputs::of(number),
            areas: [EQUAL_AREA; 8],
        }
    }

    /// LUTs of as many inputs as are usual, which are 6, that all cost the same.
    pub fn usual() -> LutSizes
        ensures { result ≡ luts_alike 6 }
    {
        LutSizes {
            most: LutInputs::usual(),
            areas: [EQUAL_AREA; 8],
        }
    }
}
