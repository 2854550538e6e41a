//! Truth tables of functions of 0 to 8 variables.
//!
//! Contracts speak of the value of a table at a list of values of its variables, variable 0 first.
//! The operations are masks and shifts: none goes over the minterms, and none takes memory.
#![tactic(auto)]

mod laws;
mod words;

ghost use Rattle.std.specs.Prelude.{◌≡◌, ℕ, ◌+◌, ◌-◌, ◌*◌, ◌^◌, ◌<◌, ◌≤◌, min};
ghost use Rattle.syn_truth.specs.declared.TheConstants.{MAX_VARS};

pub use laws::{each_minterm, one_table};
use words::{WORD_VARS, ones, stride, variable};

/// The most variables of a table.
pub const MAX_VARS: u8 = 8;

/// The table of a function of 0 to 8 variables.
///
/// The value at minterm m, whose bit j is the value of variable j, is bit m of `low` where m is below
/// 128, and else bit m - 128 of `high`. The bits of the minterms from `2 ^ vars` up are 0.
#[derive(Clone, Copy, Debug, PartialEq, Eq, Hash)]
pub struct Truth {
    pub vars: u8,
    pub low: u128,
    pub high: u128,
    ghost few: { vars ≤ MAX_VARS },
    ghost low_small: { low < 2 ^ min (2 ^ vars) 128 },
    ghost high_small: { high < 2 ^ (2 ^ vars - 128) },
}

impl Truth {
    ghost use Rattle.std.specs.Prelude.{◌&&◌, ◌≢◌, not, Bool, false, true, IsTrue, ◌↔◌, if◌then◌else◌, List, length, slice_set, slice_index_or, take};
    ghost use Rattle.std.specs.List.{swap};
    ghost use Rattle.syn_truth.specs.Truth.{AtEach, Depends, value_of};
    ghost use Rattle.syn_truth.specs.Words.{value_in};

    /// The table of at most 7 variables that has the values of a word.
    #[inline]
    fn of_word(vars: u8, word: u128) -> Truth
        requires { vars ≤ 7 }
        ensures vars { result.vars ≡ vars }
        ensures values { AtEach vars (λ xs. value_of result xs ≡ value_in word xs) }
    {
        Truth {
            vars,
            low: word & ones(vars),
            high: 0,
        }
    }

    /// The table of 8 variables that has the values of `high` where variable 7 is true, else of `low`.
    #[inline]
    fn of_both(low: u128, high: u128) -> Truth
        ensures vars { result.vars ≡ 8 }
        ensures values { AtEach 8 (λ xs. value_of result xs ≡ value_in (if slice_index_or xs 7 false then high else low) (take 7 xs)) }
    {
        Truth {
            vars: MAX_VARS,
            low,
            high,
        }
    }

    /// The table of `vars` variables that has the values of `high` where variable 7 is true, else of `low`.
    #[inline]
    pub fn of_words(vars: u8, low: u128, high: u128) -> Truth
        requires { vars ≤ MAX_VARS }
        ensures vars { result.vars ≡ vars }
        ensures values { AtEach vars (λ xs. value_of result xs ≡ value_in (if slice_index_or xs 7 false then high else low) (take 7 xs)) }
    {
        if vars <= WORD_VARS {
            Truth::of_word(vars, low)
        } else {
            Truth::of_both(low, high)
        }
    }

    /// The table of `vars` variables that has one value at each minterm.
    #[inline]
    pub fn constant(vars: u8, value: bool) -> Truth
        requires { vars ≤ MAX_VARS }
        ensures vars { result.vars ≡ vars }
        ensures values { AtEach vars (λ xs. value_of result xs ≡ value) }
    {
        let word = if value { u128::MAX } else { 0 };
        Truth::of_words(vars, word, word)
    }

    /// The table of variable `i` among `vars` variables.
    #[inline]
    pub fn var(vars: u8, i: u8) -> Truth
        requires few { vars ≤ MAX_VARS }
        requires within { i < vars }
        ensures vars { result.vars ≡ vars }
        ensures values { AtEach vars (λ xs. value_of result xs ≡ slice_index_or xs i false) }
    {
        if i < WORD_VARS {
            let word = variable(i);
            Truth::of_words(vars, word, word)
        } else {
            Truth::of_words(vars, 0, u128::MAX)
        }
    }

    /// The table that is true where both are.
    #[inline]
    pub fn and(self, other: Truth) -> Truth
        requires { self.vars ≡ other.vars }
        ensures vars { result.vars ≡ self.vars }
        ensures values { AtEach self.vars (λ xs. value_of result xs ≡ (value_of self xs && value_of other xs)) }
    {
        Truth {
            vars: self.vars,
            low: self.low & other.low,
            high: self.high & other.high,
        }
    }

    /// The table that is true where this one is not.
    #[inline]
    pub fn not(self) -> Truth
        ensures vars { result.vars ≡ self.vars }
        ensures values { AtEach self.vars (λ xs. value_of result xs ≡ not (value_of self xs)) }
    {
        Truth::of_words(self.vars, !self.low, !self.high)
    }

    /// The table with variable `i` set to a value. It has as many variables, and does not depend on that one.
    #[inline]
    pub fn cofactor(self, i: u8, value: bool) -> Truth
        requires { i < self.vars }
        ensures vars { result.vars ≡ self.vars }
        ensures values { AtEach self.vars (λ xs. value_of result xs ≡ value_of self (slice_set xs i value)) }
    {
        if i < WORD_VARS {
            let low = words::with_value(self.low, i, value);
            let high = words::with_value(self.high, i, value);
            Truth::of_words(self.vars, low, high)
        } else {
            let word = if value { self.high } else { self.low };
            Truth::of_words(self.vars, word, word)
        }
    }

    /// Whether the value changes with variable `i` at some values of the others.
    #[inline]
    pub fn depends(self, i: u8) -> bool
        requires { i < self.vars }
        ensures { IsTrue result ↔ Depends self i }
    {
        self.cofactor(i, true) != self.cofactor(i, false)
    }

    /// The table in which variables `i` and `j` have changed places.
    #[inline]
    pub fn swap(self, i: u8, j: u8) -> Truth
        requires first { i < self.vars }
        requires second { j < self.vars }
        ensures vars { result.vars ≡ self.vars }
        ensures values { AtEach self.vars (λ xs. value_of result xs ≡ value_of self (swap xs i j)) }
    {
        if i < j {
            self.swap_rising(i, j)
        } else if j < i {
            self.swap_rising(j, i)
        } else {
            self
        }
    }

    #[inline]
    fn swap_rising(self, low: u8, high: u8) -> Truth
        requires rising { low < high }
        requires within { high < self.vars }
        ensures vars { result.vars ≡ self.vars }
        ensures values { AtEach self.vars (λ xs. value_of result xs ≡ value_of self (swap xs low high)) }
    {
        if high < WORD_VARS {
            let low_word = words::swapped(self.low, low, high);
            let high_word = words::swapped(self.high, low, high);
            Truth::of_words(self.vars, low_word, high_word)
        } else {
            self.swap_with_last(low)
        }
    }

    /// The table in which variables `i` and 7 have changed places.
    #[inline]
    fn swap_with_last(self, i: u8) -> Truth
        requires within { i < 7 }
        requires vars { self.vars ≡ 8 }
        ensures vars { result.vars ≡ self.vars }
        ensures values { AtEach self.vars (λ xs. value_of result xs ≡ value_of self (swap xs i 7)) }
    {
        let low = words::chosen(i, self.low, words::with_value(self.high, i, false));
        let high = words::chosen(i, words::with_value(self.low, i, true), self.high);
        Truth::of_words(self.vars, low, high)
    }

    /// The table with variable `i` complemented.
    #[inline]
    pub fn flip(self, i: u8) -> Truth
        requires { i < self.vars }
        ensures vars { result.vars ≡ self.vars }
        ensures values { AtEach self.vars (λ xs. value_of result xs ≡ value_of self (slice_set xs i (not (slice_index_or xs i false)))) }
    {
        if i < WORD_VARS {
            let low = words::flipped(self.low, i);
            let high = words::flipped(self.high, i);
            Truth::of_words(self.vars, low, high)
        } else {
            Truth::of_words(self.vars, self.high, self.low)
        }
    }

    /// The table of `vars` variables that does not depend on the new ones.
    pub fn widen(self, vars: u8) -> Truth
        requires few { vars ≤ MAX_VARS }
        requires not_fewer { self.vars ≤ vars }
        ensures vars { result.vars ≡ vars }
        ensures values { AtEach vars (λ xs. value_of result xs ≡ value_of self (take self.vars xs)) }
    {
        let mut wide = self;
        while wide.vars < vars {
            wide = wide.widen_by_one();
        }
        wide
    }

    #[inline]
    fn widen_by_one(self) -> Truth
        requires { self.vars < MAX_VARS }
        ensures vars { result.vars ≡ self.vars + 1 }
        ensures values { AtEach (self.vars + 1) (λ xs. value_of result xs ≡ value_of self (take self.vars xs)) }
    {
        if self.vars < WORD_VARS {
            self.widen_word()
        } else {
            Truth::of_both(self.low, self.low)
        }
    }

    #[inline]
    fn widen_word(self) -> Truth
        requires { self.vars < 7 }
        ensures vars { result.vars ≡ self.vars + 1 }
        ensures values { AtEach (self.vars + 1) (λ xs. value_of result xs ≡ value_of self (take self.vars xs)) }
    {
        Truth {
            vars: self.vars + 1,
            low: self.low | self.low << stride(self.vars),
            high: 0,
        }
    }
}

impl Truth {
    ghost use Rattle.std.specs.Prelude.{List, take};
    ghost use Rattle.syn_truth.specs.Truth.{AtEach, value_of};
    ghost use Rattle.syn_truth.specs.Words.{value_in};

    /// The table of four variables whose value at minterm m is bit m of a number.
    #[inline]
    pub fn from_bits(bits: u16) -> Truth
        ensures vars { result.vars ≡ 4 }
        ensures values { AtEach 4 (λ xs. value_of result xs ≡ value_in bits xs) }
    {
        Truth::of_word(4, u128::from(bits))
    }

    /// The table of at most four variables, widened to four, as a number: bit m is the value at minterm m.
    #[inline]
    pub fn to_bits(self) -> u16
        requires { self.vars ≤ 4 }
        ensures { AtEach 4 (λ xs. value_in result xs ≡ value_of self (take self.vars xs)) }
    {
        self.widen(4).low as u16
    }
}

/// The table of no variables that is false.
impl Default for Truth {
    ghost use Rattle.std.specs.Prelude.{false, []};
    ghost use Rattle.syn_truth.specs.Truth.{value_of};

    fn default() -> Truth
        ensures vars { result.vars ≡ 0 }
        ensures values { value_of result [] ≡ false }
    {
        Truth::constant(0, false)
    }
}
