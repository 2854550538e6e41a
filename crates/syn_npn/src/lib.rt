//! Classes of functions of four variables under negation, permutation and complementation of the variables.
//!
//! A function is a `u16`: bit m is its value at the minterm m, and bit i of a minterm is the value of variable i.
#![tactic(auto)]

ghost use Rattle.std.specs.Prelude.{◌≡◌, ◌+◌, ◌*◌, ◌/◌, ◌%◌, ◌<◌, true, ◌==◌};
ghost use Rattle.syn_npn.specs.Images.{inverse, is_permutation, moved, place_in, read_at, value_at};
ghost use Rattle.syn_npn.specs.Permutations.{permutation_at};

mod classes;
mod laws;
mod table;
mod walk;

pub use classes::{canon, image, undo};
pub use laws::{each_permutation, one_canon};
pub use table::Classes;

/// Turns a function f into its image g: g(x) is f(y), complemented where `neg` is set, where variable i of y is
/// variable `perm[i]` of x, complemented where bit i of `flips` is set.
#[derive(Clone, Copy, Debug, PartialEq, Eq)]
pub struct Transform {
    /// A permutation of 0 to 3.
    pub perm: [u8; 4],
    /// Below 16: bit i complements variable i of the function.
    pub flips: u8,
    /// Whether the value is complemented.
    pub neg: bool,
    ghost permutes: { is_permutation perm ≡ true },
    ghost few: { flips < 16 },
}

/// The permutations of 0 to 3 in lexicographic order.
const PERMUTATIONS: [[u8; 4]; 24] = [
    [0, 1, 2, 3],
    [0, 1, 3, 2],
    [0, 2, 1, 3],
    [0, 2, 3, 1],
    [0, 3, 1, 2],
    [0, 3, 2, 1],
    [1, 0, 2, 3],
    [1, 0, 3, 2],
    [1, 2, 0, 3],
    [1, 2, 3, 0],
    [1, 3, 0, 2],
    [1, 3, 2, 0],
    [2, 0, 1, 3],
    [2, 0, 3, 1],
    [2, 1, 0, 3],
    [2, 1, 3, 0],
    [2, 3, 0, 1],
    [2, 3, 1, 0],
    [3, 0, 1, 2],
    [3, 0, 2, 1],
    [3, 1, 0, 2],
    [3, 1, 2, 0],
    [3, 2, 0, 1],
    [3, 2, 1, 0],
];

/// The permutation at a place in lexicographic order.
fn permutation(place: usize) -> [u8; 4]
    requires { place < 24 }
    ensures { result ≡ permutation_at place }
{
    PERMUTATIONS[place]
}

/// Bit `place` of `bits`: the value of a function at a minterm, or of a variable in a minterm.
#[inline]
fn value(bits: u16, place: u8) -> bool
    requires { place < 16 }
    ensures { result ≡ value_at bits place }
{
    bits >> place & 1 == 1
}

impl Transform {
    /// The transform at a place in their order: plain before negated, then permutations in lexicographic order,
    /// then flips rising.
    fn at(place: u16) -> Transform
        requires { place < 768 }
        ensures perm { result.perm ≡ permutation_at (place / 16 % 24) }
        ensures flips { result.flips ≡ place % 16 }
        ensures neg { result.neg ≡ (place / 384 == 1) }
    {
        Transform {
            perm: permutation((place / 16 % 24) as usize),
            flips: (place % 16) as u8,
            neg: place / 384 == 1,
        }
    }

    /// The minterm at which the function is read for the image's value at `minterm`.
    fn read_at(self, minterm: u8) -> u8
        ensures { result ≡ read_at self.perm self.flips minterm }
    {
        let mut read = 0;
        for (i, variable) in self.perm.iter().enumerate() {
            let value = value(minterm as u16, *variable) != value(self.flips as u16, i as u8);
            read += (value as u8) << i;
        }
        read
    }

    /// The place of a variable in the permutation.
    fn place_of(self, variable: u8) -> u8
        ensures { result ≡ place_in self.perm variable }
    {
        for (i, at) in self.perm.iter().enumerate() {
            if *at == variable {
                return i as u8;
            }
        }
        4
    }

    /// The places of the variables 0 to 3 in the permutation.
    #[inline]
    pub fn places(self) -> [u8; 4]
        ensures { result ≡ inverse self.perm }
    {
        [
            self.place_of(0),
            self.place_of(1),
            self.place_of(2),
            self.place_of(3),
        ]
    }

    /// The flips by the image's variables: bit j is the flip of the variable at place j of `back`.
    fn moved_flips(self, back: [u8; 4]) -> u8
        requires { is_permutation back ≡ true }
        ensures { result ≡ moved back self.flips }
    {
        let mut flips = 0;
        for (i, place) in back.iter().enumerate() {
            flips += (value(self.flips as u16, *place) as u8) << i;
        }
        flips
    }
}
