//! The tables of the indexes of a plan.

ghost use Rattle.std.specs.Prelude.{◌≡◌, ℕ, ◌+◌, ◌/◌, ◌<◌, ◌≤◌, [], ◌∷◌, ◌++◌, length, All, Bool, false};
ghost use Rattle.arrayvec.specs.ArrayVec.{array_vec_len};
ghost use Rattle.syn_truth.specs.Truth.{AtEach, value_of};
ghost use Rattle.syn_plan.specs.declared.TheConstants.{MAX_LEAVES};
ghost use Rattle.syn_plan.specs.Gates.{index_of, literal_value};
ghost use Rattle.syn_plan.specs.Tables.{values_in};

use crate::{MAX_LEAVES, PLit};
use arrayvec::ArrayVec;
use syn_truth::Truth;

/// One table for each index, with room for so many: the constant 0, the leaves, and the gates so far.
#[derive(Drop)]
pub(crate) struct Tables<const INDEXES: usize> {
    pub(crate) vars: u8,
    pub(crate) items: ArrayVec<Truth, INDEXES>,
    ghost few: { vars ≤ MAX_LEAVES },
    ghost alike: { All (λ t. t.vars ≡ vars) items.items },
}

impl<const INDEXES: usize> Tables<INDEXES> {
    /// The tables of the constant 0 and of so many leaves.
    #[inline]
    pub(crate) fn of_leaves(vars: u8) -> Self
        requires few { vars ≤ MAX_LEAVES }
        requires room { vars < INDEXES }
        ensures vars { result.vars ≡ vars }
        ensures len { array_vec_len result.items ≡ 1 + vars }
        ensures values { AtEach vars (λ xs. values_in result.items.items xs ≡ false ∷ xs) }
    {
        let mut items = ArrayVec::new();
        items.push(Truth::constant(vars, false));
        for i in 0..vars {
            items.push(Truth::var(vars, i));
        }
        Tables { vars, items }
    }

    /// Adds the table of the next index.
    #[inline]
    pub(crate) fn push(&mut self, table: Truth)
        requires room { array_vec_len self.old.items < INDEXES }
        requires vars { table.vars ≡ self.old.vars }
        ensures vars { self.new.vars ≡ self.old.vars }
        ensures items { self.new.items.items ≡ self.old.items.items ++ table ∷ [] }
    {
        self.items.push(table);
    }

    /// The table of a literal.
    #[inline]
    pub(crate) fn table(&self, literal: PLit) -> Truth
        requires { index_of literal < array_vec_len self.now.items }
        ensures vars { result.vars ≡ self.now.vars }
        ensures values { AtEach self.now.vars (λ xs. value_of result xs ≡ literal_value (values_in self.now.items.items xs) literal) }
    {
        let plain = self.items[literal.index() as usize];
        if literal.complemented() {
            plain.not()
        } else {
            plain
        }
    }
}
