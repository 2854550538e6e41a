//! Plans and the tables that they compute.

ghost use Rattle.std.specs.Prelude.{◌≡◌, ℕ, ◌+◌, ◌-◌, ◌*◌, ◌/◌, ◌<◌, ◌≤◌, ◌∷◌, [], ◌++◌, length, Bool, true, false};
ghost use Rattle.arrayvec.specs.ArrayVec.{array_vec_len};
ghost use Rattle.syn_plan.specs.declared.TheConstants.{MAX_INDEXES, MAX_LEAVES};
ghost use Rattle.syn_plan.specs.Gates.{complement_of, in_order, index_of, literal_of};

use crate::tables::Tables;
use crate::{FEW_INDEXES, MAX_GATES, MAX_INDEXES, MAX_LEAVES, PLit};
use arrayvec::ArrayVec;
use syn_truth::Truth;

/// A circuit of AND gates over at most 8 leaves. Each gate refers to smaller indexes: the constant 0,
/// the leaves, and the gates before it.
#[derive(Debug, PartialEq, Eq, Drop)]
pub struct Plan {
    pub leaves: u8,
    pub gates: ArrayVec<(PLit, PLit), MAX_GATES>,
    pub out: PLit,
    ghost few: { leaves ≤ MAX_LEAVES },
    ghost ordered: { in_order (1 + leaves) gates.items ≡ true },
    ghost there: { index_of out < 1 + leaves + array_vec_len gates },
}

impl Plan {
    ghost use Rattle.syn_truth.specs.Truth.{AtEach, value_of};
    ghost use Rattle.syn_plan.specs.Plans.{plan_truth};

    /// The plan over so many leaves that has no gate, and is 0.
    pub fn new(leaves: u8) -> Plan
        requires { leaves ≤ MAX_LEAVES }
        ensures leaves { result.leaves ≡ leaves }
        ensures gates { result.gates.items ≡ [] }
        ensures out { result.out ≡ literal_of 0 }
    {
        Plan {
            leaves,
            gates: ArrayVec::new(),
            out: PLit(0),
        }
    }

    /// Adds the gate that is the AND of two literals, and gives its plain literal. The output stays.
    pub fn and(&mut self, a: PLit, b: PLit) -> PLit
        requires room { array_vec_len self.old.gates < MAX_GATES }
        requires first { index_of a < 1 + self.old.leaves + array_vec_len self.old.gates }
        requires second { index_of b < 1 + self.old.leaves + array_vec_len self.old.gates }
        ensures literal { result ≡ literal_of (1 + self.old.leaves + array_vec_len self.old.gates) }
        ensures gates { self.new.gates.items ≡ self.old.gates.items ++ (a, b) ∷ [] }
        ensures leaves { self.new.leaves ≡ self.old.leaves }
        ensures out { self.new.out ≡ self.old.out }
    {
        let index = 1 + u16::from(self.leaves) + self.gates.len() as u16;
        self.gates.push((a, b));
        PLit::of(index, false)
    }

    // The table that the plan computes, in room for the tables of so many indexes.
    fn truth_in<const INDEXES: usize>(&self) -> Truth
        requires room { self.now.leaves + array_vec_len self.now.gates < INDEXES }
        requires most { INDEXES ≤ MAX_INDEXES }
        ensures vars { result.vars ≡ self.now.leaves }
        ensures values { AtEach self.now.leaves (λ xs. value_of result xs ≡ plan_truth self.now xs) }
    {
        let mut tables = Tables::<INDEXES>::of_leaves(self.leaves);
        for (a, b) in self.gates.iter() {
            let gate = tables.table(*a).and(tables.table(*b));
            tables.push(gate);
        }
        tables.table(self.out)
    }

    /// The table that the plan computes.
    pub fn truth(&self) -> Truth
        ensures vars { result.vars ≡ self.now.leaves }
        ensures values { AtEach self.now.leaves (λ xs. value_of result xs ≡ plan_truth self.now xs) }
    {
        if self.leaves as usize + self.gates.len() < FEW_INDEXES {
            self.truth_in::<FEW_INDEXES>()
        } else {
            self.truth_in::<MAX_INDEXES>()
        }
    }
}

/// The plan over no leaves that is 0.
impl Default for Plan {
    ghost use Rattle.std.specs.Prelude.{[]};

    fn default() -> Plan
        ensures leaves { result.leaves ≡ 0 }
        ensures gates { result.gates.items ≡ [] }
        ensures out { result.out ≡ literal_of 0 }
    {
        Plan::new(0)
    }
}
