//! The places of variables among those that are defined.

ghost use Rattle.std.specs.Prelude.{◌<◌};

use std::alloc::{AllocError, Global};
use std::collections::HashMap;

/// The places of variables among those that are defined, from 0: the constant's, then those of the others in the order of
/// their definitions. While each variable is its own place, they take no memory.
#[derive(Drop)]
pub struct Places {
    // How many are defined.
    count: u32,
    // The variables up to this one are their own places.
    run: u32,
    // The places of the others.
    others: HashMap<u32, u32>,
    pub ghost within: { run < count },
}

impl Places {
    ghost use Rattle.std.specs.Prelude.{◌≡◌, ◌+◌, ◌<◌, ◌^◌, ◌++◌, ℕ, List, [], ◌∷◌, false, map, OnOk};
    ghost use Rattle.syn_lists.specs.Numbers.{has_number};
    ghost use Rattle.syn_aiger_files.specs.Files.{variable_of};
    ghost use Rattle.syn_aiger_files.specs.Literals.{literals_from};
    ghost use Rattle.syn_aiger.specs.Placing.{HasPlaces, found};

    /// The constant, and behind it the first so many variables.
    pub fn first(alloc: Global, count: u32) -> Places
        requires { count + 1 < 2 ^ 32 }
        ensures { HasPlaces result (0 ∷ map variable_of (literals_from 1 count)) }
    {
        Places {
            count: count + 1,
            run: count,
            others: HashMap::new(alloc),
        }
    }

    /// The variable's place, where it is defined.
    pub fn place(&self, variable: u32) -> Option<u32>
        ensures { result ≡ found self.now variable }
    {
        if variable <= self.run {
            return Some(variable);
        }
        match self.others.get(&variable) {
            Some(place) => Some(*place),
            None => None,
        }
    }

    /// Defines one more variable.
    pub fn add(&mut self, variable: u32) -> Result<(), AllocError>
        requires { self.old.count + 1 < 2 ^ 32 }
        ensures count { OnOk result (self.new.count ≡ self.old.count + 1) }
        ensures places { (known : List ℕ) → HasPlaces self.old known → has_number known variable ≡ false → OnOk result (HasPlaces self.new (known ++ variable ∷ [])) }
    {
        let place = self.count;
        if variable == place && self.run + 1 == place {
            self.run = place;
            self.count = place + 1;
            return Ok(());
        }
        self.others.insert(variable, place)?;
        self.count = place + 1;
        Ok(())
    }
}
