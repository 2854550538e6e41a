//! What the names of all instances are called, by numbers of the netlist's names.

ghost use Rattle.std.specs.Prelude.{◌≡◌, ℕ, ◌+◌, ◌^◌, ◌<◌, [], ◌∷◌, List, length, map, IfOk};
ghost use Rattle.syn_models.specs.Calling.{AreMaps, AreSpelled, Calls, inner_count};
ghost use Rattle.syn_models.specs.Called.{called_number};
ghost use Rattle.syn_models.specs.Flattening.{as_it_is, inner_name};
ghost use Rattle.syn_models.specs.Walking.{Wired, entry_in, homes_of};
ghost use Rattle.syn_netlist.specs.Numbers.{Grows};

use crate::hierarchy::Model;
use crate::instances::instance_names;
use crate::met::Instance;
use std::alloc::{AllocError, Global};
use syn_lists::Items;
use syn_netlist::Names;

/// The names of the netlist, and for the main model and each instance, in the order of their numbers, by which number each
/// of its names is called.
#[derive(Drop)]
pub(crate) struct Called {
    pub names: Names,
    pub maps: Vec<Items<u32>>,
}

// A copy of names.
fn copied_names(alloc: Global, names: &Names) -> Result<Names, AllocError>
    ensures { IfOk result (λ copies. copies ≡ names.now) }
{
    let mut copies = Names::new(alloc);
    for i in 0..names.len() {
        copies.add(alloc, names.word(i))?;
    }
    Ok(copies)
}

// The numbers below a count.
fn numbers_below(alloc: Global, count: u32) -> Result<Vec<u32>, AllocError>
    ensures size { IfOk result (λ v. length v.items ≡ count) }
    ensures each { IfOk result (λ v. (i : ℕ) → i < count → called_number v.items i ≡ i) }
{
    let mut numbers = Vec::new(alloc);
    for i in 0..count {
        numbers.push(i)?;
    }
    Ok(numbers)
}

// The names of the main model, which are called as they are.
fn main_names(alloc: Global, main: &Model) -> Result<Called, AllocError>
    ensures names { IfOk result (λ r. r.names ≡ main.now.names) }
    ensures maps { IfOk result (λ r. AreMaps (length r.names) (main.now.names ∷ []) r.maps.items) }
    ensures each { IfOk result (λ r. (calls : ℕ → List ℕ → List ℕ) → calls 0 ≡ as_it_is → AreSpelled r.names (main.now.names ∷ []) calls r.maps.items) }
{
    let names = copied_names(alloc, &main.names)?;
    let own = numbers_below(alloc, main.names.len())?;
    let mut maps = Vec::new(alloc);
    maps.push(Items::of(own))?;
    Ok(Called { names, maps })
}

/// The names of the netlist: those of the main model, then the inner names of each instance, with so many slashes. The only
/// error is want of memory.
pub(crate) fn call_names(
    alloc: Global,
    main: &Model,
    instances: &[Instance<'_>],
    count: usize,
) -> Result<Called, AllocError>
    requires wired { Wired (main.now.names ∷ []) instances.now }
    requires few { length main.now.names + inner_count instances.now < 2 ^ 31 }
    ensures few { IfOk result (λ r. length r.names < 2 ^ 31) }
    ensures grows { IfOk result (λ r. Grows main.now.names r.names) }
    ensures maps { IfOk result (λ r. AreMaps (length r.names) (homes_of main.now instances.now) r.maps.items) }
    ensures each { IfOk result (λ r. (calls : ℕ → List ℕ → List ℕ) → calls 0 ≡ as_it_is → Calls calls (inner_name count) 1 (map entry_in instances.now) → AreSpelled r.names (homes_of main.now instances.now) calls r.maps.items) }
{
    let mut called = main_names(alloc, main)?;
    for i in 0..instances.len() {
        let instance = &instances[i];
        let names = &instance.inside.names;
        let outer = called.maps.as_slice()[instance.outer.number].as_slice();
        let k = i as u64 + 1;
        let map = instance_names(
            alloc,
            &mut called.names,
            count,
            k,
            names,
            instance.binds,
            outer,
        )?;
        called.maps.push(Items::of(map))?;
    }
    Ok(called)
}
