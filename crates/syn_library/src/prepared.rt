//! The classes of all functions with the plans of each class, made once.

ghost use Rattle.std.specs.Prelude.{◌≡◌, ℕ, ◌+◌, ◌<◌, ◌≤◌, length, IfOk, OnOk, IsTrue};
ghost use Rattle.syn_npn.specs.Keys.{class_of};
ghost use Rattle.syn_npn.specs.Transforms.{IsCanon};
ghost use Rattle.syn_library.specs.Prepared.{AreFound, class_found};

use crate::ClassPlans;
use std::alloc::{AllocError, Global};
use syn_npn::{Classes, Transform};

/// The number of functions of four variables.
const FUNCTIONS: u32 = 65536;

/// The classes of all functions of four variables, the first transforms to them, and the plans of each class.
#[derive(Drop)]
pub struct Prepared {
    classes: Classes,
    lists: Vec<ClassPlans>,
    places: Vec<u32>,
    ghost count: { length places.items ≡ 65536 },
    ghost found: { AreFound 65536 lists.items places.items },
}

/// Whether the place that is noted for a class has its plans.
fn is_found(lists: &[ClassPlans], places: &[u32], class: u16) -> bool
    requires { length places.now ≡ 65536 }
    ensures { IsTrue result → class_found lists.now places.now class ≡ class }
{
    let place = places[class as usize] as usize;
    place < lists.len() && lists[place].class == class
}

/// So many places, none of them noted.
fn no_places(alloc: Global, count: u32) -> Result<Vec<u32>, AllocError>
    ensures { IfOk result (λ places. length places.items ≡ count) }
{
    vec![in alloc; 0; count as usize]
}

/// Adds the plans of a class, and notes their place.
fn add(lists: &mut Vec<ClassPlans>, places: &mut [u32], class: u16) -> Result<(), AllocError>
    requires count { length places.old ≡ 65536 }
    requires few { length lists.old.items < 65536 }
    ensures count { length places.new ≡ length places.old }
    ensures more { OnOk result (length lists.new.items ≡ length lists.old.items + 1) }
    ensures added { OnOk result (class_found lists.new.items places.new class ≡ class) }
    ensures kept { OnOk result ((other : ℕ) → other < 65536 → class_found lists.old.items places.old other ≡ other → class_found lists.new.items places.new other ≡ other) }
{
    let place = lists.len() as u32;
    lists.push(ClassPlans::of(class))?;
    places[class as usize] = place;
    Ok(())
}

/// Adds the plans of a class unless its place has them.
fn add_new(lists: &mut Vec<ClassPlans>, places: &mut [u32], class: u16) -> Result<(), AllocError>
    requires count { length places.old ≡ 65536 }
    requires few { length lists.old.items < 65536 }
    ensures count { length places.new ≡ length places.old }
    ensures more { OnOk result (length lists.new.items ≤ length lists.old.items + 1) }
    ensures added { OnOk result (class_found lists.new.items places.new class ≡ class) }
    ensures kept { OnOk result ((other : ℕ) → other < 65536 → class_found lists.old.items places.old other ≡ other → class_found lists.new.items places.new other ≡ other) }
{
    if is_found(lists.as_slice(), places, class) {
        return Ok(());
    }
    add(lists, places, class)
}

/// Adds the plans of each class of the first so many functions.
fn add_all(
    classes: &Classes,
    lists: &mut Vec<ClassPlans>,
    places: &mut [u32],
    count: u32,
) -> Result<(), AllocError>
    requires count { length places.old ≡ 65536 }
    requires few { count ≤ 65536 }
    requires none { length lists.old.items ≡ 0 }
    ensures count { length places.new ≡ length places.old }
    ensures found { OnOk result (AreFound count lists.new.items places.new) }
{
    for function in 0..count {
        let (class, _) = classes.canon(function as u16);
        add_new(lists, places, class)?;
    }
    Ok(())
}

impl Prepared {
    /// The classes of all functions and their plans. The only error is want of memory.
    pub fn new(alloc: Global) -> Result<Prepared, AllocError> {
        let classes = Classes::new(alloc)?;
        let mut lists = Vec::new(alloc);
        let mut places = no_places(alloc, FUNCTIONS)?;
        add_all(&classes, &mut lists, places.as_mut_slice(), FUNCTIONS)?;
        Ok(Prepared {
            classes,
            lists,
            places,
        })
    }

    /// The plans of the class of a function, and the first transform to the class.
    #[inline]
    pub fn plans(&self, function: u16) -> (&ClassPlans, Transform)
        ensures { IsCanon function result.0.now.class result.1 }
    {
        let (class, transform) = self.classes.canon(function);
        let place = self.places[class as usize] as usize;
        (&self.lists[place], transform)
    }
}
