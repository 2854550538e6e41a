//! What is found of chunks of nodes, lent to all threads as soon as it is there.

ghost use Rattle.std.specs.Prelude.{◌≡◌, All, IfOk, IfSome};
ghost use Rattle.std.specs.Arc.{arc_value};

use boxcar::slot::{OnceSlot, SlotRule};
use boxcar::tag::{Names, Tag};
use std::alloc::{AllocError, Global};
use std::marker::PhantomData;
use std::sync::Arc;

/// Some nodes of one level, and how many chunks the levels below have.
#[derive(Drop)]
pub(crate) struct Chunk {
    pub(crate) nodes: Vec<u32>,
    pub(crate) below: usize,
}

// Where what is found of a node stands: in which chunk, and at which place in it.
#[derive(Clone, Copy, Debug, PartialEq, Eq)]
struct Place {
    chunk: usize,
    index: usize,
}

// What is shared keeps the rule that its value keeps.
struct ByValue<P> {
    rule: PhantomData<P>,
}

impl<T, P: SlotRule<T>> SlotRule<Arc<T>> for ByValue<P> {
    ghost holds = { λ t shared. P.holds t (arc_value shared) };
}

/// What is found of the nodes of rows, chunk by chunk: each chunk is set once, and then all threads read it. All that is there
/// keeps the rule for the board's tag.
#[derive(Drop)]
pub struct Board<T, P: SlotRule<T>> {
    slots: Vec<OnceSlot<Arc<T>, ByValue<P>>>,
    places: Vec<Place>,
    pub tag: Tag,
    ghost tagged: { All (λ s. s.tag ≡ tag.numbers) slots.items },
}

// A tag names what it does.
struct Same;

impl Names<Tag> for Same {
    ghost numbers = { λ tag. tag.numbers };
}

// So many slots in which nothing is yet.
fn slots<T: Drop, P: SlotRule<T>>(
    alloc: Global,
    tag: &Tag,
    count: usize,
) -> Result<Vec<OnceSlot<Arc<T>, ByValue<P>>>, AllocError>
    ensures { IfOk result (λ v. All (λ s. s.tag ≡ tag.now.numbers) v.items) }
{
    let mut slots = Vec::with_capacity(alloc, count)?;
    for _ in 0..count {
        slots.push(OnceSlot::new(tag))?;
    }
    Ok(slots)
}

// Sets the places of the nodes of a chunk.
fn set_places(places: &mut [Place], chunk: usize, nodes: &[u32]) {
    for (index, node) in nodes.iter().enumerate() {
        let n = *node as usize;
        if n < places.len() {
            places[n] = Place { chunk, index };
        }
    }
}

// The place of each of so many nodes. Nothing rests on which it is.
fn places(alloc: Global, count: usize, chunks: &[Chunk]) -> Result<Vec<Place>, AllocError> {
    let none = Place {
        chunk: usize::MAX,
        index: 0,
    };
    let mut places = vec![in alloc; none; count]?;
    for (number, chunk) in chunks.iter().enumerate() {
        set_places(&mut places, number, &chunk.nodes);
    }
    Ok(places)
}

impl<T: Drop, P: SlotRule<T>> Board<T, P> {
    // Nothing is found yet of so many nodes in these chunks.
    pub(crate) fn empty(
        alloc: Global,
        tag: &Tag,
        count: usize,
        chunks: &[Chunk],
    ) -> Result<Board<T, P>, AllocError>
        ensures { IfOk result (λ board. board.tag.numbers ≡ tag.now.numbers) }
    {
        let places = places(alloc, count, chunks)?;
        let slots = slots(alloc, tag, chunks.len())?;
        Ok(Board {
            slots,
            places,
            tag: Tag::of::<Tag, Same>(tag),
        })
    }

    // Whether something is found of a chunk; so it is of one that isn't there.
    #[inline]
    pub(crate) fn is_set(&self, chunk: usize) -> bool {
        chunk >= self.slots.len() || self.slots[chunk].get().is_some()
    }

    // Sets what is found of a chunk, where nothing is there yet.
    pub(crate) fn set(&self, chunk: usize, found: Arc<T>)
        requires { P.holds self.now.tag.numbers (arc_value found) }
    {
        if chunk < self.slots.len() {
            drop(self.slots[chunk].set_written(found));
        }
    }

    /// What is found of the chunk that a node is in, and the node's place in the chunk; none where nothing is found of it yet.
    #[inline]
    pub fn of(&self, node: u32) -> Option<(&T, usize)>
        ensures { IfSome result (λ r. P.holds self.now.tag.numbers r.0.now) }
    {
        let place = *self.places.get(node as usize)?;
        if place.chunk >= self.slots.len() {
            return None;
        }
        let shared = self.slots[place.chunk].get()?;
        Some((&**shared, place.index))
    }
}
