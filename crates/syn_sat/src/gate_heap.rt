//! The gates that wait, the most active first.

use crate::lists::{at, put, short};
use std::alloc::{AllocError, Global};

// No place in the heap.
const NONE: u32 = u32::MAX;

/// Nodes in a heap, by their activities.
#[derive(Debug, Drop)]
pub(crate) struct GateHeap {
    nodes: Vec<u32>,
    places: Vec<u32>,
    activities: Vec<u64>,
    step: u64,
}

impl GateHeap {
    pub(crate) fn new(alloc: Global, count: usize) -> Result<GateHeap, AllocError> {
        Ok(GateHeap {
            nodes: Vec::new(alloc),
            places: vec![in alloc; NONE; count]?,
            activities: vec![in alloc; 0; count]?,
            step: 64,
        })
    }

    /// Room for so many nodes.
    pub(crate) fn grow_to(&mut self, count: usize) -> Result<(), AllocError> {
        self.places.resize(count, NONE)?;
        self.activities.resize(count, 0)
    }

    /// How active a node is.
    #[inline]
    pub(crate) fn activity(&self, node: u32) -> u64 {
        at(self.activities.as_slice(), node as usize, 0)
    }

    // Puts a node at a place.
    #[inline]
    fn set(&mut self, place: usize, node: u32) {
        put(self.nodes.as_mut_slice(), place, node);
        put(self.places.as_mut_slice(), node as usize, short(place));
    }

    fn up(&mut self, place: usize) {
        let node = at(self.nodes.as_slice(), place, 0);
        let mut place = place;
        for _ in 0..64 {
            if place == 0 {
                break;
            }
            let parent = (place - 1) / 2;
            let other = at(self.nodes.as_slice(), parent, 0);
            if self.activity(other) >= self.activity(node) {
                break;
            }
            self.set(place, other);
            place = parent;
        }
        self.set(place, node);
    }

    // The more active child of a place, if it has one.
    fn child(&self, place: usize) -> Option<usize> {
        let left = place.saturating_mul(2).saturating_add(1);
        if left >= self.nodes.len() {
            return None;
        }
        let right = left.saturating_add(1);
        if right < self.nodes.len() {
            let first = self.activity(at(self.nodes.as_slice(), left, 0));
            let second = self.activity(at(self.nodes.as_slice(), right, 0));
            if second > first {
                return Some(right);
            }
        }
        Some(left)
    }

    fn down(&mut self) {
        let node = at(self.nodes.as_slice(), 0, 0);
        let mut place: usize = 0;
        for _ in 0..64 {
            let Some(child) = self.child(place) else {
                break;
            };
            let other = at(self.nodes.as_slice(), child, 0);
            if self.activity(other) <= self.activity(node) {
                break;
            }
            self.set(place, other);
            place = child;
        }
        self.set(place, node);
    }

    /// Puts a node in, where it isn't.
    pub(crate) fn insert(&mut self, node: u32) -> Result<(), AllocError> {
        if at(self.places.as_slice(), node as usize, 0) == NONE {
            let place = self.nodes.len();
            self.nodes.push(node)?;
            self.up(place);
        }
        Ok(())
    }

    /// Takes the most active node out.
    pub(crate) fn pop(&mut self) -> Option<u32> {
        let last = self.nodes.pop()?;
        if self.nodes.is_empty() {
            put(self.places.as_mut_slice(), last as usize, NONE);
            return Some(last);
        }
        let node = at(self.nodes.as_slice(), 0, 0);
        put(self.places.as_mut_slice(), node as usize, NONE);
        self.set(0, last);
        self.down();
        Some(node)
    }

    /// Takes all nodes out.
    pub(crate) fn clear(&mut self) {
        for i in 0..self.nodes.len() {
            let node = at(self.nodes.as_slice(), i, 0);
            put(self.places.as_mut_slice(), node as usize, NONE);
        }
        self.nodes.clear();
    }

    /// Makes a node more active.
    pub(crate) fn bump(&mut self, node: u32) {
        let activity = self.activity(node).saturating_add(self.step);
        put(self.activities.as_mut_slice(), node as usize, activity);
        let place = at(self.places.as_slice(), node as usize, NONE);
        if place != NONE {
            self.up(place as usize);
        }
    }

    /// Makes nodes, which it hasn't, no more active than at first.
    pub(crate) fn forget(&mut self, nodes: &[u32]) {
        for node in nodes {
            put(self.activities.as_mut_slice(), *node as usize, 0);
        }
        self.step = 64;
    }

    /// Makes later nodes count more than earlier ones.
    pub(crate) fn grow(&mut self) {
        self.step = self.step.saturating_add(self.step / 16);
        if self.step > 1_000_000_000_000_000 {
            for i in 0..self.activities.len() {
                let activity = at(self.activities.as_slice(), i, 0);
                put(self.activities.as_mut_slice(), i, activity / 1_000_000_000);
            }
            self.step /= 1_000_000_000;
        }
    }
}
