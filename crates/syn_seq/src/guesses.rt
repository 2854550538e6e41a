//! A guess of what becomes of the latches in all rounds together. Nothing rests on it: it is checked before it is used.

ghost use Rattle.std.specs.Prelude.{◌≡◌, ◌<◌, ◌^◌, IfOk, length, true};
ghost use Rattle.syn_netlist.specs.Kept.{latches_below};
ghost use Rattle.syn_network.specs.Written.{network_of};
ghost use Rattle.syn_seq.specs.Code.{AreLits};

use crate::Fate;
use crate::keys::{Key, key_of};
use crate::needs::{needing_rows, output_lits};
use crate::orders::visited;
use std::alloc::{AllocError, Global};
use std::collections::HashMap;
use syn_hashed::HashedRows;
use syn_netlist::Latch;
use syn_network::Network;
use syn_rows::{FALSE, Lit, NODE_LIMIT, Row};

// The literal of each node among rows in which latches that load alike are one, and the literals that stand for keys.
#[derive(Drop)]
struct Images {
    hashed: HashedRows,
    lits: Vec<Lit>,
    seen: HashMap<Key, Lit>,
}

impl Images {
    // No latches are one, and no ANDs are there yet.
    fn new(alloc: Global, graph: &Network) -> Result<Images, AllocError> {
        let mut lits = Vec::new(alloc);
        for node in 0..graph.body.source_count + 1 {
            lits.push(Lit::of(node, false))?;
        }
        for _ in lits.len()..graph.body.rows.as_slice().len() {
            lits.push(FALSE)?;
        }
        Ok(Images {
            hashed: HashedRows::new(alloc, graph.body.source_count as usize)?,
            lits,
            seen: HashMap::new(alloc),
        })
    }

    fn at(&self, lit: Lit) -> Lit {
        match self.lits.get(lit.node() as usize) {
            Some(image) if lit.complemented() => image.not(),
            Some(image) => *image,
            None => FALSE,
        }
    }

    fn set(&mut self, node: u32, image: Lit) {
        if (node as usize) < self.lits.len() {
            self.lits[node as usize] = image;
        }
    }

    // An AND, by the images of its fan-ins.
    fn add_and(&mut self, node: u32, a: Lit, b: Lit) -> Result<(), AllocError> {
        let (a, b) = (self.at(a), self.at(b));
        let count = self.hashed.rows.len();
        if (a.node() as usize) < count && (b.node() as usize) < count && count + 1 < NODE_LIMIT {
            let image = self.hashed.and(a, b)?;
            self.set(node, image);
        }
        Ok(())
    }

    // A latch, by the images of what it reads.
    fn add_latch(&mut self, node: u32, key: Key) -> Result<(), AllocError>
        requires { node < 2 ^ 31 }
    {
        if key.init >= 2 {
            return Ok(());
        }
        let control = match key.control {
            Some(control) => Some(self.at(control)),
            None => None,
        };
        let key = Key {
            feed: self.at(key.feed),
            control,
            ..key
        };
        match self.seen.get(&key) {
            Some(first) => {
                let first = *first;
                self.set(node, first);
            }
            None => {
                let own = self.at(Lit::of(node, false));
                self.seen.insert(key, own)?;
            }
        }
        Ok(())
    }
}

// The keys of latches.
fn keys_of(alloc: Global, lits: &[Lit], latches: &[Latch]) -> Result<Vec<Key>, AllocError>
    requires { latches_below (length lits.now) latches.now ≡ true }
    ensures { IfOk result (λ v. length v.items ≡ length latches.now) }
{
    let mut keys = Vec::new(alloc);
    for latch in latches {
        keys.push(key_of(lits, *latch))?;
    }
    Ok(keys)
}

// The images of all nodes that the outputs need, each node behind what it reads.
fn images_of(alloc: Global, graph: &Network, lits: &[Lit]) -> Result<Vec<Lit>, AllocError>
    requires count { length lits.now ≡ length graph.now.frame.names }
    requires lits { AreLits (network_of graph.now) graph.now.frame.names lits.now }
{
    let latches = graph.frame.latches.as_slice();
    let rows = graph.body.rows.as_slice();
    let first = graph.body.source_count + 1 - latches.len() as u32;
    let keys = keys_of(alloc, lits, latches)?;
    let needing = needing_rows(alloc, graph, lits)?;
    let outputs = output_lits(alloc, graph, lits)?;
    let order = visited(alloc, needing.as_slice(), outputs.as_slice())?;
    let mut images = Images::new(alloc, graph)?;
    for node in order.as_slice() {
        let node = *node;
        if node <= graph.body.source_count {
            if node >= first {
                images.add_latch(node, keys[(node - first) as usize])?;
            }
        } else if (node as usize) < rows.len() {
            if let Row::And(a, b) = rows[node as usize] {
                images.add_and(node, a, b)?;
            }
        }
    }
    let Images { lits, .. } = images;
    Ok(lits)
}

/// The latches that outputs don't need are dropped, and of those with one image the first is kept.
pub(crate) fn guessed(
    alloc: Global,
    graph: &Network,
    lits: &[Lit],
    needed: &[bool],
) -> Result<Vec<Fate>, AllocError>
    requires count { length lits.now ≡ length graph.now.frame.names }
    requires lits { AreLits (network_of graph.now) graph.now.frame.names lits.now }
    requires length { length needed.now ≡ length graph.now.body.rows }
    ensures { IfOk result (λ v. length v.items ≡ length graph.now.frame.latches) }
{
    let images = images_of(alloc, graph, lits)?;
    let count = graph.frame.latches.as_slice().len();
    let first = graph.body.source_count as usize + 1 - count;
    let mut leaders = vec![in alloc; None; images.len()]?;
    let mut fates = Vec::new(alloc);
    for j in 0..count {
        let fate = if needed[first + j] {
            led(
                leaders.as_mut_slice(),
                images.as_slice(),
                first + j,
                j as u32,
            )
        } else {
            Fate::Dropped
        };
        fates.push(fate)?;
    }
    Ok(fates)
}

// The latch is merged into the first with its image, or leads those with it.
fn led(leaders: &mut [Option<u32>], images: &[Lit], node: usize, number: u32) -> Fate {
    let Some(image) = images.get(node) else {
        return Fate::Kept;
    };
    let class = image.node() as usize;
    if class >= leaders.len() {
        return Fate::Kept;
    }
    match leaders[class] {
        Some(leader) => Fate::Merged(leader),
        None => {
            leaders[class] = Some(number);
            Fate::Kept
        }
    }
}
