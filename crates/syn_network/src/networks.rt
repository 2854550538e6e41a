//! The type of networks.

ghost use Rattle.std.specs.Prelude.{◌≡◌, ◌<◌, ◌^◌, length, IfOk};
ghost use Rattle.syn_netlist.specs.Frames.{frame_in};
ghost use Rattle.syn_network.specs.NamedGraphs.{IsNamedGraph};
ghost use Rattle.syn_graph.specs.Relations.{SameFunction};
ghost use Rattle.syn_lutnet.specs.Nets.{HasFunctionOf};
ghost use Rattle.syn_network.specs.Networks.{IsNamed};

use crate::LutNetwork;
use crate::frames::copy_frame;
use std::alloc::{AllocError, Global};
use syn_graph::Graph;
use syn_lutnet::LutNet;
use syn_netlist::Frame;

/// A graph with names: the graph's sources are the frame's, in their order, and so are its observed literals.
#[derive(Debug, Drop)]
pub struct Network {
    /// The names, the inputs, clocks and outputs, and the latches.
    pub frame: Frame,
    /// The graph.
    pub body: Graph,
    pub ghost named: { IsNamed (frame_in frame) body.source_count body.observed },
    pub ghost graph: { IsNamedGraph (frame_in frame) body.rows body.observed },
    pub ghost few_names: { length frame.names < 2 ^ 31 },
}

impl Network {
    /// The network of a frame and a graph.
    pub fn of(frame: Frame, body: Graph) -> Network
        requires named { IsNamed (frame_in frame) body.source_count body.observed }
        requires names { length frame.names < 2 ^ 31 }
        ensures frame { result.frame ≡ frame }
        ensures body { result.body ≡ body }
    {
        Network { frame, body }
    }

    /// Puts another graph of the same function under the names.
    pub fn put(&mut self, body: Graph)
        requires { SameFunction self.old.body body }
        ensures frame { self.new.frame ≡ self.old.frame }
        ensures body { self.new.body ≡ body }
    {
        self.body = body;
    }

    /// The same names over a LUT net of the same function.
    pub fn mapped(self, net: LutNet) -> LutNetwork
        requires { HasFunctionOf self.body net }
        ensures frame { result.frame ≡ self.frame }
        ensures body { result.body ≡ net }
    {
        let Network { frame, body: _ } = self;
        LutNetwork::of(frame, net)
    }

    /// A copy of the names over a LUT net of the same function. The only error is want of memory.
    pub fn mapped_copy(&self, alloc: Global, net: LutNet) -> Result<LutNetwork, AllocError>
        requires { HasFunctionOf self.now.body net }
        ensures frame { IfOk result (λ n. frame_in n.frame ≡ frame_in self.now.frame) }
        ensures names { IfOk result (λ n. n.frame.names ≡ self.now.frame.names) }
        ensures body { IfOk result (λ n. n.body ≡ net) }
    {
        let frame = copy_frame(alloc, &self.frame)?;
        Ok(LutNetwork::of(frame, net))
    }

    /// The same graph under the same names. The only error is want of memory.
    pub fn copy(&self, alloc: Global) -> Result<Network, AllocError>
        ensures frame { IfOk result (λ n. frame_in n.frame ≡ frame_in self.now.frame) }
        ensures names { IfOk result (λ n. n.frame.names ≡ self.now.frame.names) }
        ensures body { IfOk result (λ n. n.body ≡ self.now.body) }
    {
        let body = self.body.copy(alloc)?;
        let frame = copy_frame(alloc, &self.frame)?;
        Ok(Network::of(frame, body))
    }
}
