//! The type of networks of LUTs.

ghost use Rattle.std.specs.Prelude.{◌≡◌, ◌<◌, ◌^◌, length};
ghost use Rattle.syn_netlist.specs.Frames.{frame_in};
ghost use Rattle.syn_lutnet.specs.Data.{luts_data};
ghost use Rattle.syn_network.specs.NamedLutNets.{IsNamedLutNet};
ghost use Rattle.syn_network.specs.Networks.{IsNamed};

use syn_lutnet::LutNet;
use syn_netlist::Frame;

/// A LUT net with names: the net's sources are the frame's, in their order, and so are its observed literals.
#[derive(Debug, Drop)]
pub struct LutNetwork {
    /// The names, the inputs, clocks and outputs, and the latches.
    pub frame: Frame,
    /// The LUT net.
    pub body: LutNet,
    pub ghost named: { IsNamed (frame_in frame) body.source_count body.observed },
    pub ghost net: { IsNamedLutNet (frame_in frame) (luts_data body.luts) body.observed },
    pub ghost few_names: { length frame.names < 2 ^ 31 },
}

impl LutNetwork {
    /// The network of a frame and a LUT net.
    pub fn of(frame: Frame, body: LutNet) -> LutNetwork
        requires named { IsNamed (frame_in frame) body.source_count body.observed }
        requires names { length frame.names < 2 ^ 31 }
        ensures frame { result.frame ≡ frame }
        ensures body { result.body ≡ body }
    {
        LutNetwork { frame, body }
    }
}
