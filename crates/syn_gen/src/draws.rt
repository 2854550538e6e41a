//! Draws: numbers that look random, of a state of 64 bits.

ghost use Rattle.std.specs.Prelude.{◌≡◌, ◌%◌, ◌<◌};
ghost use Rattle.syn_gen.specs.Draws.{after_draw, after_draws, draw, drawn};

// The multiplier and the increment of the state (Knuth's MMIX).
const MULTIPLIER: u64 = 6_364_136_223_846_793_005;

const INCREMENT: u64 = 1_442_695_040_888_963_407;

/// What is drawn for a table: its three input signals in order, and its truth, of which bit i is the value at minterm i.
#[derive(Clone, Copy, Debug, PartialEq, Eq)]
pub struct Drawn {
    pub first: u32,
    pub second: u32,
    pub third: u32,
    pub truth: u8,
}

/// A source of draws: the state after the last one, at first the seed.
#[derive(Debug, Drop)]
pub(crate) struct Draws {
    pub(crate) state: u64,
}

impl Draws {
    // The upper 32 bits of the next state.
    #[tactic(auto, unfolding(crate::specs::Draws::draw, crate::specs::Draws::after_draw))]
    fn draw(&mut self) -> u32
        ensures value { result ≡ draw self.old.state }
        ensures state { self.new.state ≡ after_draw self.old.state }
    {
        self.state = self.state.wrapping_mul(MULTIPLIER).wrapping_add(INCREMENT);
        (self.state >> 32) as u32
    }

    // One of so many signals.
    fn signal(&mut self, signals: u32) -> u32
        requires { 0 < signals }
        ensures value { result ≡ draw self.old.state % signals }
        ensures below { result < signals }
        ensures state { self.new.state ≡ after_draw self.old.state }
    {
        self.draw() % signals
    }

    /// What is drawn for a table with so many signals before it.
    pub(crate) fn table(&mut self, signals: u32) -> Drawn
        requires { 0 < signals }
        ensures drawn { result ≡ drawn signals self.old.state }
        ensures first { result.first < signals }
        ensures second { result.second < signals }
        ensures third { result.third < signals }
        ensures state { self.new.state ≡ after_draws 4 self.old.state }
    {
        let first = self.signal(signals);
        let second = self.signal(signals);
        let third = self.signal(signals);
        let truth = (self.draw() % 254 + 1) as u8;
        Drawn {
            first,
            second,
            third,
            truth,
        }
    }
}
