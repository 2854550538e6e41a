//! What is told of a commit while it goes on.

/// A moment of a commit.
#[derive(Clone, Copy, Debug, PartialEq, Eq)]
pub enum Moment {
    /// The inner rows are claimed.
    Claimed,
    /// The answer was given: true where the root was redefined.
    Answered(bool),
}

/// Who is told the moments of commits. It returns without waiting, and no clause rests on it.
pub trait CommitHook: Sync {
    /// The worker's commit has come to this moment.
    fn at(&self, worker: u8, moment: Moment);
}

/// A hook that does nothing.
#[derive(Clone, Copy, Debug)]
pub struct NoHook;

impl CommitHook for NoHook {
    fn at(&self, _worker: u8, _moment: Moment) {}
}
