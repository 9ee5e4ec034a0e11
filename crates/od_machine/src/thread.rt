//! Threads of the machine, and the trail that they leave.

/// A way that is not yet gone to its end.
#[derive(Clone, Copy, Drop)]
pub struct Thread {
    /// The instruction that comes next, numbered from 0.
    pub pc: usize,
    /// Whether a token was taken in the turn that is under way.
    pub taken: bool,
    /// The token that comes next.
    pub at: usize,
    /// How many events of the trail led here.
    pub events: usize,
}

/// What becomes of a thread that is taken up.
#[derive(Clone, Copy, Drop)]
pub enum Step {
    /// It is at the end of the pattern.
    AtEnd,
    /// This thread goes on; none: the first of those that wait.
    Goes(Option<Thread>),
}

/// What the trail keeps of a way.
#[derive(Clone, Copy, Drop)]
pub enum Event {
    /// The instruction of this number opened a capture at this token.
    Opened(u32, u32),
    /// A capture closed before this token.
    Closed(u32),
}
