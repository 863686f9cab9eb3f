use am_config::Path;

/// The part of an input in which a matcher stands. Positions count from 0.
#[derive(Clone, Copy, Debug)]
pub enum Origin {
    /// At the route of this path.
    Route(Path),
    /// On a side of the inhibition rule at this position, or in its `equal`.
    Rule(usize),
    /// In the silence at this position.
    Silence(usize),
    /// In the question at this position.
    Question(usize),
    /// In the impossible list at this position.
    Impossible(usize),
}
