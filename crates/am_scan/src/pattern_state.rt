use regex_nfa::StateId;

/// All that matters to a pattern about a text of which only the end has been read.
#[derive(PartialEq, Eq, Hash, Drop)]
pub(crate) struct PatternState {
    /// The kind of the text's first byte; `None` if the text is empty.
    pub(crate) first: Option<u8>,
    /// Whether a character begins at the start of the text, or the text is empty.
    pub(crate) starts: bool,
    /// The states that lead to a match by reading the first byte.
    pub(crate) reads: Vec<StateId>,
    /// Whether a match begins at a character after the first byte.
    pub(crate) later: bool,
}
