//! The limits of the exploration.

/// The most states of a label that are explored.
pub const MAX_STATES: usize = 65_536;

/// The most numbers of an automaton that are tried to find a text that its pattern finds.
pub const MAX_SAMPLE_NUMBERS: usize = 256;
