//! The limit of the search for outcomes. It is this project's own.

/// The most ways through routes and silences that are told apart.
///
/// The first choice of each way is kept, so this bounds the memory. A contract can state it without
/// a word about how the search goes: so many choices have distinct ways.
pub const MAX_WAYS: usize = 1_048_576;
