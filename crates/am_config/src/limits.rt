//! The limits of configuration files. They are this project's own choice.

/// The most receivers that a configuration may have.
pub const MAX_RECEIVERS: usize = 1024;

/// The most routes that a configuration may have, with the top-level route.
pub const MAX_ROUTES: usize = 1024;

/// The most levels of routes that a configuration may have. The top-level route is the first level.
pub const MAX_LEVELS: usize = 32;

/// The most inhibition rules that a configuration may have.
pub const MAX_RULES: usize = 1024;

/// The most names that an inhibition rule may have in `equal`.
pub const MAX_EQUAL_NAMES: usize = 64;

/// The most positions that a path may have: one for each level below the first.
pub const MAX_PATH_STEPS: usize = MAX_LEVELS - 1;

/// The largest position that a child may have: that of the last child of the top-level route, if
/// all other routes are its children.
pub const MAX_CHILD_POSITION: usize = MAX_ROUTES - 2;
