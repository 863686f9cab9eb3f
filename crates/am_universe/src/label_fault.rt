use crate::Kind;
use thiserror::Error;

/// The part of a label that is at fault.
#[derive(Clone, Copy, Debug, PartialEq, Eq)]
pub enum LabelPart {
    /// The label as a whole: the universe has as many labels as it may have, or memory ran out.
    Label,
    /// Its name.
    Name,
    /// Its list of values.
    Values,
    /// The value at this position.
    Value(usize),
}

/// Why a label was not added to a universe.
#[derive(Clone, Copy, Debug, PartialEq, Eq, Error)]
#[error("{kind:?} at {part:?}")]
pub struct LabelFault {
    pub kind: Kind,
    pub part: LabelPart,
}
