use am_universe::Choice;

/// Where answers begin.
#[derive(Clone, Copy, Debug, PartialEq, Eq)]
pub enum Start {
    /// At the first completion of a prefix.
    At(Choice),
    /// After a whole choice, at the one that follows it in declared order.
    After(Choice),
}
