/// What a judge knows of the completions of a prefix.
#[derive(Clone, Copy, Debug, PartialEq, Eq, Hash)]
pub enum Verdict {
    /// Every completion is true.
    Yes,
    /// No completion is true.
    No,
    /// Neither is known.
    Open,
}
