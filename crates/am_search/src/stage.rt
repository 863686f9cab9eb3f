/// What a search does next.
#[derive(Clone, Copy, Debug, PartialEq, Eq)]
pub(crate) enum Stage {
    /// It judges the current prefix.
    Judging,
    /// It returns the current choice, and then the choices after it that begin with the same first
    /// positions. The number says how many positions these are. They are a prefix that was judged
    /// `Yes`.
    Giving(usize),
    /// Nothing is left.
    Done,
}
