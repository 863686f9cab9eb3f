/// Which part of the answers is wanted.
#[derive(Clone, Copy)]
pub struct Page<'a> {
    /// The token at the end of the page before, where this page begins. With `None`, this page
    /// begins at the first choice.
    pub after: Option<&'a str>,
    /// The most lines to write, at least 1, without the trailer. `None` is no limit.
    pub limit: Option<u64>,
    /// The most prefixes to judge, at least 65. If more would have to be judged, the page stops,
    /// and its trailer says where the next one begins. `None` is no budget.
    pub steps: Option<u64>,
}
