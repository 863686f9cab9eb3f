/// How many masks a search may still look at.
#[derive(Clone, Copy)]
pub(crate) struct Left {
    /// For the route, rule or silence that is searched for now.
    pub(crate) item: usize,
    /// For the whole report.
    pub(crate) report: usize,
}
