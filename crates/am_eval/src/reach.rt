/// How an alert reaches a route.
#[derive(Clone, Copy)]
pub enum Reach {
    /// The alert ends at the route.
    Ends,
    /// The alert ends at the route or below it.
    Enters,
}
