/// Where the texts of a state of a pattern lead, and whether the pattern finds them.
#[derive(Drop)]
pub(crate) struct Row {
    /// For each class, the number of the state to which a byte of that class before the text leads.
    pub(crate) next: Vec<u32>,
    /// Whether the pattern finds these texts.
    pub(crate) found: bool,
}
