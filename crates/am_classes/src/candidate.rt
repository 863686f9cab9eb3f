/// A text that no matcher names, and the places of the patterns that find it.
#[derive(Drop)]
pub(crate) struct Candidate {
    pub(crate) text: String,
    pub(crate) found: Vec<usize>,
}
