use crate::live::LivePattern;
use crate::tail::Tail;

/// All that matters to the matchers of a label about a text of which only the end has been read.
#[derive(PartialEq, Eq, Hash, Drop)]
pub(crate) struct LabelState<'q> {
    /// Which bytes UTF-8 allows before the text.
    pub(crate) tail: Tail,
    /// What is before the text in each named text that ends with it.
    pub(crate) fronts: Vec<&'q [u8]>,
    /// The patterns that may still find the text, with anything before it.
    pub(crate) live: Vec<LivePattern>,
}
