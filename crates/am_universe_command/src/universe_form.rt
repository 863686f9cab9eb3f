use am_classes::Alphabet;

/// Which universe is made.
#[derive(Clone, Copy, Debug, PartialEq, Eq)]
pub struct UniverseForm {
    /// Whether only the matchers of routes count, beside those of questions and impossible lists.
    pub routes: bool,
    /// Which texts the labels of alerts may have.
    pub alphabet: Alphabet,
    /// Whether it is made even if a label is unproved: the classes of its texts could not be
    /// computed, or it needs a value and its name is no label name. Such a label has the values
    /// that were found, or none.
    pub open: bool,
}
