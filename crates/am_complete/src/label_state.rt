use crate::Origin;

/// What a space lacks at a label, for the matchers that ask about it.
#[derive(Debug, Drop)]
pub enum Completeness {
    /// Nothing: to each text that the label may have, a text of the universe is alike. This is the
    /// number of classes of alike texts.
    Complete(usize),
    /// The label may have this text, but no text of the universe is alike to it. The empty text is
    /// absence.
    Lacks(String),
    /// Nothing: the label is declared, but no matcher asks about it.
    Unasked,
    /// The label may have texts that are not alike to absence, but no universe file can declare it,
    /// since its name is no label name.
    Undeclarable,
    /// The classes of the label's texts could not be computed. This is the origin of the first
    /// matcher on it.
    Unproved(Origin),
}

/// What a space lacks at the label of this name, and whether alerts were given, but none of them
/// has the label.
#[derive(Debug, Drop)]
pub struct LabelState {
    pub name: String,
    pub completeness: Completeness,
    pub unseen: bool,
}
