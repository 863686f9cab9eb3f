use am_universe::Choice;

/// How a page ends.
#[derive(Clone, Copy, Debug, PartialEq, Eq)]
pub enum Trailer {
    /// No answers are left.
    End,
    /// Answers are left: those after this choice, which is the last one of the page.
    Next(Choice),
    /// The search stopped, because its budget is used up. Answers may be left, from the first
    /// completion of this prefix on.
    Stopped(Choice),
}
