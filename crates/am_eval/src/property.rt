/// A property of an alert in a world, for which a question has one word.
#[derive(Clone, Copy)]
pub enum Property {
    /// True of every alert.
    Any,
    /// Some silence hides the alert.
    Silenced,
    /// Some firing alert inhibits the alert, by a rule.
    Inhibited,
}
