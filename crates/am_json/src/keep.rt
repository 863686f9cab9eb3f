//! What is kept of a JSON value that is read.

ghost use Rattle.std.specs.Prelude.{◌≡◌};
ghost use Rattle.am_json.specs.Kept.{is_nothing, keep_of_item, keep_of_member};

use crate::parts::is_one_of;

/// What is kept of a JSON value. What is not kept is checked, and takes no memory.
#[derive(Clone, Copy, Drop)]
pub(crate) enum Keep<'n> {
    /// The whole value.
    All,
    /// Of an object, the members with these names. Of any other value, all of it.
    Fields(&'n [&'n str]),
    /// Nothing.
    Nothing,
}

impl<'n> Keep<'n> {
    /// Whether nothing is kept.
    pub(crate) fn is_nothing(self) -> bool
        ensures { result ≡ is_nothing self.entry }
    {
        matches!(self, Keep::Nothing)
    }

    /// What is kept of an item, if the value is an array.
    pub(crate) fn of_item(self) -> Keep<'n>
        ensures { result ≡ keep_of_item self.entry }
    {
        match self {
            Keep::Nothing => Keep::Nothing,
            _ => Keep::All,
        }
    }

    /// What is kept of the member with this key, if the value is an object.
    pub(crate) fn of_member(self, key: &str) -> Keep<'n>
        ensures { result ≡ keep_of_member self.entry key.now }
    {
        match self {
            Keep::Fields(names) if !is_one_of(key, names) => Keep::Nothing,
            other => other.of_item(),
        }
    }
}
