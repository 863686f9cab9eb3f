ghost use Rattle.std.specs.Prelude.{◌≡◌, ◌++◌, List, []};
ghost use Rattle.std.specs.Borrow.{ftrue};

use std::marker::{Model, PhantomData};

/// The items that have come so far, in order. Only contracts see them, and a history takes no
/// bytes.
#[derive(Drop)]
pub struct History<T> {
    of: PhantomData<T>,
    pub ghost items: { List T },
}

impl<T> Model for History<T> {
    ghost also_owns = { λ _. ftrue };
}

impl<T> History<T> {
    /// The empty history.
    pub fn new() -> History<T>
        ensures nothing { result.items ≡ [] }
    {
        History { of: PhantomData }
    }

    /// This history, followed by these items.
    pub fn followed_by(&self, _items: &[T]) -> History<T>
        ensures joined { result.items ≡ self.now.items ++ _items.now }
    {
        History { of: PhantomData }
    }
}
