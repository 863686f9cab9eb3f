//! Unseen matchers, as they are kept in memory. The `impl Model` has imports of its own, so that no
//! import goes in a circle.
ghost use Rattle.std.specs.Prelude.{◌≡◌, option_map};

use am_complete::Origin;
use am_labels::Op;
use std::marker::Model;

/// A matcher with `=` or `=~` that asks for a value that is not known, though some value of the
/// label is.
#[derive(Drop)]
pub(crate) struct UnseenMatcher<'w> {
    /// Where it stands: at a route, in a rule or in a silence.
    pub(crate) origin: Origin,
    pub(crate) name: &'w str,
    pub(crate) op: Op,
    /// The value that it compares with, or the pattern.
    pub(crate) value: &'w str,
    /// The most similar known value of the label, if one is at most `MOST_EDITS` edits away. A
    /// pattern has none.
    pub(crate) similar: Option<&'w str>,
}

impl<'w> Model for UnseenMatcher<'w> {
    ghost use Rattle.std.specs.Prelude.{option_map};
    ghost use Rattle.am_unseen.specs.Unseen as spec;

    ghost Value = { spec.UnseenMatcher };

    ghost view = { λ u. record {
      origin = u.origin;
      matcher = record { name = u.name.now; op = u.op; value = u.value.now };
      similar = option_map (λ v. v.now) u.similar;
    } };
}
