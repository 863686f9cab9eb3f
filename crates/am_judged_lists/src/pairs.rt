//! Pairs of choices over the same labels, as one choice over twice as many labels.

ghost use Rattle.std.specs.Prelude.{◌≡◌, ◌≤◌};
ghost use Rattle.am_judged_lists.specs.Pairs.{place_of, is_shared};

use am_universe::limits::MAX_LABELS;

/// One of the two choices of a pair.
#[derive(Clone, Copy)]
pub enum Side {
    First,
    Second,
}

/// The label of a pair at which a label of one side is seen. The second side is seen at the first
/// where both share the label.
pub(crate) fn place_of(side: Side, shared: &[usize], label: usize) -> usize
    requires { label ≤ MAX_LABELS }
    ensures { result ≡ place_of side shared.now label }
{
    match side {
        Side::First => 2 * label,
        Side::Second => {
            if is_shared(shared, label) {
                2 * label
            } else {
                2 * label + 1
            }
        }
    }
}

/// Whether a label is one of the shared labels.
fn is_shared(shared: &[usize], label: usize) -> bool
    ensures { result ≡ is_shared shared.now label }
{
    shared.iter().any(|i| *i == label)
}
