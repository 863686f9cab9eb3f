//! Whether label sets reach each receiver.

ghost use Rattle.std.specs.Prelude.{◌≡◌, length, map, IfOk};
ghost use Rattle.std.specs.List.{AllByRecursion, range_with_len};
ghost use Rattle.am_config.specs.ConfigView.{config_view};
ghost use Rattle.am_search.specs.Start.{comes_before};
ghost use Rattle.am_coverage.specs.FirstEnds.{earlier, earliest_to};
ghost use Rattle.am_coverage.specs.CoverageView.{receiver_found, IsShownReceiver};

use crate::first_ends::{FirstEnd, first_ends};
use am_config::Config;
use am_labels::Space;
use am_universe::Choice;
use std::alloc::{AllocError, Global};

/// A receiver, by its position, and the first choice whose label set goes to it, in declared order.
/// Without one it is unmatched.
#[derive(Clone, Copy, Debug)]
pub struct ReceiverFound {
    /// The position of the receiver.
    pub receiver: usize,
    /// The first choice whose label set goes to it, if there is one.
    pub choice: Option<Choice>,
}

/// Finds for each receiver of a configuration whether a label set of a space goes to it, in
/// declared order. Fails only if memory runs out.
///
/// There is one search for each route, for the first label set that ends there. The first that goes
/// to a receiver is the earliest of those of its routes.
pub fn receivers_covered(
    alloc: Global,
    space: &Space,
    config: &Config,
) -> Result<Vec<ReceiverFound>, AllocError>
    ensures receivers { IfOk result (λ found. found.items
        ≡ map (receiver_found space.now (config_view config.now))
        (range_with_len 0 (length (config_view config.now).receivers))) }
    ensures shown { IfOk result (λ found. AllByRecursion
        (IsShownReceiver space.now.labels (config_view config.now)) found.items) }
{
    let ends = first_ends(alloc, space, config)?;
    let mut found = Vec::with_capacity(alloc, config.receivers())?;
    for receiver in 0..config.receivers() {
        found.push(ReceiverFound {
            receiver,
            choice: earliest_to(ends.as_slice(), receiver),
        })?;
    }
    Ok(found)
}

/// Returns the earliest of the first choices that end at the routes with a receiver.
fn earliest_to(ends: &[FirstEnd], receiver: usize) -> Option<Choice>
    ensures earliest { result ≡ earliest_to ends.now receiver }
{
    let mut first = None;
    for end in ends {
        if end.receiver == receiver {
            first = earlier(first, end.choice);
        }
    }
    first
}

/// Returns the earlier of two choices in declared order. Each may be missing.
fn earlier(first: Option<Choice>, other: Option<Choice>) -> Option<Choice>
    ensures earlier { result ≡ earlier first other }
{
    let Some(one) = first else {
        return other;
    };
    let Some(two) = other else {
        return first;
    };
    if comes_before(&two, &one) {
        other
    } else {
        first
    }
}

/// Whether a choice comes before another in declared order.
fn comes_before(choice: &Choice, other: &Choice) -> bool
    ensures before { result ≡ comes_before choice.now other.now }
{
    choice.as_slice().cmp(other.as_slice()).is_lt()
}
