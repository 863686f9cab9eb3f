ghost use Rattle.std.specs.Prelude.{◌≡◌, true};
ghost use Rattle.std.specs.List.{sum};
ghost use Rattle.am_first_sets.specs.Looks.{is_limit};

use crate::limits::{MAX_LOOKS, MAX_REPORT_LOOKS};
use am_universe::History;

/// The evidence that searches looked at [`MAX_LOOKS`] masks for a route, rule or silence, or at
/// [`MAX_REPORT_LOOKS`] for a report. Only a budget that is used up gives it.
#[derive(Drop)]
pub struct UsedUp {
    /// How many were looked at, time after time.
    pub(crate) looked: History<usize>,
    ghost all: { is_limit (sum looked.items) ≡ true },
}
