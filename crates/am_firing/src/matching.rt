//! Which firing alerts a list of matchers matches.

ghost use Rattle.std.specs.Prelude.{◌≡◌, map, IfOk};
ghost use Rattle.am_labels.specs.Matcher.{all_hold};
ghost use Rattle.am_firing.specs.Unreached.{is_matched};

use am_labels::Matchers;
use am_list_files::Alerts;
use std::alloc::{AllocError, Global};

/// Returns for each alert whether a list of matchers matches it. The list is prepared once for all
/// alerts. Fails only if memory runs out.
pub(crate) fn matches_of(
    alloc: Global,
    matchers: &Matchers,
    alerts: &Alerts,
) -> Result<Vec<bool>, AllocError>
    ensures { IfOk result (λ found.
        found.items ≡ map (λ alert. all_hold alert matchers.now) alerts.now) }
{
    let mut prepared = matchers.prepare(alloc);
    let mut found = Vec::with_capacity(alloc, alerts.len())?;
    for i in 0..alerts.len() {
        found.push(prepared.matches(alloc, alerts.get(i))?)?;
    }
    Ok(found)
}

/// Whether a list of matchers matches one of some alerts. Fails only if memory runs out.
pub(crate) fn is_matched(
    alloc: Global,
    matchers: &Matchers,
    alerts: &Alerts,
) -> Result<bool, AllocError>
    ensures { IfOk result (λ found. found ≡ is_matched alerts.now matchers.now) }
{
    let matches = matches_of(alloc, matchers, alerts)?;
    Ok(matches.iter().any(|is_match| *is_match))
}
