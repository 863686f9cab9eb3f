//! The alerts that end at a route.
//!
//! An alert may end at each route, and a path takes far more room than a truth. So for each route
//! there is its path, and which alerts end there.

ghost use Rattle.std.specs.Prelude.{◌≡◌, IfOk};
ghost use Rattle.std.specs.List.{list_any};
ghost use Rattle.am_eval.specs.Question.{reaches};
ghost use Rattle.am_alerts.specs.AlertLabels.{flag};
ghost use Rattle.am_alerts.specs.RouteEnds.{ends_of};

use am_config::Path;
use am_eval::Reach;
use std::alloc::{AllocError, Global};

/// A route, and the alerts that end at it, as a truth for each.
#[derive(Drop)]
pub(crate) struct RouteEnds {
    pub(crate) path: Path,
    pub(crate) alerts: Vec<bool>,
}

impl RouteEnds {
    /// Whether the alert at a position ends at the route.
    pub(crate) fn has(&self, alert: usize) -> bool
        ensures { result ≡ flag self.now.alerts.items alert }
    {
        alert < self.alerts.len() && self.alerts[alert]
    }
}

/// Returns the routes at some paths, where one alert ends at each. Fails only if memory runs out.
pub(crate) fn rows_of(alloc: Global, paths: &[Path]) -> Result<Vec<RouteEnds>, AllocError>
    ensures { IfOk result (λ rows. ends_of rows.items 0 ≡ paths.now) }
{
    let mut rows = Vec::with_capacity(alloc, paths.len())?;
    for path in paths {
        rows.push(RouteEnds {
            path: *path,
            alerts: vec![in alloc; true; 1]?,
        })?;
    }
    Ok(rows)
}

/// Whether the alert at a position reaches the route at a path.
pub(crate) fn reaches(rows: &[RouteEnds], alert: usize, reach: Reach, path: &Path) -> bool
    ensures { result ≡ list_any (reaches reach path.now) (ends_of rows.now alert) }
{
    rows.iter()
        .any(|row| row.has(alert) && is_reached(&row.path, reach, path))
}

/// Whether an alert that ends at the route at a path reaches another route.
fn is_reached(end: &Path, reach: Reach, path: &Path) -> bool
    ensures { result ≡ reaches reach path.now end.now }
{
    match reach {
        Reach::Ends => *end == *path,
        Reach::Enters => end.leads_through(path),
    }
}
