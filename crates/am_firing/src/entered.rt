//! Which routes alerts enter.

ghost use Rattle.std.specs.Prelude.{◌≡◌, ◌||◌, ℕ, List, IfOk, OnOk};
ghost use Rattle.std.specs.List.{list_any};
ghost use Rattle.am_lint.specs.FoundView.{finding_of, said_of};
ghost use Rattle.am_firing.specs.Unreached.{is_entered, has_entered_parent, is_barred};
ghost use Rattle.am_firing.specs.Unreached.{is_unreached};
ghost use Rattle.am_firing.specs.Reach.{paths_of, leads_to};

use am_config::Path;
use am_eval::{World, ends};
use am_lint::{FoundRoute, RouteFinding};
use indexmap::IndexSet;
use std::alloc::{AllocError, Global};

/// Returns where the alerts of a world end: the steps of each path, each path once. Fails only if
/// memory runs out.
pub(crate) fn ends_of_alerts(
    alloc: Global,
    world: &World,
) -> Result<IndexSet<Vec<usize>>, AllocError>
    ensures { IfOk result (λ found. (path : List ℕ)
        → leads_to (paths_of found) path ≡ is_entered world.now path) }
{
    let mut found = IndexSet::new(alloc);
    for i in 0..world.alerts().len() {
        let paths = ends(alloc, world.config(), world.alerts().get(i))?;
        add_paths(alloc, &mut found, paths.as_slice())?;
    }
    Ok(found)
}

/// Adds the paths that are not yet there.
fn add_paths(
    alloc: Global,
    found: &mut IndexSet<Vec<usize>>,
    paths: &[Path],
) -> Result<(), AllocError>
    ensures { OnOk result ((path : List ℕ) → leads_to (paths_of found.new) path
        ≡ (leads_to (paths_of found.old) path || leads_to paths.now path)) }
{
    for path in paths {
        found.insert(steps_of(alloc, path)?)?;
    }
    Ok(())
}

/// Returns the steps of a path.
fn steps_of(alloc: Global, path: &Path) -> Result<Vec<usize>, AllocError>
    ensures { IfOk result (λ steps. steps.items ≡ path.now) }
{
    let mut steps = Vec::with_capacity(alloc, path.len())?;
    for step in path.steps() {
        steps.push(usize::from(*step))?;
    }
    Ok(steps)
}

/// Whether a route is told to be unreached, by where the alerts end. Fails only if memory runs out.
pub(crate) fn is_unreached(
    alloc: Global,
    ends: &IndexSet<Vec<usize>>,
    route: &FoundRoute,
) -> Result<bool, AllocError>
    ensures { IfOk result (λ is.
        is ≡ is_unreached (leads_to (paths_of ends.now)) (said_of route.now)) }
{
    let steps = steps_of(alloc, &route.path)?;
    Ok(
        !is_entered(ends, steps.as_slice())
            && has_entered_parent(ends, steps.as_slice())
            && !is_barred(route),
    )
}

/// Whether an alert enters the route at a path.
fn is_entered(ends: &IndexSet<Vec<usize>>, steps: &[usize]) -> bool
    ensures { result ≡ leads_to (paths_of ends.now) steps.now }
{
    ends.as_slice().iter().any(|end| end.starts_with(steps))
}

/// Whether an alert enters the parent of the route at a path, if it has one.
fn has_entered_parent(ends: &IndexSet<Vec<usize>>, steps: &[usize]) -> bool
    ensures { result ≡ has_entered_parent (leads_to (paths_of ends.now)) steps.now }
{
    match steps.split_last() {
        None => true,
        Some((_, parent)) => is_entered(ends, parent),
    }
}

/// Whether it is already said of a route that no ordinary alert enters it.
fn is_barred(route: &FoundRoute) -> bool
    ensures { result ≡ is_barred (finding_of route.now) }
{
    matches!(
        route.finding(),
        Some(RouteFinding::Dead(_) | RouteFinding::Unusual(_, _))
    )
}
