//! The routes of some configurations and some silences as steps, one behind the other.
//!
//! A step asks whether an alert matches a route or a silence, and knows which step comes next if it
//! does and which if it does not. So whoever follows an alert through the routes needs no stack of
//! siblings that are still to be tried: behind the children of a route comes what is behind the
//! route. Behind all routes come the silences, until one matches.

ghost use Rattle.std.specs.Prelude.{◌≡◌, ◌≤◌, ◌++◌, [], List, length, IfOk};
ghost use Rattle.am_config.specs.RouteView.{route_view};
ghost use Rattle.am_outcomes.specs.Configurations.{configurations_of, tried_of};
ghost use Rattle.am_outcomes.specs.OutcomesView.{tried_view};
ghost use Rattle.am_outcomes.specs.Steps.{AreSteps, GoesThrough, GoesPast};

use crate::configs::{ActiveSilence, Configs};
use am_config::{Config, Route};
use am_judged_lists::Cube;
use am_universe::Universe;
use std::alloc::{AllocError, Global};

/// A route or a silence that is tried.
#[derive(Drop)]
pub(crate) struct Step {
    /// The cube of its matchers.
    pub(crate) cube: Cube,
    /// The step that comes next if they match an alert.
    pub(crate) matched: usize,
    /// The step that comes next if they do not.
    pub(crate) unmatched: usize,
}

/// Makes the steps of all that is tried for an outcome, as [`steps_of`] does.
pub(crate) fn steps_for(
    alloc: Global,
    universe: &Universe,
    configs: Configs<'_>,
) -> Result<Vec<Step>, AllocError>
    ensures steps { IfOk result (λ made. AreSteps made.items) }
    ensures goes { IfOk result (λ made. GoesThrough universe.now
        (tried_of (configurations_of configs.entry)) made.items (length made.items)) }
{
    match configs {
        Configs::One(config) | Configs::Ends(config) => steps_of(alloc, universe, &[config], &[]),
        Configs::Pair(old, new) => steps_of(alloc, universe, &[old, new], &[]),
        Configs::Silenced(config, silences) => steps_of(alloc, universe, &[config], silences),
        Configs::Matched(matchers) => {
            let list = ActiveSilence {
                position: 0,
                matchers,
            };
            steps_of(alloc, universe, &[], &[list])
        }
    }
}

/// Makes the steps of the routes of some configurations and of some silences. From the last of them
/// on, an alert goes its way through the routes and then through the silences.
///
/// A step is named by its position plus one, and 0 is the end. What comes after a step stands
/// before it. Fails only if memory runs out.
fn steps_of(
    alloc: Global,
    universe: &Universe,
    configs: &[&Config],
    silences: &[ActiveSilence<'_>],
) -> Result<Vec<Step>, AllocError>
    ensures steps { IfOk result (λ made. AreSteps made.items) }
    ensures goes { IfOk result (λ made. GoesThrough universe.now
        (tried_view configs.now silences.now) made.items (length made.items)) }
{
    let mut steps = steps_of_silences(alloc, universe, silences)?;
    for i in 0..configs.len() {
        let root = configs[configs.len() - 1 - i].root();
        let next = steps.len();
        push_route(alloc, universe, root, next, next, &mut steps)?;
    }
    Ok(steps)
}

/// Makes the steps of some silences, which are tried until one matches. Fails only if memory runs
/// out.
fn steps_of_silences(
    alloc: Global,
    universe: &Universe,
    silences: &[ActiveSilence<'_>],
) -> Result<Vec<Step>, AllocError>
    ensures steps { IfOk result (λ made. AreSteps made.items) }
    ensures goes { IfOk result (λ made.
        GoesThrough universe.now (tried_view [] silences.now) made.items (length made.items)) }
{
    let mut steps = Vec::new(alloc);
    for i in 0..silences.len() {
        let silence = &silences[silences.len() - 1 - i];
        let next = steps.len();
        steps.push(Step {
            cube: Cube::of(alloc, silence.matchers, universe)?,
            matched: 0,
            unmatched: next,
        })?;
    }
    Ok(steps)
}

/// Adds the steps of a route and of all routes below it, and returns that of the route. If an alert
/// does not match the route, or the route has `continue`, `next` comes behind it and its children,
/// and otherwise `end`. Fails only if memory runs out.
fn push_route(
    alloc: Global,
    universe: &Universe,
    route: &Route,
    next: usize,
    end: usize,
    steps: &mut Vec<Step>,
) -> Result<usize, AllocError>
    requires steps { AreSteps steps.old.items }
    requires next { next ≤ length steps.old.items }
    requires end { end ≤ length steps.old.items }
    ensures steps { IfOk result (λ first. AreSteps steps.new.items) }
    ensures first { IfOk result (λ first. first ≡ length steps.new.items) }
    ensures more { IfOk result (λ first. (more : List Step)
        × (steps.new.items ≡ steps.old.items ++ more)) }
    ensures goes { IfOk result (GoesPast universe.now (route_view route.now) steps.old.items next
        end steps.new.items) }
{
    let behind = if route.continues() { next } else { end };
    let children = route.routes();
    let mut first = behind;
    for i in 0..children.len() {
        let child = &children[children.len() - 1 - i];
        first = push_route(alloc, universe, child, first, behind, steps)?;
    }
    steps.push(Step {
        cube: Cube::of(alloc, route.matchers(), universe)?,
        matched: first,
        unmatched: next,
    })?;
    Ok(steps.len())
}
