//! How the label sets of a space arrive at a route: whether some end there or enter it, and why
//! none do.
//!
//! What an alert has to meet to enter a route, or to end there, is a list of *literals*. A literal
//! is a route that the alert must match, or must not match. There are three parts of them (`Part`):
//! the routes on the way; the siblings before these that lack `continue`; and the children. An
//! alert enters the route exactly if it meets the first two parts, and ends there exactly if it
//! meets all three. `first_meeting` finds the first label set of the space that meets some
//! literals.
//!
//! If label sets enter the route and none ends there, its children are to blame. If none enters it,
//! the siblings are, or the way itself if no label set matches that. `leave_out` names which of
//! them, and `leave_out_idle` only such children or siblings as take some label set.
//!
//! All these searches take their looks from a budget. If it is used up, the arrival is undecided.

ghost use Rattle.std.specs.Prelude.{◌≡◌, ◌≤◌, length, IfOk};
ghost use Rattle.am_labels.specs.Space.{IsChoiceOf};
ghost use Rattle.am_first_sets.specs.Literals.{IsUnmet};
ghost use Rattle.am_first_sets.specs.Reason.{AreNamedBefore};
ghost use Rattle.am_lint.specs.Table.{KnowsRoutes, table_space, table_config, IsRoute};
ghost use Rattle.am_lint.specs.Literals.{named_paths, AreBlamed, AreTakers};
ghost use Rattle.am_eval.specs.Reaching.{IsSetOf};
ghost use Rattle.am_lint.specs.Arrival.{IsArrival};

use crate::literals::literals_of;
use crate::table::Table;
use am_config::Path;
use am_first_sets::{
    Budget, Candidate, Unfinished, UsedUp, first_meeting, leave_out, leave_out_idle,
};
use am_universe::Choice;
use std::alloc::{AllocError, Global};

/// How routes keep label sets from entering another route.
#[derive(Clone, Copy)]
pub enum Cause {
    /// No label set matches all of these routes, which are on the way.
    Excluded,
    /// Each label set that matches the way is taken by one of these siblings first.
    Taken,
}

/// Why no label set enters a route: the routes that are to blame, by their paths in preorder.
/// Together they are enough, and each of them is needed.
#[derive(Drop)]
pub struct Reason {
    /// Whether the routes exclude each other or take each label set first.
    pub cause: Cause,
    /// The routes that are to blame, in preorder.
    pub routes: Vec<Path>,
}

/// How the label sets of a space arrive at a route.
#[derive(Drop)]
pub enum Arrival {
    /// The label set of this choice ends at the route.
    Ends(Choice),
    /// The label set of the choice `entry` enters the route, but none ends there: these children
    /// take all.
    HandsOn { entry: Choice, children: Vec<Path> },
    /// No label set enters the route, for this reason.
    NeverEntered(Reason),
    /// It is not known: the budget was used up.
    Undecided(UsedUp),
}

/// Finds how label sets arrive at the route at a path. The arrival is undecided if the budget is
/// used up. Fails only if memory runs out.
pub(crate) fn arrival_of(
    alloc: Global,
    table: &Table<'_>,
    path: &Path,
    budget: &mut Budget,
) -> Result<Arrival, AllocError>
    requires knows { KnowsRoutes table.now }
    requires there { IsRoute (table_config table.now) path.now }
    ensures arrival { IfOk result (IsArrival (table_space table.now).labels
        (IsSetOf (table_space table.now)) (table_config table.now) path.now) }
{
    budget.begin_item();
    match search_arrival(alloc, table, path, budget) {
        Ok(arrival) => Ok(arrival),
        Err(Unfinished::UsedUp(evidence)) => Ok(Arrival::Undecided(evidence)),
        Err(Unfinished::Memory) => Err(AllocError),
    }
}

/// Finds how label sets arrive at the route at a path. Fails if the budget is used up or memory
/// runs out.
fn search_arrival(
    alloc: Global,
    table: &Table<'_>,
    path: &Path,
    budget: &mut Budget,
) -> Result<Arrival, Unfinished>
    requires knows { KnowsRoutes table.now }
    requires there { IsRoute (table_config table.now) path.now }
    ensures arrival { IfOk result (IsArrival (table_space table.now).labels
        (IsSetOf (table_space table.now)) (table_config table.now) path.now) }
{
    let mut literals = literals_of(alloc, table, path)?;
    let (on_way, to_enter) = (literals.on_way, literals.to_enter);
    let all = literals.all.as_mut_slice();
    if let Some(choice) = first_meeting(alloc, &table.possible, all, budget)? {
        return Ok(Arrival::Ends(choice));
    }
    if let Some(entry) = first_meeting(alloc, &table.possible, &all[..to_enter], budget)? {
        let children = named_takers(alloc, table, all, to_enter, budget)?;
        return Ok(Arrival::HandsOn { entry, children });
    }
    match first_meeting(alloc, &table.possible, &all[..on_way], budget)? {
        Some(_) => Ok(Arrival::NeverEntered(Reason {
            cause: Cause::Taken,
            routes: named_takers(alloc, table, &mut all[..to_enter], on_way, budget)?,
        })),
        None => Ok(Arrival::NeverEntered(Reason {
            cause: Cause::Excluded,
            routes: named_by_reason(alloc, table, &mut all[..on_way], 0, budget)?,
        })),
    }
}

/// Finds why no label set meets all literals, and returns the paths of the routes that are to
/// blame. All literals must be named, and there must be no such label set. The first `fixed`
/// literals count as given. Fails if the budget is used up or memory runs out.
fn named_by_reason(
    alloc: Global,
    table: &Table<'_>,
    literals: &mut [Candidate<'_>],
    fixed: usize,
    budget: &mut Budget,
) -> Result<Vec<Path>, Unfinished>
    requires named { AreNamedBefore (length literals.old) literals.old }
    requires none { IsUnmet (IsChoiceOf (table_space table.now)) literals.old }
    requires within { fixed ≤ length literals.old }
    ensures blamed { IfOk result (λ routes. AreBlamed (table_space table.now)
        table.now.routes.items fixed literals.old routes.items) }
{
    leave_out(alloc, table.possible.choices(), literals, fixed, budget)?;
    Ok(named_routes(alloc, table, &literals[fixed..])?)
}

/// The same for literals that ask for no match. Each route that is to blame matches some label set
/// that meets all literals before its own.
fn named_takers(
    alloc: Global,
    table: &Table<'_>,
    literals: &mut [Candidate<'_>],
    fixed: usize,
    budget: &mut Budget,
) -> Result<Vec<Path>, Unfinished>
    requires named { AreNamedBefore (length literals.old) literals.old }
    requires none { IsUnmet (IsChoiceOf (table_space table.now)) literals.old }
    requires within { fixed ≤ length literals.old }
    ensures takers { IfOk result (λ routes. AreTakers (table_space table.now)
        table.now.routes.items fixed literals.old routes.items) }
{
    leave_out_idle(alloc, table.possible.choices(), literals, fixed, budget)?;
    Ok(named_routes(alloc, table, &literals[fixed..])?)
}

/// Returns the paths of the routes whose literals are named.
fn named_routes(
    alloc: Global,
    table: &Table<'_>,
    literals: &[Candidate<'_>],
) -> Result<Vec<Path>, AllocError>
    ensures { IfOk result (λ routes.
        routes.items ≡ named_paths table.now.routes.items literals.now) }
{
    let mut routes = Vec::new(alloc);
    for literal in literals {
        if literal.named {
            routes.push(table.path_at(literal.tag))?;
        }
    }
    Ok(routes)
}
