//! Which label sets of a space end at a route, said by matchers.
//!
//! They match each route on the way, and neither an earlier sibling that lacks `continue`, of a
//! route on the way, nor a child. Literals say that, one for each of these routes. Those that
//! follow from others are left out, and so are matchers that do.

ghost use Rattle.std.specs.Prelude.{◌≡◌, length, map, option_map, IfOk};
ghost use Rattle.am_lint.specs.Table.{KnowsRoutes, table_space, table_config, IsRoute};
ghost use Rattle.am_eval.specs.Reaching.{IsSetOf};
ghost use Rattle.am_first_sets.specs.Reason.{AreNamedBefore};
ghost use Rattle.am_route_alerts.specs.EndMatchers.{IsEnds};
ghost use Rattle.am_route_alerts.specs.FoundView.{ends_view};
ghost use Rattle.am_route_alerts.specs.KeptLists.{AreKeptLists};
ghost use Rattle.am_route_alerts.specs.MatcherCubes.{AreCubesOfRoutes};

use crate::hints::hints_of;
use crate::implied::leave_out_implied;
use crate::matcher_cubes::{MatcherCube, cubes_about};
use crate::shortened::shortened;
use am_config::Path;
use am_first_sets::{Budget, Candidate, Unfinished, some_meeting};
use am_labels::Matcher;
use am_lint::{Table, literals_of};
use am_universe::{Choice, Universe};
use std::alloc::Global;

/// Which alerts end at a route: those that match all the matchers, and none of the lists.
#[derive(Drop)]
pub struct EndMatchers<'a> {
    pub matchers: Vec<&'a Matcher>,
    pub unless: Vec<Vec<&'a Matcher>>,
}

/// Finds which label sets of a space end at the route at a path. Returns `None` if none does. The
/// universe should be that of the space: the search may take longer with another one. Fails if the
/// budget is used up or memory runs out.
pub(crate) fn end_matchers<'a>(
    alloc: Global,
    universe: &Universe,
    table: &Table<'_>,
    cubes: &[Vec<MatcherCube<'a>>],
    path: &Path,
    budget: &mut Budget,
) -> Result<Option<EndMatchers<'a>>, Unfinished>
    requires knows { KnowsRoutes table.now }
    requires cubes { AreCubesOfRoutes (table_space table.now).labels (table_config table.now)
        cubes.now }
    requires there { IsRoute (table_config table.now) path.now }
    ensures ends { IfOk result (λ found. IsEnds (IsSetOf (table_space table.now))
        (table_config table.now) path.now (option_map ends_view found)) }
{
    let mut literals = literals_of(alloc, table, path)?;
    let on_way = literals.on_way;
    let all = literals.all.as_mut_slice();
    let possible = table.possible.choices();
    let Some(found) = some_meeting(alloc, possible, all, budget)? else {
        return Ok(None);
    };
    let hints = hints_of(alloc, universe, &found, all)?;
    leave_out_implied(alloc, possible, all, on_way, &hints, budget)?;
    let (way, others) = all.split_at(on_way);
    let on_way = cubes_about(alloc, cubes, way)?;
    let matchers = shortened(alloc, &table.possible, &[], on_way.as_slice(), None, budget)?;
    let unless = kept_lists(alloc, table, cubes, way, others, hints.choice(), budget)?;
    Ok(Some(EndMatchers { matchers, unless }))
}

/// Returns for each named literal the matchers of the route that it is about, without those that
/// follow from the others, for the label sets that meet given literals. A choice that meets all
/// literals makes it shorter. Fails if the budget is used up or memory runs out.
fn kept_lists<'a>(
    alloc: Global,
    table: &Table<'_>,
    cubes: &[Vec<MatcherCube<'a>>],
    given: &[Candidate<'_>],
    literals: &[Candidate<'_>],
    choice: Option<&Choice>,
    budget: &mut Budget,
) -> Result<Vec<Vec<&'a Matcher>>, Unfinished>
    requires cubes { AreCubesOfRoutes (table_space table.now).labels (table_config table.now)
        cubes.now }
    requires named { AreNamedBefore (length given.now) given.now }
    ensures lists { IfOk result (λ lists. AreKeptLists (table_space table.now) cubes.now given.now
        literals.now (map (λ list. map (λ m. m.now) list.items) lists.items)) }
{
    let mut lists = Vec::new(alloc);
    for i in 0..literals.len() {
        if literals[i].named {
            let list = cubes_about(alloc, cubes, &literals[i..i + 1])?;
            let list = list.as_slice();
            lists.push(shortened(alloc, &table.possible, given, list, choice, budget)?)?;
        }
    }
    Ok(lists)
}
