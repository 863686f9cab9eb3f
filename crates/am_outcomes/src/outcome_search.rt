//! The search for the outcomes of the alerts of a space.
//!
//! The outcome of the first choice of each way is looked up, in declared order, and of the choices
//! with the same outcome the first is kept. Of all choices that have this outcome, it is the first
//! in declared order.

ghost use Rattle.std.specs.Prelude.{◌≡◌, IfOk, IfSome, IfNone};
ghost use Rattle.am_outcomes.specs.Configurations.{configurations_of, tried_of};
ghost use Rattle.am_outcomes.specs.MatchedPart.{matched_part};
ghost use Rattle.am_outcomes.specs.OutcomeSearch.{IsPrepared, searched_configurations};
ghost use Rattle.am_outcomes.specs.OutcomeSearch.{searched_space};
ghost use Rattle.am_outcomes.specs.Outcomes.{outcomes_of};
ghost use Rattle.am_outcomes.specs.Ways.{HaveManyWays};

use crate::configs::Configs;
use crate::found::Outcomes;
use crate::handling::outcome_of;
use crate::routers::Routed;
use crate::steps::{Step, steps_for};
use crate::ways::firsts_of_ways;
use am_first_sets::{Budget, PossibleSets, Unfinished};
use am_labels::{Matchers, Space};
use indexmap::IndexMap;
use std::alloc::{AllocError, Global};

/// A space, and what is tried on its choices. It is prepared once, and serves several searches.
#[derive(Drop)]
pub struct OutcomeSearch<'a> {
    space: &'a Space,
    possible: PossibleSets<'a>,
    steps: Vec<Step>,
    routed: Routed<'a>,
}

impl<'a> OutcomeSearch<'a> {
    /// Prepares the search for the outcomes of the choices of a space. Fails only if memory runs
    /// out.
    pub fn of(
        alloc: Global,
        space: &'a Space,
        configs: Configs<'a>,
    ) -> Result<OutcomeSearch<'a>, AllocError>
        ensures space { IfOk result (λ search. searched_space search ≡ space.now) }
        ensures configurations { IfOk result (λ search.
            searched_configurations search ≡ configurations_of configs.entry) }
        ensures prepared { IfOk result IsPrepared }
    {
        Ok(OutcomeSearch {
            space,
            possible: PossibleSets::of(alloc, space)?,
            steps: steps_for(alloc, space.universe(), configs)?,
            routed: Routed::of(alloc, space.universe(), configs)?,
        })
    }

    /// Finds each outcome of those choices whose label sets match some matchers, and the first such
    /// choice that has it. Returns `None` if there are more ways through the routes and the
    /// silences than there is room for. Fails if the budget is used up or memory runs out.
    pub fn outcomes_among(
        &self,
        alloc: Global,
        among: &Matchers,
        budget: &mut Budget,
    ) -> Result<Option<Outcomes>, Unfinished>
        requires { IsPrepared self.now }
        ensures some { IfOk result (λ found. IfSome found (λ outcomes. outcomes
            ≡ outcomes_of (matched_part (searched_space self.now) among.now)
            (searched_configurations self.now))) }
        ensures none { IfOk result (λ found. IfNone found
            (HaveManyWays (matched_part (searched_space self.now) among.now)
            (tried_of (searched_configurations self.now)))) }
    {
        let universe = self.space.universe();
        let steps = self.steps.as_slice();
        let found = firsts_of_ways(alloc, universe, &self.possible, steps, among, budget)?;
        let Some(choices) = found else {
            return Ok(None);
        };
        let mut firsts = IndexMap::new(alloc);
        for choice in &choices {
            let lists = outcome_of(alloc, &self.routed, universe, choice)?;
            if !firsts.contains_key(&lists) {
                firsts.insert(lists, *choice)?;
            }
        }
        Ok(Some(Outcomes { firsts }))
    }
}

/// Finds each outcome that some choice of a space has, and the first choice that has it. Returns
/// `None` if there are more ways through the routes and the silences than there is room for. Fails
/// if the budget is used up or memory runs out.
///
/// Under one configuration, the outcome of a choice is the list of the receivers to which its label
/// set goes, by their positions. Under two, it is this list under each, and the positions of the
/// options that differ at ends with receivers of the same name. With silences, it is the list of
/// the receivers, and a second list that has one item if a silence matches the label set, and none
/// if not. Where the ends are looked for, it is the list of the receivers, and then the path of
/// each end. For a list of matchers, it is one list that has one item if they match the label set,
/// and none if not.
pub fn find_outcomes(
    alloc: Global,
    space: &Space,
    configs: Configs<'_>,
    budget: &mut Budget,
) -> Result<Option<Outcomes>, Unfinished>
    ensures some { IfOk result (λ found. IfSome found (λ outcomes.
        outcomes ≡ outcomes_of space.now (configurations_of configs.entry))) }
    ensures none { IfOk result (λ found. IfNone found
        (HaveManyWays space.now (tried_of (configurations_of configs.entry)))) }
{
    let search = OutcomeSearch::of(alloc, space, configs)?;
    search.outcomes_among(alloc, &Matchers::empty(alloc), budget)
}
