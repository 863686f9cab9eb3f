//! The outcomes of the alerts of rules.

ghost use Rattle.std.specs.Prelude.{◌≡◌, ◌<◌, ℕ, length, map, IfOk, OnOk, IfSome, IfNone, Some};
ghost use Rattle.std.specs.Prelude.{option_and_then, option_copied, option_map, slice_get};
ghost use Rattle.std.specs.List.{AllByRecursion};
ghost use Rattle.am_outcomes.specs.Configurations.{configurations_of, tried_of};
ghost use Rattle.am_outcomes.specs.OutcomeSearch.{IsPrepared, searched_configurations};
ghost use Rattle.am_outcomes.specs.OutcomeSearch.{searched_space};
ghost use Rattle.am_outcomes.specs.Ways.{HaveManyWays};
ghost use Rattle.am_rule_outcomes.specs.Narrowed.{narrowed_outcomes, AreTooMany, HaveWholeChoices};
ghost use Rattle.am_rule_outcomes.specs.Narrowed.{left_outcomes};
ghost use Rattle.am_rule_outcomes.specs.Narrowing.{narrowed};
ghost use Rattle.am_rule_outcomes.specs.NarrowingView.{AreShared, narrowed_each, narrowed_in};
ghost use Rattle.am_rule_outcomes.specs.NarrowingView.{narrowed_of};
ghost use Rattle.am_rule_outcomes.specs.NarrowingView.{narrowed_view, narrowing_view};
ghost use Rattle.am_rule_outcomes.specs.NarrowingView.{rule_outcomes_view};

use crate::kept_matchers::kept_matchers;
use crate::narrowing::Narrowing;
use am_first_sets::{Budget, Unfinished};
use am_labels::Space;
use am_outcomes::{Configs, OutcomeSearch, Outcomes};
use am_universe::Universe;
use indexmap::IndexSet;
use std::alloc::Global;

/// Outcomes of choices of a universe.
#[derive(Clone, Copy)]
pub struct NarrowedOutcomes<'a> {
    pub universe: &'a Universe,
    pub outcomes: &'a Outcomes,
}

/// For each rule the outcomes of its alerts. Rules that narrow the universe alike share them.
#[derive(Drop)]
pub struct RuleOutcomes {
    /// The universe that stands for every alert.
    pub universe: Universe,
    /// The outcomes of its choices, for each way in which it is narrowed.
    pub each: Vec<Outcomes>,
    /// The position of the outcomes of each rule. A rule without alerts has none.
    pub of_rules: Vec<Option<usize>>,
}

impl RuleOutcomes {
    /// The outcomes of the rule at a position, or `None` if it has no alert that counts, or if
    /// there is no such rule.
    pub fn of_rule(&self, i: usize) -> Option<NarrowedOutcomes<'_>>
        ensures outcomes { option_map narrowed_view result
            ≡ option_and_then (λ n. n) (slice_get (rule_outcomes_view self.now) i) }
    {
        let position = (*self.of_rules.get(i)?)?;
        Some(NarrowedOutcomes {
            universe: &self.universe,
            outcomes: self.each.get(position)?,
        })
    }
}

/// Finds the outcomes of the alerts of each rule, whose narrowings of the universe of the space are
/// known. Returns `None` if for some rule there are more ways through the routes than there is room
/// for. The space keeps its impossible lists, and loses its labels if outcomes are returned. Fails
/// if the budget is used up or memory runs out.
pub fn outcomes_of_rules(
    alloc: Global,
    space: &mut Space,
    configs: Configs<'_>,
    narrowings: Vec<Option<Narrowing>>,
    budget: &mut Budget,
) -> Result<Option<RuleOutcomes>, Unfinished>
    ensures some { IfOk result (λ found. IfSome found (λ outcomes. rule_outcomes_view outcomes
        ≡ map (option_map (narrowed_outcomes space.old (configurations_of configs.entry)))
        (map narrowing_view narrowings.items))) }
    ensures none { IfOk result (λ found. IfNone found
        (AreTooMany space.old (configurations_of configs.entry)
        (map narrowing_view narrowings.items))) }
    ensures whole { IfOk result (λ found. IfSome found (λ outcomes. AllByRecursion HaveWholeChoices
        (narrowed_in outcomes))) }
    ensures count { IfOk result (λ found. IfSome found (λ outcomes.
        length outcomes.of_rules.items ≡ length narrowings.items)) }
    ensures impossible { space.new.impossible ≡ space.old.impossible }
{
    let found = outcomes_of_each(alloc, space, configs, narrowings.as_slice(), budget)?;
    let Some((each, of_rules)) = found else {
        return Ok(None);
    };
    Ok(Some(RuleOutcomes {
        universe: space.undeclare(alloc),
        each,
        of_rules,
    }))
}

/// Returns the outcomes of all narrowings, each once, and the position of those of each rule, as
/// [`outcomes_of_rules`] does.
fn outcomes_of_each(
    alloc: Global,
    space: &Space,
    configs: Configs<'_>,
    narrowings: &[Option<Narrowing>],
    budget: &mut Budget,
) -> Result<Option<(Vec<Outcomes>, Vec<Option<usize>>)>, Unfinished>
    ensures some { IfOk result (λ found. IfSome found (λ outcomes.
        map (narrowed_of (narrowed_each space.now.labels outcomes.0.items)) outcomes.1.items
        ≡ map (option_map (narrowed_outcomes space.now (configurations_of configs.entry)))
        (map narrowing_view narrowings.now))) }
    ensures none { IfOk result (λ found. IfNone found
        (AreTooMany space.now (configurations_of configs.entry)
        (map narrowing_view narrowings.now))) }
    ensures whole { IfOk result (λ found. IfSome found (λ outcomes. AllByRecursion HaveWholeChoices
        (narrowed_each space.now.labels outcomes.0.items))) }
    ensures count { IfOk result (λ found. IfSome found (λ outcomes.
        length outcomes.1.items ≡ length narrowings.now)) }
{
    let search = OutcomeSearch::of(alloc, space, configs)?;
    let mut shared = Shared {
        seen: IndexSet::new(alloc),
        each: Vec::new(alloc),
    };
    let mut of_rules = Vec::with_capacity(alloc, narrowings.len())?;
    for rule in 0..narrowings.len() {
        let Some(kept) = &narrowings[rule] else {
            of_rules.push(None)?;
            continue;
        };
        let kept = kept.as_slice();
        match shared.position_of(alloc, &search, space.universe(), kept, budget)? {
            Some(position) => of_rules.push(Some(position))?,
            None => return Ok(None),
        }
    }
    Ok(Some((shared.each, of_rules)))
}

/// The item at a position, if there is one.
pub(crate) fn item_at<T>(items: &[T], position: Option<usize>) -> Option<&T>
    ensures { option_copied result ≡ option_and_then (slice_get items.now) position }
{
    match position {
        Some(position) => items.get(position),
        None => None,
    }
}

/// Narrowings, each once, and the outcomes of each.
#[derive(Drop)]
struct Shared<'n> {
    seen: IndexSet<&'n [Option<usize>]>,
    each: Vec<Outcomes>,
}

impl<'n> Shared<'n> {
    /// Returns the position of the outcomes of a narrowing of the universe that is searched, and
    /// finds them if they are new. Returns `None` if there are too many ways through the routes.
    /// Fails if the budget is used up or memory runs out.
    fn position_of(
        &mut self,
        alloc: Global,
        search: &OutcomeSearch<'_>,
        universe: &Universe,
        narrowing: &'n [Option<usize>],
        budget: &mut Budget,
    ) -> Result<Option<usize>, Unfinished>
        requires prepared { IsPrepared search.now }
        requires universe { universe.now ≡ (searched_space search.now).labels }
        requires shared { AreShared (searched_space search.now)
            (searched_configurations search.now) self.old }
        ensures some { IfOk result (λ found. IfSome found (λ position.
            slice_get self.new.each.items position ≡ Some (left_outcomes
            (searched_space search.now) (searched_configurations search.now) narrowing.now))) }
        ensures none { IfOk result (λ found. IfNone found
            (HaveManyWays (narrowed (searched_space search.now) narrowing.now)
            (tried_of (searched_configurations search.now)))) }
        ensures shared { IfOk result (λ found. IfSome found (λ position.
            AreShared (searched_space search.now) (searched_configurations search.now) self.new)) }
        ensures kept { OnOk result ((i : ℕ) → i < length self.old.each.items
            → slice_get self.new.each.items i ≡ slice_get self.old.each.items i) }
    {
        if let Some(position) = self.seen.get_index_of(narrowing) {
            return Ok(Some(position));
        }
        let among = kept_matchers(alloc, universe, narrowing)?;
        let Some(found) = search.outcomes_among(alloc, &among, budget)? else {
            return Ok(None);
        };
        let position = self.each.len();
        self.each.push(found)?;
        self.seen.insert(narrowing)?;
        Ok(Some(position))
    }
}
