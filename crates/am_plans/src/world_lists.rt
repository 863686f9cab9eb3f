//! The lists of a world.

ghost use Rattle.std.specs.Prelude.{◌≡◌, ◌||◌, ℕ, List, IfOk, OnOk, IsTrue};
ghost use Rattle.std.specs.List.{list_any};
ghost use Rattle.am_universe.specs.Choice.{admits};
ghost use Rattle.am_universe.specs.Universe.{sizes};
ghost use Rattle.am_eval.specs.declared.property.Property.TheVariants.{Silenced, Inhibited};
ghost use Rattle.am_eval.specs.Question.{Is};
ghost use Rattle.am_eval.specs.QuestionView.{question_view};
ghost use Rattle.am_eval.specs.World.{World};
ghost use Rattle.am_judged_lists.specs.Cube.{verdict_at};
ghost use Rattle.am_judged_lists.specs.declared.certainty.Certainty.{Certainty};
ghost use Rattle.am_judged_lists.specs.Certainty.{passes};
ghost use Rattle.am_plans.specs.PairsByLists.{inhibited_by};
ghost use Rattle.am_plans.specs.RouteGroups.{AreRoutesOf};
ghost use Rattle.am_plans.specs.RoutesByWays.{reaches_in};
ghost use Rattle.am_plans.specs.Verdicts.{verdict_of_simple};
ghost use Rattle.am_plans.specs.WorldByLists.{world_seen, has_seen, needs_of, AreRoutes};
ghost use Rattle.am_plans.specs.WorldByLists.{IsProperty, Serves, IsSeen, if_there};

use crate::pair_lists::PairLists;
use crate::route_lists::{RouteLists, RoutesSeen};
use am_config::RouteList;
use am_eval::{Property, Question, World};
use am_judged_lists::{Certainty, Cube, Table};
use am_universe::{Choice, Universe};
use std::alloc::{AllocError, Global};

/// What a question may ask about.
#[derive(Clone, Copy)]
enum Need {
    /// The routes of the configuration.
    Routes,
    /// The silences that are active.
    Silences,
    /// The pairs of an inhibition rule and a firing alert.
    Pairs,
}

/// Whether a question asks about what `need` says.
fn needs(question: &Question, need: Need) -> bool
    ensures { result ≡ needs_of need (question_view question.now) }
{
    match question {
        Question::Any | Question::Braces(_) => false,
        Question::Silenced => matches!(need, Need::Silences),
        Question::Inhibited => matches!(need, Need::Pairs),
        Question::Receiver(_) | Question::Ends(_) | Question::Enters(_) => {
            matches!(need, Need::Routes)
        }
        Question::Not(question) => needs(question, need),
        Question::And(left, right) | Question::Or(left, right) => {
            needs(left, need) || needs(right, need)
        }
    }
}

/// The lists of the routes, the active silences, and the pairs of a world, as far as a question
/// asks about them.
#[derive(Drop)]
pub(crate) struct WorldLists {
    routes: Option<RouteLists>,
    silences: Option<Table>,
    pairs: Option<PairLists>,
}

impl WorldLists {
    /// Makes the lists of a world, which has these routes, so far as a question asks about them.
    /// Fails only if memory runs out.
    pub(crate) fn of(
        alloc: Global,
        universe: &Universe,
        world: &World,
        routes: &RouteList<'_>,
        question: &Question,
    ) -> Result<WorldLists, AllocError>
        requires { AreRoutesOf world.now.config routes.now }
        ensures serves { IfOk result (λ lists. (prefix : List ℕ)
            → IsTrue (admits (sizes universe.now) prefix) → Serves universe.now world.now prefix
            (world_seen prefix lists) (question_view question.now)) }
    {
        Ok(WorldLists {
            routes: routes_if(alloc, universe, routes, needs(question, Need::Routes))?,
            silences: silences_if(alloc, universe, world, needs(question, Need::Silences))?,
            pairs: pairs_if(alloc, universe, world, needs(question, Need::Pairs))?,
        })
    }

    /// Finds the routes that a label set reaches at a prefix, if there are lists of them.
    pub(crate) fn see(&self, prefix: &Choice) -> Option<RoutesSeen>
        ensures { IsSeen prefix.now self.now result }
    {
        match &self.routes {
            Some(routes) => Some(routes.see(prefix)),
            None => None,
        }
    }

    /// Whether, at a prefix, it is not excluded (`May`) or is certain (`Must`) that a label set has
    /// a property.
    pub(crate) fn has(&self, certainty: Certainty, property: Property, prefix: &Choice) -> bool
        ensures has { result
            ≡ has_seen (world_seen prefix.now self.now) certainty property }
    {
        match property {
            Property::Any => true,
            Property::Silenced => match &self.silences {
                Some(silences) => silences.any(certainty, prefix),
                None => false,
            },
            Property::Inhibited => match &self.pairs {
                Some(pairs) => pairs.inhibit(certainty, prefix),
                None => false,
            },
        }
    }
}

/// The lists of these routes, if they are needed.
fn routes_if(
    alloc: Global,
    universe: &Universe,
    routes: &RouteList<'_>,
    needed: bool,
) -> Result<Option<RouteLists>, AllocError>
    ensures routes { IfOk result (λ found. IsTrue needed → (w : World) (prefix : List ℕ)
        → AreRoutesOf w.config routes.now → IsTrue (admits (sizes universe.now) prefix)
        → AreRoutes universe.now w prefix (reaches_in prefix found)) }
{
    if !needed {
        return Ok(None);
    }
    Ok(Some(RouteLists::of(alloc, universe, routes)?))
}

/// The lists of the active silences of a world, if they are needed.
fn silences_if(
    alloc: Global,
    universe: &Universe,
    world: &World,
    needed: bool,
) -> Result<Option<Table>, AllocError>
    ensures silences { IfOk result (λ found. IsTrue needed → (prefix : List ℕ)
        → IsTrue (admits (sizes universe.now) prefix)
        → IsProperty universe.now world.now prefix Silenced (λ m.
        if_there (list_any (λ cube. passes m (verdict_at cube prefix))) found)) }
{
    if !needed {
        return Ok(None);
    }
    let lists = lists_of_silences(alloc, universe, world)?;
    Ok(Some(Table::of(alloc, universe, lists)?))
}

/// The lists of the pairs of a world, if they are needed.
fn pairs_if(
    alloc: Global,
    universe: &Universe,
    world: &World,
    needed: bool,
) -> Result<Option<PairLists>, AllocError>
    ensures pairs { IfOk result (λ found. IsTrue needed → (prefix : List ℕ)
        → IsTrue (admits (sizes universe.now) prefix)
        → IsProperty universe.now world.now prefix Inhibited (λ m.
        if_there (λ pairs. inhibited_by prefix pairs m) found)) }
{
    if !needed {
        return Ok(None);
    }
    Ok(Some(PairLists::of(alloc, universe, world)?))
}

/// The list of each active silence.
fn lists_of_silences(
    alloc: Global,
    universe: &Universe,
    world: &World,
) -> Result<Vec<Cube>, AllocError>
    ensures silenced { IfOk result (λ lists. (prefix : List ℕ) (m : Certainty)
        → IsTrue (admits (sizes universe.now) prefix)
        → list_any (λ list. passes m (verdict_at list prefix)) lists.items
        ≡ passes m (verdict_of_simple universe.now world.now (Is Silenced) prefix)) }
{
    let mut lists = Vec::new(alloc);
    for i in 0..world.silences().len() {
        if world.active(i) {
            let list = Cube::of(alloc, world.silences().get(i).matchers(), universe)?;
            add_list(&mut lists, list)?;
        }
    }
    Ok(lists)
}

/// Adds a list, unless it never matches: then it does not change an `or`.
fn add_list(lists: &mut Vec<Cube>, list: Cube) -> Result<(), AllocError>
    ensures { OnOk result ((prefix : List ℕ) (m : Certainty)
        → list_any (λ cube. passes m (verdict_at cube prefix)) lists.new.items
        ≡ (list_any (λ cube. passes m (verdict_at cube prefix)) lists.old.items
        || passes m (verdict_at list prefix))) }
{
    if !list.is_empty() {
        lists.push(list)?;
    }
    Ok(())
}
