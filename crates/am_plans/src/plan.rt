//! The judge of prefixes.
//!
//! A search asks its judge about prefixes of choices: the first labels have a value, and the others
//! are open. A plan answers `Yes` only if each completion is an answer, `No` only if none is, and
//! otherwise `Open`.
//!
//! A cube judges its list of matchers exactly. The verdicts of the question's lists are joined in
//! the logic of three values. Each simple part has a *condition*: the ways in which it can be true
//! of an alert. A way says which lists the alert has to match and which it must not match. So a way
//! is the `and` of its lists, a part is the `or` of its ways, and the question joins its parts. The
//! result is not always as sharp as it could be: `{team="db"} or not {team="db"}` is `Open` as long
//! as the team is open.
//!
//! The verdict of each impossible list is joined to that of the question by `and` and `not`. So
//! `any` is `Open` until it is known whether the label set is possible.
//!
//! The code never computes a verdict of three values. It answers one of two questions about it:
//! `May`, whether it is not `No`, and `Must`, whether it is `Yes`. `judge` asks both. The
//! conditions of the routes are in sets of routes, and a table says at once which of their lists
//! pass. So what is asked about routes is found once at each prefix, however long the question is.
//!
//! The promises of the commands rest on the clause `truth` of `new`. Which prefixes are judged
//! rests on `verdict`. A law says what a verdict means
//! (`a_verdict_says_what_holds_of_all_completions`). It rests on the laws of `am_judged_lists`
//! about one list, and on `a_simple_part_is_true_where_its_condition_holds` of `am_eval`.

ghost use Rattle.std.specs.Prelude.{◌≡◌, ℕ, List, IfOk, IsTrue};
ghost use Rattle.std.proofs.Props.{props};
ghost use Rattle.am_universe.specs.Universe.{sizes};
ghost use Rattle.am_universe.specs.Choice.{admits, IsWhole};
ghost use Rattle.am_eval.specs.Question.{is_answer};
ghost use Rattle.am_eval.specs.QuestionView.{question_view};
ghost use Rattle.am_plans.specs.Verdicts.{verdict_of};
ghost use Rattle.am_config.specs.ConfigView.{config_view};
ghost use Rattle.am_plans.specs.PlanView.{is_answer_by, IsJudgeIn};
ghost use Rattle.am_plans.specs.RouteGroups.{AreRoutesOf};
ghost use Rattle.am_plans.specs.WorldByLists.{IsSeen};

use crate::question_lists::QuestionLists;
use crate::route_lists::RoutesSeen;
use crate::world_lists::WorldLists;
use am_config::{Config, RouteList};
use am_eval::{Question, World};
use am_judged_lists::{Certainty, Table, impossible_cubes};
use am_labels::Space;
use am_search::{Judge, Verdict};
use am_universe::Choice;
use am_universe::limits::MAX_LABELS;
use std::alloc::{AllocError, Global};

/// The judge of a question about a world, over the choices of a space.
///
/// Its verdict at a prefix says whether the question is true and the label set is possible, in the
/// logic of three values. `Yes`: each completion is an answer. `No`: none is. `Open`: neither is
/// known. Judging looks at positions alone, and takes no memory.
#[derive(Drop)]
pub struct Plan<'a> {
    space: &'a Space,
    world: WorldLists,
    question: QuestionLists,
    impossible: Table,
    ghost judges: { IsJudgeIn space.now.labels world question impossible } by { Prim.hlevel props },
}

impl<'a> Plan<'a> {
    ghost use Rattle.am_plans.specs.PlanWords.{plan_space, plan_truth, plan_verdict};

    /// Makes the judge of a question about a world, over the choices of a space.
    ///
    /// It has a cube for each impossible list of the space, and for each list of matchers that the
    /// question asks about. If it asks about no route, no cubes of routes are made; the same holds
    /// for silences and for inhibition rules. Fails only if memory runs out.
    pub fn new(
        alloc: Global,
        space: &'a Space,
        world: &World,
        question: &'a Question,
    ) -> Result<Plan<'a>, AllocError>
        ensures space { IfOk result (λ plan. plan_space plan ≡ space.now) }
        ensures verdict { IfOk result (λ plan. (prefix : List ℕ)
            → IsTrue (admits (sizes space.now.labels) prefix) → plan_verdict plan prefix
            ≡ verdict_of space.now world.now (question_view question.now) prefix) }
        ensures truth { IfOk result (λ plan. (c : List ℕ) → IsWhole (sizes space.now.labels) c
            → plan_truth plan c
            ≡ is_answer space.now world.now (question_view question.now) c) }
    {
        let universe = space.universe();
        // The contract of `len` tells the proof that the sizes are sizes that a judge may have.
        prove!(universe.len() <= MAX_LABELS);
        let routes = routes_of(alloc, world.config())?;
        let world = WorldLists::of(alloc, universe, world, &routes, question)?;
        let question = QuestionLists::of(alloc, universe, &routes, question)?;
        let impossible = Table::of(alloc, universe, impossible_cubes(alloc, space)?)?;
        Ok(Plan {
            space,
            world,
            question,
            impossible,
        })
    }

    /// Whether, at a prefix, it is not excluded (`May`) or is certain (`Must`) that the choice is
    /// an answer. `routes` are the routes that its label set reaches there.
    fn is_answer(&self, routes: &Option<RoutesSeen>, certainty: Certainty, prefix: &Choice) -> bool
        requires { IsSeen prefix.now self.now.world routes.now }
        ensures { result ≡ is_answer_by self.now.world self.now.question self.now.impossible
            prefix.now certainty }
    {
        self.question.holds(&self.world, routes, certainty, prefix)
            && !self.impossible.any(certainty.other(), prefix)
    }
}

/// All routes of a configuration. Fails only if memory runs out.
fn routes_of(alloc: Global, config: &Config) -> Result<RouteList<'_>, AllocError>
    ensures routes { IfOk result (AreRoutesOf (config_view config.now)) }
{
    // The contract of `root` tells the proof how many routes there are at most.
    let _root = config.root();
    config.routes(alloc)
}

impl<'a> Judge for Plan<'a> {
    ghost use Rattle.am_plans.specs.PlanWords.{plan_sizes, plan_truth, plan_verdict, plan_is_judge};

    ghost sizes = { plan_sizes };

    ghost truth = { plan_truth };

    ghost verdict = { plan_verdict };

    ghost laws = { plan_is_judge };

    fn labels(&self) -> usize {
        self.space.universe().len()
    }

    fn size(&self, i: usize) -> usize {
        self.space.universe().size(i)
    }

    fn judge(&self, prefix: &Choice) -> Verdict {
        let routes = self.world.see(prefix);
        if !self.is_answer(&routes, Certainty::May, prefix) {
            return Verdict::No;
        }
        // A whole choice is never `Open`.
        if prefix.len() == self.labels() || self.is_answer(&routes, Certainty::Must, prefix) {
            return Verdict::Yes;
        }
        Verdict::Open
    }
}
