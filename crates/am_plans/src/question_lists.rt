//! Questions, with lists in place of their matchers.

ghost use Rattle.std.specs.Prelude.{◌≡◌, IfOk};
ghost use Rattle.am_eval.specs.QuestionView.{question_view};
ghost use Rattle.am_plans.specs.WorldByLists.{world_seen, IsSeen};
ghost use Rattle.am_plans.specs.QuestionByLists.{question_by, AreListsOf};

use crate::route_groups::{Group, places_of};
use crate::route_lists::RoutesSeen;
use crate::world_lists::WorldLists;
use am_config::RouteList;
use am_eval::{Property, Question, Reach};
use am_judged_lists::{Certainty, Cube, CubeSet};
use am_universe::{Choice, Universe};
use std::alloc::{AllocError, Global};

/// A question, with the lists of its matchers.
#[derive(Drop)]
pub(crate) enum QuestionLists {
    /// The label set has this property.
    Is(Property),
    /// The label set reaches one of these routes.
    Routes(Reach, CubeSet),
    /// The label set matches the list.
    Braces(Cube),
    /// The question is false.
    Not(Box<QuestionLists>),
    /// Both are true.
    And(Box<QuestionLists>, Box<QuestionLists>),
    /// One of them is true, or both.
    Or(Box<QuestionLists>, Box<QuestionLists>),
}

impl QuestionLists {
    /// Makes the lists of the matchers of a question about a world with these routes. Fails only if
    /// memory runs out.
    pub(crate) fn of(
        alloc: Global,
        universe: &Universe,
        routes: &RouteList<'_>,
        question: &Question,
    ) -> Result<QuestionLists, AllocError>
        ensures exact { IfOk result
            (AreListsOf universe.now routes.now (question_view question.now)) }
    {
        match question {
            Question::Any => Ok(QuestionLists::Is(Property::Any)),
            Question::Silenced => Ok(QuestionLists::Is(Property::Silenced)),
            Question::Inhibited => Ok(QuestionLists::Is(Property::Inhibited)),
            Question::Receiver(receiver) => {
                let receiving = places_of(routes, Group::With(*receiver));
                Ok(QuestionLists::Routes(Reach::Ends, receiving))
            }
            Question::Ends(path) => {
                let route = places_of(routes, Group::At(path.steps()));
                Ok(QuestionLists::Routes(Reach::Ends, route))
            }
            Question::Enters(path) => {
                let route = places_of(routes, Group::At(path.steps()));
                Ok(QuestionLists::Routes(Reach::Enters, route))
            }
            Question::Braces(matchers) => {
                Ok(QuestionLists::Braces(Cube::of(alloc, matchers, universe)?))
            }
            Question::Not(question) => {
                let lists = QuestionLists::of(alloc, universe, routes, question)?;
                Ok(QuestionLists::Not(Box::new(alloc, lists)?))
            }
            Question::And(left, right) => {
                let left = QuestionLists::of(alloc, universe, routes, left)?;
                let right = QuestionLists::of(alloc, universe, routes, right)?;
                Ok(QuestionLists::And(Box::new(alloc, left)?, Box::new(alloc, right)?))
            }
            Question::Or(left, right) => {
                let left = QuestionLists::of(alloc, universe, routes, left)?;
                let right = QuestionLists::of(alloc, universe, routes, right)?;
                Ok(QuestionLists::Or(Box::new(alloc, left)?, Box::new(alloc, right)?))
            }
        }
    }

    /// Whether, at a prefix, the question is not excluded (`May`) or is certain (`Must`). `routes`
    /// are the routes that the label set reaches there.
    pub(crate) fn holds(
        &self,
        world: &WorldLists,
        routes: &Option<RoutesSeen>,
        certainty: Certainty,
        prefix: &Choice,
    ) -> bool
        requires { IsSeen prefix.now world.now routes.now }
        ensures truth { result ≡ question_by prefix.now
            (world_seen prefix.now world.now) self.now certainty }
    {
        match self {
            QuestionLists::Is(property) => world.has(certainty, *property, prefix),
            QuestionLists::Routes(reach, places) => match routes {
                Some(seen) => seen.reaches(certainty, *reach, places),
                None => false,
            },
            QuestionLists::Braces(list) => certainty.holds(list, prefix),
            QuestionLists::Not(question) => {
                !question.holds(world, routes, certainty.other(), prefix)
            }
            QuestionLists::And(left, right) => {
                left.holds(world, routes, certainty, prefix)
                    && right.holds(world, routes, certainty, prefix)
            }
            QuestionLists::Or(left, right) => {
                left.holds(world, routes, certainty, prefix)
                    || right.holds(world, routes, certainty, prefix)
            }
        }
    }
}
