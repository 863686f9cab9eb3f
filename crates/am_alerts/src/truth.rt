//! Whether a question is true of alerts.

ghost use Rattle.std.specs.Prelude.{◌≡◌, ◌==◌, ℕ, length, not, slice_get, Some, IfOk};
ghost use Rattle.std.specs.List.{list_any};
ghost use Rattle.am_universe.specs.LabelSet.{LabelMap};
ghost use Rattle.am_eval.specs.QuestionView.{question_view};
ghost use Rattle.am_eval.specs.Question.{satisfies};
ghost use Rattle.am_alerts.specs.AlertLabels.{flag, AreTruths};
ghost use Rattle.am_alerts.specs.Outcomes.{HasOutcome};

use crate::alert_labels::AlertLabels;
use crate::alert_lists::without;
use crate::outcomes::{Outcome, Outcomes, receivers_of};
use crate::route_ends::{reaches, rows_of};
use am_eval::{Question, Reach, World, ends, inhibited_by, silenced_by};
use am_universe::LabelSet;
use std::alloc::{AllocError, Global};

/// Returns whether a question is true of the alert with these labels, in a world. The routes,
/// receivers, silences and inhibition rules of the alert are found for it alone. Fails only if
/// memory runs out.
pub fn is_true_of(
    alloc: Global,
    world: &World,
    question: &Question,
    set: &LabelSet,
) -> Result<bool, AllocError>
    ensures truth { IfOk result (λ truth.
        truth ≡ satisfies world.now (question_view question.now) set.now) }
{
    let ends = ends(alloc, world.config(), set)?;
    let rows = rows_of(alloc, ends.as_slice())?;
    let receivers = receivers_of(alloc, world.config(), rows.as_slice(), 0)?;
    let silencers = silenced_by(alloc, world, set)?;
    let inhibitors = inhibited_by(alloc, world, set)?;
    let outcome = Outcome {
        rows: rows.as_slice(),
        alert: 0,
        receivers: receivers.as_slice(),
        silencers: silencers.as_slice(),
        inhibitors: inhibitors.as_slice(),
    };
    satisfies(alloc, world, question, set, outcome)
}

/// Returns of which alerts a question is true, as a truth for each. Each list of matchers in braces
/// is looked at once, with all alerts. Fails only if memory runs out.
pub(crate) fn truths_of(
    alloc: Global,
    outcomes: &Outcomes<'_>,
    question: &Question,
) -> Result<Vec<bool>, AllocError>
    ensures truths { IfOk result (λ truths. AreTruths outcomes.now.alerts
        (satisfies outcomes.now (question_view question.now)) truths.items) }
{
    match question {
        Question::Braces(matchers) => outcomes.labels().matching(alloc, matchers),
        Question::Not(question) => {
            let truths = truths_of(alloc, outcomes, question)?;
            others(alloc, outcomes.labels(), truths.as_slice())
        }
        Question::And(left, right) => {
            let first = truths_of(alloc, outcomes, left)?;
            let second = truths_of(alloc, outcomes, right)?;
            let left_out = others(alloc, outcomes.labels(), second.as_slice())?;
            without(alloc, first.as_slice(), left_out.as_slice())
        }
        Question::Or(left, right) => {
            let first = truths_of(alloc, outcomes, left)?;
            let second = truths_of(alloc, outcomes, right)?;
            let left_out = others(alloc, outcomes.labels(), first.as_slice())?;
            let neither = without(alloc, left_out.as_slice(), second.as_slice())?;
            others(alloc, outcomes.labels(), neither.as_slice())
        }
        _ => truths_of_part(alloc, outcomes, question),
    }
}

/// Returns all alerts but some.
fn others(alloc: Global, labels: &AlertLabels<'_>, among: &[bool]) -> Result<Vec<bool>, AllocError>
    requires { length among.now ≡ length labels.now }
    ensures count { IfOk result (λ others. length others.items ≡ length labels.now) }
    ensures others { IfOk result (λ others. (i : ℕ) (s : LabelMap)
        → slice_get labels.now i ≡ Some s → flag others.items i ≡ not (flag among.now i)) }
{
    let all = labels.all(alloc)?;
    without(alloc, all.as_slice(), among)
}

/// Returns of which alerts a question is true, alert by alert.
fn truths_of_part(
    alloc: Global,
    outcomes: &Outcomes<'_>,
    question: &Question,
) -> Result<Vec<bool>, AllocError>
    ensures { IfOk result (λ truths. AreTruths outcomes.now.alerts
        (satisfies outcomes.now (question_view question.now)) truths.items) }
{
    let world = outcomes.world();
    let mut truths = Vec::with_capacity(alloc, world.alerts().len())?;
    for i in 0..world.alerts().len() {
        let set = world.alerts().get(i);
        truths.push(satisfies(alloc, world, question, set, outcomes.at(i))?)?;
    }
    Ok(truths)
}

/// Whether a question is true of an alert with these labels and this outcome. Fails only if
/// memory runs out.
fn satisfies(
    alloc: Global,
    world: &World,
    question: &Question,
    set: &LabelSet,
    outcome: Outcome<'_>,
) -> Result<bool, AllocError>
    requires { HasOutcome world.now set.now outcome }
    ensures { IfOk result (λ truth.
        truth ≡ satisfies world.now (question_view question.now) set.now) }
{
    match question {
        Question::Any => Ok(true),
        Question::Silenced => Ok(!outcome.silencers.is_empty()),
        Question::Inhibited => Ok(!outcome.inhibitors.is_empty()),
        Question::Receiver(receiver) => Ok(has_receiver(outcome.receivers, *receiver)),
        Question::Ends(path) => Ok(reaches(outcome.rows, outcome.alert, Reach::Ends, path)),
        Question::Enters(path) => Ok(reaches(outcome.rows, outcome.alert, Reach::Enters, path)),
        Question::Braces(matchers) => matchers.matches(alloc, set),
        Question::Not(question) => Ok(!satisfies(alloc, world, question, set, outcome)?),
        Question::And(left, right) => {
            let first = satisfies(alloc, world, left, set, outcome)?;
            let second = satisfies(alloc, world, right, set, outcome)?;
            Ok(first && second)
        }
        Question::Or(left, right) => {
            let first = satisfies(alloc, world, left, set, outcome)?;
            let second = satisfies(alloc, world, right, set, outcome)?;
            Ok(first || second)
        }
    }
}

/// Whether the receiver at this position is among the receivers.
fn has_receiver(receivers: &[usize], receiver: usize) -> bool
    ensures { result ≡ list_any (λ other. other == receiver) receivers.now }
{
    receivers.iter().any(|other| *other == receiver)
}
