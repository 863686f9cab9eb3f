//! What the plan of a question says and is asked, and what the search by boxes finds.

ghost use Rattle.std.specs.Prelude.{◌≡◌, IfSome, IsTrue};
ghost use Rattle.am_universe.specs.Choice.{admits};
ghost use Rattle.am_universe.specs.Universe.{sizes};
ghost use Rattle.am_plans.specs.PlanWords.{plan_sizes, plan_truth, plan_verdict, plan_is_judge};
ghost use Rattle.am_search.specs.Start.{IsStart};

use crate::asked::{read_file, read_words};
use crate::texts::{Refusal, add_positions, word};
use am_case_runner::Problem;
use am_first_sets::{Budget, PossibleSets, Unfinished};
use am_labels::Space;
use am_list_files::read_universe;
use am_plans::Plan;
use am_questions::AcceptedInputs;
use am_search::{Answers, Judge, Start, State, Verdict, first};
use am_universe::{Choice, Universe};
use std::alloc::{AllocError, Global};
use std::cell::Cell;
use std::rt;

/// The most answers that are counted.
const MOST_ANSWERS: usize = 100_000;

/// Returns what the plan of a question says of the prefix at which the answers begin.
pub fn of_judge<R: rt::Files + AllocGlobal>(
    files: &R,
    words: &[String],
) -> Result<Vec<u8>, Refusal> {
    let inputs = read_words(files, words, 1)?;
    verdict_at_start(files.alloc(), &inputs)
}

/// What the plan of the inputs' question says of the prefix at which the answers begin.
fn verdict_at_start(alloc: Global, inputs: &AcceptedInputs) -> Result<Vec<u8>, Refusal> {
    let plan = Plan::new(alloc, &inputs.space, &inputs.world, &inputs.question)?;
    let Some(prefix) = prefix_of(inputs.space.universe(), inputs.start) else {
        return Err(Refusal::wrong(alloc, "no prefix"));
    };
    Ok(Vec::from_slice(alloc, verdict_text(plan.judge(&prefix)).as_bytes())?)
}

/// The prefix at which a start is, if it is at one.
fn prefix_of(universe: &Universe, start: Start) -> Option<Choice>
    ensures { IfSome result (λ prefix. IsTrue (admits (sizes universe.now) prefix)) }
{
    let Start::At(prefix) = start else {
        return None;
    };
    if universe.admits(&prefix) {
        Some(prefix)
    } else {
        None
    }
}

fn verdict_text(verdict: Verdict) -> &'static str {
    match verdict {
        Verdict::Yes => "yes",
        Verdict::No => "no",
        Verdict::Open => "open",
    }
}

/// A plan that counts how often it is asked.
#[derive(Drop)]
struct CountedPlan<'a, 'p> {
    plan: &'a Plan<'p>,
    asked: Cell<u64>,
}

impl<'a, 'p> Judge for CountedPlan<'a, 'p> {
    ghost sizes = { λ counted. plan_sizes counted.plan.now };

    ghost truth = { λ counted. plan_truth counted.plan.now };

    ghost verdict = { λ counted. plan_verdict counted.plan.now };

    ghost laws = { λ counted. plan_is_judge counted.plan.now };

    fn labels(&self) -> usize {
        self.plan.labels()
    }

    fn size(&self, i: usize) -> usize {
        self.plan.size(i)
    }

    fn judge(&self, prefix: &Choice) -> Verdict {
        self.asked.set(self.asked.get().saturating_add(1));
        self.plan.judge(prefix)
    }
}

/// Returns how many choices a search over the plan of a question gives, and how often it asks the
/// plan. The first word is the most prefixes that it may judge; or `all`; or `first`, if it looks
/// for the first choice alone.
pub fn of_count<R: rt::Files + AllocGlobal>(
    files: &R,
    words: &[String],
) -> Result<Vec<u8>, Refusal> {
    let inputs = read_words(files, words, 2)?;
    count_answers(files.alloc(), &inputs, word(words, 1))
}

fn count_answers(alloc: Global, inputs: &AcceptedInputs, most: &str) -> Result<Vec<u8>, Refusal>
    requires { IsStart (sizes inputs.now.space.labels) inputs.now.start }
{
    let plan = Plan::new(alloc, &inputs.space, &inputs.world, &inputs.question)?;
    let counted = CountedPlan {
        plan: &plan,
        asked: Cell::new(0),
    };
    if most == "first" {
        let given = usize::from(first(&counted).is_some());
        return Ok(count_text(alloc, given, &counted, State::Ended)?);
    }
    let steps = most.parse::<u64>().ok();
    let (given, state) = given_from(alloc, &counted, inputs.start, steps, MOST_ANSWERS)?;
    Ok(count_text(alloc, given.len(), &counted, state)?)
}

/// The choices that a search over a judge gives from a start on, and where it ended. Fails if it
/// gives more choices than a case may have.
pub fn given_from<J: Judge>(
    alloc: Global,
    judge: &J,
    start: Start,
    steps: Option<u64>,
    most: usize,
) -> Result<(Vec<Choice>, State), Problem>
    requires { IsStart (J.sizes judge.now) start }
{
    let mut answers = Answers::from(judge, start, steps);
    let mut given = Vec::new(alloc);
    for _ in 0..=most {
        match next_of(&mut answers) {
            Some(choice) => given.push(choice)?,
            None => return Ok((given, answers.state())),
        }
    }
    Err(Problem::said(alloc, "more answers than a case may have"))
}

// In a function of its own, so that the loop is proved to end.
fn next_of<J: Judge>(answers: &mut Answers<'_, J>) -> Option<Choice> {
    answers.next()
}

fn count_text(
    alloc: Global,
    given: usize,
    counted: &CountedPlan<'_, '_>,
    state: State,
) -> Result<Vec<u8>, Problem> {
    let asked = counted.asked.get();
    let mut text = format!(in alloc; "ok: {given} given, {asked} judged")?;
    if let State::Stopped(prefix) = state {
        text.push_str(", stopped at")?;
        add_positions(&prefix, &mut text)?;
    }
    Ok(text.into_bytes())
}

/// Returns whether the search by boxes finds a label set of a universe file that is possible.
pub fn of_boxes<R: rt::Files + AllocGlobal>(files: &R, universe: &str) -> Result<Vec<u8>, Refusal> {
    let alloc = files.alloc();
    let space = read_universe(alloc, read_file(files, universe)?.as_slice())?;
    let text = found_text(alloc, &space)?;
    Ok(Vec::from_slice(alloc, text.as_bytes())?)
}

fn found_text(alloc: Global, space: &Space) -> Result<&'static str, AllocError> {
    let possible = PossibleSets::of(alloc, space)?;
    match possible.some_meeting(alloc, &[], &[], &mut Budget::limited()) {
        Ok(Some(_)) => Ok("some"),
        Ok(None) => Ok("none"),
        Err(Unfinished::Memory) => Err(AllocError),
        Err(Unfinished::UsedUp(_)) => Ok("used up"),
    }
}
