//! The whole choices of a universe whose label sets satisfy a question, found one by one, beside
//! what a search over the plan of the question gives.

ghost use Rattle.std.specs.Prelude.{◌≡◌, IfSome};
ghost use Rattle.am_plans.specs.PlanWords.{plan_sizes};
ghost use Rattle.am_search.specs.Start.{IsStart};
ghost use Rattle.am_universe.specs.Universe.{sizes};

use crate::asked::read_words;
use crate::search::given_from;
use crate::texts::{Refusal, add_positions};
use am_alerts::is_true_of;
use am_case_runner::Problem;
use am_eval::Question;
use am_plans::Plan;
use am_questions::AcceptedInputs;
use am_search::Start;
use am_universe::{Choice, Universe, set_of};
use std::alloc::Global;
use std::rt::Files;

/// The most choices that are looked at.
const MOST_CHOICES: usize = 999;

/// Returns how many starts there are, at the first choice and behind each, and how many choices are
/// given from them all. Fails if a search over the plan of the question gives others than those
/// whose label sets satisfy the question.
pub fn of_whole<R: Files + AllocGlobal>(files: &R, words: &[String]) -> Result<Vec<u8>, Refusal> {
    let alloc = files.alloc();
    let inputs = read_words(files, words, 1)?;
    let (starts, items) = compare_all(alloc, &inputs)?;
    let text = format!(in alloc; "ok: {starts} starts, {items} given")?;
    Ok(text.into_bytes())
}

/// Compares at all starts. Returns how many there are, and how many choices are given.
fn compare_all(alloc: Global, inputs: &AcceptedInputs) -> Result<(usize, usize), Refusal>
    requires { IsStart (sizes inputs.now.space.labels) inputs.now.start }
{
    let all = all_choices(alloc, inputs)?;
    let plan = Plan::new(alloc, &inputs.space, &inputs.world, &inputs.question)?;
    let universe = inputs.space.universe();
    let items = compare(alloc, &plan, universe, inputs.start, all.as_slice())?;
    let more = compare_behind(alloc, &plan, universe, all.as_slice())?;
    Ok((all.len().saturating_add(1), items.saturating_add(more)))
}

/// Compares behind each choice, and returns how many choices are given in all.
fn compare_behind(
    alloc: Global,
    plan: &Plan<'_>,
    universe: &Universe,
    all: &[(Choice, bool)],
) -> Result<usize, Refusal>
    requires { plan_sizes plan.now ≡ sizes universe.now }
{
    let mut items = 0_usize;
    for (i, (choice, _)) in all.iter().enumerate() {
        let Some(start) = start_after(universe, *choice) else {
            return Err(Refusal::wrong(alloc, "a choice that is not whole"));
        };
        let rest = all.get(i.saturating_add(1)..).unwrap_or(&[]);
        items = items.saturating_add(compare(alloc, plan, universe, start, rest)?);
    }
    Ok(items)
}

/// All whole choices in declared order, each with the truth of the question on its label set.
fn all_choices(alloc: Global, inputs: &AcceptedInputs) -> Result<Vec<(Choice, bool)>, Refusal> {
    let plan = Plan::new(alloc, &inputs.space, &inputs.world, &Question::Any)?;
    let mut all = Vec::new(alloc);
    let (choices, _) = given_from(alloc, &plan, Start::At(Choice::empty()), None, MOST_CHOICES)?;
    for choice in &choices {
        all.push((*choice, is_answer(alloc, inputs, choice)?))?;
    }
    Ok(all)
}

/// Whether the label set of a choice satisfies the question.
fn is_answer(alloc: Global, inputs: &AcceptedInputs, choice: &Choice) -> Result<bool, Refusal> {
    let universe = inputs.space.universe();
    if !universe.admits(choice) || choice.len() != universe.len() {
        return Err(Refusal::wrong(alloc, "a choice that is not whole"));
    }
    let set = set_of(alloc, universe, choice)?;
    Ok(is_true_of(alloc, &inputs.world, &inputs.question, &set)?)
}

/// The start behind a whole choice, or `None` if the choice is not whole.
fn start_after(universe: &Universe, choice: Choice) -> Option<Start>
    ensures { IfSome result (IsStart (sizes universe.now)) }
{
    if universe.admits(&choice) && choice.len() == universe.len() {
        Some(Start::After(choice))
    } else {
        None
    }
}

/// Compares what a search gives from a start on with the answers that are left there, and returns
/// how many there are.
fn compare(
    alloc: Global,
    plan: &Plan<'_>,
    universe: &Universe,
    start: Start,
    left: &[(Choice, bool)],
) -> Result<usize, Problem>
    requires sizes { plan_sizes plan.now ≡ sizes universe.now }
    requires start { IsStart (sizes universe.now) start }
{
    let (choices, _) = given_from(alloc, plan, start, None, MOST_CHOICES)?;
    let mut given = String::new(alloc);
    for choice in &choices {
        add_positions(choice, &mut given)?;
    }
    let mut wanted = String::new(alloc);
    for (choice, _) in left.iter().filter(|(_, is_answer)| *is_answer) {
        add_positions(choice, &mut wanted)?;
    }
    if given.as_str() == wanted.as_str() {
        return Ok(choices.len());
    }
    Err(Problem::differs(alloc, "the answers", wanted.as_bytes(), given.as_bytes()))
}
