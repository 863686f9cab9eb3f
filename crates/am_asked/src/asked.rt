//! Which labels decide what becomes of an alert, and by which matchers.

ghost use Rattle.std.specs.Prelude.{◌≡◌, ◌++◌, fold, map, IfOk, OnOk};
ghost use Rattle.am_config.specs.ConfigView.{config_view};
ghost use Rattle.am_eval.specs.QuestionView.{question_view};
ghost use Rattle.am_asked.specs.Asked.{route_matchers, world_matchers, question_matchers};
ghost use Rattle.am_asked.specs.Asked.{questions_matchers};
ghost use Rattle.am_complete.specs.Complete.{impossible_matchers};
ghost use Rattle.am_complete.specs.AskedLabel.{IsAskedOf, asked_labels, with_asked};
ghost use Rattle.am_asked.specs.Placed.{placed_at, placed_in_routes, placed_in_equal};
ghost use Rattle.am_asked.specs.Placed.{placed_in_silences, placed_in_lists, placed_in_world};
ghost use Rattle.am_asked.specs.Placed.{placed_in_questions};
ghost use Rattle.am_complete.specs.declared.origin.Origin.TheVariants as origin_is;

use crate::{EqualMatcher, visit_lists, visit_matchers, visit_routes, visit_rules};
use am_complete::{AskedLabel, Gathering, Origin};
use am_config::Config;
use am_eval::{Question, World};
use am_labels::Matchers;
use am_list_files::Silences;
use std::alloc::{AllocError, Global};

/// Gathers the labels that routes ask about, then those that questions ask about, and then those
/// that impossible lists ask about. They are in the order in which they are first asked about. Each
/// has all of these matchers on it, without repeats. Fails only if memory runs out.
pub fn asked_by_routes<'m>(
    alloc: Global,
    config: &'m Config,
    questions: &'m [Question],
    impossible: &'m [Matchers],
) -> Result<Vec<AskedLabel<'m>>, AllocError>
    ensures asked { IfOk result (λ labels. IsAskedOf labels.items
        (route_matchers (config_view config.now).root
        ++ (questions_matchers (map question_view questions.now)
        ++ impossible_matchers impossible.now))) }
    ensures labels { IfOk result (λ labels. labels.items
        ≡ asked_labels (placed_in_routes (config_view config.now)
        ++ (placed_in_questions (map question_view questions.now)
        ++ placed_in_lists impossible.now))) }
{
    let mut gathering = Gathering::empty(alloc);
    visit_routes(alloc, &mut gathering, config)?;
    add_questions(&mut gathering, questions)?;
    visit_lists(&mut gathering, impossible)?;
    Ok(gathering.into_labels())
}

/// Gathers the labels that the routes of an old configuration ask about, then those that the routes
/// of a new one ask about, and then those that impossible lists ask about. They are in the order in
/// which they are first asked about. Each has all of these matchers on it, without repeats. Fails
/// only if memory runs out.
pub fn asked_by_both<'m>(
    alloc: Global,
    old: &'m Config,
    new: &'m Config,
    impossible: &'m [Matchers],
) -> Result<Vec<AskedLabel<'m>>, AllocError>
    ensures asked { IfOk result (λ labels. IsAskedOf labels.items
        (route_matchers (config_view old.now).root
        ++ (route_matchers (config_view new.now).root
        ++ impossible_matchers impossible.now))) }
    ensures labels { IfOk result (λ labels. labels.items
        ≡ asked_labels (placed_in_routes (config_view old.now)
        ++ (placed_in_routes (config_view new.now)
        ++ placed_in_lists impossible.now))) }
{
    let mut gathering = Gathering::empty(alloc);
    visit_routes(alloc, &mut gathering, old)?;
    visit_routes(alloc, &mut gathering, new)?;
    visit_lists(&mut gathering, impossible)?;
    Ok(gathering.into_labels())
}

/// Gathers the labels that the matchers of a world ask about, then those that questions ask about,
/// and then those that impossible lists ask about. The matchers of a world are those of its routes,
/// of its rules, of `equal`, which must be those of
/// [`equal_matchers_of`](crate::equal_matchers_of), and of its silences, whatever the instant. The
/// labels are in the order in which they are first asked about. Each has all of these matchers on
/// it, without repeats. Fails only if memory runs out.
pub fn asked_in_world<'m>(
    alloc: Global,
    world: &'m World,
    equal: &'m [EqualMatcher],
    questions: &'m [Question],
    impossible: &'m [Matchers],
) -> Result<Vec<AskedLabel<'m>>, AllocError>
    requires { equal.now ≡ placed_in_equal world.now }
    ensures asked { IfOk result (λ labels. IsAskedOf labels.items
        (world_matchers world.now ++ (questions_matchers (map question_view questions.now)
        ++ impossible_matchers impossible.now))) }
    ensures labels { IfOk result (λ labels. labels.items
        ≡ asked_labels (placed_in_world world.now
        ++ (placed_in_questions (map question_view questions.now)
        ++ placed_in_lists impossible.now))) }
{
    let mut gathering = Gathering::empty(alloc);
    visit_routes(alloc, &mut gathering, world.config())?;
    visit_rules(&mut gathering, world.config().rules())?;
    add_equal_matchers(&mut gathering, equal)?;
    add_silences(&mut gathering, world.silences())?;
    add_questions(&mut gathering, questions)?;
    visit_lists(&mut gathering, impossible)?;
    Ok(gathering.into_labels())
}

/// Gathers the labels that some lists of matchers ask about, and then those that impossible lists
/// ask about. They are in the order in which they are first asked about. Each has all of these
/// matchers on it, without repeats. As the origin of a matcher, each list counts as an impossible
/// one. Fails only if memory runs out.
pub fn asked_by_lists<'m>(
    alloc: Global,
    lists: &[&'m Matchers],
    impossible: &'m [Matchers],
) -> Result<Vec<AskedLabel<'m>>, AllocError>
    ensures asked { IfOk result (λ labels. IsAskedOf labels.items
        (impossible_matchers (map (λ list. list.now) lists.now)
        ++ impossible_matchers impossible.now)) }
    ensures labels { IfOk result (λ labels. labels.items
        ≡ asked_labels (placed_in_lists (map (λ list. list.now) lists.now)
        ++ placed_in_lists impossible.now)) }
{
    let mut gathering = Gathering::empty(alloc);
    add_lists(&mut gathering, lists)?;
    visit_lists(&mut gathering, impossible)?;
    Ok(gathering.into_labels())
}

/// Adds the matchers of some lists.
fn add_lists<'m>(gathering: &mut Gathering<'m>, lists: &[&'m Matchers]) -> Result<(), AllocError>
    ensures { OnOk result (gathering.new ≡ fold with_asked gathering.old
        (placed_in_lists (map (λ list. list.now) lists.now))) }
{
    for (i, list) in lists.iter().enumerate() {
        visit_matchers(gathering, &Origin::Impossible(i), *list)?;
    }
    Ok(())
}

/// Adds the matchers that `equal` stands for.
fn add_equal_matchers<'m>(
    gathering: &mut Gathering<'m>,
    equal: &'m [EqualMatcher],
) -> Result<(), AllocError>
    ensures { OnOk result (gathering.new ≡ fold with_asked gathering.old equal.now) }
{
    for made in equal {
        gathering.add(&made.origin(), made.matcher())?;
    }
    Ok(())
}

/// Adds the matchers of silences, active or not.
fn add_silences<'m>(gathering: &mut Gathering<'m>, silences: &'m Silences) -> Result<(), AllocError>
    ensures { OnOk result (gathering.new
        ≡ fold with_asked gathering.old (placed_in_silences silences.now)) }
{
    for i in 0..silences.len() {
        let silence = silences.get(i);
        visit_matchers(gathering, &Origin::Silence(i), silence.matchers())?;
    }
    Ok(())
}

/// Adds the matchers in the braces of questions.
fn add_questions<'m>(
    gathering: &mut Gathering<'m>,
    questions: &'m [Question],
) -> Result<(), AllocError>
    ensures { OnOk result (gathering.new ≡ fold with_asked gathering.old
        (placed_in_questions (map question_view questions.now))) }
{
    for (i, question) in questions.iter().enumerate() {
        add_question(gathering, &Origin::Question(i), question)?;
    }
    Ok(())
}

/// Adds the matchers in the braces of a question, all with this origin.
fn add_question<'m>(
    gathering: &mut Gathering<'m>,
    origin: &Origin,
    question: &'m Question,
) -> Result<(), AllocError>
    ensures { OnOk result (gathering.new ≡ fold with_asked gathering.old
        (placed_at origin.now (question_matchers (question_view question.now)))) }
{
    match question {
        Question::Braces(matchers) => visit_matchers(gathering, origin, matchers),
        Question::Not(question) => add_question(gathering, origin, question),
        Question::And(left, right) | Question::Or(left, right) => {
            add_question(gathering, origin, left)?;
            add_question(gathering, origin, right)
        }
        _ => Ok(()),
    }
}
