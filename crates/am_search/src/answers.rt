ghost use Rattle.std.specs.Prelude.{◌≡◌, ◌≢◌, ◌<◌, ◌≤◌, ◌+◌, ◌∷◌, [], ◌++◌, Some, None, ℕ, List};
ghost use Rattle.std.specs.Prelude.{length, IsTrue, option_map, IfSome, IfNone, MatchOption};
ghost use Rattle.std.specs.Prelude.{MatchBool, slice_get};
ghost use Rattle.std.specs.Iterator.{YieldsFirst};
ghost use Rattle.std.specs.List.{find, starts_with};
ghost use Rattle.am_universe.specs.Choice.{admits, IsWhole, choices};
ghost use Rattle.am_universe.specs.Completions.{completions};
ghost use Rattle.am_search.specs.declared.start.Start.TheVariants.{At, After};
ghost use Rattle.am_search.specs.declared.stage.Stage.TheVariants.{Judging, Giving, Done};
ghost use Rattle.am_search.specs.declared.answers.State.TheVariants.{Running, Ended, Stopped};
ghost use Rattle.am_search.specs.Start.{IsStart, first_of_start, answers_from};
ghost use Rattle.am_search.specs.NextPrefix.{next_beside};
ghost use Rattle.am_search.specs.Walk.{IsWalk, IsLeft, IsAtStop, first_position};
ghost use Rattle.std.proofs.Props.{props};

use crate::stage::Stage;
use crate::{Judge, Start, Verdict};
use am_universe::{Choice, History, Position};

/// How far the answers have come.
#[derive(Clone, Copy, Debug, PartialEq, Eq)]
pub enum State {
    /// `next` has not returned `None` yet.
    Running,
    /// All answers have been returned.
    Ended,
    /// The budget is used up, and all answers that the judged prefixes give have been returned.
    /// This is the prefix that would be judged next.
    Stopped(Choice),
}

/// The true choices of a judge from a start on, in declared order, each once.
///
/// The judge is asked about prefixes, and not about each whole choice. Choices below a `No` are
/// left out, and choices below a `Yes` are returned without asking again. A budget limits how many
/// prefixes are judged. If more would have to be judged, the answers stop. Takes no memory.
#[derive(Drop)]
pub struct Answers<'a, J: Judge> {
    judge: &'a J,
    start: Start,
    // How many prefixes may be judged in all, and how many of these are left. What is left counts
    // down. A count that goes up would need a bound to fit in its type, and a search without a
    // budget has none.
    budget: Option<u64>,
    left: Option<u64>,
    state: State,
    stage: Stage,
    // The prefix that is judged next, or the choice that is given next. The search changes it in
    // place, because to copy a choice for each verdict would cost more than to judge a short list.
    current: Choice,
    // The choice at which the start begins, if that choice begins with the current prefix. After
    // that, every prefix has a completion from the start on, so none is compared with the start.
    along: Option<Choice>,
    // Only clauses see which prefixes were judged, in order, and which choices were given.
    judged: History<Choice>,
    given: History<Choice>,
    ghost walk: { IsWalk (J.sizes judge.now) (J.verdict judge.now) start stage current along
        judged.items given.items } by { Prim.hlevel props },
    ghost steps: { IsLeft budget left judged.items } by { Prim.hlevel props },
    ghost ended: { state ≡ Ended → stage ≡ Done },
    ghost stopped: { (prefix : List ℕ) → state ≡ Stopped prefix
        → IsAtStop stage current left prefix } by { Prim.hlevel props },
}

impl<'a, J: Judge> Answers<'a, J> {
    ghost use Rattle.am_search.specs.AnswersView.{answers_left, answers_judge, answers_state};
    ghost use Rattle.am_search.specs.AnswersView.{answers_start, answers_judged, answers_given};
    ghost use Rattle.am_search.specs.AnswersView.{answers_budget};
    ghost use Rattle.am_search.specs.Visits.{given_under};
    ghost use Rattle.am_search.specs.Visits.{IsPartOfSearch, IsWholeSearch, IsStoppedSearch};

    /// Starts a search for the answers from a start on.
    ///
    /// The start must be a start over the sizes of the judge. With `steps`, at most that many
    /// prefixes are judged, and the answers are those that these prefixes give.
    #[tactic(auto, using(crate::proofs::WalkBudgets::at_first))]
    pub fn from(judge: &'a J, start: Start, steps: Option<u64>) -> Answers<'a, J>
        requires { IsStart (J.sizes judge.now) start }
        ensures left { steps ≡ None → answers_left result
            ≡ answers_from (J.sizes judge.now) (J.truth judge.now) start }
        ensures left_under { answers_left result
            ≡ given_under (J.sizes judge.now) (J.verdict judge.now) start steps }
        ensures judge { answers_judge result ≡ judge.now }
        ensures state { answers_state result ≡ Running }
        ensures start { answers_start result ≡ start }
        ensures budget { answers_budget result ≡ steps }
        ensures judged { answers_judged result ≡ [] }
        ensures given { answers_given result ≡ [] }
    {
        let along = first_choice(judge, &start);
        let stage = first_stage(&along);
        Answers {
            judge,
            start,
            budget: steps,
            left: steps,
            state: State::Running,
            stage,
            current: Choice::empty(),
            along,
            judged: History::new(),
            given: History::new(),
        }
    }

    /// `Running` until `next` first returns `None`, and from then on `Ended` or `Stopped`.
    pub fn state(&self) -> State
        ensures state { result ≡ answers_state self.now }
        ensures ended { result ≡ Ended → IsWholeSearch (J.sizes (answers_judge self.now))
            (J.verdict (answers_judge self.now)) (answers_start self.now) None
            (answers_judged self.now) (answers_given self.now) }
        ensures stopped { (prefix : List ℕ) → result ≡ Stopped prefix
            → IsStoppedSearch (J.sizes (answers_judge self.now))
            (J.verdict (answers_judge self.now)) (answers_start self.now)
            (answers_budget self.now) (answers_judged self.now) (answers_given self.now) prefix }
        ensures judged { IsPartOfSearch (J.sizes (answers_judge self.now))
            (J.verdict (answers_judge self.now)) (answers_start self.now)
            (answers_budget self.now) (answers_judged self.now) (answers_given self.now) }
    {
        self.state
    }

    /// Judges the current prefix, and moves on. Nothing else asks for a verdict.
    #[tactic(auto, using(crate::proofs::WalkBudgets::left_after))]
    fn judge_next(&mut self)
        requires stage { self.old.stage ≡ Judging }
        requires left { self.old.left ≢ Some 0 }
        ensures judged { answers_judged self.new
            ≡ answers_judged self.old ++ self.old.current ∷ [] }
        ensures given { answers_given self.new ≡ answers_given self.old }
        ensures judge { answers_judge self.new ≡ answers_judge self.old }
        ensures start { answers_start self.new ≡ answers_start self.old }
        ensures budget { answers_budget self.new ≡ answers_budget self.old }
        ensures state { answers_state self.new ≡ answers_state self.old }
    {
        let verdict = self.judge.judge(&self.current);
        self.judged = self.judged.followed_by(&[self.current]);
        self.left = one_less(self.left);
        match verdict {
            Verdict::Open => {
                let position = position_along(&self.along, self.current.len());
                self.current.push(position);
            }
            Verdict::Yes => {
                self.stage = Stage::Giving(self.current.len());
                complete_along(self.judge, &self.along, &mut self.current);
            }
            Verdict::No => {
                self.along = None;
                if !go_beside(self.judge, &mut self.current) {
                    self.stage = Stage::Done;
                }
            }
        }
    }

    /// Returns the current choice, and moves to the next. The first `depth` positions of the choice
    /// were judged `Yes`.
    fn give_next(&mut self, depth: usize) -> Choice
        requires { self.old.stage ≡ Giving depth }
        ensures choice { result ≡ self.old.current }
        ensures given { answers_given self.new ≡ answers_given self.old ++ result ∷ [] }
        ensures judged { answers_judged self.new ≡ answers_judged self.old }
        ensures judge { answers_judge self.new ≡ answers_judge self.old }
        ensures start { answers_start self.new ≡ answers_start self.old }
        ensures budget { answers_budget self.new ≡ answers_budget self.old }
        ensures state { answers_state self.new ≡ answers_state self.old }
    {
        let choice = self.current;
        self.given = self.given.followed_by(&[choice]);
        self.along = None;
        if !go_beside(self.judge, &mut self.current) {
            self.stage = Stage::Done;
        } else if self.current.len() > depth {
            complete(self.judge, &mut self.current);
        } else {
            self.stage = Stage::Judging;
        }
        choice
    }
}

impl<'a, J: Judge> Iterator for Answers<'a, J> {
    ghost use Rattle.std.specs.Prelude.{⊤};
    ghost use Rattle.std.specs.Iterator.{item_count, MakesProgress};
    ghost use Rattle.am_search.specs.AnswersView.{answers_left, answers_judge, answers_state};
    ghost use Rattle.am_search.specs.AnswersView.{answers_start, answers_judged, answers_given};
    ghost use Rattle.am_search.specs.AnswersView.{answers_budget, answers_stop, state_at};
    ghost use Rattle.am_search.specs.Visits.{IsPartOfSearch, IsWholeSearch, BeginsWithLast};

    type Item = Choice;

    ghost next_gives = { YieldsFirst answers_left };

    ghost remaining = { item_count answers_left };

    /// Returns the next answer.
    ///
    /// After the first `None` there are no more answers: all have been returned, or the budget is
    /// used up and another prefix would have to be judged.
    fn next(&mut self) -> Option<Choice>
        ensures first { YieldsFirst answers_left self.old result self.new }
        ensures fewer { MakesProgress (λ _. ⊤) (item_count answers_left) self.old result self.new }
        ensures whole { IfSome result (IsWhole (J.sizes (answers_judge self.old))) }
        ensures judge { answers_judge self.new ≡ answers_judge self.old }
        ensures state { MatchOption result
            (answers_state self.new ≡ state_at (answers_stop self.new))
            (λ _. answers_state self.new ≡ Running) }
        ensures start { answers_start self.new ≡ answers_start self.old }
        ensures budget { answers_budget self.new ≡ answers_budget self.old }
        ensures given { MatchOption result (answers_given self.new ≡ answers_given self.old)
            (λ c. answers_given self.new ≡ answers_given self.old ++ c ∷ []) }
        ensures last { IfSome result (BeginsWithLast (answers_judged self.new)) }
        ensures never_fewer { length (answers_judged self.old) ≤ length (answers_judged self.new) }
        ensures judged { IsPartOfSearch (J.sizes (answers_judge self.new))
            (J.verdict (answers_judge self.new)) (answers_start self.new)
            (answers_budget self.new) (answers_judged self.new) (answers_given self.new) }
        ensures ended { IfNone result (IsWholeSearch (J.sizes (answers_judge self.new))
            (J.verdict (answers_judge self.new)) (answers_start self.new)
            (answers_budget self.new) (answers_judged self.new) (answers_given self.new)) }
    {
        while self.stage == Stage::Judging {
            // The stage and the prefix stay as they are, so another call returns `None` again.
            if self.left == Some(0) {
                self.state = State::Stopped(self.current);
                return None;
            }
            self.judge_next();
        }
        if let Stage::Giving(depth) = self.stage {
            return Some(self.give_next(depth));
        }
        self.state = State::Ended;
        None
    }
}

/// Returns the first true choice in declared order, if there is one.
///
/// It begins with the prefix that is judged last, so no prefix after that is judged. Takes no
/// memory.
pub fn first<J: Judge>(judge: &J) -> Option<Choice>
    ensures whole { IfSome result (IsWhole (J.sizes judge.now)) }
    ensures first { result ≡ find (J.truth judge.now) (choices (J.sizes judge.now)) }
{
    let mut answers = Answers::from(judge, Start::At(Choice::empty()), None);
    answers.next()
}

/// The first stage of a search. Nothing is left if its start has no choices.
fn first_stage(first: &Option<Choice>) -> Stage
    ensures { MatchOption first.now (result ≡ Done) (λ _. result ≡ Judging) }
{
    match first {
        Some(_) => Stage::Judging,
        None => Stage::Done,
    }
}

/// The choice at which a start begins, if there is one.
fn first_choice<J: Judge>(judge: &J, start: &Start) -> Option<Choice>
    requires { IsStart (J.sizes judge.now) start.now }
    ensures { result ≡ first_of_start (J.sizes judge.now) start.now }
{
    match start {
        Start::At(prefix) => {
            let mut choice = *prefix;
            complete(judge, &mut choice);
            Some(choice)
        }
        Start::After(choice) => choice_after(judge, choice),
    }
}

/// The choice that follows a whole one in declared order, if there is one.
#[tactic(auto, using(std::proofs::lemmas::Grind::common_steps, crate::proofs::Odometer::positive, crate::proofs::Walks::next_choice_is))]
fn choice_after<J: Judge>(judge: &J, choice: &Choice) -> Option<Choice>
    requires { IsStart (J.sizes judge.now) (After choice.now) }
    ensures { result ≡ first_of_start (J.sizes judge.now) (After choice.now) }
{
    let mut next = *choice;
    if go_beside(judge, &mut next) {
        complete(judge, &mut next);
        Some(next)
    } else {
        None
    }
}

/// What is left of a budget or a limit after one more, or `None` if there is none.
pub(crate) fn one_less(left: Option<u64>) -> Option<u64>
    requires { left ≢ Some 0 }
    ensures { left ≡ option_map (λ n. 1 + n) result }
{
    match left {
        Some(count) => Some(count - 1),
        None => None,
    }
}

/// The position that the search first adds to a prefix of `i` positions: if the prefix lies along a
/// choice, the position that this choice has there, and otherwise 0.
fn position_along(along: &Option<Choice>, i: usize) -> Position
    requires { IfSome along.now (λ first. i < length first) }
    ensures { result ≡ first_position along.now i }
{
    match along {
        Some(first) => first.get(i),
        None => 0,
    }
}

/// Extends a prefix to the choice along which it lies, or else to its first completion.
fn complete_along<J: Judge>(judge: &J, along: &Option<Choice>, prefix: &mut Choice)
    requires { IsTrue (admits (J.sizes judge.now) prefix.old) }
    ensures { MatchOption along.now
        (slice_get (completions (J.sizes judge.now) prefix.old) 0 ≡ Some prefix.new)
        (λ first. prefix.new ≡ first) }
{
    match along {
        Some(first) => *prefix = *first,
        None => complete(judge, prefix),
    }
}

/// Extends a prefix to its first completion.
#[tactic(auto, using(std::proofs::lemmas::Grind::common_steps, crate::proofs::Odometer::completed))]
fn complete<J: Judge>(judge: &J, prefix: &mut Choice)
    requires { IsTrue (admits (J.sizes judge.now) prefix.old) }
    ensures { slice_get (completions (J.sizes judge.now) prefix.old) 0 ≡ Some prefix.new }
{
    while prefix.len() < judge.labels() {
        prefix.push(0);
    }
}

/// Changes a prefix to the first prefix that comes after it and after all that begin with it. If
/// there is none, returns `false`, and the prefix is empty.
#[tactic(auto, using(std::proofs::lemmas::Grind::common_steps, crate::proofs::Odometer::beside))]
fn go_beside<J: Judge>(judge: &J, prefix: &mut Choice) -> bool
    requires { IsTrue (admits (J.sizes judge.now) prefix.old) }
    ensures { MatchBool result (next_beside (J.sizes judge.now) prefix.old ≡ Some prefix.new)
        (next_beside (J.sizes judge.now) prefix.old ≡ None) }
{
    while let Some(position) = prefix.pop() {
        if usize::from(position) + 1 < judge.size(prefix.len()) {
            prefix.push(position + 1);
            return true;
        }
    }
    false
}
