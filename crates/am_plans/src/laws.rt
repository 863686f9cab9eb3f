//! Facts about the definitions alone: each is the contract of a function with an empty body.
ghost use Rattle.std.specs.Prelude.{◌≡◌, ◌≢◌, ◌≤◌, ℕ, ◌+◌, ◌*◌, List, [], ◌∷◌, length, IsTrue};
ghost use Rattle.std.specs.Prelude.{false, if◌then◌else◌};
ghost use Rattle.std.specs.List.{sum, AllByRecursion};
ghost use Rattle.am_universe.specs.Universe.{IsUniverse, sizes};
ghost use Rattle.am_universe.specs.Choice.{admits, IsWhole};
ghost use Rattle.am_universe.specs.Completions.{completions};
ghost use Rattle.am_labels.specs.Space.{Space};
ghost use Rattle.am_labels.specs.Matcher.{Matcher};
ghost use Rattle.am_search.specs.declared.start.Start.{Start};
ghost use Rattle.am_search.specs.declared.start.Start.TheVariants.{At};
ghost use Rattle.am_search.specs.declared.verdict.Verdict.TheVariants.{Yes, No, Open};
ghost use Rattle.am_search.specs.ExactJudge.{IsExactJudge};
ghost use Rattle.am_search.specs.Visits.{visited};
ghost use Rattle.am_search.specs.Start.{answers_from};
ghost use Rattle.am_eval.specs.Tree.{Part};
ghost use Rattle.am_eval.specs.declared.property.Property.TheVariants.{Any};
ghost use Rattle.am_eval.specs.Question.{Is, Braces, Question, is_answer};
ghost use Rattle.am_eval.specs.World.{World};
ghost use Rattle.am_plans.specs.declared.plan.Plan.{Plan};
ghost use Rattle.am_plans.specs.PlanWords.{plan_space, plan_sizes, plan_verdict};
ghost use Rattle.am_plans.specs.SpaceExample.{without_web_critical};
ghost use Rattle.am_plans.specs.Verdicts.{verdict_of};

/// If the verdict at a prefix is `Yes`, every completion is an answer; if it is `No`, none is.
///
/// At a whole choice it is never `Open`: it says whether the choice is an answer.
pub fn a_verdict_says_what_holds_of_all_completions()
    ensures yes { (s : Space) (w : World) (q : Question) (prefix : List ℕ)
        → IsUniverse s.labels → IsTrue (admits (sizes s.labels) prefix)
        → verdict_of s w q prefix ≡ Yes
        → AllByRecursion (λ c. IsTrue (is_answer s w q c)) (completions (sizes s.labels) prefix) }
    ensures no { (s : Space) (w : World) (q : Question) (prefix : List ℕ)
        → IsUniverse s.labels → IsTrue (admits (sizes s.labels) prefix)
        → verdict_of s w q prefix ≡ No
        → AllByRecursion (λ c. is_answer s w q c ≡ false) (completions (sizes s.labels) prefix) }
    ensures whole { (s : Space) (w : World) (q : Question) (c : List ℕ)
        → IsUniverse s.labels → IsWhole (sizes s.labels) c
        → verdict_of s w q c ≡ (if is_answer s w q c then Yes else No) }
    ensures closed { (s : Space) (w : World) (q : Question) (c : List ℕ)
        → IsUniverse s.labels → IsWhole (sizes s.labels) c → verdict_of s w q c ≢ Open }
{}

/// An example: verdicts of `any` in a space where no critical alert of the team `web` occurs.
///
/// The prefixes are the empty one; those where the team is `db`, `web` or absent; and those where
/// it is `web` and the severity is `critical` or `warning`.
pub fn an_example_of_verdicts_in_a_space()
    ensures nothing_chosen { (w : World)
        → verdict_of without_web_critical w (Part (Is Any)) [] ≡ Open }
    ensures db { (w : World) → verdict_of without_web_critical w (Part (Is Any)) (0 ∷ []) ≡ Yes }
    ensures web { (w : World) → verdict_of without_web_critical w (Part (Is Any)) (1 ∷ []) ≡ Open }
    ensures no_team { (w : World)
        → verdict_of without_web_critical w (Part (Is Any)) (2 ∷ []) ≡ Yes }
    ensures web_critical { (w : World)
        → verdict_of without_web_critical w (Part (Is Any)) (1 ∷ 0 ∷ []) ≡ No }
    ensures web_warning { (w : World)
        → verdict_of without_web_critical w (Part (Is Any)) (1 ∷ 1 ∷ []) ≡ Yes }
{}

/// If no list is impossible, the judge of a question that is one list of matchers is exact.
///
/// Its verdict is `Open` only if the label sets of some completions match the list and those of
/// others do not.
pub fn one_list_has_an_exact_judge()
    ensures exact { (s : Space) (w : World) (ms : List Matcher) → IsUniverse s.labels
        → s.impossible ≡ []
        → IsExactJudge (sizes s.labels) (is_answer s w (Part (Braces ms)))
        (verdict_of s w (Part (Braces ms))) }
{}

/// With the plan of one list of matchers, and no impossible lists, at most `1 + (n + 1) * z`
/// prefixes are judged.
///
/// `n` is the number of answers from the start on, and `z` the number of values of all labels
/// together. From the first choice on, at most `1 + n * z` are judged, so at most one if no label
/// set matches the list.
pub fn the_plan_of_one_list_judges_few_prefixes()
    ensures at_most { (plan : Plan) (w : World) (ms : List Matcher) (start : Start)
        → (plan_space plan).impossible ≡ []
        → ((prefix : List ℕ) → IsTrue (admits (plan_sizes plan) prefix)
        → plan_verdict plan prefix
        ≡ verdict_of (plan_space plan) w (Part (Braces ms)) prefix)
        → length (visited (plan_sizes plan) (plan_verdict plan) start)
        ≤ 1 + (length (answers_from (plan_sizes plan)
        (is_answer (plan_space plan) w (Part (Braces ms))) start) + 1)
        * sum (plan_sizes plan) }
    ensures from_the_first { (plan : Plan) (w : World) (ms : List Matcher)
        → (plan_space plan).impossible ≡ []
        → ((prefix : List ℕ) → IsTrue (admits (plan_sizes plan) prefix)
        → plan_verdict plan prefix
        ≡ verdict_of (plan_space plan) w (Part (Braces ms)) prefix)
        → length (visited (plan_sizes plan) (plan_verdict plan) (At []))
        ≤ 1 + length (answers_from (plan_sizes plan)
        (is_answer (plan_space plan) w (Part (Braces ms))) (At []))
        * sum (plan_sizes plan) }
{}
