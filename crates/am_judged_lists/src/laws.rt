//! Facts about the definitions alone: each is the contract of a function with an empty body.
ghost use Rattle.std.specs.Prelude.{◌≡◌, ◌≢◌, ◌↔◌, ◌++◌, ℕ, List, IsTrue, false, not};
ghost use Rattle.std.specs.Prelude.{if◌then◌else◌};
ghost use Rattle.std.specs.List.{list_any, AllByRecursion};
ghost use Rattle.am_universe.specs.Universe.{Label, IsUniverse, sizes};
ghost use Rattle.am_universe.specs.Choice.{admits, IsWhole};
ghost use Rattle.am_universe.specs.Completions.{completions};
ghost use Rattle.am_universe.specs.LabelSet.{label_set_of};
ghost use Rattle.am_labels.specs.Matcher.{Matcher, all_hold};
ghost use Rattle.am_search.specs.declared.verdict.Verdict.TheVariants.{Yes, No, Open};
ghost use Rattle.am_judged_lists.specs.Verdicts.{matches_at, verdict_of_list};

/// The verdict of a list at a prefix is `Yes` exactly if the label set of each completion matches
/// the list.
#[tactic(auto, using(crate::proofs::VerdictLemmas::yes_exactly))]
pub fn yes_is_all()
    ensures exactly { (u : List Label) (ms : List Matcher) (prefix : List ℕ)
        → (verdict_of_list u ms prefix ≡ Yes)
        ↔ AllByRecursion (λ c. IsTrue (all_hold (label_set_of u c) ms))
        (completions (sizes u) prefix) }
{}

/// The verdict of a list at a prefix is `No` exactly if the label set of no completion matches the
/// list.
///
/// The universe has to admit the prefix.
pub fn no_is_none()
    ensures exactly { (u : List Label) (ms : List Matcher) (prefix : List ℕ)
        → IsUniverse u → IsTrue (admits (sizes u) prefix)
        → (verdict_of_list u ms prefix ≡ No)
        ↔ AllByRecursion (λ c. all_hold (label_set_of u c) ms ≡ false)
        (completions (sizes u) prefix) }
{}

/// The verdict of a list at a prefix is `Open` exactly if the label sets of some completions match
/// the list and those of others do not.
#[tactic(auto, using(crate::proofs::VerdictLemmas::open_exactly))]
pub fn open_is_some()
    ensures exactly { (u : List Label) (ms : List Matcher) (prefix : List ℕ)
        → (verdict_of_list u ms prefix ≡ Open)
        ↔ (IsTrue (list_any (matches_at u ms) (completions (sizes u) prefix))
        × IsTrue (list_any (λ c. not (matches_at u ms c)) (completions (sizes u) prefix))) }
{}

/// The verdict of a list at a whole choice is `Yes` if its label set matches the list, and
/// otherwise `No`.
///
/// So it is never `Open`.
#[tactic(auto, using(crate::proofs::VerdictLemmas::list_says, crate::proofs::VerdictLemmas::list_closed))]
pub fn a_whole_choice_is_never_open()
    ensures decided { (u : List Label) (ms : List Matcher) (c : List ℕ) → IsWhole (sizes u) c
        → verdict_of_list u ms c ≡ (if all_hold (label_set_of u c) ms then Yes else No) }
    ensures closed { (u : List Label) (ms : List Matcher) (c : List ℕ) → IsWhole (sizes u) c
        → verdict_of_list u ms c ≢ Open }
{}

/// A list that is decided at a prefix is decided in the same way at each longer prefix that the
/// universe admits.
///
/// The completions of the longer prefix are among those of the shorter one.
pub fn a_decided_list_stays_decided()
    ensures yes { (u : List Label) (ms : List Matcher) (prefix more : List ℕ)
        → verdict_of_list u ms prefix ≡ Yes → verdict_of_list u ms (prefix ++ more) ≡ Yes }
    ensures no { (u : List Label) (ms : List Matcher) (prefix more : List ℕ)
        → IsUniverse u → IsTrue (admits (sizes u) (prefix ++ more))
        → verdict_of_list u ms prefix ≡ No → verdict_of_list u ms (prefix ++ more) ≡ No }
{}
