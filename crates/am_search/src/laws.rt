//! Facts about the definitions alone: each is the contract of a function with an empty body.
ghost use Rattle.std.specs.Prelude.{◌≡◌, ◌↔◌, ◌<◌, ◌≤◌, ℕ, ◌+◌, ◌*◌, List, [], ◌∷◌, ◌++◌, length};
ghost use Rattle.std.specs.Prelude.{◌≢◌, ◌⊎◌, Bool, not, false, Option, Some, None, IfSome, IsTrue};
ghost use Rattle.std.specs.Prelude.{Contains, codes};
ghost use Rattle.std.specs.Ordering.{nat_cmp};
ghost use Rattle.std.specs.Cmp.Lexicographic.{slice_cmp};
ghost use Rattle.std.specs.List.{filter, sum};
ghost use Rattle.std.specs.List.Sorted.{IsStrictlySortedBy};
ghost use Rattle.am_universe.specs.Universe.{Label, IsUniverse, sizes};
ghost use Rattle.am_universe.specs.Choice.{admits, choices, IsWhole};
ghost use Rattle.am_universe.specs.declared.kind.Kind.{Kind};
ghost use Rattle.am_universe.specs.declared.kind.Kind.TheVariants as kinds;
ghost use Rattle.am_search.specs.declared.start.Start.{Start};
ghost use Rattle.am_search.specs.declared.start.Start.TheVariants.{At, After};
ghost use Rattle.am_search.specs.declared.trailer.Trailer.{Trailer};
ghost use Rattle.am_search.specs.declared.trailer.Trailer.TheVariants.{End, Next, Stopped};
ghost use Rattle.am_search.specs.Judge.{AreSizes, IsJudge, is_yes};
ghost use Rattle.am_search.specs.Start.{comes_before, IsStart, first_of_start, choices_from};
ghost use Rattle.am_search.specs.Start.{answers_from};
ghost use Rattle.am_search.specs.Page.{AnswerPage, page_from, rest_after, IsPage, IsChain};
ghost use Rattle.am_search.specs.Page.{all_choices_of, start_after};
ghost use Rattle.am_search.specs.Token.{token_text, old_token_text, IsFingerprint, ReadsToken};
ghost use Rattle.am_search.specs.Token.{RefusesToken};
ghost use Rattle.am_search.specs.TrailerText.{trailer_text};
ghost use Rattle.am_search.specs.ExactJudge.{IsExactJudge};
ghost use Rattle.am_search.specs.Visits.{all_prefixes, visited, given_under, IsPartOfSearch};
ghost use Rattle.am_search.specs.BudgetPage.{page_under, stop_of, IsSearchPage, IsSearchChain};
ghost use Rattle.am_search.specs.BudgetPage.{BeginsLater};
ghost use Rattle.am_search.specs.VisitsExample.{example_verdict};
ghost use Rattle.am_search.specs.declared.verdict.Verdict.{Verdict};

/// The sizes of a universe are sizes that a judge may have.
pub fn sizes_of_a_universe()
    ensures sizes { (u : List Label) → IsUniverse u → AreSizes (sizes u) }
{}

/// A start at a prefix has the choices that do not come before the prefix in the order of a
/// dictionary.
///
/// There is at least one such choice.
#[tactic(auto, using(crate::proofs::Pages::choices_at, crate::proofs::Pages::some_at))]
pub fn choices_at_a_prefix()
    ensures choices { (ns prefix : List ℕ) → AreSizes ns → IsTrue (admits ns prefix)
        → choices_from ns (At prefix) ≡ filter (λ c. not (comes_before c prefix)) (choices ns) }
    ensures some { (ns prefix : List ℕ) → AreSizes ns → IsTrue (admits ns prefix)
        → 0 < length (choices_from ns (At prefix)) }
{}

/// A start at the empty prefix has all choices.
#[tactic(auto, using(crate::proofs::Walks::first_of_all))]
pub fn choices_from_the_first_on()
    ensures all { (ns : List ℕ) → choices_from ns (At []) ≡ choices ns }
{}

/// A start after a choice has the choices that come after it in the order of a dictionary.
#[tactic(auto, using(crate::proofs::Pages::choices_after))]
pub fn choices_after_a_choice()
    ensures choices { (ns c : List ℕ)
        → choices_from ns (After c) ≡ filter (comes_before c) (choices ns) }
{}

/// The choices of a start, if it has any, are a whole choice and the choices after it.
pub fn a_start_begins_with_its_first_choice()
    ensures none { (ns : List ℕ) (start : Start) → first_of_start ns start ≡ None
        → choices_from ns start ≡ [] }
    ensures first { (ns c : List ℕ) (start : Start) → first_of_start ns start ≡ Some c
        → IsWhole ns c × (choices_from ns start ≡ c ∷ choices_from ns (After c)) }
{}

/// The answers from a start on are exactly the true choices from there on.
pub fn answers_are_the_true_choices()
    ensures exactly { (ns c : List ℕ) (truth : List ℕ → Bool) (start : Start)
        → Contains (answers_from ns truth start) c
        ↔ (Contains (choices_from ns start) c × IsTrue (truth c)) }
{}

/// Two judgements that agree at all whole choices give the same answers.
#[tactic(auto, using(crate::proofs::Pages::same_answers))]
pub fn answers_are_decided_at_whole_choices()
    ensures same { (ns : List ℕ) (f g : List ℕ → Bool) (start : Start)
        → ((c : List ℕ) → IsWhole ns c → f c ≡ g c)
        → answers_from ns f start ≡ answers_from ns g start }
{}

/// The answers are in the order of a dictionary, so none occurs twice.
#[tactic(auto, using(crate::proofs::Pages::answers_sorted))]
pub fn answers_ascend()
    ensures ascending { (ns : List ℕ) (truth : List ℕ → Bool) (start : Start)
        → IsStrictlySortedBy (slice_cmp nat_cmp) (answers_from ns truth start) }
{}

/// A page has no more choices than its limit, and exactly as many if it leaves answers.
#[tactic(auto, using(crate::proofs::Pages::within_limit, crate::proofs::Pages::limit_reached))]
pub fn a_page_keeps_its_limit()
    ensures within { (ns : List ℕ) (truth : List ℕ → Bool) (start : Start) (n : ℕ)
        → length (page_from ns truth start (Some n)).choices ≤ n }
    ensures full { (ns c : List ℕ) (truth : List ℕ → Bool) (start : Start) (n : ℕ)
        → (page_from ns truth start (Some n)).trailer ≡ Next c
        → length (page_from ns truth start (Some n)).choices ≡ n }
{}

/// The line of a trailer is `# next` or `# stopped` and the token of the start of the next page, or
/// `# end` if there is no next page.
#[tactic(auto, using(crate::proofs::Pages::trailer_next, crate::proofs::Pages::trailer_stopped, crate::proofs::Pages::trailer_end))]
pub fn a_trailer_has_the_token_of_its_start()
    ensures next { (fingerprint c : List ℕ) (start : Start) → start_after (Next c) ≡ Some start
        → trailer_text fingerprint (Next c)
        ≡ codes "# next " ++ (token_text fingerprint start ++ codes "\n") }
    ensures stopped { (fingerprint prefix : List ℕ) (start : Start)
        → start_after (Stopped prefix) ≡ Some start
        → trailer_text fingerprint (Stopped prefix)
        ≡ codes "# stopped " ++ (token_text fingerprint start ++ codes "\n") }
    ensures end { (fingerprint : List ℕ) (trailer : Trailer) → start_after trailer ≡ None
        → trailer_text fingerprint trailer ≡ codes "# end\n" }
{}

/// A page has the answers from its start up to the choice of its trailer, that one included, or to
/// the end.
pub fn a_page_ends_at_its_trailer()
    ensures up_to { (ns c : List ℕ) (truth : List ℕ → Bool) (start : Start) (page : AnswerPage)
        → IsPage ns truth start page → page.trailer ≡ Next c
        → page.choices ≡ filter (λ d. not (comes_before c d)) (answers_from ns truth start) }
    ensures to_the_end { (ns : List ℕ) (truth : List ℕ → Bool) (start : Start) (page : AnswerPage)
        → IsPage ns truth start page → page.trailer ≡ End
        → page.choices ≡ answers_from ns truth start }
{}

/// The answers from the start of a page on are its choices, and then the answers that its trailer
/// leaves.
///
/// These are the answers from the trailer's start on, or none if it has no start. `Next` leaves at
/// least one.
pub fn a_page_and_its_rest_are_the_answers()
    ensures rest { (ns : List ℕ) (truth : List ℕ → Bool) (start : Start) (page : AnswerPage)
        → IsPage ns truth start page
        → answers_from ns truth start ≡ page.choices ++ rest_after ns truth page.trailer }
    ensures start { (ns c : List ℕ) (truth : List ℕ → Bool) (start : Start) (page : AnswerPage)
        → IsPage ns truth start page → page.trailer ≡ Next c → IsStart ns (After c) }
    ensures more { (ns c : List ℕ) (truth : List ℕ → Bool) (start : Start) (page : AnswerPage)
        → IsPage ns truth start page → page.trailer ≡ Next c
        → 0 < length (answers_from ns truth (After c)) }
{}

/// A page under a budget that ends with `Next` or `End` is the page without the budget.
pub fn a_page_that_does_not_stop_is_the_page_without_a_budget()
    ensures unlimited { (ns : List ℕ) (truth : List ℕ → Bool) (verdict : List ℕ → Verdict)
        (start : Start) (limit : Option ℕ) → IsJudge ns truth verdict
        → page_under ns verdict start limit None ≡ page_from ns truth start limit }
    ensures next { (ns c : List ℕ) (truth : List ℕ → Bool) (verdict : List ℕ → Verdict)
        (start : Start) (limit budget : Option ℕ) → IsJudge ns truth verdict
        → IfSome limit (λ n. 0 < n)
        → (page_under ns verdict start limit budget).trailer ≡ Next c
        → page_under ns verdict start limit budget ≡ page_from ns truth start limit }
    ensures end { (ns : List ℕ) (truth : List ℕ → Bool) (verdict : List ℕ → Verdict)
        (start : Start) (limit budget : Option ℕ) → IsJudge ns truth verdict
        → IfSome limit (λ n. 0 < n)
        → (page_under ns verdict start limit budget).trailer ≡ End
        → page_under ns verdict start limit budget ≡ page_from ns truth start limit }
{}

/// A page that stops at a prefix has exactly the answers from its start on that come before the
/// prefix.
///
/// So it has those before the first completion of the prefix.
#[tactic(auto, using(crate::proofs::BudgetPages::stopped_before))]
pub fn a_stopped_page_has_the_answers_before_its_prefix()
    ensures before { (ns prefix : List ℕ) (truth : List ℕ → Bool) (verdict : List ℕ → Verdict)
        (start : Start) (limit budget : Option ℕ) → IsJudge ns truth verdict
        → IfSome limit (λ n. 0 < n)
        → (page_under ns verdict start limit budget).trailer ≡ Stopped prefix
        → (page_under ns verdict start limit budget).choices
        ≡ filter (λ c. comes_before c prefix) (answers_from ns truth start) }
{}

/// A search judges no more prefixes than it visits in all, and no more than its budget allows.
#[tactic(auto, using(crate::proofs::WalkBudgets::judged_within, crate::proofs::WalkBudgets::judged_budget))]
pub fn a_search_keeps_its_budget()
    ensures within { (ns : List ℕ) (verdict : List ℕ → Verdict) (start : Start) (budget : Option ℕ)
        (judged given : List (List ℕ)) → IsPartOfSearch ns verdict start budget judged given
        → length judged ≤ length (visited ns verdict start) }
    ensures budget { (ns : List ℕ) (verdict : List ℕ → Verdict) (start : Start) (budget : Option ℕ)
        (judged given : List (List ℕ)) → IsPartOfSearch ns verdict start budget judged given
        → IfSome budget (λ n. length judged ≤ n) }
{}

/// The answers from the start of a page on are its choices and those that its trailer leaves, even
/// if a budget stops it.
///
/// The budget must be enough: more steps than there are labels.
pub fn a_page_under_a_budget_and_its_rest_are_the_answers()
    ensures rest { (ns : List ℕ) (truth : List ℕ → Bool) (verdict : List ℕ → Verdict)
        (start : Start) (page : AnswerPage) → IsJudge ns truth verdict
        → IsSearchPage ns verdict start page
        → answers_from ns truth start ≡ page.choices ++ rest_after ns truth page.trailer }
    ensures start { (ns : List ℕ) (truth : List ℕ → Bool) (verdict : List ℕ → Verdict)
        (start next : Start) (page : AnswerPage) → IsJudge ns truth verdict
        → IsSearchPage ns verdict start page → start_after page.trailer ≡ Some next
        → IsStart ns next }
{}

/// If the budget is enough, the page after another begins later, so consecutive pages come to an
/// end.
///
/// There are no more pages than choices.
pub fn pages_under_budgets_come_to_an_end()
    ensures later { (ns : List ℕ) (truth : List ℕ → Bool) (verdict : List ℕ → Verdict)
        (start next : Start) (page : AnswerPage) → IsJudge ns truth verdict
        → IsSearchPage ns verdict start page → start_after page.trailer ≡ Some next
        → BeginsLater ns start next }
    ensures at_most { (ns : List ℕ) (truth : List ℕ → Bool) (verdict : List ℕ → Verdict)
        (start : Start) (pages : List AnswerPage) → IsJudge ns truth verdict
        → IsSearchChain ns verdict start pages → length pages ≤ length (choices ns) }
{}

/// The choices of consecutive pages, joined, are the answers from the first page's start on,
/// whatever the limits and budgets.
///
/// The budgets must be enough: more steps than there are labels.
#[tactic(auto, using(crate::proofs::SearchChains::search_chain_joined))]
pub fn pages_under_budgets_are_the_answers()
    ensures joined { (ns : List ℕ) (truth : List ℕ → Bool) (verdict : List ℕ → Verdict)
        (start : Start) (pages : List AnswerPage) → IsJudge ns truth verdict
        → IsSearchChain ns verdict start pages
        → all_choices_of pages ≡ answers_from ns truth start }
{}

/// The choices of consecutive pages without budgets, joined, are the answers from the first page's
/// start on.
#[tactic(auto, using(crate::proofs::Pages::chain_joined))]
pub fn pages_in_a_row_are_the_answers()
    ensures joined { (ns : List ℕ) (truth : List ℕ → Bool) (start : Start) (pages : List AnswerPage)
        → IsChain ns truth start pages → all_choices_of pages ≡ answers_from ns truth start }
{}

/// A token stands for one start, and a written token is made under one fingerprint.
///
/// This holds for both forms of tokens, and also for starts over different sizes. So a text is read
/// as at most one start, whatever the inputs and their labels.
#[tactic(auto, using(crate::proofs::TokenForms::same_old, crate::proofs::TokenForms::same_written, crate::proofs::TokenForms::same_start, crate::proofs::TokenForms::same_fingerprint))]
pub fn one_start_a_token()
    ensures old { (ns ms : List ℕ) (s t : Start) → AreSizes ns → AreSizes ms
        → IsStart ns s → IsStart ms t → old_token_text s ≡ old_token_text t → s ≡ t }
    ensures written { (ns ms h k : List ℕ) (s t : Start) → AreSizes ns → AreSizes ms
        → IsStart ns s → IsStart ms t → IsFingerprint h → IsFingerprint k
        → token_text h s ≡ token_text k t → (s ≡ t) × (h ≡ k) }
    ensures same_start { (ns ms h k text : List ℕ) (s t : Start) → AreSizes ns → AreSizes ms
        → IsFingerprint h → IsFingerprint k
        → ReadsToken ns h text s → ReadsToken ms k text t → s ≡ t }
    ensures same_fingerprint { (ns ms h k text : List ℕ) (s t : Start) → AreSizes ns → AreSizes ms
        → IsFingerprint h → IsFingerprint k → ReadsToken ns h text s → ReadsToken ms k text t
        → (text ≡ old_token_text s) ⊎ (h ≡ k) }
{}

/// A token is refused if its start is not a start over the sizes, whatever the inputs.
///
/// If its start is a start over these sizes too, a written token is refused under any other
/// fingerprint.
#[tactic(auto, using(crate::proofs::TokenForms::no_start_there, crate::proofs::TokenForms::of_other_inputs))]
pub fn a_token_of_another_universe_is_refused()
    ensures no_start_there { (ns ms h k text : List ℕ) (start : Start) → AreSizes ns → AreSizes ms
        → IsFingerprint h → ReadsToken ns h text start → (IsStart ms start → ⊥)
        → RefusesToken ms k text kinds.BadToken }
    ensures other_inputs { (ms h k : List ℕ) (start : Start) → IsStart ms start
        → IsFingerprint h → h ≢ k
        → RefusesToken ms k (token_text h start) kinds.OtherInputs }
{}

/// A start has two tokens for inputs with a fingerprint: the one that is written, and the one in
/// the old form.
///
/// Both are read as the start, and no other text is.
pub fn two_tokens_a_start()
    ensures written { (ns fingerprint : List ℕ) (start : Start) → IsStart ns start
        → ReadsToken ns fingerprint (token_text fingerprint start) start }
    ensures old { (ns fingerprint : List ℕ) (start : Start) → IsStart ns start
        → ReadsToken ns fingerprint (old_token_text start) start }
    ensures no_other { (ns fingerprint text : List ℕ) (start : Start)
        → ReadsToken ns fingerprint text start
        → (text ≡ token_text fingerprint start) ⊎ (text ≡ old_token_text start) }
    ensures different { (fingerprint : List ℕ) (s t : Start)
        → token_text fingerprint s ≢ old_token_text t }
{}

/// A text that is read as a start is not refused, and a refused text has one cause.
pub fn one_answer_a_token()
    ensures not_refused { (ns fingerprint text : List ℕ) (start : Start) (kind : Kind)
        → AreSizes ns → IsFingerprint fingerprint → ReadsToken ns fingerprint text start
        → RefusesToken ns fingerprint text kind → ⊥ }
    ensures one_cause { (ns fingerprint text : List ℕ) (first second : Kind)
        → RefusesToken ns fingerprint text first → RefusesToken ns fingerprint text second
        → first ≡ second }
{}

/// `all_prefixes` has exactly the prefixes that the sizes admit.
#[tactic(auto, using(crate::proofs::VisitedPrefixes::prefixes_admitted))]
pub fn prefixes_are_those_admitted()
    ensures exactly { (ns prefix : List ℕ)
        → Contains (all_prefixes ns) prefix ↔ IsTrue (admits ns prefix) }
{}

/// The judged prefixes are in the order of a dictionary, in which a prefix comes before those that
/// begin with it. So none is judged twice.
#[tactic(auto, using(crate::proofs::VisitedPrefixes::visited_sorted))]
pub fn judged_prefixes_ascend()
    ensures ascending { (ns : List ℕ) (verdict : List ℕ → Verdict) (start : Start)
        → IsStrictlySortedBy (slice_cmp nat_cmp) (visited ns verdict start) }
{}

/// The judged prefixes give exactly the answers from the start on, in order, each once.
#[tactic(auto, using(crate::proofs::VisitsGive::visited_give))]
pub fn judged_prefixes_give_the_answers()
    ensures exactly { (ns : List ℕ) (truth : List ℕ → Bool) (verdict : List ℕ → Verdict)
        (start : Start) → IsJudge ns truth verdict
        → given_under ns verdict start None ≡ answers_from ns truth start }
{}

/// With an exact judge, at most `1 + (n + 1) * z` prefixes are judged.
///
/// `n` is the number of answers from the start on, and `z` the number of values of all labels
/// together. From the first choice on, at most `1 + n * z` are judged, so at most one if there are
/// no answers.
#[tactic(auto, using(crate::proofs::VisitsBound::visited_at_most, crate::proofs::VisitsBound::visited_from_first))]
pub fn judged_prefixes_are_few()
    ensures at_most { (ns : List ℕ) (truth : List ℕ → Bool) (verdict : List ℕ → Verdict)
        (start : Start) → IsExactJudge ns truth verdict
        → length (visited ns verdict start)
        ≤ 1 + (length (answers_from ns truth start) + 1) * sum ns }
    ensures from_the_first { (ns : List ℕ) (truth : List ℕ → Bool) (verdict : List ℕ → Verdict)
        → IsExactJudge ns truth verdict
        → length (visited ns verdict (At []))
        ≤ 1 + length (answers_from ns truth (At [])) * sum ns }
{}

/// An example in which as many prefixes are judged as the bound `1 + n * z` allows.
///
/// Its judge is exact. From the first choice on it judges six prefixes. One choice is true, and the
/// labels have five values together.
pub fn an_example_of_the_most_prefixes()
    ensures exact { IsExactJudge (3 ∷ 2 ∷ []) (λ c. is_yes (example_verdict c)) example_verdict }
    ensures reached { length (visited (3 ∷ 2 ∷ []) example_verdict (At []))
        ≡ 1 + 1 * sum (3 ∷ 2 ∷ []) }
{}

/// An example over the sizes 3 and 2: which prefixes are visited, and which choices are returned.
pub fn an_example_of_a_search()
    ensures from_the_first { visited (3 ∷ 2 ∷ []) example_verdict (At [])
        ≡ [] ∷ (0 ∷ []) ∷ (0 ∷ 0 ∷ []) ∷ (0 ∷ 1 ∷ []) ∷ (1 ∷ []) ∷ (2 ∷ []) ∷ [] }
    ensures after_a_choice { visited (3 ∷ 2 ∷ []) example_verdict (After (0 ∷ 1 ∷ []))
        ≡ [] ∷ (1 ∷ []) ∷ (2 ∷ []) ∷ [] }
    ensures after_the_last { visited (3 ∷ 2 ∷ []) example_verdict (After (2 ∷ 1 ∷ [])) ≡ [] }
    ensures given { given_under (3 ∷ 2 ∷ []) example_verdict (At []) None
        ≡ (0 ∷ 1 ∷ []) ∷ [] }
    ensures enough { given_under (3 ∷ 2 ∷ []) example_verdict (At []) (Some 6)
        ≡ (0 ∷ 1 ∷ []) ∷ [] }
    ensures too_few { given_under (3 ∷ 2 ∷ []) example_verdict (At []) (Some 3) ≡ [] }
    ensures stops { stop_of (3 ∷ 2 ∷ []) example_verdict (At []) (Some 5) ≡ Some (2 ∷ []) }
    ensures ends { stop_of (3 ∷ 2 ∷ []) example_verdict (At []) (Some 6) ≡ None }
    ensures stopped_page { page_under (3 ∷ 2 ∷ []) example_verdict (At []) (Some 1) (Some 5)
        ≡ record { choices = (0 ∷ 1 ∷ []) ∷ []; trailer = Stopped (2 ∷ []) } }
    ensures ended_page { page_under (3 ∷ 2 ∷ []) example_verdict (At []) (Some 1) (Some 6)
        ≡ record { choices = (0 ∷ 1 ∷ []) ∷ []; trailer = End } }
{}
