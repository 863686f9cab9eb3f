//! Facts about the definitions alone: each is the contract of a function with an empty body.
ghost use Rattle.std.specs.Prelude.{◌≡◌, ◌≤◌, ◌<◌, ◌++◌, ℕ, List, [], Some, None, Option, IfSome};
ghost use Rattle.std.specs.Prelude.{length, ◌↔◌, codes};
ghost use Rattle.std.specs.List.{flat_map};
ghost use Rattle.am_universe.specs.declared.kind.Kind.TheVariants as kinds;
ghost use Rattle.am_universe.specs.declared.limits.TheConstants.{MAX_LABELS};
ghost use Rattle.am_universe.specs.declared.place.Place.{Place};
ghost use Rattle.am_universe.specs.Universe.{Label, IsUniverse, sizes};
ghost use Rattle.am_universe.specs.Choice.{choices};
ghost use Rattle.am_labels.specs.Space.{Space};
ghost use Rattle.am_json.specs.Pointer.{Refusal};
ghost use Rattle.am_list_files.specs.UniverseFile.{FileSaysUniverse};
ghost use Rattle.am_config.specs.ConfigFile.{Configuration};
ghost use Rattle.am_eval.specs.World.{World};
ghost use Rattle.am_eval.specs.Question.{Question, is_answer, answers};
ghost use Rattle.am_files.specs.Faults.{IsFirstFaultOfCall};
ghost use Rattle.am_search.specs.declared.start.Start.{Start};
ghost use Rattle.am_search.specs.declared.start.Start.TheVariants.{At, After};
ghost use Rattle.am_search.specs.declared.trailer.Trailer.{Trailer};
ghost use Rattle.am_search.specs.declared.trailer.Trailer.TheVariants.{End, Next};
ghost use Rattle.am_search.specs.Start.{answers_from, IsStart};
ghost use Rattle.am_search.specs.Page.{AnswerPage, page_from, IsPage, IsChain, rest_after};
ghost use Rattle.am_search.specs.Page.{start_after};
ghost use Rattle.am_search.specs.Token.{token_text};
ghost use Rattle.am_search.specs.BudgetPage.{IsSearchPage, IsSearchChain, BeginsLater};
ghost use Rattle.am_search.specs.Judge.{IsJudge};
ghost use Rattle.am_plans.specs.Verdicts.{verdict_of};
ghost use Rattle.am_questions.specs.Inputs.{Inputs, AcceptsInputs, after_token, inputs_fingerprint};
ghost use Rattle.am_questions.specs.AskedStart.{AsksStart};
ghost use Rattle.am_search.specs.PageText.{lines_text};
ghost use Rattle.am_search.specs.TrailerText.{trailer_text};
ghost use Rattle.am_commands.specs.AskOutcome.{Asked, IsAskedOf, AreAskedInARow, AreAskedSoFar};
ghost use Rattle.am_commands.specs.AskOutcome.{AnswersInputs};
ghost use Rattle.am_commands.specs.Reports.{ReportsFiles, AcceptsReport, report_stages};
ghost use Rattle.am_coverage.specs.Report.{IsRoutesReport, IsReceiversReport};
ghost use Rattle.am_universe.specs.LabelSet.{LabelMap};
ghost use Rattle.am_labels.specs.ParsedLabelSet.{WordsSpellSet};
ghost use Rattle.am_eval.specs.Reaching.{EndsAt, Enters, GoesTo, SomeIs, IsSetOf, IsDead};
ghost use Rattle.am_eval.specs.Reaching.{IsNeverEntered, IsUnmatched};
ghost use Rattle.am_commands.specs.Explanation.{explain_stages, ExplainsSet, inhibited_line};
ghost use Rattle.am_files.specs.Files.{Files};
ghost use Rattle.am_files.specs.AcceptedWorld.{AcceptsWorld};
ghost use Rattle.am_classes.specs.declared.alphabet.Alphabet.{Alphabet};
ghost use Rattle.am_classes.specs.declared.alphabet.Alphabet.TheVariants.{Unicode};
ghost use Rattle.am_complete.specs.Complete.{IsSpaceComplete};
ghost use Rattle.am_complete.specs.Covering.{HasTextsOver};
ghost use Rattle.am_coverage.specs.declared.coverage.RouteCoverage.TheVariants as route_is;
ghost use Rattle.am_coverage.specs.Coverage.{route_coverage, first_receipt};
ghost use Rattle.am_every_alert.specs.EveryAlert.{IsAlertOf};
ghost use Rattle.am_every_alert.specs.Deciding.{coverage_matchers};

/// The answers from the first choice on are all answers to the question.
pub fn answers_from_the_first_choice_on_are_all()
    ensures all { (s : Space) (w : World) (q : Question)
        → answers_from (sizes s.labels) (is_answer s w q) (At []) ≡ answers s w q }
{}

/// After a page that ends with `Next`, the same inputs with the token of its choice are accepted,
/// and ask for the start after that choice. The same holds of `Stopped` and its prefix, if the
/// budget is at least one more than there are labels. The token asks for no other start.
pub fn a_page_goes_on_at_its_token()
    ensures accepted { (inputs : Inputs) (s : Space) (w : World) (q : Question) (start : Start)
        (page : AnswerPage) (c : List ℕ) → AcceptsInputs inputs s w q start
        → IsPage (sizes s.labels) (is_answer s w q) start page → page.trailer ≡ Next c
        → AcceptsInputs (after_token inputs (token_text (inputs_fingerprint inputs)
        (After c))) s w q (After c) }
    ensures under_a_budget { (inputs : Inputs) (s : Space) (w : World) (q : Question)
        (start next : Start) (page : AnswerPage) → AcceptsInputs inputs s w q start
        → IsSearchPage (sizes s.labels) (verdict_of s w q) start page
        → start_after page.trailer ≡ Some next
        → AcceptsInputs (after_token inputs (token_text (inputs_fingerprint inputs) next))
        s w q next }
    ensures alone { (inputs : Inputs) (u : List Label) (next start : Start) → IsUniverse u
        → IsStart (sizes u) next → AsksStart u (inputs_fingerprint inputs)
        (Some (token_text (inputs_fingerprint inputs) next)) start → start ≡ next }
{}

/// The lines of pages in a row, joined, are those of the one page without a limit from the same
/// start. The limits of the pages may differ, and so may their budgets, if each is at least one
/// more than there are labels.
pub fn pages_in_a_row_have_the_lines_of_one_page()
    ensures joined { (s : Space) (w : World) (q : Question) (start : Start)
        (pages : List AnswerPage)
        → IsChain (sizes s.labels) (is_answer s w q) start pages
        → flat_map (λ page. lines_text s.labels page.choices) pages
        ≡ lines_text s.labels (page_from (sizes s.labels) (is_answer s w q) start None).choices }
    ensures under_budgets { (s : Space) (w : World) (q : Question) (start : Start)
        (pages : List AnswerPage) → IsUniverse s.labels
        → IsSearchChain (sizes s.labels) (verdict_of s w q) start pages
        → flat_map (λ page. lines_text s.labels page.choices) pages
        ≡ lines_text s.labels (page_from (sizes s.labels) (is_answer s w q) start None).choices }
{}

/// `ask` writes lines and a trailer, so the laws of calls in a row apply to it.
pub fn what_ask_writes_is_lines_and_a_trailer()
    ensures asked { (inputs : Inputs) (limit steps : Option ℕ) (trailer : Trailer) (text : List ℕ)
        → IfSome limit (λ n. 0 < n) → IfSome steps (λ n. MAX_LABELS < n)
        → AnswersInputs inputs limit steps trailer text
        → (lines : List ℕ) × IsAskedOf inputs (record {
          limit = limit;
          steps = steps;
          lines = lines;
          trailer = trailer;
        }) × (text ≡ lines ++ trailer_text (inputs_fingerprint inputs) trailer) }
{}

/// A rerun of `ask` with the token of an earlier call, without a limit and a budget, ends with
/// `# end` if it is done, and its lines are exactly the rest: the answers that the earlier call
/// left. [`a_page_goes_on_at_its_token`] says that its inputs are accepted.
pub fn starting_again_writes_exactly_the_rest()
    ensures ends { (inputs : Inputs) (first second : Asked) (next : Start)
        → IsAskedOf inputs first → start_after first.trailer ≡ Some next
        → IsAskedOf (after_token inputs (token_text (inputs_fingerprint inputs) next)) second
        → second.limit ≡ None
        → second.steps ≡ None → second.trailer ≡ End }
    ensures rest { (inputs : Inputs) (first second : Asked) (next : Start)
        → (asked : IsAskedOf inputs first) → start_after first.trailer ≡ Some next
        → IsAskedOf (after_token inputs (token_text (inputs_fingerprint inputs) next)) second
        → second.limit ≡ None
        → second.steps ≡ None
        → second.lines ≡ lines_text asked.2.space.labels (rest_after (sizes asked.2.space.labels)
        (is_answer asked.2.space asked.2.world asked.2.question) first.trailer) }
{}

/// The lines of calls of `ask` in a row, joined, are those of one call with the first inputs,
/// without a limit and a budget. Each call has the token of the trailer before it, and the last
/// ends with `# end`. Their limits and budgets may differ.
pub fn pages_asked_in_a_row_are_one_page()
    ensures joined { (inputs : Inputs) (row : List Asked) (whole : Asked)
        → AreAskedInARow inputs row → IsAskedOf inputs whole → whole.limit ≡ None
        → whole.steps ≡ None
        → flat_map (λ (asked : Asked). asked.lines) row ≡ whole.lines }
{}

/// Calls of `ask` in a row come to an end, whatever their limits and budgets are. A call with the
/// token of another begins later. So there are at most as many calls in a row as the labels of the
/// universe have choices. If there are that many, the last has ended with `# end`.
pub fn calls_in_a_row_come_to_an_end()
    ensures later { (inputs : Inputs) (first second : Asked) (next : Start)
        → (asked : IsAskedOf inputs first) → start_after first.trailer ≡ Some next
        → (again : IsAskedOf (after_token inputs (token_text (inputs_fingerprint inputs) next))
        second)
        → BeginsLater (sizes asked.2.space.labels) asked.2.start again.2.start }
    ensures at_most { (inputs : Inputs) (s : Space) (row : List Asked)
        → FileSaysUniverse inputs.universe s → AreAskedSoFar inputs row
        → length row ≤ length (choices (sizes s.labels)) }
    ensures ended { (inputs : Inputs) (s : Space) (row : List Asked)
        → FileSaysUniverse inputs.universe s → AreAskedSoFar inputs row
        → length (choices (sizes s.labels)) ≤ length row → AreAskedInARow inputs row }
{}

/// The verdicts of a question are a judge of its answers. `Yes` comes only where every completion
/// of a prefix is an answer, `No` only where none is, and `Open` never at a whole choice. So what
/// is proved of judges and their searches holds of the pages of `ask`.
pub fn the_verdicts_of_a_question_judge_its_answers()
    ensures judge { (s : Space) (w : World) (q : Question) → IsUniverse s.labels
        → IsJudge (sizes s.labels) (is_answer s w q) (verdict_of s w q) }
{}

/// The same inputs fix what `ask` writes under a limit and a budget, what `dead` writes, and what
/// `receivers` writes.
pub fn what_is_written_is_one_text()
    ensures ask { (inputs : Inputs) (limit steps : Option ℕ) (page other : List ℕ)
        (trailer again : Trailer)
        → AnswersInputs inputs limit steps trailer page
        → AnswersInputs inputs limit steps again other
        → (page ≡ other) × (trailer ≡ again) }
    ensures dead { (universe_file config_file report other : List ℕ)
        → ReportsFiles universe_file config_file IsRoutesReport report
        → ReportsFiles universe_file config_file IsRoutesReport other → report ≡ other }
    ensures receivers { (universe_file config_file report other : List ℕ)
        → ReportsFiles universe_file config_file IsReceiversReport report
        → ReportsFiles universe_file config_file IsReceiversReport other → report ≡ other }
{}

/// Files of a report that are accepted have no first fault, except for a pattern, which the engine
/// may refuse.
pub fn accepted_files_have_no_fault()
    ensures pattern { (universe_file config_file : List ℕ) (s : Space) (c : Configuration)
        (place : Place) (refusal : Refusal) → AcceptsReport universe_file config_file s c
        → IsFirstFaultOfCall (report_stages universe_file config_file) place refusal
        → refusal.kind ≡ kinds.Pattern }
{}

/// Inputs of `explain` that are accepted have no first fault, except a pattern that the engine may
/// refuse.
pub fn accepted_inputs_of_explain_have_no_fault()
    ensures pattern { (inputs : Files) (words : List (List ℕ)) (w : World) (s : LabelMap)
        (place : Place) (refusal : Refusal) → AcceptsWorld inputs w → WordsSpellSet words s
        → IsFirstFaultOfCall (explain_stages inputs words) place refusal
        → refusal.kind ≡ kinds.Pattern }
{}

/// Inputs that are accepted fix the world, and what `explain` writes of a label set. Its line for a
/// rule and a firing alert that inhibit the set has the rule first.
pub fn an_explanation_is_one_text()
    ensures world { (inputs : Files) (w x : World) → AcceptsWorld inputs w
        → AcceptsWorld inputs x → w ≡ x }
    ensures one { (inputs : Files) (words : List (List ℕ)) (explanation other : List ℕ)
        → ExplainsSet inputs words explanation → ExplainsSet inputs words other
        → explanation ≡ other }
    ensures rule_first { inhibited_line (1, 0) ≡ codes "inhibited 1 0\n" }
{}

/// No alert of a complete space ends at a dead route, none ends at or below a route that is never
/// entered, and none goes to an unmatched receiver. The space is complete, over the alphabet of the
/// alert, for the matchers of the routes and the impossible lists.
pub fn a_dead_route_of_a_complete_universe_has_no_alert()
    ensures dead { (a : Alphabet) (s : Space) (c : Configuration) (path : List ℕ)
        → IsUniverse s.labels → IsSpaceComplete a s (coverage_matchers s c)
        → IsDead (IsSetOf s) c path → IsDead (IsAlertOf a s) c path }
    ensures never_entered { (a : Alphabet) (s : Space) (c : Configuration) (path : List ℕ)
        → IsUniverse s.labels → IsSpaceComplete a s (coverage_matchers s c)
        → IsNeverEntered (IsSetOf s) c path → IsNeverEntered (IsAlertOf a s) c path }
    ensures unmatched { (a : Alphabet) (s : Space) (c : Configuration) (receiver : ℕ)
        → IsUniverse s.labels → IsSpaceComplete a s (coverage_matchers s c)
        → IsUnmatched (IsSetOf s) c receiver → IsUnmatched (IsAlertOf a s) c receiver }
{}

/// Some alert ends at each route that is reported as live, some ends below each that is reported as
/// entered, and some goes to each receiver that is reported as live, also if the universe is not
/// complete. The alert is over each alphabet that the universe's texts are over.
pub fn a_route_is_live_in_any_universe()
    ensures live { (a : Alphabet) (s : Space) (c : Configuration) (path choice : List ℕ)
        → IsUniverse s.labels → HasTextsOver a s.labels
        → route_coverage s c path ≡ route_is.Live choice → SomeIs (IsAlertOf a s) (EndsAt c path) }
    ensures entered { (a : Alphabet) (s : Space) (c : Configuration) (path : List ℕ)
        → IsUniverse s.labels → HasTextsOver a s.labels
        → route_coverage s c path ≡ route_is.Entered → SomeIs (IsAlertOf a s) (Enters c path) }
    ensures receiver { (a : Alphabet) (s : Space) (c : Configuration) (receiver : ℕ)
        (choice : List ℕ) → IsUniverse s.labels → HasTextsOver a s.labels
        → first_receipt s c receiver ≡ Some choice
        → SomeIs (IsAlertOf a s) (GoesTo c receiver) }
{}

/// In a universe file that is complete over Unicode, a route is dead exactly if no possible alert
/// ends there. It is never entered exactly if none ends there or below it, and a receiver is
/// unmatched exactly if none goes to it. An alert may have any labels with any names; it is
/// possible unless an impossible list matches it. The same holds over each alphabet that the texts
/// of a universe are over. So in a universe with texts of printable ASCII alone, which is complete
/// over ASCII, a route is dead exactly if no possible alert with such values ends there.
pub fn over_a_complete_universe_dead_is_exact()
    ensures dead { (universe_file path : List ℕ) (s : Space) (c : Configuration)
        → FileSaysUniverse universe_file s → IsSpaceComplete Unicode s (coverage_matchers s c)
        → IsDead (IsSetOf s) c path ↔ IsDead (IsAlertOf Unicode s) c path }
    ensures never_entered { (universe_file path : List ℕ) (s : Space) (c : Configuration)
        → FileSaysUniverse universe_file s → IsSpaceComplete Unicode s (coverage_matchers s c)
        → IsNeverEntered (IsSetOf s) c path ↔ IsNeverEntered (IsAlertOf Unicode s) c path }
    ensures unmatched { (universe_file : List ℕ) (s : Space) (c : Configuration) (receiver : ℕ)
        → FileSaysUniverse universe_file s → IsSpaceComplete Unicode s (coverage_matchers s c)
        → IsUnmatched (IsSetOf s) c receiver ↔ IsUnmatched (IsAlertOf Unicode s) c receiver }
    ensures dead_over { (a : Alphabet) (s : Space) (c : Configuration) (path : List ℕ)
        → IsUniverse s.labels → HasTextsOver a s.labels
        → IsSpaceComplete a s (coverage_matchers s c)
        → IsDead (IsSetOf s) c path ↔ IsDead (IsAlertOf a s) c path }
    ensures never_entered_over { (a : Alphabet) (s : Space) (c : Configuration) (path : List ℕ)
        → IsUniverse s.labels → HasTextsOver a s.labels
        → IsSpaceComplete a s (coverage_matchers s c)
        → IsNeverEntered (IsSetOf s) c path ↔ IsNeverEntered (IsAlertOf a s) c path }
    ensures unmatched_over { (a : Alphabet) (s : Space) (c : Configuration) (receiver : ℕ)
        → IsUniverse s.labels → HasTextsOver a s.labels
        → IsSpaceComplete a s (coverage_matchers s c)
        → IsUnmatched (IsSetOf s) c receiver ↔ IsUnmatched (IsAlertOf a s) c receiver }
{}
