//! Facts about the definitions alone: each is the contract of a function with an empty body.
ghost use Rattle.std.specs.Prelude.{◌≡◌, ◌≢◌, ◌↔◌, ◌⊎◌, ◌++◌, ◌∷◌, ℕ, List, [], length, take};
ghost use Rattle.std.specs.Prelude.{IsTrue, IsFalse, Some, None, ◌≤◌, ℤ, pos, ◌≤ℤ◌, ◌<ℤ◌};
ghost use Rattle.std.specs.Prelude.{slice_get, true, false, codes, map, Contains};
ghost use Rattle.std.specs.Ordering.{nat_cmp};
ghost use Rattle.std.specs.Cmp.Lexicographic.{slice_cmp};
ghost use Rattle.std.specs.List.{AllByRecursion, filter};
ghost use Rattle.std.specs.List.Sorted.{IsStrictlySortedBy};
ghost use Rattle.am_universe.specs.Choice.{choices};
ghost use Rattle.am_universe.specs.Universe.{sizes};
ghost use Rattle.am_universe.specs.LabelSet.{LabelMap, label_set_of, value_of};
ghost use Rattle.am_labels.specs.Matcher.{all_hold, Matcher, condition_holds};
ghost use Rattle.am_labels.specs.Space.{Space, IsChoiceOf};
ghost use Rattle.am_config.specs.ConfigFile.{RouteTree, Configuration, IsConfig, matchers_of};
ghost use Rattle.am_config.specs.ConfigFile.{children_of, continues_of, receiver_of, Rule};
ghost use Rattle.am_config.specs.Path.{route_at, list_of};
ghost use Rattle.am_eval.specs.declared.limits.TheConstants.{MAX_PAIRS};
ghost use Rattle.am_eval.specs.declared.pair.Pair.{Pair};
ghost use Rattle.am_eval.specs.Tree.{Not, And, Or};
ghost use Rattle.am_eval.specs.declared.property.Property.TheVariants.{Any, Silenced, Inhibited};
ghost use Rattle.am_eval.specs.declared.reach.Reach.{Reach};
ghost use Rattle.am_eval.specs.declared.reach.Reach.TheVariants.{Ends, Enters};
ghost use Rattle.am_eval.specs.Question.{Simple, Is, Receiver, Route, Braces, holds_of, Question};
ghost use Rattle.am_eval.specs.Question.{satisfies, answers, is_answer};
ghost use Rattle.am_eval.specs.Routing.{ends, receivers, ends_at, MatchesAt, EndsThere};
ghost use Rattle.am_eval.specs.RoutingExamples.{worked, Has, severity_critical};
ghost use Rattle.am_list_files.specs.SilencesFile.{Silence};
ghost use Rattle.am_eval.specs.World.{World};
ghost use Rattle.am_eval.specs.Silencing.{is_active, hides, is_silenced, silencers, at_instant};
ghost use Rattle.am_eval.specs.Silencing.{IsSteady};
ghost use Rattle.am_eval.specs.SilencingExample.{silenced_world};
ghost use Rattle.am_eval.specs.Inhibition.{is_two_sided, inhibits, is_inhibited, inhibitors};
ghost use Rattle.am_eval.specs.Inhibition.{pair_inhibits};
ghost use Rattle.am_eval.specs.Pairs.{pairs_of};
ghost use Rattle.am_eval.specs.InhibitionExample.{inhibiting_world, two_rules_world};
ghost use Rattle.am_eval.specs.InhibitionExample.{severity_warning, severity_any};
ghost use Rattle.am_eval.specs.Conditions.{literal_holds, some_way_holds, conditions_of};

/// Every alert ends somewhere, because the top-level route matches every label set.
///
/// Each end is the path of a route that matches, and so has a receiver.
#[tactic(auto, using(crate::proofs::EndLaws::somewhere, crate::proofs::EndLaws::at_routes, crate::proofs::EndLaws::one_receiver_an_end))]
pub fn every_label_set_ends()
    ensures somewhere { (c : Configuration) (s : LabelMap) → IsConfig c → ends s c ≢ [] }
    ensures at_routes { (c : Configuration) (s : LabelMap) (path : List ℕ)
        → Contains (ends s c) path → MatchesAt s c path }
    ensures one_receiver_an_end { (c : Configuration) (s : LabelMap)
        → length (receivers s c) ≡ length (ends s c) }
{}

/// A route handles an alert itself exactly if the alert matches it and none of its children.
pub fn a_route_handles_what_no_child_matches()
    ensures exactly { (s : LabelMap) (t : RouteTree)
        → (Contains (ends_at s t) []
        ↔ (IsTrue (all_hold s (matchers_of t))
        × AllByRecursion (λ child. IsFalse (all_hold s (matchers_of child)))
        (list_of (children_of t)))) }
{}

/// An alert ends at a path exactly if it matches each route on the way, matches no earlier sibling
/// of these that lacks `continue`, and matches no child of the last.
///
/// Its ends are in the order of the routes, each once. If no route but the top-level one has
/// `continue`, there is one end at most.
#[tactic(auto, using(crate::proofs::FlatEnds::ends_exactly, crate::proofs::FlatEnds::ends_ascend))]
pub fn an_alert_ends_where_nothing_stops_it()
    ensures exactly { (s : LabelMap) (t : RouteTree) (path : List ℕ)
        → (Contains (ends_at s t) path ↔ EndsThere s t path) }
    ensures ascending { (s : LabelMap) (t : RouteTree)
        → IsStrictlySortedBy (slice_cmp nat_cmp) (ends_at s t) }
    ensures one { (s : LabelMap) (t : RouteTree) (p q : List ℕ)
        → ((path : List ℕ) (below : RouteTree) → path ≢ [] → route_at t path ≡ Some below
        → IsFalse (continues_of below))
        → Contains (ends_at s t) p → Contains (ends_at s t) q → p ≡ q }
{}

/// Below a route that matches, a child is tried exactly if each earlier sibling that matches has
/// `continue`.
///
/// The ends at the child and below it are then ends of the route.
pub fn a_child_is_tried_where_each_match_before_it_continues()
    ensures exactly { (s : LabelMap) (t : RouteTree) (position : ℕ) (path : List ℕ)
        → (Contains (ends_at s t) (position ∷ path)
        ↔ (IsTrue (all_hold s (matchers_of t)) × (child : RouteTree)
        × (slice_get (list_of (children_of t)) position ≡ Some child)
        × AllByRecursion
        (λ earlier. IsTrue (all_hold s (matchers_of earlier)) → IsTrue (continues_of earlier))
        (take position (list_of (children_of t)))
        × Contains (ends_at s child) path)) }
{}

/// An example: where a label set ends if it has neither label, the team `db` alone, the severity
/// `critical` alone, or both.
///
/// If it has both, a sibling is tried after the first end.
pub fn an_example_of_routing()
    ensures none { (s : LabelMap) → Has s [] []
        → (ends s worked ≡ [] ∷ []) × (receivers s worked ≡ 0 ∷ []) }
    ensures db { (s : LabelMap) → Has s (codes "db") []
        → (ends s worked ≡ (0 ∷ []) ∷ []) × (receivers s worked ≡ 1 ∷ []) }
    ensures critical { (s : LabelMap) → Has s [] (codes "critical")
        → (ends s worked ≡ (1 ∷ []) ∷ []) × (receivers s worked ≡ 3 ∷ []) }
    ensures both { (s : LabelMap) → Has s (codes "db") (codes "critical")
        → (ends s worked ≡ (0 ∷ 0 ∷ []) ∷ (1 ∷ []) ∷ []) × (receivers s worked ≡ 2 ∷ 3 ∷ []) }
{}

/// `not` is true exactly if its question is false, `and` if both are true, and `or` if at least one
/// is.
#[tactic(auto, using(crate::proofs::SimpleParts::not_true, crate::proofs::SimpleParts::or_true))]
pub fn a_joined_question_is_true_as_its_parts_are()
    ensures not { (w : World) (s : LabelMap) (q : Question)
        → IsTrue (satisfies w (Not q) s) ↔ (IsTrue (satisfies w q s) → ⊥) }
    ensures and { (w : World) (s : LabelMap) (q r : Question) → IsTrue (satisfies w (And q r) s)
        ↔ (IsTrue (satisfies w q s) × IsTrue (satisfies w r s)) }
    ensures or { (w : World) (s : LabelMap) (q r : Question) → IsTrue (satisfies w (Or q r) s)
        ↔ (IsTrue (satisfies w q s) ⊎ IsTrue (satisfies w r s)) }
{}

/// A simple part of a question is true of an alert exactly as it says.
///
/// A receiver: the alert ends at a route that has it. `ends` and a path: the alert ends there.
/// `inhibited`: by some rule, some firing alert inhibits it. Matchers in braces: each of them
/// matches it. `any`, `silenced` and `enters` have laws of their own.
#[tactic(auto, using(crate::proofs::SimpleParts::goes_there, crate::proofs::SimpleParts::ends_there, crate::proofs::SimpleParts::some_inhibits))]
pub fn a_simple_part_is_true_as_it_says()
    ensures receiver { (w : World) (s : LabelMap) (receiver : ℕ)
        → IsTrue (holds_of w (Receiver receiver) s)
        ↔ ((path : List ℕ) × (t : RouteTree) × Contains (ends s w.config) path
        × (route_at w.config.root path ≡ Some t) × (receiver_of t ≡ receiver)) }
    ensures ends { (w : World) (s : LabelMap) (path : List ℕ)
        → IsTrue (holds_of w (Route Ends path) s) ↔ Contains (ends s w.config) path }
    ensures inhibited { (w : World) (s : LabelMap) → IsTrue (holds_of w (Is Inhibited) s)
        ↔ ((rule : Rule) × (firing : LabelMap) × Contains w.config.rules rule
        × Contains w.alerts firing × IsTrue (inhibits rule firing s)) }
    ensures braces { (w : World) (s : LabelMap) (matchers : List Matcher)
        → IsTrue (holds_of w (Braces matchers) s)
        ↔ AllByRecursion (λ m. IsTrue (condition_holds s m)) matchers }
{}

/// An example: an alert that ends below `/0` enters it, and does not end there.
pub fn an_example_of_ends_and_enters()
    ensures entered { (w : World) (s : LabelMap) → w.config ≡ worked
        → Has s (codes "db") (codes "critical") → IsTrue (holds_of w (Route Enters (0 ∷ [])) s) }
    ensures not_ended { (w : World) (s : LabelMap) → w.config ≡ worked
        → Has s (codes "db") (codes "critical") → IsFalse (holds_of w (Route Ends (0 ∷ [])) s) }
    ensures below { (w : World) (s : LabelMap) → w.config ≡ worked
        → Has s (codes "db") (codes "critical") → IsTrue (holds_of w (Route Ends (0 ∷ 0 ∷ [])) s) }
{}

/// A receiver or a route that the configuration does not have makes its part of a question false.
#[tactic(auto, using(crate::proofs::AbsentParts::no_receiver_there, crate::proofs::AbsentParts::no_route_there))]
pub fn what_is_not_there_is_false()
    ensures receiver { (w : World) (s : LabelMap) (receiver : ℕ) → IsConfig w.config
        → length w.config.receivers ≤ receiver → IsFalse (holds_of w (Receiver receiver) s) }
    ensures route { (w : World) (s : LabelMap) (reach : Reach) (path : List ℕ)
        → route_at w.config.root path ≡ None → IsFalse (holds_of w (Route reach path) s) }
{}

/// `enters` is true of a path exactly if the alert ends at the route at the path, or at one below
/// it.
#[tactic(auto, using(crate::proofs::EndLaws::itself, crate::proofs::EndLaws::exactly))]
pub fn ends_are_entered()
    ensures itself { (w : World) (s : LabelMap) (path : List ℕ)
        → IsTrue (holds_of w (Route Ends path) s) → IsTrue (holds_of w (Route Enters path) s) }
    ensures exactly { (w : World) (s : LabelMap) (path : List ℕ)
        → (IsTrue (holds_of w (Route Enters path) s)
        ↔ ((below : List ℕ) × IsTrue (holds_of w (Route Ends (path ++ below)) s))) }
{}

/// `any` is true of a label set exactly if `ends` is true of it for some path.
pub fn any_is_every_end()
    ensures same { (w : World) (s : LabelMap) → IsConfig w.config
        → (IsTrue (holds_of w (Is Any) s)
        ↔ ((path : List ℕ) × IsTrue (holds_of w (Route Ends path) s))) }
{}

/// An alert is silenced exactly if it has a silencer, which is a silence that hides it.
///
/// Its silencers are the positions of the silences that hide it, in order, each once.
#[tactic(auto, using(crate::proofs::SilenceLaws::some, crate::proofs::SilenceLaws::ascending))]
pub fn an_alert_is_silenced_by_its_silencers()
    ensures some { (w : World) (s : LabelMap) → IsTrue (is_silenced w s) ↔ (silencers w s ≢ []) }
    ensures exactly { (w : World) (s : LabelMap) (i : ℕ) → (Contains (silencers w s) i
        ↔ ((silence : Silence) × (slice_get w.silences i ≡ Some silence)
        × IsTrue (hides w s silence))) }
    ensures ascending { (w : World) (s : LabelMap) → IsStrictlySortedBy nat_cmp (silencers w s) }
{}

/// An alert is silenced exactly if it matches all matchers of a silence that is active at the
/// instant.
///
/// A silence is active if it has begun by the instant, and has not ended. Without an instant none
/// is.
#[tactic(auto, using(crate::proofs::SilenceLaws::while_one_matches))]
pub fn an_alert_is_silenced_while_a_silence_matches_it()
    ensures exactly { (w : World) (s : LabelMap) → (IsTrue (holds_of w (Is Silenced) s)
        ↔ ((instant : ℤ) × (silence : Silence) × (w.instant ≡ Some instant)
        × Contains w.silences silence
        × (silence.starts ≤ℤ instant) × (instant <ℤ silence.ends)
        × AllByRecursion (λ m. IsTrue (condition_holds s m)) silence.matchers)) }
{}

/// If no silence is active, no alert is silenced. This is so if no instant is given. A silence that
/// ends before it begins, or when it begins, hides nothing.
#[tactic(auto, using(crate::proofs::SilenceLaws::inactive, crate::proofs::SilenceLaws::no_instant, crate::proofs::SilenceLaws::never_active))]
pub fn inactive_silences_hide_nothing()
    ensures inactive { (w : World) (s : LabelMap)
        → AllByRecursion (λ silence. IsFalse (is_active w.instant silence)) w.silences
        → IsFalse (is_silenced w s) }
    ensures no_instant { (w : World) (s : LabelMap) → w.instant ≡ None
        → IsFalse (is_silenced w s) }
    ensures ended { (w : World) (s : LabelMap) (silence : Silence)
        → silence.ends ≤ℤ silence.starts → IsFalse (hides w s silence) }
{}

/// Worlds with one configuration, the same firing alerts and the same active silences give the same
/// answers to every question.
///
/// The active silences must be in the same order. So two instants give the same answers if no
/// silence begins or ends after the first and up to the second, that one included.
#[tactic(auto, using(crate::proofs::SilenceLaws::same_active, crate::proofs::SilenceLaws::steady))]
pub fn answers_change_only_where_silences_begin_or_end()
    ensures same_active { (s : Space) (w v : World) (question : Question)
        → w.config ≡ v.config → w.alerts ≡ v.alerts
        → filter (is_active w.instant) w.silences ≡ filter (is_active v.instant) v.silences
        → answers s w question ≡ answers s v question }
    ensures steady { (s : Space) (w : World) (from to : ℤ) (question : Question)
        → from ≤ℤ to → AllByRecursion (IsSteady from to) w.silences
        → answers s (at_instant w from) question ≡ answers s (at_instant w to) question }
{}

/// An example: what a silence of the team `db`, from 10 to 20, hides at 10, at 20, of another team,
/// and without an instant.
pub fn an_example_of_silencing()
    ensures begun { (s : LabelMap) → Has s (codes "db") []
        → is_silenced (at_instant silenced_world (pos 10)) s ≡ true }
    ensures ended { (s : LabelMap) → Has s (codes "db") []
        → is_silenced (at_instant silenced_world (pos 20)) s ≡ false }
    ensures other { (s : LabelMap) → Has s (codes "web") []
        → is_silenced (at_instant silenced_world (pos 10)) s ≡ false }
    ensures no_instant { (s : LabelMap) → Has s (codes "db") []
        → is_silenced silenced_world s ≡ false }
{}

/// By a rule, a firing alert inhibits another exactly if it matches the source side, the other
/// matches the target side, both have the same values for `equal`, and the two alerts do not both
/// match both sides.
#[tactic(auto, using(crate::proofs::InhibitionLaws::as_the_rule_says))]
pub fn an_alert_inhibits_as_the_rule_says()
    ensures exactly { (rule : Rule) (firing s : LabelMap) → (IsTrue (inhibits rule firing s)
        ↔ (IsTrue (all_hold firing rule.source) × IsTrue (all_hold s rule.target)
        × AllByRecursion (λ name. value_of firing name ≡ value_of s name) rule.equal
        × (IsTrue (all_hold firing rule.target) → IsTrue (all_hold s rule.source) → ⊥))) }
{}

/// Two alerts that both match both sides of a rule do not inhibit each other by it.
///
/// So no alert inhibits itself.
pub fn two_sided_alerts_do_not_inhibit_each_other()
    ensures two_sided { (rule : Rule) (firing s : LabelMap) → IsTrue (is_two_sided rule firing)
        → IsTrue (is_two_sided rule s) → IsFalse (inhibits rule firing s) }
    ensures itself { (rule : Rule) (s : LabelMap) → IsFalse (inhibits rule s s) }
{}

/// An alert is inhibited exactly if it has an inhibitor: a rule, and a firing alert that inhibits
/// it by that rule.
///
/// Its inhibitors are in order, each once.
#[tactic(auto, using(crate::proofs::InhibitionLaws::some, crate::proofs::InhibitionLaws::ascending))]
pub fn an_alert_is_inhibited_by_its_inhibitors()
    ensures some { (w : World) (s : LabelMap)
        → IsTrue (is_inhibited w s) ↔ (inhibitors w s ≢ []) }
    ensures exactly { (w : World) (s : LabelMap) (i j : ℕ) → (Contains (inhibitors w s) (i, j)
        ↔ ((rule : Rule) × (firing : LabelMap) × (slice_get w.config.rules i ≡ Some rule)
        × (slice_get w.alerts j ≡ Some firing) × IsTrue (inhibits rule firing s))) }
    ensures ascending { (w : World) (s : LabelMap) → IsStrictlySortedBy (slice_cmp nat_cmp)
        (map (λ found. found.0 ∷ found.1 ∷ []) (inhibitors w s)) }
{}

/// The pairs are each rule with each firing alert that its source side matches, in order, each
/// once.
///
/// A pair says whether the target side matches that alert too. What inhibits an alert is among the
/// pairs.
#[tactic(auto, using(crate::proofs::PairLemmas::ascending, crate::proofs::Inhibitors::inhibitors_of_pairs))]
pub fn pairs_are_the_firing_alerts_of_rules()
    ensures exactly { (rules : List Rule) (alerts : List LabelMap) (pair : Pair)
        → (Contains (pairs_of rules alerts) pair
        ↔ ((rule : Rule) × (firing : LabelMap) × (slice_get rules pair.rule ≡ Some rule)
        × (slice_get alerts pair.alert ≡ Some firing) × IsTrue (all_hold firing rule.source)
        × (pair.both ≡ all_hold firing rule.target))) }
    ensures ascending { (rules : List Rule) (alerts : List LabelMap)
        → IsStrictlySortedBy (slice_cmp nat_cmp)
        (map (λ pair. pair.rule ∷ pair.alert ∷ []) (pairs_of rules alerts)) }
    ensures inhibitors { (w : World) (s : LabelMap) → inhibitors w s
        ≡ map (λ pair. (pair.rule, pair.alert))
        (filter (pair_inhibits w s) (pairs_of w.config.rules w.alerts)) }
{}

/// If no alert fires, or there is no rule, nothing is inhibited.
#[tactic(auto, using(crate::proofs::InhibitionLaws::no_alerts))]
pub fn without_alerts_or_rules_nothing_is_inhibited()
    ensures no_alerts { (w : World) (s : LabelMap) → w.alerts ≡ []
        → IsFalse (is_inhibited w s) }
    ensures no_rules { (w : World) (s : LabelMap) → w.config.rules ≡ []
        → IsFalse (is_inhibited w s) }
{}

/// An example: what rules inhibit while a critical alert of the team `db` fires.
///
/// The rules go from `critical` to `warning` for the same team; from `critical` to `warning` for
/// the same region, which neither alert has; from any severity to any; and from any severity to
/// `warning`. Of two rules, the second inhibits a warning of the team, by the alert at position 0.
pub fn an_example_of_inhibition()
    ensures same_team { (s : LabelMap) → Has s (codes "db") (codes "warning")
        → is_inhibited (inhibiting_world severity_critical severity_warning (codes "team")) s
        ≡ true }
    ensures other_team { (s : LabelMap) → Has s (codes "web") (codes "warning")
        → is_inhibited (inhibiting_world severity_critical severity_warning (codes "team")) s
        ≡ false }
    ensures no_region { (s : LabelMap) → Has s (codes "web") (codes "warning")
        → value_of s (codes "region") ≡ []
        → is_inhibited (inhibiting_world severity_critical severity_warning (codes "region")) s
        ≡ true }
    ensures two_sided { (s : LabelMap) → Has s (codes "db") (codes "warning")
        → is_inhibited (inhibiting_world severity_any severity_any (codes "team")) s ≡ false }
    ensures one_sided { (s : LabelMap) → Has s (codes "db") (codes "warning")
        → is_inhibited (inhibiting_world severity_any severity_warning (codes "team")) s ≡ true }
    ensures which { (s : LabelMap) → Has s (codes "db") (codes "warning")
        → inhibitors two_rules_world s ≡ (1, 0) ∷ [] }
{}

/// A simple part of a question is true of an alert exactly if its condition is.
///
/// A condition is true if in one of its ways each list is matched, or not matched, as the way says.
#[tactic(auto, using(crate::proofs::ConditionLaws::exactly))]
pub fn a_simple_part_is_true_where_its_condition_holds()
    ensures exactly { (w : World) (s : LabelMap) (simple : Simple)
        → holds_of w simple s ≡ some_way_holds (literal_holds s) (conditions_of w simple) }
{}

/// A choice is among the answers exactly if it is one of the space and its label set satisfies the
/// question.
///
/// The answers are the list of all whole choices of the labels, without those that are not answers.
#[tactic(auto, using(crate::proofs::AnswerLaws::answers_of_all))]
pub fn answers_are_the_choices_that_satisfy()
    ensures exactly { (s : Space) (w : World) (question : Question) (choice : List ℕ)
        → (Contains (answers s w question) choice
        ↔ (IsChoiceOf s choice
        × IsTrue (satisfies w question (label_set_of s.labels choice)))) }
    ensures of_all { (s : Space) (w : World) (question : Question)
        → answers s w question ≡ filter (is_answer s w question) (choices (sizes s.labels)) }
{}

/// The answers are in declared order, so none occurs twice.
#[tactic(auto, using(crate::proofs::AnswerLaws::answers_sorted))]
pub fn answers_ascend()
    ensures ascending { (s : Space) (w : World) (question : Question)
        → IsStrictlySortedBy (slice_cmp nat_cmp) (answers s w question) }
{}

/// The limit on the pairs of a world.
pub fn worlds_have_a_limit()
    ensures pairs { MAX_PAIRS ≡ 16384 }
{}
