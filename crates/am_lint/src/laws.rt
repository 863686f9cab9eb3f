//! Facts about the definitions alone: each is the contract of a function with an empty body.
ghost use Rattle.std.specs.Prelude.{ℕ, List, IsTrue};
ghost use Rattle.std.specs.List.{AllByRecursion};
ghost use Rattle.am_labels.specs.Matcher.{Matcher};
ghost use Rattle.am_labels.specs.MatcherText.{is_name, Spells};
ghost use Rattle.am_universe.specs.Universe.{Label, IsUniverse};
ghost use Rattle.am_labels.specs.Space.{Space};
ghost use Rattle.am_config.specs.ConfigFile.{Configuration};
ghost use Rattle.am_config.specs.Path.{leads_through};
ghost use Rattle.am_eval.specs.Reaching.{IsSetOf, IsDead, IsNeverEntered};
ghost use Rattle.am_classes.specs.declared.alphabet.Alphabet.{Alphabet};
ghost use Rattle.am_complete.specs.Complete.{IsSpaceComplete};
ghost use Rattle.am_complete.specs.Covering.{HasTextsOver};
ghost use Rattle.am_every_alert.specs.EveryAlert.{IsAlertOf};
ghost use Rattle.am_every_alert.specs.Deciding.{coverage_matchers};
ghost use Rattle.am_lint.specs.declared.arrival.Cause.{Cause};
ghost use Rattle.am_lint.specs.declared.arrival.Arrival.{Arrival};
ghost use Rattle.am_lint.specs.Reasons.{IsExcludedBy, IsTakenBy, IsHandedTo};
ghost use Rattle.am_lint.specs.Arrival.{IsArrival, IsReasonFor};
ghost use Rattle.am_report_texts.specs.MatchersText.{matchers_text};

/// The text of matchers is read back as these matchers, if each name may stand in a matcher list.
#[tactic(auto, using(crate::proofs::MatchersSpelled::matchers_spelled))]
pub fn the_text_of_matchers_spells_them()
    ensures spells { (ms : List Matcher) → AllByRecursion (λ m. IsTrue (is_name m.name)) ms
        → Spells (matchers_text ms) ms }
{}

/// The routes that are to blame keep the alerts of a space out. If routes on the way exclude each
/// other, or siblings take each alert first that matches the way, no alert enters the route. If its
/// children take all, no alert ends there.
pub fn a_reason_keeps_alerts_out()
    ensures excluded { (a : Alphabet) (s : Space) (c : Configuration) (path : List ℕ)
        (routes : List (List ℕ)) → IsExcludedBy (IsAlertOf a s) c path routes
        → IsNeverEntered (IsAlertOf a s) c path }
    ensures taken { (a : Alphabet) (s : Space) (c : Configuration) (path : List ℕ)
        (siblings : List (List ℕ)) → IsTakenBy (IsAlertOf a s) c path siblings
        → IsNeverEntered (IsAlertOf a s) c path }
    ensures handed { (a : Alphabet) (s : Space) (c : Configuration) (path : List ℕ)
        (children : List (List ℕ)) → IsHandedTo (IsAlertOf a s) c path children
        → IsDead (IsAlertOf a s) c path }
{}

/// If no alert enters a route, none enters a route below it. So the line of a dead route is true of
/// the routes below it too.
pub fn no_alert_enters_below_a_route_that_none_enters()
    ensures below { (a : Alphabet) (s : Space) (c : Configuration) (path below : List ℕ)
        → IsTrue (leads_through path below) → IsNeverEntered (IsAlertOf a s) c path
        → IsNeverEntered (IsAlertOf a s) c below }
{}

/// All alerts arrive at a route as the label sets of a complete space do, for the same reasons. The
/// space is complete, over an alphabet, for the matchers of the routes and the impossible lists,
/// and has only texts over this alphabet. The alerts are those of the space over this alphabet.
pub fn all_alerts_arrive_as_those_of_a_complete_space()
    ensures arrival { (a : Alphabet) (s : Space) (c : Configuration) (path : List ℕ)
        (arrival : Arrival) → IsUniverse s.labels → HasTextsOver a s.labels
        → IsSpaceComplete a s (coverage_matchers s c)
        → IsArrival s.labels (IsSetOf s) c path arrival
        → IsArrival s.labels (IsAlertOf a s) c path arrival }
    ensures reason { (a : Alphabet) (s : Space) (c : Configuration) (path : List ℕ) (cause : Cause)
        (routes : List (List ℕ)) → IsUniverse s.labels → HasTextsOver a s.labels
        → IsSpaceComplete a s (coverage_matchers s c)
        → IsReasonFor (IsSetOf s) c path cause routes
        → IsReasonFor (IsAlertOf a s) c path cause routes }
    ensures handed { (a : Alphabet) (s : Space) (c : Configuration) (path : List ℕ)
        (children : List (List ℕ)) → IsUniverse s.labels → HasTextsOver a s.labels
        → IsSpaceComplete a s (coverage_matchers s c)
        → IsHandedTo (IsSetOf s) c path children
        → IsHandedTo (IsAlertOf a s) c path children }
{}
