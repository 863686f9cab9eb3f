//! Facts about the definitions alone: each is the contract of a function with an empty body.
ghost use Rattle.std.specs.Prelude.{ℕ, ℤ, List, Option, Some, IsTrue, IsFalse};
ghost use Rattle.am_universe.specs.Universe.{Label};
ghost use Rattle.am_universe.specs.LabelSet.{LabelMap, label_set_of};
ghost use Rattle.am_labels.specs.Matcher.{Matcher};
ghost use Rattle.am_labels.specs.Space.{Space, IsChoiceOf};
ghost use Rattle.am_list_files.specs.SilencesFile.{Silence};
ghost use Rattle.am_config.specs.ConfigFile.{Rule};
ghost use Rattle.am_eval.specs.World.{World};
ghost use Rattle.am_eval.specs.Silencing.{is_active, hides, at_instant};
ghost use Rattle.am_classes.specs.declared.alphabet.Alphabet.{Alphabet};
ghost use Rattle.am_every_alert.specs.EveryAlert.{IsAlertOf, MeetsTheSame};
ghost use Rattle.am_idle.specs.declared.silences.SilenceFinding.TheVariants as finding_is;
ghost use Rattle.am_every_alert.specs.Deciding.{space_of};
ghost use Rattle.am_idle.specs.Lists.{listed_matchers, StandsForLists};
ghost use Rattle.am_idle.specs.NamedAlerts.{IsNamedAlert};
ghost use Rattle.am_idle.specs.Silences.{IsSilenceFinding};
ghost use Rattle.am_idle.specs.declared.rules.IdleReason.{IdleReason};
ghost use Rattle.am_idle.specs.Rules.{MayMeet, IsWhyNone, IsIdle};

/// A universe that stands for some lists of matchers stands for every alert. Each alert of the
/// space over the alphabet, whatever labels it has, meets the same matchers of the lists as the
/// label set of some choice. The label set of each choice is such an alert.
pub fn a_universe_for_lists_stands_for_every_alert()
    ensures choice { (a : Alphabet) (s : Space) (lists : List (List Matcher)) (u : List Label)
        (alert : LabelMap) → StandsForLists a s lists u → IsAlertOf a s alert
        → (choice : List ℕ) × IsChoiceOf (space_of s.impossible u) choice
        × MeetsTheSame (listed_matchers lists) (label_set_of u choice) alert }
    ensures alert { (a : Alphabet) (s : Space) (lists : List (List Matcher)) (u : List Label)
        (choice : List ℕ) → StandsForLists a s lists u
        → IsChoiceOf (space_of s.impossible u) choice → IsAlertOf a s (label_set_of u choice) }
{}

/// An idle silence hides no alert of the space over the alphabet, at any instant. A silence that is
/// found to be `All` hides each ordinary alert of the space that has an alertname, at each instant
/// at which it is active. These alerts count over each alphabet.
pub fn an_idle_silence_hides_no_alert()
    ensures idle { (a : Alphabet) (s : Space) (w : World) (alerts : Option (List LabelMap))
        (silence : Silence) (instant : ℤ) (alert : LabelMap)
        → IsSilenceFinding a s w alerts silence (Some finding_is.Idle) → IsAlertOf a s alert
        → IsFalse (hides (at_instant w instant) alert silence) }
    ensures all { (a : Alphabet) (s : Space) (w : World) (alerts : Option (List LabelMap))
        (silence : Silence) (instant : ℤ) (alert : LabelMap)
        → IsSilenceFinding a s w alerts silence (Some finding_is.All) → IsNamedAlert s alert
        → IsTrue (is_active (Some instant) silence)
        → IsTrue (hides (at_instant w instant) alert silence) }
    ensures count { (a : Alphabet) (s : Space) (alert : LabelMap)
        → IsNamedAlert s alert → IsAlertOf a s alert }
{}

/// The reason that is given for an idle rule shows that it is idle: no alert inhibits another by
/// it. Either matchers of its sides contradict each other, or any two alerts that match one side
/// each both match both sides.
pub fn a_reason_shows_that_a_rule_is_idle()
    ensures idle { (a : Alphabet) (s : Space) (rule : Rule) (reason : IdleReason)
        → IsWhyNone (MayMeet a s rule) rule reason → IsIdle a s rule }
{}
