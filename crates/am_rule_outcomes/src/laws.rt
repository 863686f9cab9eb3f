//! Facts about the definitions alone: each is the contract of a function with an empty body.
//!
//! Each alert of a rule meets the same matchers as some choice of the narrowed universe. The label
//! set that is shown for a choice is an alert of the rule, and meets the same matchers as the
//! choice.

ghost use Rattle.std.specs.Prelude.{◌≡◌, ℕ, List, map, Bool, option_map};
ghost use Rattle.std.specs.List.{AllByRecursion};
ghost use Rattle.am_universe.specs.Universe.{Label};
ghost use Rattle.am_universe.specs.LabelSet.{LabelMap};
ghost use Rattle.am_labels.specs.Matcher.{Matcher};
ghost use Rattle.am_labels.specs.Space.{Space};
ghost use Rattle.am_list_files.specs.AlertsFile.{labels_of};
ghost use Rattle.am_config.specs.ConfigFile.{Configuration};
ghost use Rattle.am_classes.specs.declared.alphabet.Alphabet.{Alphabet};
ghost use Rattle.am_complete.specs.AskedLabel.{AskedLabel};
ghost use Rattle.am_every_alert.specs.EveryAlert.{MeetsTheSame};
ghost use Rattle.am_every_alert.specs.Deciding.{space_of};
ghost use Rattle.am_outcomes.specs.Configurations.{Configurations, Silenced};
ghost use Rattle.am_outcomes.specs.Outcomes.{AreOutcomesOf, is_silenced_by, outcome_of};
ghost use Rattle.am_alerting_rules.specs.RulesFile.{AlertingRule, HasNames};
ghost use Rattle.am_alerting_rules.specs.RuleTexts.{HasUtf8Texts};
ghost use Rattle.am_rule_outcomes.specs.Narrowed.{narrowed_outcomes};
ghost use Rattle.am_rule_outcomes.specs.Narrowing.{rule_narrowing};
ghost use Rattle.am_rule_outcomes.specs.ReceiverOutcomes.{receiver_outcomes};
ghost use Rattle.am_rule_outcomes.specs.RuleOutcomes.{AreRuleOutcomes, IsRuleAlert};
ghost use Rattle.am_rule_outcomes.specs.RuleOutcomes.{rule_outcomes_shown, with_rule_outcomes};
ghost use Rattle.am_rule_outcomes.specs.StandsForOutcomes.{StandsForOutcomes, outcome_matchers};

/// If a universe stands for the outcomes of all alerts of a space, the outcomes of the universe
/// that is narrowed to a rule are exactly those of the alerts of the rule that count. If the
/// universe cannot be narrowed to the rule, the rule has no such alert.
///
/// Some matchers tell the outcome of an alert. Under silences, the receivers of the outcomes of a
/// rule are those to which its alerts go.
pub fn outcomes_of_a_narrowed_universe_are_those_of_the_rule()
    ensures outcomes { (a : Alphabet) (s : Space) (u : List Label) (asked : List AskedLabel)
        (k : Configurations) (r : AlertingRule) → StandsForOutcomes a s u asked k
        → HasNames r → HasUtf8Texts r → AreOutcomesOf (IsRuleAlert a s r) k labels_of
        (rule_outcomes_shown r (option_map (narrowed_outcomes (space_of s.impossible u) k)
        (rule_narrowing a asked u r))) }
    ensures each { (a : Alphabet) (s : Space) (u : List Label) (asked : List AskedLabel)
        (k : Configurations) (rules : List AlertingRule) → StandsForOutcomes a s u asked k
        → AllByRecursion HasNames rules → AllByRecursion HasUtf8Texts rules
        → AllByRecursion (λ rule. AreOutcomesOf (IsRuleAlert a s rule.0) k labels_of rule.1)
        (with_rule_outcomes rules
        (map (option_map (narrowed_outcomes (space_of s.impossible u) k))
        (map (rule_narrowing a asked u) rules))) }
    ensures told { (k : Configurations) (x y : LabelMap) → MeetsTheSame (outcome_matchers k) x y
        → outcome_of k x ≡ outcome_of k y }
    ensures receivers { (a : Alphabet) (s : Space) (r : AlertingRule) (c : Configuration)
        (silences : List (ℕ × List Matcher)) (is_silenced : LabelMap → Bool)
        → ((x : LabelMap) → is_silenced x ≡ is_silenced_by x silences)
        → (outcomes : List (List (List ℕ) × List (List ℕ × List ℕ)))
        → AreOutcomesOf (IsRuleAlert a s r) (Silenced c silences) labels_of outcomes
        → AreRuleOutcomes (IsRuleAlert a s r) c is_silenced (receiver_outcomes outcomes) }
{}
