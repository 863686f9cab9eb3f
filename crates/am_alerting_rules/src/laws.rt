//! Facts about the form of rules files, for every JSON value and all bytes, and about the alerts of
//! rules.

ghost use Rattle.std.specs.Prelude.{◌≡◌, ◌≢◌, ◌↔◌, ℕ, List, [], map, None};
ghost use Rattle.std.specs.List.{AllByRecursion, IsDistinct};
ghost use Rattle.serde_json.specs.Data.{Data};
ghost use Rattle.am_universe.specs.LabelSet.{LabelMap};
ghost use Rattle.am_universe.specs.Text.{same_text};
ghost use Rattle.am_json.specs.Objections.{first_fault};
ghost use Rattle.am_json.specs.Pointer.{Refusal};
ghost use Rattle.am_json.specs.Reading.{MayRefuse};
ghost use Rattle.am_json.specs.ReadingLaw.{IsReadExactly};
ghost use Rattle.am_alerting_rules.specs.RulesFile.{AlertingRule, HasNames};
ghost use Rattle.am_alerting_rules.specs.RulesFile.{SaysRules, FileSaysRules};
ghost use Rattle.am_alerting_rules.specs.RulesForm.{rules_form, rules_file_form};
ghost use Rattle.am_alerting_rules.specs.RulesForm.{IsFirstFaultOfRules};
ghost use Rattle.am_alerting_rules.specs.RulesForm.{IsFirstFaultOfRulesFile};
ghost use Rattle.am_alerting_rules.specs.RuleAlerts.{fixed_labels, IsAlertOfRule};
ghost use Rattle.am_alerting_rules.specs.RuleTexts.{HasUtf8Texts};
ghost use Rattle.am_alerting_rules.specs.RulesExample.{rules_example, example_rules};
ghost use Rattle.am_alerting_rules.specs.RulesExample.{example_alert, other_alert, disk_full};
ghost use Rattle.am_alerting_rules.specs.FaultExamples.{rule_faults};

/// A JSON value says alerting rules exactly if reading it gives them.
///
/// So it says at most one list of rules, which may be empty. If reading refuses the value, it does
/// so for the first fault of all that there is to object to. The value says rules exactly if none
/// of that is a fault.
pub fn rules_are_read()
    ensures read { IsReadExactly SaysRules rules_form IsFirstFaultOfRules }
    ensures sound { (d : Data) → ((rules : List AlertingRule) × SaysRules d rules)
        ↔ (first_fault (rules_form d).objections ≡ None) }
{}

/// The bytes of a rules file say alerting rules exactly if reading them gives them, and reading
/// refuses them only for their first fault.
pub fn rules_files_are_read()
    ensures read { IsReadExactly FileSaysRules rules_file_form IsFirstFaultOfRulesFile }
    ensures refused { (bytes : List ℕ) (r : Refusal) → MayRefuse (rules_file_form bytes) r
        → IsFirstFaultOfRulesFile bytes r }
{}

/// The names of the rules of a rules file, and the texts of their labels, are UTF-8, since JSON
/// text is.
pub fn texts_of_rules_files_are_utf8()
    ensures utf8 { (bytes : List ℕ) (rules : List AlertingRule) → FileSaysRules bytes rules
        → AllByRecursion HasUtf8Texts rules }
{}

/// The labels that the alerts of a rule have for certain have distinct names, and none is empty.
pub fn fixed_labels_have_distinct_names()
    ensures distinct { (r : AlertingRule)
        → IsDistinct same_text (map (λ l. l.0) (fixed_labels r)) }
    ensures named { (r : AlertingRule) → HasNames r
        → AllByRecursion (λ l. l.0 ≢ []) (fixed_labels r) }
{}

/// An example: two groups with an alerting rule that has a template, an `alertname` of its own and
/// the labels of its group below its own, one without labels, and a recording rule.
pub fn an_example_of_rules()
    ensures says { SaysRules rules_example example_rules }
    ensures alert { IsAlertOfRule disk_full example_alert }
    ensures no_alert { ¬ IsAlertOfRule disk_full other_alert }
{}

/// Examples of first faults.
pub fn faults_of_rules_by_example()
    ensures faults { map (λ example. first_fault (rules_form example.0).objections) rule_faults
        ≡ map (λ example. example.1) rule_faults }
{}
