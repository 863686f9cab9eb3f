//! Alerting rules, as they are kept in memory.

// Each `impl Model` has imports of its own. None is from a module that uses these types.
ghost use Rattle.std.specs.Prelude.{◌≡◌, ◌≢◌, ◌==◌, [], ◌∷◌, ◌++◌, length, map, IfOk};
ghost use Rattle.std.specs.List.{AllByRecursion, IsDistinct, list_any};
ghost use Rattle.am_universe.specs.Text.{same_text};
ghost use Rattle.am_list_files.specs.AlertsFile.{labels_of};
ghost use Rattle.am_alerting_rules.specs.RuleAlerts.{fixed_labels, is_template};
ghost use Rattle.am_alerting_rules.specs.RuleView.{pairs_view};

use am_universe::LabelSet;
use std::alloc::{AllocError, Global};
use std::marker::Model;

/// The label that has the name of its alerting rule.
pub const ALERT_NAME: &str = "alertname";

/// A label that an alerting rule sets: its name, and its text, which may be a template.
#[derive(Drop)]
pub struct RuleLabel {
    pub(crate) name: String,
    pub(crate) text: String,
}

/// The labels of a rule, or of a group.
#[derive(Drop)]
pub(crate) struct RuleLabels {
    pub(crate) labels: Vec<RuleLabel>,
}

/// An alerting rule, with the labels of its group.
#[derive(Drop)]
pub struct AlertingRule {
    pub(crate) group: String,
    pub(crate) name: String,
    pub(crate) labels: Vec<RuleLabel>,
}

/// Alerting rules, in the order of their file.
#[derive(Drop)]
pub struct AlertingRules {
    pub(crate) rules: Vec<AlertingRule>,
}

impl Model for RuleLabel {
    ghost use Rattle.std.specs.Prelude.{ℕ, List, string_bytes};

    ghost Value = { List ℕ × List ℕ };

    ghost view = { λ l. (string_bytes l.name, string_bytes l.text) };
}

impl Model for RuleLabels {
    ghost use Rattle.std.specs.Prelude.{◌≢◌, ℕ, List, []};
    ghost use Rattle.std.specs.List.{AllByRecursion};

    ghost Value = { List (List ℕ × List ℕ) };

    ghost view = { λ l. l.labels.items };

    ghost invariant = { λ l. AllByRecursion (λ label. label.0 ≢ []) l.labels.items };
}

impl Model for AlertingRule {
    ghost use Rattle.std.specs.Prelude.{string_bytes};
    ghost use Rattle.am_alerting_rules.specs.RulesFile as spec;

    ghost Value = { spec.AlertingRule };

    ghost view = { λ r. record {
      group = string_bytes r.group;
      name = string_bytes r.name;
      labels = r.labels.items;
    } };

    ghost invariant = { λ r. spec.HasNames (record {
      group = string_bytes r.group;
      name = string_bytes r.name;
      labels = r.labels.items;
    }) };
}

impl Model for AlertingRules {
    ghost use Rattle.std.specs.Prelude.{List};
    ghost use Rattle.am_alerting_rules.specs.RulesFile as spec;

    ghost Value = { List spec.AlertingRule };

    ghost view = { λ r. r.rules.items };
}

impl RuleLabel {
    /// The name of the label, which is not empty.
    pub fn name(&self) -> &str
        ensures name { result.now ≡ self.now.0 }
    {
        self.name.as_str()
    }

    /// Its text. If it has `{{`, it is a template, and an alert may have any text there.
    pub fn text(&self) -> &str
        ensures text { result.now ≡ self.now.1 }
    {
        self.text.as_str()
    }
}

impl RuleLabels {
    /// No labels. It keeps the allocator.
    pub(crate) fn none(alloc: Global) -> RuleLabels
        ensures none { result ≡ [] }
    {
        RuleLabels {
            labels: Vec::new(alloc),
        }
    }

    /// The labels, in their order.
    pub(crate) fn as_slice(&self) -> &[RuleLabel]
        ensures labels { result.now ≡ self.now }
        ensures named { AllByRecursion (λ l. l.0 ≢ []) result.now }
    {
        self.labels.as_slice()
    }

    /// Adds a label, behind the others. Fails only if memory runs out.
    pub(crate) fn push(&mut self, alloc: Global, name: &str, text: &str) -> Result<(), AllocError>
        requires named { name.now ≢ [] }
        ensures pushed { IfOk result (λ _. self.new ≡ self.old ++ (name.now, text.now) ∷ []) }
    {
        let label = RuleLabel {
            name: String::from_str(alloc, name)?,
            text: String::from_str(alloc, text)?,
        };
        self.labels.push(label)?;
        Ok(())
    }
}

impl AlertingRule {
    /// The name of the group that has the rule.
    pub fn group(&self) -> &str
        ensures group { result.now ≡ self.now.group }
    {
        self.group.as_str()
    }

    /// The name of the rule, which is not empty. Its alerts have it as `alertname`.
    pub fn name(&self) -> &str
        ensures name { result.now ≡ self.now.name }
        ensures some { result.now ≢ [] }
    {
        self.name.as_str()
    }

    /// The labels that the rule sets, templates included: those of the rule itself in the order of
    /// the bytes of their names, and then those of its group that it does not set, in that order.
    /// No name is empty.
    pub fn labels(&self) -> &[RuleLabel]
        ensures labels { result.now ≡ self.now.labels }
        ensures named { AllByRecursion (λ l. l.0 ≢ []) result.now }
    {
        self.labels.as_slice()
    }

    /// Returns the labels that all alerts of the rule have with the same text: `alertname`, and
    /// then each other label that the rule sets to a text that is no template. The empty text means
    /// that the label is missing. The names are distinct, and none is empty. Fails only if memory
    /// runs out.
    pub fn fixed_labels(&self, alloc: Global) -> Result<Vec<(&str, &str)>, AllocError>
        ensures labels { IfOk result (λ found. pairs_view found.items ≡ fixed_labels self.now) }
        ensures distinct { IfOk result (λ found.
            IsDistinct same_text (map (λ l. l.0) (pairs_view found.items))) }
        ensures named { IfOk result (λ found.
            AllByRecursion (λ l. l.0 ≢ []) (pairs_view found.items)) }
    {
        let mut found = vec![in alloc; (ALERT_NAME, self.name())]?;
        for label in self.labels() {
            if !is_template(label.text()) && !has_name(found.as_slice(), label.name()) {
                found.push((label.name(), label.text()))?;
            }
        }
        Ok(found)
    }

    /// Returns the label set of an alert of the rule that has these labels alone. Fails only if
    /// memory runs out.
    pub fn fixed_set(&self, alloc: Global) -> Result<LabelSet, AllocError>
        ensures set { IfOk result (λ set. set ≡ labels_of (fixed_labels self.now)) }
    {
        let fixed = self.fixed_labels(alloc)?;
        let mut set = LabelSet::empty(alloc);
        for label in &fixed {
            set.put(
                String::from_str(alloc, label.0)?,
                String::from_str(alloc, label.1)?,
            )?;
        }
        Ok(set)
    }
}

/// Whether a text is a template: it has `{{`, with which each action of a template begins.
fn is_template(text: &str) -> bool
    ensures { result ≡ is_template text.now }
{
    text.contains("{{")
}

/// Whether one of some labels has a name.
fn has_name(labels: &[(&str, &str)], name: &str) -> bool
    ensures { result ≡ list_any (λ l. same_text l.0 name.now) (pairs_view labels.now) }
{
    labels.iter().any(|label| label.0 == name)
}

impl AlertingRules {
    /// How many there are.
    pub fn len(&self) -> usize
        ensures count { result ≡ length self.now }
    {
        self.rules.len()
    }

    /// Whether there are none.
    pub fn is_empty(&self) -> bool
        ensures empty { result ≡ (length self.now == 0) }
    {
        self.rules.is_empty()
    }

    /// The rules, in the order of the file.
    pub fn as_slice(&self) -> &[AlertingRule]
        ensures rules { result.now ≡ self.now }
    {
        self.rules.as_slice()
    }
}
