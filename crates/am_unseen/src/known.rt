//! Whose label sets are known: those of firing alerts, or those that alerting rules fix.

ghost use Rattle.std.specs.Prelude.{◌≡◌, option_map};
ghost use Rattle.am_unseen.specs.Known.{is_told, known_of, known_text};

use am_list_files::Alerts;
use am_universe::LabelSet;

/// Whose label sets are known.
#[derive(Clone, Copy, PartialEq, Eq, Drop)]
pub(crate) enum Known {
    Alerts,
    Rules,
    Both,
}

impl Known {
    /// Whose label sets are known, given those of the firing alerts and those that alerting rules
    /// fix.
    pub(crate) fn of(alerts: &Alerts, rules: &[LabelSet]) -> Known
        ensures { result ≡ known_of alerts.now rules.now }
    {
        if rules.is_empty() {
            Known::Alerts
        } else if alerts.is_empty() {
            Known::Rules
        } else {
            Known::Both
        }
    }

    /// What has them, as a line says it.
    pub(crate) fn text(self) -> &'static str
        ensures { result.now ≡ known_text self }
    {
        match self {
            Known::Alerts => "alert",
            Known::Rules => "rule",
            Known::Both => "alert or rule",
        }
    }

    /// Whether an unseen name or value is told, by the most similar one that is known.
    pub(crate) fn tells(self, similar: Option<&str>) -> bool
        ensures { result ≡ is_told self (option_map (λ s. s.now) similar.entry) }
    {
        match self {
            Known::Rules => similar.is_some(),
            Known::Alerts | Known::Both => true,
        }
    }
}
