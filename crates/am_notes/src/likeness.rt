//! The kind of file that a JSON value looks like.

use crate::groups::begins_with_group;
use am_universe::Place;
use serde_json::Value;

/// What a file looks like, by its outermost fields alone.
#[derive(Clone, Copy, Debug, PartialEq, Eq)]
pub(crate) enum Likeness {
    Universe,
    Config,
    Silences,
    Alerts,
    /// Groups of alerts. A reader takes each group for one alert, with the labels of the group.
    Groups,
    /// The answer of an HTTP API, which has the records in a field.
    ApiAnswer,
    Rules,
    /// The answer of Prometheus that has the groups of its rules.
    RulesAnswer,
    /// A resource of Kubernetes that has the groups of a rules file.
    RulesResource,
}

impl Likeness {
    /// What a JSON value looks like, if that can be told.
    pub(crate) fn of(value: &Value) -> Option<Likeness> {
        if begins_with_group(value) {
            return Some(Likeness::Groups);
        }
        match value.as_array() {
            Some(items) => Likeness::of_record(items.first()?),
            None => Likeness::of_object(value),
        }
    }

    /// What a list looks like if it begins with this record.
    fn of_record(first: &Value) -> Option<Likeness> {
        if has_field(first, "labels") {
            Some(Likeness::Alerts)
        } else if has_field(first, "matchers") {
            Some(Likeness::Silences)
        } else {
            None
        }
    }

    fn of_object(value: &Value) -> Option<Likeness> {
        if has_field(value, "route") {
            Some(Likeness::Config)
        } else if has_field(value, "labels") {
            Some(Likeness::Universe)
        } else if has_field(value, "groups") {
            Some(Likeness::Rules)
        } else if has_groups_in(value, "data") {
            Some(Likeness::RulesAnswer)
        } else if has_groups_in(value, "spec") {
            Some(Likeness::RulesResource)
        } else if has_field(value, "data") {
            Some(Likeness::ApiAnswer)
        } else {
            None
        }
    }

    /// Whether a file that looks like this belongs at this place.
    pub(crate) fn belongs_at(self, place: Place) -> bool {
        match self {
            Likeness::Universe => place == Place::Universe,
            Likeness::Config => matches!(place, Place::Config | Place::Old | Place::New),
            Likeness::Silences => place == Place::Silences,
            Likeness::Alerts => place == Place::Alerts,
            Likeness::Rules => place == Place::Rules,
            Likeness::Groups
            | Likeness::ApiAnswer
            | Likeness::RulesAnswer
            | Likeness::RulesResource => false,
        }
    }

    /// The words for it in a note on the file at this place.
    pub(crate) fn text(self, place: Place) -> &'static str {
        match self {
            Likeness::Universe => "a universe",
            Likeness::Config => "a configuration",
            Likeness::Silences => "an export of silences",
            Likeness::Alerts => "an export of alerts",
            Likeness::Groups if place == Place::Alerts => {
                "an export of groups; amtool alert query -a -s -i -u -o json exports alerts"
            }
            Likeness::Groups => "an export of groups",
            Likeness::ApiAnswer => "an answer of an HTTP API, not an export of amtool",
            Likeness::Rules => "a rules file",
            Likeness::RulesAnswer => {
                "an answer of /api/v1/rules; jq '{groups: [.data.groups[] | {name, rules: \
                [.rules[] | select(.type == \"alerting\") | {alert: .name, labels}]}]}' \
                makes a rules file of it"
            }
            Likeness::RulesResource => "a PrometheusRule; jq .spec makes a rules file of it",
        }
    }
}

fn has_field(value: &Value, name: &str) -> bool {
    value.get(name).is_some()
}

/// Whether a field of a value has the field `groups`.
fn has_groups_in(value: &Value, name: &str) -> bool {
    match value.get(name) {
        Some(inner) => has_field(inner, "groups"),
        None => false,
    }
}
