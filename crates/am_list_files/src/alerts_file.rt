//! Reading an export of alerts.

ghost use Rattle.std.specs.Prelude.{IfOk, IfErr};
ghost use Rattle.serde_json.specs.View.{view};
ghost use Rattle.am_universe.specs.declared.place.Place.TheVariants as places;
ghost use Rattle.am_universe.specs.LabelSet.{with_value};
ghost use Rattle.am_json.specs.Reading.{Gives, IsRefusalAt, accept};
ghost use Rattle.am_list_files.specs.AlertsFile.{FileSaysAlerts};
ghost use Rattle.am_list_files.specs.AlertsForm.{IsFirstFaultOfAlertsFile};
ghost use Rattle.am_list_files.specs.AlertsForm.{next_label_form, alert_labels_form};
ghost use Rattle.am_list_files.specs.AlertsForm.{alert_form, alerts_form, alerts_file_form};

use crate::alert::Alerts;
use crate::limits::{MAX_ALERT_LABELS, MAX_ALERTS};
use crate::matcher::read_named_text;
use am_json::{
    ReadError, as_object, check_count, read_each_member, read_items_or_null, read_json,
    required_field, within_field,
};
use am_universe::{Fault, LabelSet, Place};
use serde_json::Value;
use std::alloc::Global;

/// Reads an export of alerts, as `amtool alert query -o json` writes it; `null` has no alerts.
///
/// A field that is `null` is absent. Other fields than `labels` are ignored, the status among them.
/// A label with the empty value counts as missing. Fails with the first fault of the file, at the
/// place `Alerts`, with the pointer to the part at fault:
/// - `Limit`: more than `MAX_FILE_BYTES` bytes, [`MAX_ALERTS`] alerts or [`MAX_ALERT_LABELS`]
///   labels of an alert;
/// - `NotJson`: the bytes have no JSON value;
/// - `Shape`: a value is not of its kind, or a required field is absent;
/// - `Empty`: a label's name is the empty text.
///
/// If memory runs out, the fault is `Memory`, at the place `Memory`, with the empty pointer.
pub fn read_alerts(alloc: Global, bytes: &[u8]) -> Result<Alerts, Fault>
    ensures says { IfOk result (λ alerts. FileSaysAlerts bytes.now alerts) }
    ensures first { IfErr result (IsRefusalAt places.Alerts (IsFirstFaultOfAlertsFile bytes.now)) }
{
    match read_alerts_file(alloc, bytes) {
        Ok(alerts) => Ok(alerts),
        Err(error) => Err(error.at(alloc, Place::Alerts)),
    }
}

#[tactic(auto, using(am_json::proofs::Readings::steps), unfolding(crate::specs::AlertsForm::alerts_file_form))]
fn read_alerts_file(alloc: Global, bytes: &[u8]) -> Result<Alerts, ReadError>
    ensures { Gives (λ alerts. alerts) result (alerts_file_form bytes.now) }
{
    let value = read_json(alloc, bytes)?;
    read_alerts_value(alloc, &value)
}

fn read_alerts_value(alloc: Global, value: &Value) -> Result<Alerts, ReadError>
    ensures { Gives (λ alerts. alerts) result (alerts_form (view value.now)) }
{
    let alerts = read_items_or_null(alloc, value, MAX_ALERTS, |item| read_alert(alloc, item))?;
    Ok(Alerts { alerts })
}

#[tactic(auto, using(am_json::proofs::Readings::steps), unfolding(crate::specs::AlertsForm::alert_form))]
fn read_alert(alloc: Global, value: &Value) -> Result<LabelSet, ReadError>
    ensures { Gives (λ s. s) result (alert_form (view value.now)) }
{
    as_object(alloc, value)?;
    let labels = required_field(alloc, value, "labels")?;
    within_field(alloc, "labels", read_alert_labels(alloc, labels))
}

#[tactic(auto, using(am_json::proofs::Readings::steps, am_json::proofs::Values::members_long), unfolding(crate::specs::AlertsForm::alert_labels_form))]
fn read_alert_labels(alloc: Global, value: &Value) -> Result<LabelSet, ReadError>
    ensures { Gives (λ s. s) result (alert_labels_form (view value.now)) }
{
    let members = as_object(alloc, value)?;
    check_count(alloc, MAX_ALERT_LABELS, members.len())?;
    let none = LabelSet::empty(alloc);
    read_each_member(none, members, |before, name, value| {
        read_next_alert_label(alloc, before, name, value)
    })
}

/// Reads a label, and adds it to those before it.
#[tactic(auto, using(am_json::proofs::Readings::steps), unfolding(crate::specs::AlertsForm::next_label_form))]
fn read_next_alert_label(
    alloc: Global,
    before: LabelSet,
    name: &str,
    value: &Value,
) -> Result<LabelSet, ReadError>
    ensures { Gives (λ s. s) result (next_label_form before (name.now, view value.now)) }
{
    let text = within_field(alloc, name, read_named_text(alloc, name, value))?;
    with_label(alloc, before, name, text)
}

/// Adds a label. Fails only if memory runs out.
fn with_label(
    alloc: Global,
    before: LabelSet,
    name: &str,
    text: &str,
) -> Result<LabelSet, ReadError>
    ensures { Gives (λ s. s) result (accept (with_value before name.now text.now)) }
{
    let name = String::from_str(alloc, name)?;
    let text = String::from_str(alloc, text)?;
    let mut labels = before;
    labels.put(name, text)?;
    Ok(labels)
}
