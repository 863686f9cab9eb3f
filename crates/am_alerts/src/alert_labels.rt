//! The labels of all alerts, sorted, so that a matcher is tried once on each value of its label.
//!
//! To test a pattern on a text takes far longer than to look at an alert, and most alerts share the
//! values of a label with others. So the labels with one name and one value stand in a row, and
//! all alerts of a row are looked at only if its value fails. A name or a value is known by its
//! place among all of them, because there may be many matchers and alerts, and a text may be
//! anywhere in memory.

ghost use Rattle.std.specs.Prelude.{◌≡◌, ◌++◌, ◌≤◌, ◌<◌, ℕ, List, length, map};
ghost use Rattle.std.specs.Prelude.{slice_get, Some, IfSome, IfNone, false};
ghost use Rattle.std.specs.Prelude.{IfOk, slice_range};
ghost use Rattle.std.specs.Prelude.{◌&&◌, ◌||◌, not, All, OnOk, true, replicate};
ghost use Rattle.std.specs.List.{list_any};
ghost use Rattle.std.specs.List.Sorted.{IsNonDecreasingBy};
ghost use Rattle.am_universe.specs.LabelSet.{LabelMap, value_of};
ghost use Rattle.am_labels.specs.Matcher.{all_hold};
ghost use Rattle.am_config.specs.RouteView.{names_of};
ghost use Rattle.am_eval.specs.Inhibition.{have_equal};
ghost use Rattle.am_alerts.specs.declared.alert_labels.AlertLabel.{AlertLabel};
ghost use Rattle.am_alerts.specs.Judge.{passes, text_at, IsSound};
ghost use Rattle.am_alerts.specs.AlertLabels.{label_view, labels_of, all_labels};
ghost use Rattle.am_alerts.specs.AlertLabels.{HasText, HasPlace, HasNamePlace};
ghost use Rattle.am_alerts.specs.AlertLabels.{AreDistinct, HavePlace, Tile};
ghost use Rattle.am_alerts.specs.AlertLabels.{is_at, all_pass};
ghost use Rattle.am_alerts.specs.AlertLabels.{IsRangeOf, AreNameRows};
ghost use Rattle.am_alerts.specs.AlertLabels.{AreSorted, AreTruths, Keeps, flag};

use crate::judge::{Judge, ValueTest, judge_for};
use am_labels::Matchers;
use am_list_files::Alerts;
use am_universe::LabelSet;
use indexmap::IndexSet;
use std::alloc::{AllocError, Global};
use std::marker::Model;

/// A label of an alert.
#[derive(Clone, Copy, Drop)]
pub(crate) struct AlertLabel<'w> {
    pub(crate) name: &'w str,
    pub(crate) value: &'w str,
    /// The position of the alert.
    pub(crate) alert: usize,
    /// The place of the name among all names.
    pub(crate) name_place: usize,
    /// The place of the value among all values.
    pub(crate) place: usize,
}

/// A row of labels with one name and one value.
#[derive(Clone, Copy, Drop)]
pub(crate) struct Row {
    /// The position after its last label.
    pub(crate) end: usize,
    /// The place of the value among all values.
    pub(crate) place: usize,
    /// The position of the alert of its first label.
    pub(crate) first: usize,
}

/// Where the labels of a name are.
#[derive(Drop)]
pub(crate) struct NameRows<'w> {
    pub(crate) name: &'w str,
    /// The positions of the first one, and of the one after the last.
    pub(crate) range: (usize, usize),
    /// Their rows, in order. They stand close together in memory, because all of them are gone
    /// through for each matcher of this name.
    pub(crate) rows: Vec<Row>,
}

/// Some alerts, and their labels, sorted.
#[derive(Drop)]
pub(crate) struct SortedLabels<'w> {
    pub(crate) alerts: &'w Alerts,
    /// By the places of their names, and those of a name by the places of their values.
    pub(crate) labels: Vec<AlertLabel<'w>>,
    /// For each label, the position of its alert.
    pub(crate) positions: Vec<usize>,
    /// The names of all labels, and the values, each once.
    pub(crate) names: IndexSet<&'w str>,
    pub(crate) values: IndexSet<&'w str>,
    /// For each name, its rows.
    pub(crate) rows: Vec<NameRows<'w>>,
}

/// The labels of some alerts, sorted.
#[derive(Drop)]
pub(crate) struct AlertLabels<'w> {
    sorted: SortedLabels<'w>,
}

impl<'w> Model for AlertLabels<'w> {
    ghost use Rattle.std.specs.Prelude.{List};
    ghost use Rattle.std.specs.Coded.{coded_list};
    ghost use Rattle.am_universe.specs.LabelSet.{LabelMap};
    ghost use Rattle.am_universe.specs.LabelSetView.{label_map_code};
    ghost use Rattle.am_alerts.specs.AlertLabels.{AreSorted};

    ghost Value = { List LabelMap };

    ghost coded = { coded_list label_map_code };

    ghost view = { λ a. a.sorted.alerts.now };

    ghost invariant = { λ a. AreSorted a.sorted };
}

impl<'w> AlertLabels<'w> {
    /// Sorts the labels of some alerts. Fails only if memory runs out.
    pub(crate) fn of(alloc: Global, alerts: &'w Alerts) -> Result<AlertLabels<'w>, AllocError>
        ensures alerts { IfOk result (λ labels. labels ≡ alerts.now) }
    {
        let mut names = IndexSet::new(alloc);
        let mut values = IndexSet::new(alloc);
        let mut labels = labels_of(alloc, alerts, &mut names, &mut values)?;
        labels.sort_unstable_by_key(|label| label.place);
        labels.sort_by_key(|label| label.name_place)?;
        let positions = positions_in(alloc, labels.as_slice())?;
        let rows = all_rows(alloc, names.as_slice(), labels.as_slice())?;
        let sorted = SortedLabels {
            alerts,
            labels,
            positions,
            names,
            values,
            rows,
        };
        Ok(AlertLabels { sorted })
    }

    /// The alerts.
    pub(crate) fn alerts(&self) -> &'w Alerts
        ensures alerts { result.now ≡ self.now }
    {
        self.sorted.alerts
    }

    /// All alerts, as a truth for each. Fails only if memory runs out.
    pub(crate) fn all(&self, alloc: Global) -> Result<Vec<bool>, AllocError>
        ensures all { IfOk result (λ all. all.items ≡ replicate (length self.now) true) }
    {
        vec![in alloc; true; self.sorted.alerts.len()]
    }

    /// Returns which alerts match a list of matchers, as a truth for each. Fails only if memory
    /// runs out.
    pub(crate) fn matching(
        &self,
        alloc: Global,
        matchers: &Matchers,
    ) -> Result<Vec<bool>, AllocError>
        ensures matching { IfOk result (λ matching.
            AreTruths self.now (λ s. all_hold s matchers.now) matching.items) }
    {
        let all = self.all(alloc)?;
        self.matched(alloc, matchers, all.as_slice())
    }

    /// Returns which of some alerts match a list of matchers, as a truth for each alert. A matcher
    /// is prepared only if some of these alerts match those before it, and unless the one before it
    /// makes the same test. Fails only if memory runs out.
    pub(crate) fn matched(
        &self,
        alloc: Global,
        matchers: &Matchers,
        among: &[bool],
    ) -> Result<Vec<bool>, AllocError>
        requires { length among.now ≡ length self.now }
        ensures matched { IfOk result (λ kept.
            Keeps self.now (λ s. all_hold s matchers.now) among.now kept.items) }
    {
        let sorted = &self.sorted;
        let mut left = among.to_vec(alloc)?;
        let mut last = None;
        for i in 0..matchers.len() {
            if !left.contains(&true) {
                return Ok(left);
            }
            let matcher = matchers.get(i);
            let mut judge = judge_for(alloc, matcher, last)?;
            left = kept(alloc, sorted, matcher.name(), &mut judge, left)?;
            last = Some((matcher, judge));
        }
        Ok(left)
    }

    /// Returns which of some alerts have the same values as a label set for these labels, as a
    /// truth for each alert. Fails only if memory runs out.
    pub(crate) fn equal_to(
        &self,
        alloc: Global,
        names: &[String],
        set: &LabelSet,
        among: &[bool],
    ) -> Result<Vec<bool>, AllocError>
        requires { length among.now ≡ length self.now }
        ensures equal { IfOk result (λ kept.
            Keeps self.now (λ s. have_equal (names_of names.now) set.now s) among.now kept.items) }
    {
        let mut left = among.to_vec(alloc)?;
        for name in names {
            let mut judge = Judge::of(alloc, ValueTest::Equal(set.get(name)));
            left = kept(alloc, &self.sorted, name, &mut judge, left)?;
        }
        Ok(left)
    }
}

/// Returns which of some alerts have a value that passes a test, for the label of this name. Where
/// the label is missing, the value is the empty text. Each value is tested once.
fn kept(
    alloc: Global,
    sorted: &SortedLabels<'_>,
    name: &str,
    judge: &mut Judge<'_>,
    among: Vec<bool>,
) -> Result<Vec<bool>, AllocError>
    requires sorted { AreSorted sorted.now }
    requires count { length among.items ≡ length sorted.now.alerts.now }
    requires sound { IsSound sorted.now.values.keys judge.old }
    ensures kept { IfOk result (λ kept. Keeps sorted.now.alerts.now
        (λ s. passes judge.old.test (value_of s name.now)) among.items kept.items) }
    ensures test { OnOk result (judge.new.test ≡ judge.old.test) }
    ensures sound { OnOk result (IsSound sorted.now.values.keys judge.new) }
{
    match known_rows(sorted, name) {
        Some(known) => kept_in(alloc, sorted, known, judge, among),
        None => {
            let none = NameRows {
                name,
                range: (0, 0),
                rows: Vec::new(alloc),
            };
            kept_in(alloc, sorted, &none, judge, among)
        }
    }
}

/// The same, by the rows of the labels of the name.
fn kept_in(
    alloc: Global,
    sorted: &SortedLabels<'_>,
    known: &NameRows<'_>,
    judge: &mut Judge<'_>,
    among: Vec<bool>,
) -> Result<Vec<bool>, AllocError>
    requires sorted { AreSorted sorted.now }
    requires rows { AreNameRows sorted.now.labels.items known.now }
    requires count { length among.items ≡ length sorted.now.alerts.now }
    requires sound { IsSound sorted.now.values.keys judge.old }
    ensures kept { IfOk result (λ kept. Keeps sorted.now.alerts.now
        (λ s. passes judge.old.test (value_of s known.now.name.now)) among.items kept.items) }
    ensures test { OnOk result (judge.new.test ≡ judge.old.test) }
    ensures sound { OnOk result (IsSound sorted.now.values.keys judge.new) }
{
    let range = known.range;
    let positions = &sorted.positions[range.0..range.1];
    let absent = judge.begin();
    let mut kept = those_judged(alloc, positions, absent, among)?;
    judge_all(sorted, known, judge, &mut kept)?;
    Ok(kept)
}

/// Returns which of some alerts are judged: those that have a label, whose positions are given, and
/// all of them if the empty text passes the test. If there are as many positions as alerts, each
/// alert must have the label. Fails only if memory runs out.
fn those_judged(
    alloc: Global,
    positions: &[usize],
    absent: bool,
    among: Vec<bool>,
) -> Result<Vec<bool>, AllocError>
    requires positions { All (λ p. p < length among.items) positions.now }
    requires each { length positions.now ≡ length among.items
        → (i : ℕ) → i < length among.items → is_at positions.now i ≡ true }
    ensures count { IfOk result (λ those. length those.items ≡ length among.items) }
    ensures those { IfOk result (λ those. (i : ℕ) → i < length among.items
        → flag those.items i
        ≡ (flag among.items i && (absent || is_at positions.now i))) }
{
    if absent || positions.len() == among.len() {
        Ok(among)
    } else {
        those_at(alloc, positions, among.as_slice())
    }
}

/// Returns those of some alerts that are at these positions. Fails only if memory runs out.
fn those_at(alloc: Global, positions: &[usize], among: &[bool]) -> Result<Vec<bool>, AllocError>
    requires { All (λ p. p < length among.now) positions.now }
    ensures count { IfOk result (λ those. length those.items ≡ length among.now) }
    ensures those { IfOk result (λ those. (i : ℕ)
        → flag those.items i ≡ (flag among.now i && is_at positions.now i)) }
{
    let mut those = vec![in alloc; false; among.len()]?;
    for position in positions {
        those[*position] = among[*position];
    }
    Ok(those)
}

/// Judges each row of the labels of a name, and drops the alerts of those that fail. Fails only if
/// memory runs out.
fn judge_all(
    sorted: &SortedLabels<'_>,
    known: &NameRows<'_>,
    judge: &mut Judge<'_>,
    kept: &mut [bool],
) -> Result<(), AllocError>
    requires sorted { AreSorted sorted.now }
    requires rows { AreNameRows sorted.now.labels.items known.now }
    requires count { length kept.old ≡ length sorted.now.alerts.now }
    requires sound { IsSound sorted.now.values.keys judge.old }
    ensures count { OnOk result (length kept.new ≡ length kept.old) }
    ensures judged { OnOk result ((i : ℕ) → flag kept.new i ≡ (flag kept.old i
        && all_pass judge.old.test
        (slice_range sorted.now.labels.items known.now.range.0 known.now.range.1) i)) }
    ensures test { OnOk result (judge.new.test ≡ judge.old.test) }
    ensures sound { OnOk result (IsSound sorted.now.values.keys judge.new) }
{
    let values = sorted.values.as_slice();
    let mut start = known.range.0;
    for row in &known.rows {
        let positions = &sorted.positions[start..row.end];
        judge_row(positions, values, row, judge, kept)?;
        start = row.end;
    }
    Ok(())
}

/// Drops the alerts at these positions, those of a row, unless its value passes a test. The value
/// is not looked at if none of them is left. Fails only if memory runs out.
fn judge_row(
    positions: &[usize],
    values: &[&str],
    row: &Row,
    judge: &mut Judge<'_>,
    kept: &mut [bool],
) -> Result<(), AllocError>
    requires positions { All (λ p. p < length kept.old) positions.now }
    requires place { row.now.place < length values.now }
    requires sound { IsSound values.now judge.old }
    ensures count { OnOk result (length kept.new ≡ length kept.old) }
    ensures judged { OnOk result ((i : ℕ) → flag kept.new i ≡ (flag kept.old i
        && (passes judge.old.test (text_at values.now row.now.place)
        || not (is_at positions.now i)))) }
    ensures test { OnOk result (judge.new.test ≡ judge.old.test) }
    ensures sound { OnOk result (IsSound values.now judge.new) }
{
    if may_be_left(kept, row.first, positions) && !judge.passes(values, row.place)? {
        drop_all(positions, kept);
    }
    Ok(())
}

/// Whether one of some alerts may be at one of these positions, those of a row. The positions are
/// not read if the first alert of the row is among these alerts, as it mostly is.
fn may_be_left(among: &[bool], first: usize, positions: &[usize]) -> bool
    requires { All (λ p. p < length among.now) positions.now }
    ensures none { result ≡ false → list_any (flag among.now) positions.now ≡ false }
{
    (first < among.len() && among[first]) || has_any(among, positions)
}

/// Whether one of some alerts is at one of these positions.
fn has_any(among: &[bool], positions: &[usize]) -> bool
    requires { All (λ p. p < length among.now) positions.now }
    ensures any { result ≡ list_any (flag among.now) positions.now }
{
    for position in positions {
        if among[*position] {
            return true;
        }
    }
    false
}

/// Drops the alerts at these positions.
fn drop_all(positions: &[usize], kept: &mut [bool])
    requires { All (λ p. p < length kept.old) positions.now }
    ensures count { length kept.new ≡ length kept.old }
    ensures dropped { (i : ℕ)
        → flag kept.new i ≡ (flag kept.old i && not (is_at positions.now i)) }
{
    for position in positions {
        kept[*position] = false;
    }
}

/// The rows of this name, unless no label has it.
fn known_rows<'a, 'w>(sorted: &'a SortedLabels<'w>, name: &str) -> Option<&'a NameRows<'w>>
    requires sorted { AreSorted sorted.now }
    ensures name { IfSome result (λ known. known.now.name.now ≡ name.now) }
    ensures rows { IfSome result (λ known. AreNameRows sorted.now.labels.items known.now) }
    ensures none { IfNone result (IsRangeOf sorted.now.labels.items name.now (0, 0)) }
{
    match sorted.names.get_index_of(name) {
        Some(place) => Some(&sorted.rows[place]),
        None => None,
    }
}

/// Returns the rows of each name, from all labels. Fails only if memory runs out.
fn all_rows<'w>(
    alloc: Global,
    names: &[&'w str],
    labels: &[AlertLabel<'w>],
) -> Result<Vec<NameRows<'w>>, AllocError>
    requires sorted { IsNonDecreasingBy (λ l. l.name_place) labels.now }
    requires placed { All (HasNamePlace names.now) labels.now }
    requires distinct { AreDistinct names.now }
    ensures names { IfOk result (λ rows.
        map (λ known. known.name.now) rows.items ≡ map (λ name. name.now) names.now) }
    ensures rows { IfOk result (λ rows. All (AreNameRows labels.now) rows.items) }
{
    let mut rows = Vec::with_capacity(alloc, names.len())?;
    for (place, name) in names.iter().enumerate() {
        let range = range_of(names, labels, place);
        rows.push(NameRows {
            name: *name,
            range,
            rows: rows_in(alloc, labels, range)?,
        })?;
    }
    Ok(rows)
}

/// The positions of the labels of the name at a place: of the first one, and of the one after the
/// last.
fn range_of(names: &[&str], labels: &[AlertLabel<'_>], place: usize) -> (usize, usize)
    requires sorted { IsNonDecreasingBy (λ l. l.name_place) labels.now }
    requires placed { All (HasNamePlace names.now) labels.now }
    requires distinct { AreDistinct names.now }
    requires place { place < length names.now }
    ensures range { IsRangeOf labels.now (text_at names.now place) result }
{
    let start = labels.partition_point(|label| label.name_place < place);
    let end = labels.partition_point(|label| label.name_place <= place);
    (start, end)
}

/// Returns the rows of the labels in a range. Fails only if memory runs out.
fn rows_in(
    alloc: Global,
    labels: &[AlertLabel<'_>],
    range: (usize, usize),
) -> Result<Vec<Row>, AllocError>
    requires range { (range.0 ≤ range.1) × (range.1 ≤ length labels.now) }
    ensures rows { IfOk result (λ rows. Tile labels.now range.0 range.1 rows.items) }
{
    let mut rows = Vec::new(alloc);
    let mut start = range.0;
    while start < range.1 {
        let label = labels[start];
        let end = row_end(labels, label.place, start + 1, range.1);
        rows.push(Row {
            end,
            place: label.place,
            first: label.alert,
        })?;
        start = end;
    }
    Ok(rows)
}

/// Where the labels with a place end, of those from one position on and before another.
fn row_end(labels: &[AlertLabel<'_>], place: usize, start: usize, limit: usize) -> usize
    requires range { (start ≤ limit) × (limit ≤ length labels.now) }
    ensures within { (start ≤ result) × (result ≤ limit) }
    ensures places { HavePlace labels.now start result place }
{
    for k in start..limit {
        if labels[k].place != place {
            return k;
        }
    }
    limit
}

/// Returns the labels of some alerts, alert by alert, and adds their names and values to those that
/// are known. Fails only if memory runs out.
fn labels_of<'w>(
    alloc: Global,
    alerts: &'w Alerts,
    names: &mut IndexSet<&'w str>,
    values: &mut IndexSet<&'w str>,
) -> Result<Vec<AlertLabel<'w>>, AllocError>
    ensures labels { IfOk result (λ labels. map label_view labels.items ≡ all_labels alerts.now) }
    ensures names { IfOk result (λ labels. All (HasNamePlace names.new.keys) labels.items) }
    ensures values { IfOk result (λ labels. All (HasPlace values.new.keys) labels.items) }
{
    let mut labels = Vec::new(alloc);
    for alert in 0..alerts.len() {
        add_labels(alert, alerts.get(alert), names, values, &mut labels)?;
    }
    Ok(labels)
}

/// Adds the labels of the alert at a position.
fn add_labels<'w>(
    alert: usize,
    set: &'w LabelSet,
    names: &mut IndexSet<&'w str>,
    values: &mut IndexSet<&'w str>,
    labels: &mut Vec<AlertLabel<'w>>,
) -> Result<(), AllocError>
    requires names { All (HasNamePlace names.old.keys) labels.old.items }
    requires values { All (HasPlace values.old.keys) labels.old.items }
    ensures labels { OnOk result (map label_view labels.new.items
        ≡ map label_view labels.old.items ++ labels_of (alert, set.now)) }
    ensures names { OnOk result (All (HasNamePlace names.new.keys) labels.new.items) }
    ensures values { OnOk result (All (HasPlace values.new.keys) labels.new.items) }
{
    for (name, value) in set.values() {
        let name = name.as_str();
        let value = value.as_str();
        let name_place = place_of(name, names)?;
        let place = place_of(value, values)?;
        labels.push(AlertLabel {
            name,
            value,
            alert,
            name_place,
            place,
        })?;
    }
    Ok(())
}

/// Returns the place of a text among texts, and adds it unless it is there. Fails only if memory
/// runs out.
fn place_of<'w>(text: &'w str, texts: &mut IndexSet<&'w str>) -> Result<usize, AllocError>
    ensures grows { OnOk result ((k : ℕ) (other : List ℕ) → HasText texts.old.keys k other
        → HasText texts.new.keys k other) }
    ensures place { IfOk result (λ place. HasText texts.new.keys place text.now) }
{
    let (place, _) = texts.insert_full(text)?;
    Ok(place)
}

/// Returns for each label the position of its alert.
fn positions_in(alloc: Global, labels: &[AlertLabel<'_>]) -> Result<Vec<usize>, AllocError>
    ensures { IfOk result (λ positions. map (λ l. l.alert) labels.now ≡ positions.items) }
{
    let mut positions = Vec::with_capacity(alloc, labels.len())?;
    for label in labels {
        positions.push(label.alert)?;
    }
    Ok(positions)
}
