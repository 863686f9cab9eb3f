ghost use Rattle.std.specs.Prelude.{◌≡◌, ◌≢◌, ◌<◌, ◌≤◌, ◌==◌, [], ◌∷◌, ◌++◌, length, Some, None};
ghost use Rattle.std.specs.Prelude.{string_bytes, IfErr, IfSome, IfNone, OnOk, OnErr, Contains};
ghost use Rattle.std.specs.Prelude.{slice_get, slice_index, option_map, option_and_then, unwrap_or};
ghost use Rattle.std.specs.List.{list_any};
ghost use Rattle.am_universe.specs.Universe.{IsUniverse, names, sizes, label_position, same_value};
ghost use Rattle.am_universe.specs.Universe.{name_fault, any_name_fault, count_fault, value_fault};
ghost use Rattle.am_universe.specs.Universe.{label_values_fault, named_label_fault, label_fault};
ghost use Rattle.am_universe.specs.Universe.{any_label_fault, memory_fault};
ghost use Rattle.am_universe.specs.LabelSet.{value_at};
ghost use Rattle.am_universe.specs.Choice.{admits};
ghost use Rattle.am_universe.specs.UniverseView.{label_of, texts_of};
ghost use Rattle.am_universe.specs.Text.{same_text};
ghost use Rattle.am_universe.specs.declared.kind.Kind.TheVariants as kinds;

use crate::label_name::is_label_name;
use crate::limits::{MAX_LABELS, MAX_VALUES};
use crate::{Choice, Kind, LabelFault, LabelPart};
use std::alloc::{AllocError, Global};
use std::marker::Model;

/// A label and the values that it may have; `None` is absence.
#[derive(Drop)]
pub(crate) struct Label {
    pub(crate) name: String,
    pub(crate) values: Vec<Option<String>>,
}

/// A declared, finite universe of label sets: at most [`MAX_LABELS`] labels, each with 1 to
/// [`MAX_VALUES`] distinct values.
///
/// A value is a non-empty text or absence. The order of the labels and of their values is the
/// declared order, in which label sets are written.
#[derive(Drop)]
pub struct Universe {
    labels: Vec<Label>,
}

impl Model for Label {
    ghost use Rattle.am_universe.specs.Universe as spec;
    ghost use Rattle.am_universe.specs.UniverseView.{label_of};

    ghost Value = { spec.Label };

    ghost view = { λ l. label_of l.name l.values };
}

impl Model for Universe {
    ghost use Rattle.std.specs.Prelude.{List};
    ghost use Rattle.am_universe.specs.Universe as spec;

    ghost Value = { List spec.Label };

    ghost view = { λ u. u.labels.items };

    ghost invariant = { λ u. spec.IsUniverse u.labels.items };
}

impl Universe {
    /// The universe without labels, whose one label set is the empty one. It keeps the allocator.
    pub fn empty(alloc: Global) -> Universe
        ensures no_label { result ≡ [] }
    {
        Universe {
            labels: Vec::new(alloc),
        }
    }

    /// Why `add` may not add a label under this name; `None` if it may.
    ///
    /// The first that applies: `Empty` if the name is the empty text; `Shape` if it is not
    /// `[a-zA-Z_][a-zA-Z0-9_]*` (Prometheus data model); `Duplicate` if a label of the universe has
    /// it.
    pub fn name_fault(&self, name: &str) -> Option<Kind>
        ensures fault { result ≡ name_fault self.now name.now }
    {
        if !name.is_empty() && !is_label_name(name.as_bytes()) {
            return Some(Kind::Shape);
        }
        self.any_name_fault(name)
    }

    /// Why no label may be added under this name; `None` if one may.
    fn any_name_fault(&self, name: &str) -> Option<Kind>
        ensures { result ≡ any_name_fault self.now name.now }
    {
        if name.is_empty() {
            return Some(Kind::Empty);
        }
        if self.position(name).is_some() {
            return Some(Kind::Duplicate);
        }
        None
    }

    /// Why a label may not have this number of values; `None` if it may.
    ///
    /// `Empty` for no value, and `Limit` for more than [`MAX_VALUES`].
    pub fn count_fault(count: usize) -> Option<Kind>
        ensures fault { result ≡ count_fault count }
    {
        if count == 0 {
            Some(Kind::Empty)
        } else if count > MAX_VALUES {
            Some(Kind::Limit)
        } else {
            None
        }
    }

    /// Why a label may not have this value after those before it; `None` if it may.
    ///
    /// The first that applies: `Empty` if the value is the empty text; `Duplicate` if it is the
    /// same as one before it. The value `None` is absence.
    pub fn value_fault(before: &[Option<String>], value: Option<&str>) -> Option<Kind>
        ensures fault { result
            ≡ value_fault (texts_of before.now) (option_map (λ t. t.now) value.entry) }
    {
        if value == Some("") {
            return Some(Kind::Empty);
        }
        if is_among(before, value) {
            return Some(Kind::Duplicate);
        }
        None
    }

    /// Adds a label after the others, with its values in declared order. Its name has to be a label
    /// name.
    ///
    /// Fails with the first fault of the label; then nothing has changed. In order, the faults are:
    /// `Limit` at `Label` if there are [`MAX_LABELS`] already; those of `name_fault`, at `Name`;
    /// those of `count_fault`, at `Values`; and those of `value_fault`, at the first value that has
    /// one. Fails with `Memory`, at `Label`, only if the label has no fault.
    pub fn add(&mut self, name: String, values: Vec<Option<String>>) -> Result<(), LabelFault>
        ensures ok { OnOk result (self.new ≡ self.old ++ label_of name values ∷ []) }
        ensures accepted { OnOk result (label_fault self.old (label_of name values) ≡ None) }
        ensures first { IfErr result (λ fault.
            fault ≡ unwrap_or (label_fault self.old (label_of name values)) memory_fault) }
        ensures memory { IfErr result (λ fault.
            fault.kind ≡ kinds.Memory → label_fault self.old (label_of name values) ≡ None) }
        ensures err { OnErr result (self.new ≡ self.old) }
    {
        let of_name = self.name_fault(name.as_str());
        self.add_unless(of_name, name, values)
    }

    /// Adds a label whose name may have any form, as the names of Prometheus in UTF-8 mode do.
    ///
    /// Does and fails as `add`, but never with `Shape`: a name has a fault only if it is the empty
    /// text, or if a label of the universe has it.
    pub fn add_any(&mut self, name: String, values: Vec<Option<String>>) -> Result<(), LabelFault>
        ensures ok { OnOk result (self.new ≡ self.old ++ label_of name values ∷ []) }
        ensures accepted { OnOk result (any_label_fault self.old (label_of name values) ≡ None) }
        ensures first { IfErr result (λ fault.
            fault ≡ unwrap_or (any_label_fault self.old (label_of name values)) memory_fault) }
        ensures memory { IfErr result (λ fault.
            fault.kind ≡ kinds.Memory → any_label_fault self.old (label_of name values) ≡ None) }
        ensures err { OnErr result (self.new ≡ self.old) }
    {
        let of_name = self.any_name_fault(name.as_str());
        self.add_unless(of_name, name, values)
    }

    /// Adds a label that was checked before: it has no fault. It is not checked again, because each
    /// value would be compared with all before it.
    ///
    /// Fails only if memory runs out; then nothing has changed.
    pub fn add_checked(
        &mut self,
        name: String,
        values: Vec<Option<String>>,
    ) -> Result<(), AllocError>
        requires checked { label_fault self.old (label_of name values) ≡ None }
        ensures ok { OnOk result (self.new ≡ self.old ++ label_of name values ∷ []) }
        ensures err { OnErr result (self.new ≡ self.old) }
    {
        match self.labels.push(Label { name, values }) {
            Ok(()) => Ok(()),
            Err(_) => Err(AllocError),
        }
    }

    /// Adds a label after the others, unless it has a fault; `of_name` is the fault of its name.
    fn add_unless(
        &mut self,
        of_name: Option<Kind>,
        name: String,
        values: Vec<Option<String>>,
    ) -> Result<(), LabelFault>
        requires named { of_name ≡ None → any_name_fault self.old (string_bytes name) ≡ None }
        requires kind { of_name ≢ Some kinds.Memory }
        ensures ok { OnOk result (self.new ≡ self.old ++ label_of name values ∷ []) }
        ensures accepted { OnOk result
            (named_label_fault of_name self.old (texts_of values.items) ≡ None) }
        ensures first { IfErr result (λ fault. fault
            ≡ unwrap_or (named_label_fault of_name self.old (texts_of values.items)) memory_fault) }
        ensures memory { IfErr result (λ fault. fault.kind ≡ kinds.Memory
            → named_label_fault of_name self.old (texts_of values.items) ≡ None) }
        ensures err { OnErr result (self.new ≡ self.old) }
    {
        if let Some(fault) = self.label_fault(of_name, values.as_slice()) {
            return Err(fault);
        }
        match self.labels.push(Label { name, values }) {
            Ok(()) => Ok(()),
            Err(_) => Err(label_fault_at(LabelPart::Label, Kind::Memory)),
        }
    }

    /// The first fault of a label that is to be added after the others; `of_name` is the fault of
    /// its name.
    fn label_fault(&self, of_name: Option<Kind>, values: &[Option<String>]) -> Option<LabelFault>
        ensures { result ≡ named_label_fault of_name self.now (texts_of values.now) }
    {
        if self.labels.len() >= MAX_LABELS {
            return Some(label_fault_at(LabelPart::Label, Kind::Limit));
        }
        if let Some(kind) = of_name {
            return Some(label_fault_at(LabelPart::Name, kind));
        }
        label_values_fault(values)
    }

    /// The labels, in declared order.
    pub(crate) fn labels(&self) -> &[Label]
        ensures { result.now ≡ self.now }
    {
        self.labels.as_slice()
    }

    /// How many labels there are, at most [`MAX_LABELS`].
    pub fn len(&self) -> usize
        ensures len { result ≡ length self.now }
        ensures at_most { result ≤ MAX_LABELS }
        ensures universe { IsUniverse self.now }
    {
        self.labels.len()
    }

    /// Whether there is no label.
    pub fn is_empty(&self) -> bool
        ensures empty { result ≡ (length self.now == 0) }
    {
        self.labels.is_empty()
    }

    /// The name of the label at `i`.
    pub fn name(&self, i: usize) -> &str
        requires { i < length self.now }
        ensures name { slice_get (names self.now) i ≡ Some result.now }
    {
        self.labels[i].name.as_str()
    }

    /// How many values the label at `i` has, 1 to [`MAX_VALUES`].
    pub fn size(&self, i: usize) -> usize
        requires { i < length self.now }
        ensures size { slice_get (sizes self.now) i ≡ Some result }
        ensures some { 0 < result }
        ensures at_most { result ≤ MAX_VALUES }
    {
        self.labels[i].values.len()
    }

    /// The value at `j` of the label at `i`; `None` is absence.
    pub fn value(&self, i: usize, j: usize) -> Option<&str>
        requires label { i < length self.now }
        requires value { j < slice_index (sizes self.now) i }
        ensures text { option_map (λ t. t.now) result
            ≡ option_and_then (λ label. value_at label j) (slice_get self.now i) }
    {
        match &self.labels[i].values[j] {
            Some(text) => Some(text.as_str()),
            None => None,
        }
    }

    /// The position of the label of this name; `None` if the universe does not declare it.
    pub fn position(&self, name: &str) -> Option<usize>
        ensures found { IfSome result (λ i. slice_get (names self.now) i ≡ Some name.now) }
        ensures none { IfNone result (¬ Contains (names self.now) name.now) }
        ensures position { result ≡ label_position self.now name.now }
    {
        self.labels
            .iter()
            .position(|label| label.name.as_str() == name)
    }

    /// Whether the choice is no longer than the list of labels, and each position is below its
    /// label's size.
    pub fn admits(&self, choice: &Choice) -> bool
        ensures admitted { result ≡ admits (sizes self.now) choice.now }
    {
        if choice.len() > self.len() {
            return false;
        }
        for i in 0..choice.len() {
            if usize::from(choice.get(i)) >= self.size(i) {
                return false;
            }
        }
        true
    }
}

/// The first fault in the values of a label.
fn label_values_fault(values: &[Option<String>]) -> Option<LabelFault>
    ensures { result ≡ label_values_fault (texts_of values.now) }
{
    if let Some(kind) = Universe::count_fault(values.len()) {
        return Some(label_fault_at(LabelPart::Values, kind));
    }
    for (i, value) in values.iter().enumerate() {
        if let Some(kind) = Universe::value_fault(&values[..i], text_of(value)) {
            return Some(label_fault_at(LabelPart::Value(i), kind));
        }
    }
    None
}

/// Whether the value is among the others.
fn is_among(others: &[Option<String>], value: Option<&str>) -> bool
    ensures { result
        ≡ list_any (λ other. same_value other (option_map (λ t. t.now) value.entry))
        (texts_of others.now) }
{
    others.iter().any(|other| is_same(other, value))
}

fn is_same(other: &Option<String>, value: Option<&str>) -> bool
    ensures { result
        ≡ same_value (option_map string_bytes other.now) (option_map (λ t. t.now) value.entry) }
{
    match (other, value) {
        (Some(other), Some(text)) => is_same_text(other.as_str(), text),
        (None, None) => true,
        _ => false,
    }
}

/// Whether two texts are the same. Most values of a label differ in the last byte, so that is
/// looked at first.
fn is_same_text(one: &str, other: &str) -> bool
    ensures { result ≡ same_text one.now other.now }
{
    one.as_bytes().last() == other.as_bytes().last() && one == other
}

pub(crate) fn text_of(value: &Option<String>) -> Option<&str>
    ensures { option_map (λ t. t.now) result ≡ option_map string_bytes value.now }
{
    match value {
        Some(text) => Some(text.as_str()),
        None => None,
    }
}

fn label_fault_at(part: LabelPart, kind: Kind) -> LabelFault
    ensures { result ≡ record { kind = kind; part = part } }
{
    LabelFault { kind, part }
}
