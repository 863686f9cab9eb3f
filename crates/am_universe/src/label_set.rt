ghost use Rattle.std.specs.Prelude.{◌≡◌, ◌==◌, OnOk, OnErr, IfOk, string_bytes};
ghost use Rattle.std.specs.FinMap as map;
ghost use Rattle.am_universe.specs.Universe.{sizes};
ghost use Rattle.am_universe.specs.Choice.{IsWhole};
ghost use Rattle.am_universe.specs.LabelSetView.{label_map_of};
ghost use Rattle.am_universe.specs.LabelSet.{value_of, with_value, label_set_of, HasTextsAlone};

use crate::{Choice, Universe};
use std::alloc::{AllocError, Global};
use std::collections::BTreeMap;
use std::marker::Model;

/// A label set: a map from names to non-empty texts.
///
/// A missing label is the same as a label with the empty value.
#[derive(Drop)]
pub struct LabelSet {
    values: BTreeMap<String, String>,
}

impl Model for LabelSet {
    ghost use Rattle.am_universe.specs.LabelSet.{LabelMap, HasTextsAlone};
    ghost use Rattle.am_universe.specs.LabelSetView.{label_map_code, label_map_of};

    ghost Value = { LabelMap };

    ghost coded = { label_map_code };

    ghost view = { λ a. label_map_of a.values.entries };

    ghost invariant = { λ a. HasTextsAlone (label_map_of a.values.entries) };
}

impl LabelSet {
    /// The empty label set. It keeps the allocator.
    pub fn empty(alloc: Global) -> LabelSet
        ensures empty { result ≡ map.empty }
    {
        LabelSet {
            values: BTreeMap::new(alloc),
        }
    }

    /// Sets the value of a label; the empty value removes the label.
    ///
    /// Fails only if memory runs out; then nothing has changed.
    pub fn put(&mut self, name: String, value: String) -> Result<(), AllocError>
        ensures ok { OnOk result (
            self.new ≡ with_value self.old (string_bytes name) (string_bytes value)) }
        ensures err { OnErr result (self.new ≡ self.old) }
    {
        if value.is_empty() {
            self.values.remove(name.as_str());
        } else {
            self.values.insert(name, value)?;
        }
        Ok(())
    }

    /// The value of a label, or the empty text if the label is missing.
    pub fn get(&self, name: &str) -> &str
        ensures value { result.now ≡ value_of self.now name.now }
    {
        match self.values.get(name) {
            Some(value) => value.as_str(),
            None => "",
        }
    }

    /// The map from names to values.
    pub fn values(&self) -> &BTreeMap<String, String>
        ensures values { label_map_of result.now.entries ≡ self.now }
    {
        &self.values
    }

    /// How many labels have a value.
    pub fn len(&self) -> usize
        ensures len { result ≡ map.len self.now }
        ensures texts { HasTextsAlone self.now }
    {
        self.values.len()
    }

    /// Whether no label has a value.
    pub fn is_empty(&self) -> bool
        ensures empty { result ≡ (map.len self.now == 0) }
    {
        self.len() == 0
    }
}

/// Returns the label set of a whole choice: each label that has a value, with that value.
///
/// Fails only if memory runs out.
pub fn set_of(alloc: Global, universe: &Universe, choice: &Choice) -> Result<LabelSet, AllocError>
    requires { IsWhole (sizes universe.now) choice.now }
    ensures set { IfOk result (λ set. set ≡ label_set_of universe.now choice.now) }
{
    let mut set = LabelSet::empty(alloc);
    for i in 0..universe.len() {
        if let Some(value) = universe.value(i, usize::from(choice.get(i))) {
            let name = String::from_str(alloc, universe.name(i))?;
            let value = String::from_str(alloc, value)?;
            set.put(name, value)?;
        }
    }
    Ok(set)
}
