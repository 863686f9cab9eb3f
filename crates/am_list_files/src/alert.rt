//! Firing alerts, as they are kept in memory.

// The `impl Model` has imports of its own. None is from a module that uses this type.
ghost use Rattle.std.specs.Prelude.{◌≡◌, ◌<◌, ◌≤◌, ◌==◌, [], Some, length, slice_get};

use crate::limits::MAX_ALERTS;
use am_universe::LabelSet;
use std::alloc::Global;
use std::marker::Model;

/// At most [`MAX_ALERTS`] firing alerts, each as its label set, in the order of their file.
#[derive(Drop)]
pub struct Alerts {
    pub(crate) alerts: Vec<LabelSet>,
}

impl Model for Alerts {
    ghost use Rattle.std.specs.Prelude.{List, ◌≤◌, length};
    ghost use Rattle.std.specs.Coded.{coded_list};
    ghost use Rattle.am_universe.specs.LabelSet.{LabelMap};
    ghost use Rattle.am_universe.specs.LabelSetView.{label_map_code};
    ghost use Rattle.am_list_files.specs.declared.limits.TheConstants.{MAX_ALERTS};

    ghost Value = { List LabelMap };

    ghost coded = { coded_list label_map_code };

    ghost view = { λ a. a.alerts.items };

    ghost invariant = { λ a. length a.alerts.items ≤ MAX_ALERTS };
}

impl Alerts {
    /// A list of no alerts. It keeps the allocator.
    pub fn none(alloc: Global) -> Alerts
        ensures no_alert { result ≡ [] }
    {
        Alerts {
            alerts: Vec::new(alloc),
        }
    }

    /// How many there are, at most [`MAX_ALERTS`].
    pub fn len(&self) -> usize
        ensures count { result ≡ length self.now }
        ensures at_most { result ≤ MAX_ALERTS }
    {
        self.alerts.len()
    }

    /// Whether there are none.
    pub fn is_empty(&self) -> bool
        ensures empty { result ≡ (length self.now == 0) }
    {
        self.alerts.is_empty()
    }

    /// The label set of the alert at `i`, in the order of the file.
    pub fn get(&self, i: usize) -> &LabelSet
        requires alert { i < length self.now }
        ensures alert { slice_get self.now i ≡ Some result.now }
    {
        &self.alerts[i]
    }
}
