//! Silences, as they are kept in memory.

// Each `impl Model` has imports of its own. None is from a module that uses these types.
ghost use Rattle.std.specs.Prelude.{◌≡◌, ◌<◌, ◌≤◌, ◌==◌, [], Some, length, slice_get};

use crate::instant::Timestamp;
use crate::limits::MAX_SILENCES;
use am_labels::Matchers;
use std::alloc::Global;
use std::marker::Model;

/// A silence: while it is active, it hides the alerts that match all its matchers.
///
/// It is active from one instant on, that instant included, until another, that one excluded.
#[derive(Drop)]
pub struct Silence {
    pub(crate) matchers: Matchers,
    pub(crate) starts: Timestamp,
    pub(crate) ends: Timestamp,
}

impl Model for Silence {
    ghost use Rattle.am_list_files.specs.SilencesFile as spec;

    ghost Value = { spec.Silence };

    ghost view = { λ s. record {
      matchers = s.matchers;
      starts = s.starts.nanosecond;
      ends = s.ends.nanosecond;
    } };
}

impl Silence {
    /// The matchers, all of which an alert has to match to be hidden.
    pub fn matchers(&self) -> &Matchers
        ensures matchers { result.now ≡ self.now.matchers }
    {
        &self.matchers
    }

    /// The instant from which it is active (`startsAt`).
    pub fn starts(&self) -> Timestamp
        ensures starts { result.nanosecond ≡ self.now.starts }
    {
        self.starts
    }

    /// The instant from which it is no longer active (`endsAt`).
    pub fn ends(&self) -> Timestamp
        ensures ends { result.nanosecond ≡ self.now.ends }
    {
        self.ends
    }
}

/// At most [`MAX_SILENCES`] silences, in the order of their file.
#[derive(Drop)]
pub struct Silences {
    pub(crate) silences: Vec<Silence>,
}

impl Model for Silences {
    ghost use Rattle.std.specs.Prelude.{List, ◌≤◌, length};
    ghost use Rattle.am_list_files.specs.SilencesFile as spec;
    ghost use Rattle.am_list_files.specs.declared.limits.TheConstants.{MAX_SILENCES};

    ghost Value = { List spec.Silence };

    ghost view = { λ s. s.silences.items };

    ghost invariant = { λ s. length s.silences.items ≤ MAX_SILENCES };
}

impl Silences {
    /// A list of no silences. It keeps the allocator.
    pub fn none(alloc: Global) -> Silences
        ensures no_silence { result ≡ [] }
    {
        Silences {
            silences: Vec::new(alloc),
        }
    }

    /// How many there are, at most [`MAX_SILENCES`].
    pub fn len(&self) -> usize
        ensures count { result ≡ length self.now }
        ensures at_most { result ≤ MAX_SILENCES }
    {
        self.silences.len()
    }

    /// Whether there are none.
    pub fn is_empty(&self) -> bool
        ensures empty { result ≡ (length self.now == 0) }
    {
        self.silences.is_empty()
    }

    /// The silence at `i`, in the order of the file.
    pub fn get(&self, i: usize) -> &Silence
        requires silence { i < length self.now }
        ensures silence { slice_get self.now i ≡ Some result.now }
    {
        &self.silences[i]
    }
}
