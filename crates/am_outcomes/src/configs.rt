//! The configurations whose outcomes are looked for, the silences that may hide alerts, and the
//! matchers that may match them.

use am_config::Config;
use am_labels::Matchers;

/// What decides the outcomes that are looked for.
#[derive(Clone, Copy)]
pub enum Configs<'a> {
    /// One configuration.
    One(&'a Config),
    /// An old configuration, and a new one that is compared with it.
    Pair(&'a Config, &'a Config),
    /// One configuration, and the silences that are active.
    Silenced(&'a Config, &'a [ActiveSilence<'a>]),
    /// One configuration, of which the ends of alerts are looked for.
    Ends(&'a Config),
    /// No configuration, but one list of matchers, which may match alerts.
    Matched(&'a Matchers),
}

/// A silence that is active.
#[derive(Clone, Copy)]
pub struct ActiveSilence<'a> {
    /// Its position among the silences of its file.
    pub position: usize,
    pub matchers: &'a Matchers,
}
