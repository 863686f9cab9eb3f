//! Routes, as they are kept in memory.

// The `impl Model` has imports of its own. None is from a module that uses these types.
ghost use Rattle.std.specs.Prelude.{◌≡◌, map};
ghost use Rattle.am_config.specs.ConfigFile.{matchers_of, continues_of, receiver_of, children_of};
ghost use Rattle.am_config.specs.ConfigFile.{options_of, routes_of};
ghost use Rattle.am_config.specs.RouteOptions.{options_view};
ghost use Rattle.am_config.specs.RouteView.{route_view};

use crate::route_options::RouteOptions;
use am_labels::Matchers;
use std::marker::Model;

/// The settings of a route.
#[derive(Drop)]
pub struct RouteSettings {
    pub(crate) receiver: usize,
    pub(crate) matchers: Matchers,
    pub(crate) continues: bool,
    pub(crate) options: RouteOptions,
}

impl Model for RouteSettings {
    ghost use Rattle.am_config.specs.ConfigFile as spec;
    ghost use Rattle.am_config.specs.RouteOptions.{options_view};
    ghost use Rattle.am_config.specs.SettingsCode.{coded_settings};

    ghost Value = { spec.RouteSettings };

    ghost coded = { coded_settings };

    ghost view = { λ s. record {
      receiver = s.receiver;
      matchers = s.matchers;
      continues = s.continues;
      options = options_view s.options;
    } };
}

impl RouteSettings {
    pub(crate) fn receiver(&self) -> usize
        ensures { result ≡ self.now.receiver }
    {
        self.receiver
    }
}

/// A route of a configuration (Alertmanager configuration reference 0.25, `<route>`).
///
/// If the route is tried for an alert and matches it, the route itself or routes below it handle
/// the alert.
#[derive(Drop)]
pub struct Route {
    pub(crate) settings: RouteSettings,
    pub(crate) routes: Vec<Route>,
}

impl Route {
    /// The matchers, all of which an alert has to match.
    ///
    /// They are those of `matchers`, in their order, then those of `match` and then those of
    /// `match_re`, both in the order of the bytes of their names.
    pub fn matchers(&self) -> &Matchers
        ensures matchers { result.now ≡ matchers_of (route_view self.now) }
    {
        &self.settings.matchers
    }

    /// Whether later siblings are tried after it (`continue`). It has no effect on the top-level
    /// route.
    pub fn continues(&self) -> bool
        ensures continues { result ≡ continues_of (route_view self.now) }
    {
        self.settings.continues
    }

    /// The position of its receiver in the configuration. A route that names none has that of its
    /// parent.
    pub fn receiver(&self) -> usize
        ensures receiver { result ≡ receiver_of (route_view self.now) }
    {
        self.settings.receiver()
    }

    /// How its alerts are grouped and when they are sent, which routing ignores.
    ///
    /// An option that it does not set is that of its parent, but `mute_time_intervals` and
    /// `active_time_intervals` are never inherited. An empty array sets none.
    pub fn options(&self) -> &RouteOptions
        ensures options { options_view result.now ≡ options_of (route_view self.now) }
    {
        &self.settings.options
    }

    /// Its children, in the order of the file.
    pub fn routes(&self) -> &[Route]
        ensures children { routes_of (map route_view result.now)
            ≡ children_of (route_view self.now) }
    {
        &self.routes
    }
}
