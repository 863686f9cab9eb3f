//! Configurations, as they are kept in memory.

// `Config` imports these names for its ghost field, so none is from a module that uses `Config`.
ghost use Rattle.std.specs.Prelude.{◌≡◌, position};
ghost use Rattle.am_universe.specs.Text.{same_text};
ghost use Rattle.am_config.specs.ConfigFile.{IsConfig};
ghost use Rattle.am_config.specs.RouteView.{route_view, names_of};

use crate::path::Path;
use crate::route::Route;
use crate::rule::Rule;

/// A configuration: the receivers, the tree of routes, and the inhibition rules.
#[derive(Drop)]
pub struct Config {
    pub(crate) receivers: Vec<String>,
    pub(crate) root: Route,
    pub(crate) rules: Vec<Rule>,
    pub(crate) ghost sound: { IsConfig (record {
      receivers = names_of receivers.items;
      root = route_view root;
      rules = rules.items;
    }) },
}

impl Config {
    ghost use Rattle.std.specs.Prelude.{◌<◌, Some, None, IfSome, IfNone, length, slice_get};
    ghost use Rattle.am_config.specs.ConfigFile.{IsConfig, receiver_position};
    ghost use Rattle.am_config.specs.ConfigView.{config_view};
    ghost use Rattle.am_config.specs.RouteView.{route_view};
    ghost use Rattle.am_config.specs.Path.{route_at};

    /// How many receivers are declared.
    pub fn receivers(&self) -> usize
        ensures count { result ≡ length (config_view self.now).receivers }
    {
        self.receivers.len()
    }

    /// The name of the receiver at `i`, in declared order.
    pub fn receiver_name(&self, i: usize) -> &str
        requires receiver { i < length (config_view self.now).receivers }
        ensures name { slice_get (config_view self.now).receivers i ≡ Some result.now }
    {
        self.receivers[i].as_str()
    }

    /// The top-level route, which has no matchers. It comes first in preorder, and is the first
    /// level.
    pub fn root(&self) -> &Route
        ensures root { route_view result.now ≡ (config_view self.now).root }
        ensures sound { IsConfig (config_view self.now) }
    {
        &self.root
    }

    /// The inhibition rules, in the order of the file.
    pub fn rules(&self) -> &[Rule]
        ensures rules { result.now ≡ (config_view self.now).rules }
    {
        &self.rules
    }

    /// The position of the receiver with this name; `None` if no receiver has it.
    pub fn receiver_position(&self, name: &str) -> Option<usize>
        ensures position { result ≡ receiver_position (config_view self.now) name.now }
    {
        position(&self.receivers, name)
    }

    /// The route at a path; `None` if the configuration has no such route.
    pub fn at(&self, path: &Path) -> Option<&Route>
        ensures found { IfSome result (λ route.
            route_at (config_view self.now).root path.now ≡ Some (route_view route.now)) }
        ensures none { IfNone result (route_at (config_view self.now).root path.now ≡ None) }
    {
        let mut route = &self.root;
        for i in 0..path.len() {
            route = route.routes().get(usize::from(path.get(i)))?;
        }
        Some(route)
    }
}

/// The position of a name. The names are searched one after the other: the limits keep the list
/// short, and this is how the definition reads.
pub(crate) fn position(names: &[String], name: &str) -> Option<usize>
    ensures { result ≡ position (λ other. same_text other name.now) (names_of names.now) }
{
    names.iter().position(|other| other.as_str() == name)
}
