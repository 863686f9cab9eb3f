//! All routes of a configuration, with their paths.

ghost use Rattle.std.specs.Prelude.{◌≡◌, ◌<◌, ◌≤◌, ◌+◌, ◌++◌, length, map, IfOk, OnOk};
ghost use Rattle.am_config.specs.declared.limits.TheConstants.{MAX_LEVELS, MAX_ROUTES};
ghost use Rattle.am_config.specs.ConfigView.{config_view};
ghost use Rattle.am_config.specs.RouteView.{route_view};
ghost use Rattle.am_config.specs.ConfigFile.{routes_of, route_levels, routes_levels, route_count};
ghost use Rattle.am_config.specs.ConfigFile.{routes_count};
ghost use Rattle.am_config.specs.RoutePaths.{all_routes, AreListed, AddsRoutes, routes_at};
ghost use Rattle.am_config.specs.RoutePaths.{routes_from};

use crate::config::Config;
use crate::path::Path;
use crate::route::Route;
use std::alloc::{AllocError, Global};

/// Routes of a configuration, and their paths in the same order.
#[derive(Drop)]
pub struct RouteList<'c> {
    pub paths: Vec<Path>,
    pub routes: Vec<&'c Route>,
}

impl Config {
    /// Returns all routes in preorder: each route before its children, and these before its next
    /// sibling.
    ///
    /// Fails only if memory runs out.
    pub fn routes(&self, alloc: Global) -> Result<RouteList<'_>, AllocError>
        ensures routes { IfOk result (AreListed (all_routes (config_view self.now))) }
    {
        let mut found = RouteList {
            paths: Vec::new(alloc),
            routes: Vec::new(alloc),
        };
        add_route(self.root(), Path::root(), &mut found)?;
        Ok(found)
    }
}

/// Adds a route, and the routes below it.
#[cycle(routes)]
fn add_route<'c>(route: &'c Route, path: Path, found: &mut RouteList<'c>) -> Result<(), AllocError>
    requires room { length path + route_levels (route_view route.now) ≤ MAX_LEVELS }
    requires few { route_count (route_view route.now) ≤ MAX_ROUTES }
    ensures added { OnOk result (AddsRoutes found.old found.new
        (routes_at path (route_view route.now))) }
{
    found.paths.push(path)?;
    found.routes.push(route)?;
    add_children(route.routes(), path, found)
}

/// Adds the children of a route, and the routes below them.
#[cycle(routes)]
fn add_children<'c>(
    children: &'c [Route],
    path: Path,
    found: &mut RouteList<'c>,
) -> Result<(), AllocError>
    requires room { length path + 1 + routes_levels (routes_of (map route_view children.now))
        ≤ MAX_LEVELS }
    requires few { routes_count (routes_of (map route_view children.now)) < MAX_ROUTES }
    ensures added { OnOk result (AddsRoutes found.old found.new
        (routes_from path 0 (routes_of (map route_view children.now)))) }
{
    for (position, child) in children.iter().enumerate() {
        add_route(child, path.child(position as u16), found)?;
    }
    Ok(())
}
