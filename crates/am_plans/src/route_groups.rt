//! Groups of routes, as sets of their places in the list of all routes.

ghost use Rattle.std.specs.Prelude.{◌≡◌};
ghost use Rattle.am_config.specs.ConfigFile.{Configuration};
ghost use Rattle.am_config.specs.RoutePaths.{all_routes};
ghost use Rattle.am_config.specs.RouteView.{route_view};
ghost use Rattle.am_plans.specs.RouteGroups.{kin_of, is_in_group, AreRoutesOf, IsGroup};

use am_config::{Route, RouteList};
use am_judged_lists::{CubeSet, MAX_CUBES};

/// How another route stands to the way to a route.
#[derive(Clone, Copy)]
enum Kin {
    /// It is on the way, or it is the route itself.
    OnWay,
    /// It is an earlier sibling of the route, or of a route on the way.
    Before,
    /// It is a child of the route.
    Child,
    /// It is none of these.
    Apart,
}

/// Some of the routes of a configuration.
#[derive(Clone, Copy)]
pub(crate) enum Group<'a> {
    /// The routes on the way to the route at this path, and that route.
    OnWay(&'a [u16]),
    /// The earlier siblings of these that lack `continue`.
    Before(&'a [u16]),
    /// The children of the route at this path.
    Children(&'a [u16]),
    /// The route at this path.
    At(&'a [u16]),
    /// The routes that have this receiver.
    With(usize),
}

impl Group<'_> {
    /// Whether a route, which is at this path, is in the group.
    fn has(self, path: &[u16], route: &Route) -> bool
        ensures { result ≡ is_in_group self.entry (path.now, route_view route.now) }
    {
        match self {
            Group::OnWay(end) => matches!(kin_of(end, path), Kin::OnWay),
            Group::Before(end) => { !route.continues() && matches!(kin_of(end, path), Kin::Before) }
            Group::Children(end) => matches!(kin_of(end, path), Kin::Child),
            Group::At(end) => path == end,
            Group::With(receiver) => route.receiver() == receiver,
        }
    }
}

/// The places of the routes of a group.
pub(crate) fn places_of(routes: &RouteList<'_>, group: Group<'_>) -> CubeSet
    ensures { (c : Configuration) → AreRoutesOf c routes.now
        → IsGroup (all_routes c) (is_in_group group.entry) result }
{
    let mut places = CubeSet::none();
    let count = routes.paths.len().min(routes.routes.len());
    for i in 0..count.min(MAX_CUBES) {
        places.insert_if(i, group.has(routes.paths[i].steps(), routes.routes[i]));
    }
    places
}

/// How the route at the path `other` stands to the way to the route at `path`.
fn kin_of(path: &[u16], other: &[u16]) -> Kin
    ensures { result ≡ kin_of path.now other.now }
{
    let [first, other @ ..] = other else {
        return Kin::OnWay;
    };
    let [step, path @ ..] = path else {
        return if other.is_empty() {
            Kin::Child
        } else {
            Kin::Apart
        };
    };
    if step == first {
        kin_of(path, other)
    } else if first < step && other.is_empty() {
        Kin::Before
    } else {
        Kin::Apart
    }
}
