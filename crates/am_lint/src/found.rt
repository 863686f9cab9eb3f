//! What is found of a route and of a receiver, over ordinary alerts and over every alert.

ghost use Rattle.std.specs.Prelude.{◌≡◌, option_map, Some};
ghost use Rattle.am_lint.specs.FoundView.{finding_of, finding_view, handing, unentered, is_end};
ghost use Rattle.am_lint.specs.FoundView.{is_end_if_any, lacks_end, receiver_finding};
ghost use Rattle.am_lint.specs.Report.{is_undecided};

use crate::arrival::{Arrival, Reason};
use am_config::Path;
use am_first_sets::UsedUp;
use am_universe::Choice;

/// A route, and how ordinary alerts and all alerts arrive there.
#[derive(Drop)]
pub struct FoundRoute {
    /// The path of the route.
    pub path: Path,
    /// The position of its receiver.
    pub receiver: usize,
    /// How ordinary alerts arrive there, whose values are printable ASCII.
    pub ordinary: Arrival,
    /// How all alerts arrive there, if `ordinary` says that no ordinary alert ends there, and
    /// others count.
    pub every: Option<Arrival>,
}

/// What is wrong with a route.
#[derive(Clone, Copy)]
pub enum RouteFinding<'a> {
    /// No alert enters it, for this reason.
    Dead(&'a Reason),
    /// No ordinary alert enters it, for this reason, but the label set of this choice does.
    Unusual(&'a Reason, Choice),
    /// Ordinary alerts enter it, but these children take them all.
    HandsOn(&'a Vec<Path>),
    /// It is not known whether an alert ends there: the budget was used up.
    Undecided(&'a UsedUp),
}

/// What is wrong with a receiver.
#[derive(Clone, Copy)]
pub enum ReceiverFinding {
    /// No alert goes to it.
    Unmatched,
    /// An alert goes to it, but no ordinary one.
    Unusual,
    /// It is not known whether an alert ends at one of its routes.
    Undecided,
}

impl FoundRoute {
    /// Returns what is wrong with the route, or `None` if an ordinary alert ends there.
    pub fn finding(&self) -> Option<RouteFinding<'_>>
        ensures finding { option_map finding_view result ≡ finding_of self.now }
    {
        match &self.ordinary {
            Arrival::Ends(_) => None,
            Arrival::HandsOn { children, .. } => Some(self.finding_of_handing(children)),
            Arrival::NeverEntered(reason) => Some(self.finding_of_unentered(reason)),
            Arrival::Undecided(evidence) => Some(RouteFinding::Undecided(evidence)),
        }
    }

    /// Returns what is wrong with the route, whose children take all ordinary alerts that enter it.
    fn finding_of_handing<'a>(&'a self, children: &'a Vec<Path>) -> RouteFinding<'a>
        ensures { finding_view result ≡ handing children.now.items self.now.every }
    {
        match &self.every {
            Some(Arrival::Undecided(evidence)) => RouteFinding::Undecided(evidence),
            _ => RouteFinding::HandsOn(children),
        }
    }

    /// Returns what is wrong with the route, which no ordinary alert enters.
    fn finding_of_unentered<'a>(&'a self, reason: &'a Reason) -> RouteFinding<'a>
        ensures { finding_view result ≡ unentered reason.now self.now.every }
    {
        match &self.every {
            None => RouteFinding::Dead(reason),
            Some(Arrival::NeverEntered(reason)) => RouteFinding::Dead(reason),
            Some(Arrival::Ends(choice)) => RouteFinding::Unusual(reason, *choice),
            Some(Arrival::HandsOn { entry, .. }) => RouteFinding::Unusual(reason, *entry),
            Some(Arrival::Undecided(evidence)) => RouteFinding::Undecided(evidence),
        }
    }

    /// Whether `ordinary` says that an ordinary alert ends at the route.
    fn has_ordinary_end(&self) -> bool
        ensures { result ≡ is_end self.now.ordinary }
    {
        matches!(self.ordinary, Arrival::Ends(_))
    }

    /// Whether `ordinary` says that no ordinary alert ends at the route.
    pub(crate) fn lacks_ordinary_end(&self) -> bool
        ensures { result ≡ lacks_end self.now.ordinary }
    {
        matches!(
            self.ordinary,
            Arrival::HandsOn { .. } | Arrival::NeverEntered(_)
        )
    }

    /// Whether `every` says that an alert ends at the route.
    fn has_other_end(&self) -> bool
        ensures { result ≡ is_end_if_any self.now.every }
    {
        matches!(self.every, Some(Arrival::Ends(_)))
    }

    /// Whether it is not known whether an alert ends at the route.
    fn is_undecided(&self) -> bool
        ensures { result ≡ is_undecided (finding_of self.now) }
    {
        matches!(self.finding(), Some(RouteFinding::Undecided(_)))
    }
}

/// Returns what is wrong with the receiver at a position, from what was found of the routes, or
/// `None` if an ordinary alert goes to it.
pub(crate) fn receiver_finding(routes: &[FoundRoute], receiver: usize) -> Option<ReceiverFinding>
    ensures finding { result ≡ receiver_finding routes.now receiver }
{
    if routes.iter().any(|route| route.receiver == receiver && route.has_ordinary_end()) {
        None
    } else if routes
        .iter()
        .any(|route| route.receiver == receiver && route.is_undecided())
    {
        Some(ReceiverFinding::Undecided)
    } else if routes.iter().any(|route| route.receiver == receiver && route.has_other_end()) {
        Some(ReceiverFinding::Unusual)
    } else {
        Some(ReceiverFinding::Unmatched)
    }
}
