//! The outcomes of all alerts of a world.

ghost use Rattle.std.specs.Prelude.{◌≡◌, ◌<◌, ℕ, List, length, slice_get, Some, IfOk};
ghost use Rattle.std.specs.List.{filter_map};
ghost use Rattle.am_universe.specs.LabelSet.{LabelMap};
ghost use Rattle.am_config.specs.ConfigView.{config_view};
ghost use Rattle.am_eval.specs.Routing.{ends, receivers, receiver_at};
ghost use Rattle.am_alerts.specs.AlertLists.{AreLists};
ghost use Rattle.am_alerts.specs.RouteEnds.{AreEnds, ends_of};
ghost use Rattle.am_alerts.specs.MutingRoutes.{TellIntervals};
ghost use Rattle.am_alerts.specs.Outcomes.{HasOutcome};

use crate::alert_ends::ends_of_alerts;
use crate::alert_hiding::{inhibitors_of_alerts, silencers_of_alerts};
use crate::alert_labels::AlertLabels;
use crate::intervals::{MutingRoute, muting_routes};
use crate::route_ends::RouteEnds;
use am_config::Config;
use am_eval::World;
use std::alloc::{AllocError, Global};
use std::marker::Model;

/// The outcome of an alert.
#[derive(Clone, Copy, Drop)]
pub(crate) struct Outcome<'o> {
    /// The routes at which alerts end, and the position of this one.
    pub rows: &'o [RouteEnds],
    pub alert: usize,
    /// The receivers to which it goes, by their positions.
    pub receivers: &'o [usize],
    /// The silences that hide it, by their positions.
    pub silencers: &'o [usize],
    /// The rules and firing alerts that inhibit it, by their positions.
    pub inhibitors: &'o [(usize, usize)],
}

/// The outcomes of all alerts of a world.
///
/// Each list of matchers is looked at once, with all alerts, because to prepare a pattern and to
/// test it on a value takes far longer than to look at an alert.
#[derive(Drop)]
pub(crate) struct Outcomes<'w> {
    world: &'w World,
    labels: AlertLabels<'w>,
    ends: Vec<RouteEnds>,
    receivers: Vec<Vec<usize>>,
    silencers: Vec<Vec<usize>>,
    inhibitors: Vec<Vec<(usize, usize)>>,
}

impl<'w> Model for Outcomes<'w> {
    ghost use Rattle.am_eval.specs.World as spec;
    ghost use Rattle.am_eval.specs.WorldCode.{coded_world};
    ghost use Rattle.am_alerts.specs.Outcomes.{AreOutcomes};

    ghost Value = { spec.World };

    ghost coded = { coded_world };

    ghost view = { λ o. o.world.now };

    ghost invariant = { λ o. AreOutcomes o.world.now o.labels o.ends.items o.receivers.items
        o.silencers.items o.inhibitors.items };
}

impl<'w> Outcomes<'w> {
    /// Finds the outcome of each alert of a world. Fails only if memory runs out.
    pub(crate) fn of(alloc: Global, world: &'w World) -> Result<Outcomes<'w>, AllocError>
        ensures world { IfOk result (λ outcomes. outcomes ≡ world.now) }
    {
        let labels = AlertLabels::of(alloc, world.alerts())?;
        let ends = ends_of_alerts(alloc, world.config(), &labels)?;
        let receivers = receivers_of_all(
            alloc,
            world.config(),
            ends.as_slice(),
            world.alerts().len(),
        )?;
        let silencers = silencers_of_alerts(alloc, world, &labels)?;
        let inhibitors = inhibitors_of_alerts(alloc, world, &labels)?;
        Ok(Outcomes {
            world,
            labels,
            ends,
            receivers,
            silencers,
            inhibitors,
        })
    }

    /// The world.
    pub(crate) fn world(&self) -> &World
        ensures world { result.now ≡ self.now }
    {
        self.world
    }

    /// The labels of its alerts.
    pub(crate) fn labels(&self) -> &AlertLabels<'w>
        ensures labels { result.now ≡ self.now.alerts }
    {
        &self.labels
    }

    /// Returns the routes that have time intervals and at which alerts end. Fails only if memory
    /// runs out.
    pub(crate) fn muting_routes(&self, alloc: Global) -> Result<Vec<MutingRoute<'_>>, AllocError>
        ensures intervals { IfOk result (λ muting.
            (alert : ℕ) → TellIntervals self.now muting.items alert) }
    {
        muting_routes(alloc, self.world.config(), self.ends.as_slice())
    }

    /// The outcome of the alert at a position.
    pub(crate) fn at(&self, position: usize) -> Outcome<'_>
        requires alert { position < length self.now.alerts }
        ensures outcome { (s : LabelMap) → slice_get self.now.alerts position ≡ Some s
            → HasOutcome self.now s result }
    {
        Outcome {
            rows: self.ends.as_slice(),
            alert: position,
            receivers: self.receivers[position].as_slice(),
            silencers: self.silencers[position].as_slice(),
            inhibitors: self.inhibitors[position].as_slice(),
        }
    }
}

/// The receivers of the routes at which each alert ends.
fn receivers_of_all(
    alloc: Global,
    config: &Config,
    rows: &[RouteEnds],
    count: usize,
) -> Result<Vec<Vec<usize>>, AllocError>
    ensures { IfOk result (λ found. (alerts : List LabelMap) → count ≡ length alerts
        → AreEnds alerts (λ s. ends s (config_view config.now)) rows.now
        → AreLists alerts (λ s. receivers s (config_view config.now)) found.items) }
{
    let mut found = Vec::with_capacity(alloc, count)?;
    for alert in 0..count {
        found.push(receivers_of(alloc, config, rows, alert)?)?;
    }
    Ok(found)
}

/// The receivers of the routes at which the alert at a position ends, in order. Fails only if
/// memory runs out.
pub(crate) fn receivers_of(
    alloc: Global,
    config: &Config,
    rows: &[RouteEnds],
    alert: usize,
) -> Result<Vec<usize>, AllocError>
    ensures { IfOk result (λ found. found.items
        ≡ filter_map (receiver_at (config_view config.now)) (ends_of rows.now alert)) }
{
    let mut found = Vec::new(alloc);
    for row in rows {
        if row.has(alert) {
            if let Some(route) = config.at(&row.path) {
                found.push(route.receiver())?;
            }
        }
    }
    Ok(found)
}
