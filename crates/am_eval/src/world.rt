//! What questions are asked about: a configuration, silences, firing alerts and an instant.

ghost use Rattle.std.specs.Prelude.{◌≡◌, ◌<◌, ◌≤◌, length, option_map, slice_get, Some, IfOk};
ghost use Rattle.std.specs.Prelude.{IfErr};
ghost use Rattle.am_universe.specs.declared.kind.Kind.TheVariants as kinds;
ghost use Rattle.am_universe.specs.declared.place.Place.TheVariants as places;
ghost use Rattle.am_json.specs.Reading.{IsRefusalAt};
ghost use Rattle.am_json.specs.Pointer.{refusal_here};
ghost use Rattle.am_config.specs.ConfigView.{config_view};
ghost use Rattle.am_eval.specs.declared.limits.TheConstants.{MAX_PAIRS};
ghost use Rattle.am_eval.specs.Silencing.{is_active, is_over};
ghost use Rattle.am_eval.specs.Pairs.{pairs_of};

use crate::limits::MAX_PAIRS;
use crate::pair::{Pair, pairs_of};
use am_config::Config;
use am_list_files::{Alerts, Silence, Silences, Timestamp};
use am_universe::{Fault, Kind, Place};
use std::alloc::Global;
use std::marker::Model;

/// A configuration, silences, the alerts that fire, and the instant that is asked about.
#[derive(Drop)]
pub struct World {
    config: Config,
    silences: Silences,
    alerts: Alerts,
    instant: Option<Timestamp>,
    pairs: Vec<Pair>,
}

impl Model for World {
    ghost use Rattle.std.specs.Prelude.{◌≡◌, ◌≤◌, length, option_map};
    ghost use Rattle.am_config.specs.ConfigView.{config_view};
    ghost use Rattle.am_eval.specs.declared.limits.TheConstants.{MAX_PAIRS};
    ghost use Rattle.am_eval.specs.Pairs.{pairs_of};
    ghost use Rattle.am_eval.specs.WorldCode.{coded_world};
    ghost use Rattle.am_eval.specs.World as spec;

    ghost Value = { spec.World };

    ghost coded = { coded_world };

    ghost view = { λ w. record {
      config = config_view w.config;
      silences = w.silences;
      alerts = w.alerts;
      instant = option_map (λ t. t.nanosecond) w.instant;
    } };

    ghost invariant = { λ w. (w.pairs.items ≡ pairs_of (config_view w.config).rules w.alerts)
        × (length w.pairs.items ≤ MAX_PAIRS) };
}

impl World {
    ghost use Rattle.am_eval.specs.World as spec;

    /// Makes a world.
    ///
    /// Without an instant no silence is active. Each alert counts as firing, even if it is silenced
    /// or inhibited itself, and with or without an instant. The source side of each rule is tested
    /// on each alert, and its target side on those alerts that the source side matches.
    ///
    /// Fails with `Limit`, at `Alerts` and with the empty pointer, if there are more than
    /// [`MAX_PAIRS`] pairs of an inhibition rule and an alert that its source side matches, and
    /// with `Memory` if memory runs out.
    pub fn new(
        alloc: Global,
        config: Config,
        silences: Silences,
        alerts: Alerts,
        instant: Option<Timestamp>,
    ) -> Result<World, Fault>
        ensures config { IfOk result (λ world. world.config ≡ config_view config) }
        ensures silences { IfOk result (λ world. world.silences ≡ silences) }
        ensures alerts { IfOk result (λ world. world.alerts ≡ alerts) }
        ensures instant { IfOk result (λ world.
            world.instant ≡ option_map (λ t. t.nanosecond) instant) }
        ensures few { IfOk result (λ world.
            length (pairs_of world.config.rules world.alerts) ≤ MAX_PAIRS) }
        ensures limit { IfErr result (IsRefusalAt places.Alerts (λ refusal.
            (refusal ≡ refusal_here kinds.Limit)
            × (MAX_PAIRS < length (pairs_of (config_view config).rules alerts)))) }
    {
        match pairs_of(alloc, config.rules(), &alerts) {
            Ok(pairs) => Ok(World {
                config,
                silences,
                alerts,
                instant,
                pairs,
            }),
            Err(kind) => Err(Fault::at(alloc, kind, Place::Alerts)),
        }
    }

    /// The configuration.
    pub fn config(&self) -> &Config
        ensures config { config_view result.now ≡ self.now.config }
    {
        &self.config
    }

    /// The silences, active or not.
    pub fn silences(&self) -> &Silences
        ensures silences { result.now ≡ self.now.silences }
    {
        &self.silences
    }

    /// The alerts that fire.
    pub fn alerts(&self) -> &Alerts
        ensures alerts { result.now ≡ self.now.alerts }
    {
        &self.alerts
    }

    /// The pairs of an inhibition rule and a firing alert that its source side matches, at most
    /// [`MAX_PAIRS`]: rule by rule, and for each rule alert by alert.
    pub fn pairs(&self) -> &[Pair]
        ensures pairs { result.now ≡ pairs_of self.now.config.rules self.now.alerts }
        ensures few { length result.now ≤ MAX_PAIRS }
    {
        &self.pairs
    }

    /// Whether the silence at `i` is active at the instant: it has begun, and has not ended.
    ///
    /// Without an instant no silence is active.
    pub fn active(&self, i: usize) -> bool
        requires silence { i < length self.now.silences }
        ensures active { (silence : _) → slice_get self.now.silences i ≡ Some silence
            → result ≡ is_active self.now.instant silence }
    {
        self.is_active(self.silences.get(i))
    }

    /// Whether the silence at `i` has ended by the instant. Without an instant it has not.
    pub fn over(&self, i: usize) -> bool
        requires silence { i < length self.now.silences }
        ensures over { (silence : _) → slice_get self.now.silences i ≡ Some silence
            → result ≡ is_over self.now.instant silence }
    {
        match self.instant {
            Some(instant) => self.silences.get(i).ends() <= instant,
            None => false,
        }
    }

    /// Whether a silence is active at the instant.
    pub(crate) fn is_active(&self, silence: &Silence) -> bool
        ensures active { result ≡ is_active self.now.instant silence.now }
    {
        match self.instant {
            Some(instant) => silence.starts() <= instant && instant < silence.ends(),
            None => false,
        }
    }
}
