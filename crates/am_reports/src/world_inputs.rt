//! The inputs of `lint` and of `where`.

ghost use Rattle.std.specs.Prelude.{◌≡◌, option_map, IfOk, IfErr};
ghost use Rattle.am_files.specs.Faults.{IsFirstFault};
ghost use Rattle.am_reports.specs.WorldInputs.{AcceptsWorldInputs, world_input_stages};

use crate::rules_file::read_rules_if_any;
use am_alerting_rules::AlertingRules;
use am_classes::Alphabet;
use am_eval::World;
use am_files::{Files, read_universe_if_any, read_world};
use am_labels::Space;
use am_list_files::Alerts;
use am_report_texts::Form;
use am_universe::Fault;
use std::alloc::Global;
use std::marker::Model;

/// The inputs of `lint` and of `where`.
#[derive(Drop)]
pub struct WorldInputs<'a> {
    /// The bytes of a universe file. An alert that one of its impossible lists matches does not
    /// count. Each label that it declares needs a value for every alert.
    pub universe: Option<&'a [u8]>,
    /// The configuration, the silences, the firing alerts, and the instant at which silences are
    /// looked at. Each is optional, but silences need an instant. In `where`, firing alerts are
    /// read, but change nothing.
    pub files: &'a Files<'a>,
    /// The bytes of a file of alerting rules.
    pub rules: Option<&'a [u8]>,
    /// Which texts the labels of alerts may have.
    pub alphabet: Alphabet,
    /// The form of the report.
    pub form: Form,
}

impl<'a> Model for WorldInputs<'a> {
    ghost use Rattle.std.specs.Prelude.{option_copied};
    ghost use Rattle.am_reports.specs.WorldInputs as spec;

    ghost Value = { spec.WorldInputs };

    ghost view = { λ inputs. record {
      universe = option_copied inputs.universe;
      files = inputs.files.now;
      rules = option_copied inputs.rules;
      alphabet = inputs.alphabet;
      form = inputs.form;
    } };
}

impl<'a> WorldInputs<'a> {
    /// The alerts of a world, if there is a file of alerts.
    pub(crate) fn alerts_if_any<'w>(&self, world: &'w World) -> Option<&'w Alerts>
        ensures { option_map (λ a. a.now) result
            ≡ option_map (λ file. world.now.alerts) self.now.files.alerts }
    {
        let files = self.files;
        files.alerts.and(Some(world.alerts()))
    }
}

/// What the files say.
#[derive(Drop)]
pub(crate) struct ReadWorld {
    pub space: Space,
    pub world: World,
    pub rules: Option<AlertingRules>,
}

/// Reads the universe file, if there is one, then the files of the world, and then the alerting
/// rules, if there is a file of them. Fails with the first fault.
pub(crate) fn read_world_inputs(alloc: Global, inputs: &WorldInputs<'_>) -> Result<ReadWorld, Fault>
    ensures accepts { IfOk result (λ read.
        AcceptsWorldInputs inputs.now read.space read.world read.rules) }
    ensures first { IfErr result (IsFirstFault (world_input_stages inputs.now)) }
{
    let space = read_universe_if_any(alloc, inputs.universe)?;
    let world = read_world(alloc, inputs.files)?;
    let rules = read_rules_if_any(alloc, inputs.rules)?;
    Ok(ReadWorld {
        space,
        world,
        rules,
    })
}
