//! The inputs of `compare`.

ghost use Rattle.std.specs.Prelude.{◌≡◌, IfOk, IfErr, option_copied};
ghost use Rattle.am_json.specs.Reading.{IsRefusalAt};
ghost use Rattle.am_config.specs.ConfigView.{whole_config_view};
ghost use Rattle.am_config.specs.ConfigForm.{ConfigFileRefusedFor};
ghost use Rattle.am_config.specs.WholeConfig.{FileSaysWholeConfig};
ghost use Rattle.am_files.specs.Faults.{IsFirstFault};
ghost use Rattle.am_reports.specs.CompareInputs.{AcceptsCompareInputs, compare_input_stages};

use crate::rules_file::read_rules_if_any;
use am_alerting_rules::AlertingRules;
use am_classes::Alphabet;
use am_config::{WholeConfig, read_whole_config};
use am_files::read_universe_if_any;
use am_labels::Space;
use am_report_texts::Form;
use am_universe::{Fault, Place};
use std::alloc::Global;
use std::marker::Model;

/// The inputs of `compare`.
#[derive(Drop)]
pub struct CompareInputs<'a> {
    /// The bytes of a universe file. An alert that one of its impossible lists matches does not
    /// count. Each label that it declares needs a value for every alert.
    pub universe: Option<&'a [u8]>,
    /// The bytes of the old configuration file.
    pub old: &'a [u8],
    /// The bytes of the new configuration file.
    pub new: &'a [u8],
    /// The bytes of a file of alerting rules. Then the alerts that count are those of the rules.
    pub rules: Option<&'a [u8]>,
    /// Which texts the labels of alerts may have.
    pub alphabet: Alphabet,
    /// The form of the report.
    pub form: Form,
}

impl<'a> Model for CompareInputs<'a> {
    ghost use Rattle.std.specs.Prelude.{option_copied};
    ghost use Rattle.am_reports.specs.CompareInputs as spec;

    ghost Value = { spec.CompareInputs };

    ghost view = { λ inputs. record {
      universe = option_copied inputs.universe;
      old = inputs.old.now;
      new = inputs.new.now;
      rules = option_copied inputs.rules;
      alphabet = inputs.alphabet;
      form = inputs.form;
    } };
}

/// What the files say.
#[derive(Drop)]
pub(crate) struct Compared {
    pub space: Space,
    pub old: WholeConfig,
    pub new: WholeConfig,
    pub rules: Option<AlertingRules>,
}

/// Reads the universe file, if there is one, then the old and then the new configuration file, and
/// then the alerting rules, if there is a file of them. Fails with the first fault.
pub(crate) fn read_compared(alloc: Global, inputs: &CompareInputs<'_>) -> Result<Compared, Fault>
    ensures accepts { IfOk result (λ read. AcceptsCompareInputs inputs.now read.space
        (whole_config_view read.old) (whole_config_view read.new) read.rules) }
    ensures first { IfErr result (IsFirstFault (compare_input_stages inputs.now)) }
{
    let space = read_universe_if_any(alloc, inputs.universe)?;
    let old = read_config_at(alloc, Place::Old, inputs.old)?;
    let new = read_config_at(alloc, Place::New, inputs.new)?;
    let rules = read_rules_if_any(alloc, inputs.rules)?;
    Ok(Compared {
        space,
        old,
        new,
        rules,
    })
}

/// Reads a configuration file, and keeps its fields. Its faults are at the given place.
fn read_config_at(alloc: Global, place: Place, bytes: &[u8]) -> Result<WholeConfig, Fault>
    ensures says { IfOk result (λ w. FileSaysWholeConfig bytes.now (whole_config_view w)) }
    ensures refused { IfErr result (IsRefusalAt place (ConfigFileRefusedFor bytes.now)) }
{
    match read_whole_config(alloc, bytes) {
        Ok(whole) => Ok(whole),
        Err(fault) => Err(Fault::within(fault.kind, place, fault.pointer)),
    }
}
