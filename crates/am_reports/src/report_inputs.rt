//! The inputs of `outcomes`.

ghost use Rattle.std.specs.Prelude.{◌≡◌, IfOk, IfErr, option_copied};
ghost use Rattle.am_config.specs.ConfigView.{config_view};
ghost use Rattle.am_files.specs.Faults.{IsFirstFault};
ghost use Rattle.am_reports.specs.ReportInputs.{AcceptsReportInputs, report_input_stages};

use am_classes::Alphabet;
use am_config::{Config, read_config};
use am_files::read_universe_if_any;
use am_labels::Space;
use am_report_texts::Form;
use am_universe::Fault;
use std::alloc::Global;
use std::marker::Model;

/// The inputs of `outcomes`.
#[derive(Drop)]
pub struct ReportInputs<'a> {
    /// The bytes of a universe file. An alert that one of its impossible lists matches does not
    /// count. Each label that it declares needs a value for every alert.
    pub universe: Option<&'a [u8]>,
    /// The bytes of the configuration file.
    pub config: &'a [u8],
    /// Which texts the labels of alerts may have.
    pub alphabet: Alphabet,
    /// The form of the report.
    pub form: Form,
}

impl<'a> Model for ReportInputs<'a> {
    ghost use Rattle.std.specs.Prelude.{option_copied};
    ghost use Rattle.am_reports.specs.ReportInputs as spec;

    ghost Value = { spec.ReportInputs };

    ghost view = { λ inputs. record {
      universe = option_copied inputs.universe;
      config = inputs.config.now;
      alphabet = inputs.alphabet;
      form = inputs.form;
    } };
}

/// What the files say.
#[derive(Drop)]
pub(crate) struct ReadInputs {
    pub space: Space,
    pub config: Config,
}

/// Reads the universe file, if there is one, and then the configuration file. Fails with the first
/// fault.
pub(crate) fn read_inputs(alloc: Global, inputs: &ReportInputs<'_>) -> Result<ReadInputs, Fault>
    ensures accepts { IfOk result (λ read.
        AcceptsReportInputs inputs.now read.space (config_view read.config)) }
    ensures first { IfErr result (IsFirstFault (report_input_stages inputs.now)) }
{
    let space = read_universe_if_any(alloc, inputs.universe)?;
    let config = read_config(alloc, inputs.config)?;
    Ok(ReadInputs { space, config })
}
