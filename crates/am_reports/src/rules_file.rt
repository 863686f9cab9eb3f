//! The file of alerting rules of a call, if there is one.

ghost use Rattle.std.specs.Prelude.{◌≡◌, IfOk, IfErr, option_copied};
ghost use Rattle.am_universe.specs.declared.place.Place.TheVariants as places;
ghost use Rattle.am_json.specs.Reading.{IsRefusalAt};
ghost use Rattle.am_reports.specs.RulesFile.{SaysRulesIfAny, RulesRefusedFor};

use am_alerting_rules::{AlertingRule, AlertingRules, read_alerting_rules};
use am_universe::Fault;
use std::alloc::Global;

/// Reads the alerting rules of a file, if there is a file. A fault is at `Rules`, as in
/// `read_alerting_rules`, or is `Memory`.
pub(crate) fn read_rules_if_any(
    alloc: Global,
    file: Option<&[u8]>,
) -> Result<Option<AlertingRules>, Fault>
    ensures says { IfOk result (SaysRulesIfAny (option_copied file.entry)) }
    ensures first { IfErr result (IsRefusalAt places.Rules
        (RulesRefusedFor (option_copied file.entry))) }
{
    match file {
        Some(bytes) => Ok(Some(read_alerting_rules(alloc, bytes)?)),
        None => Ok(None),
    }
}

/// The rules of a file, if there is one.
pub(crate) fn rules_if_any(rules: &Option<AlertingRules>) -> Option<&[AlertingRule]>
    ensures { option_copied result ≡ rules.now }
{
    match rules {
        Some(rules) => Some(rules.as_slice()),
        None => None,
    }
}
