//! What is found of inhibition rules and of silences, for every alert, and their lines.
//!
//! Rules and silences have no `unusual`. Routes often have `.*` for every text. In a rule or a
//! silence the difference matters only if it has such a pattern, and `lint --ascii` shows it. If it
//! is not known which alerts one of them matches, its line says so, and the others have theirs.

ghost use Rattle.std.specs.Prelude.{◌≡◌, ◌≢◌, ◌++◌, [], length, map, IfOk, IfErr, OnOk};
ghost use Rattle.std.specs.Prelude.{option_map};
ghost use Rattle.std.specs.List.{AllZip};
ghost use Rattle.am_universe.specs.declared.kind.Kind.TheVariants as kinds;
ghost use Rattle.am_json.specs.Reading.{refusal_of};
ghost use Rattle.am_asked.specs.OriginPointer.{origin_pointer};
ghost use Rattle.am_report_texts.specs.LineView.{line_view};
ghost use Rattle.am_idle.specs.RuleLines.{rule_lines, HasPositionsIfAny};
ghost use Rattle.am_idle.specs.Rules.{IsRuleFinding};
ghost use Rattle.am_idle.specs.SilenceLines.{silence_lines};
ghost use Rattle.am_idle.specs.Silences.{IsSilenceFinding};
ghost use Rattle.am_reports.specs.LintLines.{IsRulesRefusal, IsSilencesRefusal, each_lines};

use am_asked::pointer_to;
use am_classes::Alphabet;
use am_complete::Origin;
use am_config::Rule;
use am_eval::World;
use am_first_sets::Budget;
use am_idle::{
    RuleFinding, SilenceFinding, find_rules, find_silences, push_rule_line, push_silence_line,
};
use am_labels::Space;
use am_list_files::{Alerts, Silences};
use am_report_texts::Line;
use am_universe::{Fault, Kind, Place};
use std::alloc::{AllocError, Global};

/// Finds what is wrong with each of some inhibition rules, for every alert over an alphabet that no
/// impossible list of a space matches. The space declares no label, before and after.
///
/// Fails with `Limit`, at `Config` and with the pointer of the first rule for whose matchers there
/// is no room in a universe, and with `Memory`.
pub(crate) fn rule_findings(
    alloc: Global,
    alphabet: Alphabet,
    space: &mut Space,
    rules: &[Rule],
    budget: &mut Budget,
) -> Result<Vec<Option<RuleFinding>>, Fault>
    requires { space.old.labels ≡ [] }
    ensures found { IfOk result (λ found.
        AllZip (IsRuleFinding alphabet space.old) rules.now found.items) }
    ensures labels { space.new.labels ≡ [] }
    ensures impossible { space.new.impossible ≡ space.old.impossible }
    ensures refused { IfErr result (λ fault. fault.kind ≢ kinds.Memory
        → IsRulesRefusal alphabet space.old rules.now fault.place (refusal_of fault)) }
{
    match find_rules(alloc, alphabet, space, rules, budget) {
        Ok(found) => Ok(found),
        Err(fault) => Err(fault_at(
            alloc,
            fault.kind,
            Place::Config,
            &Origin::Rule(fault.position),
        )),
    }
}

/// Adds the lines of rules. Fails only if memory runs out.
pub(crate) fn push_rules<'a>(
    alloc: Global,
    lines: &mut Vec<Line<'a>>,
    rules: &'a [Rule],
    found: &[Option<RuleFinding>],
) -> Result<(), AllocError>
    requires same { length found.now ≡ length rules.now }
    requires each { AllZip HasPositionsIfAny rules.now found.now }
    ensures lines { OnOk result (map line_view lines.new.items
        ≡ map line_view lines.old.items ++ each_lines rule_lines rules.now found.now) }
{
    for (i, rule) in rules.iter().enumerate() {
        push_rule_line(alloc, lines, i, rule, &found[i])?;
    }
    Ok(())
}

/// Finds what is wrong with the silences of a world, for the same alerts. If it is known which
/// alerts fire, it also finds which active silences hide none of them. The space declares no label,
/// before and after.
///
/// Fails with `Limit`, at `Silences` and with the pointer of the first silence for whose matchers
/// there is no room in a universe, and with `Memory`.
pub(crate) fn silence_findings(
    alloc: Global,
    alphabet: Alphabet,
    space: &mut Space,
    world: &World,
    alerts: Option<&Alerts>,
    budget: &mut Budget,
) -> Result<Vec<Option<SilenceFinding>>, Fault>
    requires { space.old.labels ≡ [] }
    ensures found { IfOk result (λ found. AllZip
        (IsSilenceFinding alphabet space.old world.now (option_map (λ a. a.now) alerts.entry))
        world.now.silences found.items) }
    ensures labels { space.new.labels ≡ [] }
    ensures impossible { space.new.impossible ≡ space.old.impossible }
    ensures refused { IfErr result (λ fault. fault.kind ≢ kinds.Memory
        → IsSilencesRefusal alphabet space.old world.now fault.place (refusal_of fault)) }
{
    match find_silences(alloc, alphabet, space, world, alerts, budget) {
        Ok(found) => Ok(found),
        Err(fault) => Err(fault_at(
            alloc,
            fault.kind,
            Place::Silences,
            &Origin::Silence(fault.position),
        )),
    }
}

/// Adds the lines of silences. Fails only if memory runs out.
pub(crate) fn push_silences<'a>(
    alloc: Global,
    lines: &mut Vec<Line<'a>>,
    silences: &'a Silences,
    found: &[Option<SilenceFinding>],
) -> Result<(), AllocError>
    requires { length found.now ≡ length silences.now }
    ensures lines { OnOk result (map line_view lines.new.items
        ≡ map line_view lines.old.items ++ each_lines silence_lines silences.now found.now) }
{
    for (i, finding) in found.iter().enumerate() {
        push_silence_line(alloc, lines, i, silences.get(i), finding)?;
    }
    Ok(())
}

/// The fault of a limit at what asks about labels. It is `Memory` if `kind` is not `Limit`, or if
/// memory runs out here.
pub(crate) fn fault_at(alloc: Global, kind: Kind, place: Place, origin: &Origin) -> Fault
    ensures refusal { result.kind ≢ kinds.Memory → (result.place ≡ place)
        × (refusal_of result ≡ record { kind = kind; pointer = origin_pointer origin.now }) }
    ensures kind { result.kind ≢ kinds.Memory → kind ≢ kinds.Memory }
{
    match (kind, pointer_to(alloc, origin)) {
        (Kind::Limit, Ok(pointer)) => Fault::within(Kind::Limit, place, pointer),
        _ => Fault::memory(alloc),
    }
}
