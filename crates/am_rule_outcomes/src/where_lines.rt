//! The lines that say to which receivers the alerts of rules go.

ghost use Rattle.std.specs.Prelude.{◌≡◌, ◌∷◌, ◌++◌, [], Some, length, map, IfOk, OnOk, IfSome};
ghost use Rattle.std.specs.Prelude.{if◌then◌else◌, is_none, option_copied, option_map};
ghost use Rattle.std.specs.List.{AllByRecursion, filter};
ghost use Rattle.am_config.specs.ConfigView.{config_view};
ghost use Rattle.am_report_texts.specs.LineView.{line_view, pieces_view, report_view};
ghost use Rattle.am_alerting_rules.specs.RuleView.{pairs_view};
ghost use Rattle.am_rule_outcomes.specs.Narrowed.{HaveWholeChoices};
ghost use Rattle.am_rule_outcomes.specs.NarrowingView.{HaveWholeFirsts, narrowed_receivers_view};
ghost use Rattle.am_rule_outcomes.specs.NarrowingView.{narrowed_in, outcomes_shown};
ghost use Rattle.am_rule_outcomes.specs.NarrowingView.{rule_outcomes_view};
ghost use Rattle.am_rule_outcomes.specs.ReceiverOutcomes.{receiver_outcomes};
ghost use Rattle.am_rule_outcomes.specs.RuleOutcomes.{RuleOutcome, with_outcomes};
ghost use Rattle.am_rule_outcomes.specs.WhereLines.{is_asked, last_pieces, no_alert_line};
ghost use Rattle.am_rule_outcomes.specs.WhereLines.{rule_lines, rule_pieces, silenced_pieces};
ghost use Rattle.am_rule_outcomes.specs.WhereLines.{where_line, where_report};

use crate::receiver_outcomes::{ReceiverOutcome, Silenced, receiver_outcomes};
use crate::rule_outcomes::{RuleOutcomes, item_at};
use crate::shown_labels::{fixed_shown, shown_labels};
use am_alerting_rules::AlertingRule;
use am_config::Config;
use am_report_texts::{Field, Level, Line, Piece, Report, Shown, plural, receiver_names};
use am_universe::Universe;
use std::alloc::{AllocError, Global};

/// The receivers of the outcomes of a narrowing, and the universe of their choices.
#[derive(Drop)]
struct NarrowedReceivers<'a> {
    universe: &'a Universe,
    outcomes: Vec<ReceiverOutcome<'a>>,
}

/// Returns a line for each list of receivers to which alerts of a rule go, and then the number of
/// rules. If receivers are asked about, there are only the lines that have one of them. Fails only
/// if memory runs out.
pub fn where_report<'a>(
    alloc: Global,
    config: &'a Config,
    rules: &'a [AlertingRule],
    found: &'a RuleOutcomes,
    asked: Option<&[usize]>,
) -> Result<Report<'a>, AllocError>
    requires each { length found.now.of_rules.items ≡ length rules.now }
    requires whole { AllByRecursion HaveWholeChoices (narrowed_in found.now) }
    ensures report { IfOk result (λ report. report_view report
        ≡ where_report (config_view config.now) (option_copied asked.entry)
        (with_outcomes rules.now (rule_outcomes_view found.now))) }
{
    let each = narrowed_receivers(alloc, found)?;
    let mut lines = Vec::new(alloc);
    let mut shown = 0;
    for i in 0..rules.len() {
        let before = lines.len();
        let narrowed = item_at(each.as_slice(), found.of_rules[i]);
        push_rule_lines(alloc, &mut lines, config, &rules[i], narrowed, asked)?;
        if lines.len() > before {
            shown += 1;
        }
    }
    let last = last_pieces(alloc, asked, shown, rules.len())?;
    Ok(Report { lines, last })
}

/// Returns the receivers of the outcomes of each narrowing.
fn narrowed_receivers<'a>(
    alloc: Global,
    found: &'a RuleOutcomes,
) -> Result<Vec<NarrowedReceivers<'a>>, AllocError>
    ensures { IfOk result (λ each. map narrowed_receivers_view each.items
        ≡ map (λ outcomes. (found.now.universe, receiver_outcomes outcomes))
        found.now.each.items) }
{
    let mut each = Vec::with_capacity(alloc, found.each.len())?;
    for outcomes in &found.each {
        each.push(NarrowedReceivers {
            universe: &found.universe,
            outcomes: receiver_outcomes(alloc, outcomes)?,
        })?;
    }
    Ok(each)
}

/// Adds the lines of a rule that narrows a universe to one that has these receivers.
fn push_rule_lines<'a>(
    alloc: Global,
    lines: &mut Vec<Line<'a>>,
    config: &'a Config,
    rule: &'a AlertingRule,
    narrowed: Option<&NarrowedReceivers<'a>>,
    asked: Option<&[usize]>,
) -> Result<(), AllocError>
    requires { IfSome (option_copied narrowed) (λ n. HaveWholeFirsts (narrowed_receivers_view n)) }
    ensures { OnOk result (map line_view lines.new.items ≡ map line_view lines.old.items
        ++ rule_lines (config_view config.now) (option_copied asked.entry) (
          rule.now,
          outcomes_shown rule.now
              (option_map narrowed_receivers_view (option_copied narrowed.entry)),
        )) }
{
    match narrowed {
        Some(narrowed) if !narrowed.outcomes.is_empty() => {
            push_outcomes(alloc, lines, config, rule, narrowed, asked)
        }
        _ => push_no_alert(alloc, lines, rule, asked),
    }
}

/// Adds the lines of those outcomes of a rule that are asked about.
fn push_outcomes<'a>(
    alloc: Global,
    lines: &mut Vec<Line<'a>>,
    config: &'a Config,
    rule: &'a AlertingRule,
    narrowed: &NarrowedReceivers<'a>,
    asked: Option<&[usize]>,
) -> Result<(), AllocError>
    requires { HaveWholeFirsts (narrowed_receivers_view narrowed.now) }
    ensures { OnOk result (map line_view lines.new.items ≡ map line_view lines.old.items
        ++ map (where_line (config_view config.now) rule.now)
        (filter (is_asked (option_copied asked.entry))
        (outcomes_shown rule.now (Some (narrowed_receivers_view narrowed.now))))) }
{
    let fixed = rule.fixed_labels(alloc)?;
    for outcome in &narrowed.outcomes {
        if is_asked(asked, outcome.receivers) {
            let labels = shown_labels(alloc, fixed.as_slice(), narrowed.universe, outcome.first)?;
            lines.push(where_line(alloc, config, rule, labels, outcome)?)?;
        }
    }
    Ok(())
}

/// Adds the line of a rule that has no alert that counts, unless receivers are asked about.
fn push_no_alert<'a>(
    alloc: Global,
    lines: &mut Vec<Line<'a>>,
    rule: &'a AlertingRule,
    asked: Option<&[usize]>,
) -> Result<(), AllocError>
    ensures { OnOk result (map line_view lines.new.items ≡ map line_view lines.old.items
        ++ (if is_none (option_copied asked.entry) then no_alert_line rule.now ∷ [] else [])) }
{
    if asked.is_some() {
        return Ok(());
    }
    let fixed = rule.fixed_labels(alloc)?;
    let labels = fixed_shown(alloc, fixed.as_slice())?;
    let mut pieces = rule_pieces(alloc, rule, labels)?;
    pieces.push(Piece::Words(" "))?;
    pieces.push(Piece::Value(Field::Kind, Shown::Word("no alert")))?;
    lines.push(Line {
        level: Level::Plain,
        pieces,
    })?;
    Ok(())
}

/// Whether one of these receivers is asked about.
fn is_asked(asked: Option<&[usize]>, receivers: &[usize]) -> bool
    ensures { (o : RuleOutcome) → o.receivers ≡ receivers.now
        → result ≡ is_asked (option_copied asked.entry) o }
{
    match asked {
        None => true,
        Some(asked) => receivers.iter().any(|receiver| asked.contains(receiver)),
    }
}

/// Returns the line of an outcome of a rule.
fn where_line<'a>(
    alloc: Global,
    config: &'a Config,
    rule: &'a AlertingRule,
    labels: Vec<(&'a str, &'a str)>,
    outcome: &ReceiverOutcome<'a>,
) -> Result<Line<'a>, AllocError>
    ensures { IfOk result (λ line. line_view line ≡ where_line (config_view config.now) rule.now
        (record {
          receivers = outcome.now.receivers.now;
          first = pairs_view labels.entry.items;
          silenced = outcome.now.silenced;
        })) }
{
    let receivers = receiver_names(alloc, config, outcome.receivers)?;
    let mut pieces = rule_pieces(alloc, rule, labels)?;
    pieces.push(Piece::Words(" -> "))?;
    pieces.push(Piece::Value(Field::Receivers, Shown::Texts(receivers)))?;
    push_silenced(&mut pieces, outcome.silenced)?;
    Ok(Line {
        level: Level::Plain,
        pieces,
    })
}

/// Returns the pieces that begin a line: the group of the rule, and a label set.
fn rule_pieces<'a>(
    alloc: Global,
    rule: &'a AlertingRule,
    labels: Vec<(&'a str, &'a str)>,
) -> Result<Vec<Piece<'a>>, AllocError>
    ensures { IfOk result (λ pieces. pieces_view pieces.items
        ≡ rule_pieces rule.now (pairs_view labels.entry.items)) }
{
    Ok(vec![in alloc;
        Piece::Value(Field::Group, Shown::Text(rule.group())),
        Piece::Words(" "),
        Piece::Value(Field::Labels, Shown::Labels(labels)),
    ]?)
}

/// Adds how many of the alerts are silenced.
fn push_silenced<'a>(pieces: &mut Vec<Piece<'a>>, silenced: Silenced) -> Result<(), AllocError>
    ensures { OnOk result (pieces_view pieces.new.items ≡ pieces_view pieces.old.items
        ++ silenced_pieces silenced) }
{
    let word = match silenced {
        Silenced::No => return Ok(()),
        Silenced::Partly => "partly silenced",
        Silenced::All => "silenced",
    };
    pieces.push(Piece::Words(" "))?;
    pieces.push(Piece::Value(Field::State, Shown::Word(word)))?;
    Ok(())
}

/// Returns the pieces of the last line: the number of rules and, if receivers are asked about, how
/// many of them have a line.
fn last_pieces(
    alloc: Global,
    asked: Option<&[usize]>,
    shown: usize,
    count: usize,
) -> Result<Vec<Piece<'static>>, AllocError>
    ensures { IfOk result (λ pieces. pieces_view pieces.items
        ≡ last_pieces (option_copied asked.entry) shown count) }
{
    let mut pieces = vec![in alloc; Piece::Words("# ")]?;
    if asked.is_some() {
        pieces.push(Piece::Value(Field::Shown, Shown::Number(shown as u64)))?;
        pieces.push(Piece::Words(" of "))?;
    }
    pieces.push(Piece::Value(Field::Rules, Shown::Number(count as u64)))?;
    pieces.push(Piece::Words(" rule"))?;
    pieces.push(Piece::Words(plural(count as u128)))?;
    Ok(pieces)
}
