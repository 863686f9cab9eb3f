//! The line of an inhibition rule.

ghost use Rattle.std.specs.Prelude.{◌≡◌, ◌++◌, map, IfOk, OnOk};
ghost use Rattle.am_report_texts.specs.Line as spec;
ghost use Rattle.am_report_texts.specs.LineView.{line_view, piece_view, pieces_view};
ghost use Rattle.am_report_texts.specs.declared.lines.Field.TheVariants as field_is;
ghost use Rattle.am_idle.specs.Rules.{AreWithin};
ghost use Rattle.am_idle.specs.RuleLines.{contradiction_pieces, idle_pieces, not_known_pieces};
ghost use Rattle.am_idle.specs.RuleLines.{matchers_at, rule_kind, rule_level, finding_pieces};
ghost use Rattle.am_idle.specs.RuleLines.{rule_line, rule_lines, HasPositionsIn};
ghost use Rattle.am_idle.specs.RuleLines.{HasPositions, HasPositionsIfAny};

use crate::rule_findings::RuleFinding;
use crate::rules::IdleReason;
use am_config::Rule;
use am_labels::{Matcher, Matchers};
use am_report_texts::{Field, Level, Line, Piece, Shown, all_matchers};
use std::alloc::{AllocError, Global};

/// Adds the line of the rule at a position, or nothing without a finding. The positions in a reason
/// are positions of the rule's matchers. Fails only if memory runs out.
pub fn push_rule_line<'a>(
    alloc: Global,
    lines: &mut Vec<Line<'a>>,
    position: usize,
    rule: &'a Rule,
    finding: &Option<RuleFinding>,
) -> Result<(), AllocError>
    requires { HasPositionsIfAny rule.now finding.now }
    ensures lines { OnOk result (map line_view lines.new.items
        ≡ map line_view lines.old.items ++ rule_lines position rule.now finding.now) }
{
    if let Some(finding) = finding {
        lines.push(rule_line(alloc, position, rule, finding)?)?;
    }
    Ok(())
}

fn rule_line<'a>(
    alloc: Global,
    position: usize,
    rule: &'a Rule,
    finding: &RuleFinding,
) -> Result<Line<'a>, AllocError>
    requires { HasPositions rule.now finding.now }
    ensures { IfOk result (λ line. line_view line ≡ rule_line position rule.now finding.now) }
{
    let mut pieces = vec![in alloc;
        Piece::Words("rule "),
        Piece::Value(Field::Rule, Shown::Number(position as u64)),
        Piece::Words(" "),
        Piece::Value(Field::Kind, Shown::Word(rule_kind(finding))),
        Piece::Words(": "),
    ]?;
    pieces.append(&mut finding_pieces(alloc, rule, finding)?)?;
    Ok(Line {
        level: rule_level(finding),
        pieces,
    })
}

fn rule_kind(finding: &RuleFinding) -> &'static str
    ensures { result.now ≡ rule_kind finding.now }
{
    match finding {
        RuleFinding::Idle(_) => "idle",
        RuleFinding::Unproved => "unproved",
        RuleFinding::Undecided(_) => "undecided",
    }
}

fn rule_level(finding: &RuleFinding) -> Level
    ensures { result ≡ rule_level finding.now }
{
    match finding {
        RuleFinding::Idle(_) | RuleFinding::Undecided(_) => Level::Finding,
        RuleFinding::Unproved => Level::Note,
    }
}

/// Says what is wrong with a rule.
fn finding_pieces<'a>(
    alloc: Global,
    rule: &'a Rule,
    finding: &RuleFinding,
) -> Result<Vec<Piece<'a>>, AllocError>
    requires { HasPositions rule.now finding.now }
    ensures { IfOk result (λ pieces.
        pieces_view pieces.items ≡ finding_pieces rule.now finding.now) }
{
    match finding {
        RuleFinding::Idle(reason) => idle_pieces(alloc, rule, reason),
        RuleFinding::Unproved => not_known_pieces(
            alloc,
            rule,
            "it is not known which alerts match",
        ),
        RuleFinding::Undecided(_) => not_known_pieces(
            alloc,
            rule,
            "it is not known whether an alert inhibits another by",
        ),
    }
}

/// Says what is not known of the two sides of a rule, with all their matchers.
fn not_known_pieces<'a>(
    alloc: Global,
    rule: &'a Rule,
    reason: &'static str,
) -> Result<Vec<Piece<'a>>, AllocError>
    ensures { IfOk result (λ pieces.
        pieces_view pieces.items ≡ not_known_pieces reason.now rule.now) }
{
    let sources = Shown::Matchers(all_matchers(alloc, rule.source())?);
    let targets = Shown::Matchers(all_matchers(alloc, rule.target())?);
    Ok(vec![in alloc;
        reason_piece(reason),
        Piece::Words(" source "),
        Piece::Value(Field::Source, sources),
        Piece::Words(" and target "),
        Piece::Value(Field::Target, targets),
    ]?)
}

/// Says why a rule is idle.
fn idle_pieces<'a>(
    alloc: Global,
    rule: &'a Rule,
    reason: &IdleReason,
) -> Result<Vec<Piece<'a>>, AllocError>
    requires { HasPositionsIn rule.now reason.now }
    ensures { IfOk result (λ pieces. pieces_view pieces.items ≡ idle_pieces rule.now reason.now) }
{
    match reason {
        IdleReason::Contradiction { source, target } => {
            contradiction_pieces(alloc, rule, source.as_slice(), target.as_slice())
        }
        IdleReason::Both => Ok(vec![in alloc;
            reason_piece("each two alerts that match source and target match both sides"),
        ]?),
    }
}

/// Says which matchers of the two sides contradict each other.
fn contradiction_pieces<'a>(
    alloc: Global,
    rule: &'a Rule,
    source: &[usize],
    target: &[usize],
) -> Result<Vec<Piece<'a>>, AllocError>
    requires source { AreWithin rule.now.source source.now }
    requires target { AreWithin rule.now.target target.now }
    ensures { IfOk result (λ pieces.
        pieces_view pieces.items ≡ contradiction_pieces rule.now source.now target.now) }
{
    let sources = Shown::Matchers(matchers_at(alloc, rule.source(), source)?);
    let targets = Shown::Matchers(matchers_at(alloc, rule.target(), target)?);
    match (source.is_empty(), target.is_empty()) {
        (true, true) => Ok(vec![in alloc; reason_piece("no alert is possible")]?),
        (true, false) => Ok(vec![in alloc;
            reason_piece("no alert matches target"),
            Piece::Words(" "),
            Piece::Value(Field::Target, targets),
        ]?),
        (false, true) => Ok(vec![in alloc;
            reason_piece("no alert matches source"),
            Piece::Words(" "),
            Piece::Value(Field::Source, sources),
        ]?),
        (false, false) => Ok(vec![in alloc;
            Piece::Words("source "),
            Piece::Value(Field::Source, sources),
            Piece::Words(" and target "),
            Piece::Value(Field::Target, targets),
            Piece::Words(" "),
            reason_piece("exclude each other through equal"),
        ]?),
    }
}

fn reason_piece(word: &'static str) -> Piece<'static>
    ensures { piece_view result ≡ spec.Value field_is.Reason (spec.Word word.now) }
{
    Piece::Value(Field::Reason, Shown::Word(word))
}

/// Returns the matchers at some positions.
fn matchers_at<'a>(
    alloc: Global,
    matchers: &'a Matchers,
    positions: &[usize],
) -> Result<Vec<&'a Matcher>, AllocError>
    requires { AreWithin matchers.now positions.now }
    ensures { IfOk result (λ found.
        map (λ m. m.now) found.items ≡ matchers_at matchers.now positions.now) }
{
    let mut found = Vec::with_capacity(alloc, positions.len())?;
    for position in positions {
        found.push(matchers.get(*position))?;
    }
    Ok(found)
}
