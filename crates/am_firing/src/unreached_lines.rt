//! The lines of routes, receivers and sides of inhibition rules that some alerts do not reach.

ghost use Rattle.std.specs.Prelude.{◌≡◌, ◌++◌, length, map, vec_len, IfOk, OnOk};
ghost use Rattle.std.specs.List.{flat_map, enumerate_from, zip};
ghost use Rattle.am_config.specs.ConfigView.{config_view};
ghost use Rattle.am_report_texts.specs.LineView.{line_view};
ghost use Rattle.am_lint.specs.FoundView.{said_of};
ghost use Rattle.am_firing.specs.Reach.{leads_to, paths_of, reached_view};
ghost use Rattle.am_firing.specs.Unreached.{gets_none, is_idle};
ghost use Rattle.am_firing.specs.FiringLines.{receiver_line, receiver_lines};
ghost use Rattle.am_firing.specs.FiringLines.{route_line, route_lines, rule_lines};
ghost use Rattle.am_firing.specs.FiringLines.{side_line, side_lines, unreached_lines};

use crate::entered::is_unreached;
use crate::reached::{Reached, Whose};
use am_config::{Config, Rule};
use am_idle::RuleFinding;
use am_labels::Matchers;
use am_lint::{FoundRoute, ReceiverFinding, count_below, matchers_at, push_below};
use am_report_texts::{Field, Line, Piece, Shown, all_matchers, receiver_name};
use indexmap::IndexSet;
use std::alloc::{AllocError, Global};

/// Adds the lines of the routes, the receivers and the sides of rules that some alerts do not
/// reach. What the alerts of a file do not reach is a note, and what those of alerting rules do not
/// reach is a finding.
///
/// `routes`, `receivers` and `rules` have what is said of the routes, the receivers and the rules
/// of the configuration over every alert, in their order. Where that is worse, no line is added.
/// Without an alert there is a line for the top-level route alone. Fails only if memory runs out.
pub fn push_unreached<'a>(
    alloc: Global,
    lines: &mut Vec<Line<'a>>,
    config: &'a Config,
    whose: Whose,
    reached: &Reached,
    routes: &[FoundRoute],
    receivers: &[Option<ReceiverFinding>],
    rules: &[Option<RuleFinding>],
) -> Result<(), AllocError>
    requires receivers { length receivers.now ≡ length (config_view config.now).receivers }
    requires rules { length rules.now ≡ length (config_view config.now).rules }
    requires reached_receivers { vec_len reached.now.receivers
        ≡ length (config_view config.now).receivers }
    requires sides { vec_len reached.now.sides ≡ length (config_view config.now).rules }
    ensures lines { OnOk result (map line_view lines.new.items ≡ map line_view lines.old.items
        ++ unreached_lines whose (config_view config.now) (reached_view reached.now)
        (map said_of routes.now) receivers.now rules.now) }
{
    push_route_lines(alloc, lines, config, whose, &reached.ends, routes)?;
    if !reached.is_any {
        return Ok(());
    }
    push_receiver_lines(
        alloc,
        lines,
        config,
        whose,
        reached.receivers.as_slice(),
        receivers,
    )?;
    push_rule_lines(alloc, lines, config, whose, reached.sides.as_slice(), rules)
}

// ---- Routes.

/// Adds the lines of the routes that are unreached, by where the alerts end.
fn push_route_lines<'a>(
    alloc: Global,
    lines: &mut Vec<Line<'a>>,
    config: &'a Config,
    whose: Whose,
    ends: &IndexSet<Vec<usize>>,
    routes: &[FoundRoute],
) -> Result<(), AllocError>
    ensures { OnOk result (map line_view lines.new.items ≡ map line_view lines.old.items
        ++ route_lines whose (config_view config.now) (leads_to (paths_of ends.now))
        (map said_of routes.now)) }
{
    for route in routes {
        if is_unreached(alloc, ends, route)? {
            lines.push(route_line(alloc, config, whose, routes, route)?)?;
        }
    }
    Ok(())
}

fn route_line<'a>(
    alloc: Global,
    config: &'a Config,
    whose: Whose,
    routes: &[FoundRoute],
    route: &FoundRoute,
) -> Result<Line<'a>, AllocError>
    ensures { IfOk result (λ line. line_view line
        ≡ route_line whose (config_view config.now) (map said_of routes.now)
        (said_of route.now)) }
{
    let receiver = receiver_name(config, route.receiver);
    let matchers = matchers_at(alloc, config, &route.path)?;
    let mut pieces = vec![in alloc;
        Piece::Value(Field::Path, Shown::Path(route.path)),
        Piece::Words(" "),
        Piece::Value(Field::Kind, Shown::Word("unreached")),
        Piece::Words(": "),
        Piece::Value(Field::Receiver, Shown::Text(receiver)),
        Piece::Words(" "),
        Piece::Value(Field::Matchers, Shown::Matchers(matchers)),
        Piece::Words(": no alert of the "),
        Piece::Words(whose.text()),
        Piece::Words(" enters"),
    ]?;
    push_below(&mut pieces, count_below(routes, &route.path))?;
    Ok(Line {
        level: whose.level(),
        pieces,
    })
}

// ---- Receivers.

/// Adds the lines of the receivers to which no alert goes. `reached` says for each receiver whether
/// one does, and `findings` what is said of it over every alert.
fn push_receiver_lines<'a>(
    alloc: Global,
    lines: &mut Vec<Line<'a>>,
    config: &'a Config,
    whose: Whose,
    reached: &[bool],
    findings: &[Option<ReceiverFinding>],
) -> Result<(), AllocError>
    requires { length findings.now ≡ length reached.now }
    ensures { OnOk result (map line_view lines.new.items ≡ map line_view lines.old.items
        ++ flat_map (receiver_lines whose (config_view config.now))
        (enumerate_from 0 (zip reached.now findings.now))) }
{
    for (i, finding) in findings.iter().enumerate() {
        push_receiver_line(alloc, lines, config, whose, i, reached[i], finding)?;
    }
    Ok(())
}

/// Adds the line of the receiver at a position, unless an alert goes to it, or it is already said
/// that no ordinary alert does.
fn push_receiver_line<'a>(
    alloc: Global,
    lines: &mut Vec<Line<'a>>,
    config: &'a Config,
    whose: Whose,
    receiver: usize,
    is_reached: bool,
    finding: &Option<ReceiverFinding>,
) -> Result<(), AllocError>
    ensures { OnOk result (map line_view lines.new.items ≡ map line_view lines.old.items
        ++ receiver_lines whose (config_view config.now)
        (receiver, (is_reached, finding.now))) }
{
    if !is_reached && !gets_none(finding) {
        lines.push(receiver_line(alloc, config, whose, receiver)?)?;
    }
    Ok(())
}

/// Whether it is already said of a receiver that no ordinary alert goes to it.
fn gets_none(finding: &Option<ReceiverFinding>) -> bool
    ensures { result ≡ gets_none finding.now }
{
    matches!(
        finding,
        Some(ReceiverFinding::Unmatched | ReceiverFinding::Unusual)
    )
}

fn receiver_line<'a>(
    alloc: Global,
    config: &'a Config,
    whose: Whose,
    receiver: usize,
) -> Result<Line<'a>, AllocError>
    ensures { IfOk result (λ line.
        line_view line ≡ receiver_line whose (config_view config.now) receiver) }
{
    Ok(Line {
        level: whose.level(),
        pieces: vec![in alloc;
            Piece::Words("receiver "),
            Piece::Value(
                Field::Receiver,
                Shown::Text(receiver_name(config, receiver))
            ),
            Piece::Words(" "),
            Piece::Value(Field::Kind, Shown::Word("unreached")),
            Piece::Words(": no alert of the "),
            Piece::Words(whose.text()),
            Piece::Words(" goes to it"),
        ]?,
    })
}

// ---- Sides of inhibition rules.

/// Adds the lines of the sides of rules that match no alert. `sides` says for each rule which of
/// its sides match one, and `findings` what is said of it over every alert.
fn push_rule_lines<'a>(
    alloc: Global,
    lines: &mut Vec<Line<'a>>,
    config: &'a Config,
    whose: Whose,
    sides: &[(bool, bool)],
    findings: &[Option<RuleFinding>],
) -> Result<(), AllocError>
    requires findings { length findings.now ≡ length (config_view config.now).rules }
    requires sides { length sides.now ≡ length (config_view config.now).rules }
    ensures { OnOk result (map line_view lines.new.items ≡ map line_view lines.old.items
        ++ flat_map (rule_lines whose)
        (enumerate_from 0 (zip (config_view config.now).rules (zip sides.now findings.now)))) }
{
    let rules = config.rules();
    for (i, finding) in findings.iter().enumerate() {
        push_rule(alloc, lines, whose, i, &rules[i], sides[i], finding)?;
    }
    Ok(())
}

/// Adds the lines of the sides of the rule at a position that match no alert, unless it is already
/// said that the rule is idle.
fn push_rule<'a>(
    alloc: Global,
    lines: &mut Vec<Line<'a>>,
    whose: Whose,
    position: usize,
    rule: &'a Rule,
    sides: (bool, bool),
    finding: &Option<RuleFinding>,
) -> Result<(), AllocError>
    ensures { OnOk result (map line_view lines.new.items ≡ map line_view lines.old.items
        ++ rule_lines whose (position, (rule.now, (sides, finding.now)))) }
{
    if is_idle(finding) {
        return Ok(());
    }
    let words = " matches source ";
    push_side(
        alloc,
        lines,
        whose,
        position,
        sides.0,
        words,
        Field::Source,
        rule.source(),
    )?;
    let words = " matches target ";
    push_side(
        alloc,
        lines,
        whose,
        position,
        sides.1,
        words,
        Field::Target,
        rule.target(),
    )
}

/// Whether it is already said of a rule that no alert inhibits another by it.
fn is_idle(finding: &Option<RuleFinding>) -> bool
    ensures { result ≡ is_idle finding.now }
{
    matches!(finding, Some(RuleFinding::Idle(_)))
}

/// Adds the line of a side of the rule at a position, unless it matches an alert. `words` and
/// `field` say which side it is.
fn push_side<'a>(
    alloc: Global,
    lines: &mut Vec<Line<'a>>,
    whose: Whose,
    position: usize,
    is_matched: bool,
    words: &'static str,
    field: Field,
    matchers: &'a Matchers,
) -> Result<(), AllocError>
    ensures { OnOk result (map line_view lines.new.items ≡ map line_view lines.old.items
        ++ side_lines whose position is_matched words.now field matchers.now) }
{
    if !is_matched {
        lines.push(side_line(alloc, whose, position, words, field, matchers)?)?;
    }
    Ok(())
}

fn side_line<'a>(
    alloc: Global,
    whose: Whose,
    position: usize,
    words: &'static str,
    field: Field,
    matchers: &'a Matchers,
) -> Result<Line<'a>, AllocError>
    ensures { IfOk result (λ line.
        line_view line ≡ side_line whose position words.now field matchers.now) }
{
    let matchers = all_matchers(alloc, matchers)?;
    Ok(Line {
        level: whose.level(),
        pieces: vec![in alloc;
            Piece::Words("rule "),
            Piece::Value(Field::Rule, Shown::Number(position as u64)),
            Piece::Words(" "),
            Piece::Value(Field::Kind, Shown::Word("unreached")),
            Piece::Words(": no alert of the "),
            Piece::Words(whose.text()),
            Piece::Words(words),
            Piece::Value(field, Shown::Matchers(matchers)),
        ]?,
    })
}
