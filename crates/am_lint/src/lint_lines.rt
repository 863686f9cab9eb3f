//! The lines of findings and notes on routes and receivers, and the last line of a report.

ghost use Rattle.std.specs.Prelude.{◌≡◌, ◌++◌, ◌<◌, length, map, Some, IfOk, OnOk};
ghost use Rattle.std.specs.List.{AllByRecursion};
ghost use Rattle.am_universe.specs.Universe.{sizes};
ghost use Rattle.am_config.specs.ConfigView.{config_view};
ghost use Rattle.am_report_texts.specs.LineView.{line_view, pieces_view, route_view};
ghost use Rattle.am_lint.specs.FoundView.{finding_of, finding_view, said_of, IsShown};
ghost use Rattle.am_lint.specs.FoundView.{IsShownFinding};
ghost use Rattle.am_lint.specs.LintLines.{blame_pieces, cause_text, count_pieces, end_pieces};
ghost use Rattle.am_lint.specs.LintLines.{finding_line, hands_on, having, kind_text, level_of};
ghost use Rattle.am_lint.specs.LintLines.{matchers_at, only_group, reason_pieces, receiver_kind};
ghost use Rattle.am_lint.specs.LintLines.{receiver_level, receiver_line, report_lines};
ghost use Rattle.am_lint.specs.LintLines.{said_lines, shown_route, shown_said, why_pieces};

use crate::arrival::{Cause, Reason};
use crate::below::{count_below, is_said_above, push_below};
use crate::found::{FoundRoute, ReceiverFinding, RouteFinding};
use am_config::{Config, Path};
use am_labels::Matcher;
use am_report_texts::{
    Field, Level, Line, Piece, Shown, ShownRoute, all_matchers, label_set, plural,
};
use am_universe::Universe;
use std::alloc::{AllocError, Global};

/// Adds the lines of the findings and notes on routes, and then of those on receivers. `universe`
/// has the labels of the label sets that are shown. `receivers` has an item for each receiver of
/// the configuration. Fails only if memory runs out.
pub fn push_lint_lines<'a>(
    alloc: Global,
    lines: &mut Vec<Line<'a>>,
    universe: &'a Universe,
    config: &'a Config,
    routes: &'a [FoundRoute],
    receivers: &[Option<ReceiverFinding>],
) -> Result<(), AllocError>
    requires shown { AllByRecursion (IsShown (sizes universe.now) (config_view config.now))
        routes.now }
    requires each { length receivers.now ≡ length (config_view config.now).receivers }
    ensures lines { OnOk result (map line_view lines.new.items ≡ map line_view lines.old.items
        ++ report_lines universe.now (config_view config.now) (map said_of routes.now)
        receivers.now) }
{
    for route in routes {
        push_route_line(alloc, lines, universe, config, routes, route)?;
    }
    for (i, finding) in receivers.iter().enumerate() {
        if let Some(finding) = finding {
            lines.push(receiver_line(alloc, config, routes, i, *finding)?)?;
        }
    }
    Ok(())
}

// ---- Routes.

/// Adds the line of a route among all routes, unless nothing is said of it, or it is said above.
fn push_route_line<'a>(
    alloc: Global,
    lines: &mut Vec<Line<'a>>,
    universe: &'a Universe,
    config: &'a Config,
    routes: &[FoundRoute],
    route: &'a FoundRoute,
) -> Result<(), AllocError>
    requires { IsShown (sizes universe.now) (config_view config.now) route.now }
    ensures { OnOk result (map line_view lines.new.items ≡ map line_view lines.old.items
        ++ said_lines universe.now (config_view config.now) (map said_of routes.now)
        (said_of route.now)) }
{
    let Some(finding) = route.finding() else {
        return Ok(());
    };
    if !is_said_above(routes, route) {
        lines.push(route_line(alloc, universe, config, routes, route, &finding)?)?;
    }
    Ok(())
}

fn route_line<'a>(
    alloc: Global,
    universe: &'a Universe,
    config: &'a Config,
    routes: &[FoundRoute],
    route: &FoundRoute,
    finding: &RouteFinding<'a>,
) -> Result<Line<'a>, AllocError>
    requires shown { IsShownFinding (sizes universe.now) (Some (finding_view finding.now)) }
    requires receiver { route.now.receiver < length (config_view config.now).receivers }
    ensures { IfOk result (λ line. line_view line ≡ finding_line universe.now
        (config_view config.now) (map said_of routes.now) route.now.path route.now.receiver
        (finding_view finding.now)) }
{
    let receiver = config.receiver_name(route.receiver);
    let matchers = matchers_at(alloc, config, &route.path)?;
    let mut pieces = vec![in alloc;
        Piece::Value(Field::Path, Shown::Path(route.path)),
        Piece::Words(" "),
        Piece::Value(Field::Kind, Shown::Word(kind_text(finding))),
        Piece::Words(": "),
        Piece::Value(Field::Receiver, Shown::Text(receiver)),
        Piece::Words(" "),
        Piece::Value(Field::Matchers, Shown::Matchers(matchers)),
        Piece::Words(": "),
    ]?;
    push_why(alloc, &mut pieces, universe, config, finding)?;
    push_end(&mut pieces, routes, &route.path, finding)?;
    Ok(Line {
        level: level_of(finding),
        pieces,
    })
}

/// The word for a finding or note on a route.
fn kind_text(finding: &RouteFinding<'_>) -> &'static str
    ensures { result.now ≡ kind_text (finding_view finding.now) }
{
    match finding {
        RouteFinding::Dead(_) => "dead",
        RouteFinding::Unusual(_, _) => "unusual",
        RouteFinding::HandsOn(_) => "hands on",
        RouteFinding::Undecided(_) => "undecided",
    }
}

fn level_of(finding: &RouteFinding<'_>) -> Level
    ensures { result ≡ level_of (finding_view finding.now) }
{
    match finding {
        RouteFinding::Dead(_) | RouteFinding::Unusual(_, _) | RouteFinding::Undecided(_) => {
            Level::Finding
        }
        RouteFinding::HandsOn(_) => Level::Note,
    }
}

/// Adds the reason of a finding or note on a route.
fn push_why<'a>(
    alloc: Global,
    pieces: &mut Vec<Piece<'a>>,
    universe: &'a Universe,
    config: &'a Config,
    finding: &RouteFinding<'a>,
) -> Result<(), AllocError>
    requires { IsShownFinding (sizes universe.now) (Some (finding_view finding.now)) }
    ensures { OnOk result (pieces_view pieces.new.items ≡ pieces_view pieces.old.items
        ++ why_pieces universe.now (config_view config.now) (finding_view finding.now)) }
{
    match finding {
        RouteFinding::Dead(reason) => push_reason(alloc, pieces, config, reason),
        RouteFinding::Unusual(reason, entry) => {
            push_reason(alloc, pieces, config, reason)?;
            pieces.push(Piece::Words("; entered by "))?;
            let labels = label_set(alloc, universe, entry)?;
            pieces.push(Piece::Value(Field::Labels, labels))?;
            Ok(())
        }
        RouteFinding::HandsOn(children) => {
            push_blame(alloc, pieces, config, Cause::Taken, children.as_slice())
        }
        RouteFinding::Undecided(_) => {
            let word = Shown::Word("it is not known whether an alert ends there");
            pieces.push(Piece::Value(Field::Reason, word))?;
            Ok(())
        }
    }
}

/// Adds how many routes stand below a route that no ordinary alert enters.
fn push_end(
    pieces: &mut Vec<Piece<'_>>,
    routes: &[FoundRoute],
    path: &Path,
    finding: &RouteFinding<'_>,
) -> Result<(), AllocError>
    ensures { OnOk result (pieces_view pieces.new.items ≡ pieces_view pieces.old.items
        ++ end_pieces (map said_of routes.now) path.now (finding_view finding.now)) }
{
    match finding {
        RouteFinding::Dead(_) | RouteFinding::Unusual(_, _) => {
            push_below(pieces, count_below(routes, path))
        }
        RouteFinding::HandsOn(_) | RouteFinding::Undecided(_) => Ok(()),
    }
}

fn push_reason<'a>(
    alloc: Global,
    pieces: &mut Vec<Piece<'a>>,
    config: &'a Config,
    reason: &Reason,
) -> Result<(), AllocError>
    ensures { OnOk result (pieces_view pieces.new.items ≡ pieces_view pieces.old.items
        ++ reason_pieces (config_view config.now) reason.now.cause reason.now.routes.items) }
{
    let routes = reason.routes.as_slice();
    if routes.is_empty() {
        let word = Shown::Word("no alert is possible");
        pieces.push(Piece::Value(Field::Reason, word))?;
        return Ok(());
    }
    push_blame(alloc, pieces, config, reason.cause, routes)
}

/// Adds which routes keep alerts out, and how.
fn push_blame<'a>(
    alloc: Global,
    pieces: &mut Vec<Piece<'a>>,
    config: &'a Config,
    cause: Cause,
    routes: &[Path],
) -> Result<(), AllocError>
    ensures { OnOk result (pieces_view pieces.new.items ≡ pieces_view pieces.old.items
        ++ blame_pieces (config_view config.now) cause routes.now) }
{
    let routes = shown_routes(alloc, config, routes)?;
    pieces.push(Piece::Value(Field::Reason, Shown::Word(cause_text(cause))))?;
    pieces.push(Piece::Words(" "))?;
    pieces.push(Piece::Value(Field::Routes, Shown::Routes(routes)))?;
    Ok(())
}

fn cause_text(cause: Cause) -> &'static str
    ensures { result.now ≡ cause_text cause }
{
    match cause {
        Cause::Excluded => "excluded by",
        Cause::Taken => "taken by",
    }
}

/// Returns routes, each with its path and its matchers.
fn shown_routes<'a>(
    alloc: Global,
    config: &'a Config,
    routes: &[Path],
) -> Result<Vec<ShownRoute<'a>>, AllocError>
    ensures { IfOk result (λ shown. map route_view shown.items
        ≡ map (shown_route (config_view config.now)) routes.now) }
{
    let mut shown = Vec::with_capacity(alloc, routes.len())?;
    for path in routes {
        shown.push(ShownRoute {
            path: *path,
            matchers: matchers_at(alloc, config, path)?,
            kind: "",
        })?;
    }
    Ok(shown)
}

// ---- Receivers.

fn receiver_line<'a>(
    alloc: Global,
    config: &'a Config,
    routes: &[FoundRoute],
    receiver: usize,
    finding: ReceiverFinding,
) -> Result<Line<'a>, AllocError>
    requires { receiver < length (config_view config.now).receivers }
    ensures { IfOk result (λ line. line_view line ≡ receiver_line (config_view config.now)
        (map said_of routes.now) receiver finding) }
{
    let having = having(alloc, config, routes, receiver)?;
    let words = if having.is_empty() {
        "no route names it"
    } else {
        ""
    };
    Ok(Line {
        level: receiver_level(routes, receiver),
        pieces: vec![in alloc;
            Piece::Words("receiver "),
            Piece::Value(Field::Receiver, Shown::Text(config.receiver_name(receiver))),
            Piece::Words(" "),
            Piece::Value(Field::Kind, Shown::Word(receiver_kind(finding))),
            Piece::Words(": "),
            Piece::Words(words),
            Piece::Value(Field::Routes, Shown::Routes(having)),
        ]?,
    })
}

fn receiver_kind(finding: ReceiverFinding) -> &'static str
    ensures { result.now ≡ receiver_kind finding }
{
    match finding {
        ReceiverFinding::Unmatched => "unmatched",
        ReceiverFinding::Unusual => "unusual",
        ReceiverFinding::Undecided => "undecided",
    }
}

/// The level of what is said of a receiver: a note if its routes only group others.
fn receiver_level(routes: &[FoundRoute], receiver: usize) -> Level
    ensures { result ≡ receiver_level (map said_of routes.now) receiver }
{
    if only_group(routes, receiver) {
        Level::Note
    } else {
        Level::Finding
    }
}

/// Whether some route has a receiver, and each that has it hands on.
fn only_group(routes: &[FoundRoute], receiver: usize) -> bool
    ensures { result ≡ only_group receiver (map said_of routes.now) }
{
    routes.iter().any(|route| route.receiver == receiver)
        && !routes
            .iter()
            .any(|route| route.receiver == receiver && !hands_on(route))
}

fn hands_on(route: &FoundRoute) -> bool
    ensures { result ≡ hands_on (finding_of route.now) }
{
    matches!(route.finding(), Some(RouteFinding::HandsOn(_)))
}

/// Returns the routes that have the given receiver, each with the word for its finding or note.
fn having<'a>(
    alloc: Global,
    config: &'a Config,
    routes: &[FoundRoute],
    receiver: usize,
) -> Result<Vec<ShownRoute<'a>>, AllocError>
    ensures { IfOk result (λ shown. map route_view shown.items ≡ map
        (shown_said (config_view config.now)) (having receiver (map said_of routes.now))) }
{
    let mut shown = Vec::new(alloc);
    for route in routes {
        if route.receiver == receiver {
            shown.push(shown_said(alloc, config, route)?)?;
        }
    }
    Ok(shown)
}

fn shown_said<'a>(
    alloc: Global,
    config: &'a Config,
    route: &FoundRoute,
) -> Result<ShownRoute<'a>, AllocError>
    ensures { IfOk result (λ shown.
        route_view shown ≡ shown_said (config_view config.now) (said_of route.now)) }
{
    Ok(ShownRoute {
        path: route.path,
        matchers: matchers_at(alloc, config, &route.path)?,
        kind: match route.finding() {
            Some(finding) => kind_text(&finding),
            None => "",
        },
    })
}

/// Returns the matchers of the route at a path, or none if there is no such route. Fails only if
/// memory runs out.
pub fn matchers_at<'a>(
    alloc: Global,
    config: &'a Config,
    path: &Path,
) -> Result<Vec<&'a Matcher>, AllocError>
    ensures matchers { IfOk result (λ found.
        map (λ m. m.now) found.items ≡ matchers_at (config_view config.now) path.now) }
{
    match config.at(path) {
        Some(route) => all_matchers(alloc, route.matchers()),
        None => Ok(Vec::new(alloc)),
    }
}

// ---- The last line.

/// Returns the pieces of the last line of a report, with the numbers of findings and notes. Fails
/// only if memory runs out.
pub fn count_pieces(
    alloc: Global,
    findings: usize,
    notes: usize,
) -> Result<Vec<Piece<'static>>, AllocError>
    ensures count { IfOk result (λ pieces.
        pieces_view pieces.items ≡ count_pieces findings notes) }
{
    Ok(vec![in alloc;
        Piece::Words("# "),
        Piece::Value(Field::Findings, Shown::Number(findings as u64)),
        Piece::Words(" finding"),
        Piece::Words(plural(findings as u128)),
        Piece::Words(", "),
        Piece::Value(Field::Notes, Shown::Number(notes as u64)),
        Piece::Words(" note"),
        Piece::Words(plural(notes as u128)),
    ]?)
}
