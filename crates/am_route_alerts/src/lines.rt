//! The lines of the alerts of routes.

ghost use Rattle.std.specs.Prelude.{◌≡◌, ◌<◌, ◌++◌, map, length, IfOk, OnOk, option_map};
ghost use Rattle.std.specs.List.{AllByRecursion};
ghost use Rattle.am_config.specs.ConfigView.{config_view};
ghost use Rattle.am_report_texts.specs.LineView.{line_view, report_view, pieces_view};
ghost use Rattle.am_route_alerts.specs.RouteLines.{route_line, routes_report, ends_pieces};
ghost use Rattle.am_route_alerts.specs.FoundView.{ends_view, route_alerts_view};

use crate::end_matchers::EndMatchers;
use crate::found::RouteAlerts;
use am_config::Config;
use am_report_texts::{Field, Level, Line, Piece, Report, Shown};
use std::alloc::{AllocError, Global};

/// Returns a line for each route, and then `# end`. A line has the path of the route, the name of
/// its receiver, and which alerts end there. Fails only if memory runs out.
pub fn routes_report<'a>(
    alloc: Global,
    config: &'a Config,
    found: Vec<RouteAlerts<'a>>,
) -> Result<Report<'a>, AllocError>
    requires { AllByRecursion (λ route. route.receiver < length (config_view config.now).receivers)
        found.items }
    ensures report { IfOk result (λ report. report_view report
        ≡ routes_report (config_view config.now) (map route_alerts_view found.entry.items)) }
{
    let mut lines = Vec::with_capacity(alloc, found.len())?;
    for route in found {
        lines.push(route_line(alloc, config, route)?)?;
    }
    Ok(Report {
        lines,
        last: vec![in alloc; Piece::Words("# end")]?,
    })
}

fn route_line<'a>(
    alloc: Global,
    config: &'a Config,
    route: RouteAlerts<'a>,
) -> Result<Line<'a>, AllocError>
    requires { route.receiver < length (config_view config.now).receivers }
    ensures { IfOk result (λ line. line_view line
        ≡ route_line (config_view config.now) (route_alerts_view route.entry)) }
{
    let RouteAlerts {
        path,
        receiver,
        ends,
    } = route;
    let mut pieces = vec![in alloc;
        Piece::Value(Field::Path, Shown::Path(path)),
        Piece::Words(" "),
        Piece::Value(Field::Receiver, Shown::Text(config.receiver_name(receiver))),
        Piece::Words(" "),
    ]?;
    push_ends(&mut pieces, ends)?;
    Ok(Line {
        level: Level::Plain,
        pieces,
    })
}

/// Adds which alerts end at a route.
fn push_ends<'a>(
    pieces: &mut Vec<Piece<'a>>,
    ends: Option<EndMatchers<'a>>,
) -> Result<(), AllocError>
    ensures { OnOk result (pieces_view pieces.new.items ≡ pieces_view pieces.old.items
        ++ ends_pieces (option_map ends_view ends.entry)) }
{
    let Some(ends) = ends else {
        pieces.push(Piece::Value(Field::Kind, Shown::Word("no alert")))?;
        return Ok(());
    };
    pieces.push(Piece::Value(Field::Matchers, Shown::Matchers(ends.matchers)))?;
    if !ends.unless.is_empty() {
        pieces.push(Piece::Words(" unless "))?;
    }
    pieces.push(Piece::Value(Field::Unless, Shown::Lists(ends.unless)))?;
    Ok(())
}
