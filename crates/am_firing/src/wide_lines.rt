//! The lines of inhibition rules by which one firing alert inhibits most of the others.

ghost use Rattle.std.specs.Prelude.{◌≡◌, ◌++◌, ◌<◌, length, map, IfOk, OnOk};
ghost use Rattle.std.specs.List.{flat_map, enumerate_from};
ghost use Rattle.am_report_texts.specs.LineView.{line_view, pieces_view};
ghost use Rattle.am_firing.specs.FiringLines.{lacks_pieces, wide_line, wide_lines};

use crate::wide::{inhibited_counts, lacked_names, widest};
use am_config::Rule;
use am_eval::World;
use am_list_files::Alerts;
use am_report_texts::{Field, Level, Line, Name, Piece, Shown};
use std::alloc::{AllocError, Global};

/// Adds the lines of the rules by which one alert of a world inhibits most of the others.
pub(crate) fn push_wide_lines<'a>(
    alloc: Global,
    lines: &mut Vec<Line<'a>>,
    world: &'a World,
) -> Result<(), AllocError>
    ensures { OnOk result (map line_view lines.new.items ≡ map line_view lines.old.items
        ++ flat_map (wide_lines world.now.alerts) (enumerate_from 0 world.now.config.rules)) }
{
    for (i, rule) in world.config().rules().iter().enumerate() {
        push_wide_line(alloc, lines, world.alerts(), i, rule)?;
    }
    Ok(())
}

/// Adds the line of the rule at a position, if by it one alert inhibits most of the others.
fn push_wide_line<'a>(
    alloc: Global,
    lines: &mut Vec<Line<'a>>,
    alerts: &Alerts,
    position: usize,
    rule: &'a Rule,
) -> Result<(), AllocError>
    ensures { OnOk result (map line_view lines.new.items
        ≡ map line_view lines.old.items ++ wide_lines alerts.now (position, rule.now)) }
{
    let counts = inhibited_counts(alloc, rule, alerts)?;
    if let Some(found) = widest(counts.as_slice()) {
        lines.push(wide_line(alloc, alerts, position, rule, found)?)?;
    }
    Ok(())
}

/// Returns the line of the rule at a position. `found` is the position of the alert that inhibits
/// the most, and how many it inhibits.
fn wide_line<'a>(
    alloc: Global,
    alerts: &Alerts,
    position: usize,
    rule: &'a Rule,
    found: (usize, usize),
) -> Result<Line<'a>, AllocError>
    requires { found.0 < length alerts.now }
    ensures { IfOk result (λ line.
        line_view line ≡ wide_line alerts.now position rule.now found) }
{
    let lacked = lacked_names(alloc, rule, alerts.get(found.0))?;
    let mut pieces = vec![in alloc;
        Piece::Words("rule "),
        Piece::Value(Field::Rule, Shown::Number(position as u64)),
        Piece::Words(" "),
        Piece::Value(Field::Kind, Shown::Word("wide")),
        Piece::Words(": alert "),
        Piece::Value(Field::Alert, Shown::Number(found.0 as u64)),
        Piece::Words(" inhibits "),
        Piece::Value(Field::Inhibited, Shown::Number(found.1 as u64)),
        Piece::Words(" of "),
        Piece::Value(Field::Others, Shown::Number((alerts.len() - 1) as u64)),
        Piece::Words(" others"),
    ]?;
    push_lacks(alloc, &mut pieces, lacked.as_slice())?;
    Ok(Line {
        level: Level::Note,
        pieces,
    })
}

/// Adds the end of a line that says which labels two alerts both lack, if there are any.
fn push_lacks<'a>(
    alloc: Global,
    pieces: &mut Vec<Piece<'a>>,
    names: &[&'a str],
) -> Result<(), AllocError>
    ensures { OnOk result (pieces_view pieces.new.items ≡ pieces_view pieces.old.items
        ++ lacks_pieces (map (λ name. name.now) names.now)) }
{
    if names.is_empty() {
        return Ok(());
    }
    let mut shown = Vec::with_capacity(alloc, names.len())?;
    for name in names {
        shown.push(Name(name))?;
    }
    pieces.push(Piece::Words("; both lack "))?;
    pieces.push(Piece::Value(Field::Lacks, Shown::Names(shown)))?;
    Ok(())
}
