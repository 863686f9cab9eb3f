//! How many of some lines are findings, and how many are notes.

ghost use Rattle.std.specs.Prelude.{◌≡◌, map};
ghost use Rattle.am_report_texts.specs.Line.{count_findings, count_notes};
ghost use Rattle.am_report_texts.specs.LineView.{line_view};

use crate::{Level, Line};

/// Returns the number of findings among some lines.
pub fn count_findings(lines: &[Line<'_>]) -> usize
    ensures count { result ≡ count_findings (map line_view lines.now) }
{
    lines
        .iter()
        .filter(|line| matches!(line.level, Level::Finding))
        .count()
}

/// Returns the number of notes among some lines.
pub fn count_notes(lines: &[Line<'_>]) -> usize
    ensures count { result ≡ count_notes (map line_view lines.now) }
{
    lines
        .iter()
        .filter(|line| matches!(line.level, Level::Note))
        .count()
}
