//! The lines of outcomes under one configuration.

ghost use Rattle.std.specs.Prelude.{◌≡◌, IfOk};
ghost use Rattle.am_universe.specs.Universe.{sizes};
ghost use Rattle.am_universe.specs.Choice.{IsWhole};
ghost use Rattle.am_labels.specs.Space.{Space};
ghost use Rattle.am_config.specs.ConfigView.{config_view};
ghost use Rattle.am_report_texts.specs.LineView.{line_view, report_view};
ghost use Rattle.am_outcomes.specs.Configurations.{One};
ghost use Rattle.am_outcomes.specs.OutcomesView.{lists_view};
ghost use Rattle.am_outcomes.specs.Outcomes.{outcomes_of};
ghost use Rattle.am_outcomes.specs.OutcomeLines.{list_at, outcome_line, outcomes_report};

use crate::found::Outcomes;
use am_config::Config;
use am_report_texts::{Field, Level, Line, Piece, Report, Shown, label_set, receiver_names};
use am_universe::{Choice, Universe};
use std::alloc::{AllocError, Global};

/// Returns a line for each outcome under a configuration, and then `# end`. A line has the names of
/// the receivers, and the label set of the first choice. The outcomes must be those of a space with
/// the labels of the universe. Fails only if memory runs out.
pub fn outcomes_report<'a>(
    alloc: Global,
    universe: &'a Universe,
    config: &'a Config,
    outcomes: &Outcomes,
) -> Result<Report<'a>, AllocError>
    requires { (s : Space) × (s.labels ≡ universe.now)
        × (outcomes.now ≡ outcomes_of s (One (config_view config.now))) }
    ensures report { IfOk result (λ report. report_view report
        ≡ outcomes_report universe.now (config_view config.now) outcomes.now) }
{
    let mut lines = Vec::with_capacity(alloc, outcomes.len())?;
    for i in 0..outcomes.len() {
        let (lists, first) = outcomes.get(i);
        lines.push(outcome_line(alloc, universe, config, lists, first)?)?;
    }
    Ok(Report {
        lines,
        last: vec![in alloc; Piece::Words("# end")]?,
    })
}

fn outcome_line<'a>(
    alloc: Global,
    universe: &'a Universe,
    config: &'a Config,
    lists: &[Vec<usize>],
    first: &Choice,
) -> Result<Line<'a>, AllocError>
    requires { IsWhole (sizes universe.now) first.now }
    ensures { IfOk result (λ line. line_view line ≡ outcome_line universe.now
        (config_view config.now) (lists_view lists.now, first.now)) }
{
    let receivers = receiver_names(alloc, config, list_at(lists, 0))?;
    Ok(Line {
        level: Level::Plain,
        pieces: vec![in alloc;
            Piece::Value(Field::Receivers, Shown::Texts(receivers)),
            Piece::Words(" "),
            Piece::Value(Field::Labels, label_set(alloc, universe, first)?),
        ]?,
    })
}

/// The list of an outcome at a position, or no items if it has no such list.
pub fn list_at(lists: &[Vec<usize>], i: usize) -> &[usize]
    ensures list { result.now ≡ list_at i (lists_view lists.now) }
{
    match lists.get(i) {
        Some(list) => list.as_slice(),
        None => &[],
    }
}
