//! The report of a comparison.

ghost use Rattle.std.specs.Prelude.{◌≡◌, map, option_map, IfOk};
ghost use Rattle.am_config.specs.ConfigView.{config_view, whole_config_view};
ghost use Rattle.am_report_texts.specs.LineView.{line_view, pieces_view, report_view};
ghost use Rattle.am_differences.specs.Options.{option_name};
ghost use Rattle.am_outcomes.specs.OutcomesView.{found_view, founds_view, labels_view, lists_view};
ghost use Rattle.am_outcomes.specs.ChangeLines.{change_line, change_pieces, changed_pieces};
ghost use Rattle.am_outcomes.specs.ChangeLines.{options_pieces};
ghost use Rattle.am_outcomes.specs.ChangeLines.{changes_report, count_changes, count_pieces};
ghost use Rattle.am_outcomes.specs.ChangeLines.{receiver_counts, receiver_line};

use crate::changes::{FoundReceiver, ShownChange, Side, first_on_one_side};
use crate::handling::have_same_names;
use crate::outcome_lines::list_at;
use am_config::{Config, WholeConfig};
use am_differences::{option_name, part_lines};
use am_report_texts::{Field, Level, Line, Name, Piece, Report, Shown, plural, receiver_names};
use std::alloc::{AllocError, Global};

/// What differs between two configurations.
#[derive(Drop)]
pub struct Comparison<'a> {
    pub report: Report<'a>,
    /// The number of changes: those of outcomes, and the parts that differ.
    pub changes: usize,
}

/// Compares two configurations, given the changes. The report has a line for each receiver that
/// loses alerts, then for each that gains some, for each change, and for each part of the files
/// that differs; and then the counts. Fails only if memory runs out.
pub fn compare_changes<'a>(
    alloc: Global,
    old: &'a WholeConfig,
    new: &'a WholeConfig,
    changes: &[ShownChange<'a>],
) -> Result<Comparison<'a>, AllocError>
    ensures report { IfOk result (λ compared. report_view compared.report
        ≡ changes_report (whole_config_view old.now) (whole_config_view new.now) changes.now) }
    ensures changes { IfOk result (λ compared. compared.changes
        ≡ count_changes (whole_config_view old.now) (whole_config_view new.now) changes.now) }
{
    let (before, after) = (
        Side {
            config: &old.config,
            list: 0,
        },
        Side {
            config: &new.config,
            list: 1,
        },
    );
    let lost = first_on_one_side(alloc, before, after, changes)?;
    let gained = first_on_one_side(alloc, after, before, changes)?;
    let mut lines = receiver_lines(alloc, "loses", lost.as_slice())?;
    lines.append(&mut receiver_lines(alloc, "gains", gained.as_slice())?)?;
    let mut changed = change_lines(alloc, &old.config, &new.config, changes)?;
    changed.append(&mut part_lines(alloc, old, new)?)?;
    let count = changed.len();
    lines.append(&mut changed)?;
    let last = count_pieces(alloc, count, lost.len(), gained.len())?;
    Ok(Comparison {
        report: Report { lines, last },
        changes: count,
    })
}

/// Returns a line for each receiver that loses or gains alerts, as the word says.
fn receiver_lines<'a>(
    alloc: Global,
    word: &'static str,
    found: &[FoundReceiver<'a, '_>],
) -> Result<Vec<Line<'a>>, AllocError>
    ensures { IfOk result (λ lines. map line_view lines.items
        ≡ map (receiver_line word.now) (founds_view found.now)) }
{
    let mut lines = Vec::with_capacity(alloc, found.len())?;
    for receiver in found {
        lines.push(receiver_line(alloc, word, receiver)?)?;
    }
    Ok(lines)
}

fn receiver_line<'a>(
    alloc: Global,
    word: &'static str,
    found: &FoundReceiver<'a, '_>,
) -> Result<Line<'a>, AllocError>
    ensures { IfOk result (λ line. line_view line
        ≡ receiver_line word.now (found_view found.now)) }
{
    let change = found.change;
    let labels = change.labels.as_slice().to_vec(alloc)?;
    Ok(Line {
        level: Level::Plain,
        pieces: vec![in alloc;
            Piece::Value(Field::Receiver, Shown::Text(found.name)),
            Piece::Words(" "),
            Piece::Value(Field::Kind, Shown::Word(word)),
            Piece::Words(" alerts such as"),
            Piece::Words(" "),
            Piece::Value(Field::Labels, Shown::Labels(labels)),
        ]?,
    })
}

/// Returns a line for each change.
fn change_lines<'a>(
    alloc: Global,
    old: &'a Config,
    new: &'a Config,
    changes: &[ShownChange<'a>],
) -> Result<Vec<Line<'a>>, AllocError>
    ensures { IfOk result (λ lines. map line_view lines.items
        ≡ map (change_line (config_view old.now) (config_view new.now)) changes.now) }
{
    let mut lines = Vec::with_capacity(alloc, changes.len())?;
    for change in changes {
        lines.push(change_line(alloc, old, new, change)?)?;
    }
    Ok(lines)
}

fn change_line<'a>(
    alloc: Global,
    old: &'a Config,
    new: &'a Config,
    change: &ShownChange<'a>,
) -> Result<Line<'a>, AllocError>
    ensures { IfOk result (λ line. line_view line
        ≡ change_line (config_view old.now) (config_view new.now) change.now) }
{
    let changed = changed_pieces(alloc, old, new, change.lists)?;
    let labels = change.labels.as_slice().to_vec(alloc)?;
    Ok(Line {
        level: Level::Plain,
        pieces: change_pieces(alloc, change.group, labels, changed)?,
    })
}

/// Returns the pieces of the line of a change, given those that say what changes.
fn change_pieces<'a>(
    alloc: Global,
    group: Option<&'a str>,
    labels: Vec<(&'a str, &'a str)>,
    changed: Vec<Piece<'a>>,
) -> Result<Vec<Piece<'a>>, AllocError>
    ensures { IfOk result (λ pieces. pieces_view pieces.items ≡ change_pieces
        (option_map (λ g. g.now) group.entry) (labels_view labels.entry.items)
        (pieces_view changed.entry.items)) }
{
    let (mut changed, labels) = (changed, Piece::Value(Field::Labels, Shown::Labels(labels)));
    let Some(group) = group else {
        changed.append(&mut vec![in alloc; Piece::Words(" "), labels]?)?;
        return Ok(changed);
    };
    let mut pieces = vec![in alloc;
        Piece::Value(Field::Group, Shown::Text(group)),
        Piece::Words(" "),
        labels,
        Piece::Words(": "),
    ]?;
    pieces.append(&mut changed)?;
    Ok(pieces)
}

/// Returns the pieces that say what changes.
fn changed_pieces<'a>(
    alloc: Global,
    old: &'a Config,
    new: &'a Config,
    lists: &[Vec<usize>],
) -> Result<Vec<Piece<'a>>, AllocError>
    ensures { IfOk result (λ pieces. pieces_view pieces.items
        ≡ changed_pieces (config_view old.now) (config_view new.now) (lists_view lists.now)) }
{
    let (before, after) = (list_at(lists, 0), list_at(lists, 1));
    let names = Shown::Texts(receiver_names(alloc, new, after)?);
    let mut pieces = if have_same_names(old, before, new, after) {
        vec![in alloc; Piece::Value(Field::Receivers, names)]?
    } else {
        vec![in alloc;
            Piece::Value(
                Field::Old,
                Shown::Texts(receiver_names(alloc, old, before)?)
            ),
            Piece::Words(" -> "),
            Piece::Value(Field::New, names),
        ]?
    };
    pieces.append(&mut options_pieces(alloc, list_at(lists, 2))?)?;
    Ok(pieces)
}

/// Returns the pieces that name options, or none if there are no options.
fn options_pieces<'a>(alloc: Global, options: &[usize]) -> Result<Vec<Piece<'a>>, AllocError>
    ensures { IfOk result (λ pieces. pieces_view pieces.items ≡ options_pieces options.now) }
{
    if options.is_empty() {
        return Ok(Vec::new(alloc));
    }
    Ok(vec![in alloc;
        Piece::Words(" other "),
        Piece::Value(Field::Options, Shown::Names(option_names(alloc, options)?)),
    ]?)
}

/// Returns the names of options.
fn option_names(alloc: Global, options: &[usize]) -> Result<Vec<Name<'static>>, AllocError>
    ensures { IfOk result (λ names.
        map (λ n. n.0.now) names.items ≡ map option_name options.now) }
{
    let mut names = Vec::with_capacity(alloc, options.len())?;
    for option in options {
        names.push(Name(option_name(*option)))?;
    }
    Ok(names)
}

/// Returns the pieces of the last line: how many changes there are, and how many receivers lose
/// alerts and gain some.
fn count_pieces(
    alloc: Global,
    changes: usize,
    lost: usize,
    gained: usize,
) -> Result<Vec<Piece<'static>>, AllocError>
    ensures { IfOk result (λ pieces.
        pieces_view pieces.items ≡ count_pieces changes lost gained) }
{
    let mut pieces = vec![in alloc;
        Piece::Words("# "),
        Piece::Value(Field::Changes, Shown::Number(changes as u64)),
        Piece::Words(" change"),
        Piece::Words(plural(changes as u128)),
    ]?;
    if lost > 0 || gained > 0 {
        pieces.append(&mut receiver_counts(alloc, lost, gained)?)?;
    }
    Ok(pieces)
}

fn receiver_counts(
    alloc: Global,
    lost: usize,
    gained: usize,
) -> Result<Vec<Piece<'static>>, AllocError>
    ensures { IfOk result (λ pieces. pieces_view pieces.items ≡ receiver_counts lost gained) }
{
    Ok(vec![in alloc;
        Piece::Words(", "),
        Piece::Value(Field::Losses, Shown::Number(lost as u64)),
        Piece::Words(" receiver"),
        Piece::Words(plural(lost as u128)),
        Piece::Words(if lost == 1 {
            " loses alerts, "
        } else {
            " lose alerts, "
        }),
        Piece::Value(Field::Gains, Shown::Number(gained as u64)),
        Piece::Words(if gained == 1 { " gains" } else { " gain" }),
    ]?)
}
