//! The lines about a checked universe.

ghost use Rattle.std.specs.Prelude.{◌≡◌, ◌≤◌, ◌^◌, MatchOption, IfOk};
ghost use Rattle.std.specs.List.{list_all};
ghost use Rattle.am_universe.specs.Universe.{sizes};
ghost use Rattle.am_report_texts.specs.LineView.{line_view, piece_view, pieces_view, report_view};
ghost use Rattle.am_report_texts.specs.LineView.{shown_view};
ghost use Rattle.am_complete.specs.LabelState.{is_settled};
ghost use Rattle.am_universe_command.specs.CheckLines.{all_impossible_words, check_report};
ghost use Rattle.am_universe_command.specs.CheckLines.{count_line, label_sets, label_sets_pieces};
ghost use Rattle.am_universe_command.specs.CheckLines.{lacking_piece, shown_label, state_line};
ghost use Rattle.am_universe_command.specs.CheckLines.{state_piece, state_pieces, unseen_words};
ghost use Rattle.am_universe_command.specs.CheckLines.{verdict_words};

use am_asked::{place_of, pointer_to};
use am_complete::{Completeness, LabelState, is_label_name};
use am_report_texts::{Field, Level, Line, Piece, Report, Shown};
use am_universe::Universe;
use std::alloc::{AllocError, Global};

/// Returns what a universe lacks, as a report: a line for each label, the number of its label sets
/// and whether all of them are impossible, and whether nothing is missing. Fails only if memory
/// runs out.
pub(crate) fn check_report<'a>(
    alloc: Global,
    universe: &Universe,
    all_impossible: bool,
    states: &'a [LabelState],
) -> Result<Report<'a>, AllocError>
    ensures report { IfOk result (λ report.
        report_view report ≡ check_report (sizes universe.now) all_impossible states.now) }
{
    let mut lines = Vec::with_capacity(alloc, states.len() + 1)?;
    for state in states {
        lines.push(state_line(alloc, state)?)?;
    }
    lines.push(count_line(alloc, universe, all_impossible)?)?;
    Ok(Report {
        lines,
        last: vec![in alloc; Piece::Words(verdict_words(states))]?,
    })
}

/// Returns the line of a label.
fn state_line(alloc: Global, state: &LabelState) -> Result<Line<'_>, AllocError>
    ensures { IfOk result (λ line. line_view line ≡ state_line state.now) }
{
    let mut pieces = vec![in alloc;
        Piece::Value(Field::Label, shown_label(alloc, state.name.as_str())),
        Piece::Words(" "),
    ]?;
    pieces.append(&mut state_pieces(alloc, &state.completeness)?)?;
    pieces.push(Piece::Words(unseen_words(state.unseen)))?;
    Ok(Line {
        level: Level::Plain,
        pieces,
    })
}

/// The name of a label, in quotes if it is not a label name.
fn shown_label(alloc: Global, name: &str) -> Shown<'_>
    ensures { shown_view result ≡ shown_label name.now }
{
    if is_label_name(alloc, name) {
        Shown::Word(name)
    } else {
        Shown::Text(name)
    }
}

/// Returns the state of a label.
fn state_pieces(alloc: Global, completeness: &Completeness) -> Result<Vec<Piece<'_>>, AllocError>
    ensures { IfOk result (λ pieces. pieces_view pieces.items ≡ state_pieces completeness.now) }
{
    match completeness {
        Completeness::Complete(classes) => Ok(vec![in alloc;
            state_piece("complete"),
            Piece::Words(" "),
            Piece::Value(Field::Classes, Shown::Number(*classes as u64)),
        ]?),
        Completeness::Lacks(lacking) => Ok(vec![in alloc;
            state_piece("lacks"),
            Piece::Words(" "),
            lacking_piece(lacking.as_str()),
        ]?),
        Completeness::Unasked => Ok(vec![in alloc; state_piece("unasked")]?),
        Completeness::Undeclarable => Ok(vec![in alloc; state_piece("undeclarable")]?),
        Completeness::Unproved(origin) => {
            let pointer = pointer_to(alloc, origin)?;
            Ok(vec![in alloc;
                state_piece("unproved"),
                Piece::Words(" "),
                Piece::Value(Field::Place, Shown::Word(place_of(origin).text())),
                Piece::Words(" "),
                Piece::Value(Field::Pointer, Shown::Pointer(pointer)),
            ]?)
        }
    }
}

fn state_piece(word: &'static str) -> Piece<'static>
    ensures { piece_view result ≡ state_piece word.now }
{
    Piece::Value(Field::State, Shown::Word(word))
}

/// A text that is missing. The empty text is absence.
fn lacking_piece(lacking: &str) -> Piece<'_>
    ensures { piece_view result ≡ lacking_piece lacking.now }
{
    if lacking.is_empty() {
        Piece::Words("absent")
    } else {
        Piece::Value(Field::Lacks, Shown::Text(lacking))
    }
}

fn unseen_words(unseen: bool) -> &'static str
    ensures { result.now ≡ unseen_words unseen }
{
    if unseen { " unseen" } else { "" }
}

/// Returns the line with the number of label sets of a universe, impossible ones included, and
/// whether all of them are impossible.
fn count_line(
    alloc: Global,
    universe: &Universe,
    all_impossible: bool,
) -> Result<Line<'static>, AllocError>
    ensures { IfOk result (λ line.
        line_view line ≡ count_line (label_sets (sizes universe.now)) all_impossible) }
{
    let mut pieces = label_sets_pieces(alloc, universe)?;
    pieces.push(Piece::Words(all_impossible_words(all_impossible)))?;
    Ok(Line {
        level: Level::Plain,
        pieces,
    })
}

fn label_sets_pieces<'a>(alloc: Global, universe: &Universe) -> Result<Vec<Piece<'a>>, AllocError>
    ensures { IfOk result (λ pieces.
        pieces_view pieces.items ≡ label_sets_pieces (label_sets (sizes universe.now))) }
{
    match label_sets(universe) {
        Some(count) => Ok(vec![in alloc;
            Piece::Value(Field::LabelSets, Shown::Number(count)),
            Piece::Words(" label sets"),
        ]?),
        None => Ok(vec![in alloc; Piece::Words("more than 18446744073709551615 label sets")]?),
    }
}

fn all_impossible_words(all_impossible: bool) -> &'static str
    ensures { result.now ≡ all_impossible_words all_impossible }
{
    if all_impossible {
        ", all impossible"
    } else {
        ""
    }
}

/// The number of label sets of a universe. Returns `None` if it does not fit in a `u64`.
fn label_sets(universe: &Universe) -> Option<u64>
    ensures { MatchOption result (2 ^ 64 ≤ label_sets (sizes universe.now))
        (λ count. count ≡ label_sets (sizes universe.now)) }
{
    let mut count: u64 = 1;
    for i in 0..universe.len() {
        count = count.checked_mul(universe.size(i) as u64)?;
    }
    Some(count)
}

/// Whether nothing is missing.
fn verdict_words(states: &[LabelState]) -> &'static str
    ensures { result.now ≡ verdict_words states.now }
{
    if are_settled(states) {
        "# complete"
    } else {
        "# incomplete"
    }
}

fn are_settled(states: &[LabelState]) -> bool
    ensures { result ≡ list_all (λ state. is_settled state.completeness) states.now }
{
    states.iter().all(|state| is_settled(state))
}

/// Whether nothing is missing at a label.
fn is_settled(state: &LabelState) -> bool
    ensures { result ≡ is_settled state.now.completeness }
{
    match state.completeness {
        Completeness::Complete(_) | Completeness::Unasked => true,
        Completeness::Lacks(_) | Completeness::Undeclarable | Completeness::Unproved(_) => false,
    }
}
