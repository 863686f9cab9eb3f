//! The lines of alerts.

ghost use Rattle.std.specs.Prelude.{◌≡◌, ◌<◌, ℕ, List, Option, length, map, string_bytes, IfOk};
ghost use Rattle.std.specs.Prelude.{slice_get, Some};
ghost use Rattle.std.specs.FinMap.{entries};
ghost use Rattle.am_universe.specs.LabelSet.{LabelMap};
ghost use Rattle.am_eval.specs.QuestionView.{question_view};
ghost use Rattle.am_report_texts.specs.Line as spec;
ghost use Rattle.am_report_texts.specs.LineView.{line_view, report_view, shown_view};
ghost use Rattle.am_alerts.specs.SilenceIds.{AreNames, name_at};
ghost use Rattle.am_alerts.specs.AlertLines.{alert_line, alerts_report, line_of, lines_of};
ghost use Rattle.am_alerts.specs.AlertLines.{words_before};
ghost use Rattle.am_alerts.specs.MutingRoutes.{TellIntervals};

use crate::intervals::{MutingRoute, intervals_of};
use crate::outcomes::Outcomes;
use crate::truth::truths_of;
use am_eval::Question;
use am_report_texts::{Field, Level, Line, Piece, Report, Shown, receiver_names};
use am_universe::LabelSet;
use std::alloc::{AllocError, Global};

/// Returns a line for each alert of which a question is true, in their order, and then `# end`. The
/// silences of the world have these names. Fails only if memory runs out.
pub(crate) fn alerts_report<'o>(
    alloc: Global,
    outcomes: &'o Outcomes<'_>,
    names: &'o [String],
    question: &Question,
) -> Result<Report<'o>, AllocError>
    ensures report { IfOk result (λ report. (ids : List (Option (List ℕ)))
        → AreNames ids (length outcomes.now.silences) (map string_bytes names.now)
        → report_view report ≡ alerts_report outcomes.now.config
        (lines_of outcomes.now ids (question_view question.now))) }
{
    let truths = truths_of(alloc, outcomes, question)?;
    let muting = outcomes.muting_routes(alloc)?;
    let mut lines = Vec::new(alloc);
    for position in 0..outcomes.world().alerts().len() {
        if truths[position] {
            lines.push(alert_line(alloc, outcomes, names, muting.as_slice(), position)?)?;
        }
    }
    Ok(Report {
        lines,
        last: vec![in alloc; Piece::Words("# end")]?,
    })
}

/// Returns the line of the alert at a position.
fn alert_line<'o>(
    alloc: Global,
    outcomes: &'o Outcomes<'_>,
    names: &'o [String],
    muting: &[MutingRoute<'o>],
    position: usize,
) -> Result<Line<'o>, AllocError>
    requires position { position < length outcomes.now.alerts }
    requires muting { TellIntervals outcomes.now muting.now position }
    ensures { IfOk result (λ line. (ids : List (Option (List ℕ))) (s : LabelMap)
        → AreNames ids (length outcomes.now.silences) (map string_bytes names.now)
        → slice_get outcomes.now.alerts position ≡ Some s
        → line_view line
        ≡ alert_line outcomes.now.config (line_of outcomes.now ids (position, s))) }
{
    let world = outcomes.world();
    let outcome = outcomes.at(position);
    let receivers = receiver_names(alloc, world.config(), outcome.receivers)?;
    let silencers = names_of(alloc, names, outcome.silencers)?;
    let intervals = intervals_of(alloc, muting, position)?;
    let labels = labels_of(alloc, world.alerts().get(position))?;
    Ok(Line {
        level: Level::Plain,
        pieces: vec![in alloc;
            Piece::Value(Field::Alert, Shown::Number(position as u64)),
            Piece::Words(" "),
            Piece::Value(Field::Labels, labels),
            Piece::Words(" -> "),
            Piece::Value(Field::Receivers, Shown::Texts(receivers)),
            Piece::Words(words_before(" silenced ", outcome.silencers)),
            Piece::Value(Field::Silenced, Shown::Texts(silencers)),
            Piece::Words(words_before(" inhibited ", outcome.inhibitors)),
            Piece::Value(Field::Inhibited, Shown::Inhibitors(outcome.inhibitors)),
            Piece::Words(words_before(" intervals ", intervals.as_slice())),
            Piece::Value(Field::Intervals, Shown::Texts(intervals)),
        ]?,
    })
}

/// Returns the names of silences, which are given by their positions. One without a name has the
/// empty text.
fn names_of<'o>(
    alloc: Global,
    names: &'o [String],
    silences: &[usize],
) -> Result<Vec<&'o str>, AllocError>
    ensures { IfOk result (λ found. map (λ n. n.now) found.items
        ≡ map (name_at (map string_bytes names.now)) silences.now) }
{
    let mut found = Vec::with_capacity(alloc, silences.len())?;
    for silence in silences {
        found.push(name_at(names, *silence))?;
    }
    Ok(found)
}

/// The name at a position, or the empty text if there is none.
fn name_at(names: &[String], silence: usize) -> &str
    ensures { result.now ≡ name_at (map string_bytes names.now) silence }
{
    match names.get(silence) {
        Some(name) => name.as_str(),
        None => "",
    }
}

/// Words before a list, unless it is empty.
fn words_before<T>(words: &'static str, items: &[T]) -> &'static str
    ensures { result.now ≡ words_before words.now items.now }
{
    if items.is_empty() { "" } else { words }
}

/// Returns the label set of an alert, with its labels in the order of the bytes of their names.
fn labels_of<'a>(alloc: Global, set: &'a LabelSet) -> Result<Shown<'a>, AllocError>
    ensures { IfOk result (λ labels. shown_view labels ≡ spec.Labels (entries set.now)) }
{
    let mut labels = Vec::new(alloc);
    for (name, value) in set.values() {
        labels.push((name.as_str(), value.as_str()))?;
    }
    Ok(Shown::Labels(labels))
}
