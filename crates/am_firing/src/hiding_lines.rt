//! The lines of silences that hide all firing alerts of a receiver.

ghost use Rattle.std.specs.Prelude.{◌≡◌, ◌++◌, length, map, IfOk, OnOk};
ghost use Rattle.std.specs.Prelude.{◌<◌, true, false, IsFalse, slice_get, Some};
ghost use Rattle.std.specs.List.{All, AllByRecursion, enumerate_from, flat_map, range_with_len};
ghost use Rattle.std.specs.List.{zip};
ghost use Rattle.am_config.specs.ConfigView.{config_view};
ghost use Rattle.am_labels.specs.Matcher.{all_hold};
ghost use Rattle.am_eval.specs.Silencing.{is_active};
ghost use Rattle.am_report_texts.specs.LineView.{line_view};
ghost use Rattle.am_firing.specs.Going.{are_all_marked, positions_of};
ghost use Rattle.am_firing.specs.FiringLines.{hiding_line, hiding_lines, silence_lines};
ghost use Rattle.am_firing.specs.FiringLines.{told_lines};
ghost use Rattle.am_firing.specs.HidesAll.{is_all};
ghost use Rattle.am_list_files.specs.SilencesFile.{Silence};

use crate::matching::matches_of;
use am_config::Config;
use am_eval::World;
use am_idle::SilenceFinding;
use am_labels::Matchers;
use am_list_files::{Alerts, Silence};
use am_report_texts::{Field, Level, Line, Piece, Shown, plural, receiver_name};
use std::alloc::{AllocError, Global};

/// Adds the lines of the silences that hide all alerts of a receiver, but of none that hides each
/// ordinary alert with an alertname. `going` has for each receiver the positions of the alerts that
/// go to it, and `silences` what is said of each silence over every alert.
pub(crate) fn push_hiding_lines<'a>(
    alloc: Global,
    lines: &mut Vec<Line<'a>>,
    world: &'a World,
    going: &[Vec<usize>],
    silences: &[Option<SilenceFinding>],
) -> Result<(), AllocError>
    requires going { map (λ positions. positions.items) going.now
        ≡ map (positions_of world.now) (range_with_len 0 (length world.now.config.receivers)) }
    requires each { length silences.now ≡ length world.now.silences }
    ensures { OnOk result (map line_view lines.new.items ≡ map line_view lines.old.items
        ++ flat_map (told_lines world.now)
        (enumerate_from 0 (zip world.now.silences silences.now))) }
{
    for (i, finding) in silences.iter().enumerate() {
        push_told_lines(alloc, lines, world, going, i, finding)?;
    }
    Ok(())
}

/// Adds the lines of the silence at a position, with what is said of it over every alert.
fn push_told_lines<'a>(
    alloc: Global,
    lines: &mut Vec<Line<'a>>,
    world: &'a World,
    going: &[Vec<usize>],
    position: usize,
    finding: &Option<SilenceFinding>,
) -> Result<(), AllocError>
    requires going { map (λ positions. positions.items) going.now
        ≡ map (positions_of world.now) (range_with_len 0 (length world.now.config.receivers)) }
    requires there { position < length world.now.silences }
    ensures { OnOk result ((silence : Silence)
        → slice_get world.now.silences position ≡ Some silence
        → map line_view lines.new.items ≡ map line_view lines.old.items
        ++ told_lines world.now (position, (silence, finding.now))) }
{
    if is_all(finding) || !world.active(position) {
        return Ok(());
    }
    push_silence_lines(
        alloc,
        lines,
        world,
        going,
        position,
        world.silences().get(position),
    )
}

fn is_all(finding: &Option<SilenceFinding>) -> bool
    ensures { result ≡ is_all finding.now }
{
    matches!(finding, Some(SilenceFinding::All))
}

/// Adds the lines of the silence at a position, which is active. Its matchers are first tested for
/// the first alert of each receiver. Hardly any silence matches one, and only such a silence is
/// tested once for each alert.
fn push_silence_lines<'a>(
    alloc: Global,
    lines: &mut Vec<Line<'a>>,
    world: &'a World,
    going: &[Vec<usize>],
    position: usize,
    silence: &Silence,
) -> Result<(), AllocError>
    requires going { map (λ positions. positions.items) going.now
        ≡ map (positions_of world.now) (range_with_len 0 (length world.now.config.receivers)) }
    requires active { is_active world.now.instant silence.now ≡ true }
    ensures { OnOk result (map line_view lines.new.items ≡ map line_view lines.old.items
        ++ silence_lines world.now (position, silence.now)) }
{
    if !matches_a_first(alloc, silence.matchers(), world.alerts(), going)? {
        return Ok(());
    }
    let hidden = matches_of(alloc, silence.matchers(), world.alerts())?;
    for (receiver, positions) in going.iter().enumerate() {
        if are_all_marked(hidden.as_slice(), positions.as_slice()) {
            let count = positions.len();
            lines.push(hiding_line(alloc, world.config(), position, receiver, count)?)?;
        }
    }
    Ok(())
}

/// Whether a list of matchers matches the first of the alerts that go to some receiver. If not, it
/// matches all alerts of none. `going` has for each receiver the positions of the alerts that go to
/// it. Fails only if memory runs out.
fn matches_a_first(
    alloc: Global,
    matchers: &Matchers,
    alerts: &Alerts,
    going: &[Vec<usize>],
) -> Result<bool, AllocError>
    requires { All (λ positions. All (λ i. i < length alerts.now) positions.items) going.now }
    ensures { IfOk result (λ found. IsFalse found → AllByRecursion
        (λ positions. are_all_marked (map (λ alert. all_hold alert matchers.now) alerts.now)
        positions.items ≡ false) going.now) }
{
    let mut prepared = matchers.prepare(alloc);
    for positions in going {
        if let Some(first) = positions.first() {
            if prepared.matches(alloc, alerts.get(*first))? {
                return Ok(true);
            }
        }
    }
    Ok(false)
}

/// Whether there are positions, and each of them is marked.
fn are_all_marked(marks: &[bool], positions: &[usize]) -> bool
    requires { All (λ i. i < length marks.now) positions.now }
    ensures { result ≡ are_all_marked marks.now positions.now }
{
    !positions.is_empty() && positions.iter().all(|i| marks[*i])
}

/// Returns the line of the silence at a position that hides all alerts of a receiver, of which
/// there are this many.
fn hiding_line<'a>(
    alloc: Global,
    config: &'a Config,
    position: usize,
    receiver: usize,
    count: usize,
) -> Result<Line<'a>, AllocError>
    ensures { IfOk result (λ line.
        line_view line ≡ hiding_line (config_view config.now) position receiver count) }
{
    Ok(Line {
        level: Level::Note,
        pieces: vec![in alloc;
            Piece::Words("silence "),
            Piece::Value(Field::Silence, Shown::Number(position as u64)),
            Piece::Words(" "),
            Piece::Value(Field::Kind, Shown::Word("hides all")),
            Piece::Words(" of "),
            Piece::Value(
                Field::Receiver,
                Shown::Text(receiver_name(config, receiver))
            ),
            Piece::Words(": "),
            Piece::Value(Field::Alerts, Shown::Number(count as u64)),
            Piece::Words(" alert"),
            Piece::Words(plural(count as u128)),
        ]?,
    })
}
