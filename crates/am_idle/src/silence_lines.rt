//! The line of a silence.

ghost use Rattle.std.specs.Prelude.{◌≡◌, ◌++◌, map, IfOk, OnOk};
ghost use Rattle.am_report_texts.specs.LineView.{line_view};
ghost use Rattle.am_idle.specs.SilenceLines.{silence_kind, silence_level, silence_line};
ghost use Rattle.am_idle.specs.SilenceLines.{silence_lines, silence_reason};

use crate::silences::SilenceFinding;
use am_list_files::Silence;
use am_report_texts::{Field, Level, Line, Piece, Shown, all_matchers};
use std::alloc::{AllocError, Global};

/// Adds the line of the silence at a position, or nothing without a finding. Fails only if memory
/// runs out.
pub fn push_silence_line<'a>(
    alloc: Global,
    lines: &mut Vec<Line<'a>>,
    position: usize,
    silence: &'a Silence,
    finding: &Option<SilenceFinding>,
) -> Result<(), AllocError>
    ensures lines { OnOk result (map line_view lines.new.items
        ≡ map line_view lines.old.items ++ silence_lines position silence.now finding.now) }
{
    if let Some(finding) = finding {
        lines.push(silence_line(alloc, position, silence, finding)?)?;
    }
    Ok(())
}

fn silence_line<'a>(
    alloc: Global,
    position: usize,
    silence: &'a Silence,
    finding: &SilenceFinding,
) -> Result<Line<'a>, AllocError>
    ensures { IfOk result (λ line.
        line_view line ≡ silence_line position silence.now finding.now) }
{
    let matchers = all_matchers(alloc, silence.matchers())?;
    Ok(Line {
        level: silence_level(finding),
        pieces: vec![in alloc;
            Piece::Words("silence "),
            Piece::Value(Field::Silence, Shown::Number(position as u64)),
            Piece::Words(" "),
            Piece::Value(Field::Kind, Shown::Word(silence_kind(finding))),
            Piece::Words(": "),
            Piece::Value(Field::Reason, Shown::Word(silence_reason(finding))),
            Piece::Words(" "),
            Piece::Value(Field::Matchers, Shown::Matchers(matchers)),
        ]?,
    })
}

fn silence_kind(finding: &SilenceFinding) -> &'static str
    ensures { result.now ≡ silence_kind finding.now }
{
    match finding {
        SilenceFinding::Idle => "idle",
        SilenceFinding::All => "all",
        SilenceFinding::Unused => "unused",
        SilenceFinding::Unproved => "unproved",
        SilenceFinding::Undecided(_) => "undecided",
    }
}

/// What the line says of the alerts that match.
fn silence_reason(finding: &SilenceFinding) -> &'static str
    ensures { result.now ≡ silence_reason finding.now }
{
    match finding {
        SilenceFinding::Idle => "no alert matches",
        SilenceFinding::All => "every ordinary alert with an alertname matches",
        SilenceFinding::Unused => "no alert of the file matches",
        SilenceFinding::Unproved | SilenceFinding::Undecided(_) => {
            "it is not known which alerts match"
        }
    }
}

fn silence_level(finding: &SilenceFinding) -> Level
    ensures { result ≡ silence_level finding.now }
{
    match finding {
        SilenceFinding::Idle | SilenceFinding::All | SilenceFinding::Undecided(_) => Level::Finding,
        SilenceFinding::Unused | SilenceFinding::Unproved => Level::Note,
    }
}
