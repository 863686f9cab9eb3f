//! The lines of unseen names and of unseen matchers.

ghost use Rattle.std.specs.Prelude.{◌≡◌, ◌++◌, map, option_map, IfOk, OnOk};
ghost use Rattle.std.specs.List.{flat_map};
ghost use Rattle.am_report_texts.specs.LineView.{line_view, pieces_view, shown_view};
ghost use Rattle.am_unseen.specs.UnseenLines.{numbered, place_pieces, begun_pieces};
ghost use Rattle.am_unseen.specs.UnseenLines.{compared_field, name_line, matcher_line};
ghost use Rattle.am_unseen.specs.UnseenLines.{name_lines, matcher_lines};
ghost use Rattle.am_unseen.specs.UnseenLines.{similar_pieces, similar_name_pieces};
ghost use Rattle.am_unseen.specs.UnseenLines.{similar_value_pieces, unseen_lines};

use crate::known::Known;
use crate::search::unseen_matchers;
use crate::unseen_matcher::UnseenMatcher;
use crate::unseen_name::{UnseenName, unseen_names};
use am_complete::Origin;
use am_eval::World;
use am_labels::Comparison;
use am_report_texts::{Field, Level, Line, Piece, Shown};
use am_universe::LabelSet;
use std::alloc::{AllocError, Global};

/// Adds a line for each label name that a world mentions and that is not known, and then one for
/// each matcher that asks for a value that is not known, though some value of the label is. Known
/// are the names and values in the label sets of the alerts of the world, and in `rules`, the label
/// sets that alerting rules fix. Without alerts there is a line only if a known name or value is
/// similar. Without alerts and rules there are no lines.
///
/// Names come once, in the order in which they are first mentioned. Matchers come in their order:
/// those of the routes in preorder, then those of both sides of the inhibition rules, and then
/// those of the silences that are not over. Fails only if memory runs out.
pub fn push_unseen<'a>(
    alloc: Global,
    lines: &mut Vec<Line<'a>>,
    world: &'a World,
    rules: &'a [LabelSet],
) -> Result<(), AllocError>
    ensures lines { OnOk result (map line_view lines.new.items
        ≡ map line_view lines.old.items ++ unseen_lines world.now rules.now) }
{
    let names = unseen_names(alloc, world, rules)?;
    let matchers = unseen_matchers(alloc, world, rules)?;
    let known = Known::of(world.alerts(), rules);
    push_names(alloc, lines, known, names.as_slice())?;
    push_matchers(alloc, lines, known, matchers.as_slice())
}

/// Adds a line for each unseen name that is told.
fn push_names<'a>(
    alloc: Global,
    lines: &mut Vec<Line<'a>>,
    known: Known,
    names: &[UnseenName<'a>],
) -> Result<(), AllocError>
    ensures { OnOk result (map line_view lines.new.items
        ≡ map line_view lines.old.items ++ flat_map (name_lines known) names.now) }
{
    for unseen in names {
        push_name(alloc, lines, known, unseen)?;
    }
    Ok(())
}

/// Adds a line for an unseen name, if it is told.
fn push_name<'a>(
    alloc: Global,
    lines: &mut Vec<Line<'a>>,
    known: Known,
    unseen: &UnseenName<'a>,
) -> Result<(), AllocError>
    ensures { OnOk result (map line_view lines.new.items
        ≡ map line_view lines.old.items ++ name_lines known unseen.now) }
{
    if known.tells(unseen.similar) {
        lines.push(name_line(alloc, known, unseen)?)?;
    }
    Ok(())
}

/// Adds a line for each unseen matcher that is told.
fn push_matchers<'a>(
    alloc: Global,
    lines: &mut Vec<Line<'a>>,
    known: Known,
    matchers: &[UnseenMatcher<'a>],
) -> Result<(), AllocError>
    ensures { OnOk result (map line_view lines.new.items
        ≡ map line_view lines.old.items ++ flat_map (matcher_lines known) matchers.now) }
{
    for unseen in matchers {
        push_matcher(alloc, lines, known, unseen)?;
    }
    Ok(())
}

/// Adds a line for an unseen matcher, if it is told.
fn push_matcher<'a>(
    alloc: Global,
    lines: &mut Vec<Line<'a>>,
    known: Known,
    unseen: &UnseenMatcher<'a>,
) -> Result<(), AllocError>
    ensures { OnOk result (map line_view lines.new.items
        ≡ map line_view lines.old.items ++ matcher_lines known unseen.now) }
{
    if known.tells(unseen.similar) {
        lines.push(matcher_line(alloc, known, unseen)?)?;
    }
    Ok(())
}

/// Returns the line of an unseen name.
fn name_line<'a>(
    alloc: Global,
    known: Known,
    unseen: &UnseenName<'a>,
) -> Result<Line<'a>, AllocError>
    ensures { IfOk result (λ line. line_view line ≡ name_line known unseen.now) }
{
    let mut pieces = begun_pieces(alloc, known, &unseen.origin, unseen.name)?;
    pieces.append(&mut similar_name_pieces(alloc, unseen.similar)?)?;
    Ok(Line {
        level: Level::Note,
        pieces,
    })
}

/// Returns the line of an unseen matcher.
fn matcher_line<'a>(
    alloc: Global,
    known: Known,
    unseen: &UnseenMatcher<'a>,
) -> Result<Line<'a>, AllocError>
    ensures { IfOk result (λ line. line_view line ≡ matcher_line known unseen.now) }
{
    let mut pieces = begun_pieces(alloc, known, &unseen.origin, unseen.name)?;
    pieces.append(&mut vec![in alloc;
        Piece::Words(unseen.op.text()),
        Piece::Value(
            compared_field(unseen.op.comparison()),
            Shown::Text(unseen.value)
        ),
    ]?)?;
    pieces.append(&mut similar_value_pieces(alloc, unseen.similar)?)?;
    Ok(Line {
        level: Level::Note,
        pieces,
    })
}

/// Returns the pieces of a line up to the name of the label.
fn begun_pieces<'a>(
    alloc: Global,
    known: Known,
    origin: &Origin,
    name: &'a str,
) -> Result<Vec<Piece<'a>>, AllocError>
    ensures { IfOk result (λ pieces.
        pieces_view pieces.items ≡ begun_pieces known origin.now name.now) }
{
    let mut pieces = place_pieces(alloc, origin)?;
    pieces.append(&mut vec![in alloc;
        Piece::Words(" "),
        Piece::Value(Field::Kind, Shown::Word("unseen")),
        Piece::Words(": no "),
        Piece::Words(known.text()),
        Piece::Words(" has "),
        Piece::Value(Field::Name, Shown::Name(name)),
    ]?)?;
    Ok(pieces)
}

/// Returns the place of a matcher or of a name.
fn place_pieces<'a>(alloc: Global, origin: &Origin) -> Result<Vec<Piece<'a>>, AllocError>
    ensures { IfOk result (λ pieces. pieces_view pieces.items ≡ place_pieces origin.now) }
{
    match origin {
        Origin::Route(path) => Ok(vec![in alloc; Piece::Value(Field::Path, Shown::Path(*path))]?),
        Origin::Rule(position) => numbered(alloc, "rule ", Field::Rule, *position),
        Origin::Silence(position) => numbered(alloc, "silence ", Field::Silence, *position),
        Origin::Question(position) => numbered(alloc, "question ", Field::Question, *position),
        Origin::Impossible(position) => {
            numbered(alloc, "impossible ", Field::Impossible, *position)
        }
    }
}

/// Returns what a position counts, and the position.
fn numbered<'a>(
    alloc: Global,
    kind: &'static str,
    field: Field,
    position: usize,
) -> Result<Vec<Piece<'a>>, AllocError>
    ensures { IfOk result (λ pieces.
        pieces_view pieces.items ≡ numbered kind.now field position) }
{
    let position = Piece::Value(field, Shown::Number(position as u64));
    Ok(vec![in alloc; Piece::Words(kind), position]?)
}

/// Returns the field of what a matcher compares with.
fn compared_field(comparison: Comparison) -> Field
    ensures { result ≡ compared_field comparison }
{
    match comparison {
        Comparison::Text => Field::Value,
        Comparison::Pattern => Field::Pattern,
    }
}

/// Returns the most similar name, if there is one.
fn similar_name_pieces<'a>(
    alloc: Global,
    similar: Option<&'a str>,
) -> Result<Vec<Piece<'a>>, AllocError>
    ensures { IfOk result (λ pieces. pieces_view pieces.items
        ≡ similar_name_pieces (option_map (λ n. n.now) similar.entry)) }
{
    match similar {
        None => Ok(Vec::new(alloc)),
        Some(name) => similar_pieces(alloc, Shown::Name(name)),
    }
}

/// Returns the most similar value, if there is one.
fn similar_value_pieces<'a>(
    alloc: Global,
    similar: Option<&'a str>,
) -> Result<Vec<Piece<'a>>, AllocError>
    ensures { IfOk result (λ pieces. pieces_view pieces.items
        ≡ similar_value_pieces (option_map (λ v. v.now) similar.entry)) }
{
    match similar {
        None => Ok(Vec::new(alloc)),
        Some(value) => similar_pieces(alloc, Shown::Text(value)),
    }
}

/// Returns what is known that is similar.
fn similar_pieces<'a>(alloc: Global, similar: Shown<'a>) -> Result<Vec<Piece<'a>>, AllocError>
    ensures { IfOk result (λ pieces.
        pieces_view pieces.items ≡ similar_pieces (shown_view similar.entry)) }
{
    Ok(vec![in alloc;
        Piece::Words(", some have "),
        Piece::Value(Field::Similar, similar),
    ]?)
}
