//! Reports as a text.
#![tactic(auto, using(crate::proofs::PieceSteps::text_steps))]

ghost use Rattle.std.specs.Prelude.{◌≡◌, ◌++◌, ℕ, List, [], map, codes, decimal, string_bytes};
ghost use Rattle.std.specs.Prelude.{IfOk, OnOk};
ghost use Rattle.am_universe.specs.Text.{quoted_text};
ghost use Rattle.am_config.specs.Path.{path_text, step_text};
ghost use Rattle.am_report_texts.specs.MatchersText.{matcher_text, matchers_text};
ghost use Rattle.am_report_texts.specs.NameText.{name_text};
ghost use Rattle.am_report_texts.specs.Separated.{texts_behind};
ghost use Rattle.am_report_texts.specs.Line.{inhibitor_text, label_text, line_text, mark_of};
ghost use Rattle.am_report_texts.specs.Line.{piece_text, pieces_line, report_text};
ghost use Rattle.am_report_texts.specs.Line.{shown_route_text, shown_text, unbroken, word_behind};
ghost use Rattle.am_report_texts.specs.LineView.{line_view, piece_view, pieces_view, report_view};
ghost use Rattle.am_report_texts.specs.LineView.{route_view, shown_view};

use crate::lines::{Level, Line, Name, Piece, Report, Shown, ShownRoute};
use crate::{gap_before, push_name, push_quoted};
use am_config::Path;
use am_labels::Matcher;
use std::alloc::{AllocError, Global};

/// Returns a report as a text: a text line for each line, and the last line.
pub(crate) fn text_of(alloc: Global, report: &Report<'_>) -> Result<String, AllocError>
    ensures text { IfOk result (λ text. string_bytes text ≡ report_text (report_view report.now)) }
{
    let mut text = String::new(alloc);
    push_each(alloc, &mut text, "", report.lines.as_slice())?;
    push_pieces(alloc, &mut text, report.last.as_slice())?;
    Ok(text)
}

/// What may be an item of a list.
pub(crate) trait TextItem {
    ghost item_text: { Self → List ℕ };

    /// Adds its text.
    fn push_to(&self, alloc: Global, text: &mut String) -> Result<(), AllocError>
        ensures { OnOk result (string_bytes text.new
            ≡ string_bytes text.old ++ item_text self.now) };
}

/// Adds items, with a gap between each two.
fn push_each<T: TextItem>(
    alloc: Global,
    text: &mut String,
    gap: &'static str,
    items: &[T],
) -> Result<(), AllocError>
    ensures { OnOk result (string_bytes text.new ≡ string_bytes text.old
        ++ texts_behind [] gap.now T.item_text items.now) }
{
    for (i, item) in items.iter().enumerate() {
        text.push_str(gap_before(i, "", gap))?;
        item.push_to(alloc, text)?;
    }
    Ok(())
}

impl TextItem for Line<'_> {
    ghost item_text = { λ line. line_text (line_view line) };

    fn push_to(&self, alloc: Global, text: &mut String) -> Result<(), AllocError> {
        text.push_str(mark_of(self.level))?;
        push_pieces(alloc, text, self.pieces.as_slice())
    }
}

/// What stands in front of a line, by its level.
fn mark_of(level: Level) -> &'static str
    ensures { result.now ≡ mark_of level }
{
    match level {
        Level::Note => "note ",
        Level::Finding | Level::Plain => "",
    }
}

/// Adds pieces, one behind the other, and a line feed.
fn push_pieces(alloc: Global, text: &mut String, pieces: &[Piece<'_>]) -> Result<(), AllocError>
    ensures { OnOk result (string_bytes text.new
        ≡ string_bytes text.old ++ pieces_line (pieces_view pieces.now)) }
{
    push_each(alloc, text, "", pieces)?;
    text.push_str("\n")
}

impl TextItem for Piece<'_> {
    ghost item_text = { λ piece. piece_text (piece_view piece) };

    fn push_to(&self, alloc: Global, text: &mut String) -> Result<(), AllocError> {
        match self {
            Piece::Words(words) => push_unbroken(text, words),
            Piece::Value(_, shown) => push_shown(alloc, text, shown),
        }
    }
}

/// Adds words without their line feeds, so that they cannot end the line.
fn push_unbroken(text: &mut String, words: &str) -> Result<(), AllocError>
    ensures { OnOk result (string_bytes text.new ≡ string_bytes text.old ++ unbroken words.now) }
{
    for character in words.chars() {
        if character != '\n' {
            text.push(character)?;
        }
    }
    Ok(())
}

fn push_shown(alloc: Global, text: &mut String, shown: &Shown<'_>) -> Result<(), AllocError>
    ensures { OnOk result (string_bytes text.new
        ≡ string_bytes text.old ++ shown_text (shown_view shown.now)) }
{
    match shown {
        Shown::Word(word) => push_unbroken(text, word),
        Shown::Number(number) => push_number(text, *number),
        Shown::Name(name) => push_name(text, name),
        Shown::Names(names) => push_each(alloc, text, ",", names.as_slice()),
        Shown::Pointer(pointer) => push_unbroken(text, pointer.as_str()),
        Shown::Text(shown) => push_quoted(text, shown),
        Shown::Texts(texts) => push_each(alloc, text, ",", texts.as_slice()),
        Shown::Path(path) => push_path(alloc, text, path),
        Shown::Labels(labels) => push_in_braces(alloc, text, labels.as_slice()),
        Shown::Matchers(matchers) => push_in_braces(alloc, text, matchers.as_slice()),
        Shown::Lists(lists) => push_each(alloc, text, " or ", lists.as_slice()),
        Shown::Routes(routes) => push_each(alloc, text, ", ", routes.as_slice()),
        Shown::Inhibitors(inhibitors) => push_each(alloc, text, ",", inhibitors),
    }
}

/// Adds a number in decimal.
fn push_number(text: &mut String, number: u64) -> Result<(), AllocError>
    ensures { OnOk result (string_bytes text.new ≡ string_bytes text.old ++ decimal number) }
{
    text.push_str(itoa::Buffer::new().format(number))
}

/// Adds the path of a route, such as `/3/2`, or `/` for the top-level route.
pub(crate) fn push_path(alloc: Global, text: &mut String, path: &Path) -> Result<(), AllocError>
    ensures { OnOk result
        (string_bytes text.new ≡ string_bytes text.old ++ path_text path.now) }
{
    if path.len() == 0 {
        return text.push_str("/");
    }
    push_each(alloc, text, "", path.steps())
}

/// A position on a path.
impl TextItem for u16 {
    ghost item_text = { step_text };

    fn push_to(&self, _alloc: Global, text: &mut String) -> Result<(), AllocError> {
        text.push_str("/")?;
        push_number(text, u64::from(*self))
    }
}

/// Adds items in braces, with a comma between each two.
fn push_in_braces<T: TextItem>(
    alloc: Global,
    text: &mut String,
    items: &[T],
) -> Result<(), AllocError>
    ensures { OnOk result (string_bytes text.new ≡ string_bytes text.old ++ (codes "{"
        ++ (texts_behind [] (codes ",") T.item_text items.now ++ codes "}"))) }
{
    text.push_str("{")?;
    push_each(alloc, text, ",", items)?;
    text.push_str("}")
}

impl TextItem for &str {
    ghost item_text = { λ text. quoted_text text.now };

    fn push_to(&self, _alloc: Global, text: &mut String) -> Result<(), AllocError> {
        push_quoted(text, self)
    }
}

impl TextItem for Name<'_> {
    ghost item_text = { λ name. name_text name.0.now };

    fn push_to(&self, _alloc: Global, text: &mut String) -> Result<(), AllocError> {
        push_name(text, self.0)
    }
}

/// A label and its value.
impl TextItem for (&str, &str) {
    ghost item_text = { λ label. label_text (label.0.now, label.1.now) };

    fn push_to(&self, _alloc: Global, text: &mut String) -> Result<(), AllocError> {
        push_name(text, self.0)?;
        text.push_str("=")?;
        push_quoted(text, self.1)
    }
}

impl TextItem for &Matcher {
    ghost item_text = { λ matcher. matcher_text matcher.now };

    fn push_to(&self, _alloc: Global, text: &mut String) -> Result<(), AllocError> {
        push_name(text, self.name())?;
        text.push_str(self.op().text())?;
        push_quoted(text, self.value())
    }
}

/// A list of matchers.
impl TextItem for Vec<&Matcher> {
    ghost item_text = { λ list. matchers_text (map (λ m. m.now) list.items) };

    fn push_to(&self, alloc: Global, text: &mut String) -> Result<(), AllocError> {
        push_in_braces(alloc, text, self.as_slice())
    }
}

impl TextItem for ShownRoute<'_> {
    ghost item_text = { λ route. shown_route_text (route_view route) };

    fn push_to(&self, alloc: Global, text: &mut String) -> Result<(), AllocError> {
        push_path(alloc, text, &self.path)?;
        text.push_str(" ")?;
        push_in_braces(alloc, text, self.matchers.as_slice())?;
        push_word_behind(text, self.kind)
    }
}

/// Adds a word and the blank before it, or nothing if the word is empty.
fn push_word_behind(text: &mut String, word: &str) -> Result<(), AllocError>
    ensures { OnOk result (string_bytes text.new
        ≡ string_bytes text.old ++ word_behind word.now) }
{
    if word.is_empty() {
        return Ok(());
    }
    text.push_str(" ")?;
    push_unbroken(text, word)
}

/// An inhibition rule and a firing alert.
impl TextItem for (usize, usize) {
    ghost item_text = { inhibitor_text };

    fn push_to(&self, _alloc: Global, text: &mut String) -> Result<(), AllocError> {
        push_number(text, self.0 as u64)?;
        text.push_str("/")?;
        push_number(text, self.1 as u64)
    }
}
