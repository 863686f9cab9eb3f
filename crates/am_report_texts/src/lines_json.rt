//! Reports as JSON.
#![tactic(auto, using(crate::proofs::PieceSteps::member_steps))]

ghost use Rattle.std.specs.Prelude.{◌≡◌, ◌∷◌, [], map, IfOk, OnOk};
ghost use Rattle.std.specs.List.{flat_map};
ghost use Rattle.serde_json.specs.Data.{Data, string};
ghost use Rattle.serde_json.specs.View.{members_view, view};
ghost use Rattle.am_report_texts.specs.LineData.{array_of, inhibitor_data, kind_members};
ghost use Rattle.am_report_texts.specs.LineData.{level_members, line_data, matchers_data};
ghost use Rattle.am_report_texts.specs.LineData.{number_data};
ghost use Rattle.am_report_texts.specs.LineData.{object_of, path_members, piece_members};
ghost use Rattle.am_report_texts.specs.LineData.{report_data, route_data, shown_members};
ghost use Rattle.am_report_texts.specs.LineData.{with_members};
ghost use Rattle.am_report_texts.specs.LineView.{line_view, piece_view, pieces_view, report_view};
ghost use Rattle.am_report_texts.specs.LineView.{route_view, shown_view};
ghost use Rattle.am_report_texts.specs.MatchersText.{matcher_text};

use crate::lines::{Level, Line, Name, Piece, Report, Shown, ShownRoute};
use crate::lines_text::{TextItem, push_path};
use am_config::Path;
use am_labels::Matcher;
use serde_json::{Map, Value, put};
use std::alloc::{AllocError, Global};

type Object = Map<String, Value>;

/// Returns a report as JSON.
pub(crate) fn json_of(alloc: Global, report: &Report<'_>) -> Result<Value, AllocError>
    ensures { IfOk result (λ value. view value ≡ report_data (report_view report.now)) }
{
    let mut object = Map::new(alloc);
    put_each(alloc, &mut object, "lines", report.lines.as_slice())?;
    put_pieces(alloc, &mut object, report.last.as_slice())?;
    Ok(Value::Object(object))
}

/// What may be an item of an array.
trait Item {
    ghost item_data: { Self → Data };

    fn json(&self, alloc: Global) -> Result<Value, AllocError>
        ensures { IfOk result (λ value. view value ≡ item_data self.now) };
}

/// Adds an array.
fn put_each<T: Item>(
    alloc: Global,
    object: &mut Object,
    name: &str,
    items: &[T],
) -> Result<(), AllocError>
    ensures { OnOk result (members_view object.new.entries
        ≡ with_members (members_view object.old.entries)
        ((name.now, array_of T.item_data items.now) ∷ [])) }
{
    put(object, alloc, name, array(alloc, items)?)
}

/// Returns items as an array.
fn array<T: Item>(alloc: Global, items: &[T]) -> Result<Value, AllocError>
    ensures { IfOk result (λ value. view value ≡ array_of T.item_data items.now) }
{
    let mut values = Vec::with_capacity(alloc, items.len())?;
    for item in items {
        values.push(item.json(alloc)?)?;
    }
    Ok(Value::Array(values))
}

impl Item for Line<'_> {
    ghost item_data = { λ line. line_data (line_view line) };

    fn json(&self, alloc: Global) -> Result<Value, AllocError> {
        let mut object = Map::new(alloc);
        put_level(alloc, &mut object, self.level)?;
        put_pieces(alloc, &mut object, self.pieces.as_slice())?;
        Ok(Value::Object(object))
    }
}

impl Item for ShownRoute<'_> {
    ghost item_data = { λ route. route_data (route_view route) };

    fn json(&self, alloc: Global) -> Result<Value, AllocError> {
        let mut object = Map::new(alloc);
        put_path(alloc, &mut object, "path", &self.path)?;
        put_each(alloc, &mut object, "matchers", self.matchers.as_slice())?;
        put_kind(alloc, &mut object, self.kind)?;
        Ok(Value::Object(object))
    }
}

impl Item for (usize, usize) {
    ghost item_data = { inhibitor_data };

    fn json(&self, alloc: Global) -> Result<Value, AllocError> {
        let mut object = Map::new(alloc);
        put(&mut object, alloc, "rule", Value::from(self.0))?;
        put(&mut object, alloc, "alert", Value::from(self.1))?;
        Ok(Value::Object(object))
    }
}

/// A matcher is a text, as in a configuration.
impl Item for &Matcher {
    ghost item_data = { λ matcher. string (matcher_text matcher.now) };

    fn json(&self, alloc: Global) -> Result<Value, AllocError> {
        let mut text = String::new(alloc);
        self.push_to(alloc, &mut text)?;
        Ok(Value::String(text))
    }
}

/// A list of matchers is an array of their texts.
impl Item for Vec<&Matcher> {
    ghost item_data = { λ list. matchers_data (map (λ m. m.now) list.items) };

    fn json(&self, alloc: Global) -> Result<Value, AllocError> {
        array(alloc, self.as_slice())
    }
}

impl Item for &str {
    ghost item_data = { λ text. string text.now };

    fn json(&self, alloc: Global) -> Result<Value, AllocError> {
        Value::try_from_str(alloc, self)
    }
}

impl Item for Name<'_> {
    ghost item_data = { λ name. string name.0.now };

    fn json(&self, alloc: Global) -> Result<Value, AllocError> {
        Value::try_from_str(alloc, self.0)
    }
}

impl Item for u16 {
    ghost item_data = { number_data };

    fn json(&self, _alloc: Global) -> Result<Value, AllocError> {
        Ok(Value::from(*self))
    }
}

fn put_level(alloc: Global, object: &mut Object, level: Level) -> Result<(), AllocError>
    ensures { OnOk result (members_view object.new.entries
        ≡ with_members (members_view object.old.entries) (level_members level)) }
{
    match level {
        Level::Finding => put_text(alloc, object, "level", "finding"),
        Level::Note => put_text(alloc, object, "level", "note"),
        Level::Plain => Ok(()),
    }
}

fn put_text(alloc: Global, object: &mut Object, name: &str, text: &str) -> Result<(), AllocError>
    ensures { OnOk result (members_view object.new.entries
        ≡ with_members (members_view object.old.entries) ((name.now, string text.now) ∷ [])) }
{
    put(object, alloc, name, Value::try_from_str(alloc, text)?)
}

fn put_pieces(alloc: Global, object: &mut Object, pieces: &[Piece<'_>]) -> Result<(), AllocError>
    ensures { OnOk result (members_view object.new.entries
        ≡ with_members (members_view object.old.entries)
        (flat_map piece_members (pieces_view pieces.now))) }
{
    for piece in pieces {
        put_piece(alloc, object, piece)?;
    }
    Ok(())
}

fn put_piece(alloc: Global, object: &mut Object, piece: &Piece<'_>) -> Result<(), AllocError>
    ensures { OnOk result (members_view object.new.entries
        ≡ with_members (members_view object.old.entries) (piece_members (piece_view piece.now))) }
{
    match piece {
        Piece::Words(_) => Ok(()),
        Piece::Value(field, shown) => put_shown(alloc, object, field.name(), shown),
    }
}

fn put_shown(
    alloc: Global,
    object: &mut Object,
    name: &str,
    shown: &Shown<'_>,
) -> Result<(), AllocError>
    ensures { OnOk result (members_view object.new.entries
        ≡ with_members (members_view object.old.entries)
        (shown_members name.now (shown_view shown.now))) }
{
    match shown {
        Shown::Word(text) | Shown::Name(text) | Shown::Text(text) => {
            put_text(alloc, object, name, text)
        }
        Shown::Pointer(pointer) => put_text(alloc, object, name, pointer.as_str()),
        Shown::Number(number) => put(object, alloc, name, Value::from(*number)),
        Shown::Names(names) => put_each(alloc, object, name, names.as_slice()),
        Shown::Texts(texts) => put_each(alloc, object, name, texts.as_slice()),
        Shown::Path(path) => put_path(alloc, object, name, path),
        Shown::Labels(labels) => put_labels(alloc, object, name, labels.as_slice()),
        Shown::Matchers(matchers) => put_each(alloc, object, name, matchers.as_slice()),
        Shown::Lists(lists) => put_each(alloc, object, name, lists.as_slice()),
        Shown::Routes(routes) => put_each(alloc, object, name, routes.as_slice()),
        Shown::Inhibitors(inhibitors) => put_each(alloc, object, name, inhibitors),
    }
}

/// Adds a path, as its text and as its positions.
fn put_path(alloc: Global, object: &mut Object, name: &str, path: &Path) -> Result<(), AllocError>
    ensures { OnOk result (members_view object.new.entries
        ≡ with_members (members_view object.old.entries) (path_members name.now path.now)) }
{
    let mut text = String::new(alloc);
    push_path(alloc, &mut text, path)?;
    put(object, alloc, name, Value::String(text))?;
    put_each(alloc, object, "positions", path.steps())
}

/// Adds a label set, as an object.
fn put_labels(
    alloc: Global,
    object: &mut Object,
    name: &str,
    labels: &[(&str, &str)],
) -> Result<(), AllocError>
    ensures { OnOk result (members_view object.new.entries
        ≡ with_members (members_view object.old.entries)
        ((name.now, object_of (map (λ l. (l.0.now, string l.1.now)) labels.now)) ∷ [])) }
{
    let mut set = Map::new(alloc);
    for (label, value) in labels {
        put_text(alloc, &mut set, label, value)?;
    }
    put(object, alloc, name, Value::Object(set))
}

/// Adds the word for what is said of a route, unless it is empty.
fn put_kind(alloc: Global, object: &mut Object, kind: &str) -> Result<(), AllocError>
    ensures { OnOk result (members_view object.new.entries
        ≡ with_members (members_view object.old.entries) (kind_members kind.now)) }
{
    if kind.is_empty() {
        return Ok(());
    }
    put_text(alloc, object, "kind", kind)
}
