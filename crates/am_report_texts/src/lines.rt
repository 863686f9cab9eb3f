//! The lines of a report, as values.
//!
//! A line is made of pieces. Some are words for the reader alone, and each other one has a name, so
//! that one function can write lines as a text and another as JSON.

ghost use Rattle.std.specs.Prelude.{◌≡◌};
ghost use Rattle.am_report_texts.specs.LineData.{field_name};

use am_config::Path;
use am_labels::Matcher;

/// The name that a piece has in JSON.
#[derive(Clone, Copy, PartialEq, Eq, Drop)]
pub enum Field {
    Alert,
    Alerts,
    Below,
    Changes,
    Classes,
    Equal,
    Findings,
    Gains,
    Group,
    Impossible,
    Inhibited,
    Intervals,
    Kind,
    Label,
    Labels,
    LabelSets,
    Lacks,
    Losses,
    Matchers,
    Name,
    New,
    Notes,
    Old,
    Options,
    Others,
    Part,
    Path,
    Pattern,
    Place,
    Pointer,
    Question,
    Reason,
    Receiver,
    Receivers,
    Routes,
    Rule,
    Rules,
    Shown,
    Silence,
    Silenced,
    Similar,
    Source,
    State,
    Target,
    Unless,
    Value,
}

impl Field {
    /// The name as a text.
    pub(crate) fn name(self) -> &'static str
        ensures { result.now ≡ field_name self }
    {
        match self {
            Field::Alert => "alert",
            Field::Alerts => "alerts",
            Field::Below => "below",
            Field::Changes => "changes",
            Field::Classes => "classes",
            Field::Equal => "equal",
            Field::Findings => "findings",
            Field::Gains => "gains",
            Field::Group => "group",
            Field::Impossible => "impossible",
            Field::Inhibited => "inhibited",
            Field::Intervals => "intervals",
            Field::Kind => "kind",
            Field::Label => "label",
            Field::Labels => "labels",
            Field::LabelSets => "label_sets",
            Field::Lacks => "lacks",
            Field::Losses => "losses",
            Field::Matchers => "matchers",
            Field::Name => "name",
            Field::New => "new",
            Field::Notes => "notes",
            Field::Old => "old",
            Field::Options => "options",
            Field::Others => "others",
            Field::Part => "part",
            Field::Path => "path",
            Field::Pattern => "pattern",
            Field::Place => "place",
            Field::Pointer => "pointer",
            Field::Question => "question",
            Field::Reason => "reason",
            Field::Receiver => "receiver",
            Field::Receivers => "receivers",
            Field::Routes => "routes",
            Field::Rule => "rule",
            Field::Rules => "rules",
            Field::Shown => "shown",
            Field::Silence => "silence",
            Field::Silenced => "silenced",
            Field::Similar => "similar",
            Field::Source => "source",
            Field::State => "state",
            Field::Target => "target",
            Field::Unless => "unless",
            Field::Value => "value",
        }
    }
}

/// Whether a line is a finding or a note, in a report that tells these apart. The text of a note
/// begins with the word `note`.
#[derive(Clone, Copy, PartialEq, Eq, Drop)]
pub enum Level {
    Finding,
    Note,
    /// The report does not tell them apart.
    Plain,
}

/// A route as a list of routes shows it.
#[derive(Drop)]
pub struct ShownRoute<'a> {
    pub path: Path,
    pub matchers: Vec<&'a Matcher>,
    /// The word for what is said of it, or the empty text.
    pub kind: &'a str,
}

/// The name of a label or of a field.
#[derive(Clone, Copy, Drop)]
pub struct Name<'a>(pub &'a str);

/// What a piece shows.
#[derive(Drop)]
pub enum Shown<'a> {
    /// A word, as it is.
    Word(&'a str),
    Number(u64),
    /// The name of a label or of a field.
    Name(&'a str),
    Names(Vec<Name<'a>>),
    /// A text, in quotes.
    Text(&'a str),
    /// Texts, each in quotes.
    Texts(Vec<&'a str>),
    /// A JSON pointer.
    Pointer(String),
    /// The path of a route.
    Path(Path),
    /// A label set, with its labels in order.
    Labels(Vec<(&'a str, &'a str)>),
    Matchers(Vec<&'a Matcher>),
    /// Lists of matchers.
    Lists(Vec<Vec<&'a Matcher>>),
    Routes(Vec<ShownRoute<'a>>),
    /// Inhibition rules, each with a firing alert that inhibits by it, by their positions.
    Inhibitors(&'a [(usize, usize)]),
}

/// A piece of a line.
#[derive(Drop)]
pub enum Piece<'a> {
    /// Words for the reader of the text. JSON does not have them.
    Words(&'static str),
    /// Something that has a name in JSON.
    Value(Field, Shown<'a>),
}

/// A line of a report.
#[derive(Drop)]
pub struct Line<'a> {
    pub level: Level,
    /// Its pieces, in order.
    pub pieces: Vec<Piece<'a>>,
}

/// A report: its lines, and the pieces of its last line, which says how many there are.
#[derive(Drop)]
pub struct Report<'a> {
    pub lines: Vec<Line<'a>>,
    pub last: Vec<Piece<'a>>,
}
