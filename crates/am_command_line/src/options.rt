//! What a command takes: the options and words of all commands, each once.

use crate::steps::MIN_STEPS;

/// A command: its name, what it is for, its help, and what it takes, in the order of the help.
#[derive(Clone, Copy)]
pub(crate) struct CommandRow<'a> {
    pub(crate) name: &'a str,
    pub(crate) about: &'a str,
    pub(crate) help: &'a str,
    pub(crate) takes: &'a [(Argument<'a>, Need<'a>)],
}

/// An option or a word. The values that a command line gives it are found by its `id`.
#[derive(Clone, Copy)]
pub(crate) struct Argument<'a> {
    pub(crate) id: &'a str,
    pub(crate) form: Form<'a>,
    pub(crate) help: &'a str,
}

/// How an option or a word is written. An option's name comes first, without its `--`, and then
/// what the help calls its value.
#[derive(Clone, Copy)]
pub(crate) enum Form<'a> {
    /// An option with no value.
    Flag(&'a str),
    /// An option with a value.
    Value(&'a str, &'a str),
    /// An option with a value, which may be repeated.
    Values(&'a str, &'a str),
    /// An option with a number, which is at least this one.
    Number(&'a str, u64),
    /// A word.
    Word(&'a str),
    /// One or more words.
    Words(&'a str),
}

/// Whether a command needs an option or a word.
#[derive(Clone, Copy)]
pub(crate) enum Need<'a> {
    Optional,
    Required,
    /// It is optional, and excludes the option with this id.
    Without(&'a str),
}

/// What every command takes, behind what is its own.
pub(crate) const OF_EACH_COMMAND: [(Argument, Need); 2] = [
    (NOTES, Need::Without("no-notes")),
    (NO_NOTES, Need::Optional),
];

pub(crate) const CONFIG: Argument = Argument {
    id: "config",
    form: Form::Value("config", "FILE"),
    help: "The Alertmanager configuration, as JSON",
};

pub(crate) const OLD: Argument = Argument {
    id: "old",
    form: Form::Value("old", "FILE"),
    help: "The old Alertmanager configuration, as JSON",
};

pub(crate) const NEW: Argument = Argument {
    id: "new",
    form: Form::Value("new", "FILE"),
    help: "The new Alertmanager configuration, as JSON",
};

pub(crate) const SILENCES: Argument = Argument {
    id: "silences",
    form: Form::Value("silences", "FILE"),
    help: "The silences, as exported by amtool silence query -o json",
};

pub(crate) const ALERTS: Argument = Argument {
    id: "alerts",
    form: Form::Value("alerts", "FILE"),
    help: "The firing alerts, as exported by amtool alert query -a -s -i -u -o json",
};

pub(crate) const RULES: Argument = Argument {
    id: "rules",
    form: Form::Value("rules", "FILE"),
    help: "The alerting rules: a Prometheus rules file, as JSON",
};

pub(crate) const AT: Argument = Argument {
    id: "at",
    form: Form::Value("at", "TIME"),
    help: "The time to ask about: now, or one such as 2024-05-01T10:00:00Z",
};

/// The time of `ask`, which does not take `now`: each page is asked for with the same words.
pub(crate) const AT_OF_ASK: Argument = Argument {
    id: "at",
    form: Form::Value("at", "TIME"),
    help: "The time to ask about, such as 2024-05-01T10:00:00Z",
};

pub(crate) const UNIVERSE: Argument = Argument {
    id: "universe",
    form: Form::Value("universe", "FILE"),
    help: "The universe, a JSON file",
};

/// The universe file of a command that makes its own universe.
pub(crate) const IMPOSSIBLE: Argument = Argument {
    id: "universe",
    form: Form::Value("universe", "FILE"),
    help: "A universe, a JSON file, that says which label sets never occur",
};

pub(crate) const ASCII: Argument = Argument {
    id: "ascii",
    form: Form::Flag("ascii"),
    help: "Count only alerts whose values are printable ASCII",
};

pub(crate) const JSON: Argument = Argument {
    id: "json",
    form: Form::Flag("json"),
    help: "Print one JSON document, for programs such as jq",
};

pub(crate) const NOTES: Argument = Argument {
    id: "notes",
    form: Form::Flag("notes"),
    help: "Print notes to standard error, even if it is no terminal",
};

pub(crate) const NO_NOTES: Argument = Argument {
    id: "no-notes",
    form: Form::Flag("no-notes"),
    help: "Print no notes, even on a terminal",
};

pub(crate) const LIMIT: Argument = Argument {
    id: "limit",
    form: Form::Number("limit", 1),
    help: "Print at most N label sets, 1 to 4294967295, and a token if there are more",
};

pub(crate) const STEPS: Argument = Argument {
    id: "steps",
    form: Form::Number("steps", MIN_STEPS),
    help: "Stop the search after N steps, 65 to 4294967295, with a token to continue",
};

pub(crate) const AFTER: Argument = Argument {
    id: "after",
    form: Form::Value("after", "TOKEN"),
    help: "Continue after the page of the same inputs that ended with this token",
};

pub(crate) const ASKED: Argument = Argument {
    id: "question",
    form: Form::Word("QUESTION"),
    help: "The question, such as receiver db-pager or {team=\"db\"}",
};

pub(crate) const ASKED_OF_ALERTS: Argument = Argument {
    id: "question",
    form: Form::Word("QUESTION"),
    help: "The question, such as receiver db-pager or silenced; without one, any",
};

pub(crate) const SET: Argument = Argument {
    id: "set",
    form: Form::Words("SET"),
    help: "The label set, such as team=db,severity=warning or team=db severity=warning",
};

pub(crate) const CHECK: Argument = Argument {
    id: "universe",
    form: Form::Value("check", "UNIVERSE"),
    help: "Say what this universe, a JSON file, lacks, and make none",
};

pub(crate) const FROM: Argument = Argument {
    id: "from",
    form: Form::Value("from", "UNIVERSE"),
    help: "Keep this universe, a JSON file, and add what it lacks",
};

/// A question of which `universe` counts the matchers.
pub(crate) const COUNTED: Argument = Argument {
    id: "question",
    form: Form::Values("question", "QUESTION"),
    help: "Count the matchers of this question too; may be repeated",
};

/// A receiver that a report is asked about.
pub(crate) const RECEIVER: Argument = Argument {
    id: "receiver",
    form: Form::Values("receiver", "NAME"),
    help: "Print only the lines with this receiver; may be repeated",
};

pub(crate) const ROUTES: Argument = Argument {
    id: "routes",
    form: Form::Flag("routes"),
    help: "Count only the matchers of routes",
};

pub(crate) const OPEN: Argument = Argument {
    id: "open",
    form: Form::Flag("open"),
    help: "Print the universe even if a label is unproved",
};
