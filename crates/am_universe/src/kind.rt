ghost use Rattle.std.specs.Prelude.{◌≡◌};
ghost use Rattle.am_universe.specs.Kind.{kind_number, kind_text};
ghost use Rattle.am_universe.specs.declared.kind.Kind.TheVariants.{Memory};

use std::alloc::{AllocError, AllocFailed};

/// Why something was refused. Each kind has a number, and a word that the program prints.
#[derive(Clone, Copy, Debug, PartialEq, Eq)]
pub enum Kind {
    /// The bytes are not JSON (RFC 8259), are not UTF-8, or nest too deep.
    NotJson = 1,
    /// A value is of the wrong kind, a required field is missing, or a name is not a label name.
    Shape,
    /// An object has a field that its form does not have.
    UnknownField,
    /// A text is not a list of matchers, or the text of a label set has an operator other than `=`.
    BadMatcher,
    /// A pattern is outside the profile. The profile leaves out forms that Go's engine and the
    /// crate `regex` are known to refuse or to read differently.
    PatternProfile,
    /// The engine refuses a pattern of the profile.
    Pattern,
    /// A name or a value occurs a second time.
    Duplicate,
    /// A text or a list is empty, but must not be.
    Empty,
    /// A route names a receiver that is not declared.
    UndefinedReceiver,
    /// The top-level route has matchers.
    RootMatchers,
    /// A text is not an instant.
    BadTime,
    /// A limit is exceeded.
    Limit,
    /// A text is not a question.
    QuestionSyntax,
    /// The question names a receiver that is not declared.
    UnknownReceiver,
    /// The question names a route that the configuration does not have.
    UnknownRoute,
    /// The text is not a token of this universe.
    BadToken,
    /// The token was made from other inputs.
    OtherInputs = 21,
    /// Silences were given without an instant.
    NeedAt = 17,
    /// The writer failed, or took nothing.
    Write,
    /// Memory ran out.
    Memory,
    /// A file could not be read.
    Read,
    /// The program could not find out which values of a label its matchers tell apart.
    Unproved = 22,
    /// A label of a universe lacks a value that alerts may have.
    Incomplete,
}

impl Kind {
    /// The number of the kind, 1 to 23.
    pub fn number(self) -> u8
        ensures number { result ≡ kind_number self }
    {
        self as u8
    }

    /// The word for the kind that the program prints, as `not-json`.
    pub fn text(self) -> &'static str
        ensures text { result.now ≡ kind_text self }
    {
        match self {
            Kind::NotJson => "not-json",
            Kind::Shape => "shape",
            Kind::UnknownField => "unknown-field",
            Kind::BadMatcher => "bad-matcher",
            Kind::PatternProfile => "pattern-profile",
            Kind::Pattern => "pattern",
            Kind::Duplicate => "duplicate",
            Kind::Empty => "empty",
            Kind::UndefinedReceiver => "undefined-receiver",
            Kind::RootMatchers => "root-matchers",
            Kind::BadTime => "bad-time",
            Kind::Limit => "limit",
            Kind::QuestionSyntax => "question-syntax",
            Kind::UnknownReceiver => "unknown-receiver",
            Kind::UnknownRoute => "unknown-route",
            Kind::BadToken => "bad-token",
            Kind::OtherInputs => "other-inputs",
            Kind::NeedAt => "need-at",
            Kind::Write => "write",
            Kind::Memory => "memory",
            Kind::Read => "read",
            Kind::Unproved => "unproved",
            Kind::Incomplete => "incomplete",
        }
    }
}

impl From<AllocError> for Kind {
    ghost from_gives = { λ _ kind. kind ≡ Memory };

    fn from(_refused: AllocError) -> Kind {
        Kind::Memory
    }
}

impl<T: Drop> From<AllocFailed<T>> for Kind {
    ghost from_gives = { λ _ kind. kind ≡ Memory };

    fn from(_refused: AllocFailed<T>) -> Kind {
        Kind::Memory
    }
}
