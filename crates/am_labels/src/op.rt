ghost use Rattle.std.specs.Prelude.{◌≡◌};
ghost use Rattle.am_labels.specs.Matcher.{operator_text, comparison, is_equality};
ghost use Rattle.am_labels.specs.Matcher.{takes_pattern, negates};

/// The operator of a matcher (Alertmanager configuration reference 0.25, `<matcher>`).
#[derive(Clone, Copy, Debug, PartialEq, Eq)]
pub enum Op {
    /// `=`: the label has the value.
    Equal,
    /// `!=`: the label does not have the value.
    NotEqual,
    /// `=~`: the pattern matches the label's whole value.
    Matches,
    /// `!~`: the pattern does not match the label's whole value.
    NotMatches,
}

/// How an operator compares the value of a label.
#[derive(Clone, Copy, Debug, PartialEq, Eq)]
pub enum Comparison {
    /// With a text: whether they are equal.
    Text,
    /// With a pattern: whether it matches the whole value.
    Pattern,
}

impl Op {
    /// All operators, those with longer texts first. So the first one with which a text begins is
    /// the longest.
    pub const ALL: [Op; 4] = [Op::NotEqual, Op::Matches, Op::NotMatches, Op::Equal];

    /// How the operator is written.
    pub fn text(self) -> &'static str
        ensures text { result.now ≡ operator_text self }
    {
        match self {
            Op::Equal => "=",
            Op::NotEqual => "!=",
            Op::Matches => "=~",
            Op::NotMatches => "!~",
        }
    }

    /// How the operator compares the value of a label.
    pub fn comparison(self) -> Comparison
        ensures comparison { result ≡ comparison self }
    {
        match self {
            Op::Equal | Op::NotEqual => Comparison::Text,
            Op::Matches | Op::NotMatches => Comparison::Pattern,
        }
    }

    /// Whether the operator takes its value as a pattern.
    pub fn takes_pattern(self) -> bool
        ensures takes_pattern { result ≡ takes_pattern self }
    {
        matches!(self.comparison(), Comparison::Pattern)
    }

    /// Whether the operator is `=`.
    pub(crate) fn is_equality(self) -> bool
        ensures { result ≡ is_equality self }
    {
        matches!(self, Op::Equal)
    }

    /// Whether the operator is `!=` or `!~`, which negate a comparison.
    pub(crate) fn negates(self) -> bool
        ensures { result ≡ negates self }
    {
        matches!(self, Op::NotEqual | Op::NotMatches)
    }
}
